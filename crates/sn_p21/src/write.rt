//! Writing the canonical text of a file.

ghost use Rattle.std.specs.Prelude.{◌≡◌, ◌++◌, ◌∷◌, ◌-◌, ◌≤◌, [], length, take, drop, IfOk, OnOk, decimal, map, flat_map};
ghost use Rattle.sn_lex.specs.Form.{doubled};
ghost use Rattle.sn_p21.specs.Canonical.{canonical_text, words_text};
ghost use Rattle.sn_p21.specs.Grammar.{param_words, list_words, entity_words, instance_words, parts_words, header_words, data_words, section_words, plainest_sections, counted, rows_words};
ghost use Rattle.sn_p21.specs.PartText.{IsPartText};

use crate::file::{Bytes, Entity, File, Instance, Param, Params, Section};
use crate::instances::Instances;
use crate::laws::reads_canonical;
use itoa::Buffer;
use sn_geom::Memory;
use sqlite_items::Items;
use std::alloc::Global;

/// The canonical text of a file.
pub fn write_file(alloc: Global, f: &File) -> Result<Bytes, Memory>
    ensures text { IfOk result (λ written. written ≡ canonical_text f.now) }
    ensures read_back { IfOk result (λ written. IsPartText written f.now) }
{
    reads_canonical();
    let mut out = Vec::new(alloc);
    put(&mut out, b"ISO-10303-21;\nHEADER;\n")?;
    put_header(&mut out, f.header.as_slice())?;
    put(&mut out, b"ENDSEC;\n")?;
    put_sections(&mut out, f.sections.as_slice(), &f.instances)?;
    put(&mut out, b"END-ISO-10303-21;\n")?;
    Ok(Items::from_vec(out))
}

/// The canonical text of instances: the lines of a file's data section.
pub fn write_instances(alloc: Global, instances: &Instances) -> Result<Bytes, Memory>
    ensures { IfOk result (λ written. written ≡ words_text (rows_words instances.now)) }
{
    let mut out = Vec::new(alloc);
    put_rows(&mut out, instances, 0, instances.len())?;
    Ok(Items::from_vec(out))
}

fn put(out: &mut Vec<u8>, text: &[u8]) -> Result<(), Memory>
    ensures { OnOk result (out.new.items ≡ out.old.items ++ text.now) }
{
    out.extend_from_slice(text)?;
    Ok(())
}

fn put_header(out: &mut Vec<u8>, header: &[Entity]) -> Result<(), Memory>
    ensures { OnOk result (out.new.items ≡ out.old.items ++ words_text (flat_map header_words header.now)) }
{
    for entity in header {
        put_entity(out, entity)?;
        put(out, b";\n")?;
    }
    Ok(())
}

/// The sections of these instances.
fn put_sections(
    out: &mut Vec<u8>,
    sections: &[Section],
    instances: &Instances,
) -> Result<(), Memory>
    requires { counted sections.now ≡ length instances.now }
    ensures { OnOk result (out.new.items ≡ out.old.items ++ words_text (plainest_sections sections.now instances.now)) }
{
    let count = instances.len();
    let mut left = count;
    for section in sections {
        let first = count - left;
        left -= section.count as usize;
        put_section(out, section, instances, first, count - left)?;
    }
    Ok(())
}

/// A section whose instances are those from the first place to the end, this one not counted.
fn put_section(
    out: &mut Vec<u8>,
    section: &Section,
    instances: &Instances,
    first: usize,
    end: usize,
) -> Result<(), Memory>
    requires { end ≤ length instances.now }
    ensures { OnOk result (out.new.items ≡ out.old.items ++ words_text (section_words section.now (rows_words (take (end - first) (drop first instances.now))))) }
{
    put_data(out, &section.params)?;
    put_rows(out, instances, first, end)?;
    put(out, b"ENDSEC;\n")
}

fn put_data(out: &mut Vec<u8>, params: &Option<Params>) -> Result<(), Memory>
    ensures { OnOk result (out.new.items ≡ out.old.items ++ words_text (data_words params.now)) }
{
    match params {
        None => put(out, b"DATA;\n"),
        Some(params) => {
            put(out, b"DATA")?;
            put_list(out, params.as_slice())?;
            put(out, b";\n")
        }
    }
}

fn put_rows(
    out: &mut Vec<u8>,
    instances: &Instances,
    first: usize,
    end: usize,
) -> Result<(), Memory>
    requires { end ≤ length instances.now }
    ensures { OnOk result (out.new.items ≡ out.old.items ++ words_text (rows_words (take (end - first) (drop first instances.now)))) }
{
    for place in first..end {
        if let Some(instance) = instances.at(place) {
            put_instance(out, instance)?;
        }
    }
    Ok(())
}

fn put_instance(out: &mut Vec<u8>, instance: &Instance) -> Result<(), Memory>
    ensures { OnOk result (out.new.items ≡ out.old.items ++ words_text (instance_words instance.now.number (parts_words instance.now.parts))) }
{
    put_number(out, instance.number)?;
    put(out, b"=")?;
    put_parts(out, instance.parts.as_slice())?;
    put(out, b";\n")
}

fn put_parts(out: &mut Vec<u8>, parts: &[Entity]) -> Result<(), Memory>
    ensures { OnOk result (out.new.items ≡ out.old.items ++ words_text (parts_words parts.now)) }
{
    if let [part] = parts {
        return put_entity(out, part);
    }
    put(out, b"(")?;
    for part in parts {
        put_entity(out, part)?;
    }
    put(out, b")")
}

fn put_entity(out: &mut Vec<u8>, entity: &Entity) -> Result<(), Memory>
    ensures { OnOk result (out.new.items ≡ out.old.items ++ words_text (entity_words entity.now)) }
{
    put(out, entity.keyword.as_slice())?;
    put_list(out, entity.params.as_slice())
}

#[cycle(params)]
fn put_list(out: &mut Vec<u8>, params: &[Param]) -> Result<(), Memory>
    ensures { OnOk result (out.new.items ≡ out.old.items ++ words_text (list_words (map param_words params.now))) }
{
    put(out, b"(")?;
    for (i, param) in params.iter().enumerate() {
        put(out, if i > 0 { b"," } else { b"" })?;
        put_param(out, param)?;
    }
    put(out, b")")
}

#[cycle(params)]
fn put_param(out: &mut Vec<u8>, param: &Param) -> Result<(), Memory>
    ensures { OnOk result (out.new.items ≡ out.old.items ++ words_text (param_words param.now)) }
{
    match param {
        Param::Int(spelling) => put(out, spelling.as_slice()),
        Param::Real(spelling) => put(out, spelling.as_slice()),
        Param::Text(value) => put_text(out, value.as_slice()),
        Param::Enum(name) => put_between(out, b".", name.as_slice()),
        Param::Binary(digits) => put_between(out, b"\"", digits.as_slice()),
        Param::Ref(number) => put_number(out, *number),
        Param::List(params) => put_list(out, params.as_slice()),
        Param::Typed(keyword, params) => {
            put(out, keyword.as_slice())?;
            put_list(out, params.as_slice())
        }
        Param::Absent => put(out, b"$"),
        Param::Derived => put(out, b"*"),
    }
}

/// The text with this mark on both sides.
fn put_between(out: &mut Vec<u8>, mark: &[u8], text: &[u8]) -> Result<(), Memory>
    ensures { OnOk result (out.new.items ≡ out.old.items ++ (mark.now ++ text.now ++ mark.now)) }
{
    put(out, mark)?;
    put(out, text)?;
    put(out, mark)
}

fn put_text(out: &mut Vec<u8>, value: &[u8]) -> Result<(), Memory>
    ensures { OnOk result (out.new.items ≡ out.old.items ++ (39 ∷ doubled value.now ++ 39 ∷ [])) }
{
    put(out, b"'")?;
    put_doubled(out, value)?;
    put(out, b"'")
}

/// The bytes, with each apostrophe twice.
fn put_doubled(out: &mut Vec<u8>, value: &[u8]) -> Result<(), Memory>
    ensures { OnOk result (out.new.items ≡ out.old.items ++ doubled value.now) }
{
    for byte in value {
        if *byte == b'\'' {
            out.push(b'\'')?;
        }
        out.push(*byte)?;
    }
    Ok(())
}

fn put_number(out: &mut Vec<u8>, number: u32) -> Result<(), Memory>
    ensures { OnOk result (out.new.items ≡ out.old.items ++ 35 ∷ decimal number) }
{
    let mut buffer = Buffer::new();
    put(out, b"#")?;
    put(out, buffer.format(number).as_bytes())
}
