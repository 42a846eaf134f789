//! What tests of parts build: the texts of files, and their models.

use sn_model::{Model, build};
use sn_p21::read_file;
use sn_refs::{Checked, check};
use std::alloc::Global;
use std::test::Fail;

/// The text of a file with these instances.
pub fn file_text(alloc: Global, instances: &str) -> Result<String, Fail> {
    Ok(format!(in alloc;
        "ISO-10303-21;HEADER;FILE_DESCRIPTION((''),'1');FILE_NAME();FILE_SCHEMA(());ENDSEC;DATA;{instances}ENDSEC;END-ISO-10303-21;"
    )?)
}

/// The number of an instance, and what stands for it, or for it and further ones.
pub type Change = (u32, &'static str);

fn changed(number: u32, instance: &'static str, changes: &[Change]) -> &'static str {
    for (other, text) in changes {
        if *other == number {
            return text;
        }
    }
    instance
}

/// The text of a file with these instances and changes.
pub fn changed_text(
    alloc: Global,
    instances: &[Change],
    changes: &[Change],
) -> Result<String, Fail> {
    let mut lines = String::new(alloc);
    for (number, instance) in instances {
        let line = format!(in alloc; "#{}={};", number, changed(*number, instance, changes))?;
        lines.push_str(line.as_str())?;
    }
    file_text(alloc, lines.as_str())
}

/// The model of the file of this text.
pub fn model_of(alloc: Global, text: &[u8]) -> Result<Model, Fail> {
    let Ok(file) = read_file(alloc, text) else {
        return Err(Fail::from("not read"));
    };
    let Ok(model) = build(alloc, &file) else {
        return Err(Fail::from("no model"));
    };
    Ok(model)
}

/// The model of the file of this text, where it is sound.
pub fn checked_of(alloc: Global, text: &[u8]) -> Result<Checked, Fail> {
    let model = model_of(alloc, text)?;
    match check(alloc, model) {
        Ok(checked) => Ok(checked),
        Err(_) => Err(Fail::from("not sound")),
    }
}
