//! A file: its header, its sections, and its instances in their order.

ghost use Rattle.std.specs.Prelude.{◌≡◌, IfOk};
ghost use Rattle.sn_p21.specs.Grammar.{IsFile};
ghost use Rattle.sn_p21.specs.OneSection.{in_one_section};

use crate::instances::Instances;
use sqlite_items::Items;
use std::alloc::{AllocError, Global};
use std::marker::Model;

/// Bytes, seen as their list.
pub type Bytes = Items<u8>;

/// The parameters of a list, seen as their list.
pub type Params = Items<Param>;

/// Header entities, or the parts of an instance, seen as their list.
pub type Entities = Items<Entity>;

/// A parameter.
#[derive(Debug, Drop)]
pub enum Param {
    /// An integer, as it is spelled.
    Int(Bytes),
    /// A real, as it is spelled.
    Real(Bytes),
    /// The value of a string: no apostrophes around it, and each one in it once.
    Text(Bytes),
    /// The name of an enumeration value, without its points.
    Enum(Bytes),
    /// The digits of a binary, without quotation marks.
    Binary(Bytes),
    /// The number of an instance.
    Ref(u32),
    List(Params),
    /// The keyword of a typed parameter, and a list of its one parameter.
    Typed(Bytes, Params),
    /// No value: `$`.
    Absent,
    /// A value that is derived: `*`.
    Derived,
}

/// A keyword with its parameters.
#[derive(Debug, Drop)]
pub struct Entity {
    pub keyword: Bytes,
    pub params: Params,
}

/// An instance with its number, which is not 0. One with one part is simple, one with more is complex.
#[derive(Debug, Drop)]
pub struct Instance {
    pub number: u32,
    pub parts: Entities,
}

/// A data section: the parameters of its DATA word, and how many of a file's instances are its own.
#[derive(Debug, Drop)]
pub struct Section {
    pub params: Option<Params>,
    pub count: u32,
}

/// The data sections of a file, seen as their list. The instances of each stand behind those of the one before it.
pub type Sections = Items<Section>;

/// A file: the entities of its header, its data sections, and the instances of all of them.
#[derive(Drop)]
pub struct File {
    pub header: Entities,
    pub sections: Sections,
    pub instances: Instances,
}

impl Model for File {
    ghost use Rattle.sn_p21.specs.Content.{Content};
    ghost use Rattle.std.specs.Coded.{codes};
    ghost use Rattle.sn_p21.specs.contracts.file.Param as param;

    ghost Value = { Content };

    ghost coded = { Prim.hlevel (codes, param.the_row.coded) };

    ghost use Rattle.sn_p21.specs.Grammar.{IsFile};

    ghost view = { λ a. record { header = a.header; sections = a.sections; instances = a.instances } };

    ghost invariant = { λ a. IsFile (record { header = a.header; sections = a.sections; instances = a.instances }) };
}

impl File {
    /// A file of one section that has no parameters.
    pub fn in_one_section(
        alloc: Global,
        header: Entities,
        instances: Instances,
    ) -> Result<File, AllocError>
        requires { IsFile (in_one_section header instances) }
        ensures { IfOk result (λ f. f ≡ in_one_section header instances) }
    {
        let Ok(count) = u32::try_from(instances.len()) else {
            return Err(AllocError);
        };
        let mut sections = Items::new(alloc);
        sections.push(Section {
            params: None,
            count,
        })?;
        Ok(File {
            header,
            sections,
            instances,
        })
    }
}
