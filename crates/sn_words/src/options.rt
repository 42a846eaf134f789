//! What words ask for.

use crate::words::Words;
use sn_geom::Pt3;
use sn_p21::Bytes;
use sqlite_items::Items;
use std::marker::Model;

/// What the program is asked to do.
#[derive(Clone, Copy, Debug, PartialEq, Eq)]
pub enum Command {
    /// Write the program of a part.
    Compile,
    /// Judge a program by its part.
    Verify,
    /// Write the counts of a part.
    Report,
    /// Write a part that is generated from a seed.
    Make,
    /// Write the counts of such a part.
    Trial,
}

/// A raw box, by its low and its high corner.
#[derive(Clone, Copy, Debug, PartialEq, Eq)]
pub struct RawBox {
    pub low: Pt3,
    pub high: Pt3,
}

/// A variable's name, and the value that it is given, in thousandths.
#[derive(Debug, Drop)]
pub struct Assign {
    pub name: Bytes,
    pub value: i32,
}

/// Assignments, seen as their list.
pub type Assigns = Items<Assign>;

/// What words ask for.
///
/// The pitch is within its limits, each coordinate of the raw box's low corner is below that of the high one, each value is
/// within its limit, and no two assignments have one name.
#[derive(Drop)]
pub struct Opts {
    pub command: Command,
    /// The file words of the command, in order.
    pub files: Words,
    /// The seed of the part that is generated, and 0 for the other commands.
    pub seed: u32,
    /// The pitch of the grid, in units of length.
    pub pitch: u32,
    pub raw: Option<RawBox>,
    pub sets: Assigns,
}

impl Model for Opts {
    ghost use Rattle.sn_words.specs.Options.{Options, IsWithinLimits};

    ghost Value = { Options };

    ghost view = { λ o. record { command = o.command; files = o.files; seed = o.seed; pitch = o.pitch; raw = o.raw; sets = o.sets } };

    ghost invariant = { λ o. IsWithinLimits (record { command = o.command; files = o.files; seed = o.seed; pitch = o.pitch; raw = o.raw; sets = o.sets }) };
}
