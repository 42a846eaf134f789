//! Where the tip of the tool is, and how it moves.
ghost use Rattle.std.specs.Prelude.{◌≡◌};
ghost use Rattle.sn_geom.specs.Tip.{tip_after};

use crate::units::{Pt3, Um};

/// How much of the place of the tool's tip is known.
#[derive(Clone, Copy, Debug, PartialEq, Eq)]
pub enum Tip {
    /// Nothing, right after a tool change.
    Unknown,
    /// Its height alone.
    Height(Um),
    /// Its whole place.
    At(Pt3),
}

impl Tip {
    /// The tip after a motion to a point.
    pub fn after(self, to: &Pt3) -> Tip
        ensures { result ≡ tip_after self to.now }
    {
        match self {
            Tip::Unknown => Tip::Height(to.z),
            Tip::Height(_) | Tip::At(_) => Tip::At(*to),
        }
    }
}

/// How the machine moves: the words `G0` and `G1` of the group of motions (NISTIR 6556).
#[derive(Clone, Copy, Debug, PartialEq, Eq)]
pub enum MotionMode {
    Rapid,
    Feed,
}
