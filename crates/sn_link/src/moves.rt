//! Moves of the tip, and those that bring a tool down to a layer and up again.
ghost use Rattle.std.specs.Prelude.{◌≡◌, ◌≤◌, IfOk, pos, ◌+ℤ◌};
ghost use Rattle.std.specs.Int.{int_min};
ghost use Rattle.sn_link.specs.Layering.{is_feed};
ghost use Rattle.sn_link.specs.Moves.{end_of, made, over, same_place, stands_at};

use sn_geom::{GAP, Memory, Pt, Pt3, REACH, Tip, Um};
use sqlite_items::Items;
use std::alloc::Global;

/// A straight move of the tip to a point.
#[derive(Clone, Copy, Debug, PartialEq, Eq)]
pub enum Move {
    Rapid(Pt3),
    Feed(Pt3),
}

/// Moves in order, seen as their list.
pub type Moves = Items<Move>;

impl Move {
    /// Where the move ends.
    pub fn end(self) -> Pt3
        ensures { result ≡ end_of self }
    {
        match self {
            Move::Rapid(end) | Move::Feed(end) => end,
        }
    }

    /// Whether the move is made at feed.
    pub(crate) fn is_feed(self) -> bool
        ensures { result ≡ is_feed self }
    {
        match self {
            Move::Rapid(_) => false,
            Move::Feed(_) => true,
        }
    }
}

/// The moves that are made from a tip: all but those that end where they start.
pub(crate) fn made(alloc: Global, tip: Tip, moves: &[Move]) -> Result<Moves, Memory>
    ensures { IfOk result (λ m. m ≡ made tip moves.now) }
{
    let mut made = Items::new(alloc);
    let mut at = tip;
    for to in moves {
        let end = to.end();
        if !stands(&at, &end) {
            made.push(*to)?;
            at = at.after(&end);
        }
    }
    Ok(made)
}

/// Whether the tip is known to stand at a point.
fn stands(tip: &Tip, at: &Pt3) -> bool
    ensures { result ≡ stands_at tip.now at.now }
{
    match *tip {
        Tip::Unknown | Tip::Height(_) => false,
        Tip::At(place) => is_same(&place, at),
    }
}

fn is_same(a: &Pt3, b: &Pt3) -> bool
    ensures { result ≡ same_place a.now b.now }
{
    a.x == b.x && a.y == b.y && a.z == b.z
}

/// The height where the feed begins.
#[tactic(auto, using(crate::proofs::MovesLemmas::start_within))]
pub(crate) fn feed_start(sec: Um, above: Um) -> Um
    ensures { result ≡ int_min sec (above +ℤ pos GAP) }
{
    let start = above.get() + GAP as i32;
    Um::of(sec.get().min(start))
}

/// The height where the feed up ends.
pub(crate) fn feed_end(low: Um, e: u32) -> Um
    requires { e ≤ REACH }
    ensures { result ≡ int_min (low +ℤ pos e) (pos REACH) }
{
    let end = low.get() + e as i32;
    Um::of(end.min(REACH as i32))
}

/// The point over a place in the plane.
pub fn over(place: &Pt, z: Um) -> Pt3
    ensures { result ≡ over place.now z }
{
    Pt3 {
        x: place.x,
        y: place.y,
        z,
    }
}
