//! The places of an axis: the columns or the rows whose coordinates are multiples of the pitch.
ghost use Rattle.std.specs.Prelude.{◌≡◌, ◌↔◌, ◌+◌, ◌*◌, ◌≤◌, pos, ◌+ℤ◌, ◌-ℤ◌, IsTrue, unsigned_abs};
ghost use Rattle.std.specs.Int.{int_min, int_max};
ghost use Rattle.sn_geom.specs.Length.{IsLength};
ghost use Rattle.sn_outline.specs.JobRule.{IsPitch};
ghost use Rattle.sn_raster.specs.Grid.{first_place, last_place, places, AreInRange};

use sn_geom::{REACH, Um};

/// The first and the last place of an axis. There is none between them where the first is greater than the last.
#[derive(Clone, Copy)]
pub(crate) struct Places {
    pub(crate) first: i32,
    pub(crate) last: i32,
    ghost first_in: { IsLength first },
    ghost last_in: { IsLength last },
}

impl Places {
    /// The places whose coordinates are from `low` to `high`.
    pub(crate) fn between(low: Um, high: Um, pitch: u32) -> Places
        requires { IsPitch pitch }
        ensures first { result.first ≡ first_place pitch low }
        ensures last { result.last ≡ last_place pitch high }
    {
        Places {
            first: first_from(low.get(), pitch),
            last: last_up_to(high.get(), pitch),
        }
    }

    /// The places whose coordinates are at most `margin` below `low` and above `high`.
    pub(crate) fn grown(low: Um, high: Um, margin: u32, pitch: u32) -> Places
        requires pitch { IsPitch pitch }
        requires margin { margin ≤ REACH }
        ensures first { result.first ≡ first_place pitch (low -ℤ pos margin) }
        ensures last { result.last ≡ last_place pitch (high +ℤ pos margin) }
    {
        Places {
            first: first_from(low.get() - margin as i32, pitch),
            last: last_up_to(high.get() + margin as i32, pitch),
        }
    }

    /// Those of them from `first` to `last`.
    pub(crate) fn cut_to(&self, first: i32, last: i32) -> Places
        requires first { IsLength first }
        requires last { IsLength last }
        ensures first { result.first ≡ int_max self.now.first first }
        ensures last { result.last ≡ int_min self.now.last last }
    {
        Places {
            first: self.first.max(first),
            last: self.last.min(last),
        }
    }

    /// How many there are.
    pub(crate) fn count(&self) -> u32
        ensures value { result ≡ places self.now.first self.now.last }
        ensures size { result ≤ 2 * REACH + 1 }
    {
        (self.last + 1 - self.first).max(0).unsigned_abs()
    }

    /// Whether the first and the last have coordinates in the range.
    pub(crate) fn are_in_range(&self, pitch: u32) -> bool
        requires { IsPitch pitch }
        ensures { IsTrue result ↔ AreInRange pitch self.now.first self.now.last }
    {
        is_in_range(self.first, pitch) && is_in_range(self.last, pitch)
    }
}

/// The first place whose coordinate is not below `low`.
fn first_from(low: i32, pitch: u32) -> i32
    requires pitch { IsPitch pitch }
    requires low { unsigned_abs low ≤ 2 * REACH }
    ensures value { result ≡ first_place pitch low }
    ensures size { IsLength result }
{
    -last_up_to(-low, pitch)
}

/// The last place whose coordinate is not above `high`.
fn last_up_to(high: i32, pitch: u32) -> i32
    requires pitch { IsPitch pitch }
    requires high { unsigned_abs high ≤ 2 * REACH }
    ensures value { result ≡ last_place pitch high }
    ensures size { IsLength result }
{
    high.div_euclid(pitch as i32)
}

fn is_in_range(place: i32, pitch: u32) -> bool
    requires pitch { IsPitch pitch }
    ensures { IsTrue result ↔ (unsigned_abs place * pitch ≤ REACH) }
{
    u64::from(place.unsigned_abs()) * u64::from(pitch) <= u64::from(REACH)
}
