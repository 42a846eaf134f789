//! Half widths of discs of nodes, in columns, for each count of rows from the middle.
ghost use Rattle.std.specs.Prelude.{◌≡◌, ◌↔◌, ◌+◌, ◌*◌, ◌≤◌, ◌<◌, ℕ, length};
ghost use Rattle.sn_outline.specs.JobRule.{IsPitch};
ghost use Rattle.sn_open.specs.Widths.{IsWithin, AreDiscWidths};

use sn_geom::{REACH, half_width};

/// Makes them those of the disc of diameter `d`.
pub(crate) fn set_disc_widths(widths: &mut [u32], d: u32, pitch: u32, rows: u32)
    requires diameter { d ≤ 2 * REACH }
    requires pitch { IsPitch pitch }
    requires room { length widths.old ≡ rows + 1 }
    ensures { AreDiscWidths d pitch rows widths.new }
{
    for k in 0..rows {
        widths[k as usize] = disc_width(d, pitch, k);
    }
    widths[rows as usize] = 0;
}

/// How many columns from the middle on the disc of diameter `d` has, `k` rows from it.
fn disc_width(d: u32, pitch: u32, k: u32) -> u32
    requires diameter { d ≤ 2 * REACH }
    requires pitch { IsPitch pitch }
    ensures { (m : ℕ) → m < result ↔ IsWithin d pitch m k }
{
    let dy = u64::from(k) * u64::from(pitch);
    if 2 * dy > u64::from(d) {
        return 0;
    }
    match half_width(d, dy as u32) {
        Some(w) => w / pitch + 1,
        None => 0,
    }
}
