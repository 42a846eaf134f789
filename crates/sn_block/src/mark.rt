//! Marks: comments that name a workingstep.
ghost use Rattle.std.specs.Prelude.{◌≡◌, ◌≤◌, nat_le, ◌==◌, ◌&&◌, length, slice_index, IsTrue, IfSome, if◌then◌else◌};
ghost use Rattle.std.specs.Str.Parse.{digits_value};
ghost use Rattle.sn_geom.specs.LineText as meaning;

use crate::number::{are_digits, number_behind};

/// The workingstep that the comment names, where it is `WS #` and a number.
#[tactic(auto, unfolding(sn_geom::specs::LineText::mark_of))]
pub fn mark_of(body: &[u8]) -> Option<u32>
    ensures value { result ≡ meaning.mark_of body.now }
    ensures least { IfSome result (λ n. 1 ≤ n) }
{
    if !begins_mark(body) {
        return None;
    }
    mark_number(&body[4..])
}

#[tactic(auto, unfolding(sn_geom::specs::LineText::begins_mark))]
fn begins_mark(body: &[u8]) -> bool
    ensures value { result ≡ meaning.begins_mark body.now }
    ensures long { IsTrue result → 4 ≤ length body.now }
{
    body.len() >= 4 && body[0] == b'W' && body[1] == b'S' && body[2] == b' ' && body[3] == b'#'
}

#[tactic(auto, unfolding(sn_geom::specs::LineText::is_mark_number))]
fn mark_number(digits: &[u8]) -> Option<u32>
    ensures value { result ≡ (if meaning.is_mark_number digits.now then Some (digits_value 10 digits.now) else None) }
    ensures least { IfSome result (λ n. 1 ≤ n) }
{
    if !are_digits(digits) {
        return None;
    }
    if begins_with_zero(digits) {
        return None;
    }
    let number = number_behind(1 << 32, 0, digits);
    if number == 0 {
        return None;
    }
    u32::try_from(number).ok()
}

fn begins_with_zero(digits: &[u8]) -> bool
    ensures { result ≡ (slice_index digits.now 0 == 48) }
{
    !digits.is_empty() && digits[0] == b'0'
}
