//! The motion of a line.
ghost use Rattle.std.specs.Prelude.{◌≡◌, ◌&&◌, ◌||◌, unwrap_or};
ghost use Rattle.std.specs.Option.{ForSome};
ghost use Rattle.sn_geom.specs.Length.{IsLength};
ghost use Rattle.sn_geom.specs.Block.{value_of, z_of, has_z_alone, has_x_and_y};
ghost use Rattle.sn_geom.specs.Machine.{is_positive, is_rapid, is_feed, keeps, needs_lost, is_slanted, target, tip_after_words};
ghost use Rattle.sn_geom.specs.AxisWords.{AxesAreLengths};
ghost use Rattle.sn_machine.specs.LineActs.{target_at_height, motion_at_height};

use crate::words::{has_x_and_y, has_z_alone, value_of};
use sn_geom::{Motion, MotionMode, Pt3, Tip, Um, Word};

/// Whether the number is set and not 0.
pub(crate) fn is_positive(number: Option<u32>) -> bool
    ensures { result ≡ is_positive number }
{
    number.unwrap_or(0) != 0
}

pub(crate) fn is_rapid(motion: Option<MotionMode>) -> bool
    ensures { result ≡ is_rapid motion }
{
    match motion {
        None => false,
        Some(MotionMode::Rapid) => true,
        Some(MotionMode::Feed) => false,
    }
}

pub(crate) fn is_feed(motion: Option<MotionMode>) -> bool
    ensures { result ≡ is_feed motion }
{
    match motion {
        None => false,
        Some(MotionMode::Rapid) => false,
        Some(MotionMode::Feed) => true,
    }
}

/// Whether the axis of the letter keeps its value: it has no word, or a word of that value.
fn keeps(old: Um, words: &[Word], letter: u8) -> bool
    ensures { result ≡ keeps old (value_of words.now letter) }
{
    let old = old.get();
    value_of(words, letter).unwrap_or(old) == old
}

/// Whether the motion needs a coordinate that is not known.
pub(crate) fn needs_lost(tip: Tip, motion: Option<MotionMode>, words: &[Word]) -> bool
    ensures { result ≡ needs_lost tip motion words.now }
{
    match tip {
        Tip::Unknown => !(is_rapid(motion) && has_z_alone(words)),
        Tip::Height(z) => !(is_rapid(motion) && enters_or_locates(z, words)),
        Tip::At(_) => false,
    }
}

/// Whether the words move Z alone, or both X and Y at the height.
fn enters_or_locates(height: Um, words: &[Word]) -> bool
    ensures { result ≡ (has_z_alone words.now || (has_x_and_y words.now && keeps height (z_of words.now))) }
{
    has_z_alone(words) || (has_x_and_y(words) && keeps(height, words, b'Z'))
}

/// Whether the motion changes Z together with X or Y.
pub(crate) fn is_slanted(tip: Tip, words: &[Word]) -> bool
    ensures { result ≡ is_slanted tip words.now }
{
    match tip {
        Tip::Unknown => false,
        Tip::Height(_) => false,
        Tip::At(p) => {
            !keeps(p.z, words, b'Z') && !(keeps(p.x, words, b'X') && keeps(p.y, words, b'Y'))
        }
    }
}

/// The value of the axis of the letter, where it has no word the old one.
fn coordinate(old: Um, words: &[Word], letter: u8) -> Um
    requires { ForSome (value_of words.now letter) IsLength }
    ensures { result ≡ unwrap_or (value_of words.now letter) old }
{
    match value_of(words, letter) {
        Some(value) => Um::of(value),
        None => old,
    }
}

/// Where a motion from a known place ends.
pub(crate) fn target(from: &Pt3, words: &[Word]) -> Pt3
    requires { AxesAreLengths words.now }
    ensures { result ≡ target from.now words.now }
{
    Pt3 {
        x: coordinate(from.x, words, b'X'),
        y: coordinate(from.y, words, b'Y'),
        z: coordinate(from.z, words, b'Z'),
    }
}

/// Where a motion at a height ends.
fn target_at(height: Um, words: &[Word]) -> Pt3
    requires { AxesAreLengths words.now }
    ensures { result ≡ target_at_height height words.now }
{
    let from = Pt3 {
        x: Um::of(0),
        y: Um::of(0),
        z: height,
    };
    target(&from, words)
}

/// The height at which a motion of Z ends.
pub(crate) fn height(old: Um, words: &[Word]) -> Um
    requires { AxesAreLengths words.now }
    ensures { result ≡ unwrap_or (z_of words.now) old }
{
    coordinate(old, words, b'Z')
}

/// Where the tip is after a motion that is not faulty.
pub(crate) fn tip_after(tip: Tip, words: &[Word]) -> Tip
    requires { AxesAreLengths words.now }
    ensures { result ≡ tip_after_words tip words.now }
{
    match tip {
        Tip::Unknown => Tip::Height(height(Um::of(0), words)),
        Tip::Height(z) => tip_from(z, words),
        Tip::At(p) => Tip::At(target(&p, words)),
    }
}

/// Where the tip is after a motion that is not faulty, from a height.
fn tip_from(z: Um, words: &[Word]) -> Tip
    requires { AxesAreLengths words.now }
    ensures { result ≡ tip_after_words (Tip.Height z) words.now }
{
    if has_z_alone(words) {
        Tip::Height(height(z, words))
    } else {
        Tip::At(target_at(z, words))
    }
}

/// The motion of a line without a fault, from a height.
pub(crate) fn motion_from(z: Um, words: &[Word]) -> Motion
    requires { AxesAreLengths words.now }
    ensures { result ≡ motion_at_height z words.now }
{
    if has_z_alone(words) {
        Motion::Enter(height(z, words))
    } else {
        Motion::Locate(target_at(z, words))
    }
}
