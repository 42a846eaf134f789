//! Options and assignments, read one after another.

ghost use Rattle.std.specs.Prelude.{◌≡◌, ◌≢◌, ◌+◌, ◌<◌, ◌≤◌, ◌^◌, ◌↔◌, ℕ, List, IsTrue, IfOk, IfSome, IfNone, Some, Ok, Err, length, drop, slice_get, codes, All, Any, MatchBool};
ghost use Rattle.sn_words.specs.Reading.{EndsSeen, StopsAt, TakesSetting, nothing_seen};
ghost use Rattle.sn_words.specs.WordForms.{IsBoxWord, IsPitchWord};

use crate::fault::WordFault;
use crate::number::{read_assignment, read_box, read_pitch};
use crate::options::{Assign, RawBox};
use crate::seen::Seen;
use crate::words::Words;
use sn_geom::{one_reading, one_rounding};
use sqlite_items::Items;
use std::alloc::Global;

/// What the words from a place on say as options and assignments.
pub(crate) fn read_settings(alloc: Global, words: &Words, first: usize) -> Result<Seen, WordFault>
    requires { first ≤ length words.now }
    ensures ok { IfOk result (λ seen. EndsSeen nothing_seen (drop first words.now) seen) }
    ensures err { (place : ℕ) → result ≡ Err (WordFault.At place) → StopsAt words.now first nothing_seen place }
{
    one_reading();
    one_rounding();
    let mut seen = Seen {
        pitch: None,
        raw: None,
        sets: Items::new(alloc),
    };
    let mut at = first;
    while at < words.len() {
        at = take_setting(alloc, words, at, &mut seen)?;
    }
    Ok(seen)
}

/// Takes the option or the assignment at a place. The answer is the place behind it.
fn take_setting(
    alloc: Global,
    words: &Words,
    at: usize,
    seen: &mut Seen,
) -> Result<usize, WordFault>
    requires within { at < length words.now }
    requires small { at < 2 ^ 63 }
    ensures ok { IfOk result (λ next. TakesSetting words.now at next seen.old seen.new) }
    ensures err { (place : ℕ) → result ≡ Err (WordFault.At place) → StopsAt words.now at seen.old place }
{
    let word = words.get(at);
    if word == b"--cell".as_slice() {
        return take_cell(words, at, seen);
    }
    if word == b"--raw".as_slice() {
        return take_raw(words, at, seen);
    }
    take_assignment(alloc, words, at, seen)
}

/// Takes `--cell` and the pitch behind it.
fn take_cell(words: &Words, at: usize, seen: &mut Seen) -> Result<usize, WordFault>
    requires word { slice_get words.now at ≡ Some (codes "--cell") }
    requires small { at < 2 ^ 63 }
    ensures ok { IfOk result (λ next. TakesSetting words.now at next seen.old seen.new) }
    ensures err { (place : ℕ) → result ≡ Err (WordFault.At place) → StopsAt words.now at seen.old place }
{
    if seen.pitch.is_some() {
        return Err(WordFault::At(at + 1));
    }
    let Some(pitch) = pitch_at(words, at + 1) else {
        return Err(WordFault::At(at + 2));
    };
    seen.pitch = Some(pitch);
    Ok(at + 2)
}

/// Takes `--raw` and the box behind it.
fn take_raw(words: &Words, at: usize, seen: &mut Seen) -> Result<usize, WordFault>
    requires word { slice_get words.now at ≡ Some (codes "--raw") }
    requires small { at < 2 ^ 63 }
    ensures ok { IfOk result (λ next. TakesSetting words.now at next seen.old seen.new) }
    ensures err { (place : ℕ) → result ≡ Err (WordFault.At place) → StopsAt words.now at seen.old place }
{
    if seen.raw.is_some() {
        return Err(WordFault::At(at + 1));
    }
    let Some(raw) = box_at(words, at + 1) else {
        return Err(WordFault::At(at + 2));
    };
    seen.raw = Some(raw);
    Ok(at + 2)
}

/// Takes an assignment.
fn take_assignment(
    alloc: Global,
    words: &Words,
    at: usize,
    seen: &mut Seen,
) -> Result<usize, WordFault>
    requires within { at < length words.now }
    requires small { at < 2 ^ 63 }
    requires not_cell { slice_get words.now at ≢ Some (codes "--cell") }
    requires not_raw { slice_get words.now at ≢ Some (codes "--raw") }
    ensures ok { IfOk result (λ next. TakesSetting words.now at next seen.old seen.new) }
    ensures err { (place : ℕ) → result ≡ Err (WordFault.At place) → StopsAt words.now at seen.old place }
{
    one_reading();
    one_rounding();
    let Some((name, value)) = read_assignment(words.get(at)) else {
        return Err(WordFault::At(at + 1));
    };
    if has_name(seen.sets.as_slice(), name) {
        return Err(WordFault::At(at + 1));
    }
    let name = Items::from_slice(alloc, name)?;
    seen.sets.push(Assign { name, value })?;
    Ok(at + 1)
}

/// Whether one of the assignments has this name.
fn has_name(sets: &[Assign], name: &[u8]) -> bool
    ensures { MatchBool result (Any (λ a. a.name ≡ name.now) sets.now) (All (λ a. a.name ≢ name.now) sets.now) }
{
    for set in sets {
        if set.name.as_slice() == name {
            return true;
        }
    }
    false
}

/// The pitch that the word at a place is.
fn pitch_at(words: &Words, k: usize) -> Option<u32>
    ensures some { IfSome result (λ pitch. (word : List ℕ) × (slice_get words.now k ≡ Some word) × IsPitchWord word pitch) }
    ensures none { IfNone result ((word : List ℕ) (pitch : ℕ) → slice_get words.now k ≡ Some word → ¬ IsPitchWord word pitch) }
{
    if k >= words.len() {
        return None;
    }
    read_pitch(words.get(k))
}

/// The raw box that the word at a place is.
fn box_at(words: &Words, k: usize) -> Option<RawBox>
    ensures some { IfSome result (λ box. (word : List ℕ) × (slice_get words.now k ≡ Some word) × IsBoxWord word box) }
    ensures none { IfNone result ((word : List ℕ) (box : RawBox) → slice_get words.now k ≡ Some word → ¬ IsBoxWord word box) }
{
    if k >= words.len() {
        return None;
    }
    read_box(words.get(k))
}
