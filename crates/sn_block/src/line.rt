//! Reading a line byte by byte.
ghost use Rattle.std.specs.Prelude.{◌≡◌, ◌↔◌, ◌≤◌, ◌==◌, not, IsTrue, None, Some, length, MatchResult};
ghost use Rattle.std.specs.List.{prefix_len};
ghost use Rattle.sn_geom.specs.Block as meaning;
ghost use Rattle.sn_geom.specs.LineText as text;
ghost use Rattle.sn_geom.specs.LineText.{IsLineFault, IsPercentLine, LineText};
ghost use Rattle.sn_block.specs.Steps.{step, place_of};

use crate::byte::{behind, capital, is_blank, is_letter, is_numeric};
use crate::mark::mark_of;
use crate::run::run_of;
use crate::said::Said;
use crate::word::take_word;
use sn_geom::{Block, LineFault, MOST_LINE, line_readings};

/// What a line of a program says, or its first fault. A line is given without its line feed.
///
/// `LongLine` goes before all other faults, then the least column, then the order of `LineFault`.
pub fn read_line(line: &[u8]) -> Result<Block, LineFault>
    ensures found { MatchResult result (LineText line.now) (IsLineFault line.now) }
    ensures every_block { (b : meaning.Block) → LineText line.now b → result ≡ Ok b }
    ensures every_fault { (f : LineFault) → IsLineFault line.now f → result ≡ Err f }
{
    line_readings();
    if line.len() > MOST_LINE {
        return Err(LineFault::LongLine);
    }
    if is_percent_line(line) {
        return Ok(Block::without_words(true));
    }
    read_items(line)
}

/// The line is a percent sign alone, among blanks.
fn is_percent_line(line: &[u8]) -> bool
    ensures { IsTrue result ↔ IsPercentLine line.now }
{
    let mut seen = false;
    for byte in line {
        if !is_blank(*byte) {
            if seen {
                return false;
            }
            if *byte != b'%' {
                return false;
            }
            seen = true;
        }
    }
    seen
}

/// Where a byte stands.
#[derive(Clone, Copy)]
enum Place {
    /// Outside comments, and behind no number.
    Between,
    /// Behind a letter or in its number.
    InNumber,
    InComment,
}

fn read_items(line: &[u8]) -> Result<Block, LineFault>
    requires short { length line.now ≤ MOST_LINE }
    requires no_percent { IsPercentLine line.now → ⊥ }
    ensures { MatchResult result (LineText line.now) (IsLineFault line.now) }
{
    line_readings();
    let mut said = Said::nothing();
    let mut place = Place::Between;
    for (i, byte) in line.iter().enumerate() {
        let rest = behind(line, i + 1);
        if begins_nothing(place, *byte, rest) {
            place = place_after(place, *byte);
            continue;
        }
        said = take(said, place, *byte, rest, i as u32 + 1)?;
        place = place_after(place, *byte);
    }
    Ok(said.into_block())
}

/// The byte is a blank, or goes on with a number or a comment: nothing begins at it, and it has no fault.
#[tactic(auto, unfolding(sn_geom::specs::LineText::item_at, sn_geom::specs::LineText::beginning))]
fn begins_nothing(place: Place, byte: u8, rest: &[u8]) -> bool
    ensures { IsTrue result → text.item_at (place_of place) byte rest.now ≡ None }
{
    match place {
        Place::Between => is_blank(byte),
        Place::InNumber => is_numeric(byte) || is_blank(byte),
        Place::InComment => byte != b'(',
    }
}

#[tactic(auto, unfolding(sn_geom::specs::LineText::place_after))]
fn place_after(place: Place, byte: u8) -> Place
    ensures { place_of result ≡ text.place_after (place_of place) byte }
{
    match place {
        Place::Between => place_after_beginning(byte),
        Place::InNumber => {
            if is_numeric(byte) || is_blank(byte) {
                Place::InNumber
            } else {
                place_after_beginning(byte)
            }
        }
        Place::InComment => {
            if byte == b')' {
                Place::Between
            } else {
                Place::InComment
            }
        }
    }
}

fn place_after_beginning(byte: u8) -> Place
    ensures { place_of result ≡ text.place_after_beginning byte }
{
    if is_letter(byte) {
        return Place::InNumber;
    }
    if byte == b'(' {
        Place::InComment
    } else {
        Place::Between
    }
}

/// What is said with what begins at the byte, or its fault.
#[tactic(auto, unfolding(sn_geom::specs::LineText::item_at, crate::specs::Steps::step, sn_geom::specs::LineText::is_faulty, sn_geom::specs::LineText::said_with))]
fn take(said: Said, place: Place, byte: u8, rest: &[u8], column: u32) -> Result<Said, LineFault>
    requires { length rest.now ≤ MOST_LINE }
    ensures { result ≡ step said (text.item_at (place_of place) byte rest.now) column }
{
    match place {
        Place::Between => take_beginning(said, byte, rest, column),
        Place::InNumber => {
            if is_numeric(byte) || is_blank(byte) {
                Ok(said)
            } else {
                take_beginning(said, byte, rest, column)
            }
        }
        Place::InComment => {
            if byte == b'(' {
                Err(LineFault::BadChar(column))
            } else {
                Ok(said)
            }
        }
    }
}

#[tactic(auto, unfolding(sn_geom::specs::LineText::beginning, crate::specs::Steps::step, sn_geom::specs::LineText::is_faulty, sn_geom::specs::LineText::said_with))]
fn take_beginning(said: Said, byte: u8, rest: &[u8], column: u32) -> Result<Said, LineFault>
    requires { length rest.now ≤ MOST_LINE }
    ensures { result ≡ step said (text.beginning byte rest.now) column }
{
    if is_blank(byte) {
        return Ok(said);
    }
    if is_letter(byte) {
        let number = run_of(rest);
        return take_word(said, capital(byte), number.as_slice(), column);
    }
    if byte == b'(' {
        return take_comment(said, rest, column);
    }
    Err(stray_fault(byte, column))
}

fn take_comment(said: Said, rest: &[u8], column: u32) -> Result<Said, LineFault>
    ensures { result ≡ step said (Some (text.comment_at rest.now)) column }
{
    if !has_end(rest) {
        return Err(LineFault::OpenComment(column));
    }
    let mark = mark_of(body_of(rest));
    Ok(said.with_comment(mark))
}

fn has_end(rest: &[u8]) -> bool
    ensures { result ≡ text.has_end rest.now }
{
    rest.iter().any(|b| *b == b')')
}

/// The bytes of a comment before its end.
fn body_of(rest: &[u8]) -> &[u8]
    ensures { result.now ≡ text.body_of rest.now }
{
    &rest[..body_len(rest)]
}

fn body_len(rest: &[u8]) -> usize
    ensures count { result ≡ prefix_len (λ b. not (b == 41)) rest.now }
    ensures within { result ≤ length rest.now }
{
    rest.iter().take_while(|b| **b != b')').count()
}

/// The fault of a byte that begins nothing: `/`, `#` and `[` begin what is not read.
fn stray_fault(byte: u8, column: u32) -> LineFault
    ensures { result ≡ text.fault_at (text.stray_kind byte) column }
{
    if byte == b'/' || byte == b'#' || byte == b'[' {
        LineFault::Unsupported(column)
    } else {
        LineFault::BadChar(column)
    }
}
