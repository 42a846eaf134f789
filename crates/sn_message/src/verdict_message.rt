//! What is said of a verdict.
ghost use Rattle.sn_io.specs.Sink.{Writes};
ghost use Rattle.sn_message.specs.VerdictText.{at_column, at_cell, line_fault_words, machine_fault_words, cause_words, verdict_words, verdict_text};

use crate::message::{write_cell, write_number};
use sn_geom::{Cell, LineFault, MachFault};
use sn_io::{Sink, WriteFault, write_all};
use sn_open::{Cause, Verdict};

/// Writes the line of a verdict.
pub fn write_verdict<S: Sink>(out: &mut S, verdict: Verdict) -> Result<(), WriteFault>
    ensures { Writes result (S.state out.old) (S.state out.new) (verdict_text verdict) }
{
    write_verdict_words(out, verdict)?;
    write_all(out, b"\n")
}

/// Writes a verdict, without the end of its line.
fn write_verdict_words<S: Sink>(out: &mut S, verdict: Verdict) -> Result<(), WriteFault>
    ensures { Writes result (S.state out.old) (S.state out.new) (verdict_words verdict) }
{
    match verdict {
        Verdict::Yes => write_all(out, b"yes"),
        Verdict::Line(line, cause) => write_faulty_line(out, line, cause),
        Verdict::NoEnd => write_all(out, b"no: no end"),
        Verdict::Missing(workingstep) => write_missing(out, workingstep),
        Verdict::Uncovered(feature, cell) => write_uncovered(out, feature, &cell),
    }
}

/// Writes the line at fault, counted from 1, and its cause.
fn write_faulty_line<S: Sink>(out: &mut S, line: u64, cause: Cause) -> Result<(), WriteFault>
    ensures { Writes result (S.state out.old) (S.state out.new) (verdict_words (Verdict.Line line cause)) }
{
    write_number(out, b"no: line ", line)?;
    write_all(out, b": ")?;
    write_cause(out, cause)
}

/// Writes the workingstep that is not executed.
fn write_missing<S: Sink>(out: &mut S, workingstep: u32) -> Result<(), WriteFault>
    ensures { Writes result (S.state out.old) (S.state out.new) (verdict_words (Verdict.Missing workingstep)) }
{
    write_number(out, b"no: #", workingstep as u64)?;
    write_all(out, b" not executed")
}

/// Writes the feature that has a required cell left, and that cell.
fn write_uncovered<S: Sink>(out: &mut S, feature: u32, cell: &Cell) -> Result<(), WriteFault>
    ensures { Writes result (S.state out.old) (S.state out.new) (verdict_words (Verdict.Uncovered feature cell.now)) }
{
    write_number(out, b"no: #", feature as u64)?;
    write_at_cell(out, b" uncovered", cell)
}

fn write_cause<S: Sink>(out: &mut S, cause: Cause) -> Result<(), WriteFault>
    ensures { Writes result (S.state out.old) (S.state out.new) (cause_words cause) }
{
    match cause {
        Cause::LineFault(fault) => write_line_fault(out, fault),
        Cause::MachFault(fault) => write_machine_fault(out, fault),
        Cause::WrongMark => write_all(out, b"wrong mark"),
        Cause::LowEntry => write_all(out, b"low entry"),
        Cause::Early => write_all(out, b"feed before a mark"),
        Cause::OtherTool => write_all(out, b"other tool"),
        Cause::OtherFeed => write_all(out, b"other feed"),
        Cause::OtherSpeed => write_all(out, b"other speed"),
        Cause::Gouge(cell) => write_at_cell(out, b"gouge", &cell),
        Cause::Deep(cell) => write_at_cell(out, b"too deep", &cell),
        Cause::Crash(cell) => write_at_cell(out, b"rapid in material", &cell),
    }
}

fn write_line_fault<S: Sink>(out: &mut S, fault: LineFault) -> Result<(), WriteFault>
    ensures { Writes result (S.state out.old) (S.state out.new) (line_fault_words fault) }
{
    match fault {
        LineFault::LongLine => write_all(out, b"long line"),
        LineFault::BadChar(column) => write_at_column(out, b"bad character", column),
        LineFault::BadNumber(column) => write_at_column(out, b"bad number", column),
        LineFault::TooFine(column) => write_at_column(out, b"too fine", column),
        LineFault::OutOfRange(column) => write_at_column(out, b"out of range", column),
        LineFault::Twice(column) => write_at_column(out, b"letter twice", column),
        LineFault::SameGroup(column) => write_at_column(out, b"same group", column),
        LineFault::Unsupported(column) => write_at_column(out, b"unsupported", column),
        LineFault::OpenComment(column) => write_at_column(out, b"open comment", column),
    }
}

fn write_machine_fault<S: Sink>(out: &mut S, fault: MachFault) -> Result<(), WriteFault>
    ensures { Writes result (S.state out.old) (S.state out.new) (machine_fault_words fault) }
{
    match fault {
        MachFault::Percent => write_all(out, b"stray percent"),
        MachFault::AfterEnd => write_all(out, b"after end"),
        MachFault::NoMotion => write_all(out, b"no motion"),
        MachFault::NoTool => write_all(out, b"no tool"),
        MachFault::WrongOffset => write_all(out, b"wrong offset"),
        MachFault::ModeUnset => write_all(out, b"mode unset"),
        MachFault::NoOffset => write_all(out, b"no offset"),
        MachFault::LostAxis => write_all(out, b"lost axis"),
        MachFault::Slanted => write_all(out, b"slanted"),
        MachFault::NoFeed => write_all(out, b"no feed"),
        MachFault::SpindleOff => write_all(out, b"spindle off"),
    }
}

/// Writes words and a column of a line.
fn write_at_column<S: Sink>(out: &mut S, words: &[u8], column: u32) -> Result<(), WriteFault>
    ensures { Writes result (S.state out.old) (S.state out.new) (at_column words.now column) }
{
    write_all(out, words)?;
    write_number(out, b" at ", column as u64)
}

/// Writes words and a cell.
fn write_at_cell<S: Sink>(out: &mut S, words: &[u8], cell: &Cell) -> Result<(), WriteFault>
    ensures { Writes result (S.state out.old) (S.state out.new) (at_cell words.now cell.now) }
{
    write_all(out, words)?;
    write_all(out, b" at")?;
    write_cell(out, cell)
}
