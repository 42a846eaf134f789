//! The text of the counts of a part.
ghost use Rattle.std.specs.Prelude.{◌≡◌, flat_map};
ghost use Rattle.sn_io.specs.Sink.{Writes};
ghost use Rattle.sn_report.specs.Report.{grid_text, numbered, report_text, row_text, steps_text};

use crate::counts::{CountRow, Counts};
use itoa::Buffer;
use sn_io::{Sink, WriteFault, write_all};

/// Writes the counts of a part: the number of its steps, the nodes of its window across and up, and a line for each step. It
/// takes no memory.
pub fn summary<S: Sink>(sink: &mut S, r: &Counts) -> Result<(), WriteFault>
    ensures { Writes result (S.state sink.old) (S.state sink.new) (report_text r.now) }
{
    write_steps(sink, r.rows.len())?;
    write_grid(sink, r.across, r.up)?;
    write_rows(sink, r.rows.as_slice())
}

/// Writes how many steps are executed.
fn write_steps<S: Sink>(sink: &mut S, count: usize) -> Result<(), WriteFault>
    ensures { Writes result (S.state sink.old) (S.state sink.new) (steps_text count) }
{
    write_number(sink, b"steps ", count as u64)?;
    write_all(sink, b"\n")
}

/// Writes how many nodes the window has across and up.
fn write_grid<S: Sink>(sink: &mut S, across: u32, up: u32) -> Result<(), WriteFault>
    ensures { Writes result (S.state sink.old) (S.state sink.new) (grid_text across up) }
{
    write_number(sink, b"grid ", across as u64)?;
    write_number(sink, b" ", up as u64)?;
    write_all(sink, b"\n")
}

/// Writes a line for each step.
fn write_rows<S: Sink>(sink: &mut S, rows: &[CountRow]) -> Result<(), WriteFault>
    ensures { Writes result (S.state sink.old) (S.state sink.new) (flat_map row_text rows.now) }
{
    for row in rows {
        write_row(sink, row)?;
    }
    Ok(())
}

/// Writes the line of a step.
fn write_row<S: Sink>(sink: &mut S, row: &CountRow) -> Result<(), WriteFault>
    ensures { Writes result (S.state sink.old) (S.state sink.new) (row_text row.now) }
{
    write_number(sink, b"ws ", row.ws as u64)?;
    write_number(sink, b" tool ", row.tool as u64)?;
    write_number(sink, b" strokes ", row.strokes)?;
    write_number(sink, b" layers ", row.layers)?;
    write_number(sink, b" lifts ", row.lifts)?;
    write_number(sink, b" cells ", row.cells)?;
    write_all(sink, b"\n")
}

/// Writes words and a number.
fn write_number<S: Sink>(sink: &mut S, words: &[u8], number: u64) -> Result<(), WriteFault>
    ensures { Writes result (S.state sink.old) (S.state sink.new) (numbered words.now number) }
{
    let mut buffer = Buffer::new();
    write_all(sink, words)?;
    write_all(sink, buffer.format(number).as_bytes())
}
