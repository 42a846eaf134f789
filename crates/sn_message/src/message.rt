//! What is said of a refusal.
ghost use Rattle.std.specs.Prelude.{◌≡◌, ◌++◌, codes, decimal};
ghost use Rattle.std.specs.Fmt.{signed_decimal};
ghost use Rattle.sn_io.specs.Sink.{Writes};
ghost use Rattle.sn_message.specs.CellText.{cell_text};
ghost use Rattle.sn_message.specs.FaultText.{placed_text, lex_text, fault_text, model_text, entity_text, reference_text, job_text, frame_text, instance_text, parameter_text, part_text, uncovered_text};
ghost use Rattle.sn_message.specs.RefusalText.{refusal_text};

use crate::refusal::{Refusal, TextFault};
use itoa::Buffer;
use sn_entity::EntFault;
use sn_flow::JobFault;
use sn_frame::FrameFault;
use sn_geom::Cell;
use sn_io::{Sink, WriteFault, write_all};
use sn_lex::LexFault;
use sn_model::ModelFault;
use sn_refs::RefFault;

/// Writes the text of a refusal.
pub fn write_refusal<E: Sink>(err: &mut E, refusal: Refusal) -> Result<(), WriteFault>
    ensures { Writes result (E.state err.old) (E.state err.new) (refusal_text refusal) }
{
    match refusal {
        Refusal::Word(place) => write_place(err, b"stepmill: word ", place),
        Refusal::NotRead => write_all(err, b"stepmill: read fault\n"),
        Refusal::NoMemory => write_all(err, b"stepmill: memory\n"),
        Refusal::TooLong => write_all(err, b"stepmill: too long\n"),
        Refusal::Text(fault) => write_fault(err, fault),
        Refusal::Model(fault) => write_model_fault(err, fault),
        Refusal::Reference(fault) => write_reference_fault(err, fault),
        Refusal::Job(fault) => write_job_fault(err, fault),
        Refusal::Uncovered(feature, cell) => write_uncovered(err, feature, &cell),
    }
}

fn write_fault<E: Sink>(err: &mut E, fault: TextFault) -> Result<(), WriteFault>
    ensures { Writes result (E.state err.old) (E.state err.new) (fault_text fault) }
{
    match fault {
        TextFault::Lex(fault) => write_lex_fault(err, fault),
        TextFault::Unexpected(at) => write_place(err, b"stepmill: part: unexpected at ", at),
        TextFault::Twice(number, at) => write_twice(err, number, at),
        TextFault::TooDeep(at) => write_place(err, b"stepmill: part: too deep at ", at),
    }
}

fn write_lex_fault<E: Sink>(err: &mut E, fault: LexFault) -> Result<(), WriteFault>
    ensures { Writes result (E.state err.old) (E.state err.new) (lex_text fault) }
{
    match fault {
        LexFault::BadByte(at) => write_place(err, b"stepmill: part: bad byte at ", at),
        LexFault::OpenString(at) => write_place(err, b"stepmill: part: open string at ", at),
        LexFault::OpenComment(at) => write_place(err, b"stepmill: part: open comment at ", at),
        LexFault::BadNumber(at) => write_place(err, b"stepmill: part: bad number at ", at),
        LexFault::BadEnum(at) => write_place(err, b"stepmill: part: bad enumeration at ", at),
    }
}

fn write_twice<E: Sink>(err: &mut E, number: u32, at: usize) -> Result<(), WriteFault>
    ensures { Writes result (E.state err.old) (E.state err.new) (fault_text (TextFault.Twice number at)) }
{
    write_number(err, b"stepmill: part: #", number as u64)?;
    write_place(err, b" twice at ", at)
}

fn write_model_fault<E: Sink>(err: &mut E, fault: ModelFault) -> Result<(), WriteFault>
    ensures { Writes result (E.state err.old) (E.state err.new) (model_text fault) }
{
    match fault {
        ModelFault::NoProject => write_part(err, b"no project"),
        ModelFault::TwoProjects(n) => write_instance(err, n, b" is a second project"),
        ModelFault::Memory => write_all(err, b"stepmill: memory\n"),
    }
}

fn write_entity_fault<E: Sink>(err: &mut E, fault: EntFault) -> Result<(), WriteFault>
    ensures { Writes result (E.state err.old) (E.state err.new) (entity_text fault) }
{
    match fault {
        EntFault::Count(n, wanted, given) => write_counts(err, n, wanted, given),
        EntFault::KindAt(n, place) => write_parameter(err, n, place, b" has a wrong kind"),
        EntFault::Range(n, place) => write_parameter(err, n, place, b" is out of range"),
        EntFault::Memory => write_all(err, b"stepmill: memory\n"),
    }
}

fn write_reference_fault<E: Sink>(err: &mut E, fault: RefFault) -> Result<(), WriteFault>
    ensures { Writes result (E.state err.old) (E.state err.new) (reference_text fault) }
{
    match fault {
        RefFault::Entity(fault) => write_entity_fault(err, fault),
        RefFault::Dangling(n, place) => write_parameter(err, n, place, b" names nothing"),
        RefFault::WrongKind(n, place, named) => write_wrong_kind(err, n, place, named),
        RefFault::Cycle(n) => write_instance(err, n, b" on a cycle"),
        RefFault::Memory => write_all(err, b"stepmill: memory\n"),
    }
}

fn write_job_fault<E: Sink>(err: &mut E, fault: JobFault) -> Result<(), WriteFault>
    ensures { Writes result (E.state err.old) (E.state err.new) (job_text fault) }
{
    match fault {
        JobFault::Frame(fault) => write_frame_fault(err, fault),
        JobFault::Unset(n) => write_instance(err, n, b" has no value"),
        JobFault::TooManySteps => write_part(err, b"too many steps"),
        JobFault::SecondSetup(n) => write_instance(err, n, b" names a second setup"),
        JobFault::RawUnknown => write_part(err, b"raw box unknown"),
        JobFault::SecLow => write_part(err, b"security plane below the raw top"),
        JobFault::WrongTool(n) => write_instance(err, n, b" has a wrong tool"),
        JobFault::ShortTool(n) => write_instance(err, n, b" has a short tool"),
        JobFault::Depth(n) => write_instance(err, n, b" has its floor above its top"),
        JobFault::BadOutline(n) => write_instance(err, n, b" has a bad outline"),
        JobFault::GridTooBig => write_part(err, b"grid too big"),
        JobFault::TooSmall(n) => write_instance(err, n, b" too small for the grid"),
        JobFault::Memory => write_all(err, b"stepmill: memory\n"),
    }
}

fn write_frame_fault<E: Sink>(err: &mut E, fault: FrameFault) -> Result<(), WriteFault>
    ensures { Writes result (E.state err.old) (E.state err.new) (frame_text fault) }
{
    match fault {
        FrameFault::Skew(n) => write_instance(err, n, b" is skew"),
        FrameFault::OutOfRange(n) => write_instance(err, n, b" leaves the range"),
    }
}

/// Writes that an instance has another count of parameters than is wanted.
fn write_counts<E: Sink>(
    err: &mut E,
    number: u32,
    wanted: u32,
    given: u32,
) -> Result<(), WriteFault>
    ensures { Writes result (E.state err.old) (E.state err.new) (entity_text (EntFault.Count number wanted given)) }
{
    write_number(err, b"stepmill: part: #", number as u64)?;
    write_number(err, b" has ", given as u64)?;
    write_place(err, b" parameters and wants ", wanted as usize)
}

/// Writes that a parameter names an instance of a wrong kind.
fn write_wrong_kind<E: Sink>(
    err: &mut E,
    number: u32,
    place: u32,
    named: u32,
) -> Result<(), WriteFault>
    ensures { Writes result (E.state err.old) (E.state err.new) (reference_text (RefFault.WrongKind number place named)) }
{
    write_number(err, b"stepmill: part: #", number as u64)?;
    write_number(err, b" parameter ", place as u64)?;
    write_number(err, b" names #", named as u64)?;
    write_all(err, b" of a wrong kind\n")
}

/// Writes the number of an instance, the place of its parameter, and words to the end of the line.
fn write_parameter<E: Sink>(
    err: &mut E,
    number: u32,
    place: u32,
    words: &[u8],
) -> Result<(), WriteFault>
    ensures { Writes result (E.state err.old) (E.state err.new) (parameter_text number place words.now) }
{
    write_number(err, b"stepmill: part: #", number as u64)?;
    write_number(err, b" parameter ", place as u64)?;
    write_line(err, words)
}

/// Writes the number of an instance, and words to the end of the line.
fn write_instance<E: Sink>(err: &mut E, number: u32, words: &[u8]) -> Result<(), WriteFault>
    ensures { Writes result (E.state err.old) (E.state err.new) (instance_text number words.now) }
{
    write_number(err, b"stepmill: part: #", number as u64)?;
    write_line(err, words)
}

/// Writes words about the part, to the end of the line.
fn write_part<E: Sink>(err: &mut E, words: &[u8]) -> Result<(), WriteFault>
    ensures { Writes result (E.state err.old) (E.state err.new) (part_text words.now) }
{
    write_all(err, b"stepmill: part: ")?;
    write_line(err, words)
}

/// Writes words and the end of the line.
fn write_line<E: Sink>(err: &mut E, words: &[u8]) -> Result<(), WriteFault>
    ensures { Writes result (E.state err.old) (E.state err.new) (words.now ++ codes "\n") }
{
    write_all(err, words)?;
    write_all(err, b"\n")
}

fn write_uncovered<E: Sink>(err: &mut E, feature: u32, cell: &Cell) -> Result<(), WriteFault>
    ensures { Writes result (E.state err.old) (E.state err.new) (uncovered_text feature cell.now) }
{
    write_number(err, b"stepmill: uncovered #", feature as u64)?;
    write_cell(err, cell)?;
    write_all(err, b"\n")
}

/// Writes words, a place and the end of the line.
fn write_place<E: Sink>(err: &mut E, words: &[u8], place: usize) -> Result<(), WriteFault>
    ensures { Writes result (E.state err.old) (E.state err.new) (placed_text words.now place) }
{
    write_number(err, words, place as u64)?;
    write_all(err, b"\n")
}

/// Writes the column, the row and the height of a cell, each behind its letter.
pub(crate) fn write_cell<S: Sink>(out: &mut S, cell: &Cell) -> Result<(), WriteFault>
    ensures { Writes result (S.state out.old) (S.state out.new) (cell_text cell.now) }
{
    write_coordinate(out, b" i ", cell.i)?;
    write_coordinate(out, b" j ", cell.j)?;
    write_coordinate(out, b" z ", cell.z)
}

/// Writes words and a whole number, which may be negative.
fn write_coordinate<S: Sink>(out: &mut S, words: &[u8], number: i32) -> Result<(), WriteFault>
    ensures { Writes result (S.state out.old) (S.state out.new) (words.now ++ signed_decimal number) }
{
    let mut buffer = Buffer::new();
    write_all(out, words)?;
    write_all(out, buffer.format(number).as_bytes())
}

/// Writes words and a number.
pub(crate) fn write_number<S: Sink>(
    out: &mut S,
    words: &[u8],
    number: u64,
) -> Result<(), WriteFault>
    ensures { Writes result (S.state out.old) (S.state out.new) (words.now ++ decimal number) }
{
    let mut buffer = Buffer::new();
    write_all(out, words)?;
    write_all(out, buffer.format(number).as_bytes())
}
