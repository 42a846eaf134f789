//! Programs and lengths as text.
ghost use Rattle.std.specs.Prelude.{None};
ghost use Rattle.sn_gwrite.specs.Kept.{IsStraight};

use sn_geom::Pt3;
use sn_geometry_tests::fixtures::pt3;
use sn_gwrite::{
    END, Emitter, forms_are_read, forms_text_is_lines, length_text_shows_length, parts_are_forms,
    text_shows_one_length,
};
use sn_io::{Failed, Sink, WriteFault};
use std::alloc::Global;
use std::test::Fail;

/// One hole, before the end of its program.
const HOLE: &str = "%
G21 G90 G17 G94 G40 G61
(T1 #17)
(WS #4)
T1 M6
G43 H1
S720 M3
F300
G0 Z20.0000
G0 X10.0000 Y10.0000
G0 Z11.0000
G1 Z4.0000
G0 Z20.0000
";

/// A cut in the plane, for no tool that is listed, before the end of its program.
const CUT: &str = "%
G21 G90 G17 G94 G40 G61
(WS #4294967295)
T99999 M6
G43 H99999
S100000 M3
F1
G0 Z20.0000
G0 X-0.0005 Y15.0000
G1 X40.0000 Y-2000.0000
";

/// A program up to the height of its entry.
const ENTRY: &str = "%
G21 G90 G17 G94 G40 G61
T1 M6
G43 H1
G0 Z";

/// A sink that takes at most so many bytes a write, and fails at one write.
#[derive(Drop)]
struct Tape {
    bytes: Vec<u8>,
    most: usize,
    writes: u32,
    failing: u32,
    faults: u64,
}

impl Tape {
    fn new(alloc: Global, most: usize, failing: u32) -> Tape {
        Tape {
            bytes: Vec::new(alloc),
            most,
            writes: 0,
            failing,
            faults: 0,
        }
    }
}

impl Sink for Tape {
    ghost state = { λ tape. record { held = None; taken = None; faults = tape.faults } };

    fn write(&mut self, bytes: &[u8]) -> Result<usize, Failed> {
        self.writes = self.writes.saturating_add(1);
        let piece = &bytes[..bytes.len().min(self.most)];
        if self.writes == self.failing
            || piece.is_empty()
            || self.bytes.extend_from_slice(piece).is_err()
        {
            self.faults = self.faults.saturating_add(1);
            return Err(Failed);
        }
        Ok(piece.len())
    }
}

/// The text with the end of a program behind it.
fn with_end(alloc: Global, text: &str) -> Result<Vec<u8>, Fail> {
    let mut program = Vec::from_slice(alloc, text.as_bytes())?;
    program.extend_from_slice(END.as_bytes())?;
    Ok(program)
}

fn write_hole<S: Sink>(sink: &mut S, high: &Pt3, low: &Pt3, floor: &Pt3) -> Result<(), WriteFault>
    requires down { IsStraight high.now low.now }
    requires plunge { IsStraight low.now floor.now }
    requires up { IsStraight floor.now high.now }
{
    let mut emitter = Emitter::new();
    emitter.head(sink, &[17])?;
    emitter.mark(sink, 4)?;
    emitter.change_tool(sink, 1)?;
    emitter.rates(sink, 720, 300)?;
    emitter.rapid(sink, high)?;
    emitter.rapid(sink, high)?;
    emitter.rapid(sink, low)?;
    emitter.feed(sink, floor)?;
    emitter.rapid(sink, high)?;
    emitter.end(sink)
}

fn write_cut<S: Sink>(sink: &mut S, from: &Pt3, to: &Pt3) -> Result<(), WriteFault>
    requires { IsStraight from.now to.now }
{
    let mut emitter = Emitter::new();
    emitter.head(sink, &[])?;
    emitter.mark(sink, u32::MAX)?;
    emitter.change_tool(sink, 99_999)?;
    emitter.rates(sink, 100_000, 1)?;
    emitter.rapid(sink, from)?;
    emitter.rapid(sink, from)?;
    emitter.feed(sink, to)?;
    emitter.end(sink)
}

/// Writes a program up to its first motion, which enters at the height of a point.
fn write_entry<S: Sink>(sink: &mut S, to: &Pt3) -> Result<(), WriteFault> {
    let mut emitter = Emitter::new();
    emitter.head(sink, &[])?;
    emitter.change_tool(sink, 1)?;
    emitter.rapid(sink, to)
}

#[test]
fn writes_a_hole(rt: HostRuntime) -> Result<(), Fail> {
    let high = pt3(100_000, 100_000, 200_000)?;
    let low = pt3(100_000, 100_000, 110_000)?;
    let floor = pt3(100_000, 100_000, 40_000)?;
    let hole = with_end(rt.alloc(), HOLE)?;
    let all = hole.len();
    for (most, failing, taken) in [(256, 0, all), (1, 0, all), (256, 3, 35), (1, 100, 99)] {
        let mut tape = Tape::new(rt.alloc(), most, failing);
        let written = write_hole(&mut tape, &high, &low, &floor);
        assert_eq!(rt; written.is_ok(), failing == 0);
        assert_eq!(rt; tape.bytes.len(), taken);
        assert!(rt; hole.as_slice().starts_with(tape.bytes.as_slice()));
    }
    Ok(())
}

#[test]
fn writes_a_cut(rt: HostRuntime) -> Result<(), Fail> {
    let from = pt3(-5, 150_000, 200_000)?;
    let to = pt3(400_000, -20_000_000, 200_000)?;
    let mut tape = Tape::new(rt.alloc(), 256, 0);
    write_cut(&mut tape, &from, &to)?;
    let cut = with_end(rt.alloc(), CUT)?;
    assert_eq!(rt; tape.bytes.as_slice(), cut.as_slice());
    Ok(())
}

#[test]
fn prints_lengths(rt: HostRuntime) -> Result<(), Fail> {
    forms_are_read();
    forms_text_is_lines();
    parts_are_forms();
    length_text_shows_length();
    text_shows_one_length();
    for (length, text) in [
        (0, "0.0000"),
        (7, "0.0007"),
        (-7, "-0.0007"),
        (-10_000, "-1.0000"),
        (123_456, "12.3456"),
        (20_000_000, "2000.0000"),
        (-20_000_000, "-2000.0000"),
        (100_500, "10.0500"),
    ] {
        let mut tape = Tape::new(rt.alloc(), 256, 0);
        write_entry(&mut tape, &pt3(0, 0, length)?)?;
        let program = format!(in rt.alloc(); "{ENTRY}{text}\n")?;
        assert_eq!(rt; tape.bytes.as_slice(), program.as_bytes());
    }
    Ok(())
}
