//! Commands over files and sinks in memory. tools/system.sh has more of them, over the built program.

use sn_io::{CountSink, MemFiles, MemSink, SteadyFiles};
use sn_program::END;
use sn_run::{Status, run};
use sn_words::Words;
use std::test::Fail;

/// The sample part: data/one.stp, the stored input of the program.
const SAMPLE: &str = "ISO-10303-21;
HEADER;
FILE_DESCRIPTION(('one hole'),'1');
FILE_NAME('one.stp','2024-01-01',('a'),('b'),'','','');
FILE_SCHEMA(('MACHINING_SCHEMA','MILLING_SCHEMA'));
ENDSEC;
DATA;
#1=PROJECT('one',#2,(#3),$,$,$);
#2=WORKPLAN('main',(#4),$,#5,$);
#3=WORKPIECE('block',$,$,$,$,#6,());
#4=MACHINING_WORKINGSTEP('hole',#7,#8,#9,$);
#5=SETUP('setup',$,#7,(#10));
#6=BLOCK('raw',#11,20.,20.,10.);
#7=PLANE('security',#12);
#8=ROUND_HOLE('hole',#3,(#9),#13,#14,#15,$,#16);
#9=DRILLING($,$,'plunge',$,$,#17,#18,$,$,$,$,$,$,$);
#10=WORKPIECE_SETUP(#3,#11,$,$,());
#11=AXIS2_PLACEMENT_3D('origin',#19,$,$);
#12=AXIS2_PLACEMENT_3D('security',#20,$,$);
#13=AXIS2_PLACEMENT_3D('hole',#21,$,$);
#14=PLANE('depth',#22);
#15=TOLERANCED_LENGTH_MEASURE(8.,$);
#16=FLAT_HOLE_BOTTOM();
#17=CUTTING_TOOL('mill 8',#23,(),80.,$,$);
#18=MILLING_TECHNOLOGY(0.005,.TCP.,$,-12.,$,.F.,.F.,.F.,$);
#19=CARTESIAN_POINT('',(0.,0.,0.));
#20=CARTESIAN_POINT('',(0.,0.,20.));
#21=CARTESIAN_POINT('',(10.,10.,10.));
#22=AXIS2_PLACEMENT_3D('depth',#24,$,$);
#23=ENDMILL(#25,4,.RIGHT.,.F.,$,$);
#24=CARTESIAN_POINT('',(0.,0.,-6.));
#25=MILLING_TOOL_DIMENSION(8.,$,$,20.,0.,$,$);
ENDSEC;
END-ISO-10303-21;
";

/// The command over the sample part, at a pitch of one millimetre.
const COMPILE: &str = "compile one.stp --cell 1000";

/// The program of the sample part at a pitch of one millimetre, before its end.
const PROGRAM: &str = "%
G21 G90 G17 G94 G40 G61
(T1 #17)
(WS #4)
T1 M6
G43 H1
S720 M3
F300
G0 Z20.0000
G0 X10.0000 Y10.0000
G0 Z11.0000
G1 Z4.0000
G0 Z20.0000
";

/// Two more workingsteps for the sample part: one that drills its hole again, and one that drills another hole with another
/// tool.
const MORE_STEPS: &str = "#30=MACHINING_WORKINGSTEP('',#7,#31,#32,$);
#31=ROUND_HOLE('',#3,(#32),#33,#14,#34,$,#16);
#32=DRILLING($,$,'',$,$,#35,#18,$,$,$,$,$,$,$);
#33=AXIS2_PLACEMENT_3D('',#36,$,$);
#34=TOLERANCED_LENGTH_MEASURE(6.,$);
#35=CUTTING_TOOL('',#37,(),80.,$,$);
#36=CARTESIAN_POINT('',(4.,16.,10.));
#37=ENDMILL(#38,4,.RIGHT.,.F.,$,$);
#38=MILLING_TOOL_DIMENSION(6.,$,$,20.,0.,$,$);
#39=MACHINING_WORKINGSTEP('',#7,#8,#9,$);
ENDSEC;
END";

/// The program of the part with these steps, before its end: nothing is left for the second one.
const THREE_STEPS: &str = "%
G21 G90 G17 G94 G40 G61
(T1 #17)
(T2 #35)
(WS #4)
T1 M6
G43 H1
S720 M3
F300
G0 Z20.0000
G0 X10.0000 Y10.0000
G0 Z11.0000
G1 Z4.0000
G0 Z20.0000
(WS #39)
(WS #30)
T2 M6
G43 H2
S720 M3
F300
G0 Z20.0000
G0 X4.0000 Y16.0000
G0 Z11.0000
G1 Z4.0000
G0 Z20.0000
";

/// The command over the sample part and a program, at this pitch.
const VERIFY: &str = "verify one.stp one.ngc --cell 1000";

/// The calls of a file that is read in one piece: the opening, the reading of that piece, and the reading at its end.
const CALLS: u64 = 3;

/// The writes of the sample's program.
const WRITES: u64 = 11;

/// Room for the output of a command.
const ROOM: usize = 16_384;

/// The counts of the sample part at a pitch of one millimetre.
const COUNTS: &str = "steps 1
grid 29 29
ws 4 tool 1 strokes 1 layers 1 lifts 1 cells 2940000
";

/// How a command over the files `one.stp` and `one.ngc` ends: its status, output and errors.
#[derive(Drop)]
struct End {
    status: Status,
    out: Vec<u8>,
    err: Vec<u8>,
}

/// A command over a part and a program, a call of whose files and a write of whose output may fail.
fn end_of(
    rt: &HostRuntime,
    line: &str,
    part: &str,
    program: &str,
    failing: Option<u64>,
    stopping: Option<u64>,
) -> Result<End, Fail> {
    let words = words_of(rt, line)?;
    let files = files_of(rt, part, program, failing)?;
    let out = output(rt, stopping)?;
    ran(rt, &words, files, out)
}

fn words_of(rt: &HostRuntime, line: &str) -> Result<Words, Fail> {
    let mut words = Words::new(rt.alloc());
    for word in line.split(' ') {
        words.push(word.as_bytes())?;
    }
    Ok(words)
}

fn files_of(
    rt: &HostRuntime,
    part: &str,
    program: &str,
    failing: Option<u64>,
) -> Result<MemFiles, Fail> {
    let mut files = MemFiles::new(rt.alloc());
    files.add(b"one.stp", part.as_bytes())?;
    files.add(b"one.ngc", program.as_bytes())?;
    if let Some(call) = failing {
        files.fail_at(call)?;
    }
    Ok(files)
}

fn output(rt: &HostRuntime, stopping: Option<u64>) -> Result<MemSink, Fail> {
    let mut out = MemSink::new(rt.alloc(), ROOM)?;
    if let Some(call) = stopping {
        out.fail_at(call)?;
    }
    Ok(out)
}

fn ran(
    rt: &HostRuntime,
    words: &Words,
    mut files: MemFiles,
    mut out: MemSink,
) -> Result<End, Fail> {
    let mut err = MemSink::new(rt.alloc(), 1_000)?;
    let status = run(rt.alloc(), words, &mut files, &mut out, &mut err);
    Ok(End {
        status,
        out: Vec::from_slice(rt.alloc(), out.bytes())?,
        err: Vec::from_slice(rt.alloc(), err.bytes())?,
    })
}

/// The end is one with this status, output and errors.
fn is_end(end: &End, status: Status, out: &str, err: &str) -> Result<(), Fail> {
    if end.status != status {
        return Err("another status".into());
    }
    if end.out.as_slice() != out.as_bytes() {
        return Err("another output".into());
    }
    if end.err.as_slice() != err.as_bytes() {
        return Err("another message".into());
    }
    Ok(())
}

/// The part is compiled, or is refused.
fn compiles_to(
    rt: &HostRuntime,
    part: &str,
    status: Status,
    out: &str,
    err: &str,
) -> Result<(), Fail> {
    let end = end_of(rt, COMPILE, part, "", None, None)?;
    is_end(&end, status, out, err)
}

/// The text with the end of a program behind it.
fn with_end(rt: &HostRuntime, text: &str) -> Result<String, Fail> {
    let mut program = String::from_str(rt.alloc(), text)?;
    program.push_str(END)?;
    Ok(program)
}

/// The verdict on a program for the sample part.
fn is_judged(rt: &HostRuntime, program: &str, status: Status, out: &str) -> Result<(), Fail> {
    let end = end_of(rt, VERIFY, SAMPLE, program, None, None)?;
    is_end(&end, status, out, "")
}

#[test]
fn parts_are_compiled(rt: HostRuntime) -> Result<(), Fail> {
    let program = with_end(&rt, PROGRAM)?;
    compiles_to(&rt, SAMPLE, Status::Done, program.as_str(), "")?;
    let longer = SAMPLE.replace(rt.alloc(), "(#4)", "(#4,#39,#30)")?;
    let steps = longer.replace(rt.alloc(), "ENDSEC;\nEND", MORE_STEPS)?;
    let program = with_end(&rt, THREE_STEPS)?;
    compiles_to(&rt, steps.as_str(), Status::Done, program.as_str(), "")
}

#[test]
fn parts_are_refused(rt: HostRuntime) -> Result<(), Fail> {
    let thin = SAMPLE.replace(rt.alloc(), "DIMENSION(8.", "DIMENSION(1.")?;
    let uncovered = "stepmill: uncovered #8 i 10 j 9 z 40000\n";
    compiles_to(&rt, thin.as_str(), Status::Uncovered, "", uncovered)
}

#[test]
fn programs_are_judged(rt: HostRuntime) -> Result<(), Fail> {
    let program = with_end(&rt, PROGRAM)?;
    for (piece, other, out) in [
        (
            "G1 Z4.0000",
            "G0 Z4.0000",
            "no: line 12: rapid in material at i 10 j 6 z 40000\n",
        ),
        (
            "G0 Z11.0000\nG1 Z4.0000\n",
            "",
            "no: #8 uncovered at i 10 j 9 z 40000\n",
        ),
        (END, "%\n", "no: no end\n"),
        (
            "F300\nG0 Z20.0000",
            "F300\nG0 X10.0000",
            "no: line 9: lost axis\n",
        ),
        (program.as_str(), "", "no: no end\n"),
    ] {
        let changed = program.replace(rt.alloc(), piece, other)?;
        is_judged(&rt, changed.as_str(), Status::No, out)?;
    }
    is_judged(&rt, program.as_str(), Status::Done, "yes\n")
}

#[test]
fn unreachable_parts_are_judged(rt: HostRuntime) -> Result<(), Fail> {
    let thin = SAMPLE.replace(rt.alloc(), "DIMENSION(8.", "DIMENSION(1.")?;
    let program = with_end(&rt, PROGRAM)?;
    let end = end_of(&rt, VERIFY, thin.as_str(), program.as_str(), None, None)?;
    is_end(
        &end,
        Status::No,
        "no: #8 uncovered at i 10 j 9 z 40000\n",
        "",
    )?;
    let short = end_of(&rt, "verify one.stp", SAMPLE, program.as_str(), None, None)?;
    is_end(&short, Status::BadWords, "", "stepmill: word 3\n")
}

#[test]
fn parts_are_counted(rt: HostRuntime) -> Result<(), Fail> {
    let end = end_of(&rt, "report one.stp --cell 1000", SAMPLE, "", None, None)?;
    is_end(&end, Status::Done, COUNTS, "")
}

#[test]
fn parts_are_generated(rt: HostRuntime) -> Result<(), Fail> {
    let end = end_of(&rt, "make 0", "", "", None, None)?;
    assert_eq!(rt; end.status, Status::Done);
    assert!(rt; end.out.as_slice().starts_with(b"ISO-10303-21;\nHEADER;\n"));
    let large = end_of(&rt, "trial 4294967296", "", "", None, None)?;
    is_end(&large, Status::BadWords, "", "stepmill: word 2\n")
}

#[test]
fn faults_of_files_end_it(rt: HostRuntime) -> Result<(), Fail> {
    let program = with_end(&rt, PROGRAM)?;
    for call in 1..=CALLS {
        let end = end_of(&rt, COMPILE, SAMPLE, "", Some(call), None)?;
        is_end(&end, Status::ReadFault, "", "stepmill: read fault\n")?;
    }
    for call in 1..=2 * CALLS {
        let end = end_of(&rt, VERIFY, SAMPLE, program.as_str(), Some(call), None)?;
        is_end(&end, Status::ReadFault, "", "stepmill: read fault\n")?;
    }
    Ok(())
}

#[test]
fn faults_of_outputs_end_it(rt: HostRuntime) -> Result<(), Fail> {
    let program = with_end(&rt, PROGRAM)?;
    for call in 1..=WRITES {
        let end = end_of(&rt, COMPILE, SAMPLE, "", None, Some(call))?;
        assert_eq!(rt; end.status, Status::WriteFault);
        assert!(rt; program.as_bytes().starts_with(end.out.as_slice()));
        assert_eq!(rt; end.err.as_slice(), b"".as_slice());
    }
    let end = end_of(&rt, COMPILE, SAMPLE, "", None, Some(WRITES + 1))?;
    is_end(&end, Status::Done, program.as_str(), "")?;
    let end = end_of(&rt, VERIFY, SAMPLE, program.as_str(), None, Some(1))?;
    is_end(&end, Status::WriteFault, "", "")
}

#[test]
fn empty_parts_are_refused(rt: HostRuntime) -> Result<(), Fail> {
    let at_the_end = "stepmill: part: unexpected at 0\n";
    compiles_to(&rt, "", Status::PartRefused, "", at_the_end)
}

#[test]
fn a_refusal_that_cannot_be_told_is_a_fault(rt: HostRuntime) -> Result<(), Fail> {
    let words = words_of(&rt, COMPILE)?;
    let mut files = files_of(&rt, "", "", None)?;
    let mut out = output(&rt, None)?;
    let mut err = output(&rt, Some(1))?;
    let status = run(rt.alloc(), &words, &mut files, &mut out, &mut err);
    assert_eq!(rt; status, Status::WriteFault);
    assert_eq!(rt; out.bytes(), b"".as_slice());
    assert_eq!(rt; err.bytes(), b"".as_slice());
    Ok(())
}

/// A program of this many blank lines is longer than a part may be, and is judged.
#[test]
fn long_programs_are_judged(rt: HostRuntime) -> Result<(), Fail> {
    let mut program = Vec::new(rt.alloc());
    for _ in 0..262_145 {
        program.extend_from_slice(&[b' '; 256])?;
        program.push(b'\n')?;
    }
    let words = words_of(&rt, VERIFY)?;
    let mut files = SteadyFiles::new(SAMPLE.as_bytes(), program.as_slice());
    let mut out = CountSink::new();
    let mut err = CountSink::new();
    let status = run(rt.alloc(), &words, &mut files, &mut out, &mut err);
    assert_eq!(rt; status, Status::No);
    assert_eq!(rt; out.taken(), "no: no end\n".len() as u64);
    assert_eq!(rt; err.taken(), 0);
    Ok(())
}
