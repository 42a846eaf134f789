//! Texts of refusals and of verdicts.

use sn_geom::{Cell, LineFault};
use sn_io::MemSink;
use sn_message::{Refusal, TextFault, write_refusal, write_verdict};
use sn_open::{Cause, Verdict};
use std::test::Fail;

/// Room for a text.
const ROOM: usize = 100;

#[test]
fn refusals_are_told(rt: HostRuntime) -> Result<(), Fail> {
    let corner = Cell {
        i: 132,
        j: -102,
        z: 150_000,
    };
    for (refusal, text) in [
        (Refusal::Word(3), "stepmill: word 3\n"),
        (
            Refusal::Text(TextFault::Twice(4, 179)),
            "stepmill: part: #4 twice at 179\n",
        ),
        (
            Refusal::Uncovered(18, corner),
            "stepmill: uncovered #18 i 132 j -102 z 150000\n",
        ),
    ] {
        let mut err = MemSink::new(rt.alloc(), ROOM)?;
        assert!(rt; write_refusal(&mut err, refusal).is_ok());
        assert!(rt; err.bytes() == text.as_bytes());
    }
    Ok(())
}

#[test]
fn verdicts_are_told(rt: HostRuntime) -> Result<(), Fail> {
    let fault = Cause::LineFault(LineFault::BadChar(2));
    for (verdict, text) in [
        (Verdict::Yes, "yes\n"),
        (Verdict::Line(7, fault), "no: line 7: bad character at 2\n"),
        (Verdict::Missing(11), "no: #11 not executed\n"),
    ] {
        let mut out = MemSink::new(rt.alloc(), ROOM)?;
        assert!(rt; write_verdict(&mut out, verdict).is_ok());
        assert!(rt; out.bytes() == text.as_bytes());
    }
    Ok(())
}
