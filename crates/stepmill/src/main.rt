//! stepmill: from a STEP-NC part program to a proved three-axis milling program, and the verdict on such a program.
#![tactic(auto)]

use sn_geom::Memory;
use sn_io::{DiskFiles, OutSink};
use sn_run::{Status, run};
use sn_words::Words;
use std::env;
use std::io::{Stderr, Stdout};
use std::process::ExitCode;

fn main(rt: HostRuntime) -> ExitCode {
    let status = match words_of(&rt) {
        Ok(words) => carry_out(&rt, &words),
        Err(status) => status,
    };
    ExitCode::from(status.code())
}

/// The words of the command line after the program's name, as text.
fn words_of(rt: &HostRuntime) -> Result<Words, Status> {
    let mut words = Words::new(rt.alloc());
    let args = env::args(rt).map_err(|error| Status::of_lost_words(error.kind()))?;
    for arg in args.skip(1) {
        words.push(arg.as_str().as_bytes())?;
    }
    Ok(words)
}

/// Runs over the machine's files and outputs.
fn carry_out(rt: &HostRuntime, words: &Words) -> Status {
    let Ok(out) = OutSink::new(rt.alloc(), rt.stdout()) else {
        return Status::Memory;
    };
    match OutSink::new(rt.alloc(), rt.stderr()) {
        Ok(err) => run_over(rt, words, out, err),
        Err(Memory) => {
            let _ = out.finish();
            Status::Memory
        }
    }
}

/// What is left in a buffer and cannot be written is a fault of writing.
fn run_over(
    rt: &HostRuntime,
    words: &Words,
    mut out: OutSink<Stdout>,
    mut err: OutSink<Stderr>,
) -> Status {
    let mut files = DiskFiles::new(rt);
    let status = run(rt.alloc(), words, &mut files, &mut out, &mut err);
    let written = out.finish().is_ok();
    let told = err.finish().is_ok();
    status.handed_over(written, told)
}
