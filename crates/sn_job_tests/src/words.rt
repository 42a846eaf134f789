//! Lists of words, what they ask for, and where others depart.

use sn_words::{Opts, RawBox, Words, values};
use std::alloc::Global;
use std::test::Fail;

/// What words between bars ask for, or the refusal.
fn said(alloc: Global, line: &str) -> Result<String, Fail> {
    let mut words = Words::new(alloc);
    if !line.is_empty() {
        for word in line.split('|') {
            words.push(word.as_bytes())?;
        }
    }
    match values(alloc, &words) {
        Ok(asked) => shown(alloc, &asked),
        Err(fault) => Ok(format!(in alloc; "{fault}")?),
    }
}

/// The command, its file words in brackets, the seed, the pitch, the box in tenths of a micrometre and the assignments in thousandths.
fn shown(alloc: Global, asked: &Opts) -> Result<String, Fail> {
    let mut text = format!(in alloc; "{:?}", asked.command)?;
    for k in 0..asked.files.len() {
        let file = str::from_utf8(asked.files.get(k)).map_err(|_| "no text")?;
        let file = format!(in alloc; " [{file}]")?;
        text.push_str(file.as_str())?;
    }
    let numbers = format!(in alloc; " {} {}", asked.seed, asked.pitch)?;
    text.push_str(numbers.as_str())?;
    if let Some(raw) = &asked.raw {
        let corners = corners(alloc, raw)?;
        text.push_str(corners.as_str())?;
    }
    for set in asked.sets.as_slice() {
        let name = str::from_utf8(set.name.as_slice()).map_err(|_| "no text")?;
        let set = format!(in alloc; " {name}={}", set.value)?;
        text.push_str(set.as_str())?;
    }
    Ok(text)
}

fn corners(alloc: Global, raw: &RawBox) -> Result<String, Fail> {
    let (low, high) = (raw.low, raw.high);
    let (x0, y0, z0) = (low.x.get(), low.y.get(), low.z.get());
    let (x1, y1, z1) = (high.x.get(), high.y.get(), high.z.get());
    Ok(format!(in alloc; " {x0},{y0},{z0},{x1},{y1},{z1}")?)
}

const COMMANDS: [(&str, &str); 41] = [
    ("", "word 1"),
    ("Compile|p", "word 1"),
    ("cut|p", "word 1"),
    ("--help", "word 1"),
    ("--version", "word 1"),
    ("--cell|100", "word 1"),
    ("|p", "word 1"),
    ("compile", "word 2"),
    ("compile|", "word 2"),
    ("compile|-", "word 2"),
    ("compile|-p", "word 2"),
    ("compile|--cell", "word 2"),
    ("compile|--help", "word 2"),
    ("compile|p", "Compile [p] 0 2500"),
    ("compile|compile", "Compile [compile] 0 2500"),
    ("compile|a=1", "Compile [a=1] 0 2500"),
    ("compile|=", "Compile [=] 0 2500"),
    ("compile|my part.stp", "Compile [my part.stp] 0 2500"),
    ("compile|p|q", "word 3"),
    ("compile|p|", "word 3"),
    ("compile|p|--help", "word 3"),
    ("report|p", "Report [p] 0 2500"),
    ("report|-p", "word 2"),
    ("verify", "word 2"),
    ("verify|p", "word 3"),
    ("verify|-p|q", "word 2"),
    ("verify|p|-q", "word 3"),
    ("verify|p|--cell|100", "word 3"),
    ("verify|p|q", "Verify [p] [q] 0 2500"),
    ("verify|p|p", "Verify [p] [p] 0 2500"),
    ("verify|p|q|r", "word 4"),
    ("make", "word 2"),
    ("make|", "word 2"),
    ("make|x", "word 2"),
    ("make|-1", "word 2"),
    ("make|+1", "word 2"),
    ("make|4294967296", "word 2"),
    ("make|4294967295", "Make 4294967295 2500"),
    ("make|007", "Make 7 2500"),
    ("make|1|a=1", "word 3"),
    ("trial|0", "Trial 0 2500"),
];

#[test]
fn commands_are_told_apart(rt: HostRuntime) -> Result<(), Fail> {
    for (line, answer) in COMMANDS {
        let text = said(rt.alloc(), line)?;
        assert_eq!(rt; text.as_str(), answer);
    }
    Ok(())
}

const OPTIONS: [(&str, &str); 47] = [
    ("trial|1|--cell|100", "word 3"),
    ("compile|p|--cell", "word 4"),
    ("compile|p|--cell|", "word 4"),
    ("compile|p|--cell|19", "word 4"),
    ("compile|p|--cell|20", "Compile [p] 0 200"),
    ("compile|p|--cell|2000", "Compile [p] 0 20000"),
    ("compile|p|--cell|2001", "word 4"),
    ("compile|p|--cell|01000", "Compile [p] 0 10000"),
    ("compile|p|--cell|+100", "word 4"),
    ("compile|p|--cell|100.", "word 4"),
    ("compile|p|--cell|99999999999", "word 4"),
    ("compile|p|--cell|a=1", "word 4"),
    ("compile|p|--cell=100", "word 3"),
    ("compile|p|--cells|100", "word 3"),
    ("compile|p|-cell|100", "word 3"),
    ("compile|p|--cell|100|q", "word 5"),
    ("compile|p|--cell|100|--cell", "word 5"),
    ("compile|p|--cell|100|--cell|100", "word 5"),
    ("compile|p|--cell|100|--cell|x", "word 5"),
    ("compile|p|--raw", "word 4"),
    (
        "compile|p|--raw|0,0,0,1,1,1",
        "Compile [p] 0 2500 0,0,0,10000,10000,10000",
    ),
    (
        "compile|p|--raw|-1,-2.5,-3,0,+1E0,0.00005",
        "Compile [p] 0 2500 -10000,-25000,-30000,0,10000,1",
    ),
    (
        "compile|p|--raw|-2000,0,0,2000.00004,1,1",
        "Compile [p] 0 2500 -20000000,0,0,20000000,10000,10000",
    ),
    ("compile|p|--raw|0,0,0,2000.00005,1,1", "word 4"),
    ("compile|p|--raw|0,0,0,0,1,1", "word 4"),
    ("compile|p|--raw|0,0,0,1,0,1", "word 4"),
    ("compile|p|--raw|0,0,0,1,1,0", "word 4"),
    ("compile|p|--raw|0,0,0,0.00004,1,1", "word 4"),
    ("compile|p|--raw|0,2,0,1,1,1", "word 4"),
    ("compile|p|--raw|0,0,0,1,1", "word 4"),
    ("compile|p|--raw|0,0,0,1,1,1,1", "word 4"),
    ("compile|p|--raw|0,0,0,1,1,1,", "word 4"),
    ("compile|p|--raw|0,0,0,1,1,", "word 4"),
    ("compile|p|--raw|0,0,0,1,,1", "word 4"),
    ("compile|p|--raw|0, 0,0,1,1,1", "word 4"),
    ("compile|p|--raw|0;0;0;1;1;1", "word 4"),
    ("compile|p|--raw|", "word 4"),
    ("compile|p|--raw=0,0,0,1,1,1", "word 3"),
    ("compile|p|--raw|0,0,0,1,1,1|--raw|0,0,0,1,1,1", "word 5"),
    ("compile|p|--raw|0,0,0,1,1,1|--raw", "word 5"),
    ("compile|p|--raw|0,0,0,1,1,1|--cell", "word 6"),
    ("compile|p|--raw|--cell|100", "word 4"),
    (
        "compile|p|--raw|0,0,0,1,1,1|--cell|100",
        "Compile [p] 0 1000 0,0,0,10000,10000,10000",
    ),
    (
        "report|p|--cell|100|--raw|0,0,0,1,1,1",
        "Report [p] 0 1000 0,0,0,10000,10000,10000",
    ),
    ("verify|p|q|--cell", "word 5"),
    ("verify|p|q|--raw|1", "word 5"),
    (
        "verify|p|q|--cell|100|--raw|0,0,0,1,1,1",
        "Verify [p] [q] 0 1000 0,0,0,10000,10000,10000",
    ),
];

#[test]
fn options_are_read(rt: HostRuntime) -> Result<(), Fail> {
    for (line, answer) in OPTIONS {
        let text = said(rt.alloc(), line)?;
        assert_eq!(rt; text.as_str(), answer);
    }
    Ok(())
}

const ASSIGNMENTS: [(&str, &str); 44] = [
    ("report|p|a=1.5", "Report [p] 0 2500 a=1500"),
    ("report|p|a=-0", "Report [p] 0 2500 a=0"),
    ("report|p|a=5.", "Report [p] 0 2500 a=5000"),
    ("report|p|a=+1E2", "Report [p] 0 2500 a=100000"),
    ("report|p|a=1E-3", "Report [p] 0 2500 a=1"),
    ("report|p|a=0.0005", "Report [p] 0 2500 a=1"),
    ("report|p|a=-0.0005", "Report [p] 0 2500 a=-1"),
    ("report|p|a=-0.0004", "Report [p] 0 2500 a=0"),
    ("report|p|a=2000000", "Report [p] 0 2500 a=2000000000"),
    (
        "report|p|a=-2000000.0004",
        "Report [p] 0 2500 a=-2000000000",
    ),
    ("report|p|a=2000000.0005", "word 3"),
    (
        "report|p|a=0.00000000000000000000000000000000000000001",
        "Report [p] 0 2500 a=0",
    ),
    ("report|p|a=8.000000000000000000000000000000", "word 3"),
    (
        "report|p|a=0000000000000000000000000000000000000000000000000000000000000001",
        "Report [p] 0 2500 a=1000",
    ),
    (
        "report|p|a=00000000000000000000000000000000000000000000000000000000000000001",
        "word 3",
    ),
    ("report|p|a=0E099", "Report [p] 0 2500 a=0"),
    ("report|p|a=0E100", "word 3"),
    ("report|p|a=.5", "word 3"),
    ("report|p|a=1e2", "word 3"),
    ("report|p|a=1 ", "word 3"),
    ("report|p|a= 1", "word 3"),
    ("report|p|a=", "word 3"),
    ("report|p|a=b", "word 3"),
    ("report|p|a=1=2", "word 3"),
    ("report|p|a==1", "word 3"),
    ("report|p|a", "word 3"),
    ("report|p|=1", "word 3"),
    ("report|p|1a=1", "word 3"),
    ("report|p|_a=1", "word 3"),
    ("report|p|a-b=1", "word 3"),
    ("report|p|a b=1", "word 3"),
    ("report|p|ä=1", "word 3"),
    ("report|p|aä=1", "word 3"),
    ("report|p|Az_09=1", "Report [p] 0 2500 Az_09=1000"),
    ("report|p|a=1|A=2", "Report [p] 0 2500 a=1000 A=2000"),
    (
        "report|p|b=1|a=2|ab=3",
        "Report [p] 0 2500 b=1000 a=2000 ab=3000",
    ),
    ("report|p|a=1|a=1", "word 4"),
    ("report|p|a=1|b=2|a=x", "word 5"),
    ("report|p|a=1|--cell|100|b", "word 6"),
    ("report|p|a=1|--cell", "word 5"),
    (
        "report|p|a=1|--raw|0,0,0,1,1,1|b=2|--cell|100|c=3",
        "Report [p] 0 1000 0,0,0,10000,10000,10000 a=1000 b=2000 c=3000",
    ),
    (
        "report|p|c=3|b=2|--cell|100|a=1|--raw|0,0,0,1,1,1",
        "Report [p] 0 1000 0,0,0,10000,10000,10000 c=3000 b=2000 a=1000",
    ),
    ("report|p|--cell|100|a=1|--raw|0,0,0,1,1,1|a=2", "word 8"),
    ("verify|p|q|a=1|r=2|s", "word 6"),
];

#[test]
fn assignments_are_read(rt: HostRuntime) -> Result<(), Fail> {
    for (line, answer) in ASSIGNMENTS {
        let text = said(rt.alloc(), line)?;
        assert_eq!(rt; text.as_str(), answer);
    }
    Ok(())
}
