//! Lines with what they say, and lines at fault.
use sn_block::{LineFault, Word, read_line};

/// A line, its number, its mark and its words.
type Row = (
    &'static [u8],
    Option<u32>,
    Option<u32>,
    &'static [(u8, i32)],
);

fn same_words(words: &[Word], wanted: &[(u8, i32)]) -> bool {
    words.len() == wanted.len()
        && words.iter().zip(wanted).all(|(w, (letter, value))| w.letter == *letter
            && w.value == *value)
}

fn is_read(row: &Row) -> bool {
    let (line, number, mark, words) = row;
    match read_line(line) {
        Ok(block) => !block.percent
            && block.number == *number
            && block.mark == *mark
            && same_words(block.words.as_slice(), words),
        Err(_) => false,
    }
}

#[test]
fn blocks(rt: HostRuntime) {
    let rows: [Row; 27] = [
        (b"", None, None, &[]),
        (b"\t \r", None, None, &[]),
        (
            b"g 1 x1 0.0 Y-2.",
            None,
            None,
            &[(b'G', 10), (b'X', 100_000), (b'Y', -20_000)],
        ),
        (b"X1.0000", None, None, &[(b'X', 10_000)]),
        (b"X1.0005", None, None, &[(b'X', 10_005)]),
        (
            b"G 0   Z - 5 . 5 0 0 ",
            None,
            None,
            &[(b'G', 0), (b'Z', -55_000)],
        ),
        (b"Y+2. T007", None, None, &[(b'Y', 20_000), (b'T', 7)]),
        (b"x-.5", None, None, &[(b'X', -5_000)]),
        (
            b"N1. F100000 G94 G90 S0",
            Some(1),
            None,
            &[(b'F', 100000), (b'G', 940), (b'G', 900), (b'S', 0)],
        ),
        (b"N99999", Some(99999), None, &[]),
        (b"(WS #4)", None, Some(4), &[]),
        (b"(ws #4)", None, None, &[]),
        (b"(WS  #4)", None, None, &[]),
        (b"(WS #04)", None, None, &[]),
        (b"(WS #0)", None, None, &[]),
        (b"(WS #4294967295)", None, Some(4294967295), &[]),
        (b"(WS #4294967296)", None, None, &[]),
        (b"(WS #4)(WS #5)", None, Some(4), &[]),
        (b"(note)(WS #5)(WS #6) M2", None, Some(5), &[(b'M', 2)]),
        (
            b"G21 G90 G17 G94 G40 G61",
            None,
            None,
            &[
                (b'G', 210),
                (b'G', 900),
                (b'G', 170),
                (b'G', 940),
                (b'G', 400),
                (b'G', 610),
            ],
        ),
        (b"G0 Z20.0000", None, None, &[(b'G', 0), (b'Z', 200_000)]),
        (
            b"X-2000 Y2000.0000",
            None,
            None,
            &[(b'X', -20_000_000), (b'Y', 20_000_000)],
        ),
        (b"t1 m6", None, None, &[(b'T', 1), (b'M', 6)]),
        (b"M7M3G80", None, None, &[(b'M', 7), (b'M', 3), (b'G', 800)]),
        (
            b"G61.1M60M9",
            None,
            None,
            &[(b'G', 611), (b'M', 60), (b'M', 9)],
        ),
        (b"()", None, None, &[]),
        (b"(WS#4)X1", None, None, &[(b'X', 10_000)]),
    ];
    for row in &rows {
        assert!(rt; is_read(row), "{:?}", row.0);
    }
}

#[test]
fn percent_lines(rt: HostRuntime) {
    for line in [b"%".as_slice(), b" \t%\r"] {
        assert!(rt; read_line(line).is_ok_and(|block| block.percent));
    }
}

#[test]
fn faults(rt: HostRuntime) {
    let rows: [(&[u8], LineFault); 72] = [
        (b"G0 G1 X1", LineFault::SameGroup(4)),
        (b"X1.00005", LineFault::TooFine(1)),
        (b"(a", LineFault::OpenComment(1)),
        (b"X1X2", LineFault::Twice(3)),
        (b"G2 X1", LineFault::Unsupported(1)),
        (b"\x0cG0", LineFault::BadChar(1)),
        (b"%(a)", LineFault::BadChar(1)),
        (b"(a)%", LineFault::BadChar(4)),
        (b"%%", LineFault::BadChar(1)),
        (b"%\x80", LineFault::BadChar(1)),
        (b"G 1%", LineFault::BadChar(4)),
        (b"% e", LineFault::BadChar(1)),
        (b"G0 G2", LineFault::SameGroup(4)),
        (b"G2 G0", LineFault::Unsupported(1)),
        (b"G0 G5", LineFault::Unsupported(4)),
        (b"A", LineFault::BadNumber(1)),
        (b"N1 N1", LineFault::Twice(4)),
        (b"X99999.00001", LineFault::TooFine(1)),
        (b"A1", LineFault::Unsupported(1)),
        (b"e#1", LineFault::BadNumber(1)),
        (b"X1e", LineFault::BadNumber(3)),
        (b"Z4(c)0", LineFault::BadChar(6)),
        (b"Z(c)4", LineFault::BadNumber(1)),
        (b"(a(b)", LineFault::BadChar(3)),
        (b"(a(b", LineFault::OpenComment(1)),
        (b"X", LineFault::BadNumber(1)),
        (b"X..", LineFault::BadNumber(1)),
        (b"X-", LineFault::BadNumber(1)),
        (b"X1.2.3", LineFault::BadNumber(1)),
        (b"X1-", LineFault::BadNumber(1)),
        (b"G0\rG0", LineFault::SameGroup(4)),
        (b"G80 g1", LineFault::SameGroup(5)),
        (b"G61.1 G64", LineFault::SameGroup(7)),
        (b"G43 G49 G 1", LineFault::SameGroup(5)),
        (b"M7M3M3G0", LineFault::SameGroup(5)),
        (b"F1.5", LineFault::TooFine(1)),
        (b"Z1.00005T2", LineFault::TooFine(1)),
        (b"M6.5", LineFault::TooFine(1)),
        (b"G38.25", LineFault::TooFine(1)),
        (b"N1. F1.5", LineFault::TooFine(5)),
        (b"T100000", LineFault::OutOfRange(1)),
        (b"g1T100000", LineFault::OutOfRange(3)),
        (b"N1 T100000", LineFault::OutOfRange(4)),
        (b"\t Z2000.0001", LineFault::OutOfRange(3)),
        (b"F100001", LineFault::OutOfRange(1)),
        (b"F-1", LineFault::OutOfRange(1)),
        (b"N-1", LineFault::OutOfRange(1)),
        (b"N1.N1.", LineFault::Twice(4)),
        (b"F-0F-0", LineFault::Twice(4)),
        (b"X1 0.0x-.5N99999G 1", LineFault::Twice(7)),
        (b"(WS #4)X1 0.0X1G0F1.5", LineFault::Twice(14)),
        (b"G94 H1 H1 (ws #4)", LineFault::Twice(8)),
        (b"/", LineFault::Unsupported(1)),
        (b"#1", LineFault::Unsupported(1)),
        (b"[", LineFault::Unsupported(1)),
        (b"G0 /", LineFault::Unsupported(4)),
        (b"T2/", LineFault::Unsupported(3)),
        (b"G20", LineFault::Unsupported(1)),
        (b"M4", LineFault::Unsupported(1)),
        (b"G55", LineFault::Unsupported(1)),
        (b"G59.3", LineFault::Unsupported(1)),
        (b"G5", LineFault::Unsupported(1)),
        (b"M48", LineFault::Unsupported(1)),
        (b"(c)N1", LineFault::Unsupported(4)),
        (b"G0 N1", LineFault::Unsupported(4)),
        (
            b"G123456789012345678901234567890",
            LineFault::Unsupported(1),
        ),
        (b"M2 (a", LineFault::OpenComment(4)),
        (b"Y+2. (a", LineFault::OpenComment(6)),
        (b"(aT99999\r\x0c", LineFault::OpenComment(1)),
        (b")", LineFault::BadChar(1)),
        (b"X1)", LineFault::BadChar(3)),
        (b"F1.5(a(b)N1G 1(WS #4)", LineFault::TooFine(1)),
    ];
    for (line, fault) in &rows {
        assert_eq!(rt; read_line(line).err(), Some(*fault), "{line:?}");
    }
}

#[test]
fn length(rt: HostRuntime) {
    assert_eq!(rt; read_line(&[b' '; 257]).err(), Some(LineFault::LongLine));
    assert!(rt; read_line(&[b' '; 256]).is_ok());
    assert_eq!(rt;
        read_line(&[b'('; 256]).err(),
        Some(LineFault::OpenComment(1))
    );
}
