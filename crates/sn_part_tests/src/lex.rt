//! Texts of tokens and of faults, and the tokens of one text.
use sn_lex::Token::*;
use sn_lex::{LexFault, Span, Token, next_token};

const TOKENS: [(&[u8], Token, usize, usize); 57] = [
    (b"ISO-10303-21;", FileStart, 0, 12),
    (b" ISO-10303-21A", FileStart, 1, 12),
    (b"END-ISO-10303-21 ;", FileEnd, 0, 16),
    (b"END-ISO-10303-211", FileEnd, 0, 16),
    (b"ISO-10303-2", Keyword, 0, 3),
    (b"END-ISO-10303-2", Keyword, 0, 3),
    (b"ENDSEC;", Keyword, 0, 6),
    (b"_A1b", Keyword, 0, 3),
    (b"E1.", Keyword, 0, 2),
    (b"!USER_1(", Keyword, 0, 7),
    (b"!_", Keyword, 0, 2),
    (b"#1=", Number(1), 0, 2),
    (b"#10#", Number(10), 0, 3),
    (b"#0004294967295", Number(4_294_967_295), 0, 14),
    (b"0", Integer, 0, 1),
    (b"-12,", Integer, 0, 3),
    (b"+7+", Integer, 0, 2),
    (b"2E1", Integer, 0, 1),
    (b"1.", Real, 0, 2),
    (b"1..T.", Real, 0, 2),
    (b"1.e", Real, 0, 2),
    (b"-0.50)", Real, 0, 5),
    (b"+0.5E-3)", Real, 0, 7),
    (b"1.E5E", Real, 0, 4),
    (b"9.E+1-", Real, 0, 5),
    (b"''", Text, 0, 2),
    (b"'a b',", Text, 0, 5),
    (b"'it''s'", Text, 0, 7),
    (b"'' ''", Text, 0, 2),
    (b"''''", Text, 0, 4),
    (b"'\\X2\\\n\xff/* '", Text, 0, 11),
    (b".T.", Enumeration, 0, 3),
    (b"._1A.B.", Enumeration, 0, 5),
    (b"\"0\"", Binary, 0, 3),
    (b"\"3FA09\"\"", Binary, 0, 7),
    (b"(", LeftParen, 0, 1),
    (b"))", RightParen, 0, 1),
    (b",", Comma, 0, 1),
    (b";", Semicolon, 0, 1),
    (b"=#", Equals, 0, 1),
    (b"$", Dollar, 0, 1),
    (b"*/", Star, 0, 1),
    (b"", End, 0, 0),
    (b" \t\r\n\x0c", End, 5, 0),
    (b"/**/", End, 4, 0),
    (b"/* a ** b **/ ", End, 14, 0),
    (b"/*/*/,", Comma, 5, 1),
    (b"/*/ */;", Semicolon, 6, 1),
    (b"/* /* */ */", Star, 9, 1),
    (b" /*a*//*b*/ $", Dollar, 12, 1),
    (b"\n#2", Number(2), 1, 2),
    (b"\x0c-3", Integer, 1, 2),
    (b"\t4.", Real, 1, 2),
    (b"\r'x'", Text, 1, 3),
    (b" .A.", Enumeration, 1, 3),
    (b" \"1\"", Binary, 1, 3),
    (b"/* */KEY", Keyword, 5, 3),
];

const FAULTS: [(&[u8], LexFault); 54] = [
    (b"a", LexFault::BadByte(0)),
    (b" a", LexFault::BadByte(1)),
    (b"\x00", LexFault::BadByte(0)),
    (b"\xc3", LexFault::BadByte(0)),
    (b"\x0b", LexFault::BadByte(0)),
    (b"\\", LexFault::BadByte(0)),
    (b"<", LexFault::BadByte(0)),
    (b"!", LexFault::BadByte(0)),
    (b"!1", LexFault::BadByte(0)),
    (b"! A", LexFault::BadByte(0)),
    (b"\"", LexFault::BadByte(0)),
    (b"\"\"", LexFault::BadByte(0)),
    (b"\"4\"", LexFault::BadByte(0)),
    (b"\"/\"", LexFault::BadByte(0)),
    (b"\"0a\"", LexFault::BadByte(0)),
    (b"\"0G\"", LexFault::BadByte(0)),
    (b" \"12", LexFault::BadByte(1)),
    (b"/", LexFault::BadByte(0)),
    (b"/ *", LexFault::BadByte(0)),
    (b"/**//", LexFault::BadByte(4)),
    (b"'", LexFault::OpenString(0)),
    (b" 'a", LexFault::OpenString(1)),
    (b"'''", LexFault::OpenString(0)),
    (b"'a''b", LexFault::OpenString(0)),
    (b"/*", LexFault::OpenComment(0)),
    (b"/*/", LexFault::OpenComment(0)),
    (b" /* a *", LexFault::OpenComment(1)),
    (b"/**/\n/* * /", LexFault::OpenComment(5)),
    (b"+", LexFault::BadNumber(0)),
    (b" -", LexFault::BadNumber(1)),
    (b"-.5", LexFault::BadNumber(0)),
    (b"+E", LexFault::BadNumber(0)),
    (b"--1", LexFault::BadNumber(0)),
    (b"1.E", LexFault::BadNumber(0)),
    (b"1.E)", LexFault::BadNumber(0)),
    (b"-1.5E+", LexFault::BadNumber(0)),
    (b" 1.5E-x", LexFault::BadNumber(1)),
    (b"0.E.5", LexFault::BadNumber(0)),
    (b"#", LexFault::BadNumber(0)),
    (b"# 1", LexFault::BadNumber(0)),
    (b"#A", LexFault::BadNumber(0)),
    (b"#-1", LexFault::BadNumber(0)),
    (b"#0", LexFault::BadNumber(0)),
    (b"#000", LexFault::BadNumber(0)),
    (b"#4294967296", LexFault::BadNumber(0)),
    (b" #42949672950", LexFault::BadNumber(1)),
    (b"#18446744073709551617", LexFault::BadNumber(0)),
    (b".", LexFault::BadEnum(0)),
    (b" .T", LexFault::BadEnum(1)),
    (b".T ", LexFault::BadEnum(0)),
    (b"..", LexFault::BadEnum(0)),
    (b".5", LexFault::BadEnum(0)),
    (b".t.", LexFault::BadEnum(0)),
    (b".A-.", LexFault::BadEnum(0)),
];

const PART: &[u8] = b"ISO-10303-21;\nDATA;/* one */#12=A('b',.T.,$,-1.5);";

const PART_TOKENS: [(Token, usize, usize); 17] = [
    (FileStart, 0, 12),
    (Semicolon, 12, 1),
    (Keyword, 14, 4),
    (Semicolon, 18, 1),
    (Number(12), 28, 3),
    (Equals, 31, 1),
    (Keyword, 32, 1),
    (LeftParen, 33, 1),
    (Text, 34, 3),
    (Comma, 37, 1),
    (Enumeration, 38, 3),
    (Comma, 41, 1),
    (Dollar, 42, 1),
    (Comma, 43, 1),
    (Real, 44, 4),
    (RightParen, 48, 1),
    (Semicolon, 49, 1),
];

#[test]
fn every_kind_of_token(rt: HostRuntime) {
    for (bytes, token, at, len) in TOKENS {
        assert_eq!(rt; next_token(bytes, 0), Ok((token, Span { at, len })));
    }
}

#[test]
fn every_fault(rt: HostRuntime) {
    for (bytes, fault) in FAULTS {
        assert_eq!(rt; next_token(bytes, 0), Err(fault));
    }
}

#[test]
fn one_token_after_another(rt: HostRuntime) {
    let mut from = 0;
    for (token, at, len) in PART_TOKENS {
        assert!(rt; from <= PART.len());
        assert_eq!(rt; next_token(PART, from), Ok((token, Span { at, len })));
        from = at + len;
    }
    assert!(rt; from <= PART.len());
    assert_eq!(rt;
        next_token(PART, from),
        Ok((
            End,
            Span {
                at: PART.len(),
                len: 0
            }
        ))
    );
}
