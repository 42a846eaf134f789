//! Number texts with their values, from the definitions by hand; and tangent, inside and outside cases of the swept tests, small
//! ones and at the limits of the range.

use crate::fixtures::pt3;
use sn_geom::{DecFault, Pt, Pt3, REACH, Seg, half_width, near, read_dec, touches};
use std::test::Fail;

/// The parts of the number that a text writes.
fn read(text: &[u8]) -> Result<(bool, u128, i16), DecFault> {
    let dec = read_dec(text)?;
    Ok((dec.neg, dec.digits, dec.exp))
}

#[test]
fn numbers(rt: HostRuntime) {
    let not_number = Err(DecFault::NotNumber);
    let past_limits = Err(DecFault::OutOfRange);
    let table: [(&[u8], Result<(bool, u128, i16), DecFault>); 33] = [
        (b"10.0005", Ok((false, 100_005, -4))),
        (b"-10.0005", Ok((true, 100_005, -4))),
        (b"+2E1", Ok((false, 2, 1))),
        (b"1.5E+1", Ok((false, 15, 0))),
        (b"15E-1", Ok((false, 15, -1))),
        (b"2000.", Ok((false, 2_000, 0))),
        (b"-0.", Ok((true, 0, 0))),
        (b"007", Ok((false, 7, 0))),
        (
            b"0.00000000000000000000000000000000000000001",
            Ok((false, 1, -41)),
        ),
        (
            b"123456789012345678901234567890",
            Ok((false, 123_456_789_012_345_678_901_234_567_890, 0)),
        ),
        (b"1234567890123456789012345678901", past_limits),
        (
            b"0.0999999999999999999999999999999",
            Ok((false, 999_999_999_999_999_999_999_999_999_999, -31)),
        ),
        (
            b"8.00000000000000000000000000000",
            Ok((false, 800_000_000_000_000_000_000_000_000_000, -29)),
        ),
        (b"8.000000000000000000000000000000", past_limits),
        (b"1E99", Ok((false, 1, 99))),
        (b"1E-99", Ok((false, 1, -99))),
        (b"1E0099", Ok((false, 1, 99))),
        (b"1E100", past_limits),
        (b"1E-100", past_limits),
        (b"0E100", past_limits),
        (
            b"0.00000000000000000000000000000000000000000000000000000000000001",
            Ok((false, 1, -62)),
        ),
        (
            b"0.000000000000000000000000000000000000000000000000000000000000001",
            past_limits,
        ),
        (b"", not_number),
        (b"-", not_number),
        (b".5", not_number),
        (b"--1", not_number),
        (b"1 ", not_number),
        (b"1.2.3", not_number),
        (b"1E", not_number),
        (b"1E+", not_number),
        (b"1E5.", not_number),
        (b"1e5", not_number),
        (
            b"1111111111111111111111111111111111111111111111111111111111111111111111x",
            not_number,
        ),
    ];
    for (text, wanted) in table {
        assert_eq!(rt; read(text), wanted, "{text:?}");
    }
}

/// The units of a length's text in millimetres.
fn units(text: &[u8]) -> Result<i32, DecFault> {
    Ok(read_dec(text)?.to_um()?.get())
}

#[test]
fn lengths(rt: HostRuntime) {
    let past_reach = Err(DecFault::OutOfRange);
    let table: [(&[u8], Result<i32, DecFault>); 26] = [
        (b"10.0005", Ok(100_005)),
        (b"-10.0005", Ok(-100_005)),
        (b"10.00005", Ok(100_001)),
        (b"-10.00005", Ok(-100_001)),
        (b"10.000049999", Ok(100_000)),
        (b"-10.000049999", Ok(-100_000)),
        (b"1.5E1", Ok(150_000)),
        (b"0.0005", Ok(5)),
        (b"0.00005", Ok(1)),
        (b"-0.00005", Ok(-1)),
        (b"0.00015", Ok(2)),
        (b"0.000049", Ok(0)),
        (b"-0.", Ok(0)),
        (b"5E-5", Ok(1)),
        (b"9E-99", Ok(0)),
        (b"0E99", Ok(0)),
        (b"1E99", past_reach),
        (b"2000.", Ok(20_000_000)),
        (b"-2000.", Ok(-20_000_000)),
        (b"2000.00004", Ok(20_000_000)),
        (b"2000.00004999", Ok(20_000_000)),
        (b"-2000.00004999", Ok(-20_000_000)),
        (b"2000.00005", past_reach),
        (b"-2000.00005", past_reach),
        (b"2000.0001", past_reach),
        (b"2000.001", past_reach),
    ];
    for (text, wanted) in table {
        assert_eq!(rt; units(text), wanted, "{text:?}");
    }
}

#[test]
fn feeds(rt: HostRuntime) -> Result<(), Fail> {
    let table: [(&[u8], Result<i32, DecFault>); 4] = [
        (b"0.005", Ok(300)),
        (b"-1.6666666", Ok(-100_000)),
        (b"1.66666", Ok(100_000)),
        (b"1.666675", Err(DecFault::OutOfRange)),
    ];
    for (text, wanted) in table {
        assert_eq!(rt; read_dec(text)?.scaled(60_000, 100_000), wanted, "{text:?}");
    }
    Ok(())
}

const R: i32 = REACH as i32;

fn plan_of(p: &Pt3) -> Pt {
    Pt { x: p.x, y: p.y }
}

/// On a horizontal move at the height 0, which touches the cells from that height up.
#[test]
fn near_and_touches(rt: HostRuntime) -> Result<(), Fail> {
    let cases = [
        // the sides and the round ends of a short segment
        (10, (0, 0), (100, 0), (50, 5), true),
        (10, (0, 0), (100, 0), (50, 6), false),
        (10, (0, 0), (100, 0), (105, 0), true),
        (10, (0, 0), (100, 0), (106, 0), false),
        (10, (0, 0), (100, 0), (-3, -4), true),
        (10, (0, 0), (100, 0), (-3, -5), false),
        // no diameter: the points of the segment alone
        (0, (0, 0), (6, 4), (3, 2), true),
        (0, (0, 0), (6, 4), (3, 3), false),
        (0, (0, 0), (6, 4), (9, 6), false),
        // no length: the disc about a point
        (10, (7, 7), (7, 7), (10, 11), true),
        (10, (7, 7), (7, 7), (11, 11), false),
        // the greatest diameter, beside segments through the range
        (REACH, (-R, 0), (R, 0), (R / 4, R / 2), true),
        (REACH, (-R, 0), (R, 0), (R / 4, R / 2 + 1), false),
        (REACH, (-R, -R), (R, R), (7_071_068, -7_071_067), true),
        (REACH, (-R, -R), (R, R), (7_071_068, -7_071_068), false),
        (
            REACH,
            (-16_000_000, -12_000_000),
            (16_000_000, 12_000_000),
            (-6_000_000, 8_000_000),
            true,
        ),
        (
            REACH,
            (-16_000_000, -12_000_000),
            (16_000_000, 12_000_000),
            (-6_000_000, 8_000_001),
            false,
        ),
        // and about their ends
        (
            REACH,
            (-R, 0),
            (12_000_000, 0),
            (18_000_000, 8_000_000),
            true,
        ),
        (
            REACH,
            (-R, 0),
            (12_000_000, 0),
            (18_000_001, 8_000_000),
            false,
        ),
        (REACH, (R, R), (R, R), (R, R / 2), true),
        (REACH, (R, R), (R, R), (R, R / 2 - 1), false),
    ];
    for (d, a, b, p, expected) in cases {
        assert!(rt; d <= REACH);
        let from = pt3(a.0, a.1, 0)?;
        let to = Pt3 {
            z: from.z,
            ..pt3(b.0, b.1, 0)?
        };
        let cell = pt3(p.0, p.1, 0)?;
        let below = pt3(p.0, p.1, -1)?;
        let path = Seg {
            a: plan_of(&from),
            b: plan_of(&to),
        };
        assert_eq!(rt;
            near(d, &path, &plan_of(&cell)),
            expected,
            "{d} from {a:?} to {b:?} at {p:?}"
        );
        assert_eq!(rt;
            touches(d, &from, &to, &cell),
            expected,
            "{d} from {a:?} to {b:?} at {p:?}"
        );
        assert!(rt; !touches(d, &from, &to, &below));
    }
    Ok(())
}

#[test]
fn touches_in_vertical_moves(rt: HostRuntime) -> Result<(), Fail> {
    // the diameter, the place in the plane, both heights of the tip, the cell
    let cases = [
        (10, (0, 0), 9, 4, (3, 4, 4), true),
        (10, (0, 0), 9, 4, (3, 4, 3), false),
        (10, (0, 0), 4, 9, (3, 4, 4), true),
        (10, (0, 0), 4, 9, (4, 4, 9), false),
        (REACH, (R, 0), R, -R, (R / 2, 0, -R), true),
        (REACH, (R, 0), R, 1 - R, (R / 2, 0, -R), false),
        (REACH, (R, 0), R, -R, (R / 2 - 1, 0, R), false),
    ];
    for (d, at, start, end, p, expected) in cases {
        assert!(rt; d <= REACH);
        let from = pt3(at.0, at.1, start)?;
        let to = Pt3 {
            z: pt3(0, 0, end)?.z,
            ..from
        };
        let cell = pt3(p.0, p.1, p.2)?;
        assert_eq!(rt;
            touches(d, &from, &to, &cell),
            expected,
            "{d} at {at:?} from {start} to {end} at {p:?}"
        );
    }
    Ok(())
}

#[test]
fn half_widths(rt: HostRuntime) {
    let cases = [
        (10, 3, Some(4)),
        (10, 5, Some(0)),
        (10, 6, None),
        (7, 0, Some(3)),
        (7, 3, Some(1)),
        (1, 0, Some(0)),
        (0, 1, None),
        (40_000_000, 0, Some(20_000_000)),
        (40_000_000, 12_000_000, Some(16_000_000)),
        (40_000_000, 12_000_001, Some(15_999_999)),
        (40_000_000, 20_000_000, Some(0)),
        (40_000_000, 20_000_001, None),
        (39_999_999, 40_000_000, None),
    ];
    for (d, dy, expected) in cases {
        assert!(rt; d <= 2 * REACH);
        assert!(rt; dy <= 2 * REACH);
        assert_eq!(rt; half_width(d, dy), expected, "{d} in the row {dy}");
    }
}
