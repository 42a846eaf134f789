//! Each row of the table once, and the faults of parameters.

use crate::fixtures::file_text;
use sn_entity::{EntFault, Fields, Triple, Value, fields, row_of};
use sn_p21::{Instance, read_file};
use std::alloc::{AllocError, Global};
use std::process::Abort;
use std::test::Fail;

/// The keywords, and a letter for each parameter up to the last one that is read: r a reference, l a list of them, n a
/// number, p a point, v a direction, t a string, z nothing, 0 nothing or zero, b anything; a capital one may be left out, and
/// a point is not read.
const ROWS: [(&str, &str); 58] = [
    ("PROJECT", ".rl"),
    ("WORKPLAN", ".l.R"),
    ("IF_STATEMENT", ".rrR"),
    ("NON_SEQUENTIAL", ".l"),
    ("MACHINING_WORKINGSTEP", ".rrr"),
    ("SETUP", "..Rl"),
    ("WORKPIECE_SETUP", "rr"),
    ("WORKPIECE", "...R.b"),
    ("BLOCK", ".rnnn"),
    ("PLANAR_FACE", "...rrrrzl"),
    ("CLOSED_POCKET", "...rrl0rRRr"),
    ("SLOT", "...rrrrl"),
    ("ROUND_HOLE", "...rrrzr"),
    ("BOSS", "...rrr0"),
    ("PLANE_ROUGH_MILLING", ".....rr.....NN"),
    ("PLANE_FINISH_MILLING", ".....rr.....NN"),
    ("BOTTOM_AND_SIDE_ROUGH_MILLING", ".....rr.....NNNN"),
    ("BOTTOM_AND_SIDE_FINISH_MILLING", ".....rr.....NNNN"),
    ("DRILLING", ".....rr"),
    ("CUTTING_TOOL", ".r.N"),
    ("MILLING_CUTTING_TOOL", ".r.N"),
    ("ENDMILL", "r"),
    ("TWIST_DRILL", "r"),
    ("MILLING_TOOL_DIMENSION", "n...N"),
    ("MILLING_TECHNOLOGY", "n..n"),
    ("AXIS2_PLACEMENT_3D", ".rRR"),
    ("CARTESIAN_POINT", ".p"),
    ("DIRECTION", ".v"),
    ("PLANE", ".r"),
    ("ELEMENTARY_SURFACE", ".r"),
    ("TOLERANCED_LENGTH_MEASURE", "n"),
    ("NUMERIC_PARAMETER", ".n"),
    ("LINEAR_PATH", "zrr"),
    ("GENERAL_PATH", "zr"),
    ("POLYLINE", ".l"),
    ("LINEAR_PROFILE", "zr"),
    ("SQUARE_U_PROFILE", "zr.0.0"),
    ("GENERAL_CLOSED_PROFILE", "Rr"),
    ("RECTANGULAR_CLOSED_PROFILE", "Rrr"),
    ("CIRCULAR_CLOSED_PROFILE", "Rr"),
    ("RADIUSED_SLOT_END_TYPE", ""),
    ("THROUGH_BOTTOM_CONDITION", ""),
    ("FLAT_HOLE_BOTTOM", ""),
    ("CONICAL_HOLE_BOTTOM", ""),
    ("PLANAR_POCKET_BOTTOM_CONDITION", ""),
    ("THROUGH_POCKET_BOTTOM_CONDITION", ""),
    ("AND_EXPRESSION", "l"),
    ("OR_EXPRESSION", "l"),
    ("XOR_EXPRESSION", "rr"),
    ("NOT_EXPRESSION", "r"),
    ("COMPARISON_EQUAL", "rr"),
    ("COMPARISON_NOT_EQUAL", "rr"),
    ("COMPARISON_LESS", "rr"),
    ("COMPARISON_LESS_EQUAL", "rr"),
    ("COMPARISON_GREATER", "rr"),
    ("COMPARISON_GREATER_EQUAL", "rr"),
    ("NC_VARIABLE", "tN"),
    ("NC_CONSTANT", ".n"),
];

/// A parameter that the letter stands for.
fn good(letter: u8) -> &'static str {
    match letter {
        b'r' | b'R' | b'b' => "T(#7)",
        b'l' => "(#7,T(#8))",
        b'n' | b'N' => "T(1.)",
        b'p' => "(1.,T(2.))",
        b'v' => "(0.,0.,1.)",
        b't' => "'t'",
        b'z' => "$",
        b'0' => "-0.",
        _ => ".U.",
    }
}

/// A parameter of a form that the letter does not stand for.
fn bad(letter: u8) -> &'static str {
    match letter {
        b'l' => "#7",
        b'p' => "(1.)",
        b'v' => "(0.,1.)",
        b'z' => "1.",
        b'0' => "'0'",
        b'R' | b'N' => "T($)",
        _ => "$",
    }
}

/// An instance of a row, where the parameter at one place is a bad one.
fn instance(
    alloc: Global,
    keyword: &str,
    letters: &[u8],
    bad_at: u32,
) -> Result<String, AllocError> {
    let mut text = format!(in alloc; "#5={keyword}(")?;
    let mut place = 0u32;
    for letter in letters {
        if place > 0 {
            text.push(',')?;
        }
        place = place.wrapping_add(1);
        text.push_str(if place == bad_at {
            bad(*letter)
        } else {
            good(*letter)
        })?;
    }
    text.push_str(");")?;
    Ok(text)
}

/// What an instance shows, where the table has its row.
fn known(alloc: Global, instance: &Instance) -> Option<Result<Fields, EntFault>> {
    let [entity] = instance.parts.as_slice() else {
        return None;
    };
    row_of(entity.keyword.as_slice())?;
    Some(fields(alloc, instance))
}

/// What the instance of this text shows.
fn shown(alloc: Global, text: &str) -> Result<Result<Fields, EntFault>, Fail> {
    let text = file_text(alloc, text)?;
    let Ok(file) = read_file(alloc, text.as_bytes()) else {
        return Err(Fail::from("not read"));
    };
    let instance = file.instances.at(0).ok_or("no instance")?;
    let Some(found) = known(alloc, instance) else {
        return Err(Fail::from("no row"));
    };
    Ok(found)
}

/// What the instance of this text shows, where it has no fault.
fn faultless(alloc: Global, text: &str) -> Result<Fields, Fail> {
    match shown(alloc, text)? {
        Ok(found) => Ok(found),
        Err(_) => Err(Fail::from("a fault")),
    }
}

/// Reads a row with a bad parameter at each place that is read, and with one parameter less than it wants.
fn check_faults(rt: &impl Abort, alloc: Global, keyword: &str, letters: &[u8]) -> Result<(), Fail> {
    let mut place = 0u32;
    for letter in letters {
        place = place.wrapping_add(1);
        if *letter != b'.' && *letter != b'b' {
            let text = instance(alloc, keyword, letters, place)?;
            assert_eq!(rt;
                shown(alloc, &text)?.err(),
                Some(EntFault::KindAt(5, place)),
                "{text}"
            );
        }
    }
    if let Some((_, front)) = letters.split_last() {
        let text = instance(alloc, keyword, front, place)?;
        assert_eq!(rt;
            shown(alloc, &text)?.err(),
            Some(EntFault::Count(5, place, place.wrapping_sub(1))),
            "{text}"
        );
    }
    Ok(())
}

#[test]
fn reads_each_row(rt: HostRuntime) -> Result<(), Fail> {
    for (keyword, letters) in ROWS {
        let letters = letters.as_bytes();
        let text = instance(rt.alloc(), keyword, letters, 0)?;
        let found = faultless(rt.alloc(), &text)?;
        let reads = letters.iter().filter(|letter| **letter != b'.').count();
        assert_eq!(rt; found.values.len(), reads, "{text}");
        check_faults(&rt, rt.alloc(), keyword, letters)?;
    }
    assert!(rt; row_of(b"PLANES").is_none());
    Ok(())
}

/// Instances and their faults.
const FAULTS: [(&str, EntFault); 18] = [
    ("NC_CONSTANT('');", EntFault::Count(5, 2, 1)),
    (
        "CARTESIAN_POINT('',(1.,2.,2000.0001));",
        EntFault::Range(5, 2),
    ),
    (
        "CARTESIAN_POINT('',(1.,'',2000.0001));",
        EntFault::KindAt(5, 2),
    ),
    ("CARTESIAN_POINT('',T((1.,2.)));", EntFault::KindAt(5, 2)),
    ("DIRECTION('',(1.,0.));", EntFault::KindAt(5, 2)),
    ("DIRECTION('',(1.,0.,-2000.001));", EntFault::Range(5, 2)),
    ("NC_CONSTANT('',T(T(1.)));", EntFault::KindAt(5, 2)),
    ("NC_CONSTANT('',2000000.001);", EntFault::Range(5, 2)),
    ("NC_CONSTANT('',0.E100);", EntFault::Range(5, 2)),
    ("BLOCK('',#1,0.,'',1.);", EntFault::Range(5, 3)),
    ("BLOCK('',$,0.,'',1.);", EntFault::KindAt(5, 2)),
    (
        "MILLING_TOOL_DIMENSION(0.0099,$,$,$,100.0001);",
        EntFault::Range(5, 1),
    ),
    (
        "MILLING_TOOL_DIMENSION(200.,$,$,$,100.0001);",
        EntFault::Range(5, 5),
    ),
    ("MILLING_TECHNOLOGY(0.,$,$,1.);", EntFault::Range(5, 1)),
    ("MILLING_TECHNOLOGY(1.,$,$,-1667.);", EntFault::Range(5, 4)),
    ("TOLERANCED_LENGTH_MEASURE(-1.);", EntFault::Range(5, 1)),
    ("BOSS('',$,$,#1,#2,#3,0.00001);", EntFault::Range(5, 7)),
    ("POLYLINE('',(#1,T(T(#2))));", EntFault::KindAt(5, 2)),
];

#[test]
fn tells_the_fault_of_a_parameter(rt: HostRuntime) -> Result<(), Fail> {
    for (text, fault) in FAULTS {
        let text = format!(in rt.alloc(); "#5={text}")?;
        assert_eq!(rt; shown(rt.alloc(), &text)?.err(), Some(fault), "{text}");
    }
    Ok(())
}

#[test]
fn gives_numbers(rt: HostRuntime) -> Result<(), Fail> {
    let technology = faultless(rt.alloc(), "#5=MILLING_TECHNOLOGY(0.005,.TCP.,$,-12.);")?;
    let [Value::Num(feed), Value::Num(speed)] = technology.values.as_slice() else {
        return Err(Fail::from("no feed and speed"));
    };
    assert_eq!(rt; (*feed, *speed), (300, 720));
    // The same by a place, and nothing past the end.
    assert_eq!(rt; (technology.num(1), technology.num(2)), (Some(720), None));
    Ok(())
}

#[test]
fn gives_coordinates(rt: HostRuntime) -> Result<(), Fail> {
    let point = faultless(rt.alloc(), "#5=CARTESIAN_POINT('',(LENGTH(-0.00005),2.));")?;
    let [Value::Triple(x, y, z)] = point.values.as_slice() else {
        return Err(Fail::from("no coordinates"));
    };
    assert_eq!(rt; (*x, *y, *z), (-1, 20_000, 0));
    // The same by its place, and nothing of another form.
    let wanted = Triple {
        x: -1,
        y: 20_000,
        z: 0,
    };
    assert_eq!(rt; (point.triple(0), point.num(0)), (Some(wanted), None));
    Ok(())
}

#[test]
fn gives_lists_of_references(rt: HostRuntime) -> Result<(), Fail> {
    let line = faultless(rt.alloc(), "#5=POLYLINE('',(#1,#2,#3,#4,#5,#6,#7,#8,#9));")?;
    let [Value::Many(refs)] = line.values.as_slice() else {
        return Err(Fail::from("no points"));
    };
    assert_eq!(rt; refs.as_slice(), [1, 2, 3, 4, 5, 6, 7, 8, 9].as_slice());
    // The same by its place, and nothing of another form or past the end.
    assert_eq!(rt; (line.many(0).len(), line.many(1).len()), (9, 0));
    assert_eq!(rt; (line.one(0), line.triple(0)), (None, None));
    Ok(())
}

#[test]
fn gives_texts_and_references(rt: HostRuntime) -> Result<(), Fail> {
    let variable = faultless(rt.alloc(), "#5=NC_VARIABLE('deep',$);")?;
    assert_eq!(rt; variable.text(0), b"deep".as_slice());
    assert_eq!(rt; (variable.text(1).len(), variable.num(1)), (0, None));
    let plane = faultless(rt.alloc(), "#5=PLANE('',#7);")?;
    assert_eq!(rt; plane.one(0), Some(7));
    Ok(())
}

/// What stands before and behind a number in an instance, the place of its parameter, the place of its value among those
/// that are shown, and numbers with their values: the least and the greatest that may stand there, and one past each.
const BORDERS: [(&str, &str, u32, usize, [(&str, Option<i32>); 4]); 9] = [
    (
        "TOLERANCED_LENGTH_MEASURE(",
        ");",
        1,
        0,
        [
            ("0.", Some(0)),
            ("2000.", Some(20_000_000)),
            ("-0.0001", None),
            ("2000.0001", None),
        ],
    ),
    (
        "BLOCK('',#1,",
        ",1.,1.);",
        3,
        1,
        [
            ("0.0001", Some(1)),
            ("2000.", Some(20_000_000)),
            ("0.", None),
            ("2000.0001", None),
        ],
    ),
    (
        "MILLING_TOOL_DIMENSION(",
        ",$,$,$,$);",
        1,
        0,
        [
            ("0.01", Some(100)),
            ("200.", Some(2_000_000)),
            ("0.0099", None),
            ("200.0001", None),
        ],
    ),
    (
        "MILLING_TOOL_DIMENSION(1.,$,$,$,",
        ");",
        5,
        1,
        [
            ("0.", Some(0)),
            ("100.", Some(1_000_000)),
            ("-0.0001", None),
            ("100.0001", None),
        ],
    ),
    (
        "MILLING_TECHNOLOGY(",
        ",$,$,1.);",
        1,
        0,
        [
            ("0.00001667", Some(1)),
            ("1.66666667", Some(100_000)),
            ("0.", None),
            ("1.66669", None),
        ],
    ),
    (
        "MILLING_TECHNOLOGY(1.,$,$,",
        ");",
        4,
        1,
        [
            ("-0.0167", Some(1)),
            ("-1666.667", Some(100_000)),
            ("0.", None),
            ("1666.68", None),
        ],
    ),
    (
        "NC_CONSTANT('',",
        ");",
        2,
        0,
        [
            ("-2000000.", Some(-2_000_000_000)),
            ("2000000.", Some(2_000_000_000)),
            ("-2000000.001", None),
            ("2000000.001", None),
        ],
    ),
    (
        "CARTESIAN_POINT('',(",
        ",0.));",
        2,
        0,
        [
            ("-2000.", Some(-20_000_000)),
            ("2000.", Some(20_000_000)),
            ("-2000.0001", None),
            ("2000.0001", None),
        ],
    ),
    (
        "DIRECTION('',(",
        ",0.,1.));",
        2,
        0,
        [
            ("-2000.", Some(-2_000_000)),
            ("2000.", Some(2_000_000)),
            ("-2000.001", None),
            ("2000.001", None),
        ],
    ),
];

/// The number at a place, or the first coordinate of the point or the direction there.
fn number_at(found: &Fields, k: usize) -> Option<i32> {
    if let Some(triple) = found.triple(k) {
        return Some(triple.x);
    }
    found.num(k)
}

#[test]
fn numbers_end_at_their_borders(rt: HostRuntime) -> Result<(), Fail> {
    for (front, back, place, k, numbers) in BORDERS {
        for (number, wanted) in numbers {
            let text = format!(in rt.alloc(); "#5={front}{number}{back}")?;
            match shown(rt.alloc(), &text)? {
                Ok(found) => assert_eq!(rt; number_at(&found, k), wanted, "{text}"),
                Err(fault) => {
                    assert_eq!(rt;
                        (wanted, fault),
                        (None, EntFault::Range(5, place)),
                        "{text}"
                    )
                }
            }
        }
    }
    Ok(())
}
