//! Tables of workingsteps: what each gives, or why it is refused.
ghost use Rattle.std.specs.Prelude.{IfSome};
ghost use Rattle.sn_refs.specs.Target.{IsTarget};

use sn_entity::{Group, RowId};
use sn_feature::{StepFault, StepParts, plane_height, read_placement, security_of, step};
use sn_frame::{Frame, FrameFault};
use sn_geom::{Body, PER_MM, Pt};
use sn_model::project_has_row;
use sn_outline::{Bottom, Shape, Way};
use sn_part_tests::fixtures::{Change, changed_text, checked_of};
use sn_refs::Checked;
use std::alloc::Global;
use std::test::Fail;

/// A part with one workingstep, #4, which drills a hole; and what the rows of the tables put in place of it.
const INSTANCES: [(u32, &str); 50] = [
    (1, "PROJECT('',#2,(#3))"),
    (2, "WORKPLAN('',(#4),$,$)"),
    (3, "WORKPIECE('',$,$,$,$,$)"),
    (4, "MACHINING_WORKINGSTEP('',#7,#8,#9)"),
    (7, "PLANE('',#12)"),
    (8, "ROUND_HOLE('',#3,(),#13,#14,#15,$,#16)"),
    (9, "DRILLING($,$,'',$,$,#17,#18)"),
    (12, "AXIS2_PLACEMENT_3D('',#20,$,$)"),
    (13, "AXIS2_PLACEMENT_3D('',#21,$,$)"),
    (14, "PLANE('',#22)"),
    (15, "TOLERANCED_LENGTH_MEASURE(8.,$)"),
    (16, "FLAT_HOLE_BOTTOM()"),
    (17, "CUTTING_TOOL('',#23,(),80.)"),
    (18, "MILLING_TECHNOLOGY(0.005,.TCP.,$,-12.)"),
    (20, "CARTESIAN_POINT('',(0.,0.,20.))"),
    (21, "CARTESIAN_POINT('',(10.,20.,10.))"),
    (22, "AXIS2_PLACEMENT_3D('',#24,#33,$)"),
    (23, "ENDMILL(#25)"),
    (24, "CARTESIAN_POINT('',(0.,0.,-6.))"),
    (25, "MILLING_TOOL_DIMENSION(8.,$,$,20.,0.5)"),
    // directions: the axes, and one that is none
    (30, "DIRECTION('',(1.,0.,0.))"),
    (31, "DIRECTION('',(0.,1.,0.))"),
    (32, "DIRECTION('',(0.,0.,1.))"),
    (33, "DIRECTION('',(1.,1.,0.))"),
    (34, "DIRECTION('',(-1.,0.,0.))"),
    (35, "DIRECTION('',(0.,-1.,0.))"),
    // paths and profiles
    (40, "LINEAR_PATH($,#41,#30)"),
    (41, "TOLERANCED_LENGTH_MEASURE(0.003,$)"),
    (42, "LINEAR_PROFILE($,#43)"),
    (43, "NUMERIC_PARAMETER('',0.0005,'MM')"),
    (44, "SQUARE_U_PROFILE($,#15,$,$,$,$)"),
    (45, "GENERAL_PATH($,#57)"),
    (46, "TOLERANCED_LENGTH_MEASURE(0.,$)"),
    // features
    (50, "PLANAR_FACE('',#3,(),#13,#14,#40,#42,$,())"),
    (51, "CLOSED_POCKET('',#3,(),#13,#14,(),$,#53,$,$,#54)"),
    (52, "SLOT('',#3,(),#13,#14,#40,#44,())"),
    (53, "PLANAR_POCKET_BOTTOM_CONDITION()"),
    (54, "RECTANGULAR_CLOSED_PROFILE($,#43,#41)"),
    (55, "CIRCULAR_CLOSED_PROFILE(#59,#15)"),
    (56, "GENERAL_CLOSED_PROFILE($,#57)"),
    (57, "POLYLINE('',(#60,#61,#62,#60))"),
    (58, "THROUGH_POCKET_BOTTOM_CONDITION()"),
    (59, "AXIS2_PLACEMENT_3D('',#61,$,#31)"),
    (60, "CARTESIAN_POINT('',(0.0001,0.0002,7.))"),
    (61, "CARTESIAN_POINT('',(0.0004,0.0002))"),
    (62, "CARTESIAN_POINT('',(0.0004,0.0006))"),
    (63, "CARTESIAN_POINT('',(1995.,0.,0.))"),
    // operations
    (
        70,
        "BOTTOM_AND_SIDE_FINISH_MILLING($,$,'',$,$,#17,#18,$,$,$,$,$,5.,9.,0.5,0.25)",
    ),
    (
        71,
        "PLANE_FINISH_MILLING($,$,'',$,$,#17,#18,$,$,$,$,$,2.5,$)",
    ),
    (
        72,
        "BOTTOM_AND_SIDE_ROUGH_MILLING($,$,'',$,$,#17,#18,$,$,$,$,$,$,$,$,$)",
    ),
];

/// The part with these changes.
fn part(alloc: Global, changes: &[Change]) -> Result<Checked, Fail> {
    let text = changed_text(alloc, &INSTANCES, changes)?;
    checked_of(alloc, text.as_bytes())
}

/// The first element of the main workplan, where it is a workingstep.
fn first_workingstep(c: &Checked) -> Option<u32>
    ensures { IfSome result (IsTarget c.now (Group.One RowId.MachiningWorkingstep)) }
{
    c.rule();
    project_has_row();
    let workplan = c.one(c.project(), 0);
    let elements = c.many(workplan, 0);
    if elements.is_empty() {
        return None;
    }
    let first = elements[0];
    match c.fields(first).row {
        RowId::MachiningWorkingstep => Some(first),
        _ => None,
    }
}

/// The step of the part with these changes, where the raw top is at 10 mm.
fn step_with(alloc: Global, changes: &[Change]) -> Result<Result<StepParts, StepFault>, Fail> {
    let c = part(alloc, changes)?;
    step_of(alloc, &c)
}

/// The step of the part's first workingstep.
fn step_of(alloc: Global, c: &Checked) -> Result<Result<StepParts, StepFault>, Fail> {
    let ws = first_workingstep(c).ok_or("no workingstep")?;
    Ok(step(alloc, c, &Frame::identity(), 10 * PER_MM as i32, ws))
}

/// The step of the part with these changes, which is given.
fn made(alloc: Global, changes: &[Change]) -> Result<StepParts, Fail> {
    match step_with(alloc, changes)? {
        Ok(parts) => Ok(parts),
        Err(_) => Err(Fail::from("no step")),
    }
}

/// Why the part with these changes has no step.
fn refusal(alloc: Global, changes: &[Change]) -> Result<StepFault, Fail> {
    match step_with(alloc, changes)? {
        Ok(_) => Err(Fail::from("a step")),
        Err(fault) => Ok(fault),
    }
}

fn skew(n: u32) -> StepFault {
    StepFault::Frame(FrameFault::Skew(n))
}

fn out_of_range(n: u32) -> StepFault {
    StepFault::Frame(FrameFault::OutOfRange(n))
}

const HOLE: Change = (4, "MACHINING_WORKINGSTEP('',#7,#8,#72)");

const FACE: Change = (4, "MACHINING_WORKINGSTEP('',#7,#50,#71)");

const POCKET: Change = (4, "MACHINING_WORKINGSTEP('',#7,#51,#70)");

const SLOT: Change = (4, "MACHINING_WORKINGSTEP('',#7,#52,#72)");

const FAR: Change = (21, "CARTESIAN_POINT('',(1995.,0.,10.))");

const DEEP: Change = (24, "CARTESIAN_POINT('',(0.,0.,-2000.))");

const ABOVE: Change = (24, "CARTESIAN_POINT('',(0.,0.,0.0001))");

const NO_WIDTH: Change = (43, "NUMERIC_PARAMETER('',0.,'MM')");

const DRILL: Change = (23, "TWIST_DRILL(#25)");

const SHORT: Change = (17, "CUTTING_TOOL('',#23,(),5.9999)");

#[test]
fn refusals(rt: HostRuntime) -> Result<(), Fail> {
    let rows: [(&[Change], StepFault); 36] = [
        // a placement that is skew, and what goes after it
        (
            &[(13, "AXIS2_PLACEMENT_3D('',#21,#33,$)"), FAR, ABOVE],
            skew(13),
        ),
        (&[(13, "AXIS2_PLACEMENT_3D('',#21,#30,#34)")], skew(13)),
        (&[(13, "AXIS2_PLACEMENT_3D('',#21,$,#32)")], skew(13)),
        // one that turns +Z elsewhere
        (
            &[(13, "AXIS2_PLACEMENT_3D('',#21,#30,#31)"), ABOVE],
            skew(13),
        ),
        // the direction of a path; an axis along Z is none of these faults
        (&[FACE, (40, "LINEAR_PATH($,#41,#33)"), DEEP], skew(33)),
        (&[SLOT, (40, "LINEAR_PATH($,#46,#33)"), ABOVE], skew(33)),
        // the placement of a profile
        (
            &[
                POCKET,
                (54, "CIRCULAR_CLOSED_PROFILE(#59,#15)"),
                (59, "AXIS2_PLACEMENT_3D('',#61,#31,#31)"),
                FAR,
            ],
            skew(59),
        ),
        (
            &[
                POCKET,
                (54, "CIRCULAR_CLOSED_PROFILE(#59,#46)"),
                (59, "AXIS2_PLACEMENT_3D('',#63,#30,#31)"),
                FAR,
            ],
            out_of_range(59),
        ),
        (
            &[
                POCKET,
                (54, "CIRCULAR_CLOSED_PROFILE(#59,#46)"),
                (59, "AXIS2_PLACEMENT_3D('',#61,#30,#31)"),
                DEEP,
            ],
            skew(59),
        ),
        // the height of a profile's placement counts
        (
            &[
                POCKET,
                (54, "CIRCULAR_CLOSED_PROFILE(#59,#15)"),
                (61, "CARTESIAN_POINT('',(0.,0.,1995.))"),
            ],
            out_of_range(59),
        ),
        // outline points: by the feature's placement, or by that of the profile
        (
            &[FACE, FAR, (41, "TOLERANCED_LENGTH_MEASURE(6.,$)"), ABOVE],
            out_of_range(13),
        ),
        (
            &[SLOT, FAR, (41, "TOLERANCED_LENGTH_MEASURE(6.,$)"), ABOVE],
            out_of_range(13),
        ),
        (
            &[
                POCKET,
                FAR,
                (54, "GENERAL_CLOSED_PROFILE($,#57)"),
                (62, "CARTESIAN_POINT('',(5.0001,0.,0.))"),
            ],
            out_of_range(13),
        ),
        (
            &[
                POCKET,
                FAR,
                (54, "GENERAL_CLOSED_PROFILE(#59,#57)"),
                (62, "CARTESIAN_POINT('',(0.,-5.,0.))"),
            ],
            out_of_range(59),
        ),
        // a rectangle leaves the range by a corner that is not one of the two
        (
            &[
                POCKET,
                (21, "CARTESIAN_POINT('',(1999.9998,0.,10.))"),
                ABOVE,
            ],
            out_of_range(13),
        ),
        // the floor, and then the lowest tip
        (
            &[DEEP, (21, "CARTESIAN_POINT('',(0.,0.,-0.0001))")],
            out_of_range(13),
        ),
        (
            &[
                DEEP,
                DRILL,
                (21, "CARTESIAN_POINT('',(0.,0.,0.))"),
                (16, "THROUGH_BOTTOM_CONDITION()"),
            ],
            out_of_range(13),
        ),
        (
            &[
                POCKET,
                (24, "CARTESIAN_POINT('',(0.,0.,1999.9))"),
                (21, "CARTESIAN_POINT('',(0.,0.,0.))"),
            ],
            out_of_range(13),
        ),
        // the depth, before the outline
        (
            &[ABOVE, (15, "TOLERANCED_LENGTH_MEASURE(0.,$)")],
            StepFault::Depth(8),
        ),
        (&[POCKET, ABOVE, NO_WIDTH], StepFault::Depth(51)),
        // outlines, before tools
        (
            &[(15, "TOLERANCED_LENGTH_MEASURE(0.,$)"), HOLE, DRILL],
            StepFault::BadOutline(8),
        ),
        (&[FACE, NO_WIDTH, DRILL], StepFault::BadOutline(50)),
        (
            &[FACE, (41, "TOLERANCED_LENGTH_MEASURE(0.,$)")],
            StepFault::BadOutline(50),
        ),
        (
            &[FACE, (40, "LINEAR_PATH($,#41,#32)"), FAR],
            StepFault::BadOutline(50),
        ),
        (
            &[SLOT, (40, "LINEAR_PATH($,#41,#32)")],
            StepFault::BadOutline(52),
        ),
        (
            &[SLOT, (40, "LINEAR_PATH($,#46,#31)")],
            StepFault::BadOutline(52),
        ),
        (
            &[SLOT, (44, "SQUARE_U_PROFILE($,#46,$,$,$,$)")],
            StepFault::BadOutline(52),
        ),
        (
            &[
                SLOT,
                (40, "GENERAL_PATH($,#57)"),
                (52, "SLOT('',#3,(),#13,#14,#45,#44,())"),
                (57, "POLYLINE('',(#60))"),
            ],
            StepFault::BadOutline(52),
        ),
        (&[POCKET, NO_WIDTH], StepFault::BadOutline(51)),
        (
            &[
                POCKET,
                (54, "GENERAL_CLOSED_PROFILE($,#57)"),
                (57, "POLYLINE('',(#60,#61,#60))"),
            ],
            StepFault::BadOutline(51),
        ),
        // wrong tools, before short ones
        (
            &[(4, "MACHINING_WORKINGSTEP('',#7,#8,#71)"), SHORT],
            StepFault::WrongTool(4),
        ),
        (
            &[(4, "MACHINING_WORKINGSTEP('',#7,#50,#70)")],
            StepFault::WrongTool(4),
        ),
        (
            &[(4, "MACHINING_WORKINGSTEP('',#7,#52,#9)")],
            StepFault::WrongTool(4),
        ),
        (&[HOLE, DRILL], StepFault::WrongTool(4)),
        (
            &[DRILL, (25, "MILLING_TOOL_DIMENSION(8.,$,$,20.,4.0001)")],
            StepFault::WrongTool(4),
        ),
        // a short tool
        (&[SHORT], StepFault::ShortTool(4)),
    ];
    for (changes, fault) in rows {
        assert_eq!(rt; refusal(rt.alloc(), changes)?, fault);
    }
    Ok(())
}

/// The points in a row.
fn places(alloc: Global, points: &[Pt]) -> Result<String, Fail> {
    let mut text = String::new(alloc);
    for p in points {
        let place = format!(in alloc; " {},{}", p.x.get(), p.y.get())?;
        text.push_str(place.as_str())?;
    }
    Ok(text)
}

fn outline_text(alloc: Global, shape: &Shape) -> Result<String, Fail> {
    let text = match shape {
        Shape::Rect(a, b) => format!(in alloc; "rectangle{}", places(alloc, &[*a, *b])?)?,
        Shape::Circle(p, d) => format!(in alloc; "circle{} {}", places(alloc, &[*p])?, d)?,
        Shape::Polygon(ps) => format!(in alloc; "polygon{}", places(alloc, ps.as_slice())?)?,
        Shape::Trail(ps, w) => format!(in alloc; "trail{} {}", places(alloc, ps.as_slice())?, w)?,
    };
    Ok(text)
}

fn outline_of(alloc: Global, changes: &[Change]) -> Result<String, Fail> {
    let parts = made(alloc, changes)?;
    outline_text(alloc, &parts.outline.shape)
}

#[test]
fn outlines(rt: HostRuntime) -> Result<(), Fail> {
    const TURNED: Change = (13, "AXIS2_PLACEMENT_3D('',#21,$,#31)");
    const BACK: Change = (13, "AXIS2_PLACEMENT_3D('',#21,#32,#34)");
    const DOWN: Change = (13, "AXIS2_PLACEMENT_3D('',#21,#32,#35)");
    let rows: [(&[Change], &str); 12] = [
        (&[TURNED], "circle 100000,200000 80000"),
        // a path along X has its profile along +Y, and one along Y along +X
        (&[FACE], "rectangle 100000,200000 100030,200005"),
        (&[FACE, TURNED], "rectangle 99995,200000 100000,200030"),
        (
            &[FACE, (40, "LINEAR_PATH($,#41,#35)")],
            "rectangle 100000,199970 100005,200000",
        ),
        (
            &[FACE, BACK, (40, "LINEAR_PATH($,#41,#34)")],
            "rectangle 100000,199995 100030,200000",
        ),
        // the half before the origin is rounded down, and turns with the profile
        (&[POCKET], "rectangle 99998,199985 100003,200015"),
        (&[POCKET, TURNED], "rectangle 99985,199998 100015,200003"),
        (
            &[POCKET, DOWN, (54, "CIRCULAR_CLOSED_PROFILE(#59,#15)")],
            "circle 100002,199996 80000",
        ),
        (
            &[POCKET, DOWN, (54, "GENERAL_CLOSED_PROFILE($,#57)")],
            "polygon 100002,199999 100002,199996 100006,199996",
        ),
        // the last point is dropped once
        (
            &[
                POCKET,
                (54, "GENERAL_CLOSED_PROFILE(#59,#57)"),
                (57, "POLYLINE('',(#60,#61,#62,#60,#60))"),
            ],
            "polygon 100002,200003 100002,200006 99998,200006 100002,200003",
        ),
        (
            &[SLOT, TURNED, (40, "LINEAR_PATH($,#41,#35)")],
            "trail 100000,200000 100030,200000 80000",
        ),
        // a trail keeps its points, also where they are equal
        (
            &[
                SLOT,
                (52, "SLOT('',#3,(),#13,#14,#45,#44,())"),
                (57, "POLYLINE('',(#60,#60))"),
            ],
            "trail 100001,200002 100001,200002 80000",
        ),
    ];
    for (changes, outline) in rows {
        let told = outline_of(rt.alloc(), changes)?;
        assert_eq!(rt; told.as_str(), outline);
    }
    Ok(())
}

/// What a step has beside its outline.
fn parts_text(alloc: Global, p: &StepParts) -> Result<String, Fail> {
    let place = format!(in alloc;
        "#{} #{} #{} {} {} {:?} {:?}",
        p.ws,
        p.feature,
        p.tool,
        p.top.get(),
        p.floor.get(),
        p.bottom,
        p.corner
    )?;
    let depths = format!(in alloc;
        "{} {} {} {} {:?}",
        p.side, p.under, p.axial, p.radial, p.way
    )?;
    let text = format!(in alloc;
        "{place} {depths} {} {} {} {}",
        p.body.d, p.body.e, p.feed, p.speed
    )?;
    Ok(text)
}

fn parts_of(alloc: Global, changes: &[Change]) -> Result<String, Fail> {
    let parts = made(alloc, changes)?;
    parts_text(alloc, &parts)
}

/// The tool's number and the corner diameter of the step that is made with 1 and 5.
fn numbers_of(alloc: Global, changes: &[Change]) -> Result<(u32, u32), Fail> {
    let step = made(alloc, changes)?.into_step(1, 5);
    Ok((step.tool, step.corner))
}

/// The security height of the workingstep, the height of its security plane, and whether the placement of that is read.
fn security(alloc: Global) -> Result<(i32, i32, bool), Fail> {
    let c = part(alloc, &[])?;
    let ws = first_workingstep(&c).ok_or("no workingstep")?;
    let plane = c.one(ws, 0);
    let placement = c.one(plane, 0);
    Ok((
        security_of(&c, ws).get(),
        plane_height(&c, plane).get(),
        read_placement(&c, placement).is_ok(),
    ))
}

#[test]
fn parts(rt: HostRuntime) -> Result<(), Fail> {
    let rows: [(&[Change], &str); 8] = [
        (
            &[],
            "#4 #8 #17 100000 40000 Flat Some(0) 0 0 40000000 40000 Drill 80000 5000 300 720",
        ),
        // a drill's point is half its diameter long, rounded up
        (
            &[
                DRILL,
                (16, "CONICAL_HOLE_BOTTOM()"),
                (25, "MILLING_TOOL_DIMENSION(7.9999,$,$,20.,$)"),
            ],
            "#4 #8 #17 100000 40000 Conical Some(0) 0 0 40000000 39999 Drill 79999 40000 300 720",
        ),
        // a hole is drilled by a tool of its diameter, in any operation
        (
            &[HOLE],
            "#4 #8 #17 100000 40000 Flat Some(0) 0 0 40000000 40000 Drill 80000 5000 300 720",
        ),
        (
            &[HOLE, (15, "TOLERANCED_LENGTH_MEASURE(8.0001,$)")],
            "#4 #8 #17 100000 40000 Flat Some(0) 0 0 40000000 40000 Clear 80000 5000 300 720",
        ),
        (
            &[SLOT],
            "#4 #52 #17 100000 40000 Flat Some(0) 0 0 40000000 40000 Trail 80000 5000 300 720",
        ),
        // allowances, depths, and the greater radius
        (
            &[
                POCKET,
                (51, "CLOSED_POCKET('',#3,(),#13,#14,(),$,#58,#15,#46,#54)"),
            ],
            "#4 #51 #17 100000 40000 Through Some(160000) 5000 2500 50000 80000 Clear 80000 5000 300 720",
        ),
        (
            &[
                POCKET,
                (51, "CLOSED_POCKET('',#3,(),#13,#14,(),0.,#53,$,#46,#54)"),
            ],
            "#4 #51 #17 100000 40000 Flat None 5000 2500 50000 80000 Clear 80000 5000 300 720",
        ),
        (
            &[FACE],
            "#4 #50 #17 100000 40000 Flat None 0 0 25000 40000 Clear 80000 5000 300 720",
        ),
    ];
    for (changes, expected) in rows {
        let told = parts_of(rt.alloc(), changes)?;
        assert_eq!(rt; told.as_str(), expected);
        assert_eq!(rt; numbers_of(rt.alloc(), changes)?, (1, 5));
    }
    assert_eq!(rt; security(rt.alloc())?, (200_000, 200_000, true));
    Ok(())
}

/// The part with these changes, where a polyline lists so many points in place of the word POINTS.
fn part_of_points(alloc: Global, changes: &[Change], count: usize) -> Result<Checked, Fail> {
    let text = changed_text(alloc, &INSTANCES, changes)?;
    let (front, back) = text.as_str().split_once("POINTS").ok_or("no points")?;
    let mut points = String::new(alloc);
    for place in 1..count {
        points.push_str(if place % 2 == 0 { "#60," } else { "#61," })?;
    }
    let text = format!(in alloc; "{front}{points}#62{back}")?;
    checked_of(alloc, text.as_bytes())
}

/// Why the part with so many points has no step, where it has none.
fn fault_of_points(
    alloc: Global,
    changes: &[Change],
    count: usize,
) -> Result<Option<StepFault>, Fail> {
    let c = part_of_points(alloc, changes, count)?;
    Ok(step_of(alloc, &c)?.err())
}

#[test]
fn polylines_of_many_points(rt: HostRuntime) -> Result<(), Fail> {
    const POINTS: Change = (57, "POLYLINE('',(POINTS))");
    let rows: [(&[Change], u32); 2] = [
        (
            &[SLOT, (52, "SLOT('',#3,(),#13,#14,#45,#44,())"), POINTS],
            52,
        ),
        (&[POCKET, (54, "GENERAL_CLOSED_PROFILE($,#57)"), POINTS], 51),
    ];
    for (changes, feature) in rows {
        for (count, fault) in [(1_000, None), (1_001, Some(StepFault::BadOutline(feature)))] {
            let told = fault_of_points(rt.alloc(), changes, count)?;
            assert_eq!(rt; told, fault, "{count}");
        }
    }
    Ok(())
}
