//! The plans of a job of holes, of a trail and of a pocket, move by move.
use sn_geom::{Body, PER_MM, Pt3};
use sn_geometry_tests::fixtures::{pt, pt3};
use sn_link::{Move, PlannedStep, Plans, plan};
use sn_outline::{Bottom, Job, Numbers, Outline, Points, Shape, Shapes, StepJob, Steps, Way};
use sn_raster::{Big, Grid};
use std::alloc::Global;
use std::test::Fail;

/// How a step cuts: the depths of a layer and of a pass, and its way.
struct Cut {
    axial: u32,
    radial: u32,
    way: Way,
}

/// A step from the raw top down to its floor.
fn step(
    alloc: Global,
    feature: u32,
    shape: Shape,
    floor: i32,
    tool: u32,
    body: Body,
    cut: Cut,
) -> StepJob {
    let Cut { axial, radial, way } = cut;
    StepJob {
        ws: 1,
        feature,
        outline: Outline {
            shape,
            islands: Shapes::new(alloc),
        },
        top: 100_000,
        floor,
        bottom: Bottom::Flat,
        corner: 0,
        side: 0,
        under: 0,
        axial,
        radial,
        tool,
        body,
        feed: 100,
        speed: 1_000,
        way,
    }
}

/// A job of these steps, with so many tools, in the raw box of two corners.
fn job_in(alloc: Global, steps: Steps, count: u32, low: Pt3, high: Pt3) -> Result<Job, Fail> {
    let mut tools = Numbers::new(alloc);
    for k in 0..count {
        tools.push(k)?;
    }
    Ok(Job::new(PER_MM, low, high, 200_000, steps, tools).ok_or("no job")?)
}

/// A job of one step.
fn job_of(alloc: Global, step: StepJob, low: Pt3, high: Pt3) -> Result<Job, Fail> {
    let mut steps = Steps::new(alloc);
    steps.push(step)?;
    job_in(alloc, steps, 1, low, high)
}

/// A hole at a place with the ordinate 5 mm, drilled by a tool of its diameter.
fn hole(
    alloc: Global,
    feature: u32,
    x: i32,
    floor: i32,
    tool: u32,
    body: Body,
) -> Result<StepJob, Fail> {
    let shape = Shape::Circle(pt(x, 50_000)?, body.d);
    let cut = Cut {
        axial: 100_000,
        radial: 0,
        way: Way::Drill,
    };
    Ok(step(alloc, feature, shape, floor, tool, body, cut))
}

/// Two holes, the first of them once more, and with another tool a hole in the bottom of the second.
fn hole_steps(alloc: Global) -> Result<Steps, Fail> {
    let mut steps = Steps::new(alloc);
    for (feature, x, floor, tool, d, e) in [
        (1, 50_000, 40_000, 1, 40_000, 0),
        (2, 140_000, 60_000, 1, 40_000, 0),
        (1, 50_000, 40_000, 1, 40_000, 0),
        (3, 140_000, 10_000, 2, 30_000, 3_000),
    ] {
        let step = hole(alloc, feature, x, floor, tool, Body { d, e })?;
        steps.push(step)?;
    }
    Ok(steps)
}

fn holes(alloc: Global) -> Result<Job, Fail> {
    let low = pt3(0, 0, 0)?;
    let high = pt3(200_000, 200_000, 100_000)?;
    let steps = hole_steps(alloc)?;
    job_in(alloc, steps, 2, low, high)
}

fn points(alloc: Global) -> Result<Points, Fail> {
    let mut points = Points::new(alloc);
    for (x, y) in [(30_000, 50_000), (90_000, 50_000), (90_000, 90_000)] {
        let point = pt(x, y)?;
        points.push(point)?;
    }
    Ok(points)
}

/// A trail of three points, which is cut in two layers.
fn trail(alloc: Global) -> Result<Job, Fail> {
    let low = pt3(0, 0, 0)?;
    let high = pt3(200_000, 200_000, 100_000)?;
    let shape = Shape::Trail(points(alloc)?, 40_000);
    let cut = Cut {
        axial: 30_000,
        radial: 0,
        way: Way::Trail,
    };
    let step = step(alloc, 1, shape, 40_000, 1, Body { d: 40_000, e: 0 }, cut);
    job_of(alloc, step, low, high)
}

/// A pocket over columns 3 to 9 and rows 3 to 12, with a border of one raw node around it, which is cut in two layers.
fn pocket(alloc: Global) -> Result<Job, Fail> {
    let low = pt3(20_000, 20_000, 0)?;
    let high = pt3(100_000, 130_000, 100_000)?;
    let shape = Shape::Rect(pt(30_000, 30_000)?, pt(90_000, 120_000)?);
    let cut = Cut {
        axial: 40_000,
        radial: 40_000,
        way: Way::Clear,
    };
    let step = step(
        alloc,
        1,
        shape,
        40_000,
        1,
        Body {
            d: 40_000,
            e: 3_000,
        },
        cut,
    );
    job_of(alloc, step, low, high)
}

fn plans_of(alloc: Global, job: &Job) -> Result<Plans, Fail> {
    let g = match Grid::new(job) {
        Ok(g) => g,
        Err(Big) => return Err("too big".into()),
    };
    Ok(plan(alloc, job, &g)?)
}

/// The end of a move.
enum End {
    Rapid(i32, i32, i32),
    Feed(i32, i32, i32),
}

use End::{Feed, Rapid};

/// What is wanted of a step: its moves, the strokes in a layer, the layers and the lifts.
struct Wanted {
    moves: &'static [End],
    counts: (u64, u64, u64),
}

fn is_at(place: &Pt3, x: i32, y: i32, z: i32) -> bool {
    place.x.get() == x && place.y.get() == y && place.z.get() == z
}

fn ends_at(m: &Move, end: &End) -> bool {
    match m {
        Move::Rapid(place) => match end {
            Rapid(x, y, z) => is_at(place, *x, *y, *z),
            Feed(..) => false,
        },
        Move::Feed(place) => match end {
            Rapid(..) => false,
            Feed(x, y, z) => is_at(place, *x, *y, *z),
        },
    }
}

/// Whether the moves end at these places, one by one.
fn end_at(moves: &[Move], ends: &[End]) -> bool {
    if moves.len() != ends.len() {
        return false;
    }
    for (m, end) in moves.iter().zip(ends) {
        if !ends_at(m, end) {
            return false;
        }
    }
    true
}

/// Whether there is a plan and it is the one that is wanted.
fn is_wanted(planned: Option<&PlannedStep>, wanted: &Wanted) -> bool {
    let Some(planned) = planned else {
        return false;
    };
    let counts = (planned.strokes, planned.layers, planned.lifts);
    counts == wanted.counts && end_at(planned.moves.as_slice(), wanted.moves)
}

/// The place of the first plan that is not the one that is wanted.
fn difference(plans: &[PlannedStep], wanted: &[Wanted]) -> Option<usize> {
    for k in 0..wanted.len() {
        if !is_wanted(plans.get(k), &wanted[k]) {
            return Some(k);
        }
    }
    if plans.len() == wanted.len() {
        None
    } else {
        Some(wanted.len())
    }
}

const HOLES: [Wanted; 4] = [
    // A tool without a point does not feed up.
    Wanted {
        moves: &[
            Rapid(50_000, 50_000, 200_000),
            Rapid(50_000, 50_000, 110_000),
            Feed(50_000, 50_000, 40_000),
            Rapid(50_000, 50_000, 200_000),
        ],
        counts: (1, 1, 1),
    },
    Wanted {
        moves: &[
            Rapid(140_000, 50_000, 200_000),
            Rapid(140_000, 50_000, 110_000),
            Feed(140_000, 50_000, 60_000),
            Rapid(140_000, 50_000, 200_000),
        ],
        counts: (1, 1, 1),
    },
    Wanted {
        moves: &[],
        counts: (0, 0, 0),
    },
    // After the tool change the place is not known, and the material ends at the bottom of the second hole.
    Wanted {
        moves: &[
            Rapid(140_000, 50_000, 200_000),
            Rapid(140_000, 50_000, 70_000),
            Feed(140_000, 50_000, 10_000),
            Feed(140_000, 50_000, 13_000),
            Rapid(140_000, 50_000, 200_000),
        ],
        counts: (1, 1, 1),
    },
];

/// The first difference, and the cells of each step of which there are some.
fn planned_holes(alloc: Global) -> Result<(Option<usize>, [Option<u64>; 4]), Fail> {
    let job = holes(alloc)?;
    let plans = plans_of(alloc, &job)?;
    let plans = plans.as_slice();
    Ok((
        difference(plans, &HOLES),
        [
            cells(plans, 0),
            cells(plans, 1),
            cells(plans, 2),
            cells(plans, 3),
        ],
    ))
}

/// How many cells the moves of a step take away.
fn cells(plans: &[PlannedStep], place: usize) -> Option<u64> {
    match plans.get(place) {
        Some(planned) => Some(planned.cells),
        None => None,
    }
}

#[test]
fn holes_of_two_tools(rt: HostRuntime) -> Result<(), Fail> {
    let (other, cells) = planned_holes(rt.alloc())?;
    assert_eq!(rt; other, None);
    // 13 nodes are under the first tool, and 9 under the second, which cuts with its whole diameter from 1.3 mm on.
    assert_eq!(rt;
        cells,
        [Some(780_000), Some(520_000), Some(0), Some(423_000)]
    );
    Ok(())
}

const TRAIL: [Wanted; 1] = [Wanted {
    moves: &[
        Rapid(30_000, 50_000, 200_000),
        Rapid(30_000, 50_000, 110_000),
        Feed(30_000, 50_000, 70_000),
        Feed(90_000, 50_000, 70_000),
        Feed(90_000, 90_000, 70_000),
        Rapid(90_000, 90_000, 200_000),
        Rapid(30_000, 50_000, 200_000),
        Rapid(30_000, 50_000, 80_000),
        Feed(30_000, 50_000, 40_000),
        Feed(90_000, 50_000, 40_000),
        Feed(90_000, 90_000, 40_000),
        Rapid(90_000, 90_000, 200_000),
    ],
    counts: (2, 2, 2),
}];

fn planned_trail(alloc: Global) -> Result<Option<usize>, Fail> {
    let job = trail(alloc)?;
    let plans = plans_of(alloc, &job)?;
    Ok(difference(plans.as_slice(), &TRAIL))
}

#[test]
fn trail_in_two_layers(rt: HostRuntime) -> Result<(), Fail> {
    assert_eq!(rt; planned_trail(rt.alloc())?, None);
    Ok(())
}

// The strokes are on rows 5, 9 and 10, from column 5 to column 7 or back. The ways from one to the next are free.
const POCKET: [Wanted; 1] = [Wanted {
    moves: &[
        Rapid(50_000, 50_000, 200_000),
        Rapid(50_000, 50_000, 110_000),
        Feed(50_000, 50_000, 60_000),
        Feed(70_000, 50_000, 60_000),
        Feed(70_000, 90_000, 60_000),
        Feed(50_000, 90_000, 60_000),
        Feed(50_000, 100_000, 60_000),
        Feed(70_000, 100_000, 60_000),
        Feed(70_000, 100_000, 63_000),
        Rapid(70_000, 100_000, 200_000),
        // Where the first layer cut, nothing is left over its tip and the point length of the tool.
        Rapid(50_000, 50_000, 200_000),
        Rapid(50_000, 50_000, 73_000),
        Feed(50_000, 50_000, 40_000),
        Feed(70_000, 50_000, 40_000),
        Feed(70_000, 90_000, 40_000),
        Feed(50_000, 90_000, 40_000),
        Feed(50_000, 100_000, 40_000),
        Feed(70_000, 100_000, 40_000),
        Feed(70_000, 100_000, 43_000),
        Rapid(70_000, 100_000, 200_000),
    ],
    counts: (3, 2, 2),
}];

fn planned_pocket(alloc: Global) -> Result<Option<usize>, Fail> {
    let job = pocket(alloc)?;
    let plans = plans_of(alloc, &job)?;
    Ok(difference(plans.as_slice(), &POCKET))
}

#[test]
fn pocket_in_two_layers(rt: HostRuntime) -> Result<(), Fail> {
    assert_eq!(rt; planned_pocket(rt.alloc())?, None);
    Ok(())
}
