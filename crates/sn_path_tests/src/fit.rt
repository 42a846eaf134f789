//! The strokes of a trail of three points, and of drills that open nodes and none.
use sn_fit::{drill_strokes, trail_strokes};
use sn_geom::{Body, PER_MM};
use sn_geometry_tests::fixtures::{pt, pt3};
use sn_open::{Opening, Strokes};
use sn_outline::{
    Bottom, Job, Numbers, Outline, Points, Shape, Shapes, StepJob, Steps, Way, is_proper,
};
use sn_raster::{Big, Grid};
use std::alloc::Global;
use std::test::Fail;

/// A job of one step with a tool of 3 mm.
fn job(alloc: Global, shape: Shape, way: Way) -> Result<Job, Fail> {
    let step = StepJob {
        ws: 1,
        feature: 1,
        outline: Outline {
            shape,
            islands: Shapes::new(alloc),
        },
        top: 50_000,
        floor: 10_000,
        bottom: Bottom::Flat,
        corner: 0,
        side: 0,
        under: 0,
        axial: 20_000,
        radial: 0,
        tool: 1,
        body: Body { d: 30_000, e: 0 },
        feed: 100,
        speed: 1_000,
        way,
    };
    let mut steps = Steps::new(alloc);
    steps.push(step)?;
    let mut tools = Numbers::new(alloc);
    tools.push(1)?;
    let low = pt3(0, 0, 0)?;
    let high = pt3(100_000, 80_000, 50_000)?;
    Ok(Job::new(PER_MM, low, high, 60_000, steps, tools).ok_or("no job")?)
}

fn strokes_of(alloc: Global, job: &Job) -> Result<Strokes, Fail> {
    job.rule();
    let g = match Grid::new(job) {
        Ok(g) => g,
        Err(Big) => return Err("too big".into()),
    };
    let steps = job.steps();
    if steps.is_empty() {
        return Err("no step".into());
    }
    let step = &steps[0];
    if !is_proper(step) {
        return Err("not proper".into());
    }
    match step.way {
        Way::Clear => Err("neither a trail nor a drill".into()),
        Way::Trail => Ok(trail_strokes(alloc, step)?),
        Way::Drill => {
            let opening = Opening::of(alloc, step, &g)?;
            Ok(drill_strokes(alloc, step, &opening)?)
        }
    }
}

fn trail(alloc: Global) -> Result<Shape, Fail> {
    let mut points = Points::new(alloc);
    points.push(pt(20_000, 20_000)?)?;
    points.push(pt(80_000, 20_000)?)?;
    points.push(pt(80_000, 60_000)?)?;
    Ok(Shape::Trail(points, 30_000))
}

type Place = (i32, i32);

/// Whether these are the strokes, each by its ends.
fn are_strokes(strokes: &Strokes, expected: &[(Place, Place)]) -> Result<bool, Fail> {
    let mut same = strokes.len() == expected.len();
    for (stroke, (from, to)) in strokes.as_slice().iter().zip(expected) {
        if stroke.from != pt(from.0, from.1)? || stroke.to != pt(to.0, to.1)? {
            same = false;
        }
    }
    Ok(same)
}

#[test]
fn segments_of_a_trail(rt: HostRuntime) -> Result<(), Fail> {
    let job = job(rt.alloc(), trail(rt.alloc())?, Way::Trail)?;
    let segments = [
        ((20_000, 20_000), (80_000, 20_000)),
        ((80_000, 20_000), (80_000, 60_000)),
    ];
    assert!(rt; are_strokes(&strokes_of(rt.alloc(), &job)?, &segments)?);
    Ok(())
}

/// In a hole of the diameter of the tool nodes are opened, and in a smaller one none is.
#[test]
fn centre_of_a_hole(rt: HostRuntime) -> Result<(), Fail> {
    let hole = job(
        rt.alloc(),
        Shape::Circle(pt(50_000, 40_000)?, 30_000),
        Way::Drill,
    )?;
    let small = job(
        rt.alloc(),
        Shape::Circle(pt(50_000, 40_000)?, 10_000),
        Way::Drill,
    )?;
    let plunge = [((50_000, 40_000), (50_000, 40_000))];
    assert!(rt; are_strokes(&strokes_of(rt.alloc(), &hole)?, &plunge)?);
    assert!(rt; strokes_of(rt.alloc(), &small)?.is_empty());
    Ok(())
}
