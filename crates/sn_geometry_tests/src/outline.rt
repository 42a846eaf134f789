//! Tables of points in outlines, and the parts of jobs.
ghost use Rattle.std.specs.Prelude.{◌≡◌};

use crate::fixtures::{pt, pt3};
use sn_geom::{Body, NO_DEPTH, Pt, REACH};
use sn_outline::{
    Bottom, Job, Numbers, Outline, Points, Shape, Shapes, StepJob, Steps, Way, inside, is_proper,
    tip_floor,
};
use std::alloc::Global;
use std::test::Fail;

type Place = (i32, i32);

fn point(place: Place) -> Result<Pt, Fail> {
    pt(place.0, place.1)
}

fn plain(alloc: Global, shape: Shape) -> Outline
    ensures { result.shape ≡ shape }
{
    Outline {
        shape,
        islands: Shapes::new(alloc),
    }
}

fn points(alloc: Global, places: &[Place]) -> Result<Points, Fail> {
    let mut points = Points::new(alloc);
    for place in places {
        points.push(point(*place)?)?;
    }
    Ok(points)
}

fn in_polygon(alloc: Global, corners: &[Place], place: Place) -> Result<bool, Fail> {
    let outline = plain(alloc, Shape::Polygon(points(alloc, corners)?));
    Ok(inside(&outline, &point(place)?))
}

fn in_rectangle(alloc: Global, low: Place, high: Place, place: Place) -> Result<bool, Fail> {
    let outline = plain(alloc, Shape::Rect(point(low)?, point(high)?));
    Ok(inside(&outline, &point(place)?))
}

fn in_circle(alloc: Global, centre: Place, d: u32, place: Place) -> Result<bool, Fail> {
    let outline = plain(alloc, Shape::Circle(point(centre)?, d));
    Ok(inside(&outline, &point(place)?))
}

fn near_trail(alloc: Global, trail: &[Place], width: u32, place: Place) -> Result<bool, Fail> {
    if width > REACH {
        return Err("the width is out of range".into());
    }
    let outline = plain(alloc, Shape::Trail(points(alloc, trail)?, width));
    Ok(inside(&outline, &point(place)?))
}

#[test]
fn points_in_polygons(rt: HostRuntime) -> Result<(), Fail> {
    let cases: [(&[Place], Place, bool); 22] = [
        // a vertex, or a level edge, at the height of the point
        (&[(-1, -3), (-2, 0), (1, 1), (-1, -2)], (-2, -2), false),
        (&[(1, -1), (1, 1), (1, 1), (-2, 1)], (0, 0), true),
        (
            &[(3, 4), (7, -8), (-5, -2), (-7, 2), (-8, 0)],
            (-6, 0),
            true,
        ),
        (
            &[(0, 8), (6, 4), (8, -7), (3, -8), (-6, 2), (-3, 1), (1, 5)],
            (0, 2),
            true,
        ),
        (&[(1, 1), (-1, 2), (1, -2), (0, -2)], (-1, -2), false),
        (&[(2, -5), (-4, 0), (0, 0), (1, -4)], (-2, -4), false),
        (&[(-3, 3), (-1, 2), (1, 0)], (0, 3), false),
        (&[(0, -4), (1, 1), (-7, 7)], (0, 7), false),
        // on the border
        (&[(2, 2), (2, 0), (1, 2)], (1, 2), true),
        (&[(2, 3), (2, -3), (1, -2)], (2, 0), true),
        (&[(-1, -1), (-1, -1), (-1, -1), (-1, 1)], (-1, 0), true),
        (&[(0, 2), (-1, 3), (3, 3)], (-1, 3), true),
        (
            &[(1, -2), (1, 5), (1, 2), (-2, 0), (4, 0), (-1, 1)],
            (-1, 1),
            true,
        ),
        // self-crossing
        (&[(3, -3), (3, 1), (2, -2), (-1, -2), (0, 3)], (1, 0), true),
        (
            &[(1, 4), (0, 1), (2, 8), (8, -8), (6, 2), (-8, -4)],
            (-1, 0),
            true,
        ),
        (&[(1, 0), (-1, -1), (-2, 2), (2, -2)], (0, -1), false),
        (
            &[(1, -3), (2, -3), (0, 3), (3, 2), (-1, 3), (-3, -3)],
            (3, -2),
            false,
        ),
        (&[(5, 0), (-5, 3), (0, -4), (-2, 4), (3, 5)], (2, 3), true),
        // spikes, walked both ways
        (
            &[(3, -2), (1, -3), (-1, 1), (1, 3), (-3, 3), (1, 3)],
            (-3, -1),
            false,
        ),
        (&[(4, 1), (-3, -5), (4, 1), (5, 4)], (5, 1), false),
        // few points
        (&[(7, 7)], (7, 7), true),
        (&[], (0, 0), false),
    ];
    for (corners, place, expected) in cases {
        assert_eq!(rt;
            in_polygon(rt.alloc(), corners, place)?,
            expected,
            "{place:?}"
        );
    }
    Ok(())
}

#[test]
fn points_in_rectangles_and_circles(rt: HostRuntime) -> Result<(), Fail> {
    let rectangles = [
        ((1, -2), (3, 2), (3, -2), true),
        ((-2, -1), (-2, 0), (-2, -1), true),
        ((-2, -1), (0, 2), (0, 0), true),
        ((-3, -7), (0, -3), (0, 4), false),
        ((2, 1), (3, 1), (3, 0), false),
        ((1, -2), (1, -1), (-1, 1), false),
    ];
    for (low, high, place, expected) in rectangles {
        assert_eq!(rt;
            in_rectangle(rt.alloc(), low, high, place)?,
            expected,
            "{place:?}"
        );
    }
    let circles = [
        ((3, 2), 4, (3, 0), true),
        ((-4, -3), 6, (-4, 0), true),
        ((2, 3), 3, (1, 2), true),
        ((-4, -5), 10, (1, -4), false),
        ((3, 3), 4, (1, 2), false),
        ((0, -2), 1, (1, -2), false),
    ];
    for (centre, d, place, expected) in circles {
        assert_eq!(rt;
            in_circle(rt.alloc(), centre, d, place)?,
            expected,
            "{place:?}"
        );
    }
    Ok(())
}

#[test]
fn points_near_trails(rt: HostRuntime) -> Result<(), Fail> {
    let trails: [(&[Place], u32, Place, bool); 8] = [
        (&[(3, 2), (2, -1), (4, 5), (-4, -3)], 0, (-4, -3), true),
        (&[(-2, -2), (-2, -2), (-2, 2)], 2, (-1, -2), true),
        (&[(-3, -7), (-8, -4)], 2, (-8, -3), true),
        (&[(3, -5), (-5, 3), (-4, 0), (-1, 0)], 3, (-3, 3), true),
        (&[(0, 5), (5, -8), (-5, 2), (-3, 0)], 7, (5, 2), false),
        (&[(4, -3), (5, 0), (0, 0)], 1, (0, 0), true),
        (&[(-5, 4), (-8, 8)], 4, (-8, -7), false),
        (&[(5, 5)], 4, (5, 5), false),
    ];
    for (trail, width, place, expected) in trails {
        assert_eq!(rt;
            near_trail(rt.alloc(), trail, width, place)?,
            expected,
            "{place:?}"
        );
    }
    Ok(())
}

/// A hole that is drilled at its centre.
fn drilling(alloc: Global, tool: u32, bottom: Bottom) -> Result<StepJob, Fail> {
    Ok(StepJob {
        ws: 7,
        feature: 9,
        outline: plain(alloc, Shape::Circle(point((50_000, 50_000))?, 60_000)),
        top: 200_000,
        floor: 40_000,
        bottom,
        corner: 0,
        side: 0,
        under: 2_000,
        axial: NO_DEPTH,
        radial: 30_000,
        tool,
        body: Body {
            d: 60_000,
            e: 30_000,
        },
        feed: 300,
        speed: 2_000,
        way: Way::Drill,
    })
}

fn with_step(alloc: Global, step: StepJob) -> Result<Option<Job>, Fail> {
    let low = pt3(0, 0, 0)?;
    let high = pt3(100_000, 100_000, 200_000)?;
    let mut steps = Steps::new(alloc);
    steps.push(step)?;
    let mut tools = Numbers::new(alloc);
    tools.push(12)?;
    Ok(Job::new(2_500, low, high, 250_000, steps, tools))
}

#[test]
fn parts_of_a_job(rt: HostRuntime) -> Result<(), Fail> {
    let step = drilling(rt.alloc(), 1, Bottom::Conical)?;
    assert!(rt; is_proper(&step));
    assert_eq!(rt; tip_floor(&step), 12_000);
    let job = with_step(rt.alloc(), step)?.ok_or("no job")?;
    job.rule();
    assert_eq!(rt; job.pitch(), 2_500);
    assert_eq!(rt; job.low(), pt3(0, 0, 0)?);
    assert_eq!(rt; job.high(), pt3(100_000, 100_000, 200_000)?);
    assert_eq!(rt; job.sec(), 250_000);
    assert_eq!(rt; job.steps().len(), 1);
    assert_eq!(rt; job.tools().first(), Some(&12));
    let other_tool = drilling(rt.alloc(), 2, Bottom::Flat)?;
    assert_eq!(rt; tip_floor(&other_tool), 42_000);
    assert!(rt; with_step(rt.alloc(), other_tool)?.is_none());
    Ok(())
}
