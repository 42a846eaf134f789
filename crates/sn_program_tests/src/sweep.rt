//! Lines at fault of a program for one hole.
ghost use Rattle.std.specs.Prelude.{◌≡◌, ◌+◌, ◌<◌, [], length, IfOk};
ghost use Rattle.sn_raster.specs.Grid.{IsGridOf};

use sn_geom::{Body, PER_MM};
use sn_geometry_tests::fixtures::{pt, pt3};
use sn_outline::{Bottom, Job, Numbers, Outline, Shape, Shapes, StepJob, Steps, Way};
use sn_raster::{Big, Grid};
use sn_sweep::{Cause, Checker, Verdict};
use std::alloc::Global;
use std::test::Fail;

/// A hole of a diameter of 2 mm at (4, 3) in a box of 8 by 6 by 5 mm, drilled through in the workingstep 20, with the
/// security height of 7 mm.
fn step(alloc: Global) -> Result<StepJob, Fail> {
    let centre = pt(40_000, 30_000)?;
    Ok(StepJob {
        ws: 20,
        feature: 30,
        outline: Outline {
            shape: Shape::Circle(centre, 20_000),
            islands: Shapes::new(alloc),
        },
        top: 50_000,
        floor: 0,
        bottom: Bottom::Through,
        corner: 0,
        side: 0,
        under: 0,
        axial: 50_000,
        radial: 10_000,
        tool: 1,
        body: Body {
            d: 20_000,
            e: 6_000,
        },
        feed: 100,
        speed: 1_000,
        way: Way::Drill,
    })
}

fn job(alloc: Global) -> Result<Job, Fail> {
    let mut steps = Steps::new(alloc);
    steps.push(step(alloc)?)?;
    let mut tools = Numbers::new(alloc);
    tools.push(10)?;
    let low = pt3(0, 0, 0)?;
    let high = pt3(80_000, 60_000, 50_000)?;
    Ok(Job::new(PER_MM, low, high, 70_000, steps, tools).ok_or("no job")?)
}

fn grid(j: &Job) -> Result<Grid, Fail>
    ensures { IfOk result (λ g. IsGridOf g j.now) }
{
    match Grid::new(j) {
        Ok(g) => Ok(g),
        Err(Big) => Err("too big".into()),
    }
}

fn take(checker: &mut Checker, line: &[u8]) -> Option<Verdict>
    requires held { checker.old.rest ≡ [] }
    requires room { checker.old.lines + length line.now < 100 }
    ensures held { checker.new.rest ≡ [] }
    ensures counted { checker.new.lines ≡ checker.old.lines + 1 }
{
    checker.line(line)
}

/// What is told of the last of three lines.
fn last_told(mut checker: Checker<'_>, first: &[u8], second: &[u8], third: &[u8]) -> Option<Verdict>
    requires held { checker.rest ≡ [] }
    requires none { checker.lines ≡ 0 }
    requires short { (length first.now < 90) × (length second.now < 90) × (length third.now < 90) }
{
    take(&mut checker, first);
    take(&mut checker, second);
    take(&mut checker, third)
}

fn told(
    alloc: Global,
    j: &Job,
    g: &Grid,
    lines: [&'static [u8]; 3],
) -> Result<Option<Verdict>, Fail>
    requires { IsGridOf g.now j.now }
{
    let [first, second, third] = lines;
    if first.len() >= 90 || second.len() >= 90 || third.len() >= 90 {
        return Err("too long".into());
    }
    match Checker::begin(alloc, j, g) {
        Ok(checker) => Ok(last_told(checker, first, second, third)),
        Err(_) => Err("no memory".into()),
    }
}

#[test]
fn wrong_mark(rt: HostRuntime) -> Result<(), Fail> {
    let j = job(rt.alloc())?;
    let g = grid(&j)?;
    let answer = told(rt.alloc(), &j, &g, [b"(WS #20)", b"(WS #20)", b"?"])?;
    assert_eq!(rt; answer, Some(Verdict::Line(2, Cause::WrongMark)));
    Ok(())
}

#[test]
fn low_entry(rt: HostRuntime) -> Result<(), Fail> {
    let j = job(rt.alloc())?;
    let g = grid(&j)?;
    let set = b"G21 G90 G17 G94 G40 G61 T1 M6";
    let answer = told(rt.alloc(), &j, &g, [set, b"G43 H1", b"G0 Z6.9999"])?;
    assert_eq!(rt; answer, Some(Verdict::Line(3, Cause::LowEntry)));
    let answer = told(
        rt.alloc(),
        &j,
        &g,
        [set, b"G43 H1 G0 Z7", b"(WS #20) X4 Y3"],
    )?;
    assert_eq!(rt; answer, None);
    Ok(())
}
