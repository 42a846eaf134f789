//! The strokes of a rectangular pocket, node by node.
ghost use Rattle.std.specs.Prelude.{◌≡◌, IfOk};

use sn_clear::strokes;
use sn_geom::{Body, PER_MM};
use sn_geometry_tests::fixtures::{pt, pt3};
use sn_open::{Centres, Strokes, columns_of, put_at, rows_of};
use sn_outline::{Bottom, Job, Numbers, Outline, Shape, Shapes, StepJob, Steps, Way};
use sn_raster::{Big, Bits, Grid};
use std::alloc::Global;
use std::test::Fail;

/// A job of one clearing step: a pocket over columns 3 to 9 and rows 3 to 12, with a border of one raw node around it.
///
/// The tool reaches two nodes, so the window begins at column 0 and row 0.
fn job(alloc: Global) -> Result<Job, Fail> {
    let step = StepJob {
        ws: 1,
        feature: 1,
        outline: Outline {
            shape: Shape::Rect(pt(30_000, 30_000)?, pt(90_000, 120_000)?),
            islands: Shapes::new(alloc),
        },
        top: 5_000,
        floor: 0,
        bottom: Bottom::Flat,
        corner: 0,
        side: 0,
        under: 0,
        axial: 5_000,
        radial: 40_000,
        tool: 1,
        body: Body { d: 40_000, e: 0 },
        feed: 100,
        speed: 1_000,
        way: Way::Clear,
    };
    let mut steps = Steps::new(alloc);
    steps.push(step)?;
    let mut tools = Numbers::new(alloc);
    tools.push(1)?;
    let low = pt3(20_000, 20_000, 0)?;
    let high = pt3(100_000, 130_000, 5_000)?;
    Ok(Job::new(PER_MM, low, high, 9_000, steps, tools).ok_or("no job")?)
}

fn put(plane: &mut Bits, column: u32, row: u32) -> Result<(), Fail>
    ensures { plane.new.grid ≡ plane.old.grid }
{
    let g = plane.grid();
    if column < columns_of(&g) && row < rows_of(&g) {
        put_at(plane, &g, column, row, true);
        return Ok(());
    }
    Err("no such node".into())
}

fn targets(alloc: Global, g: &Grid) -> Result<Bits, Fail>
    ensures { IfOk result (λ plane. plane.grid ≡ g.now) }
{
    let mut plane = Bits::new(alloc, g)?;
    put(&mut plane, 6, 4)?;
    put(&mut plane, 4, 7)?;
    put(&mut plane, 8, 9)?;
    put(&mut plane, 6, 11)?;
    Ok(plane)
}

fn strokes_of(alloc: Global, job: &Job) -> Result<Strokes, Fail> {
    job.rule();
    let g = match Grid::new(job) {
        Ok(g) => g,
        Err(Big) => return Err("too big".into()),
    };
    let targets = targets(alloc, &g)?;
    let steps = job.steps();
    if steps.is_empty() {
        return Err("no step".into());
    }
    let step = &steps[0];
    let centres = Centres::of(alloc, step, &g)?;
    Ok(strokes(alloc, &g, step, &centres, &targets)?)
}

#[test]
fn rows_to_and_fro_and_a_column(rt: HostRuntime) -> Result<(), Fail> {
    let made = strokes_of(rt.alloc(), &job(rt.alloc())?)?;
    // Useful centres: columns 5 to 7 of row 5; 5 and 6 of rows 6 and 7; 5 and 7 of row 8; 6 and 7 of row 9; 5 to 7 of row 10.
    // Each fourth of these rows and the last are rows 5, 9 and 10. No disc on them holds the target in column 4 and row 7.
    let expected = [
        ((50_000, 50_000), (70_000, 50_000)),
        ((70_000, 90_000), (60_000, 90_000)),
        ((50_000, 100_000), (70_000, 100_000)),
        ((50_000, 50_000), (50_000, 80_000)),
    ];
    assert_eq!(rt; made.len(), expected.len());
    for (stroke, (from, to)) in made.as_slice().iter().zip(expected) {
        assert_eq!(rt; stroke.from, pt(from.0, from.1)?);
        assert_eq!(rt; stroke.to, pt(to.0, to.1)?);
    }
    Ok(())
}
