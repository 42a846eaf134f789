//! What is written of counts, the counts of a job, and a part that is made.

use sn_geom::{Body, PER_MM};
use sn_geometry_tests::fixtures::{pt, pt3};
use sn_io::MemSink;
use sn_link::plan;
use sn_outline::{Bottom, Job, Numbers, Outline, Shape, Shapes, StepJob, Steps, Way};
use sn_p21::write_file;
use sn_raster::{Big, Grid};
use sn_report::{CountRow, Counts, job_counts, make_part, summary};
use sqlite_items::Items;
use std::alloc::Global;
use std::test::Fail;

#[test]
fn counts_are_written(rt: HostRuntime) -> Result<(), Fail> {
    let rows = [
        CountRow {
            ws: 10,
            tool: 1,
            strokes: 40,
            layers: 2,
            lifts: 3,
            cells: 5_000_000_000,
        },
        CountRow {
            ws: 4_294_967_295,
            tool: 2,
            strokes: 0,
            layers: 0,
            lifts: 1,
            cells: 7,
        },
    ];
    let counts = Counts {
        across: 641,
        up: 81,
        rows: Items::from_slice(rt.alloc(), &rows)?,
    };
    let Ok(mut sink) = MemSink::new(rt.alloc(), 1_000) else {
        return Err(Fail::from("no memory"));
    };
    assert!(rt; summary(&mut sink, &counts).is_ok());
    let expected =
        "steps 2\ngrid 641 81\nws 10 tool 1 strokes 40 layers 2 lifts 3 cells 5000000000\nws 4294967295 tool 2 strokes 0 layers 0 lifts 1 cells 7\n";
    assert_eq!(rt; sink.bytes(), expected.as_bytes());
    Ok(())
}

/// A job that drills a hole of 4 mm in a block of 20 mm by 20 mm by 10 mm, 6 mm deep.
fn one_hole(alloc: Global) -> Result<Job, Fail> {
    let centre = pt(50_000, 50_000)?;
    let mut steps = Steps::new(alloc);
    steps.push(StepJob {
        ws: 30,
        feature: 3,
        outline: Outline {
            shape: Shape::Circle(centre, 40_000),
            islands: Shapes::new(alloc),
        },
        top: 100_000,
        floor: 40_000,
        bottom: Bottom::Flat,
        corner: 0,
        side: 0,
        under: 0,
        axial: 100_000,
        radial: 0,
        tool: 1,
        body: Body { d: 40_000, e: 0 },
        feed: 100,
        speed: 1_000,
        way: Way::Drill,
    })?;
    let mut tools = Numbers::new(alloc);
    tools.push(17)?;
    let low = pt3(0, 0, 0)?;
    let high = pt3(200_000, 200_000, 100_000)?;
    Ok(Job::new(PER_MM, low, high, 200_000, steps, tools).ok_or("no job")?)
}

#[test]
fn a_hole_is_counted(rt: HostRuntime) -> Result<(), Fail> {
    let job = one_hole(rt.alloc())?;
    let g = match Grid::new(&job) {
        Ok(g) => g,
        Err(Big) => return Err("too big".into()),
    };
    let plans = plan(rt.alloc(), &job, &g)?;
    let counts = job_counts(rt.alloc(), &job, &g, plans.as_slice())?;
    // 2 nodes on each side of the 21 raw ones, and 13 nodes under the tool.
    assert_eq!(rt; (counts.across, counts.up), (25, 25));
    let row = CountRow {
        ws: 30,
        tool: 1,
        strokes: 1,
        layers: 1,
        lifts: 1,
        cells: 780_000,
    };
    assert_eq!(rt; counts.rows.as_slice(), [row].as_slice());
    Ok(())
}

/// The first slot of the seed 0.
const SLOT: &str = "#100=SLOT('',#3,(),#101,#103,#106,#107,());
#101=AXIS2_PLACEMENT_3D('',#102,$,$);
#102=CARTESIAN_POINT('',(20.,20.,20.));
#103=PLANE('',#104);
#104=AXIS2_PLACEMENT_3D('',#105,$,$);
#105=CARTESIAN_POINT('',(0.,0.,-3.));
#106=LINEAR_PATH($,#108,#19);
#107=SQUARE_U_PROFILE($,#23,$,$,$,$);
#108=TOLERANCED_LENGTH_MEASURE(8.,$);
";

#[test]
fn the_part_of_a_seed_is_made(rt: HostRuntime) -> Result<(), Fail> {
    let Ok(part) = make_part(rt.alloc(), 0) else {
        return Err(Fail::from("not made"));
    };
    assert_eq!(rt; part.instances.len(), 207);
    let Ok(text) = write_file(rt.alloc(), &part) else {
        return Err(Fail::from("not written"));
    };
    let found = text
        .as_slice()
        .windows(SLOT.len())
        .any(|piece| piece == SLOT.as_bytes());
    assert!(rt; found);
    Ok(())
}
