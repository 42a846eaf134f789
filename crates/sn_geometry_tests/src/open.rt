//! The regions of a pocket, node by node.
ghost use Rattle.std.specs.Prelude.{◌≡◌, ◌<◌, IfOk};
ghost use Rattle.sn_geom.specs.Sweep.{IsHorizontalOrVertical};
ghost use Rattle.sn_raster.specs.Grid.{IsGridOf};
ghost use Rattle.sn_open.specs.Window.{rows};
ghost use Rattle.sn_open.specs.Planes.{IsGridWith};
ghost use Rattle.sn_open.specs.Reach.{IsExecuted};

use crate::fixtures::{pt, pt3};
use sn_geom::{Body, Cell, PER_MM, Pt3};
use sn_open::{
    Allowed, Centres, Gouges, Opening, Required, columns_of, first_small, first_unreached, has_at,
    rows_of,
};
use sn_outline::{Bottom, Job, Numbers, Outline, Shape, Shapes, StepJob, Steps, Way};
use sn_raster::{Big, Bits, Grid, Heights};
use std::alloc::Global;
use std::test::Fail;

type Place = (i32, i32, i32);

fn place(p: Place) -> Result<Pt3, Fail> {
    pt3(p.0, p.1, p.2)
}

/// A job of one step that clears a pocket from column 3 up to a last one and from row 3 to row 8. The raw nodes are those of
/// columns 2 to 10 and rows 2 to 9.
///
/// The tool reaches one node, so the window has columns 1 to 11 and rows 1 to 10. The step may cut from the height 1,000 up,
/// and cuts with its whole diameter from the length of its point above that.
fn job(alloc: Global, last: i32, point: u32) -> Result<Job, Fail> {
    let step = StepJob {
        ws: 1,
        feature: 7,
        outline: Outline {
            shape: Shape::Rect(pt(30_000, 30_000)?, pt(last, 80_000)?),
            islands: Shapes::new(alloc),
        },
        top: 5_000,
        floor: 0,
        bottom: Bottom::Flat,
        corner: 20_000,
        side: 0,
        under: 1_000,
        axial: 5_000,
        radial: 10_000,
        tool: 1,
        body: Body {
            d: 20_000,
            e: point,
        },
        feed: 100,
        speed: 1_000,
        way: Way::Clear,
    };
    let mut steps = Steps::new(alloc);
    steps.push(step)?;
    let mut tools = Numbers::new(alloc);
    tools.push(1)?;
    let low = place((20_000, 20_000, 0))?;
    let high = place((100_000, 90_000, 5_000))?;
    Ok(Job::new(PER_MM, low, high, 9_000, steps, tools).ok_or("no job")?)
}

fn grid(j: &Job) -> Result<Grid, Fail>
    ensures { IfOk result (λ g. IsGridOf g j.now) }
{
    match Grid::new(j) {
        Ok(g) => Ok(g),
        Err(Big) => Err("too big".into()),
    }
}

/// The column and the row of a node in the window.
type Node = (u32, u32);

/// The first node at which the plane and the lines of text differ.
fn difference(plane: &Bits, lines: &[&str]) -> Option<Node> {
    let g = plane.grid();
    for row in 0..rows_of(&g) {
        let found = difference_in(plane, &g, lines, row);
        if found.is_some() {
            return found;
        }
    }
    None
}

fn difference_in(plane: &Bits, g: &Grid, lines: &[&str], row: u32) -> Option<Node>
    requires grid { plane.now.grid ≡ g.now }
    requires row { row < rows g.now }
{
    for column in 0..columns_of(g) {
        if has_at(plane, g, column, row) != is_marked(lines, column, row) {
            return Some((column, row));
        }
    }
    None
}

fn is_marked(lines: &[&str], column: u32, row: u32) -> bool {
    let Some(line) = lines.get(row as usize) else {
        return false;
    };
    line.as_bytes().get(column as usize) == Some(&b'#')
}

// The raw nodes outside the pocket are not allowed.
const ALLOWED: [&str; 10] = [
    "###########",
    "#.........#",
    "#.#######.#",
    "#.#######.#",
    "#.#######.#",
    "#.#######.#",
    "#.#######.#",
    "#.#######.#",
    "#.........#",
    "###########",
];

// The disc about a node has its four neighbours too.
const CENTRES: [&str; 10] = [
    "#.........#",
    "...........",
    "...........",
    "...#####...",
    "...#####...",
    "...#####...",
    "...#####...",
    "...........",
    "...........",
    "#.........#",
];

// The corners of the pocket are in no disc.
const OPENING: [&str; 10] = [
    "...........",
    "...........",
    "...#####...",
    "..#######..",
    "..#######..",
    "..#######..",
    "..#######..",
    "...#####...",
    "...........",
    "...........",
];

// A required node is two nodes away from all that is not in a disc of the corner diameter, which is here the tool's.
const REQUIRED: [&str; 10] = [
    "...........",
    "...........",
    "...........",
    "...........",
    ".....#.....",
    ".....#.....",
    "...........",
    "...........",
    "...........",
    "...........",
];

fn allowed_difference(alloc: Global, step: &StepJob, g: &Grid) -> Result<Option<Node>, Fail>
    requires { IsGridWith g.now step.now }
{
    let allowed = Allowed::of(alloc, step, g)?;
    Ok(difference(allowed.nodes(), &ALLOWED))
}

fn centres_difference(alloc: Global, step: &StepJob, g: &Grid) -> Result<Option<Node>, Fail>
    requires { IsGridWith g.now step.now }
{
    let centres = Centres::of(alloc, step, g)?;
    Ok(difference(centres.nodes(), &CENTRES))
}

fn opening_difference(alloc: Global, step: &StepJob, g: &Grid) -> Result<Option<Node>, Fail>
    requires { IsGridWith g.now step.now }
{
    let opening = Opening::of(alloc, step, g)?;
    Ok(difference(opening.nodes(), &OPENING))
}

fn required_difference(alloc: Global, j: &Job, feature: u32, g: &Grid) -> Result<Option<Node>, Fail>
    requires grid { IsGridOf g.now j.now }
    requires executed { IsExecuted j.now feature }
{
    let required = Required::of(alloc, j, feature, g)?;
    Ok(difference(required.nodes(), &REQUIRED))
}

/// The first differences of the regions of the first step and of its feature.
fn differences_of(alloc: Global, j: &Job) -> Result<[Option<Node>; 4], Fail> {
    j.rule();
    let g = grid(j)?;
    let steps = j.steps();
    if steps.is_empty() {
        return Err("no step".into());
    }
    let step = &steps[0];
    Ok([
        allowed_difference(alloc, step, &g)?,
        centres_difference(alloc, step, &g)?,
        opening_difference(alloc, step, &g)?,
        required_difference(alloc, j, step.feature, &g)?,
    ])
}

fn differences(alloc: Global) -> Result<[Option<Node>; 4], Fail> {
    let job = job(alloc, 90_000, 0)?;
    differences_of(alloc, &job)
}

/// How many columns and rows the window has.
fn window(alloc: Global) -> Result<(u32, u32), Fail> {
    let job = job(alloc, 90_000, 0)?;
    let g = grid(&job)?;
    Ok((columns_of(&g), rows_of(&g)))
}

#[test]
fn regions_of_a_pocket(rt: HostRuntime) -> Result<(), Fail> {
    assert_eq!(rt; window(rt.alloc())?, (11, 10));
    assert_eq!(rt; differences(rt.alloc())?, [None; 4]);
    Ok(())
}

/// The first feature that the grid is too coarse for, and the first cell that no step reaches.
type Faults = (Option<u32>, Option<(u32, Cell)>);

/// The faults of the job with this last column of the pocket and this length of the tool's point.
fn faults(alloc: Global, last: i32, point: u32) -> Result<Faults, Fail> {
    let job = job(alloc, last, point)?;
    let g = grid(&job)?;
    let small = first_small(alloc, &job, &g)?;
    let unreached = first_unreached(alloc, &job, &g)?;
    Ok((small, unreached))
}

#[test]
fn faults_of_pockets(rt: HostRuntime) -> Result<(), Fail> {
    let left = Cell {
        i: 6,
        j: 5,
        z: 1_000,
    };
    // A pocket of four columns has no required node, and a point leaves the cells under its length.
    let cases = [
        (90_000, 0, (None, None)),
        (90_000, 3_000, (None, Some((7, left)))),
        (60_000, 3_000, (Some(7), None)),
    ];
    for (last, point, expected) in cases {
        assert_eq!(rt;
            faults(rt.alloc(), last, point)?,
            expected,
            "{last} {point}"
        );
    }
    Ok(())
}

/// A level move where the heights are one, and an upright one at the first place where they are not.
fn ends(a: Place, b: Place) -> Result<(Pt3, Pt3), Fail>
    ensures { IfOk result (λ move. IsHorizontalOrVertical move.0 move.1) }
{
    let from = place(a)?;
    let to = place(b)?;
    if a.2 == b.2 {
        return Ok((from, Pt3 { z: from.z, ..to }));
    }
    Ok((from, Pt3 { z: to.z, ..from }))
}

/// The first cell of the raw box that the step's tool gouges on its way.
fn gouged_in(alloc: Global, j: &Job, a: Place, b: Place) -> Result<Option<Cell>, Fail> {
    j.rule();
    let (from, to) = ends(a, b)?;
    let g = grid(j)?;
    let steps = j.steps();
    if steps.is_empty() {
        return Err("no step".into());
    }
    let allowed = Allowed::of(alloc, &steps[0], &g)?;
    let map = Heights::raw(alloc, &g, j)?;
    Ok(map.first_gouged(20_000, &from, &to, &allowed))
}

fn gouged(alloc: Global, a: Place, b: Place) -> Result<Option<Place>, Fail> {
    let job = job(alloc, 90_000, 0)?;
    match gouged_in(alloc, &job, a, b)? {
        Some(c) => Ok(Some((c.i, c.j, c.z))),
        None => Ok(None),
    }
}

#[test]
fn gouges_of_moves(rt: HostRuntime) -> Result<(), Fail> {
    let cases = [
        // inside the pocket, then below it, then above the raw box
        ((60_000, 50_000, 3_000), (80_000, 50_000, 3_000), None),
        (
            (60_000, 50_000, 500),
            (80_000, 50_000, 500),
            Some((6, 4, 500)),
        ),
        ((90_000, 80_000, 5_000), (90_000, 50_000, 5_000), None),
        // along its last column, from the last row to the first
        (
            (90_000, 80_000, 3_000),
            (90_000, 50_000, 3_000),
            Some((10, 5, 3_000)),
        ),
        // down behind its last row, past the raw bottom
        (
            (90_000, 90_000, 4_000),
            (90_000, 90_000, -200),
            Some((9, 8, 0)),
        ),
    ];
    for (a, b, expected) in cases {
        assert_eq!(rt; gouged(rt.alloc(), a, b)?, expected, "{a:?} {b:?}");
    }
    Ok(())
}
