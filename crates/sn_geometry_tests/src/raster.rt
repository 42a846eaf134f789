//! The grid of a job, and rows of a plane over it.
ghost use Rattle.std.specs.Prelude.{◌≡◌, ◌↔◌, ◌≤ℤ◌, IfOk, IsTrue};
ghost use Rattle.sn_geom.specs.Sweep.{IsHorizontalOrVertical};
ghost use Rattle.sn_outline.specs.Outline.{HasNearWidth};
ghost use Rattle.sn_raster.specs.Grid.{IsInWindow};

use crate::fixtures::{pt, pt3};
use sn_geom::{Body, Cell, PER_MM, Pt, Pt3, REACH, Seg};
use sn_outline::{Job, Numbers, Outline, Shape, Shapes, Steps};
use sn_raster::{Big, Bits, Grid, Heights, add_near, fill, fill_row};
use std::alloc::Global;
use std::test::Fail;

/// A job without steps, with a raw rectangle from (-1, 0) to (x, y).
fn job(alloc: Global, x: i32, y: i32, pitch: u32) -> Result<Job, Fail> {
    let low = pt3(-1, 0, 0)?;
    let high = pt3(x, y, 5_000)?;
    let job = Job::new(
        pitch,
        low,
        high,
        9_000,
        Steps::new(alloc),
        Numbers::new(alloc),
    );
    Ok(job.ok_or("no job")?)
}

fn rectangle(alloc: Global, low: Pt, high: Pt) -> Outline
    ensures { HasNearWidth result.shape }
{
    Outline {
        shape: Shape::Rect(low, high),
        islands: Shapes::new(alloc),
    }
}

fn fill_in_row(o: &Outline, j: i32, plane: &mut Bits) -> Result<(), Fail>
    requires { HasNearWidth o.now.shape }
{
    let g = plane.grid();
    if g.j0 <= j && j <= g.j1 {
        fill_row(o, &g, j, plane);
        return Ok(());
    }
    Err("no such row".into())
}

fn is_node(g: &Grid, i: i32, j: i32) -> bool
    ensures { IsTrue result → IsInWindow g.now (record { i = i; j = j }) }
{
    g.rule();
    is_from_to(g.i0, g.i1, i) && is_from_to(g.j0, g.j1, j)
}

fn is_from_to(first: i32, last: i32, k: i32) -> bool
    ensures { IsTrue result ↔ ((first ≤ℤ k) × (k ≤ℤ last)) }
{
    first <= k && k <= last
}

fn has(plane: &Bits, i: i32, j: i32) -> Result<bool, Fail> {
    let g = plane.grid();
    if is_node(&g, i, j) {
        return Ok(plane.get(i, j));
    }
    Err("no such node".into())
}

fn put(plane: &mut Bits, i: i32, j: i32) -> Result<(), Fail>
    ensures { plane.new.grid ≡ plane.old.grid }
{
    let g = plane.grid();
    if is_node(&g, i, j) {
        plane.set(i, j, true);
        return Ok(());
    }
    Err("no such node".into())
}

/// The nodes that a plane has in common with itself.
fn copied(alloc: Global, plane: &Bits) -> Result<Bits, Fail> {
    let g = plane.grid();
    let mut both = Bits::new(alloc, &g)?;
    both.both(plane, plane);
    Ok(both)
}

fn grid(alloc: Global, x: i32, y: i32, pitch: u32) -> Result<Result<Grid, Big>, Fail> {
    Ok(Grid::new(&job(alloc, x, y, pitch)?))
}

#[test]
fn rows_of_a_plane(rt: HostRuntime) -> Result<(), Fail> {
    assert!(rt; grid(rt.alloc(), 1_000_000, 1_000_000, 200)?.is_err());
    let g = grid(rt.alloc(), 35_000, 20_000, PER_MM)?
        .ok()
        .ok_or("too big")?;
    g.rule();
    assert_eq!(rt; (g.pitch, g.bottom, g.top), (PER_MM, 0, 5_000));
    assert_eq!(rt; (g.i0, g.i1, g.j0, g.j1), (0, 3, 0, 2));
    assert_eq!(rt; (g.ri0, g.ri1, g.rj0, g.rj1), (0, 3, 0, 2));
    let low = pt(10_000, -5_000)?;
    let high = pt(29_999, 10_000)?;
    let outline = rectangle(rt.alloc(), low, high);
    let mut plane = Bits::new(rt.alloc(), &g)?;
    put(&mut plane, 0, 1)?;
    put(&mut plane, 3, 2)?;
    fill_in_row(&outline, 1, &mut plane)?;
    let both = copied(rt.alloc(), &plane)?;
    let cases = [
        (1, 0, false),
        (0, 1, false),
        (1, 1, true),
        (2, 1, true),
        (3, 1, false),
        (1, 2, false),
        (3, 2, true),
    ];
    for (i, j, expected) in cases {
        assert_eq!(rt; has(&plane, i, j)?, expected, "{i} {j}");
        assert_eq!(rt; has(&both, i, j)?, expected, "{i} {j}");
    }
    Ok(())
}

/// The nodes that the plane has with those beside them, in their rows and in their columns.
fn beside(alloc: Global, plane: &Bits) -> Result<(Bits, Bits), Fail> {
    let g = plane.grid();
    let mut in_rows = Bits::new(alloc, &g)?;
    let mut in_columns = Bits::new(alloc, &g)?;
    in_rows.keep_beside_in_rows(plane);
    in_columns.keep_beside_in_columns(plane);
    Ok((in_rows, in_columns))
}

#[test]
fn nodes_beside_a_hole(rt: HostRuntime) -> Result<(), Fail> {
    let g = grid(rt.alloc(), 35_000, 20_000, PER_MM)?
        .ok()
        .ok_or("too big")?;
    let mut plane = Bits::new(rt.alloc(), &g)?;
    put(&mut plane, 1, 1)?;
    plane.invert();
    let (in_rows, in_columns) = beside(rt.alloc(), &plane)?;
    let cases = [
        (0, 0, true, true),
        (1, 0, true, false),
        (0, 1, false, true),
        (1, 1, false, false),
        (2, 1, false, true),
        (3, 1, true, true),
        (1, 2, true, false),
        (3, 2, true, true),
    ];
    for (i, j, row, column) in cases {
        assert_eq!(rt; has(&in_rows, i, j)?, row, "{i} {j}");
        assert_eq!(rt; has(&in_columns, i, j)?, column, "{i} {j}");
    }
    Ok(())
}

#[test]
fn planes_of_shapes(rt: HostRuntime) -> Result<(), Fail> {
    let g = grid(rt.alloc(), 35_000, 20_000, PER_MM)?
        .ok()
        .ok_or("too big")?;
    let centre = pt(10_000, 10_000)?;
    let circle = Outline {
        shape: Shape::Circle(centre, 20_000),
        islands: Shapes::new(rt.alloc()),
    };
    let mut inside = Bits::new(rt.alloc(), &g)?;
    put(&mut inside, 3, 0)?;
    fill(&circle, &mut inside);
    let mut near = Bits::new(rt.alloc(), &g)?;
    put(&mut near, 3, 0)?;
    let segment = Seg {
        a: centre,
        b: centre,
    };
    add_near(20_000, &segment, &mut near);
    assert!(rt; inside.is_within(&near));
    assert!(rt; !near.is_within(&inside));
    let cases = [
        (1, 1, true),
        (0, 1, true),
        (1, 2, true),
        (2, 2, false),
        (3, 0, false),
    ];
    for (i, j, expected) in cases {
        assert_eq!(rt; has(&inside, i, j)?, expected, "{i} {j}");
    }
    Ok(())
}

type Place = (i32, i32, i32);

fn place(p: Place) -> Result<Pt3, Fail> {
    pt3(p.0, p.1, p.2)
}

/// A level move where the heights are one, and an upright one at the first place where they are not.
fn ends(a: Place, b: Place) -> Result<(Pt3, Pt3), Fail>
    ensures { IfOk result (λ move. IsHorizontalOrVertical move.0 move.1) }
{
    let from = place(a)?;
    let to = place(b)?;
    if a.2 == b.2 {
        return Ok((from, Pt3 { z: from.z, ..to }));
    }
    Ok((from, Pt3 { z: to.z, ..from }))
}

fn raw(alloc: Global, j: &Job) -> Result<Heights, Fail> {
    match Grid::new(j) {
        Ok(g) => Ok(Heights::raw(alloc, &g, j)?),
        Err(Big) => Err("too big".into()),
    }
}

/// The first cell at the height 1,000 or more that the pass touches; then cuts with it.
fn pass(map: &mut Heights, body: Body, a: Place, b: Place) -> Result<Option<Cell>, Fail> {
    if REACH < body.d || REACH < body.e {
        return Err("no such tool".into());
    }
    let (from, to) = ends(a, b)?;
    let first = map.first_touched(body.d, &from, &to, 1_000);
    map.cut(&body, &from, &to);
    Ok(first)
}

fn height(map: &Heights, i: i32, j: i32) -> Result<i32, Fail> {
    let g = map.grid();
    if is_node(&g, i, j) {
        return Ok(map.at(i, j));
    }
    Err("no such node".into())
}

/// The greatest height over the nodes in columns 0 and 3 of row 1.
fn top(alloc: Global, map: &Heights) -> Result<i32, Fail> {
    let mut area = Bits::new(alloc, &map.grid())?;
    put(&mut area, 0, 1)?;
    put(&mut area, 3, 1)?;
    Ok(map.top_in(&area))
}

#[test]
fn heights_after_passes(rt: HostRuntime) -> Result<(), Fail> {
    let job = job(rt.alloc(), 35_000, 20_000, PER_MM)?;
    let mut map = raw(rt.alloc(), &job)?;
    assert_eq!(rt; (map.left(), top(rt.alloc(), &map)?), (60_000, 5_000));
    // the diameter and the length of the point, the pass, and then what it touches first and what is left: the count of
    // cells, the top in row 1, and the heights in columns 1 and 3 of that row
    let cases = [
        (
            (20_000, 0),
            (0, 0, 3_000),
            (20_000, 0, 3_000),
            Some((0, 0, 3_000)),
            (46_000, 5_000, 3_000, 5_000),
        ),
        (
            (20_000, 0),
            (0, 0, 3_000),
            (20_000, 0, 3_000),
            None,
            (46_000, 5_000, 3_000, 5_000),
        ),
        (
            (100, 500),
            (30_000, 10_040, 6_000),
            (0, 0, 200),
            Some((3, 1, 1_000)),
            (41_700, 3_000, 3_000, 700),
        ),
        (
            (100, 0),
            (10_000, 10_000, -400),
            (10_000, 0, -400),
            Some((1, 0, 1_000)),
            (35_700, 3_000, 0, 700),
        ),
        (
            (100, 0),
            (10_000, -90_000, 2_000),
            (10_000, -60, 2_000),
            None,
            (35_700, 3_000, 0, 700),
        ),
    ];
    for (tool, a, b, first, left) in cases {
        let body = Body {
            d: tool.0,
            e: tool.1,
        };
        let touched = pass(&mut map, body, a, b)?;
        assert_eq!(rt; touched.map(|c| (c.i, c.j, c.z)), first, "{a:?} {b:?}");
        let heights = (height(&map, 1, 1)?, height(&map, 3, 1)?);
        let now = (map.left(), top(rt.alloc(), &map)?, heights.0, heights.1);
        assert_eq!(rt; now, left, "{a:?} {b:?}");
    }
    Ok(())
}
