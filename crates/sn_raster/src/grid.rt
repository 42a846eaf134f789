//! The grid of a job.
ghost use Rattle.std.specs.Prelude.{◌≡◌, ◌*◌, ◌≤◌, ◌<◌, ◌↔◌, MatchResult, IsTrue};
ghost use Rattle.std.specs.List.{All};
ghost use Rattle.sn_outline.specs.JobRule.{IsPitch, IsProper};
ghost use Rattle.sn_raster.specs.Grid.{IsGrid, IsGridOf, FitsGrid, AreInRange, places, greatest_margin, margin_of, half_up};

use crate::places::Places;
use sn_geom::{MOST_NODES, REACH};
use sn_outline::{Job, StepJob};
use std::marker::Model;

/// The window of a job leaves the range of coordinates, or has more than `MOST_NODES` nodes.
#[derive(Clone, Copy, Debug, PartialEq, Eq)]
pub struct Big;

/// The grid of a job. It keeps the rule of grids.
///
/// A node (i, j) is at the point (i * pitch, j * pitch). The pitch and the heights are tenths of a micrometre.
#[derive(Clone, Copy, Debug, PartialEq, Eq)]
pub struct Grid {
    pub pitch: u32,
    /// The first and the last column of the window.
    pub i0: i32,
    pub i1: i32,
    /// The first and the last row of the window.
    pub j0: i32,
    pub j1: i32,
    /// The first and the last column of the raw nodes.
    pub ri0: i32,
    pub ri1: i32,
    /// The first and the last row of the raw nodes.
    pub rj0: i32,
    pub rj1: i32,
    /// The heights of the raw bottom and the raw top.
    pub bottom: i32,
    pub top: i32,
}

impl Model for Grid {
    ghost use Rattle.sn_raster.specs.Grid.{Grid as GridContent, IsGrid};

    ghost Value = { GridContent };

    ghost view = { λ g. record {
      pitch = g.pitch;
      i0 = g.i0;
      i1 = g.i1;
      j0 = g.j0;
      j1 = g.j1;
      ri0 = g.ri0;
      ri1 = g.ri1;
      rj0 = g.rj0;
      rj1 = g.rj1;
      bottom = g.bottom;
      top = g.top;
    } };

    ghost invariant = { λ g. IsGrid (record {
      pitch = g.pitch;
      i0 = g.i0;
      i1 = g.i1;
      j0 = g.j0;
      j1 = g.j1;
      ri0 = g.ri0;
      ri1 = g.ri1;
      rj0 = g.rj0;
      rj1 = g.rj1;
      bottom = g.bottom;
      top = g.top;
    }) };

    ghost inverse = { λ g. record {
      pitch = g.pitch;
      i0 = g.i0;
      i1 = g.i1;
      j0 = g.j0;
      j1 = g.j1;
      ri0 = g.ri0;
      ri1 = g.ri1;
      rj0 = g.rj0;
      rj1 = g.rj1;
      bottom = g.bottom;
      top = g.top;
    } };
}

impl Grid {
    /// The grid of a job.
    pub fn new(j: &Job) -> Result<Grid, Big>
        ensures { MatchResult result (λ g. FitsGrid j.now × IsGridOf g j.now) (λ _. ¬ FitsGrid j.now) }
    {
        j.rule();
        let margin = greatest_margin_of(j.steps());
        let pitch = j.pitch();
        let low = j.low();
        let high = j.high();
        let columns = Places::grown(low.x, high.x, margin, pitch);
        let rows = Places::grown(low.y, high.y, margin, pitch);
        if !fits(&columns, &rows, pitch) {
            return Err(Big);
        }
        let raw_columns = Places::between(low.x, high.x, pitch);
        let raw_rows = Places::between(low.y, high.y, pitch);
        Ok(Grid {
            pitch,
            i0: columns.first,
            i1: columns.last,
            j0: rows.first,
            j1: rows.last,
            ri0: raw_columns.first,
            ri1: raw_columns.last,
            rj0: raw_rows.first,
            rj1: raw_rows.last,
            bottom: low.z.get(),
            top: high.z.get(),
        })
    }

    /// The grid keeps the rule of grids, which callers do not see from its type.
    pub fn rule(&self)
        ensures { IsGrid self.now }
    {
        let _pitch = self.pitch;
    }
}

/// Whether a window of these columns and rows has not too many nodes, and each of them in the range.
fn fits(columns: &Places, rows: &Places, pitch: u32) -> bool
    requires { IsPitch pitch }
    ensures { let nodes = places columns.now.first columns.now.last * places rows.now.first rows.now.last in
        IsTrue result ↔ ((nodes ≤ MOST_NODES)
        × (0 < nodes → AreInRange pitch columns.now.first columns.now.last)
        × (0 < nodes → AreInRange pitch rows.now.first rows.now.last)) }
{
    let nodes = u64::from(columns.count()) * u64::from(rows.count());
    if nodes == 0 {
        return true;
    }
    nodes <= u64::from(MOST_NODES) && columns.are_in_range(pitch) && rows.are_in_range(pitch)
}

/// The greatest margin of the steps.
fn greatest_margin_of(steps: &[StepJob]) -> u32
    requires { All IsProper steps.now }
    ensures value { result ≡ greatest_margin steps.now }
    ensures size { result ≤ REACH }
{
    let mut margin: u32 = 0;
    for step in steps {
        margin = margin.max(margin_of_step(step));
    }
    margin
}

/// How far the step may have to do with nodes outside the raw rectangle.
fn margin_of_step(step: &StepJob) -> u32
    requires { IsProper step.now }
    ensures value { result ≡ margin_of step.now }
    ensures size { result ≤ REACH }
{
    half(step.body.d).max(step.side.max(half(step.corner)))
}

/// Half of a diameter, rounded up.
pub(crate) fn half(d: u32) -> u32
    ensures { result ≡ half_up d }
{
    d.div_ceil(2)
}
