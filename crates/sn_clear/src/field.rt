//! The useful centres of a window.
ghost use Rattle.std.specs.Prelude.{◌≡◌, ◌+◌, ◌*◌, ◌^◌, ◌<◌};
ghost use Rattle.sn_clear.specs.Field.{IsSpot, IsField, is_useful, spot_of, squared_distance, holds};

use crate::spot::Spot;
use std::marker::Model;

/// The useful centres of a window, and how far the disc of the tool reaches.
#[derive(Drop)]
pub(crate) struct Field {
    columns: usize,
    rows: usize,
    /// The greatest squared distance, in pitches, of a node from the centre of a disc that holds it.
    reach: usize,
    useful: Vec<bool>,
}

impl Model for Field {
    ghost use Rattle.sn_clear.specs.Field.{Field as FieldContent, IsField};

    ghost Value = { FieldContent };

    ghost view = { λ f. record { columns = f.columns; rows = f.rows; reach = f.reach; useful = f.useful.items } };

    ghost invariant = { λ f. IsField (record { columns = f.columns; rows = f.rows; reach = f.reach; useful = f.useful.items }) };
}

impl Field {
    /// The field of a window with these counts of columns and rows, and these useful centres.
    pub(crate) fn new(columns: usize, rows: usize, reach: usize, useful: Vec<bool>) -> Field
        requires { IsField (record { columns = columns; rows = rows; reach = reach; useful = useful.items }) }
        ensures { result ≡ record { columns = columns; rows = rows; reach = reach; useful = useful.items } }
    {
        Field {
            columns,
            rows,
            reach,
            useful,
        }
    }

    /// How many columns the window has.
    pub(crate) fn columns(&self) -> usize
        ensures { result ≡ self.now.columns }
    {
        self.columns
    }

    /// How many rows the window has.
    pub(crate) fn rows(&self) -> usize
        ensures { result ≡ self.now.rows }
    {
        self.rows
    }

    /// The greatest squared distance, in pitches, of a node from the centre of a disc that holds it.
    pub(crate) fn reach(&self) -> usize
        ensures { result ≡ self.now.reach }
    {
        self.reach
    }

    /// How many nodes the window has.
    pub(crate) fn nodes(&self) -> usize
        ensures { result ≡ self.now.columns * self.now.rows }
    {
        self.columns * self.rows
    }

    /// The field keeps the rule of fields, which callers do not see from its type.
    pub(crate) fn rule(&self)
        ensures { IsField self.now }
    {
        let _rows = self.rows;
    }

    /// Whether the node is a useful centre.
    pub(crate) fn is_useful(&self, spot: Spot) -> bool
        requires { IsSpot self.now spot }
        ensures { result ≡ is_useful self.now spot }
    {
        self.useful[spot.row * self.columns + spot.column]
    }

    /// The node of a number, row by row, and in a row column by column.
    pub(crate) fn spot_of(&self, k: usize) -> Spot
        requires { k < self.now.columns * self.now.rows }
        ensures value { result ≡ spot_of self.now k }
        ensures inside { IsSpot self.now result }
    {
        Spot {
            column: k % self.columns,
            row: k / self.columns,
        }
    }

    /// Whether the disc about the node `centre` holds the node `spot`.
    pub(crate) fn holds(&self, centre: Spot, spot: Spot) -> bool
        requires centre { IsSpot self.now centre }
        requires spot { IsSpot self.now spot }
        ensures { result ≡ holds self.now centre spot }
    {
        self.rule();
        squared_distance(centre, spot) <= self.reach
    }
}

/// The square of the distance of two nodes, in pitches.
fn squared_distance(a: Spot, b: Spot) -> usize
    requires first { (a.column < 2 ^ 31) × (a.row < 2 ^ 31) }
    requires second { (b.column < 2 ^ 31) × (b.row < 2 ^ 31) }
    ensures { result ≡ squared_distance a b }
{
    let across = a.column.abs_diff(b.column);
    let along = a.row.abs_diff(b.row);
    across * across + along * along
}
