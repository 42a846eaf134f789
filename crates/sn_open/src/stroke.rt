//! Straight passes of a tool in the plane.

use sn_geom::Pt;
use sqlite_items::Items;

/// A straight pass in the plane: from a point to a point.
#[derive(Clone, Copy, Debug, PartialEq, Eq)]
pub struct Stroke {
    pub from: Pt,
    pub to: Pt,
}

/// Strokes in order, seen as their list.
pub type Strokes = Items<Stroke>;
