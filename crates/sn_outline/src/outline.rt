//! Outlines: closed sets of points in the plane.

use sn_geom::Pt;
use sqlite_items::Items;

/// Points in a row, seen as their list.
pub type Points = Items<Pt>;

/// Shapes, seen as their list.
pub type Shapes = Items<Shape>;

/// A closed shape in the plane. Lengths are tenths of a micrometre.
#[derive(Drop)]
pub enum Shape {
    /// A rectangle, by its low and its high corner.
    Rect(Pt, Pt),
    /// A circle, by its centre and its diameter.
    Circle(Pt, u32),
    /// A polygon, by its corners: its border, and what a ray leaves by crossing the border an odd number of times.
    Polygon(Points),
    /// A trail of points with its width: what is within half the width of one of its segments.
    Trail(Points, u32),
}

/// A shape with its islands, of which there are none yet.
#[derive(Drop)]
pub struct Outline {
    pub shape: Shape,
    pub islands: Shapes,
}
