//! Outlines of features where they are drawn.
ghost use Rattle.std.specs.Prelude.{◌≡◌, ℕ, ◌≤◌, pos, neg_ℤ, [], ◌∷◌, map, IfOk};
ghost use Rattle.sn_geom.specs.declared.limits.TheConstants.{REACH};
ghost use Rattle.std.specs.List.{Contains};
ghost use Rattle.sn_refs.specs.Target.{IsTarget};
ghost use Rattle.sn_feature.specs.Outline.{at as point_at, origin as origin_point, plane_point as plane_point_of, polyline as polyline_of, is_closed as is_closed_list, corners as corners_of, centred as centred_sketch, reach as reach_of, face_sketch as sketch_of_face, face_along, straight as straight_points, heading as heading_of, trail as trail_points, profile_sketch, sketch_of};
ghost use Rattle.sn_feature.specs.Targets.{LeadsForm, LeadsLinearCourse, LeadsCourse, LeadsBoundary, IsSized};
ghost use Rattle.sn_frame.specs.Direction.{sign_of as sign_by};

use crate::entities::{Boundary, Course, Form, LinearCourse, Profile, length, profile_length};
use crate::placement::{point, ratios};
use sn_entity::{Group, RowId};
use sn_frame::{Axis, Direction, Sign};
use sn_geom::{Pt, Um};
use sn_outline::Points;
use sn_refs::Checked;
use std::alloc::{AllocError, Global};

/// The outline of a feature in the frame of its profile, or else in that of the feature.
#[derive(Drop)]
pub enum Sketch {
    /// By two opposite corners.
    Rectangle(Pt, Pt),
    /// About the origin, by its diameter.
    Circle(u32),
    Polygon(Points),
    /// The points and the width.
    Trail(Points, u32),
}

impl Sketch {
    /// The outline of a feature.
    #[tactic(auto, unfolding(crate::specs::Outline::sketch_of))]
    pub fn read(alloc: Global, c: &Checked, form: &Form) -> Result<Sketch, AllocError>
        requires { LeadsForm c.now form.now }
        ensures value { IfOk result (λ s. s ≡ sketch_of c.now form.now) }
        ensures size { IfOk result (λ s. IsSized s) }
    {
        match form {
            Form::Face(face) => {
                let course = LinearCourse::read(c, face.course);
                Ok(face_sketch(alloc, c, &course, profile_length(c, face.boundary)))
            }
            Form::Pocket(pocket) => boundary_sketch(
                alloc,
                c,
                &Profile::read(c, pocket.boundary).boundary,
            ),
            Form::Slot(slot) => {
                let points = trail(alloc, c, &Course::read(c, slot.course))?;
                Ok(Sketch::Trail(points, profile_length(c, slot.swept)))
            }
            Form::Hole(hole) => Ok(Sketch::Circle(length(c, hole.diameter))),
        }
    }
}

fn at(x: Um, y: Um) -> Pt
    ensures { result ≡ point_at x y }
{
    Pt { x, y }
}

pub(crate) fn origin() -> Pt
    ensures { result ≡ origin_point }
{
    at(Um::of(0), Um::of(0))
}

/// A length that is not below 0.
fn um(length: u32) -> Um
    requires { length ≤ REACH }
    ensures { result ≡ pos length }
{
    Um::of(length as i32)
}

/// The opposite of a length.
fn minus(length: u32) -> Um
    requires { length ≤ REACH }
    ensures { result ≡ neg_ℤ (pos length) }
{
    Um::of(-(length as i32))
}

fn sign_of(ratio: i32) -> Sign
    ensures { result ≡ sign_by ratio }
{
    if ratio < 0 { Sign::Minus } else { Sign::Plus }
}

/// The direction of the first axis on which a DIRECTION has a ratio other than 0.
#[tactic(auto, unfolding(crate::specs::Outline::heading))]
pub(crate) fn heading(c: &Checked, n: u32) -> Direction
    requires { IsTarget c.now (Group.One RowId.Direction) n }
    ensures { result ≡ heading_of c.now n }
{
    let [x, y, z] = ratios(c, n);
    let (along, ratio) = if x != 0 {
        (Axis::X, x)
    } else if y != 0 {
        (Axis::Y, y)
    } else {
        (Axis::Z, z)
    };
    Direction {
        along,
        sign: sign_of(ratio),
    }
}

/// How far a path goes, along its axis.
#[tactic(auto, unfolding(crate::specs::Outline::reach))]
fn reach(d: Direction, distance: u32) -> Um
    requires { distance ≤ REACH }
    ensures { result ≡ reach_of d distance }
{
    match d.sign {
        Sign::Plus => um(distance),
        Sign::Minus => minus(distance),
    }
}

/// The rectangle of a face along a path.
#[tactic(auto, unfolding(crate::specs::Outline::face_sketch))]
fn face_sketch(alloc: Global, c: &Checked, course: &LinearCourse, profile: u32) -> Sketch
    requires leads { LeadsLinearCourse c.now course.now }
    requires limit { profile ≤ REACH }
    ensures value { result ≡ face_along c.now course.now profile }
    ensures size { IsSized result }
{
    let distance = length(c, course.distance);
    let d = heading(c, course.direction);
    match d.along {
        Axis::X => Sketch::Rectangle(origin(), at(reach(d, distance), um(profile))),
        Axis::Y => Sketch::Rectangle(origin(), at(um(profile), reach(d, distance))),
        Axis::Z => Sketch::Polygon(Points::new(alloc)),
    }
}

/// A rectangle about the origin.
#[tactic(auto, unfolding(crate::specs::Outline::centred))]
fn centred(width: u32, length: u32) -> Sketch
    requires width { width ≤ REACH }
    requires length { length ≤ REACH }
    ensures value { result ≡ centred_sketch width length }
    ensures size { IsSized result }
{
    let low = at(minus(width / 2), minus(length / 2));
    let high = at(um(width - width / 2), um(length - length / 2));
    Sketch::Rectangle(low, high)
}

/// The outline of a closed profile.
fn boundary_sketch(alloc: Global, c: &Checked, boundary: &Boundary) -> Result<Sketch, AllocError>
    requires { LeadsBoundary c.now boundary.now }
    ensures value { IfOk result (λ s. s ≡ profile_sketch c.now boundary.now) }
    ensures size { IfOk result (λ s. IsSized s) }
{
    match boundary {
        Boundary::General(n) => Ok(Sketch::Polygon(corners(polyline(alloc, c, *n)?))),
        Boundary::Rectangular(r) => Ok(centred(length(c, r.width), length(c, r.length))),
        Boundary::Circular(n) => Ok(Sketch::Circle(length(c, *n))),
    }
}

/// The points of a path.
fn trail(alloc: Global, c: &Checked, course: &Course) -> Result<Points, AllocError>
    requires { LeadsCourse c.now course.now }
    ensures { IfOk result (λ ps. ps ≡ trail_points c.now course.now) }
{
    match course {
        Course::Linear(line) => {
            let d = heading(c, line.direction);
            straight(alloc, d, length(c, line.distance))
        }
        Course::General(n) => polyline(alloc, c, *n),
    }
}

/// A path from the origin.
#[tactic(auto, unfolding(crate::specs::Outline::straight))]
fn straight(alloc: Global, d: Direction, distance: u32) -> Result<Points, AllocError>
    requires { distance ≤ REACH }
    ensures { IfOk result (λ ps. ps ≡ straight_points d distance) }
{
    match d.along {
        Axis::X => segment(alloc, at(reach(d, distance), Um::of(0))),
        Axis::Y => segment(alloc, at(Um::of(0), reach(d, distance))),
        Axis::Z => Ok(Points::new(alloc)),
    }
}

/// From the origin to a point.
fn segment(alloc: Global, end: Pt) -> Result<Points, AllocError>
    ensures { IfOk result (λ ps. ps ≡ origin_point ∷ end ∷ []) }
{
    let mut points = Points::new(alloc);
    points.push(origin())?;
    points.push(end)?;
    Ok(points)
}

/// A point of a polyline.
#[tactic(auto, unfolding(crate::specs::Outline::plane_point))]
fn plane_point(c: &Checked, n: u32) -> Pt
    requires { IsTarget c.now (Group.One RowId.CartesianPoint) n }
    ensures { result ≡ plane_point_of c.now n }
{
    let p = point(c, n);
    at(p.x, p.y)
}

/// The points of a polyline.
#[tactic(auto, unfolding(crate::specs::Outline::polyline))]
fn polyline(alloc: Global, c: &Checked, n: u32) -> Result<Points, AllocError>
    requires { IsTarget c.now (Group.One RowId.Polyline) n }
    ensures { IfOk result (λ ps. ps ≡ polyline_of c.now n) }
{
    plane_points(alloc, c, c.many(n, 0))
}

/// The points of these numbers.
fn plane_points(alloc: Global, c: &Checked, numbers: &[u32]) -> Result<Points, AllocError>
    requires { (n : ℕ) → Contains numbers.now n → IsTarget c.now (Group.One RowId.CartesianPoint) n }
    ensures { IfOk result (λ ps. ps ≡ map (plane_point_of c.now) numbers.now) }
{
    let mut points = Points::new(alloc);
    for number in numbers {
        points.push(plane_point(c, *number))?;
    }
    Ok(points)
}

/// The corners of a polygon: a last point that repeats the first is dropped, once.
#[tactic(auto, unfolding(crate::specs::Outline::corners))]
fn corners(mut points: Points) -> Points
    ensures { result ≡ corners_of points }
{
    if is_closed(points.as_slice()) {
        points.pop();
    }
    points
}

#[tactic(auto, unfolding(crate::specs::Outline::is_closed))]
fn is_closed(points: &[Pt]) -> bool
    ensures { result ≡ is_closed_list points.now }
{
    points.len() > 1 && points[0] == points[points.len() - 1]
}
