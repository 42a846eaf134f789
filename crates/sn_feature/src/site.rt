//! Outlines in the setup.
ghost use Rattle.std.specs.Prelude.{◌≡◌, IfSome, Ok, Err, if◌then◌else◌};
ghost use Rattle.std.specs.Int.{int_min, int_max};
ghost use Rattle.sn_refs.specs.Target.{IsTarget};
ghost use Rattle.sn_feature.specs.Outline.{put_at, points_at, between as rectangle, shape_at, direction_if, path_direction as direction_of_path, straight_path as straight_path_of, profile_placement as placement_of_profile, outline_site as site_of_outline};
ghost use Rattle.sn_feature.specs.Targets.{LeadsForm};

use crate::entities::{Course, Form, LinearCourse, Profile};
use crate::placement::{ratios, upright_frame};
use crate::sketch::{Sketch, origin};
use sn_entity::{Group, RowId};
use sn_frame::{Direction, Frame, FrameFault};
use sn_geom::{Pt, Pt3, Um};
use sn_outline::{Points, Shape};
use sn_refs::Checked;

/// A frame, and the number of the placement that was composed last into it.
#[derive(Clone, Copy)]
pub struct Site {
    pub frame: Frame,
    pub placement: u32,
}

impl Site {
    /// Where the frame puts a point of the plane Z = 0, seen from above.
    #[tactic(auto, unfolding(crate::specs::Outline::put, crate::specs::Outline::lands_in_range, crate::specs::Outline::put_at))]
    fn put(&self, p: &Pt) -> Result<Pt, FrameFault>
        ensures { result ≡ put_at self.now p.now }
    {
        let flat = Pt3 {
            x: p.x,
            y: p.y,
            z: Um::of(0),
        };
        let place = self.frame.apply(&flat, self.placement)?;
        Ok(Pt {
            x: place.x,
            y: place.y,
        })
    }

    /// Where the frame puts points of the plane Z = 0.
    fn put_all(&self, mut points: Points) -> Result<Points, FrameFault>
        ensures { result ≡ points_at self.now points }
    {
        for at in 0..points.len() {
            let place = self.put(&points.as_slice()[at])?;
            points.set(at, place);
        }
        Ok(points)
    }

    /// The rectangle of two opposite corners.
    #[tactic(auto, unfolding(crate::specs::Outline::shape_at, crate::specs::Outline::put_at))]
    fn put_rectangle(&self, a: Pt, b: Pt) -> Result<Shape, FrameFault>
        ensures { result ≡ shape_at self.now (Sketch.Rectangle a b) }
    {
        let low = self.put(&a)?;
        self.put(&Pt { x: b.x, y: a.y })?;
        let high = self.put(&b)?;
        self.put(&Pt { x: a.x, y: b.y })?;
        Ok(between(low, high))
    }

    /// The outline of a sketch.
    #[tactic(auto, unfolding(crate::specs::Outline::shape_at, crate::specs::Outline::put_at, crate::specs::Outline::points_at))]
    pub fn shape(&self, sketch: Sketch) -> Result<Shape, FrameFault>
        ensures { result ≡ shape_at self.now sketch }
    {
        match sketch {
            Sketch::Rectangle(a, b) => self.put_rectangle(a, b),
            Sketch::Circle(d) => Ok(Shape::Circle(self.put(&origin())?, d)),
            Sketch::Polygon(points) => Ok(Shape::Polygon(self.put_all(points)?)),
            Sketch::Trail(points, width) => Ok(Shape::Trail(self.put_all(points)?, width)),
        }
    }
}

/// The rectangle with these opposite corners.
#[tactic(auto, unfolding(crate::specs::Outline::between))]
fn between(a: Pt, b: Pt) -> Shape
    ensures { result ≡ rectangle a b }
{
    let low = Pt {
        x: lesser(a.x, b.x),
        y: lesser(a.y, b.y),
    };
    let high = Pt {
        x: greater(a.x, b.x),
        y: greater(a.y, b.y),
    };
    Shape::Rect(low, high)
}

fn lesser(a: Um, b: Um) -> Um
    ensures { result ≡ int_min a b }
{
    if b.get() < a.get() { b } else { a }
}

fn greater(a: Um, b: Um) -> Um
    ensures { result ≡ int_max a b }
{
    if b.get() < a.get() { a } else { b }
}

/// The direction of the feature's path, if it has one.
#[tactic(auto, unfolding(crate::specs::Outline::path_direction))]
fn path_direction(c: &Checked, form: &Form) -> Option<u32>
    requires { LeadsForm c.now form.now }
    ensures value { result ≡ direction_of_path c.now form.now }
    ensures leads { IfSome result (IsTarget c.now (Group.One RowId.Direction)) }
{
    match form {
        Form::Face(face) => Some(LinearCourse::read(c, face.course).direction),
        Form::Pocket(_) => None,
        Form::Slot(slot) => course_direction(&Course::read(c, slot.course)),
        Form::Hole(_) => None,
    }
}

fn course_direction(course: &Course) -> Option<u32>
    ensures { result ≡ direction_if course.now }
{
    match course {
        Course::Linear(line) => Some(line.direction),
        Course::General(_) => None,
    }
}

/// Refuses a feature whose path has no axis as its direction.
#[tactic(auto, unfolding(crate::specs::Outline::straight_path))]
pub(crate) fn straight_path(c: &Checked, form: &Form) -> Result<(), FrameFault>
    requires { LeadsForm c.now form.now }
    ensures { result ≡ straight_path_of c.now form.now }
{
    let Some(direction) = path_direction(c, form) else {
        return Ok(());
    };
    if Direction::from_ratios(ratios(c, direction)).is_some() {
        Ok(())
    } else {
        Err(FrameFault::Skew(direction))
    }
}

/// The placement of a pocket's profile, if it has one.
#[tactic(auto, unfolding(crate::specs::Outline::profile_placement))]
fn profile_placement(c: &Checked, form: &Form) -> Option<u32>
    requires { LeadsForm c.now form.now }
    ensures value { result ≡ placement_of_profile c.now form.now }
    ensures leads { IfSome result (IsTarget c.now (Group.One RowId.Axis2Placement3d)) }
{
    match form {
        Form::Face(_) => None,
        Form::Pocket(pocket) => Profile::read(c, pocket.boundary).placement,
        Form::Slot(_) => None,
        Form::Hole(_) => None,
    }
}

/// Where the sketch of a feature stands.
#[tactic(auto, unfolding(crate::specs::Outline::outline_site))]
pub(crate) fn outline_site(c: &Checked, feature: &Site, form: &Form) -> Result<Site, FrameFault>
    requires { LeadsForm c.now form.now }
    ensures { result ≡ site_of_outline c.now feature.now form.now }
{
    match profile_placement(c, form) {
        None => Ok(*feature),
        Some(n) => Ok(Site {
            frame: upright_frame(c, &feature.frame, n)?,
            placement: n,
        }),
    }
}
