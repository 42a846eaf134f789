//! Outlines that are bad.
ghost use Rattle.std.specs.Prelude.{◌≡◌};
ghost use Rattle.sn_refs.specs.Target.{IsTarget};
ghost use Rattle.sn_feature.specs.Outline.{is_upward as is_upward_by, is_bad_line as is_bad_line_by, is_long as is_long_by, polyline_count as count_of, is_bad_course as is_bad_course_by, is_bad_boundary as is_bad_boundary_by, is_bad_outline as is_bad_outline_by, profile_sketch, sketch_of};
ghost use Rattle.sn_feature.specs.Targets.{LeadsForm, LeadsLinearCourse, LeadsCourse, LeadsBoundary, corner_count as corners_in};

use crate::entities::{Boundary, Course, Form, LinearCourse, Profile, length, profile_length};
use crate::sketch::{Sketch, heading};
use sn_entity::{Group, RowId};
use sn_frame::{Axis, Direction};
use sn_outline::MOST_POINTS;
use sn_refs::Checked;

/// Whether the outline of a feature, with this sketch, is bad.
#[tactic(auto, unfolding(crate::specs::Outline::is_bad_outline, crate::specs::Outline::sketch_of))]
pub(crate) fn is_bad_outline(c: &Checked, form: &Form, sketch: &Sketch) -> bool
    requires leads { LeadsForm c.now form.now }
    requires sketch { sketch.now ≡ sketch_of c.now form.now }
    ensures { result ≡ is_bad_outline_by c.now form.now }
{
    match form {
        Form::Face(face) => {
            if profile_length(c, face.boundary) == 0 {
                return true;
            }
            is_bad_line(c, &LinearCourse::read(c, face.course))
        }
        Form::Pocket(pocket) => is_bad_boundary(
            c,
            &Profile::read(c, pocket.boundary).boundary,
            sketch,
        ),
        Form::Slot(slot) => {
            if profile_length(c, slot.swept) == 0 {
                return true;
            }
            is_bad_course(c, &Course::read(c, slot.course))
        }
        Form::Hole(hole) => length(c, hole.diameter) == 0,
    }
}

fn is_upward(d: Direction) -> bool
    ensures { result ≡ is_upward_by d }
{
    match d.along {
        Axis::X => false,
        Axis::Y => false,
        Axis::Z => true,
    }
}

/// Whether a path has no distance, or lies along Z.
#[tactic(auto, unfolding(crate::specs::Outline::is_bad_line))]
fn is_bad_line(c: &Checked, line: &LinearCourse) -> bool
    requires { LeadsLinearCourse c.now line.now }
    ensures { result ≡ is_bad_line_by c.now line.now }
{
    length(c, line.distance) == 0 || is_upward(heading(c, line.direction))
}

/// How many points a polyline lists.
#[tactic(auto, unfolding(crate::specs::Outline::polyline_count))]
fn polyline_count(c: &Checked, n: u32) -> usize
    requires { IsTarget c.now (Group.One RowId.Polyline) n }
    ensures { result ≡ count_of c.now n }
{
    c.many(n, 0).len()
}

/// Whether a polyline has too many points.
#[tactic(auto, unfolding(crate::specs::Outline::is_long))]
fn is_long(c: &Checked, n: u32) -> bool
    requires { IsTarget c.now (Group.One RowId.Polyline) n }
    ensures { result ≡ is_long_by c.now n }
{
    polyline_count(c, n) > MOST_POINTS
}

fn is_bad_course(c: &Checked, course: &Course) -> bool
    requires { LeadsCourse c.now course.now }
    ensures { result ≡ is_bad_course_by c.now course.now }
{
    match course {
        Course::Linear(line) => is_bad_line(c, line),
        Course::General(n) => polyline_count(c, *n) < 2 || is_long(c, *n),
    }
}

/// How many corners a polygon has.
fn corner_count(sketch: &Sketch) -> usize
    ensures { result ≡ corners_in sketch.now }
{
    match sketch {
        Sketch::Rectangle(_, _) => 0,
        Sketch::Circle(_) => 0,
        Sketch::Polygon(points) => points.len(),
        Sketch::Trail(_, _) => 0,
    }
}

/// Whether the outline of a closed profile, with this sketch, is bad.
fn is_bad_boundary(c: &Checked, boundary: &Boundary, sketch: &Sketch) -> bool
    requires leads { LeadsBoundary c.now boundary.now }
    requires sketch { sketch.now ≡ profile_sketch c.now boundary.now }
    ensures { result ≡ is_bad_boundary_by c.now boundary.now }
{
    match boundary {
        Boundary::General(n) => corner_count(sketch) < 3 || is_long(c, *n),
        Boundary::Rectangular(r) => length(c, r.width) == 0 || length(c, r.length) == 0,
        Boundary::Circular(n) => length(c, *n) == 0,
    }
}
