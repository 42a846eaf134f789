//! Bodies of tools, ways of cutting, and tools that are wrong or too short.
ghost use Rattle.std.specs.Prelude.{◌≡◌, ◌+◌, ◌*◌, ◌≤◌, IfSome};
ghost use Rattle.sn_geom.specs.declared.limits.TheConstants.{REACH};
ghost use Rattle.sn_refs.specs.Target.{IsTarget};
ghost use Rattle.sn_feature.specs.Targets.{LeadsForm, HasDiameter};
ghost use Rattle.sn_feature.specs.Tooling.{bottom_of, radius_of, twice_if, corner_of, point_length as length_of_point, body_of, axial_depth as axial_of, radial_depth as radial_of, is_hole_of as is_hole_by, is_slot_of as is_slot_by, is_face as is_face_by, is_hole as is_hole_form, is_drilling as is_drilling_by, way_of, is_for as is_for_by, can_cut as can_cut_by, is_wrong_tool as is_wrong, is_short_tool as is_short};

use crate::entities::{Cutter, Cutting, Form, Operation, Tool, bottom, length, profile_length};
use sn_entity::{Group, RowId};
use sn_geom::{Body, NO_DEPTH, Um};
use sn_outline::{Bottom, Way};
use sn_refs::Checked;

/// The bottom of a feature.
#[tactic(auto, unfolding(crate::specs::Tooling::bottom_of))]
pub(crate) fn feature_bottom(c: &Checked, form: &Form) -> Bottom
    requires { LeadsForm c.now form.now }
    ensures { result ≡ bottom_of c.now form.now }
{
    match form {
        Form::Face(_) => Bottom::Flat,
        Form::Pocket(pocket) => bottom(c, pocket.bottom),
        Form::Slot(_) => Bottom::Flat,
        Form::Hole(hole) => bottom(c, hole.bottom),
    }
}

/// A radius, 0 where none is given.
#[tactic(auto, unfolding(crate::specs::Tooling::radius_of))]
fn radius(c: &Checked, n: Option<u32>) -> u32
    requires { IfSome n (IsTarget c.now (Group.One RowId.TolerancedLengthMeasure)) }
    ensures value { result ≡ radius_of c.now n }
    ensures limit { result ≤ REACH }
{
    match n {
        Some(measure) => length(c, measure),
        None => 0,
    }
}

/// Twice a radius; `None` where it is 0.
fn twice(radius: u32) -> Option<u32>
    requires { radius ≤ REACH }
    ensures value { result ≡ twice_if radius }
    ensures limit { IfSome result (λ d. d ≤ 2 * REACH) }
{
    if radius == 0 { None } else { Some(2 * radius) }
}

/// The corner diameter that a feature gives.
#[tactic(auto, unfolding(crate::specs::Tooling::corner_of))]
pub(crate) fn corner(c: &Checked, form: &Form) -> Option<u32>
    requires { LeadsForm c.now form.now }
    ensures value { result ≡ corner_of c.now form.now }
    ensures limit { IfSome result (λ d. d ≤ 2 * REACH) }
{
    match form {
        Form::Face(_) => None,
        Form::Pocket(pocket) => {
            let planar = radius(c, pocket.planar_radius);
            twice(planar.max(radius(c, pocket.orthogonal_radius)))
        }
        Form::Slot(_) => Some(0),
        Form::Hole(_) => Some(0),
    }
}

/// How long the point of a tool is.
#[tactic(auto, unfolding(crate::specs::Tooling::point_length))]
fn point_length(tool: &Tool) -> u32
    requires { HasDiameter tool.now }
    ensures { result ≡ length_of_point tool.now }
{
    match tool.cutter {
        Cutter::Endmill => tool.edge,
        Cutter::TwistDrill => (tool.diameter + 1) / 2,
    }
}

/// The body of a tool.
#[tactic(auto, unfolding(crate::specs::Tooling::body_of))]
pub(crate) fn body(tool: &Tool) -> Body
    requires { HasDiameter tool.now }
    ensures { result ≡ body_of tool.now }
{
    Body {
        d: tool.diameter,
        e: point_length(tool),
    }
}

#[tactic(auto, unfolding(crate::specs::Tooling::axial_depth))]
pub(crate) fn axial_depth(operation: &Operation) -> u32
    ensures { result ≡ axial_of operation.now }
{
    operation.axial.unwrap_or(NO_DEPTH)
}

/// The radial depth of cut with a tool of diameter `d`.
#[tactic(auto, unfolding(crate::specs::Tooling::radial_depth))]
pub(crate) fn radial_depth(operation: &Operation, d: u32) -> u32
    ensures { result ≡ radial_of operation.now d }
{
    operation.radial.unwrap_or(d / 2).min(d)
}

/// Whether the feature is a hole of diameter `d`.
#[tactic(auto, unfolding(crate::specs::Tooling::is_hole_of))]
fn is_hole_of(c: &Checked, d: u64, form: &Form) -> bool
    requires { LeadsForm c.now form.now }
    ensures { result ≡ is_hole_by c.now d form.now }
{
    match form {
        Form::Face(_) => false,
        Form::Pocket(_) => false,
        Form::Slot(_) => false,
        Form::Hole(hole) => d == u64::from(length(c, hole.diameter)),
    }
}

/// Whether the feature is a slot of width `w`.
#[tactic(auto, unfolding(crate::specs::Tooling::is_slot_of))]
fn is_slot_of(c: &Checked, w: u64, form: &Form) -> bool
    requires { LeadsForm c.now form.now }
    ensures { result ≡ is_slot_by c.now w form.now }
{
    match form {
        Form::Face(_) => false,
        Form::Pocket(_) => false,
        Form::Slot(slot) => w == u64::from(profile_length(c, slot.swept)),
        Form::Hole(_) => false,
    }
}

fn is_drilling(cutting: Cutting) -> bool
    ensures { result ≡ is_drilling_by cutting }
{
    match cutting {
        Cutting::Plane => false,
        Cutting::BottomAndSide => false,
        Cutting::Drilling => true,
    }
}

/// How a tool of diameter `d` cuts the feature in this operation.
#[tactic(auto, unfolding(crate::specs::Tooling::way_of))]
pub(crate) fn way(c: &Checked, form: &Form, operation: &Operation, d: u32) -> Way
    requires { LeadsForm c.now form.now }
    ensures { result ≡ way_of c.now form.now operation.now d }
{
    let width = u64::from(d) + 2 * u64::from(operation.side);
    if is_drilling(operation.cutting) {
        return Way::Drill;
    }
    if is_hole_of(c, width, form) {
        return Way::Drill;
    }
    if is_slot_of(c, width, form) {
        Way::Trail
    } else {
        Way::Clear
    }
}

fn is_face(form: &Form) -> bool
    ensures { result ≡ is_face_by form.now }
{
    match form {
        Form::Face(_) => true,
        Form::Pocket(_) => false,
        Form::Slot(_) => false,
        Form::Hole(_) => false,
    }
}

fn is_hole(form: &Form) -> bool
    ensures { result ≡ is_hole_form form.now }
{
    match form {
        Form::Face(_) => false,
        Form::Pocket(_) => false,
        Form::Slot(_) => false,
        Form::Hole(_) => true,
    }
}

/// Whether such an operation may stand on the feature.
fn is_for(cutting: Cutting, form: &Form) -> bool
    ensures { result ≡ is_for_by cutting form.now }
{
    match cutting {
        Cutting::Plane => is_face(form),
        Cutting::BottomAndSide => !is_face(form),
        Cutting::Drilling => is_hole(form),
    }
}

/// Whether the cutter can do such an operation.
fn can_cut(cutter: Cutter, cutting: Cutting) -> bool
    ensures { result ≡ can_cut_by cutter cutting }
{
    match cutter {
        Cutter::Endmill => true,
        Cutter::TwistDrill => is_drilling(cutting),
    }
}

/// Whether the operation does not stand on such a feature, or its tool is none for it.
#[tactic(auto, unfolding(crate::specs::Tooling::is_wrong_tool))]
pub(crate) fn is_wrong_tool(form: &Form, operation: &Operation, tool: &Tool) -> bool
    ensures { result ≡ is_wrong form.now operation.now tool.now }
{
    if !is_for(operation.cutting, form) {
        return true;
    }
    if !can_cut(tool.cutter, operation.cutting) {
        return true;
    }
    u64::from(tool.diameter) < 2 * u64::from(tool.edge)
}

/// Whether a tool of this overall length does not reach from the raw top down to the lowest tip.
#[tactic(auto, unfolding(crate::specs::Tooling::is_short_tool))]
pub(crate) fn is_short_tool(length: Option<u32>, raw_top: i32, tip: Um) -> bool
    ensures { result ≡ is_short length raw_top tip }
{
    match length {
        None => false,
        Some(overall) => i64::from(overall) < i64::from(raw_top) - i64::from(tip.get()),
    }
}
