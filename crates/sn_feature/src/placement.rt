//! Placements of a model.
ghost use Rattle.std.specs.Prelude.{◌≡◌, IfSome};
ghost use Rattle.sn_frame.specs.Frame.{ratios_of};
ghost use Rattle.sn_refs.specs.Target.{IsTarget};
ghost use Rattle.sn_feature.specs.Entities.{named};
ghost use Rattle.sn_feature.specs.Placement.{point_of, ratios as ratios_by, ratios_or as ratios_from, location as location_of, placement_of, composed_at, upright_at, upright_frame as upright_frame_of, plane_height as height_of_plane};
ghost use Rattle.sn_feature.specs.Step.{security_of as security_height};

use crate::entities::Workingstep;
use sn_entity::{Group, RowId};
use sn_frame::{Frame, FrameFault};
use sn_geom::{Pt3, Um};
use sn_refs::Checked;

/// +X, for placements without a reference direction.
const PLUS_X: [i32; 3] = [1, 0, 0];

/// +Z, for placements without an axis.
const PLUS_Z: [i32; 3] = [0, 0, 1];

/// The coordinates of a CARTESIAN_POINT.
#[tactic(auto, unfolding(crate::specs::Placement::point_of))]
pub(crate) fn point(c: &Checked, n: u32) -> Pt3
    requires { IsTarget c.now (Group.One RowId.CartesianPoint) n }
    ensures { result ≡ point_of c.now n }
{
    let coordinates = c.triple(n, 0);
    Pt3 {
        x: Um::of(coordinates.x),
        y: Um::of(coordinates.y),
        z: Um::of(coordinates.z),
    }
}

/// The ratios of a DIRECTION, in thousandths.
#[tactic(auto, unfolding(crate::specs::Placement::ratios))]
pub(crate) fn ratios(c: &Checked, n: u32) -> [i32; 3]
    requires { IsTarget c.now (Group.One RowId.Direction) n }
    ensures { ratios_of result ≡ ratios_by c.now n }
{
    let ratios = c.triple(n, 0);
    [ratios.x, ratios.y, ratios.z]
}

/// The ratios of a DIRECTION, or others where there is none.
#[tactic(auto, unfolding(crate::specs::Placement::ratios_or))]
fn ratios_or(c: &Checked, n: Option<u32>, others: [i32; 3]) -> [i32; 3]
    requires { IfSome n (IsTarget c.now (Group.One RowId.Direction)) }
    ensures { ratios_of result ≡ ratios_from c.now (ratios_of others) n }
{
    match n {
        Some(direction) => ratios(c, direction),
        None => others,
    }
}

#[tactic(auto, unfolding(crate::specs::Placement::location))]
fn location(c: &Checked, n: u32) -> Pt3
    requires { IsTarget c.now (Group.One RowId.Axis2Placement3d) n }
    ensures { result ≡ location_of c.now n }
{
    point(c, c.one(n, 0))
}

/// The frame of a placement. Its one refusal is that it is skew.
#[tactic(auto, unfolding(crate::specs::Placement::placement_of, crate::specs::Placement::axis_of, crate::specs::Placement::reference_of))]
pub fn read_placement(c: &Checked, n: u32) -> Result<Frame, FrameFault>
    requires { IsTarget c.now (Group.One RowId.Axis2Placement3d) n }
    ensures { result ≡ placement_of c.now n }
{
    let axis = ratios_or(c, c.maybe_one(n, 1), PLUS_Z);
    let reference = ratios_or(c, c.maybe_one(n, 2), PLUS_X);
    Frame::from_axes(n, location(c, n), axis, reference)
}

/// The frame of a placement that stands in an outer frame, which has to map +Z to +Z.
#[tactic(auto, unfolding(crate::specs::Placement::composed_at, crate::specs::Placement::upright_at, crate::specs::Placement::upright_frame))]
pub(crate) fn upright_frame(c: &Checked, outer: &Frame, n: u32) -> Result<Frame, FrameFault>
    requires { IsTarget c.now (Group.One RowId.Axis2Placement3d) n }
    ensures { result ≡ upright_frame_of c.now outer.now n }
{
    let frame = outer.compose(&read_placement(c, n)?, n)?;
    if frame.is_upright() {
        Ok(frame)
    } else {
        Err(FrameFault::Skew(n))
    }
}

/// The placement of a plane.
fn position(c: &Checked, n: u32) -> u32
    requires { IsTarget c.now Group.Surf n }
    ensures value { result ≡ named c.now n 0 }
    ensures leads { IsTarget c.now (Group.One RowId.Axis2Placement3d) result }
{
    c.one(n, 0)
}

/// The height of the location of a plane, in the frame that its placement stands in.
#[tactic(auto, unfolding(crate::specs::Placement::plane_height))]
pub fn plane_height(c: &Checked, n: u32) -> Um
    requires { IsTarget c.now Group.Surf n }
    ensures { result ≡ height_of_plane c.now n }
{
    location(c, position(c, n)).z
}

/// The height of the security plane of a workingstep: the Z of its location.
#[tactic(auto, unfolding(crate::specs::Step::security_of))]
pub fn security_of(c: &Checked, ws: u32) -> Um
    requires { IsTarget c.now (Group.One RowId.MachiningWorkingstep) ws }
    ensures { result ≡ security_height c.now ws }
{
    plane_height(c, Workingstep::read(c, ws).security)
}
