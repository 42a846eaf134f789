//! Dilation of a plane.
ghost use Rattle.std.specs.Prelude.{◌≡◌, ◌↔◌, ◌*◌, ◌≤◌, IfOk};
ghost use Rattle.sn_raster.specs.Grid.{Node, IsInWindow, InDisc, place};
ghost use Rattle.sn_raster.specs.Plane.{Has};

use crate::morphology::Room;
use sn_geom::{Memory, REACH};
use sn_raster::Bits;
use std::alloc::Global;

/// The plane of the nodes of the window whose disc of diameter `d` has a node of the plane.
///
/// `d` is in tenths of a micrometre. The work for a node is the same for all diameters.
pub fn dilated(alloc: Global, plane: &Bits, d: u32) -> Result<Bits, Memory>
    requires { d ≤ 2 * REACH }
    ensures grid { IfOk result (λ to. to.grid ≡ plane.now.grid) }
    ensures nodes { IfOk result (λ to. (n : Node) → Has to n ↔ (IsInWindow plane.now.grid n
        × ((q : Node) × Has plane.now q × InDisc plane.now.grid.pitch d (place plane.now.grid.pitch q) n))) }
{
    let g = plane.grid();
    let mut room = Room::new(alloc, &g)?;
    let mut to = Bits::new(alloc, &g)?;
    room.dilate(d, plane, &mut to);
    Ok(to)
}
