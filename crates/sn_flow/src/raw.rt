//! Where the workpiece stands in the setup, and its raw box.
ghost use Rattle.std.specs.Prelude.{◌≡◌, pos, ◌≤ℤ◌, IfOk, IfSome};
ghost use Rattle.std.specs.Int.{int_min, int_max};
ghost use Rattle.sn_entity.specs.declared.row.Group.TheVariants.{One as OneRow};
ghost use Rattle.sn_entity.specs.declared.row.RowId.TheVariants.{Block};
ghost use Rattle.sn_frame.specs.Frame.{applied};
ghost use Rattle.sn_refs.specs.Target.{IsTarget};
ghost use Rattle.sn_words.specs.Options.{IsBox};
ghost use Rattle.sn_flow.specs.Setup.{workpiece_frame as frame_of_workpiece, box_of_corners as box_between, far_corner as corner_of, applied_at, block_box as box_of};
ghost use Rattle.sn_flow.specs.JobOf.{raw_box as raw_box_of};
ghost use Rattle.sn_flow.specs.Sides.{HasSides, box_at as box_in};

use crate::fault::JobFault;
use crate::setup::{origin, raw_block};
use sn_feature::read_placement;
use sn_frame::{Frame, FrameFault};
use sn_geom::{Pt3, Um};
use sn_refs::Checked;
use sn_words::RawBox;

/// The workpiece's frame in the setup.
pub(crate) fn workpiece_frame(c: &Checked) -> Result<Frame, FrameFault>
    ensures { result ≡ frame_of_workpiece c.now }
{
    match origin(c) {
        Some(n) => read_placement(c, n),
        None => Ok(Frame::identity()),
    }
}

/// The raw box: the one that is given, or else that of the BLOCK. All lengths are tenths of a micrometre.
pub(crate) fn raw_box(
    c: &Checked,
    raw: Option<RawBox>,
    workpiece: &Frame,
) -> Result<RawBox, JobFault>
    requires { IfSome raw IsBox }
    ensures value { result ≡ raw_box_of c.now raw workpiece.now }
    ensures corners { IfOk result IsBox }
{
    if let Some(raw) = raw {
        return Ok(raw);
    }
    match raw_block(c) {
        Some(block) => Ok(block_box(c, workpiece, block)?),
        None => Err(JobFault::RawUnknown),
    }
}

/// The box of a BLOCK in the setup.
fn block_box(c: &Checked, workpiece: &Frame, block: u32) -> Result<RawBox, FrameFault>
    requires { IsTarget c.now (OneRow Block) block }
    ensures value { result ≡ box_of c.now workpiece.now block }
    ensures corners { IfOk result IsBox }
{
    let placement = c.one(block, 0);
    let frame = workpiece.compose(&read_placement(c, placement)?, placement)?;
    box_at(&frame, placement, &far_corner(c, block))
}

/// The box from the origin of a frame, which is that of this placement, to an opposite corner.
fn box_at(frame: &Frame, placement: u32, far: &Pt3) -> Result<RawBox, FrameFault>
    requires { HasSides far.now }
    ensures value { result ≡ box_in frame.now placement far.now }
    ensures corners { IfOk result IsBox }
{
    frame.rule();
    let corner = frame.apply(far, placement)?;
    Ok(box_of_corners(&frame.origin(), &corner))
}

/// The corner of a BLOCK that lies opposite to its placement, in the frame of that placement.
fn far_corner(c: &Checked, block: u32) -> Pt3
    requires { IsTarget c.now (OneRow Block) block }
    ensures value { result ≡ corner_of c.now block }
    ensures sides { HasSides result }
{
    Pt3 {
        x: Um::of(c.num(block, 1)),
        y: Um::of(c.num(block, 2)),
        z: Um::of(c.num(block, 3)),
    }
}

/// The box of two opposite corners.
fn box_of_corners(p: &Pt3, q: &Pt3) -> RawBox
    ensures { result ≡ box_between p.now q.now }
{
    RawBox {
        low: Pt3 {
            x: lesser(p.x, q.x),
            y: lesser(p.y, q.y),
            z: lesser(p.z, q.z),
        },
        high: Pt3 {
            x: greater(p.x, q.x),
            y: greater(p.y, q.y),
            z: greater(p.z, q.z),
        },
    }
}

fn lesser(a: Um, b: Um) -> Um
    ensures { result ≡ int_min a b }
{
    if a.get() < b.get() { a } else { b }
}

fn greater(a: Um, b: Um) -> Um
    ensures { result ≡ int_max a b }
{
    if b.get() < a.get() { a } else { b }
}
