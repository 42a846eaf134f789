//! What holds of every value of a type. Each function's contract hands it on, and the function does nothing.
ghost use Rattle.std.specs.Prelude.{◌<◌, ◌^◌, length, All};
ghost use Rattle.sn_gwrite.specs.Kept.{IsPoint};

use sn_geom::Pt3;

/// Hands on how many tools there are at most, and that the numbers of their instances are in their range.
pub fn of_tools(tools: &[u32])
    ensures few { length tools.now < 2 ^ 64 }
    ensures each { All (λ instance. instance < 2 ^ 32) tools.now }
{
    let _count = tools.len();
}

/// Hands on that the coordinates of a point are lengths.
pub fn of_point(point: &Pt3)
    ensures { IsPoint point.now }
{
    let _x = point.x.get();
    let _y = point.y.get();
    let _z = point.z.get();
}
