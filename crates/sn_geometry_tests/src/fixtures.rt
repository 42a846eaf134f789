//! What tests of geometry build: lengths and points.
ghost use Rattle.std.specs.Prelude.{◌≡◌, IfOk};

use sn_geom::{Pt, Pt3, Um};
use std::test::Fail;

pub fn um(length: i32) -> Result<Um, Fail>
    ensures { IfOk result (λ um. um ≡ length) }
{
    Ok(Um::new(length).ok_or("out of range")?)
}

pub fn pt(x: i32, y: i32) -> Result<Pt, Fail> {
    Ok(Pt {
        x: um(x)?,
        y: um(y)?,
    })
}

pub fn pt3(x: i32, y: i32, z: i32) -> Result<Pt3, Fail>
    ensures { IfOk result (λ p. p ≡ record { x = x; y = y; z = z }) }
{
    Ok(Pt3 {
        x: um(x)?,
        y: um(y)?,
        z: um(z)?,
    })
}
