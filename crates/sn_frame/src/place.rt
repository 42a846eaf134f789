//! Places on the way to a point.
ghost use Rattle.std.specs.Prelude.{◌≡◌, ◌*◌, ◌+◌, ℕ, ◌≤◌, SomeIff, IsTrue, pos, ◌*ℤ◌, unsigned_abs};
ghost use Rattle.sn_geom.specs.declared.limits.TheConstants.{REACH};
ghost use Rattle.sn_frame.specs.Direction.{unit, sign_value};
ghost use Rattle.sn_frame.specs.Frame.{is_in_range};
ghost use Rattle.sn_frame.specs.Place.{IsWithin, IsMoved, point_of};

use crate::direction::{Axis, Direction, Sign};
use sn_geom::{Pt3, Um};

/// A place in space, in tenths of a micrometre, that may lie outside the range of coordinates.
#[derive(Clone, Copy)]
pub(crate) struct Place {
    x: i32,
    y: i32,
    z: i32,
}

impl Place {
    pub(crate) fn at(p: &Pt3) -> Place
        ensures value { point_of result ≡ p.now }
        ensures size { IsWithin REACH result }
    {
        Place {
            x: p.x.get(),
            y: p.y.get(),
            z: p.z.get(),
        }
    }

    /// The place at this distance in a direction.
    #[tactic(auto, using(crate::proofs::Products::zero_times))]
    pub(crate) fn moved(self, direction: Direction, distance: Um) -> Place
        requires { IsWithin (3 * REACH) self }
        ensures value { IsMoved self result (unit direction) distance }
        ensures size { (limit : ℕ) → IsWithin limit self → IsWithin (limit + REACH) result }
    {
        let step = signed_distance(distance, direction.sign);
        match direction.along {
            Axis::X => Place {
                x: self.x + step,
                ..self
            },
            Axis::Y => Place {
                y: self.y + step,
                ..self
            },
            Axis::Z => Place {
                z: self.z + step,
                ..self
            },
        }
    }

    /// The point at this place, where it is in the range.
    #[tactic(auto, unfolding(crate::specs::Frame::is_in_range))]
    pub(crate) fn point(self) -> Option<Pt3>
        ensures { SomeIff result (IsTrue (is_in_range (point_of self))) (point_of self) }
    {
        Some(Pt3 {
            x: Um::new(self.x)?,
            y: Um::new(self.y)?,
            z: Um::new(self.z)?,
        })
    }
}

/// The distance, or its opposite where the sign is minus.
fn signed_distance(distance: Um, sign: Sign) -> i32
    ensures value { result ≡ sign_value sign *ℤ distance }
    ensures size { unsigned_abs result ≤ REACH }
{
    match sign {
        Sign::Plus => distance.get(),
        Sign::Minus => -distance.get(),
    }
}
