//! Directions along the coordinate axes.
ghost use Rattle.std.specs.Prelude.{◌≡◌, ◌↔◌, MatchOption, IfSome, IsSome, is_some, IsTrue, not, pos, ◌*ℤ◌};
ghost use Rattle.std.specs.Int.{int_signum};
ghost use Rattle.std.specs.Ordering.{int_eq};
ghost use Rattle.sn_frame.specs.Matrix.{cross_product, scaled};
ghost use Rattle.sn_frame.specs.Frame.{is_axis, ratios_of, signs_of};
ghost use Rattle.sn_frame.specs.Direction.{unit, sign_value, along};

use std::cmp::Ordering;

/// A coordinate axis.
#[derive(Clone, Copy, Debug, PartialEq, Eq)]
pub enum Axis {
    X,
    Y,
    Z,
}

/// A way along an axis.
#[derive(Clone, Copy, Debug, PartialEq, Eq)]
pub enum Sign {
    Plus,
    Minus,
}

impl Sign {
    /// The sign of a ratio; `None` where it is 0.
    fn of(ratio: i32) -> Option<Sign>
        ensures zero { is_some result ≡ not (int_eq ratio (pos 0)) }
        ensures sign { IfSome result (λ s. sign_value s ≡ int_signum ratio) }
    {
        match ratio.cmp(&0) {
            Ordering::Less => Some(Sign::Minus),
            Ordering::Equal => None,
            Ordering::Greater => Some(Sign::Plus),
        }
    }

    /// The sign of a product.
    fn times(self, other: Sign) -> Sign
        ensures { sign_value result ≡ sign_value self *ℤ sign_value other }
    {
        if self == other {
            Sign::Plus
        } else {
            Sign::Minus
        }
    }
}

/// A direction along a coordinate axis.
#[derive(Clone, Copy, Debug, PartialEq, Eq)]
pub struct Direction {
    pub along: Axis,
    pub sign: Sign,
}

impl Direction {
    /// +X.
    pub(crate) const PLUS_X: Direction = Direction {
        along: Axis::X,
        sign: Sign::Plus,
    };

    /// +Z.
    pub(crate) const PLUS_Z: Direction = Direction {
        along: Axis::Z,
        sign: Sign::Plus,
    };

    /// The direction with these three ratios; `None` where not exactly one of them is other than 0.
    #[tactic(auto, unfolding(crate::specs::Frame::is_axis))]
    pub fn from_ratios(ratios: [i32; 3]) -> Option<Direction>
        ensures axis { IsSome result ↔ IsTrue (is_axis (ratios_of ratios)) }
        ensures direction { IfSome result (λ d. unit d ≡ signs_of (ratios_of ratios)) }
    {
        let [x, y, z] = ratios;
        match (Sign::of(x), Sign::of(y), Sign::of(z)) {
            (Some(sign), None, None) => Some(Direction {
                along: Axis::X,
                sign,
            }),
            (None, Some(sign), None) => Some(Direction {
                along: Axis::Y,
                sign,
            }),
            (None, None, Some(sign)) => Some(Direction {
                along: Axis::Z,
                sign,
            }),
            _ => None,
        }
    }

    /// This direction, or its opposite where the sign is minus.
    pub(crate) fn signed(self, sign: Sign) -> Direction
        ensures { unit result ≡ scaled (sign_value sign) (unit self) }
    {
        Direction {
            along: self.along,
            sign: self.sign.times(sign),
        }
    }

    /// The direction at right angles to both, by the right-hand rule; `None` where the two lie on one line.
    pub(crate) fn cross(self, other: Direction) -> Option<Direction>
        ensures { let product = cross_product (unit self) (unit other) in
            MatchOption result (product ≡ along Axis.X (pos 0)) (λ d. unit d ≡ product) }
    {
        let (along, sign) = match (self.along, other.along) {
            (Axis::X, Axis::Y) => (Axis::Z, Sign::Plus),
            (Axis::Y, Axis::Z) => (Axis::X, Sign::Plus),
            (Axis::Z, Axis::X) => (Axis::Y, Sign::Plus),
            (Axis::Y, Axis::X) => (Axis::Z, Sign::Minus),
            (Axis::Z, Axis::Y) => (Axis::X, Sign::Minus),
            (Axis::X, Axis::Z) => (Axis::Y, Sign::Minus),
            (Axis::X, Axis::X) | (Axis::Y, Axis::Y) | (Axis::Z, Axis::Z) => return None,
        };
        Some(Direction {
            along,
            sign: sign.times(self.sign).times(other.sign),
        })
    }
}
