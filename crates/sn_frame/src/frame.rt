//! Frames and the placements that they come from.
ghost use Rattle.std.specs.Prelude.{◌≡◌, if◌then◌else◌, Ok, Err};

use crate::direction::{Axis, Direction};
use crate::place::Place;
use sn_geom::{Pt3, Um};
use std::marker::Model;

/// Why a placement gives no frame, with the placement's number.
#[derive(Clone, Copy, Debug, PartialEq, Eq)]
pub enum FrameFault {
    /// A direction is no axis, or the axis and the reference direction lie on one line.
    Skew(u32),
    /// A coordinate leaves the range.
    OutOfRange(u32),
}

/// A frame: a signed rotation followed by a shift, in tenths of a micrometre.
///
/// There are 24 signed rotations. Each maps every coordinate axis to a coordinate axis, one way or the other, and keeps
/// the right-hand rule.
#[derive(Clone, Copy, Debug)]
pub struct Frame {
    /// The image of +X.
    reference: Direction,
    /// The image of +Z.
    axis: Direction,
    /// The image of the origin.
    at: Pt3,
}

impl Model for Frame {
    ghost use Rattle.sn_frame.specs.Frame.{Transform};

    ghost Value = { Transform };

    ghost use Rattle.sn_frame.specs.Matrix.{IsSignedRotation};
    ghost use Rattle.sn_frame.specs.Direction.{matrix_of, direction_of};

    ghost view = { λ f. record { matrix = matrix_of f.reference f.axis; shift = f.at } };

    ghost invariant = { λ f. IsSignedRotation (matrix_of f.reference f.axis) };

    ghost inverse = { λ t. record { reference = direction_of t.matrix.first; axis = direction_of t.matrix.third; at = t.shift } };
}

impl Frame {
    ghost use Rattle.sn_frame.specs.Matrix.{image, IsSignedRotation};
    ghost use Rattle.sn_frame.specs.Direction.{unit};
    ghost use Rattle.sn_frame.specs.Frame.{ratios_of, is_skew, placed, identity, applied, composed, is_in_range, is_upright};

    /// The frame of placement `n`, from its location and from its axis (the image of +Z) and its reference direction (the
    /// image of +X), which are ratios in thousandths.
    #[tactic(auto, unfolding(crate::specs::Frame::is_axis, crate::specs::Frame::is_skew, crate::specs::Frame::placed))]
    pub fn from_axes(n: u32, at: Pt3, axis: [i32; 3], dir: [i32; 3]) -> Result<Frame, FrameFault>
        ensures { let third = ratios_of axis in let first = ratios_of dir in
            result ≡ (if is_skew third first then Err (FrameFault.Skew n) else Ok (placed at third first)) }
    {
        let axis = Direction::from_ratios(axis).ok_or(FrameFault::Skew(n))?;
        let reference = Direction::from_ratios(dir).ok_or(FrameFault::Skew(n))?;
        if axis.along == reference.along {
            return Err(FrameFault::Skew(n));
        }
        Ok(Frame {
            reference,
            axis,
            at,
        })
    }

    /// The frame that leaves every point where it is.
    pub fn identity() -> Frame
        ensures { result ≡ identity }
    {
        let zero = Um::new(0).unwrap();
        Frame {
            reference: Direction::PLUS_X,
            axis: Direction::PLUS_Z,
            at: Pt3 {
                x: zero,
                y: zero,
                z: zero,
            },
        }
    }

    /// The inner frame followed by this one. The fault carries `n`, the number of the inner frame's placement.
    #[tactic(auto, unfolding(crate::specs::Frame::composed))]
    pub fn compose(&self, inner: &Frame, n: u32) -> Result<Frame, FrameFault>
        ensures { let both = composed self.now inner.now in
            result ≡ (if is_in_range both.shift then Ok both else Err (FrameFault.OutOfRange n)) }
    {
        let at = self.apply(&inner.at, n)?;
        Ok(Frame {
            reference: self.turned(inner.reference),
            axis: self.turned(inner.axis),
            at,
        })
    }

    /// Where the frame puts a point. The fault carries `n`, the number of the frame's placement.
    pub fn apply(&self, p: &Pt3, n: u32) -> Result<Pt3, FrameFault>
        ensures { let q = applied self.now p.now in
            result ≡ (if is_in_range q then Ok q else Err (FrameFault.OutOfRange n)) }
    {
        Place::at(&self.at)
            .moved(self.reference, p.x)
            .moved(self.second(), p.y)
            .moved(self.axis, p.z)
            .point()
            .ok_or(FrameFault::OutOfRange(n))
    }

    /// Where the frame puts the origin.
    pub fn origin(&self) -> Pt3
        ensures { result ≡ self.now.shift }
    {
        self.at
    }

    /// Whether the frame maps +Z to +Z.
    #[tactic(auto, unfolding(crate::specs::Frame::is_upright))]
    pub fn is_upright(&self) -> bool
        ensures { result ≡ is_upright self.now }
    {
        self.axis == Direction::PLUS_Z
    }

    /// What every frame keeps: it turns by a signed rotation.
    pub fn rule(&self)
        ensures { IsSignedRotation self.now.matrix }
    {
        let _axis = self.axis;
    }

    /// The image of +Y.
    fn second(&self) -> Direction
        ensures { unit result ≡ self.now.matrix.second }
    {
        self.axis.cross(self.reference).unwrap()
    }

    /// The image of a direction.
    fn turned(&self, direction: Direction) -> Direction
        ensures image { unit result ≡ image self.now.matrix (unit direction) }
        ensures rotation { IsSignedRotation self.now.matrix }
    {
        let along = match direction.along {
            Axis::X => self.reference,
            Axis::Y => self.second(),
            Axis::Z => self.axis,
        };
        along.signed(direction.sign)
    }
}
