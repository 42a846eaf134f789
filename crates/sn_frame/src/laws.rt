//! Laws of the definitions of frames. Each function's contract states laws, and the function does nothing.
ghost use Rattle.std.specs.Prelude.{◌≡◌, ◌≢◌, ◌↔◌, length};
ghost use Rattle.std.specs.List.{AllPairs, Contains};
ghost use Rattle.sn_frame.specs.Matrix.{Matrix, IsSignedRotation};
ghost use Rattle.sn_frame.specs.FrameLaws.{SkewMeansNotPerpendicular, UprightKeepsUp, PlacementDeterminesFrame, CompositionAppliesInnerThenOuter, CompositionIsAssociative, IdentityKeepsPoints, IdentityIsNeutral, FramesKeepDistances, EachRotationIsPlaced, signed_rotations};

/// Laws of placements and their frames.
pub fn placements()
    ensures skew { SkewMeansNotPerpendicular }
    ensures one_frame { PlacementDeterminesFrame }
    ensures upright { UprightKeepsUp }
{}

/// Laws of applying and composing.
pub fn composition()
    ensures inner_then_outer { CompositionAppliesInnerThenOuter }
    ensures associative { CompositionIsAssociative }
    ensures identity_keeps_points { IdentityKeepsPoints }
    ensures identity_is_neutral { IdentityIsNeutral }
{}

/// A frame keeps the distance of two points.
pub fn distances()
    ensures { FramesKeepDistances }
{}

/// There are exactly 24 signed rotations, and each is that of a placement.
pub fn rotations()
    ensures count { length signed_rotations ≡ 24 }
    ensures distinct { AllPairs (λ m k. m ≢ k) signed_rotations }
    ensures all { (m : Matrix) → IsSignedRotation m ↔ Contains signed_rotations m }
    ensures placed { EachRotationIsPlaced }
{}
