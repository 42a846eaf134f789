//! The limits of numbers.
ghost use Rattle.sn_entity.specs.Borders.{KindsHaveBorders};
ghost use Rattle.sn_entity.specs.Limits.{ShowsWithinLimits};

/// What an instance shows keeps the limits of its row.
pub fn shows_within_limits()
    ensures { ShowsWithinLimits }
{}

/// The least and the greatest number of each kind of parameter.
pub fn kinds_have_borders()
    ensures { KindsHaveBorders }
{}
