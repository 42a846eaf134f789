//! Laws of the definitions of references. Each function's contract states a law, and the function does nothing.
ghost use Rattle.sn_refs.specs.Sound.{OneVerdict, SameReach, SoundIsRanked};
ghost use Rattle.sn_refs.specs.Target.{ChainsAreShort, NamedAreTargets, NamesAtPlaces, ReachedAreShown};

use sn_entity::in_group_or_not;
use sn_model::{kept_by_row, project_has_row};

/// A model is sound or has one fault, and not both.
pub fn one_verdict()
    ensures { OneVerdict }
{
    in_group_or_not();
    kept_by_row();
    project_has_row();
}

/// What the project leads to does not depend on the order of the instances.
pub fn same_reach()
    ensures { SameReach }
{}

/// The instances of a sound model stand in an order in which each names earlier ones alone.
pub fn sound_is_ranked()
    ensures { SoundIsRanked }
{
    kept_by_row();
    project_has_row();
}

/// What a reached instance of a sound model names is reached, and of the group that its row wants there.
pub fn named_are_targets()
    ensures { NamedAreTargets }
{}

/// A chain of references of a sound model is shorter than its list of instances.
pub fn chains_are_short()
    ensures { ChainsAreShort }
{
    kept_by_row();
    project_has_row();
}

/// What a reached instance of a sound model names at a place of its row it names by a reference.
pub fn names_at_places()
    ensures { NamesAtPlaces }
{}

/// Each reached instance of a sound model shows its fields, of its row and in the shape of that row.
pub fn reached_are_shown()
    ensures { ReachedAreShown }
{
    kept_by_row();
}
