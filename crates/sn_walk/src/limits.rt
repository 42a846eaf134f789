//! The limit of a walk.

/// How many visits a walk may have.
pub const MOST_VISITS: usize = 10_000;

const _: () = prove!(MOST_VISITS == 10_000);
