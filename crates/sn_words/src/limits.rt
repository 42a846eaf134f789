//! The limits of what words may say.

use sn_geom::PER_MM;

/// Units of length in a micrometre.
pub const PER_UM: u32 = PER_MM / 1_000;

/// The pitch of the grid where none is given, in units of length.
pub const DEFAULT_PITCH: u32 = 250 * PER_UM;

/// The greatest seed of a generated part.
pub const MOST_SEED: u32 = u32::MAX;

const _: () = prove!(PER_UM == 10 && DEFAULT_PITCH == 2_500 && MOST_SEED == 4_294_967_295);
