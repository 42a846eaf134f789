//! The unit of length, and the limits that follow from it.

/// Length units in a millimetre: the unit of length is a tenth of a micrometre.
pub const PER_MM: u32 = 10_000;

/// The greatest size of a coordinate or a length, in units of length.
pub const REACH: u32 = 20_000_000;

/// The least and the greatest pitch of a grid: 20 and 2,000 micrometres, in units of length.
pub const LEAST_PITCH: u32 = 20 * PER_MM / 1_000;

pub const MOST_PITCH: u32 = 2_000 * PER_MM / 1_000;

/// The least and the greatest diameter of a tool: 10 and 200,000 micrometres, in units of length.
pub const LEAST_DIAMETER: u32 = 10 * PER_MM / 1_000;

pub const MOST_DIAMETER: u32 = 200_000 * PER_MM / 1_000;

/// The greatest edge radius of a tool: 100,000 micrometres, in units of length.
pub const MOST_EDGE: u32 = 100_000 * PER_MM / 1_000;

/// The greatest number of nodes in the window of a grid.
pub const MOST_NODES: u32 = 4_000_000;

/// The greatest feed in mm/min, and the greatest speed of a spindle in rev/min.
pub const MOST_RATE: u32 = 100_000;

/// A feed of one metre per second in mm/min.
pub const FEED_SCALE: u32 = 60_000;

/// A speed of one revolution per second in rev/min.
pub const SPEED_SCALE: u32 = 60;

/// Parts of one in which the values of variables and constants and the ratios of directions are kept: they are thousandths.
pub const PER_ONE: u32 = 1_000;

/// The greatest size of the value of a variable or a constant, in thousandths.
pub const MOST_VALUE: u32 = 2_000_000_000;

/// The greatest number of a tool, of a length offset and of a line in a program.
pub const MOST_TOOL: u32 = 99_999;

/// The height above remaining material at which an approach changes from rapid to feed.
pub const GAP: u32 = 10_000;

/// The axial depth of a layer where the part gives none: the height of the highest raw box, so no cut is deeper.
pub const NO_DEPTH: u32 = 40_000_000;

/// The decimals of a length in millimetres, as it is printed: one for each digit of `PER_MM` after the first.
pub const DECIMALS: usize = 4;

// The values of today: a change of the unit of length changes these.
const _: () = prove!(PER_MM == 10_000 && REACH == 20_000_000 && GAP == 10_000);

const _: () = prove!(NO_DEPTH == 40_000_000 && DECIMALS == 4);

const _: () = prove!(LEAST_PITCH == 200 && MOST_PITCH == 20_000);

const _: () = prove!(LEAST_DIAMETER == 100 && MOST_DIAMETER == 2_000_000 && MOST_EDGE == 1_000_000);

const _: () = prove!(MOST_NODES == 4_000_000 && MOST_RATE == 100_000 && MOST_TOOL == 99_999);

const _: () = prove!(FEED_SCALE == 60_000 && SPEED_SCALE == 60);

const _: () = prove!(PER_ONE == 1_000 && MOST_VALUE == 2_000_000_000);
