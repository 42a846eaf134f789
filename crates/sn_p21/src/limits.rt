//! The limits of a part text.

/// How many lists and typed parameters may be open at once; the own list of an instance, a header entity or a section counts,
/// the parentheses around the parts of a complex instance do not.
pub const MAX_OPEN_LISTS: usize = 64;
