//! What options and assignments have been seen so far.

use crate::options::{Assigns, RawBox};

/// The pitch and the raw box where they have been given, and the assignments in order.
#[derive(Drop)]
pub(crate) struct Seen {
    pub(crate) pitch: Option<u32>,
    pub(crate) raw: Option<RawBox>,
    pub(crate) sets: Assigns,
}
