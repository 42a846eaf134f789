//! What an emitter keeps of the program that it writes.

/// Which calls an emitter has had.
#[derive(Clone, Copy, Debug, PartialEq, Eq)]
pub enum Stage {
    /// None.
    Unused,
    /// The head, and not the end.
    Begun,
    /// The end.
    Ended,
    /// A call whose write failed.
    Failed,
}

/// Whether the spindle turns.
#[derive(Clone, Copy, Debug, PartialEq, Eq)]
pub enum Spindle {
    /// It stands still from a tool change on.
    Stopped,
    /// It turns clockwise from the rates on.
    Turning,
}
