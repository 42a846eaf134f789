//! Sinks to write to.
ghost use Rattle.std.specs.Prelude.{[], ◌<◌, ◌≤◌, length, take, OnErr, IfOk};
ghost use Rattle.sn_io.specs.Count.{Rises};
ghost use Rattle.sn_io.specs.Sink.{SinkState, Takes, Writes};

use crate::files::Failed;

/// A text could not be written whole. The sink's count of faults tells that a write failed.
#[derive(Clone, Copy, Debug, PartialEq, Eq)]
pub struct WriteFault;

impl From<Failed> for WriteFault {
    fn from(_failed: Failed) -> WriteFault {
        WriteFault
    }
}

/// A place to write bytes to.
pub trait Sink {
    ghost state: { Self → SinkState };

    /// Takes a front of the piece, and answers its length. Taking nothing is a fault.
    fn write(&mut self, bytes: &[u8]) -> Result<usize, Failed>
        requires { 0 < length bytes.now }
        ensures some { IfOk result (λ count. 0 < count) }
        ensures fits { IfOk result (λ count. count ≤ length bytes.now) }
        ensures takes { IfOk result (λ count. Takes (state self.old) (state self.new) (take count bytes.now)) }
        ensures nothing { OnErr result (Takes (state self.old) (state self.new) []) }
        ensures fault { OnErr result (Rises (state self.old).faults (state self.new).faults) };
}

/// Writes all the bytes, piece by piece, or up to the write that fails. It writes nothing where there are none.
pub fn write_all<S: Sink>(sink: &mut S, bytes: &[u8]) -> Result<(), WriteFault>
    ensures { Writes result (S.state sink.old) (S.state sink.new) bytes.now }
{
    let mut rest = bytes;
    while !rest.is_empty() {
        let count = sink.write(rest)?;
        rest = &rest[count..];
    }
    Ok(())
}
