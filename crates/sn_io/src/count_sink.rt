//! A sink that counts.
ghost use Rattle.std.specs.Prelude.{◌≡◌, ◌<◌, ◌≤◌, [], length, take};
ghost use Rattle.std.specs.Prelude.{IsOk, OnErr, IfOk};
ghost use Rattle.sn_io.specs.Count.{count_after, Rises};
ghost use Rattle.sn_io.specs.Sink.{Takes};
ghost use Rattle.sn_io.specs.CountSink.{CountSinkState, count_state};

use crate::calls::count_up;
use crate::files::Failed;
use crate::sink::Sink;
use std::marker::Model;

/// A sink that keeps no byte, only the number of those that it took. Its writes never fail.
#[derive(Drop)]
pub struct CountSink {
    taken: u64,
}

impl Model for CountSink {
    ghost Value = { CountSinkState };

    ghost view = { λ s. record { taken = s.taken } };
}

impl CountSink {
    /// A sink that has taken nothing.
    pub fn new() -> CountSink
        ensures { result ≡ record { taken = 0 } }
    {
        CountSink { taken: 0 }
    }

    /// The number of bytes that it took, or the last value of a count where it took more.
    pub fn taken(&self) -> u64
        ensures { result ≡ self.now.taken }
    {
        self.taken
    }
}

impl Sink for CountSink {
    ghost state = { count_state };

    fn write(&mut self, bytes: &[u8]) -> Result<usize, Failed>
        requires { 0 < length bytes.now }
        ensures some { IfOk result (λ count. 0 < count) }
        ensures fits { IfOk result (λ count. count ≤ length bytes.now) }
        ensures takes { IfOk result (λ count. Takes (count_state self.old) (count_state self.new) (take count bytes.now)) }
        ensures nothing { OnErr result (Takes (count_state self.old) (count_state self.new) []) }
        ensures fault { OnErr result (Rises (count_state self.old).faults (count_state self.new).faults) }

        ensures succeeds { IsOk result }
        ensures whole { IfOk result (λ count. count ≡ length bytes.now) }
        ensures counts { self.new.taken ≡ count_after self.old.taken (length bytes.now) }
    {
        self.taken = count_up(self.taken, bytes.len() as u64);
        Ok(bytes.len())
    }
}
