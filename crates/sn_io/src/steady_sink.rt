//! A sink that never fails.
ghost use Rattle.std.specs.Prelude.{◌≡◌, ◌+◌, ◌<◌, ◌≤◌, ◌↔◌, ◌++◌, [], length, take, vec_capacity};
ghost use Rattle.std.specs.Prelude.{true, IsTrue, IsOk, OnErr, IfOk};
ghost use Rattle.sn_io.specs.Count.{count_after, Rises};
ghost use Rattle.sn_io.specs.Sink.{Takes};
ghost use Rattle.sn_io.specs.SteadySink.{SteadySinkState, steady_sink_state};

use crate::bytes::append;
use crate::calls::count_up;
use crate::files::Failed;
use crate::sink::Sink;
use sn_geom::Memory;
use std::alloc::Global;
use std::marker::Model;

/// A sink that never fails. It keeps the first bytes, as many as it has room for, and drops later ones.
#[derive(Drop)]
pub struct SteadySink {
    kept: Vec<u8>,
    room: usize,
    is_whole: bool,
    taken: u64,
}

impl Model for SteadySink {
    ghost Value = { SteadySinkState };

    ghost view = { λ s. record { kept = s.kept.items; room = s.room; is_whole = s.is_whole; taken = s.taken } };

    ghost invariant = { λ s. (length s.kept.items ≤ s.room) × (s.room ≤ vec_capacity s.kept) };
}

impl SteadySink {
    /// An empty sink with memory for `room` bytes.
    pub fn new(alloc: Global, room: usize) -> Result<SteadySink, Memory>
        ensures { IfOk result (λ sink. sink ≡ record { kept = []; room = room; is_whole = true; taken = 0 }) }
    {
        Ok(SteadySink {
            kept: Vec::with_capacity(alloc, room)?,
            room,
            is_whole: true,
            taken: 0,
        })
    }

    /// The bytes that it kept: all that it took, where it had room for them.
    pub fn bytes(&self) -> &[u8]
        ensures kept { result.now ≡ self.now.kept }
        ensures fits { length result.now ≤ self.now.room }
    {
        &self.kept
    }
}

impl Sink for SteadySink {
    ghost state = { steady_sink_state };

    fn write(&mut self, bytes: &[u8]) -> Result<usize, Failed>
        requires { 0 < length bytes.now }
        ensures some { IfOk result (λ count. 0 < count) }
        ensures fits { IfOk result (λ count. count ≤ length bytes.now) }
        ensures takes { IfOk result (λ count. Takes (steady_sink_state self.old) (steady_sink_state self.new) (take count bytes.now)) }
        ensures nothing { OnErr result (Takes (steady_sink_state self.old) (steady_sink_state self.new) []) }
        ensures fault { OnErr result (Rises (steady_sink_state self.old).faults (steady_sink_state self.new).faults) }

        ensures succeeds { IsOk result }
        ensures whole { IfOk result (λ count. count ≡ length bytes.now) }
        ensures kept { self.new.kept ≡ take self.old.room (self.old.kept ++ bytes.now) }
        ensures room { self.new.room ≡ self.old.room }
        ensures tells { IsTrue self.new.is_whole ↔ (IsTrue self.old.is_whole × (length self.old.kept + length bytes.now ≤ self.old.room)) }
        ensures counts { self.new.taken ≡ count_after self.old.taken (length bytes.now) }
    {
        let count = bytes.len().min(self.room - self.kept.len());
        append(&mut self.kept, &bytes[..count]);
        self.is_whole = self.is_whole && count == bytes.len();
        self.taken = count_up(self.taken, bytes.len() as u64);
        Ok(bytes.len())
    }
}
