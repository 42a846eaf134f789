//! A sink in memory.
ghost use Rattle.std.specs.Prelude.{◌≡◌, ◌+◌, ◌-◌, ◌<◌, ◌≤◌, ◌↔◌, ◌⊎◌, [], ◌∷◌, ◌++◌, length, min, take, vec_capacity};
ghost use Rattle.std.specs.Prelude.{IsErr, OnOk, OnErr, IfOk};
ghost use Rattle.sn_io.specs.Count.{count_after, Rises};
ghost use Rattle.sn_io.specs.Sink.{Takes};
ghost use Rattle.sn_io.specs.MemSink.{MemSinkState, sink_state, IsNextListed};

use crate::bytes::append;
use crate::calls::{count_up, is_listed};
use crate::files::Failed;
use crate::sink::Sink;
use sn_geom::Memory;
use std::alloc::Global;
use std::marker::Model;

/// A sink in memory, that tells what it holds.
#[derive(Drop)]
pub struct MemSink {
    held: Vec<u8>,
    room: usize,
    failing: Vec<u64>,
    writes: u64,
    faults: u64,
}

impl Model for MemSink {
    ghost Value = { MemSinkState };

    ghost view = { λ s. record {
      held = s.held.items;
      room = s.room;
      failing = s.failing.items;
      writes = s.writes;
      faults = s.faults;
    } };

    ghost invariant = { λ s. (length s.held.items ≤ s.room) × (s.room ≤ vec_capacity s.held) };
}

impl MemSink {
    /// An empty sink with memory for `room` bytes, of which no write is made to fail.
    pub fn new(alloc: Global, room: usize) -> Result<MemSink, Memory>
        ensures { IfOk result (λ sink. sink ≡ record {
          held = [];
          room = room;
          failing = [];
          writes = 0;
          faults = 0;
        }) }
    {
        Ok(MemSink {
            held: Vec::with_capacity(alloc, room)?,
            room,
            failing: Vec::new(alloc),
            writes: 0,
            faults: 0,
        })
    }

    /// Makes the `call`-th write fail, counted from 1.
    pub fn fail_at(&mut self, call: u64) -> Result<(), Memory>
        ensures ok { OnOk result (self.new ≡ record self.old { failing = self.old.failing ++ call ∷ [] }) }
        ensures err { OnErr result (self.new ≡ self.old) }
    {
        self.failing.push(call)?;
        Ok(())
    }

    /// The bytes that it holds.
    pub fn bytes(&self) -> &[u8]
        ensures held { result.now ≡ self.now.held }
        ensures fits { length result.now ≤ self.now.room }
    {
        &self.held
    }
}

impl Sink for MemSink {
    ghost state = { sink_state };

    fn write(&mut self, bytes: &[u8]) -> Result<usize, Failed>
        requires { 0 < length bytes.now }
        ensures some { IfOk result (λ count. 0 < count) }
        ensures fits { IfOk result (λ count. count ≤ length bytes.now) }
        ensures takes { IfOk result (λ count. Takes (sink_state self.old) (sink_state self.new) (take count bytes.now)) }
        ensures nothing { OnErr result (Takes (sink_state self.old) (sink_state self.new) []) }
        ensures fault { OnErr result (Rises (sink_state self.old).faults (sink_state self.new).faults) }

        ensures fails { IsErr result ↔ (IsNextListed self.old ⊎ (self.old.room ≤ length self.old.held)) }
        ensures count { IfOk result (λ count. count ≡ min (length bytes.now) (self.old.room - length self.old.held)) }
        ensures ok { IfOk result (λ count. self.new ≡ record self.old {
          held = self.old.held ++ take count bytes.now;
          writes = count_after self.old.writes 1;
        }) }
        ensures err { OnErr result (self.new ≡ record self.old {
          writes = count_after self.old.writes 1;
          faults = count_after self.old.faults 1;
        }) }
    {
        let listed = is_listed(&self.failing, u128::from(self.writes) + 1);
        self.writes = count_up(self.writes, 1);
        let count = bytes.len().min(self.room - self.held.len());
        if listed || count == 0 {
            self.faults = count_up(self.faults, 1);
            return Err(Failed);
        }
        append(&mut self.held, &bytes[..count]);
        Ok(count)
    }
}
