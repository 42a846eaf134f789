//! An output of the machine.
ghost use Rattle.std.specs.Prelude.{◌≡◌, ◌<◌, ◌≤◌, [], length, take, OnOk, OnErr, IfOk};
ghost use Rattle.std.specs.Io.Buffered.{writer_contents};
ghost use Rattle.std.specs.Io.KnownBytes.{Keeps, Appends};
ghost use Rattle.sn_io.specs.Count.{Rises};
ghost use Rattle.sn_io.specs.Sink.{Takes};
ghost use Rattle.sn_io.specs.OutSink.{OutSinkState, out_state};

use crate::calls::count_up;
use crate::files::Failed;
use crate::sink::{Sink, WriteFault};
use sn_geom::Memory;
use std::alloc::Global;
use std::io::{BufWriter, Write};
use std::marker::Model;

/// Standard output, standard error or another writer, through a buffer. It tells no content.
///
/// What is in the buffer gets to the writer by `finish` at the latest. So a sink has to be finished: it can't be let go.
pub struct OutSink<W: Write + Drop> {
    out: BufWriter<W>,
    faults: u64,
}

impl<W: Write + Drop> Model for OutSink<W> {
    ghost Value = { OutSinkState };

    ghost view = { λ s. record { contents = writer_contents W.contents s.out; faults = s.faults } };
}

impl<W: Write + Drop> OutSink<W> {
    /// A sink that writes to `out`.
    pub fn new(alloc: Global, out: W) -> Result<OutSink<W>, Memory>
        ensures faultless { IfOk result (λ sink. sink.faults ≡ 0) }
        ensures contents { IfOk result (λ sink. Keeps (W.contents out) sink.contents) }
    {
        match BufWriter::new(alloc, out) {
            Ok(out) => Ok(OutSink { out, faults: 0 }),
            Err(_) => Err(Memory),
        }
    }

    /// Hands what is left in the buffer to the writer, and the writer back. Where a write had failed, or this one does,
    /// nothing more is written.
    pub fn finish(self) -> Result<W, WriteFault>
        ensures faultless { OnOk result (self.faults ≡ 0) }
        ensures contents { IfOk result (λ out. Keeps self.contents (W.contents out)) }
    {
        let OutSink { mut out, faults } = self;
        let is_whole = faults == 0 && out.flush().is_ok();
        let (writer, _unwritten) = out.into_parts();
        if is_whole {
            Ok(writer)
        } else {
            Err(WriteFault)
        }
    }
}

impl<W: Write + Drop> Sink for OutSink<W> {
    ghost state = { out_state };

    fn write(&mut self, bytes: &[u8]) -> Result<usize, Failed>
        requires { 0 < length bytes.now }
        ensures some { IfOk result (λ count. 0 < count) }
        ensures fits { IfOk result (λ count. count ≤ length bytes.now) }
        ensures takes { IfOk result (λ count. Takes (out_state self.old) (out_state self.new) (take count bytes.now)) }
        ensures nothing { OnErr result (Takes (out_state self.old) (out_state self.new) []) }
        ensures fault { OnErr result (Rises (out_state self.old).faults (out_state self.new).faults) }

        ensures appends { IfOk result (λ count. Appends self.old.contents self.new.contents (take count bytes.now)) }
        ensures keeps { OnErr result (Keeps self.old.contents self.new.contents) }
    {
        match self.out.write(bytes) {
            Ok(count) if count > 0 => Ok(count),
            _ => {
                self.faults = count_up(self.faults, 1);
                Err(Failed)
            }
        }
    }
}
