//! The files of the machine.
ghost use Rattle.std.specs.Prelude.{◌≡◌, ◌<◌, ◌≤◌, [], length, IsTrue, OnOk, OnErr, IfOk, is_some, false, Some, IsUtf8};
ghost use Rattle.std.specs.Io.KnownBytes.{ReadConsumes};
ghost use Rattle.std.specs.Option.{option_map_or};
ghost use Rattle.sn_io.specs.Files.{Opens, IsOpened, IsFault, Reads, Gives, GivesNothing};
ghost use Rattle.sn_io.specs.DiskFiles.{DiskFilesState, disk_state};

use crate::calls::count_up;
use crate::files::{Failed, Files};
use std::io::Read;
use std::marker::Model;
use std::{fs, rt};

/// The files of the machine, by their paths. They tell no content.
#[derive(Drop)]
pub struct DiskFiles<R: rt::Files + Drop> {
    rt: R,
    file: Option<R::File>,
    faults: u64,
    opens: u64,
    reads: u64,
    bytes: u64,
}

impl<R: rt::Files + Drop> Model for DiskFiles<R> {
    ghost Value = { DiskFilesState };

    ghost view = { λ d. record {
      is_open = is_some d.file;
      remaining = option_map_or R.File.remaining d.file (Some []);
      faults = d.faults;
      opens = d.opens;
      reads = d.reads;
      bytes = d.bytes;
    } };
}

impl<R: rt::Files + Drop> DiskFiles<R> {
    /// The files that the runtime reaches, none of them open.
    pub fn new(rt: R) -> DiskFiles<R>
        ensures { result ≡ record { is_open = false; remaining = Some []; faults = 0; opens = 0; reads = 0; bytes = 0 } }
    {
        DiskFiles {
            rt,
            file: None,
            faults: 0,
            opens: 0,
            reads: 0,
            bytes: 0,
        }
    }
}

impl<R: rt::Files + Drop> Files for DiskFiles<R> {
    ghost state = { disk_state };

    /// A name that is no UTF-8 is a fault, as a missing file is.
    fn open(&mut self, name: &[u8]) -> Result<(), Failed>
        ensures opens { Opens (disk_state self.old) (disk_state self.new) name.now }
        ensures opened { OnOk result (IsOpened (disk_state self.old) (disk_state self.new) name.now) }
        ensures fault { OnErr result (IsFault (disk_state self.old) (disk_state self.new) false) }

        ensures text { OnOk result (IsUtf8 name.now) }
    {
        self.opens = count_up(self.opens, 1);
        self.file = None;
        if let Ok(path) = str::from_utf8(name) {
            if let Ok(file) = fs::open(&self.rt, path) {
                self.file = Some(file);
                return Ok(());
            }
        }
        self.faults = count_up(self.faults, 1);
        Err(Failed)
    }

    fn read(&mut self, buf: &mut [u8]) -> Result<usize, Failed>
        requires is_open { IsTrue (disk_state self.old).is_open }
        requires room { 0 < length buf.old }
        ensures reads { Reads (disk_state self.old) (disk_state self.new) }
        ensures fits { IfOk result (λ count. count ≤ length buf.new) }
        ensures gives { IfOk result (λ count. Gives (disk_state self.old) (disk_state self.new) buf.new count) }
        ensures fault { OnErr result (GivesNothing (disk_state self.old) (disk_state self.new)) }

        ensures consumes { ReadConsumes self.old.remaining self.new.remaining result buf.new }
    {
        let Some(file) = &mut self.file else {
            unreachable!()
        };
        self.reads = count_up(self.reads, 1);
        match file.read(buf) {
            Ok(0) => {
                self.file = None;
                Ok(0)
            }
            Ok(count) => {
                self.bytes = count_up(self.bytes, count as u64);
                Ok(count)
            }
            Err(_) => {
                self.faults = count_up(self.faults, 1);
                Err(Failed)
            }
        }
    }
}
