//! Files that never fail.
ghost use Rattle.std.specs.Prelude.{◌≡◌, ◌+◌, ◌<◌, ◌≤◌, ◌++◌, [], length, min, take, drop};
ghost use Rattle.std.specs.Prelude.{true, false, IsTrue, IsOk, OnOk, OnErr, IfOk, ◌==◌, not};
ghost use Rattle.sn_io.specs.Count.{count_after};
ghost use Rattle.sn_io.specs.Files.{Opens, IsOpened, IsFault, Reads, Gives, GivesNothing};
ghost use Rattle.sn_io.specs.SteadyFiles.{SteadyFilesState, bytes_in_turn, steady_files_state};

use crate::bytes::copy_front;
use crate::calls::count_up;
use crate::files::{Failed, Files};
use std::marker::Model;

/// Files that never fail: any name can be opened. The first opening gives one text, the second another, and each later one
/// nothing.
#[derive(Drop)]
pub struct SteadyFiles<'a> {
    first: &'a [u8],
    second: &'a [u8],
    is_open: bool,
    left: &'a [u8],
    opens: u64,
    reads: u64,
    bytes: u64,
}

impl<'a> Model for SteadyFiles<'a> {
    ghost Value = { SteadyFilesState };

    ghost view = { λ f. record {
      first = f.first.now;
      second = f.second.now;
      is_open = f.is_open;
      left = f.left.now;
      opens = f.opens;
      reads = f.reads;
      bytes = f.bytes;
    } };
}

impl<'a> SteadyFiles<'a> {
    /// Files of which none is open, with the bytes of the first opening and of the second.
    pub fn new(first: &'a [u8], second: &'a [u8]) -> SteadyFiles<'a>
        ensures { result ≡ record {
          first = first.now;
          second = second.now;
          is_open = false;
          left = [];
          opens = 0;
          reads = 0;
          bytes = 0;
        } }
    {
        SteadyFiles {
            first,
            second,
            is_open: false,
            left: &[],
            opens: 0,
            reads: 0,
            bytes: 0,
        }
    }

    /// The bytes of the next opening.
    fn next(&self) -> &'a [u8]
        ensures { result.now ≡ bytes_in_turn self.now self.now.opens }
    {
        match self.opens {
            0 => self.first,
            1 => self.second,
            _ => &[],
        }
    }
}

impl<'a> Files for SteadyFiles<'a> {
    ghost state = { steady_files_state };

    fn open(&mut self, name: &[u8]) -> Result<(), Failed>
        ensures opens { Opens (steady_files_state self.old) (steady_files_state self.new) name.now }
        ensures opened { OnOk result (IsOpened (steady_files_state self.old) (steady_files_state self.new) name.now) }
        ensures fault { OnErr result (IsFault (steady_files_state self.old) (steady_files_state self.new) false) }

        ensures succeeds { IsOk result }
        ensures state { self.new ≡ record self.old {
          is_open = true;
          left = bytes_in_turn self.old self.old.opens;
          opens = count_after self.old.opens 1;
        } }
    {
        self.left = self.next();
        self.is_open = true;
        self.opens = count_up(self.opens, 1);
        Ok(())
    }

    fn read(&mut self, buf: &mut [u8]) -> Result<usize, Failed>
        requires is_open { IsTrue (steady_files_state self.old).is_open }
        requires room { 0 < length buf.old }
        ensures reads { Reads (steady_files_state self.old) (steady_files_state self.new) }
        ensures fits { IfOk result (λ count. count ≤ length buf.new) }
        ensures gives { IfOk result (λ count. Gives (steady_files_state self.old) (steady_files_state self.new) buf.new count) }
        ensures fault { OnErr result (GivesNothing (steady_files_state self.old) (steady_files_state self.new)) }

        ensures succeeds { IsOk result }
        ensures count { IfOk result (λ count. count ≡ min (length buf.old) (length self.old.left)) }
        ensures front { IfOk result (λ count. buf.new ≡ take count self.old.left ++ drop count buf.old) }
        ensures state { IfOk result (λ count. self.new ≡ record self.old {
          is_open = not (count == 0);
          left = drop count self.old.left;
          reads = count_after self.old.reads 1;
          bytes = count_after self.old.bytes count;
        }) }
    {
        let count = copy_front(self.left, buf);
        self.left = &self.left[count..];
        self.is_open = count != 0;
        self.reads = count_up(self.reads, 1);
        self.bytes = count_up(self.bytes, count as u64);
        Ok(count)
    }
}
