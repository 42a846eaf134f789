//! Files in memory.
ghost use Rattle.std.specs.Prelude.{◌≡◌, ◌+◌, ◌<◌, ◌≤◌, ◌^◌, ◌==◌, ◌↔◌, ◌⊎◌, ℕ, List, [], ◌∷◌, ◌++◌, length, min, take, drop, if◌then◌else◌};
ghost use Rattle.std.specs.Prelude.{IsTrue, IsNone, IsErr, OnOk, OnErr, IfOk, None, Some, slice_index_or, option_map, position, false};
ghost use Rattle.std.specs.Option.{ForSome};
ghost use Rattle.std.specs.Str.{bytes_eq};
ghost use Rattle.std.specs.FinMap as map;
ghost use Rattle.sn_io.specs.Count.{count_after};
ghost use Rattle.sn_io.specs.Files.{Opens, IsOpened, IsFault, Reads, Gives, GivesNothing};
ghost use Rattle.sn_io.specs.MemFiles.{MemFilesState, mem_files_code, contents_of, files_state, left_after, IsNextListed, Adds};

use crate::bytes::copy_front;
use crate::calls::{count_up, is_listed};
use crate::files::{Failed, Files};
use sn_geom::Memory;
use std::alloc::Global;
use std::marker::Model;

/// A file's name and its bytes.
#[derive(Drop)]
struct MemFile {
    name: Vec<u8>,
    bytes: Vec<u8>,
}

impl Model for MemFile {
    ghost Value = { List ℕ × List ℕ };

    ghost view = { λ file. (file.name.items, file.bytes.items) };
}

/// The index of the open file, and how many of its bytes were given.
#[derive(Clone, Copy)]
struct Opened {
    index: usize,
    given: usize,
}

impl Opened {
    /// The open file after one more reading: a reading that gave nothing has closed it.
    fn after(self, count: usize) -> Option<Opened>
        requires { self.given + count < 2 ^ 64 }
        ensures { result ≡ (if count == 0 then None else Some record { index = self.index; given = self.given + count }) }
    {
        if count == 0 {
            return None;
        }
        Some(Opened {
            given: self.given + count,
            ..self
        })
    }
}

/// Files in memory, that tell their content.
#[derive(Drop)]
pub struct MemFiles {
    files: Vec<MemFile>,
    failing: Vec<u64>,
    opened: Option<Opened>,
    faults: u64,
    opens: u64,
    reads: u64,
    bytes: u64,
    strange_opens: u64,
}

impl Model for MemFiles {
    ghost Value = { MemFilesState };

    ghost coded = { mem_files_code };

    ghost view = { λ m. record {
      files = contents_of m.files.items;
      failing = m.failing.items;
      left = option_map (λ opened. drop opened.given (slice_index_or m.files.items opened.index ([], [])).1) m.opened;
      faults = m.faults;
      opens = m.opens;
      reads = m.reads;
      bytes = m.bytes;
      strange_opens = m.strange_opens;
    } };

    ghost invariant = { λ m. ForSome m.opened (λ opened.
        (opened.index < length m.files.items)
        × (opened.given ≤ length (slice_index_or m.files.items opened.index ([], [])).1)) };
}

impl MemFiles {
    /// No files, of which no call is made to fail.
    pub fn new(alloc: Global) -> MemFiles
        ensures none { (name : List ℕ) → (files_state result).has_file name ≡ false }
        ensures state { result ≡ record {
          files = map.empty;
          failing = [];
          left = None;
          faults = 0;
          opens = 0;
          reads = 0;
          bytes = 0;
          strange_opens = 0;
        } }
    {
        MemFiles {
            files: Vec::new(alloc),
            failing: Vec::new(alloc),
            opened: None,
            faults: 0,
            opens: 0,
            reads: 0,
            bytes: 0,
            strange_opens: 0,
        }
    }

    /// Adds a file, or replaces the bytes of the file that has the name.
    pub fn add(&mut self, name: &[u8], bytes: &[u8]) -> Result<(), Memory>
        requires closed { IsNone self.old.left }
        ensures ok { OnOk result (self.new ≡ record self.old { files = map.insert self.old.files name.now bytes.now }) }
        ensures adds { OnOk result (Adds (files_state self.old) (files_state self.new) name.now bytes.now) }
        ensures err { OnErr result (self.new ≡ self.old) }
    {
        let file = MemFile::new(*self.files.allocator(), name, bytes)?;
        put(&mut self.files, file)?;
        Ok(())
    }

    /// Makes the `call`-th call fail. Calls of `open` and `read` are counted together, from 1.
    pub fn fail_at(&mut self, call: u64) -> Result<(), Memory>
        ensures ok { OnOk result (self.new ≡ record self.old { failing = self.old.failing ++ call ∷ [] }) }
        ensures err { OnErr result (self.new ≡ self.old) }
    {
        self.failing.push(call)?;
        Ok(())
    }

    /// Whether the next call of `open` or `read` is made to fail.
    fn is_next_listed(&self) -> bool
        ensures { IsTrue result ↔ IsNextListed self.now }
    {
        let calls = u128::from(self.opens) + u128::from(self.reads);
        is_listed(&self.failing, calls + 1)
    }
}

impl MemFile {
    fn new(alloc: Global, name: &[u8], bytes: &[u8]) -> Result<MemFile, Memory>
        ensures { IfOk result (λ file. file ≡ (name.now, bytes.now)) }
    {
        Ok(MemFile {
            name: Vec::from_slice(alloc, name)?,
            bytes: Vec::from_slice(alloc, bytes)?,
        })
    }
}

impl Files for MemFiles {
    ghost state = { files_state };

    fn open(&mut self, name: &[u8]) -> Result<(), Failed>
        ensures opens { Opens (files_state self.old) (files_state self.new) name.now }
        ensures opened { OnOk result (IsOpened (files_state self.old) (files_state self.new) name.now) }
        ensures fault { OnErr result (IsFault (files_state self.old) (files_state self.new) false) }

        ensures fails { IsErr result ↔ (IsNextListed self.old ⊎ IsNone (map.get self.old.files name.now)) }
        ensures ok { OnOk result (self.new ≡ record self.old {
          left = map.get self.old.files name.now;
          opens = count_after self.old.opens 1;
        }) }
        ensures err { OnErr result (self.new ≡ record self.old {
          left = None;
          faults = count_after self.old.faults 1;
          opens = count_after self.old.opens 1;
          strange_opens = count_after self.old.strange_opens (if map.contains_key self.old.files name.now then 0 else 1);
        }) }
    {
        let listed = self.is_next_listed();
        self.opens = count_up(self.opens, 1);
        self.opened = None;
        let Some(index) = position_of(&self.files, name) else {
            self.strange_opens = count_up(self.strange_opens, 1);
            self.faults = count_up(self.faults, 1);
            return Err(Failed);
        };
        if listed {
            self.faults = count_up(self.faults, 1);
            return Err(Failed);
        }
        self.opened = Some(Opened { index, given: 0 });
        Ok(())
    }

    fn read(&mut self, buf: &mut [u8]) -> Result<usize, Failed>
        requires is_open { IsTrue (files_state self.old).is_open }
        requires room { 0 < length buf.old }
        ensures reads { Reads (files_state self.old) (files_state self.new) }
        ensures fits { IfOk result (λ count. count ≤ length buf.new) }
        ensures gives { IfOk result (λ count. Gives (files_state self.old) (files_state self.new) buf.new count) }
        ensures fault { OnErr result (GivesNothing (files_state self.old) (files_state self.new)) }

        ensures fails { IsErr result ↔ IsNextListed self.old }
        ensures count { IfOk result (λ count. count ≡ min (length buf.old) (length (files_state self.old).left)) }
        ensures front { IfOk result (λ count.
            buf.new ≡ take count (files_state self.old).left ++ drop count buf.old) }
        ensures ok { IfOk result (λ count. self.new ≡ record self.old {
          left = left_after (files_state self.old).left count;
          reads = count_after self.old.reads 1;
          bytes = count_after self.old.bytes count;
        }) }
        ensures err { OnErr result (self.new ≡ record self.old {
          faults = count_after self.old.faults 1;
          reads = count_after self.old.reads 1;
        }) }
        ensures nothing { OnErr result (buf.new ≡ buf.old) }
    {
        let listed = self.is_next_listed();
        self.reads = count_up(self.reads, 1);
        if listed {
            self.faults = count_up(self.faults, 1);
            return Err(Failed);
        }
        let Some(opened) = self.opened else {
            unreachable!()
        };
        let count = copy_front(bytes_left(&self.files, opened), buf);
        self.bytes = count_up(self.bytes, count as u64);
        self.opened = opened.after(count);
        Ok(count)
    }
}

/// The index of the file that has the name.
fn position_of(files: &[MemFile], name: &[u8]) -> Option<usize>
    ensures { result ≡ position (λ file. bytes_eq file.0 name.now) files.now }
{
    files.iter().position(|file| file.name.as_slice() == name)
}

/// Puts the file in place of the one that has its name, or behind all others.
fn put(files: &mut Vec<MemFile>, file: MemFile) -> Result<(), Memory>
    ensures ok { OnOk result (contents_of files.new.items ≡ map.insert (contents_of files.old.items) file.0 file.1) }
    ensures err { OnErr result (files.new.items ≡ files.old.items) }
{
    match position_of(files, &file.name) {
        Some(index) => files[index] = file,
        None => files.push(file)?,
    }
    Ok(())
}

/// What the open file has left.
fn bytes_left(files: &[MemFile], opened: Opened) -> &[u8]
    requires index { opened.index < length files.now }
    requires given { opened.given ≤ length (slice_index_or files.now opened.index ([], [])).1 }
    ensures left { result.now ≡ drop opened.given (slice_index_or files.now opened.index ([], [])).1 }
    ensures fits { opened.given + length result.now < 2 ^ 64 }
{
    let file = &files[opened.index];
    &file.bytes[opened.given..]
}
