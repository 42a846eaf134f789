//! Reading the part's file.
ghost use Rattle.std.specs.Prelude.{◌≡◌, ◌+◌, ◌≤◌, ◌<◌, length, take, IsTrue, OnOk, IfOk, IfErr};
ghost use Rattle.sn_io.specs.Count.{count_after};
ghost use Rattle.sn_io.specs.Files.{Reads};
ghost use Rattle.sn_run.specs.Reading.{AppendsNext, IsPastOne, IsUnread, ReadsFile, TakesAtMost};

use sn_io::Files;
use sn_message::Refusal;
use std::alloc::Global;

/// The greatest length in bytes of a part file, and of a program that is written.
pub const LONGEST: usize = 67_108_864;

const _: () = prove!(LONGEST == 67_108_864);

/// The greatest length of a program file in bytes.
pub const LONGEST_PROGRAM: usize = 1_099_511_627_776;

const _: () = prove!(LONGEST_PROGRAM == 1_099_511_627_776);

/// How many bytes are read at once at the most.
pub const CHUNK: usize = 16_384;

/// Reads a file to its end, or until `LONGEST + 1` bytes were taken.
pub fn read_part<F: Files>(alloc: Global, files: &mut F, name: &[u8]) -> Result<Vec<u8>, Refusal>
    ensures content { IfOk result (λ bytes. IsTrue (F.state files.old).tells
        → bytes.items ≡ take (LONGEST + 1) ((F.state files.old).given name.now 0)) }
    ensures counted { IfOk result (λ bytes. (F.state files.new).bytes ≡ count_after (F.state files.old).bytes (length bytes.items)) }
    ensures past { OnOk result (IsPastOne (F.state files.old) (F.state files.new)) }
    ensures unread { IfErr result (IsUnread (F.state files.old) (F.state files.new)) }
    ensures reads { ReadsFile (F.state files.old) (F.state files.new) name.now (LONGEST + 1) }
{
    files.open(name)?;
    let mut bytes = Vec::new(alloc);
    while bytes.len() <= LONGEST {
        let most = LONGEST + 1 - bytes.len();
        if read_next(files, &mut bytes, most)? == 0 {
            return Ok(bytes);
        }
    }
    Ok(bytes)
}

/// Puts the next bytes of the open file, at most so many, behind those that were read.
fn read_next<F: Files>(files: &mut F, bytes: &mut Vec<u8>, most: usize) -> Result<usize, Refusal>
    requires is_open { IsTrue (F.state files.old).is_open }
    requires room { 0 < most }
    ensures reads { Reads (F.state files.old) (F.state files.new) }
    ensures takes { TakesAtMost (F.state files.old) (F.state files.new) most }
    ensures within { IfOk result (λ count. count ≤ most) }
    ensures appends { IfOk result (AppendsNext (F.state files.old) (F.state files.new) bytes.old.items bytes.new.items) }
    ensures unread { IfErr result (IsUnread (F.state files.old) (F.state files.new)) }
{
    let mut chunk = [0; CHUNK];
    let room = most.min(CHUNK);
    let count = files.read(&mut chunk[..room])?;
    bytes.extend_from_slice(&chunk[..count])?;
    Ok(count)
}
