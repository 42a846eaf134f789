//! Loading the part that a command names.
ghost use Rattle.std.specs.Prelude.{◌≡◌, ◌+◌, Err, IfOk, IfErr, OnOk};
ghost use Rattle.sn_run.specs.Outcome.{HasRisenBy, IsReadOf, IsRefusedFile};
ghost use Rattle.sn_raster.specs.Grid.{FitsGrid};
ghost use Rattle.sn_run.specs.Part.{IsRefusedPart, IsSoundPart};
ghost use Rattle.sn_run.specs.Reading.{IsPastOne, ReadsFile};

use crate::judge::judge;
use crate::reading::{LONGEST, read_part};
use sn_io::Files;
use sn_message::Refusal;
use sn_outline::Job;
use sn_words::Opts;
use std::alloc::Global;

/// The job of the sound part of a name, or why its file was not read or is refused.
pub fn load<F: Files>(
    alloc: Global,
    files: &mut F,
    name: &[u8],
    opts: &Opts,
) -> Result<Job, Refusal>
    ensures sound { IfOk result (λ job. IsReadOf (F.state files.old) name.now (λ bytes. IsSoundPart bytes opts.now job)) }
    ensures fits { IfOk result FitsGrid }
    ensures refused { IfErr result (IsRefusedFile (F.state files.old) (F.state files.new) name.now (λ bytes. IsRefusedPart bytes opts.now)) }
    ensures long { result ≡ Err Refusal.TooLong → HasRisenBy (F.state files.old).bytes (F.state files.new).bytes (LONGEST + 1) }
    ensures past { OnOk result (IsPastOne (F.state files.old) (F.state files.new)) }
    ensures reads { ReadsFile (F.state files.old) (F.state files.new) name.now (LONGEST + 1) }
{
    let bytes = read_part(alloc, files, name)?;
    judge(alloc, bytes.as_slice(), opts)
}
