//! Judging the bytes of a part.
ghost use Rattle.std.specs.Prelude.{◌≡◌, ◌≤◌, ◌⊎◌, ℕ, List, IfOk, IfErr, OnOk, length};
ghost use Rattle.sn_open.specs.Reach.{IsReachable};
ghost use Rattle.sn_raster.specs.Grid.{FitsGrid};
ghost use Rattle.sn_words.specs.Options.{Options};
ghost use Rattle.sn_run.specs.Part.{HaveSoundModel, IsRefusedPart, IsSoundPart, IsUncompiledPart, SoundOrRefused};

use crate::prepare::{grid_of, prepare};
use crate::reading::LONGEST;
use sn_message::Refusal;
use sn_model::{build, one_model};
use sn_open::first_unreached;
use sn_outline::Job;
use sn_p21::{one_fault, one_file, read_file};
use sn_refs::laws::one_verdict;
use sn_refs::{Checked, check};
use sn_words::Opts;
use std::alloc::Global;

/// The job of a sound part, or why the part is refused.
pub fn judge(alloc: Global, bytes: &[u8], opts: &Opts) -> Result<Job, Refusal>
    ensures sound { IfOk result (IsSoundPart bytes.now opts.now) }
    ensures refused { IfErr result (λ refusal. (refusal ≡ Refusal.NoMemory) ⊎ IsRefusedPart bytes.now opts.now refusal) }
{
    if bytes.len() > LONGEST {
        return Err(Refusal::TooLong);
    }
    let model = sound_model(alloc, bytes)?;
    let job = prepare(alloc, &model, opts)?;
    Ok(job)
}

/// The model of the text of a part, where it is sound.
fn sound_model(alloc: Global, bytes: &[u8]) -> Result<Checked, Refusal>
    requires { length bytes.now ≤ LONGEST }
    ensures sound { IfOk result (HaveSoundModel bytes.now) }
    ensures refused { IfErr result (λ refusal. (refusal ≡ Refusal.NoMemory) ⊎ ((o : Options) → IsRefusedPart bytes.now o refusal)) }
{
    let file = read_file(alloc, bytes)?;
    let model = build(alloc, &file)?;
    Ok(check(alloc, model)?)
}

/// Whether the steps of a job reach each cell that has to be cut; the first that none reaches is told.
pub fn look_at_reach(alloc: Global, job: &Job) -> Result<(), Refusal>
    requires { FitsGrid job.now }
    ensures reachable { OnOk result (IsReachable job.now) }
    ensures refused { IfErr result (λ refusal. (refusal ≡ Refusal.NoMemory)
        ⊎ ((bytes : List ℕ) (o : Options) → IsSoundPart bytes o job.now → IsUncompiledPart bytes o refusal)) }
{
    let grid = grid_of(job);
    match first_unreached(alloc, job, &grid)? {
        Some((feature, cell)) => Err(Refusal::Uncovered(feature, cell)),
        None => Ok(()),
    }
}

/// A sound part is not refused, and a part that is compiled is not left uncompiled.
pub fn sound_or_refused()
    ensures { SoundOrRefused }
{
    one_file();
    one_fault();
    one_model();
    one_verdict();
}
