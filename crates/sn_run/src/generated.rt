//! The text of the part that is generated from a seed.
ghost use Rattle.std.specs.Prelude.{◌≡◌, IfOk};
ghost use Rattle.sn_run.specs.Answer.{generated_text};

use sn_geom::Memory;
use sn_p21::{Bytes, write_file};
use sn_report::make_part;
use std::alloc::Global;

/// The canonical text of the part that is generated from a seed.
pub fn generated_text(alloc: Global, seed: u32) -> Result<Bytes, Memory>
    ensures { IfOk result (λ text. text ≡ generated_text seed) }
{
    let file = make_part(alloc, seed)?;
    write_file(alloc, &file)
}
