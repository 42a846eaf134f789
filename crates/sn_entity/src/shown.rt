//! What an instance shows by its row.
ghost use Rattle.std.specs.Prelude.{◌≡◌, ◌≢◌, ◌⊎◌, IfSome, IfOk, IfErr, MatchResult, Some};
ghost use Rattle.sn_entity.specs.Table.{name_of};
ghost use Rattle.sn_entity.specs.Shows.{IsKnown, Shows, IsEntityFault, OneShowing};

use crate::fault::EntFault;
use crate::keywords::{in_first_rows, in_second_rows, in_third_rows};
use crate::reads::shown;
use crate::row::RowId;
use crate::table::reads_of;
use crate::value::Fields;
use sn_geom::{one_reading, one_rounding};
use sn_p21::Instance;
use std::alloc::Global;

/// The row of a keyword, if the table has it.
pub fn row_of(name: &[u8]) -> Option<RowId>
    ensures found { IfSome result (λ id. name_of id ≡ name.now) }
    ensures only { (id : RowId) → name_of id ≡ name.now → result ≡ Some id }
{
    if let Some(id) = in_first_rows(name) {
        return Some(id);
    }
    if let Some(id) = in_second_rows(name) {
        return Some(id);
    }
    in_third_rows(name)
}

/// What an instance shows by its row. Parameters behind the last one that the row reads are not looked at.
pub fn fields(alloc: Global, inst: &Instance) -> Result<Fields, EntFault>
    requires { IsKnown inst.now }
    ensures found { IfOk result (λ f. Shows inst.now f) }
    ensures refused { IfErr result (λ e. e ≢ EntFault.Memory → IsEntityFault inst.now e) }
    // What an instance shows is found, and any fault is told, unless memory runs out.
    ensures only { (f : Fields) → Shows inst.now f → MatchResult result (λ g. g ≡ f) (λ e. e ≡ EntFault.Memory) }
    ensures fault { (why : EntFault) → IsEntityFault inst.now why → MatchResult result (λ f. ⊥) (λ e. (e ≡ why) ⊎ (e ≡ EntFault.Memory)) }
{
    one_showing();
    let parts = inst.parts.as_slice();
    let entity = &parts[0];
    let Some(id) = row_of(entity.keyword.as_slice()) else {
        unreachable!()
    };
    shown(
        alloc,
        inst.number,
        entity,
        id,
        reads_of(alloc, id).as_slice(),
    )
}

/// An instance of the table shows one thing or has one fault, and not both.
pub fn one_showing()
    ensures { OneShowing }
{
    one_reading();
    one_rounding();
}
