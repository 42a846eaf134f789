//! The reads of a row, one after another.
ghost use Rattle.std.specs.Prelude.{◌≡◌, ◌≢◌, length, IfOk, IfErr};
ghost use Rattle.sn_entity.specs.Reads.{IsRising, ShowsRow, StopsAt, fault_at};
ghost use Rattle.sn_entity.specs.Shows.{AreGiven, IsFault};
ghost use Rattle.sn_entity.specs.Table.{last_place, reads_of};

use crate::fault::EntFault;
use crate::param::read_param;
use crate::refusal::Refusal;
use crate::row::{Read, RowId};
use crate::value::{Fields, Values};
use sn_p21::Entity;
use std::alloc::Global;

/// The fault of a read at a place.
fn fault_at(number: u32, place: u32, why: Refusal) -> EntFault
    ensures { result ≡ fault_at number place why }
{
    match why {
        Refusal::Kind => EntFault::KindAt(number, place),
        Refusal::Range => EntFault::Range(number, place),
        Refusal::Memory => EntFault::Memory,
    }
}

/// The values that the reads give, in their order.
fn values_of(
    alloc: Global,
    number: u32,
    entity: &Entity,
    reads: &[Read],
) -> Result<Values, EntFault>
    requires { IsRising 0 (length entity.now.params) reads.now }
    ensures found { IfOk result (AreGiven entity.now reads.now) }
    ensures refused { IfErr result (λ why. why ≢ EntFault.Memory → StopsAt number entity.now reads.now why) }
{
    let params = entity.params.as_slice();
    let mut values = Values::new(alloc);
    for read in reads {
        match read_param(alloc, read, &params[read.place as usize - 1]) {
            Ok(value) => values.push(value)?,
            Err(why) => return Err(fault_at(number, read.place, why)),
        }
    }
    Ok(values)
}

/// How many parameters the reads want.
fn wanted(reads: &[Read]) -> u32
    ensures { result ≡ last_place 0 reads.now }
{
    match reads.last() {
        Some(read) => read.place,
        None => 0,
    }
}

/// What an entity shows by a row that reads these parameters.
pub fn shown(
    alloc: Global,
    number: u32,
    entity: &Entity,
    id: RowId,
    reads: &[Read],
) -> Result<Fields, EntFault>
    requires { reads.now ≡ reads_of id }
    ensures found { IfOk result (ShowsRow entity.now id) }
    ensures refused { IfErr result (λ why. why ≢ EntFault.Memory → IsFault number entity.now id why) }
{
    let wanted = wanted(reads);
    let got = entity.params.len();
    if got < wanted as usize {
        return Err(EntFault::Count(number, wanted, got as u32));
    }
    let values = values_of(alloc, number, entity, reads)?;
    Ok(Fields { row: id, values })
}
