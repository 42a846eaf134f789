//! The part that is generated from a number.
ghost use Rattle.std.specs.Prelude.{◌≡◌, ◌<◌, ◌^◌, length, IfOk};
ghost use Rattle.sn_p21.specs.Numbers.{NumbersDiffer};
ghost use Rattle.sn_report.specs.Generated.{generated, rows_of, steps_from, instances_from};

use crate::common::{common_instances, header};
use crate::draws::draw_features;
use crate::feature::{Feature, first_number, instances_of, steps_of};
use sn_geom::Memory;
use sn_p21::{File, Instance, Instances};
use std::alloc::Global;

/// How many features the part has.
const FEATURE_COUNT: u32 = 16;

/// The part of a seed: a block of 160 by 160 by 20 mm with sixteen holes, pockets and slots, in at most 231 instances.
pub fn make_part(alloc: Global, seed: u32) -> Result<File, Memory>
    ensures { IfOk result (λ file. file ≡ generated seed) }
{
    let features = draw_features(alloc, FEATURE_COUNT, seed)?;
    let rows = rows_of(alloc, &features)?;
    let header = header(alloc)?;
    let instances = by_number(alloc, rows)?;
    Ok(File::in_one_section(alloc, header, instances)?)
}

/// The instances of the part of these features.
fn rows_of(alloc: Global, features: &[Feature]) -> Result<Vec<Instance>, Memory>
    requires { length features.now < 2 ^ 16 }
    ensures { IfOk result (λ rows. rows.items ≡ rows_of features.now) }
{
    let steps = steps_from(alloc, features)?;
    let mut rows = common_instances(alloc, &steps)?;
    rows.append(&mut instances_from(alloc, features)?)?;
    Ok(rows)
}

/// The numbers of the workingsteps of all features.
fn steps_from(alloc: Global, features: &[Feature]) -> Result<Vec<u32>, Memory>
    requires { length features.now < 2 ^ 16 }
    ensures { IfOk result (λ steps. steps.items ≡ steps_from 0 features.now) }
{
    let mut steps = Vec::new(alloc);
    for (place, feature) in features.iter().enumerate() {
        steps.append(&mut steps_of(alloc, first_number(place as u32), *feature)?)?;
    }
    Ok(steps)
}

/// The instances of all features.
fn instances_from(alloc: Global, features: &[Feature]) -> Result<Vec<Instance>, Memory>
    requires { length features.now < 2 ^ 16 }
    ensures { IfOk result (λ rows. rows.items ≡ instances_from 0 features.now) }
{
    let mut rows = Vec::new(alloc);
    for (place, feature) in features.iter().enumerate() {
        rows.append(&mut instances_of(alloc, place as u32, *feature)?)?;
    }
    Ok(rows)
}

/// The instances of a file, each found by its number.
fn by_number(alloc: Global, rows: Vec<Instance>) -> Result<Instances, Memory>
    requires { NumbersDiffer rows.items }
    ensures { IfOk result (λ instances. instances ≡ rows.items) }
{
    let mut instances = Instances::new(alloc);
    for row in rows {
        instances.push(row)?;
    }
    Ok(instances)
}
