//! The features of the generated part, and the instances of each.
ghost use Rattle.std.specs.Prelude.{◌≡◌, ◌<◌, ◌^◌, map, IfOk};
ghost use Rattle.sn_report.specs.Fields.{param_of};
ghost use Rattle.sn_report.specs.Generated.{simple, instance, first_number, depth_of, feature_params, operation_params, roughing_params, finishing_params, slot_params, workingstep, corner_of, bottom_of, places_of, head_of, hole_rest, pocket_rest, slot_rest, rest_of, instances_of, steps_of};

use crate::params::Field::{self, Absent, BelowZero, Real, Ref, Refs, Text, Whole};
use crate::params::{instance, joined, placement, point, size};
use sn_geom::Memory;
use sn_p21::Instance;
use std::alloc::Global;

/// A feature, with its lengths in millimetres.
#[derive(Clone, Copy, Debug, PartialEq, Eq)]
pub enum Feature {
    /// A through hole of 10 mm.
    Hole,
    /// A rectangular pocket.
    Pocket { width: u32, length: u32, depth: u32 },
    /// A slot of 8 mm.
    Slot { length: u32, depth: u32 },
}

/// The first of the numbers of the feature at this place.
pub fn first_number(place: u32) -> u32
    requires { place < 2 ^ 16 }
    ensures { result ≡ first_number place }
{
    100 + 20 * place
}

/// How deep a feature is.
fn depth_of(feature: Feature) -> u32
    ensures { result ≡ depth_of feature }
{
    match feature {
        Feature::Hole => 20,
        Feature::Pocket { depth, .. } => depth,
        Feature::Slot { depth, .. } => depth,
    }
}

/// The numbers of the workingsteps of a feature, whose numbers begin with `n`.
pub fn steps_of(alloc: Global, n: u32, feature: Feature) -> Result<Vec<u32>, Memory>
    requires { n < 2 ^ 31 }
    ensures { IfOk result (λ steps. steps.items ≡ steps_of n feature) }
{
    Ok(match feature {
        Feature::Hole => vec![in alloc; n + 7]?,
        Feature::Pocket { .. } => vec![in alloc; n + 11, n + 12]?,
        Feature::Slot { .. } => vec![in alloc; n + 10]?,
    })
}

/// The instances of the feature that stands at a place, by their numbers.
pub fn instances_of(alloc: Global, place: u32, feature: Feature) -> Result<Vec<Instance>, Memory>
    requires { place < 2 ^ 16 }
    ensures { IfOk result (λ rows. rows.items ≡ instances_of place feature) }
{
    let n = first_number(place);
    let mut rows = vec![in alloc; head_of(alloc, n, feature)?]?;
    rows.append(&mut places_of(alloc, place, n, feature)?)?;
    rows.append(&mut rest_of(alloc, n, feature)?)?;
    Ok(rows)
}

/// The feature itself.
fn head_of(alloc: Global, n: u32, feature: Feature) -> Result<Instance, Memory>
    requires { n < 2 ^ 31 }
    ensures { IfOk result (λ i. i ≡ head_of n feature) }
{
    match feature {
        Feature::Hole => {
            let behind = [Ref(22), Absent, Ref(20)];
            feature_head(alloc, n, b"ROUND_HOLE", &behind)
        }
        Feature::Pocket { .. } => {
            let behind = [Refs(&[]), Absent, Ref(21), Absent, Absent, Ref(n + 6)];
            feature_head(alloc, n, b"CLOSED_POCKET", &behind)
        }
        Feature::Slot { .. } => {
            let behind = [Ref(n + 6), Ref(n + 7), Refs(&[])];
            feature_head(alloc, n, b"SLOT", &behind)
        }
    }
}

/// A feature of this keyword, with the fields behind its depth: its name, its workpiece, its operations (none are named),
/// its placement, its depth and these.
fn feature_head(alloc: Global, n: u32, keyword: &[u8], behind: &[Field]) -> Result<Instance, Memory>
    requires { n < 2 ^ 31 }
    ensures { IfOk result (λ i. i ≡ simple n keyword.now (feature_params n (map param_of behind.now))) }
{
    let front = [Text(b""), Ref(3), Refs(&[]), Ref(n + 1), Ref(n + 3)];
    joined(alloc, n, keyword, &front, behind)
}

/// The point at which the feature of this place stands.
fn corner_of(alloc: Global, number: u32, place: u32) -> Result<Instance, Memory>
    requires { place < 2 ^ 16 }
    ensures { IfOk result (λ i. i ≡ corner_of number place) }
{
    let x = Whole(20 + 40 * (place % 4));
    let y = Whole(20 + 40 * (place / 4));
    point(alloc, number, &[x, y, Real(b"20.")])
}

/// The point of a feature's floor, from where it stands.
fn bottom_of(alloc: Global, number: u32, feature: Feature) -> Result<Instance, Memory>
    ensures { IfOk result (λ i. i ≡ bottom_of number feature) }
{
    let depth = BelowZero(depth_of(feature));
    point(alloc, number, &[Real(b"0."), Real(b"0."), depth])
}

/// The placement of a feature, and the plane of its depth.
fn places_of(alloc: Global, place: u32, n: u32, feature: Feature) -> Result<Vec<Instance>, Memory>
    requires place { place < 2 ^ 16 }
    requires number { n < 2 ^ 31 }
    ensures { IfOk result (λ rows. rows.items ≡ places_of place n feature) }
{
    let mut rows = Vec::new(alloc);
    rows.push(placement(alloc, n + 1, n + 2)?)?;
    rows.push(corner_of(alloc, n + 2, place)?)?;
    rows.push(instance(alloc, n + 3, b"PLANE", &[Text(b""), Ref(n + 4)])?)?;
    rows.push(placement(alloc, n + 4, n + 5)?)?;
    rows.push(bottom_of(alloc, n + 5, feature)?)?;
    Ok(rows)
}

/// The operations and the workingsteps of a feature, and what its outline is made of.
fn rest_of(alloc: Global, n: u32, feature: Feature) -> Result<Vec<Instance>, Memory>
    requires { n < 2 ^ 31 }
    ensures { IfOk result (λ rows. rows.items ≡ rest_of n feature) }
{
    match feature {
        Feature::Hole => hole_rest(alloc, n),
        Feature::Pocket { width, length, .. } => pocket_rest(alloc, n, width, length),
        Feature::Slot { length, .. } => slot_rest(alloc, n, length),
    }
}

fn hole_rest(alloc: Global, n: u32) -> Result<Vec<Instance>, Memory>
    requires { n < 2 ^ 31 }
    ensures { IfOk result (λ rows. rows.items ≡ hole_rest n) }
{
    let mut rows = Vec::new(alloc);
    rows.push(operation(alloc, n + 6, b"DRILLING", 15, &[Absent; 7])?)?;
    rows.push(workingstep(alloc, n + 7, n, n + 6)?)?;
    Ok(rows)
}

fn pocket_rest(alloc: Global, n: u32, width: u32, length: u32) -> Result<Vec<Instance>, Memory>
    requires { n < 2 ^ 31 }
    ensures { IfOk result (λ rows. rows.items ≡ pocket_rest n width length) }
{
    let profile = [Absent, Ref(n + 7), Ref(n + 8)];
    let mut rows = Vec::new(alloc);
    rows.push(instance(alloc, n + 6, b"RECTANGULAR_CLOSED_PROFILE", &profile)?)?;
    rows.push(size(alloc, n + 7, Whole(width))?)?;
    rows.push(size(alloc, n + 8, Whole(length))?)?;
    rows.push(roughing(alloc, n + 9)?)?;
    rows.push(finishing(alloc, n + 10)?)?;
    rows.push(workingstep(alloc, n + 11, n, n + 9)?)?;
    rows.push(workingstep(alloc, n + 12, n, n + 10)?)?;
    Ok(rows)
}

/// The roughing of a pocket: axial and radial depth, and the allowances.
fn roughing(alloc: Global, number: u32) -> Result<Instance, Memory>
    ensures { IfOk result (λ i. i ≡ instance number "BOTTOM_AND_SIDE_ROUGH_MILLING" roughing_params) }
{
    let behind = [
        Absent,
        Absent,
        Absent,
        Absent,
        Absent,
        Real(b"3."),
        Real(b"4."),
        Real(b"0.5"),
        Real(b"0.5"),
    ];
    operation(alloc, number, b"BOTTOM_AND_SIDE_ROUGH_MILLING", 12, &behind)
}

/// The finishing of a pocket: axial and radial depth, and no allowances.
fn finishing(alloc: Global, number: u32) -> Result<Instance, Memory>
    ensures { IfOk result (λ i. i ≡ instance number "BOTTOM_AND_SIDE_FINISH_MILLING" finishing_params) }
{
    let behind = [
        Absent,
        Absent,
        Absent,
        Absent,
        Absent,
        Real(b"5."),
        Real(b"4."),
        Absent,
        Absent,
    ];
    operation(
        alloc,
        number,
        b"BOTTOM_AND_SIDE_FINISH_MILLING",
        12,
        &behind,
    )
}

/// The milling of a slot: axial depth, and no more.
fn slot_milling(alloc: Global, number: u32) -> Result<Instance, Memory>
    ensures { IfOk result (λ i. i ≡ instance number "BOTTOM_AND_SIDE_FINISH_MILLING" slot_params) }
{
    let behind = [
        Absent,
        Absent,
        Absent,
        Absent,
        Absent,
        Real(b"2."),
        Absent,
        Absent,
        Absent,
    ];
    operation(
        alloc,
        number,
        b"BOTTOM_AND_SIDE_FINISH_MILLING",
        12,
        &behind,
    )
}

fn slot_rest(alloc: Global, n: u32, length: u32) -> Result<Vec<Instance>, Memory>
    requires { n < 2 ^ 31 }
    ensures { IfOk result (λ rows. rows.items ≡ slot_rest n length) }
{
    let course = [Absent, Ref(n + 8), Ref(19)];
    let profile = [Absent, Ref(23), Absent, Absent, Absent, Absent];
    let mut rows = Vec::new(alloc);
    rows.push(instance(alloc, n + 6, b"LINEAR_PATH", &course)?)?;
    rows.push(instance(alloc, n + 7, b"SQUARE_U_PROFILE", &profile)?)?;
    rows.push(size(alloc, n + 8, Whole(length))?)?;
    rows.push(slot_milling(alloc, n + 9)?)?;
    rows.push(workingstep(alloc, n + 10, n, n + 9)?)?;
    Ok(rows)
}

/// An operation of this keyword: two fields before its tool, its tool, its technology and these.
fn operation(
    alloc: Global,
    number: u32,
    keyword: &[u8],
    tool: u32,
    behind: &[Field],
) -> Result<Instance, Memory>
    ensures { IfOk result (λ i. i ≡ simple number keyword.now (operation_params tool (map param_of behind.now))) }
{
    let front = [
        Absent,
        Absent,
        Text(b""),
        Absent,
        Absent,
        Ref(tool),
        Ref(18),
    ];
    joined(alloc, number, keyword, &front, behind)
}

fn workingstep(alloc: Global, number: u32, feature: u32, operation: u32) -> Result<Instance, Memory>
    ensures { IfOk result (λ i. i ≡ workingstep number feature operation) }
{
    let fields = [Text(b""), Ref(6), Ref(feature), Ref(operation), Absent];
    instance(alloc, number, b"MACHINING_WORKINGSTEP", &fields)
}
