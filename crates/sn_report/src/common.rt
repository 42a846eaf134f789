//! The header of the generated part, and the instances that its features share.
ghost use Rattle.std.specs.Prelude.{◌≡◌, IfOk};
ghost use Rattle.sn_report.specs.Generated as spec;

use crate::params::Field::{Absent, Enum, Int, Real, Ref, Refs, Text, Texts};
use crate::params::{entity, instance, placement, point, size, vector};
use sn_geom::Memory;
use sn_p21::{Entities, Entity, Instance};
use sqlite_items::Items;
use std::alloc::Global;

/// The entities of the header.
pub fn header(alloc: Global) -> Result<Entities, Memory>
    ensures { IfOk result (λ entities. entities ≡ spec.header) }
{
    let mut entities = Vec::new(alloc);
    entities.push(description(alloc)?)?;
    entities.push(file_name(alloc)?)?;
    entities.push(schema(alloc)?)?;
    Ok(Items::from_vec(entities))
}

fn description(alloc: Global) -> Result<Entity, Memory>
    ensures { IfOk result (λ e. e ≡ spec.description) }
{
    let fields = [Texts(&[b"one hole"]), Text(b"1")];
    entity(alloc, b"FILE_DESCRIPTION", &fields)
}

fn file_name(alloc: Global) -> Result<Entity, Memory>
    ensures { IfOk result (λ e. e ≡ spec.file_name) }
{
    let fields = [
        Text(b"one.stp"),
        Text(b"2024-01-01"),
        Texts(&[b"a"]),
        Texts(&[b"b"]),
        Text(b""),
        Text(b""),
        Text(b""),
    ];
    entity(alloc, b"FILE_NAME", &fields)
}

fn schema(alloc: Global) -> Result<Entity, Memory>
    ensures { IfOk result (λ e. e ≡ spec.schema) }
{
    let fields = [Texts(&[b"MACHINING_SCHEMA", b"MILLING_SCHEMA"])];
    entity(alloc, b"FILE_SCHEMA", &fields)
}

/// The instances that the features share: the project with these workingsteps, the setup, the block of 160 by 160 by 20 mm,
/// two tools, and what the features refer to.
pub fn common_instances(alloc: Global, steps: &[u32]) -> Result<Vec<Instance>, Memory>
    ensures { IfOk result (λ rows. rows.items ≡ spec.common_instances steps.now) }
{
    let mut rows = project_instances(alloc, steps)?;
    rows.append(&mut origin_instances(alloc)?)?;
    rows.append(&mut tool_instances(alloc)?)?;
    rows.append(&mut shared_instances(alloc)?)?;
    Ok(rows)
}

fn project_instances(alloc: Global, steps: &[u32]) -> Result<Vec<Instance>, Memory>
    ensures { IfOk result (λ rows. rows.items ≡ spec.project_instances steps.now) }
{
    let mut rows = Vec::new(alloc);
    rows.push(project(alloc)?)?;
    rows.push(workplan(alloc, steps)?)?;
    rows.push(workpiece(alloc)?)?;
    rows.push(setup(alloc)?)?;
    rows.push(block(alloc)?)?;
    rows.push(security(alloc)?)?;
    rows.push(workpiece_setup(alloc)?)?;
    Ok(rows)
}

fn project(alloc: Global) -> Result<Instance, Memory>
    ensures { IfOk result (λ i. i ≡ spec.project) }
{
    let fields = [Text(b"TRIAL"), Ref(2), Refs(&[3]), Absent, Absent, Absent];
    instance(alloc, 1, b"PROJECT", &fields)
}

fn workplan(alloc: Global, steps: &[u32]) -> Result<Instance, Memory>
    ensures { IfOk result (λ i. i ≡ spec.workplan steps.now) }
{
    let fields = [Text(b"MAIN"), Refs(steps), Absent, Ref(4), Absent];
    instance(alloc, 2, b"WORKPLAN", &fields)
}

fn workpiece(alloc: Global) -> Result<Instance, Memory>
    ensures { IfOk result (λ i. i ≡ spec.workpiece) }
{
    let fields = [
        Text(b"BLOCK"),
        Absent,
        Absent,
        Absent,
        Absent,
        Ref(5),
        Refs(&[]),
    ];
    instance(alloc, 3, b"WORKPIECE", &fields)
}

fn setup(alloc: Global) -> Result<Instance, Memory>
    ensures { IfOk result (λ i. i ≡ spec.setup) }
{
    let fields = [Text(b"SETUP"), Absent, Ref(6), Refs(&[7])];
    instance(alloc, 4, b"SETUP", &fields)
}

fn block(alloc: Global) -> Result<Instance, Memory>
    ensures { IfOk result (λ i. i ≡ spec.block) }
{
    let fields = [
        Text(b"RAW"),
        Ref(8),
        Real(b"160."),
        Real(b"160."),
        Real(b"20."),
    ];
    instance(alloc, 5, b"BLOCK", &fields)
}

fn security(alloc: Global) -> Result<Instance, Memory>
    ensures { IfOk result (λ i. i ≡ spec.security) }
{
    instance(alloc, 6, b"PLANE", &[Text(b"SECURITY"), Ref(9)])
}

fn workpiece_setup(alloc: Global) -> Result<Instance, Memory>
    ensures { IfOk result (λ i. i ≡ spec.workpiece_setup) }
{
    let fields = [Ref(3), Ref(8), Absent, Absent, Refs(&[])];
    instance(alloc, 7, b"WORKPIECE_SETUP", &fields)
}

fn origin_instances(alloc: Global) -> Result<Vec<Instance>, Memory>
    ensures { IfOk result (λ rows. rows.items ≡ spec.origin_instances) }
{
    let mut rows = Vec::new(alloc);
    rows.push(placement(alloc, 8, 10)?)?;
    rows.push(placement(alloc, 9, 11)?)?;
    rows.push(above_origin(alloc, 10, b"0.")?)?;
    rows.push(above_origin(alloc, 11, b"30.")?)?;
    Ok(rows)
}

/// The point at this height above the origin.
fn above_origin(alloc: Global, number: u32, height: &[u8]) -> Result<Instance, Memory>
    ensures { IfOk result (λ i. i ≡ spec.above_origin number height.now) }
{
    point(alloc, number, &[Real(b"0."), Real(b"0."), Real(height)])
}

fn tool_instances(alloc: Global) -> Result<Vec<Instance>, Memory>
    ensures { IfOk result (λ rows. rows.items ≡ spec.tool_instances) }
{
    let mut rows = Vec::new(alloc);
    rows.push(tool(alloc, 12, b"MILL", 13)?)?;
    rows.push(tool_body(alloc, 13, b"ENDMILL", 14, b"4")?)?;
    rows.push(mill_dimension(alloc)?)?;
    rows.push(tool(alloc, 15, b"DRILL", 16)?)?;
    rows.push(tool_body(alloc, 16, b"TWIST_DRILL", 17, b"2")?)?;
    rows.push(drill_dimension(alloc)?)?;
    rows.push(technology(alloc)?)?;
    Ok(rows)
}

fn tool(alloc: Global, number: u32, name: &[u8], body: u32) -> Result<Instance, Memory>
    ensures { IfOk result (λ i. i ≡ spec.tool number name.now body) }
{
    let fields = [
        Text(name),
        Ref(body),
        Refs(&[]),
        Real(b"80."),
        Absent,
        Absent,
    ];
    instance(alloc, number, b"CUTTING_TOOL", &fields)
}

/// The body of a tool: an end mill or a twist drill with its dimension and so many teeth.
fn tool_body(
    alloc: Global,
    number: u32,
    keyword: &[u8],
    dimension: u32,
    teeth: &[u8],
) -> Result<Instance, Memory>
    ensures { IfOk result (λ i. i ≡ spec.tool_body number keyword.now dimension teeth.now) }
{
    let fields = [
        Ref(dimension),
        Int(teeth),
        Enum(b"RIGHT"),
        Enum(b"F"),
        Absent,
        Absent,
    ];
    instance(alloc, number, keyword, &fields)
}

fn mill_dimension(alloc: Global) -> Result<Instance, Memory>
    ensures { IfOk result (λ i. i ≡ spec.mill_dimension) }
{
    let fields = [
        Real(b"8."),
        Absent,
        Absent,
        Real(b"30."),
        Real(b"0."),
        Absent,
        Absent,
    ];
    instance(alloc, 14, b"MILLING_TOOL_DIMENSION", &fields)
}

fn drill_dimension(alloc: Global) -> Result<Instance, Memory>
    ensures { IfOk result (λ i. i ≡ spec.drill_dimension) }
{
    let fields = [
        Real(b"10."),
        Absent,
        Absent,
        Real(b"60."),
        Absent,
        Absent,
        Absent,
    ];
    instance(alloc, 17, b"MILLING_TOOL_DIMENSION", &fields)
}

fn technology(alloc: Global) -> Result<Instance, Memory>
    ensures { IfOk result (λ i. i ≡ spec.technology) }
{
    let fields = [
        Real(b"0.02"),
        Enum(b"TCP"),
        Absent,
        Real(b"-50."),
        Absent,
        Enum(b"F"),
        Enum(b"F"),
        Enum(b"F"),
        Absent,
    ];
    instance(alloc, 18, b"MILLING_TECHNOLOGY", &fields)
}

fn shared_instances(alloc: Global) -> Result<Vec<Instance>, Memory>
    ensures { IfOk result (λ rows. rows.items ≡ spec.shared_instances) }
{
    let mut rows = Vec::new(alloc);
    rows.push(course(alloc)?)?;
    rows.push(instance(alloc, 20, b"THROUGH_BOTTOM_CONDITION", &[])?)?;
    rows.push(instance(alloc, 21, b"PLANAR_POCKET_BOTTOM_CONDITION", &[])?)?;
    rows.push(size(alloc, 22, Real(b"10."))?)?;
    rows.push(size(alloc, 23, Real(b"8."))?)?;
    Ok(rows)
}

/// The direction of the slots.
fn course(alloc: Global) -> Result<Instance, Memory>
    ensures { IfOk result (λ i. i ≡ spec.course) }
{
    let ratios = [Real(b"1."), Real(b"0."), Real(b"0.")];
    vector(alloc, 19, b"DIRECTION", &ratios)
}
