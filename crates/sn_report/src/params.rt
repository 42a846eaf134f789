//! Parameters, entities and instances, made of fields.
ghost use Rattle.std.specs.Prelude.{◌≡◌, [], ◌∷◌, ◌++◌, decimal, map, IfOk};
ghost use Rattle.sn_p21.specs.declared.file.Param.TheVariants as param;
ghost use Rattle.sn_report.specs.Fields.{param_of};
ghost use Rattle.sn_report.specs.Generated.{whole, below_zero, to, text, simple, point, placement, size};

use itoa::Buffer;
use sn_geom::Memory;
use sn_p21::{Entity, Instance, Param};
use sqlite_items::Items;
use std::alloc::Global;

/// What a parameter is made of. It holds no memory.
#[derive(Clone, Copy)]
pub enum Field<'a> {
    /// A string with this value.
    Text(&'a [u8]),
    /// An integer of this spelling.
    Int(&'a [u8]),
    /// A real of this spelling.
    Real(&'a [u8]),
    /// An enumeration value of this name.
    Enum(&'a [u8]),
    /// A whole number as a real.
    Whole(u32),
    /// A whole number below zero as a real.
    BelowZero(u32),
    /// The number of an instance.
    Ref(u32),
    /// No value.
    Absent,
    /// A list of strings.
    Texts(&'a [&'a [u8]]),
    /// A list of the numbers of instances.
    Refs(&'a [u32]),
}

/// The parameter of a field.
fn param(alloc: Global, field: Field) -> Result<Param, Memory>
    ensures { IfOk result (λ p. p ≡ param_of field.entry) }
{
    Ok(match field {
        Field::Text(value) => Param::Text(Items::from_slice(alloc, value)?),
        Field::Int(spelling) => Param::Int(Items::from_slice(alloc, spelling)?),
        Field::Real(spelling) => Param::Real(Items::from_slice(alloc, spelling)?),
        Field::Enum(name) => Param::Enum(Items::from_slice(alloc, name)?),
        Field::Whole(n) => Param::Real(Items::from_vec(whole(alloc, n)?)),
        Field::BelowZero(n) => Param::Real(Items::from_vec(below_zero(alloc, n)?)),
        Field::Ref(n) => Param::Ref(n),
        Field::Absent => Param::Absent,
        Field::Texts(values) => Param::List(Items::from_vec(texts(alloc, values)?)),
        Field::Refs(numbers) => Param::List(Items::from_vec(refs(alloc, numbers)?)),
    })
}

/// The spelling of a whole number as a real.
fn whole(alloc: Global, n: u32) -> Result<Vec<u8>, Memory>
    ensures { IfOk result (λ spelling. param.Real spelling.items ≡ whole n) }
{
    let mut spelling = digits(alloc, n)?;
    spelling.push(b'.')?;
    Ok(spelling)
}

/// The spelling of a whole number below zero as a real.
fn below_zero(alloc: Global, n: u32) -> Result<Vec<u8>, Memory>
    ensures { IfOk result (λ spelling. param.Real spelling.items ≡ below_zero n) }
{
    let mut spelling = Vec::from_slice(alloc, b"-")?;
    spelling.append(&mut digits(alloc, n)?)?;
    spelling.push(b'.')?;
    Ok(spelling)
}

/// The digits of a whole number.
fn digits(alloc: Global, n: u32) -> Result<Vec<u8>, Memory>
    ensures { IfOk result (λ digits. digits.items ≡ decimal n) }
{
    let mut buffer = Buffer::new();
    Ok(Vec::from_slice(alloc, buffer.format(n).as_bytes())?)
}

/// Strings with these values.
fn texts(alloc: Global, values: &[&[u8]]) -> Result<Vec<Param>, Memory>
    ensures { IfOk result (λ params. params.items ≡ map (λ value. param.Text value.now) values.now) }
{
    let mut params = Vec::new(alloc);
    for value in values {
        params.push(Param::Text(Items::from_slice(alloc, *value)?))?;
    }
    Ok(params)
}

/// The numbers of instances.
fn refs(alloc: Global, numbers: &[u32]) -> Result<Vec<Param>, Memory>
    ensures { IfOk result (λ params. params.items ≡ map to numbers.now) }
{
    Ok(numbers.iter().map(|n| Param::Ref(*n)).collect(alloc)?)
}

/// The parameters of fields.
fn params(alloc: Global, fields: &[Field]) -> Result<Vec<Param>, Memory>
    ensures { IfOk result (λ params. params.items ≡ map param_of fields.now) }
{
    let mut params = Vec::new(alloc);
    for field in fields {
        params.push(param(alloc, *field)?)?;
    }
    Ok(params)
}

/// An entity of this keyword.
fn entity_of(alloc: Global, keyword: &[u8], params: Vec<Param>) -> Result<Entity, Memory>
    ensures { IfOk result (λ e. e ≡ record { keyword = keyword.now; params = params.items }) }
{
    Ok(Entity {
        keyword: Items::from_slice(alloc, keyword)?,
        params: Items::from_vec(params),
    })
}

/// An entity of this keyword, with the parameters of these fields.
pub fn entity(alloc: Global, keyword: &[u8], fields: &[Field]) -> Result<Entity, Memory>
    ensures { IfOk result (λ e. e ≡ record { keyword = keyword.now; params = map param_of fields.now }) }
{
    entity_of(alloc, keyword, params(alloc, fields)?)
}

/// An instance of one part.
fn instance_of(
    alloc: Global,
    number: u32,
    keyword: &[u8],
    params: Vec<Param>,
) -> Result<Instance, Memory>
    ensures { IfOk result (λ i. i ≡ simple number keyword.now params.items) }
{
    let parts = vec![in alloc; entity_of(alloc, keyword, params)?]?;
    Ok(Instance {
        number,
        parts: Items::from_vec(parts),
    })
}

/// An instance of one part, with the parameters of these fields.
pub fn instance(
    alloc: Global,
    number: u32,
    keyword: &[u8],
    fields: &[Field],
) -> Result<Instance, Memory>
    ensures { IfOk result (λ i. i ≡ simple number keyword.now (map param_of fields.now)) }
{
    instance_of(alloc, number, keyword, params(alloc, fields)?)
}

/// An instance of one part, with the parameters of the fields in front and of those behind them.
pub fn joined(
    alloc: Global,
    number: u32,
    keyword: &[u8],
    front: &[Field],
    behind: &[Field],
) -> Result<Instance, Memory>
    ensures { IfOk result (λ i. i ≡ simple number keyword.now (map param_of front.now ++ map param_of behind.now)) }
{
    let mut row = params(alloc, front)?;
    row.append(&mut params(alloc, behind)?)?;
    instance_of(alloc, number, keyword, row)
}

/// A point or a direction: an instance of an empty string and the list of these components.
pub fn vector(
    alloc: Global,
    number: u32,
    keyword: &[u8],
    components: &[Field],
) -> Result<Instance, Memory>
    ensures { IfOk result (λ i. i ≡ simple number keyword.now (text "" ∷ param.List (map param_of components.now) ∷ [])) }
{
    let mut row = params(alloc, &[Field::Text(b"")])?;
    row.push(Param::List(Items::from_vec(params(alloc, components)?)))?;
    instance_of(alloc, number, keyword, row)
}

/// A point with these coordinates.
pub fn point(alloc: Global, number: u32, coordinates: &[Field]) -> Result<Instance, Memory>
    ensures { IfOk result (λ i. i ≡ point number (map param_of coordinates.now)) }
{
    vector(alloc, number, b"CARTESIAN_POINT", coordinates)
}

/// A placement at a point, along the axes.
pub fn placement(alloc: Global, number: u32, at: u32) -> Result<Instance, Memory>
    ensures { IfOk result (λ i. i ≡ placement number at) }
{
    let fields = [
        Field::Text(b""),
        Field::Ref(at),
        Field::Absent,
        Field::Absent,
    ];
    instance(alloc, number, b"AXIS2_PLACEMENT_3D", &fields)
}

/// A length.
pub fn size(alloc: Global, number: u32, value: Field) -> Result<Instance, Memory>
    ensures { IfOk result (λ i. i ≡ size number (param_of value.entry)) }
{
    instance(
        alloc,
        number,
        b"TOLERANCED_LENGTH_MEASURE",
        &[value, Field::Absent],
    )
}
