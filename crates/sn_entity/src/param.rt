//! The parameters of an instance, by their kinds.
ghost use Rattle.std.specs.Prelude.{◌≡◌, ◌↔◌, ◌⊎◌, ℕ, List, IsTrue, IfSome, IfNone, IfOk, IfErr};
ghost use Rattle.sn_entity.specs.Measure.{IsSmall};
ghost use Rattle.sn_entity.specs.Form.{IsThrough, IsSpelled, IsLack, IsNumeric, HasValue, GivesNumber, AreRefs, GivesText, GivesOne, GivesMany, GivesTwo, GivesThree, GivesPair, GivesTriple, GivesLack, GivesZero, GivesOwn, AreTwoNumeric, AreThreeNumeric, Gives, HasForm, MayLack, ReadGives, ReadHasForm};
ghost use Rattle.sn_entity.specs.Refusal.{IsRefused};

use crate::measure::{
    Measure, coordinate, diameter, edge_radius, feed, is_number_text, length_from, ratio,
    read_zero, speed, thousandths,
};
use crate::refusal::Refusal;
use crate::row::{Kind, Read};
use crate::value::{Bytes, Refs, Value};
use sn_p21::Param;
use std::alloc::Global;

/// The parameter, or the one within a typed parameter.
fn through(param: &Param) -> &Param
    ensures { IsThrough param.now result.now }
{
    if let Param::Typed(_, inner) = param
        && let [one] = inner.as_slice()
    {
        return one;
    }
    param
}

/// How a number is spelled.
fn spelling(param: &Param) -> Option<&[u8]>
    ensures found { IfSome result (λ text. IsSpelled param.now text.now) }
    ensures none { IfNone result ((text : List ℕ) → ¬ (IsSpelled param.now text)) }
{
    match through(param) {
        Param::Int(text) => Some(text.as_slice()),
        Param::Real(text) => Some(text.as_slice()),
        _ => None,
    }
}

/// Whether `$` or `*` stands there.
fn is_lack(param: &Param) -> bool
    ensures { IsTrue result ↔ IsLack param.now }
{
    matches!(param, Param::Absent | Param::Derived)
}

/// A number, by its measure.
fn number(param: &Param, measure: &Measure) -> Result<i32, Refusal>
    requires { IsSmall measure.now }
    ensures found { IfOk result (HasValue measure.now param.now) }
    ensures refused { IfErr result (λ why. IsRefused why (IsNumeric param.now) (HasValue measure.now param.now)) }
{
    let Some(text) = spelling(param) else {
        return Err(Refusal::Kind);
    };
    measure.read(text)
}

/// The value of a number, by its measure.
fn numeric(param: &Param, measure: &Measure) -> Result<Value, Refusal>
    requires { IsSmall measure.now }
    ensures found { IfOk result (GivesNumber measure.now param.now) }
    ensures refused { IfErr result (λ why. IsRefused why (IsNumeric param.now) (GivesNumber measure.now param.now)) }
{
    Ok(Value::Num(number(param, measure)?))
}

/// The number of the instance that a reference names.
fn reference(param: &Param) -> Option<u32>
    ensures found { IfSome result (λ number. IsThrough param.now (Param.Ref number)) }
    ensures none { IfNone result ((number : ℕ) → ¬ (IsThrough param.now (Param.Ref number))) }
{
    match through(param) {
        Param::Ref(number) => Some(*number),
        _ => None,
    }
}

/// A reference.
fn one(param: &Param) -> Result<Value, Refusal>
    ensures found { IfOk result (GivesOne param.now) }
    ensures refused { IfErr result (λ why. IsRefused why ((v : Value) × GivesOne param.now v) (GivesOne param.now)) }
{
    match reference(param) {
        Some(number) => Ok(Value::One(number)),
        None => Err(Refusal::Kind),
    }
}

/// The references of a list.
fn references(alloc: Global, params: &[Param]) -> Result<Refs, Refusal>
    ensures found { IfOk result (AreRefs params.now) }
    ensures refused { IfErr result (λ why. IsRefused why ((ns : List ℕ) × AreRefs params.now ns) (AreRefs params.now)) }
{
    let mut refs = Refs::new(alloc);
    for param in params {
        let Some(number) = reference(param) else {
            return Err(Refusal::Kind);
        };
        refs.push(number)?;
    }
    Ok(refs)
}

/// A list of references.
fn many(alloc: Global, param: &Param) -> Result<Value, Refusal>
    ensures found { IfOk result (GivesMany param.now) }
    ensures refused { IfErr result (λ why. IsRefused why ((v : Value) × GivesMany param.now v) (GivesMany param.now)) }
{
    let Param::List(params) = param else {
        return Err(Refusal::Kind);
    };
    Ok(Value::Many(references(alloc, params.as_slice())?))
}

/// A string.
fn text(alloc: Global, param: &Param) -> Result<Value, Refusal>
    ensures found { IfOk result (GivesText param.now) }
    ensures refused { IfErr result (λ why. IsRefused why ((v : Value) × GivesText param.now v) (GivesText param.now)) }
{
    let Param::Text(text) = through(param) else {
        return Err(Refusal::Kind);
    };
    let text = Bytes::from_slice(alloc, text.as_slice())?;
    Ok(Value::Text(text))
}

/// Whether a number stands there, whatever its limits.
fn is_numeric(param: &Param) -> bool
    ensures { IsTrue result ↔ IsNumeric param.now }
{
    match spelling(param) {
        Some(text) => is_number_text(text),
        None => false,
    }
}

/// Two coordinates, of which the third is 0. The form of both goes before their limits.
fn two(a: &Param, b: &Param, measure: &Measure) -> Result<Value, Refusal>
    requires { IsSmall measure.now }
    ensures found { IfOk result (GivesTwo measure.now a.now b.now) }
    ensures refused { IfErr result (λ why. IsRefused why (IsNumeric a.now × IsNumeric b.now) (GivesTwo measure.now a.now b.now)) }
{
    if !is_numeric(b) {
        return Err(Refusal::Kind);
    }
    let x = number(a, measure)?;
    let y = number(b, measure)?;
    Ok(Value::Triple(x, y, 0))
}

/// Three coordinates. The form of all goes before their limits.
fn three(a: &Param, b: &Param, c: &Param, measure: &Measure) -> Result<Value, Refusal>
    requires { IsSmall measure.now }
    ensures found { IfOk result (GivesThree measure.now a.now b.now c.now) }
    ensures refused { IfErr result (λ why. IsRefused why (IsNumeric a.now × IsNumeric b.now × IsNumeric c.now)
        (GivesThree measure.now a.now b.now c.now)) }
{
    if !is_numeric(b) {
        return Err(Refusal::Kind);
    }
    if !is_numeric(c) {
        return Err(Refusal::Kind);
    }
    let x = number(a, measure)?;
    let y = number(b, measure)?;
    let z = number(c, measure)?;
    Ok(Value::Triple(x, y, z))
}

/// The parameters of a list.
fn list(param: &Param) -> Option<&[Param]>
    ensures found { IfSome result (λ params. param.now ≡ Param.List params.now) }
    ensures none { IfNone result ((params : List Param) → ¬ (param.now ≡ Param.List params)) }
{
    match param {
        Param::List(params) => Some(params.as_slice()),
        _ => None,
    }
}

/// A list of three numbers.
fn triple(param: &Param, measure: &Measure) -> Result<Value, Refusal>
    requires { IsSmall measure.now }
    ensures found { IfOk result (GivesTriple measure.now param.now) }
    ensures refused { IfErr result (λ why. IsRefused why (AreThreeNumeric param.now) (GivesTriple measure.now param.now)) }
{
    let Some(params) = list(param) else {
        return Err(Refusal::Kind);
    };
    if params.len() != 3 {
        return Err(Refusal::Kind);
    }
    three(&params[0], &params[1], &params[2], measure)
}

/// A point: a list of two or three coordinates.
fn point(param: &Param, measure: &Measure) -> Result<Value, Refusal>
    requires { IsSmall measure.now }
    ensures found { IfOk result (λ v. GivesPair measure.now param.now v ⊎ GivesTriple measure.now param.now v) }
    ensures refused { IfErr result (λ why. IsRefused why (AreTwoNumeric param.now ⊎ AreThreeNumeric param.now)
        (λ v. GivesPair measure.now param.now v ⊎ GivesTriple measure.now param.now v)) }
{
    let Some(params) = list(param) else {
        return Err(Refusal::Kind);
    };
    if params.len() == 2 {
        return two(&params[0], &params[1], measure);
    }
    triple(param, measure)
}

/// No value.
fn lack(param: &Param) -> Result<Value, Refusal>
    ensures found { IfOk result (GivesLack param.now) }
    ensures refused { IfErr result (λ why. IsRefused why ((v : Value) × GivesLack param.now v) (GivesLack param.now)) }
{
    if is_lack(param) {
        Ok(Value::Nothing)
    } else {
        Err(Refusal::Kind)
    }
}

/// No value, or a number that is 0.
fn zero(param: &Param) -> Result<Value, Refusal>
    ensures found { IfOk result (GivesZero param.now) }
    ensures refused { IfErr result (λ why. IsRefused why (IsLack param.now ⊎ IsNumeric param.now) (GivesZero param.now)) }
{
    if is_lack(param) {
        return Ok(Value::Nothing);
    }
    let Some(text) = spelling(param) else {
        return Err(Refusal::Kind);
    };
    read_zero(text)?;
    Ok(Value::Nothing)
}

/// The number of a reference, where one stands there itself.
fn own(param: &Param) -> Value
    ensures { GivesOwn param.now result }
{
    match param {
        Param::Ref(number) => Value::One(*number),
        _ => Value::Nothing,
    }
}

/// What a parameter of a kind gives.
fn of_kind(alloc: Global, param: &Param, kind: Kind) -> Result<Value, Refusal>
    ensures found { IfOk result (Gives kind param.now) }
    ensures refused { IfErr result (λ why. IsRefused why (HasForm kind param.now) (Gives kind param.now)) }
{
    match kind {
        Kind::L => numeric(param, &coordinate()),
        Kind::L0 => numeric(param, &length_from(0)),
        Kind::L1 => numeric(param, &length_from(1)),
        Kind::Dia => numeric(param, &diameter()),
        Kind::Edge => numeric(param, &edge_radius()),
        Kind::Feed => numeric(param, &feed()),
        Kind::Speed => numeric(param, &speed()),
        Kind::N => numeric(param, &thousandths()),
        Kind::P => point(param, &coordinate()),
        Kind::V => triple(param, &ratio()),
        Kind::T => text(alloc, param),
        Kind::Z => lack(param),
        Kind::Z0 => zero(param),
        Kind::R(_) => one(param),
        Kind::RL(_) => many(alloc, param),
        Kind::B => Ok(own(param)),
    }
}

/// Whether `$` or `*` stands where it may.
fn is_left_out(read: &Read, param: &Param) -> bool
    ensures { IsTrue result ↔ MayLack read.now param.now }
{
    read.may_lack && is_lack(param)
}

/// What a parameter that is read gives.
pub fn read_param(alloc: Global, read: &Read, param: &Param) -> Result<Value, Refusal>
    ensures found { IfOk result (ReadGives read.now param.now) }
    ensures refused { IfErr result (λ why. IsRefused why (ReadHasForm read.now param.now) (ReadGives read.now param.now)) }
{
    if is_left_out(read, param) {
        return Ok(Value::Nothing);
    }
    of_kind(alloc, param, read.kind)
}
