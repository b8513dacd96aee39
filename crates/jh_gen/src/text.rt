//! Generators as EDN values. `specs/GeneratorText.antt` has the rule, name by name.

ghost use Rattle.std.specs.Prelude.{◌≡◌, ◌<◌, ◌≤◌, [], Some, IfSome, MatchResult, option_map, is_some};
ghost use Rattle.jh_edn.specs.Edn.{size_of, size_list};
ghost use Rattle.jh_edn.specs.View.{view, views};
ghost use Rattle.jh_gen.specs.Generator.{reserve, row_of};
ghost use Rattle.jh_gen.specs.BadPart.{held_values, holds_in, holds_named, limit_holds, only_value};
ghost use Rattle.jh_gen.specs.GeneratorText as rule;
ghost use Rattle.jh_gen.specs.GeneratorText.{RefusesGenerator, parsed_call, parsed_generator};
ghost use Rattle.jh_gen.specs.GeneratorText.{generator_named, generator_of_operands};
ghost use Rattle.jh_gen.specs.ShapeInside.{EndsReading, parsed_members, operand_of, operands_in};
ghost use Rattle.jh_gen.specs.ShapeInside.{parsed_reserve};
ghost use Rattle.jh_gen.specs.ShapeInside.{shape_holds, shape_size, generator_of_shape};
ghost use Rattle.jh_gen.specs.View.{generator_of};
ghost use Rattle.jh_gen.specs.declared.text.GenTextError.TheVariants.{OutOfMemory};

use crate::generator::{Gen, Gens, Inner, Shares};
use crate::rise::Rise;
use jh_edn::Value;
use jh_ops::{Call, Request};
use std::alloc::{AllocError, AllocFailed, Global};
use thiserror::Error;

/// Why a value is refused as a generator.
#[derive(Clone, Copy, Debug, PartialEq, Eq, Error)]
pub enum GenTextError {
    #[error("bad generator")]
    BadGenerator,
    #[error("out of memory")]
    OutOfMemory,
}

impl From<AllocError> for GenTextError {
    ghost from_gives = { λ _ e. e ≡ OutOfMemory };

    fn from(_error: AllocError) -> GenTextError {
        GenTextError::OutOfMemory
    }
}

impl<T: Drop> From<AllocFailed<T>> for GenTextError {
    ghost from_gives = { λ _ e. e ≡ OutOfMemory };

    fn from(_error: AllocFailed<T>) -> GenTextError {
        GenTextError::OutOfMemory
    }
}

/// A generator's form, whose inner values are still to be read.
#[derive(Clone, Copy, Debug)]
pub(crate) enum GeneratorShape<'a> {
    Nil,
    Once(Call),
    Rising(Rise, i64),
    Forever(Call),
    Seq(&'a [Value]),
    Limit(u32, &'a Value),
    Mix(&'a [Value]),
    Phases(&'a [Value]),
    Reserve(&'a [Value]),
    EachThread(&'a Value),
    Clients(&'a Value),
    NemesisOnly(&'a Value),
}

/// The call that a name alone means, if it means one.
fn call_named(name: &str) -> Option<Call>
    ensures { result ≡ rule.call_named name.now }
{
    match name {
        "read" => Some(Call::Client(Request::Read)),
        "generate" => Some(Call::Client(Request::Generate)),
        "txn" => Some(Call::Client(Request::Txn)),
        _ => None,
    }
}

/// An integer as a number from 0 to 4,294,967,295, if it is one.
fn number_of(number: i64) -> Option<u32>
    ensures { result ≡ rule.small_number_of number }
{
    u32::try_from(number).ok()
}

/// The call of this name with one number, if there is one.
fn number_call(name: &str, number: i64) -> Option<Call>
    ensures { result ≡ rule.number_call name.now number }
{
    match name {
        "write" => Some(Call::Client(Request::Write(number))),
        "add" => Some(Call::Client(Request::Add(number))),
        "step" => Some(Call::Step(number_of(number)?)),
        _ => None,
    }
}

/// The call of these parts, the first its name, if there is one.
fn call_in(parts: &[Value]) -> Option<Call>
    ensures { result ≡ rule.call_in (views parts.now) }
{
    match parts {
        [Value::Keyword(name), Value::Int(number)] => number_call(name.as_str(), *number),
        [Value::Keyword(name), Value::Int(old), Value::Int(new)] if name.as_str() == "cas" => {
            Some(Call::Client(Request::Cas(*old, *new)))
        }
        _ => None,
    }
}

/// The call that a value means.
fn call_of(value: &Value) -> Option<Call>
    ensures { result ≡ parsed_call (view value.now) }
{
    match value {
        Value::Keyword(name) => call_named(name.as_str()),
        _ => call_in(value.elements()?),
    }
}

/// The only part.
fn only(parts: &[Value]) -> Option<&Value>
    ensures part { option_map (λ value. operand_of (view value.now)) result
        ≡ rule.only_operand (operands_in (views parts.now)) }
    ensures value { option_map (λ value. view value.now) result ≡ only_value (views parts.now) }
    ensures smaller { IfSome result
        (λ value. size_of (view value.now) < size_list (views parts.now)) }
{
    match parts {
        [part] => Some(part),
        _ => None,
    }
}

/// The call that the only part means.
fn one_call(parts: &[Value]) -> Option<Call>
    ensures { result ≡ rule.one_call (operands_in (views parts.now)) }
{
    call_of(only(parts)?)
}

/// The integer that is the only part.
fn one_integer(parts: &[Value]) -> Option<i64>
    ensures { result ≡ rule.one_integer (operands_in (views parts.now)) }
{
    match only(parts)? {
        Value::Int(number) => Some(*number),
        _ => None,
    }
}

/// The number from 0 to 4,294,967,295 that a value means, if it means one.
pub(crate) fn number_in(value: &Value) -> Option<u32>
    ensures { result ≡ rule.number_in (operand_of (view value.now)) }
{
    match value {
        Value::Int(number) => number_of(*number),
        _ => None,
    }
}

/// The form of `nil`, which has no parts behind its name.
fn shape_of_none(parts: &[Value]) -> Option<GeneratorShape<'_>>
    ensures parsed { generator_of_shape result
        ≡ rule.generator_of_none (operands_in (views parts.now)) }
    ensures held { shape_holds result ≡ [] }
    ensures smaller { IfSome result (λ shape. shape_size shape ≤ size_list (views parts.now)) }
{
    match parts {
        [] => Some(GeneratorShape::Nil),
        _ => None,
    }
}

/// The form of a limit with these parts, a number and what is limited.
fn limited(parts: &[Value]) -> Option<GeneratorShape<'_>>
    ensures parsed { generator_of_shape result
        ≡ rule.limit_operands (operands_in (views parts.now)) }
    ensures held { shape_holds result ≡ limit_holds (views parts.now) }
    ensures smaller { IfSome result (λ shape. shape_size shape ≤ size_list (views parts.now)) }
{
    match parts {
        [number, inner] => Some(GeneratorShape::Limit(number_in(number)?, inner)),
        _ => None,
    }
}

/// The form of this name with these parts.
fn shape_by<'a>(name: &str, parts: &'a [Value]) -> Option<GeneratorShape<'a>>
    ensures parsed { generator_of_shape result
        ≡ generator_named name.now (operands_in (views parts.now)) }
    ensures held { shape_holds result ≡ holds_named name.now (views parts.now) }
    ensures smaller { IfSome result (λ shape. shape_size shape ≤ size_list (views parts.now)) }
{
    match name {
        "nil" => shape_of_none(parts),
        "once" => Some(GeneratorShape::Once(one_call(parts)?)),
        "rising" => Some(GeneratorShape::Rising(Rise::Adds, one_integer(parts)?)),
        "rising-write" => Some(GeneratorShape::Rising(Rise::Writes, one_integer(parts)?)),
        "forever" => Some(GeneratorShape::Forever(one_call(parts)?)),
        "seq" => Some(GeneratorShape::Seq(parts)),
        "limit" => limited(parts),
        "mix" => Some(GeneratorShape::Mix(parts)),
        "phases" => Some(GeneratorShape::Phases(parts)),
        "reserve" => Some(GeneratorShape::Reserve(parts)),
        "each-thread" => Some(GeneratorShape::EachThread(only(parts)?)),
        "clients" => Some(GeneratorShape::Clients(only(parts)?)),
        "nemesis" => Some(GeneratorShape::NemesisOnly(only(parts)?)),
        _ => None,
    }
}

/// The name of a keyword, if the value is one.
pub(crate) fn keyword_name(value: &Value) -> Option<&str>
    ensures { option_map (λ name. name.now) result ≡ rule.keyword_name (view value.now) }
{
    match value {
        Value::Keyword(name) => Some(name.as_str()),
        _ => None,
    }
}

/// The form of these parts, the first its name.
fn shape_in(parts: &[Value]) -> Option<GeneratorShape<'_>>
    ensures parsed { generator_of_shape result
        ≡ generator_of_operands (operands_in (views parts.now)) }
    ensures held { shape_holds result ≡ holds_in (views parts.now) }
    ensures smaller { IfSome result (λ shape. shape_size shape ≤ size_list (views parts.now)) }
{
    match parts {
        [] => None,
        [name, rest @ ..] => shape_by(keyword_name(name)?, rest),
    }
}

/// The form of a value, if it has one.
pub(crate) fn shape_of(value: &Value) -> Option<GeneratorShape<'_>>
    ensures parsed { generator_of_shape result ≡ parsed_generator (view value.now) }
    ensures held { shape_holds result ≡ held_values (view value.now) }
    ensures smaller { IfSome result (λ shape. shape_size shape < size_of (view value.now)) }
{
    shape_in(value.elements()?)
}

/// Whether a value means a generator.
#[cycle(judge)]
pub(crate) fn is_generator(value: &Value) -> bool
    ensures { result ≡ is_some (parsed_generator (view value.now)) }
{
    let Some(shape) = shape_of(value) else {
        return false;
    };
    match shape {
        GeneratorShape::Nil => true,
        GeneratorShape::Once(_) => true,
        GeneratorShape::Rising(_, _) => true,
        GeneratorShape::Forever(_) => true,
        GeneratorShape::Seq(parts) => are_generators(parts),
        GeneratorShape::Limit(_, inner) => is_generator(inner),
        GeneratorShape::Mix(parts) => are_generators(parts),
        GeneratorShape::Phases(parts) => are_generators(parts),
        GeneratorShape::Reserve(parts) => are_reserved(parts),
        GeneratorShape::EachThread(inner) => is_generator(inner),
        GeneratorShape::Clients(inner) => is_generator(inner),
        GeneratorShape::NemesisOnly(inner) => is_generator(inner),
    }
}

/// Whether each part means a generator.
#[cycle(judge)]
fn are_generators(parts: &[Value]) -> bool
    ensures { result ≡ is_some (parsed_members (views parts.now)) }
{
    for part in parts {
        if !is_generator(part) {
            return false;
        }
    }
    true
}

/// Whether these are numbers, each with a generator, and a generator behind them.
#[cycle(judge)]
fn are_reserved(parts: &[Value]) -> bool
    ensures { result ≡ is_some (parsed_reserve (views parts.now)) }
{
    let mut rest = parts;
    while let [number, part, later @ ..] = rest {
        if number_in(number).is_none() || !is_generator(part) {
            return false;
        }
        rest = later;
    }
    match rest {
        [inner] => is_generator(inner),
        _ => false,
    }
}

/// The generator that a value means, or why none is made: the first error that is met on the way.
#[cycle(read)]
fn gen_in(alloc: Global, value: &Value) -> Result<Gen, GenTextError>
    ensures { MatchResult result
        (λ source. parsed_generator (view value.now) ≡ Some (generator_of source))
        (EndsReading (parsed_generator (view value.now))) }
{
    let Some(shape) = shape_of(value) else {
        return Err(GenTextError::BadGenerator);
    };
    match shape {
        GeneratorShape::Nil => Ok(Gen::Nil),
        GeneratorShape::Once(call) => Ok(Gen::Once(call)),
        GeneratorShape::Rising(rise, first) => Ok(Gen::Rising(rise, first)),
        GeneratorShape::Forever(call) => Ok(Gen::Forever(call)),
        GeneratorShape::Seq(parts) => Ok(Gen::Seq(members_in(alloc, parts)?)),
        GeneratorShape::Limit(most, inner) => Ok(Gen::Limit(most, inner_in(alloc, inner)?)),
        GeneratorShape::Mix(parts) => Ok(Gen::Mix(members_in(alloc, parts)?)),
        GeneratorShape::Phases(parts) => Ok(Gen::Phases(members_in(alloc, parts)?)),
        GeneratorShape::Reserve(parts) => reserve_in(alloc, parts),
        GeneratorShape::EachThread(inner) => Ok(Gen::EachThread(inner_in(alloc, inner)?)),
        GeneratorShape::Clients(inner) => Ok(Gen::Clients(inner_in(alloc, inner)?)),
        GeneratorShape::NemesisOnly(inner) => Ok(Gen::NemesisOnly(inner_in(alloc, inner)?)),
    }
}

/// The generator that a value means, to be held by another one, or the first error on the way.
#[cycle(read)]
fn inner_in(alloc: Global, value: &Value) -> Result<Inner, GenTextError>
    ensures { MatchResult result
        (λ inner. parsed_generator (view value.now) ≡ Some inner)
        (EndsReading (parsed_generator (view value.now))) }
{
    Ok(Inner::of(alloc, gen_in(alloc, value)?)?)
}

/// The generators that the parts mean, or the first error on the way.
#[cycle(read)]
fn members_in(alloc: Global, parts: &[Value]) -> Result<Gens, GenTextError>
    ensures { MatchResult result
        (λ members. parsed_members (views parts.now) ≡ Some (row_of members))
        (EndsReading (parsed_members (views parts.now))) }
{
    let mut members = Vec::new(alloc);
    for part in parts {
        members.push(gen_in(alloc, part)?)?;
    }
    Ok(Gens::of(members))
}

/// The reserve that the parts mean, or the first error on the way.
#[cycle(read)]
fn reserve_in(alloc: Global, parts: &[Value]) -> Result<Gen, GenTextError>
    ensures { MatchResult result
        (λ source. option_map (λ r. reserve r.0 r.1) (parsed_reserve (views parts.now))
        ≡ Some (generator_of source))
        (EndsReading (parsed_reserve (views parts.now))) }
{
    let mut shares = Vec::new(alloc);
    let mut rest = parts;
    while let [number, part, later @ ..] = rest {
        let Some(count) = number_in(number) else {
            return Err(GenTextError::BadGenerator);
        };
        shares.push((count, gen_in(alloc, part)?))?;
        rest = later;
    }
    match rest {
        [inner] => Ok(Gen::Reserve(Shares::of(shares), inner_in(alloc, inner)?)),
        _ => Err(GenTextError::BadGenerator),
    }
}

/// The generator that a value means: a vector or a list of a name and what belongs to it, one of
/// `[:nil]`, `[:once CALL]`, `[:rising N]`, `[:rising-write N]`, `[:forever CALL]`, `[:seq G ..]`,
/// `[:limit N G]`, `[:mix G ..]`, `[:phases G ..]`, `[:reserve N1 G1 .. D]`, `[:each-thread G]`,
/// `[:clients G]` and `[:nemesis G]`. A call is `:read`, `[:write N]`, `[:cas OLD NEW]`, `[:add N]`,
/// `:generate`, `:txn` or `[:step I]`. The numbers of a limit, a reserve and a step are from 0 to
/// 4,294,967,295, the others any of 64 bits.
///
/// Takes time linear in the value.
///
/// Errors, in this order: `BadGenerator` for any other value; `OutOfMemory`.
pub fn gen_of_value(alloc: Global, value: &Value) -> Result<Gen, GenTextError>
    ensures { MatchResult result
        (λ source. parsed_generator (view value.now) ≡ Some (generator_of source))
        (RefusesGenerator (view value.now)) }
{
    match gen_in(alloc, value) {
        // What was not read yet may mean nothing, which is the first reason to refuse it.
        Err(GenTextError::OutOfMemory) if !is_generator(value) => Err(GenTextError::BadGenerator),
        answer => answer,
    }
}
