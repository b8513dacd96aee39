//! Which part of a value is why the value is no generator. `specs/BadPart.antt` has the rule, and says
//! what a form holds: a new kind of generator is a new line of its `holds_named`.

ghost use Rattle.std.specs.Prelude.{◌≡◌, ◌<◌, ◌≤◌, [], ◌∷◌, IfOk, IfSome, IsSome, MatchOption, length, not, option_map, position};
ghost use Rattle.jh_edn.specs.Edn.{size_of, size_list};
ghost use Rattle.jh_edn.specs.View.{view, views};
ghost use Rattle.jh_gen.specs.BadPart as rule;
ghost use Rattle.jh_gen.specs.BadPart.{IsBadPart, first_no_generator, held_values, form_name};
ghost use Rattle.jh_gen.specs.GeneratorText.{parsed_generator};

use crate::text::{GeneratorShape, is_generator, keyword_name, number_in, shape_of};
use jh_edn::Value;
use std::alloc::{AllocError, Global};

/// A step into a form, to one of the generators that it holds.
#[derive(Clone, Copy, Debug, PartialEq, Eq)]
pub struct FormStep<'a> {
    /// The name of the form, as `mix`.
    pub form: &'a str,
    /// The place among the generators that the form holds, from 1. Of `[:reserve N1 G1 N2 G2 G]` these
    /// are `G1`, `G2` and `G`.
    pub place: usize,
}

/// The place from 0 of the first of these values that is no generator.
fn bad_place(parts: &[Value]) -> Option<usize>
    ensures { result ≡ position (λ part. not (rule.is_generator (view part))) parts.now }
{
    parts.iter().position(|part| !is_generator(part))
}

/// The first of these values that is no generator, and its place from 1.
fn first_bad_of(parts: &[Value]) -> Option<(usize, &Value)>
    ensures found { option_map (λ bad. (bad.0, view bad.1.now)) result ≡ first_no_generator (views parts.now) }
    ensures within { IfSome result (λ bad. bad.0 ≤ length parts.now) }
    ensures smaller { IfSome result (λ bad. size_of (view bad.1.now) < size_list (views parts.now)) }
{
    let place = bad_place(parts)?;
    Some((place + 1, &parts[place]))
}

/// This value, with the place 1, unless it is a generator.
fn bad_only(value: &Value) -> Option<(usize, &Value)>
    ensures found { option_map (λ bad. (bad.0, view bad.1.now)) result
        ≡ first_no_generator (view value.now ∷ []) }
    ensures same { IfSome result (λ bad. size_of (view bad.1.now) ≤ size_of (view value.now)) }
{
    if is_generator(value) {
        return None;
    }
    Some((1, value))
}

/// Whether these are numbers, each with a value, and a value behind them.
fn is_reserve_form(parts: &[Value]) -> bool
    ensures { result ≡ rule.is_reserve_form (views parts.now) }
{
    let mut rest = parts;
    while let [number, _, later @ ..] = rest {
        if number_in(number).is_none() {
            return false;
        }
        rest = later;
    }
    rest.len() == 1
}

/// The first value behind a number, or behind them all, that is no generator, and its place from 1.
fn first_bad_behind_numbers(parts: &[Value]) -> Option<(usize, &Value)>
    ensures found { option_map (λ bad. (bad.0, view bad.1.now)) result
        ≡ first_no_generator (rule.behind_numbers (views parts.now)) }
    ensures smaller { IfSome result (λ bad. size_of (view bad.1.now) < size_list (views parts.now)) }
{
    let mut rest = parts;
    let mut before = 0;
    while let [_, part, later @ ..] = rest {
        if !is_generator(part) {
            return Some((before + 1, part));
        }
        before += 1;
        rest = later;
    }
    let (place, part) = first_bad_of(rest)?;
    Some((before + place, part))
}

/// The first generator that a reserve of these parts would hold and that is none, with its place.
fn first_bad_of_reserve(parts: &[Value]) -> Option<(usize, &Value)>
    ensures found { option_map (λ bad. (bad.0, view bad.1.now)) result
        ≡ first_no_generator (rule.reserve_holds (views parts.now)) }
    ensures smaller { IfSome result (λ bad. size_of (view bad.1.now) < size_list (views parts.now)) }
{
    if !is_reserve_form(parts) {
        return None;
    }
    first_bad_behind_numbers(parts)
}

/// The first generator that a value would hold and that is none, with its place.
fn first_bad_in(value: &Value) -> Option<(usize, &Value)>
    ensures found { option_map (λ bad. (bad.0, view bad.1.now)) result
        ≡ first_no_generator (held_values (view value.now)) }
    ensures smaller { IfSome result (λ bad. size_of (view bad.1.now) < size_of (view value.now)) }
{
    match shape_of(value)? {
        GeneratorShape::Nil => None,
        GeneratorShape::Once(_) => None,
        GeneratorShape::Rising(_, _) => None,
        GeneratorShape::Forever(_) => None,
        GeneratorShape::Seq(parts) => first_bad_of(parts),
        GeneratorShape::Limit(_, inner) => bad_only(inner),
        GeneratorShape::Mix(parts) => first_bad_of(parts),
        GeneratorShape::Phases(parts) => first_bad_of(parts),
        GeneratorShape::Reserve(parts) => first_bad_of_reserve(parts),
        GeneratorShape::EachThread(inner) => bad_only(inner),
        GeneratorShape::Clients(inner) => bad_only(inner),
        GeneratorShape::NemesisOnly(inner) => bad_only(inner),
    }
}

/// The name of the form that a value is.
fn name_of_form(value: &Value) -> Option<&str>
    ensures { option_map (λ name. name.now) result ≡ form_name (view value.now) }
{
    keyword_name(value.elements()?.first()?)
}

/// The step from a value to the first generator that it would hold and that is none, and that value.
fn next_step(value: &Value) -> Option<(FormStep<'_>, &Value)>
    ensures next { MatchOption result (first_no_generator (held_values (view value.now)) ≡ None)
        (λ next. rule.IsStepInto (view value.now) next.0 (view next.1.now)) }
    ensures smaller { IfSome result (λ next. size_of (view next.1.now) < size_of (view value.now)) }
{
    let form = name_of_form(value)?;
    let (place, inner) = first_bad_in(value)?;
    Some((FormStep { form, place }, inner))
}

/// The part of a value that is why the value is no generator, and the way to it: the first generator
/// that each form on the way would hold and that is none, to a part that is none itself, though all the
/// generators in it are. `None` where the value is a generator.
///
/// A form that is wrong in itself is the part, whatever it holds: one of an unknown name, with a number
/// out of range, or with too few or too many parts. Takes time linear in the value's size times its depth.
///
/// `Err` only where memory was refused.
pub fn bad_part(
    alloc: Global,
    value: &Value,
) -> Result<Option<(Vec<FormStep<'_>>, &Value)>, AllocError>
    ensures { IfOk result (λ found. MatchOption found
        (IsSome (parsed_generator (view value.now)))
        (λ bad. IsBadPart (view value.now) bad.0.items (view bad.1.now))) }
{
    if is_generator(value) {
        return Ok(None);
    }
    let mut way = Vec::new(alloc);
    let mut part = value;
    while let Some((step, inner)) = next_step(part) {
        way.push(step)?;
        part = inner;
    }
    Ok(Some((way, part)))
}
