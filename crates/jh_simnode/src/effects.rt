//! What a request does to the contents of a replica. `specs/Effects.antt` has the rule.

ghost use Rattle.std.specs.Prelude.{◌≡◌, ◌≤◌, Some, None, IfOk, MatchOption, length, take, drop};
ghost use Rattle.std.specs.Prelude.{◌++◌, ◌∷◌};
ghost use Rattle.jh_simnode.specs.Effects.{effect, written_change, numbers_with, cas_change};
ghost use Rattle.jh_simnode.specs.Effects.{add_change, generate_change};
ghost use Rattle.jh_ops.specs.declared.call.Request.TheVariants.{Read, Write, Cas, Add, Generate};

use crate::replicas::{Contents, Got, Numbers};
use jh_ops::Request;
use std::alloc::{AllocError, Global};

/// What a request got, and the contents after it.
#[derive(Drop)]
pub(crate) struct RequestEffect {
    pub(crate) got: Got,
    pub(crate) after: Contents,
}

/// The place of a number among ascending ones, where it is not one of them.
fn place_of_new(numbers: &[i64], value: i64) -> Option<usize>
    ensures { MatchOption result (numbers_with value numbers.now ≡ numbers.now)
        (λ place. (place ≤ length numbers.now)
        × (take place numbers.now ++ value
        ∷ drop place numbers.now ≡ numbers_with value numbers.now)) }
{
    let mut place = 0;
    for number in numbers {
        if value <= *number {
            return (value < *number).then_some(place);
        }
        place += 1;
    }
    Some(place)
}

/// The number at its place among ascending numbers, once.
fn put_in(alloc: Global, numbers: &Numbers, value: i64) -> Result<Numbers, AllocError>
    ensures { IfOk result (λ all. all ≡ numbers_with value numbers.now) }
{
    let mut all = numbers.copy(alloc)?;
    if let Some(place) = place_of_new(numbers.as_slice(), value) {
        all.items.insert(place, value)?;
    }
    Ok(all)
}

/// A change that got nothing.
fn wrote(after: Contents) -> Option<RequestEffect>
    ensures { result ≡ written_change after }
{
    Some(RequestEffect {
        got: Got::Nothing,
        after,
    })
}

/// What a compare-and-set makes of a register.
fn cas(from: i64, to: i64, value: Option<i64>) -> Option<RequestEffect>
    ensures { result ≡ cas_change from to value }
{
    match value {
        Some(current) => {
            if current == from {
                wrote(Contents::One(Some(to)))
            } else {
                None
            }
        }
        None => None,
    }
}

/// What an addition makes of a counter.
fn add(amount: i64, value: Option<i64>) -> Option<RequestEffect>
    ensures { result ≡ add_change amount value }
{
    match value {
        Some(current) => match current.checked_add(amount) {
            Some(sum) => wrote(Contents::One(Some(sum))),
            None => None,
        },
        None => None,
    }
}

/// What a new id makes of the number that is held: the id is that number, and the next one is held
/// after it.
fn generate(value: Option<i64>) -> Option<RequestEffect>
    ensures { result ≡ generate_change value }
{
    match value {
        Some(current) => match current.checked_add(1) {
            Some(next) => Some(RequestEffect {
                got: Got::One(Some(current)),
                after: Contents::One(Some(next)),
            }),
            None => None,
        },
        None => None,
    }
}

/// What a request makes of contents, where it doesn't fail.
pub(crate) fn effect(
    alloc: Global,
    request: Request,
    contents: &Contents,
) -> Result<Option<RequestEffect>, AllocError>
    ensures { IfOk result (λ given. given ≡ effect request contents.now) }
{
    match (request, contents) {
        (Request::Read, _) => Ok(Some(RequestEffect {
            got: contents.got(alloc)?,
            after: contents.copy(alloc)?,
        })),
        (Request::Write(value), _) => Ok(wrote(Contents::One(Some(value)))),
        (Request::Cas(from, to), Contents::One(value)) => Ok(cas(from, to, *value)),
        (Request::Add(amount), Contents::One(value)) => Ok(add(amount, *value)),
        (Request::Add(amount), Contents::Many(numbers)) => {
            Ok(wrote(Contents::Many(put_in(alloc, numbers, amount)?)))
        }
        (Request::Generate, Contents::One(value)) => Ok(generate(*value)),
        _ => Ok(None),
    }
}
