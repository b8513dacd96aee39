//! Reading one element, and the elements up to a closing bracket.
//!
//! `read` and `items` of `specs/Reading.antt` say what is read. A new kind of element is a new arm
//! of `element`.

ghost use Rattle.std.specs.Prelude.{◌≡◌, ◌+◌, ◌<◌, ◌^◌, suc, slice_index, drop, length, option_map};
ghost use Rattle.std.specs.Prelude.{IfOk};
ghost use Rattle.std.specs.Str.{IsUtf8, IsCharBoundary};
ghost use Rattle.jh_edn.specs.Bytes.{IsAscii, hash};
ghost use Rattle.jh_edn.specs.Gives.{Gives};
ghost use Rattle.jh_edn.specs.Reading as reading;
ghost use Rattle.jh_edn.specs.Reading.{read, gap, deeper_reads, items, map_or_error, pairs_of};
ghost use Rattle.jh_edn.specs.Reading.{set_or_error};
ghost use Rattle.jh_edn.specs.Sequences.{item_or_end};
ghost use Rattle.jh_edn.specs.View.{view, views};

use crate::atom::atom;
use crate::character::character;
use crate::name::is_tag;
use crate::pairs::{make_pairs, repeats_element, repeats_key};
use crate::scan::{after_blank, begins_discard, begins_set, is_token_byte, token_len};
use crate::string::string;
use crate::syntax_error::{ReadError, SyntaxError, SyntaxErrorKind, syntax_error_at};
use crate::text::Text;
use crate::value::{Tagged, Value, Values};
use std::alloc::Global;

/// How many bytes open a set.
const SET_LEN: usize = 2;

/// How many bytes the mark of a discard takes.
const DISCARD_LEN: usize = 2;

/// For how many keys and values of a map there is room at first: enough for an operation of a
/// history.
const MAP_ROOM: usize = 16;

/// An error at the closing bracket just before the text.
fn syntax_error_before(kind: SyntaxErrorKind, after: &str) -> ReadError
    requires { length after.now < 2 ^ 63 }
    ensures { result ≡ ReadError.Syntax (record { kind = kind; left = length after.now + 1 }) }
{
    ReadError::Syntax(SyntaxError {
        kind,
        left: after.len() + 1,
    })
}

/// The values, in no more memory than they need: most vectors of a history are short and many.
fn fitted(mut items: Vec<Value>) -> Values
    ensures { result ≡ views items.items }
{
    items.shrink_to_fit();
    Values::of(items)
}

/// The map of these elements, with what follows it.
fn close_map(alloc: Global, items: Vec<Value>, after: &str) -> Result<(Value, &str), ReadError>
    requires { length after.now < 2 ^ 63 }
    ensures gives { Gives (λ x. (view x.0, x.1.now)) result
        (map_or_error (pairs_of (views items.items)) after.now) }
    ensures text { IfOk result (λ x. IsUtf8 x.1.now) }
{
    let Some(pairs) = make_pairs(alloc, items)? else {
        return Err(syntax_error_before(SyntaxErrorKind::OddMap, after));
    };
    if repeats_key(alloc, &pairs)? {
        return Err(syntax_error_before(SyntaxErrorKind::DuplicateKey, after));
    }
    Ok((Value::Map(pairs), after))
}

/// The set of these elements, with what follows it.
fn close_set(alloc: Global, items: Values, after: &str) -> Result<(Value, &str), ReadError>
    requires { length after.now < 2 ^ 63 }
    ensures gives { Gives (λ x. (view x.0, x.1.now)) result (set_or_error items after.now) }
    ensures text { IfOk result (λ x. IsUtf8 x.1.now) }
{
    if repeats_element(alloc, &items)? {
        return Err(syntax_error_before(SyntaxErrorKind::DuplicateKey, after));
    }
    Ok((Value::Set(items), after))
}

/// One element, with brackets, tags and discards nested at most that deep.
#[cycle(read)]
#[tactic(auto, unfolding(crate::specs::Reading::element))]
pub(crate) fn element(alloc: Global, rest: &str, depth: usize) -> Result<(Value, &str), ReadError>
    ensures gives { Gives (λ x. (view x.0, x.1.now)) result (read depth rest.now) }
    ensures text { IfOk result (λ x. IsUtf8 x.1.now) }
{
    let bytes = rest.as_bytes();
    if bytes.is_empty() {
        return Err(syntax_error_at(SyntaxErrorKind::UnexpectedEnd, ""));
    }
    match bytes[0] {
        b'"' => {
            let (text, after) = string(alloc, &rest[1..])?;
            Ok((Value::Str(text), after))
        }
        b'(' => {
            let (items, after) = elements_inside(alloc, rest, 1, b')', 0, depth)?;
            Ok((Value::List(fitted(items)), after))
        }
        b'[' => {
            let (items, after) = elements_inside(alloc, rest, 1, b']', 0, depth)?;
            Ok((Value::Vector(fitted(items)), after))
        }
        b'{' => {
            let (items, after) = elements_inside(alloc, rest, 1, b'}', MAP_ROOM, depth)?;
            close_map(alloc, items, after)
        }
        b'\\' => character(rest),
        b'#' => hashed(alloc, rest, depth),
        first if is_token_byte(first) => atom(alloc, rest),
        _ => Err(syntax_error_at(SyntaxErrorKind::BadToken, rest)),
    }
}

/// A set or a tagged element, from its `#` on.
#[cycle(read)]
#[tactic(auto, unfolding(crate::specs::Reading::hash_element))]
fn hashed(alloc: Global, rest: &str, depth: usize) -> Result<(Value, &str), ReadError>
    requires { slice_index rest.now 0 ≡ hash }
    ensures gives { Gives (λ x. (view x.0, x.1.now)) result
        (reading.hash_element (deeper_reads depth) rest.now) }
    ensures text { IfOk result (λ x. IsUtf8 x.1.now) }
{
    if begins_set(rest.as_bytes()) {
        let (items, after) = elements_inside(alloc, rest, SET_LEN, b'}', 0, depth)?;
        return close_set(alloc, fitted(items), after);
    }
    let behind = &rest[1..];
    let len = token_len(behind);
    let tag = &behind[..len];
    if !is_tag(tag.as_bytes()) {
        return Err(syntax_error_at(SyntaxErrorKind::BadToken, rest));
    }
    let (value, after) = one_inside(alloc, rest, 1 + len, depth)?;
    let tag = Text::of(alloc, tag)?;
    Ok((Value::Tagged(Tagged::of(alloc, tag, value)?), after))
}

/// The elements behind an opening bracket of `front` bytes, up to the closing one, in a vector with
/// `room` at first.
#[cycle(read)]
fn elements_inside(
    alloc: Global,
    rest: &str,
    front: usize,
    close: u8,
    room: usize,
    depth: usize,
) -> Result<(Vec<Value>, &str), ReadError>
    requires ascii { IsAscii close }
    requires boundary { IsCharBoundary rest.now front }
    ensures gives { Gives (λ x. (views x.0.items, x.1.now)) result
        ((deeper_reads depth).elements close rest.now (drop front rest.now)) }
    ensures text { IfOk result (λ x. IsUtf8 x.1.now) }
{
    if depth == 0 {
        return Err(syntax_error_at(SyntaxErrorKind::TooDeep, rest));
    }
    elements(alloc, &rest[front..], close, room, depth - 1)
}

/// The element behind a tag or a mark of `front` bytes.
#[cycle(read)]
fn one_inside(
    alloc: Global,
    rest: &str,
    front: usize,
    depth: usize,
) -> Result<(Value, &str), ReadError>
    requires boundary { IsCharBoundary rest.now front }
    ensures gives { Gives (λ x. (view x.0, x.1.now)) result
        ((deeper_reads depth).one rest.now (drop front rest.now)) }
    ensures text { IfOk result (λ x. IsUtf8 x.1.now) }
{
    if depth == 0 {
        return Err(syntax_error_at(SyntaxErrorKind::TooDeep, rest));
    }
    let here = after_gap(alloc, &rest[front..], depth - 1)?;
    element(alloc, here, depth - 1)
}

/// What follows white space, comments and discarded elements.
#[cycle(read)]
pub(crate) fn after_gap(alloc: Global, rest: &str, depth: usize) -> Result<&str, ReadError>
    ensures gives { Gives (λ x. x.now) result (gap depth rest.now) }
    ensures text { IfOk result (λ x. IsUtf8 x.now) }
{
    let mut left = rest;
    'discards: loop {
        let here = after_blank(left);
        if !begins_discard(here) {
            return Ok(here);
        }
        let (_, behind) = one_inside(alloc, here, DISCARD_LEN, depth)?;
        left = behind;
    }
}

/// The next element up to a closing bracket, or `None` for the bracket, with what follows it.
#[cycle(read)]
pub(crate) fn next_item(
    alloc: Global,
    rest: &str,
    close: u8,
    depth: usize,
) -> Result<(Option<Value>, &str), ReadError>
    requires { IsAscii close }
    ensures gives { Gives (λ x. (option_map view x.0, x.1.now)) result
        (item_or_end close depth rest.now) }
    ensures text { IfOk result (λ x. IsUtf8 x.1.now) }
{
    let here = after_gap(alloc, rest, depth)?;
    let bytes = here.as_bytes();
    if bytes.is_empty() {
        return Err(syntax_error_at(SyntaxErrorKind::UnexpectedEnd, ""));
    }
    if bytes[0] == close {
        return Ok((None, &here[1..]));
    }
    let (value, after) = element(alloc, here, depth)?;
    Ok((Some(value), after))
}

/// The elements up to a closing bracket, in a vector with `room` at first.
#[cycle(read)]
fn elements(
    alloc: Global,
    rest: &str,
    close: u8,
    room: usize,
    depth: usize,
) -> Result<(Vec<Value>, &str), ReadError>
    requires { IsAscii close }
    ensures gives { Gives (λ x. (views x.0.items, x.1.now)) result
        (items close (gap depth) (read depth) (suc (length rest.now)) rest.now) }
    ensures text { IfOk result (λ x. IsUtf8 x.1.now) }
{
    let mut found = Vec::with_capacity(alloc, room)?;
    let mut left = rest;
    'turns: loop {
        let (next, after) = next_item(alloc, left, close, depth)?;
        let Some(value) = next else {
            return Ok((found, after));
        };
        found.push(value)?;
        left = after;
    }
}
