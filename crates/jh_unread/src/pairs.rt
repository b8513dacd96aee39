//! The pairs of an operation: where one begins, whether its key is read, and whether it is unread.
//!
//! `specs/Pairs.antt` says it.

ghost use Rattle.std.specs.Prelude.{◌≡◌, drop};
ghost use Rattle.jh_unread.specs.Pairs as pairs;

use crate::parts::{Found, Opened, Part};

/// How far a pair has come.
#[derive(Clone, Copy, Debug, PartialEq, Eq)]
pub(crate) enum Stage {
    Key,
    /// Behind a key that whoever reads an operation asks for.
    ReadValue,
    /// Behind another key.
    OtherValue,
}

/// A pair that has begun, at a place in bytes.
#[derive(Clone, Copy, Debug, PartialEq, Eq)]
pub(crate) struct Entry {
    pub(crate) start: usize,
    pub(crate) stage: Stage,
    pub(crate) found: Found,
}

/// An operation that has begun, at a place in bytes; how much is open directly inside its map, and the
/// pair there that has begun.
#[derive(Clone, Copy, Debug, PartialEq, Eq)]
pub(crate) struct OpenMap {
    pub(crate) start: usize,
    pub(crate) depth: usize,
    pub(crate) pair: Option<Entry>,
}

/// What one lexeme does: its part and its place, how much was open before it and is open behind it,
/// whether an element that is not discarded ends with it, and whether an operation may begin there.
#[derive(Clone, Copy, Debug, PartialEq, Eq)]
pub(crate) struct Followed {
    pub(crate) part: Part,
    pub(crate) at: usize,
    pub(crate) before: usize,
    pub(crate) after: usize,
    pub(crate) is_element: bool,
    pub(crate) is_top: bool,
}

/// What was found in both: `Faulty` over `Refused` over `Nothing`.
fn worse(found: Found, other: Found) -> Found
    ensures { result ≡ pairs.worse found other }
{
    match (found, other) {
        (Found::Faulty, _) | (_, Found::Faulty) => Found::Faulty,
        (Found::Refused, _) | (_, Found::Refused) => Found::Refused,
        (Found::Nothing, Found::Nothing) => Found::Nothing,
    }
}

/// What is found in a lexeme.
fn found_in(part: Part) -> Found
    ensures { result ≡ pairs.found_in part }
{
    match part {
        Part::Prefix(found) | Part::Whole(found) => found,
        _ => Found::Nothing,
    }
}

/// Whether an element begins with a lexeme.
fn begins_element(part: Part) -> bool
    ensures { result ≡ pairs.begins_element part }
{
    match part {
        Part::Opens(opened) => opened != Opened::Discard,
        Part::Prefix(_) | Part::Whole(_) => true,
        Part::Gap | Part::Closes(_) | Part::Broken => false,
    }
}

/// The pair that goes on, or begins, with a lexeme.
fn pair_after(operation: OpenMap, step: Followed) -> Option<Entry>
    ensures { result ≡ pairs.pair_after operation step }
{
    match operation.pair {
        Some(pair) => Some(Entry {
            found: worse(pair.found, found_in(step.part)),
            ..pair
        }),
        None if step.before == operation.depth && begins_element(step.part) => Some(Entry {
            start: step.at,
            stage: Stage::Key,
            found: found_in(step.part),
        }),
        None => None,
    }
}

/// Whether a key or a value of the operation ends with a lexeme.
fn ends_part(operation: OpenMap, step: Followed) -> bool
    ensures { result ≡ pairs.ends_part operation step }
{
    step.is_element && step.after == operation.depth
}

/// Whether an operation can't do without a key. `:time` and `:index` are none of these: where they
/// can't be read, the operation has none.
#[tactic(auto, unfolding(crate::specs::Pairs::is_read_key))]
fn is_read(key: &[u8]) -> bool
    ensures { result ≡ pairs.is_read_key key.now }
{
    key == b":type".as_slice()
        || key == b":f".as_slice()
        || key == b":process".as_slice()
        || key == b":value".as_slice()
}

/// How far a pair has come whose key is what stands behind a place.
fn stage_behind(out: &[u8], start: usize) -> Stage
    ensures { result ≡ pairs.stage_behind (drop start out.now) }
{
    let start = start.min(out.len());
    if is_read(&out[start..]) {
        Stage::ReadValue
    } else {
        Stage::OtherValue
    }
}

/// The pair behind its key, or none behind its value.
fn pair_behind(out: &[u8], pair: Entry) -> Option<Entry>
    ensures { result ≡ pairs.pair_behind out.now pair }
{
    match pair.stage {
        Stage::Key => Some(Entry {
            stage: stage_behind(out, pair.start),
            ..pair
        }),
        Stage::ReadValue | Stage::OtherValue => None,
    }
}

/// The operation behind a lexeme with which the text so far ends; none where its map is closed.
pub(crate) fn operation_behind(out: &[u8], operation: OpenMap, step: Followed) -> Option<OpenMap>
    ensures { result ≡ pairs.operation_behind out.now operation step }
{
    if step.after < operation.depth {
        return None;
    }
    let mut pair = pair_after(operation, step);
    if ends_part(operation, step) {
        pair = match pair {
            Some(ended) => pair_behind(out, ended),
            None => None,
        };
    }
    Some(OpenMap { pair, ..operation })
}

/// Where the unread pair begins that ends with a lexeme.
pub(crate) fn unread_by(operation: OpenMap, step: Followed) -> Option<usize>
    ensures { result ≡ pairs.unread_by operation step }
{
    let pair = pair_after(operation, step)?;
    let is_unread = pair.stage == Stage::OtherValue && pair.found == Found::Refused;
    if ends_part(operation, step) && is_unread {
        Some(pair.start)
    } else {
        None
    }
}

/// The operation that begins with a lexeme.
pub(crate) fn operation_from(step: Followed) -> Option<OpenMap>
    ensures { result ≡ pairs.operation_from step }
{
    if step.part != Part::Opens(Opened::Curly) || !step.is_top {
        return None;
    }
    Some(OpenMap {
        start: step.at,
        depth: step.after,
        pair: None,
    })
}
