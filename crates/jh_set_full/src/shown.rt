//! What operations add and show. `specs/SetFull.antt` has the rule.

ghost use Rattle.std.specs.Prelude.{◌≡◌, filter, map, option_and_then, option_map};
ghost use Rattle.jh_edn.specs.Normal.{normal};
ghost use Rattle.jh_edn.specs.View.{view, views};
ghost use Rattle.jh_ops.specs.Operation.{operations};
ghost use Rattle.jh_check.specs.CounterResults.{end_place, value_at};
ghost use Rattle.jh_check.specs.SetResults as sets;
ghost use Rattle.jh_set_full.specs.Inside as inside;
ghost use Rattle.jh_set_full.specs.SetFull as rule;
ghost use Rattle.jh_set_full.specs.SetFull.{least};

use crate::places::earlier_of;
use jh_check::{asks, elements_shown, end_of, is_ok_read, value_at};
use jh_edn::Value;
use jh_ops::{Op, Pair};
use std::slice::from_ref;

/// What an operation adds, where it is an add.
pub(crate) fn added(history: &[Op], pair: Pair) -> &[Value]
    ensures { map normal (views result.now) ≡ rule.added_by (operations history.now) pair }
{
    if !asks("add", history, pair) {
        return &[];
    }
    match value_at(history, pair.invoke) {
        Some(value) => from_ref(value),
        None => &[],
    }
}

/// The elements that the record at a place shows.
fn elements_at(history: &[Op], place: usize) -> Option<&[Value]>
    ensures { option_map (λ items. views items.now) result
        ≡ option_and_then sets.elements_shown (value_at (operations history.now) place) }
{
    match value_at(history, place) {
        Some(value) => elements_shown(value),
        None => None,
    }
}

/// What an operation shows, where it is a read that happened.
pub(crate) fn shown(history: &[Op], pair: Pair) -> &[Value]
    ensures { map normal (views result.now) ≡ rule.shown_by (operations history.now) pair }
{
    if !is_ok_read(history, pair) {
        return &[];
    }
    match elements_at(history, end_of(pair)) {
        Some(items) => items,
        None => &[],
    }
}

/// Whether the operation is a read that happened and does not show elements.
fn shows_no_elements(history: &[Op], pair: Pair) -> bool
    ensures { result ≡ rule.shows_no_elements (operations history.now) pair }
{
    is_ok_read(history, pair) && elements_at(history, end_of(pair)).is_none()
}

/// Where such a read completed.
fn bad_end(history: &[Op], pair: Pair) -> Option<usize>
    ensures { result ≡ inside.bad_end (operations history.now) pair }
{
    if shows_no_elements(history, pair) {
        Some(end_of(pair))
    } else {
        None
    }
}

/// The least place at which such a read completed.
pub(crate) fn first_bad_read(history: &[Op], pairs: &[Pair]) -> Option<usize>
    ensures { result
        ≡ least (map end_place (filter (rule.shows_no_elements (operations history.now)) pairs.now)) }
{
    let mut first = None;
    for pair in pairs {
        first = earlier_of(first, bad_end(history, *pair));
    }
    first
}
