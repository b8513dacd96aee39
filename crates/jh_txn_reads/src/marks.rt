//! Which elements a list has, marked in a table by element.

ghost use Rattle.std.specs.Prelude.{◌≡◌, ◌<◌, ◌↔◌, [], length, IsTrue, IsSomeAnd, true, false};
ghost use Rattle.std.specs.Prelude.{slice_index_or};
ghost use Rattle.std.specs.Bool.{MatchBool};
ghost use Rattle.std.specs.List.{All};
ghost use Rattle.jh_txn.specs.Transactions.{HasNoRepeat};
ghost use Rattle.jh_txn_reads.specs.Inside.{AreElementMarks, IsOutOfTurn};
ghost use Rattle.jh_txn_reads.specs.Inside as inside;

use crate::elements::previous_of;
use jh_txn_writers::Writer;

/// Marks the elements of a list, until one comes a second time; whether none does.
pub(crate) fn mark(marks: &mut [bool], list: &[usize]) -> bool
    requires clear { AreElementMarks [] marks.old }
    requires below { All (λ element. element < length marks.old) list.now }
    ensures distinct { IsTrue result ↔ HasNoRepeat list.now }
    ensures marked { IsTrue result → AreElementMarks list.now marks.new }
{
    for element in list {
        if marks[*element] {
            return false;
        }
        marks[*element] = true;
    }
    true
}

/// Takes the marks of a list away, from its front. What is marked still comes behind: so this stops
/// at an element of which the writer's element just before is marked; whether there is none.
pub(crate) fn unmark(marks: &mut [bool], writers: &[Option<Writer>], list: &[usize]) -> bool
    requires marked { AreElementMarks list.now marks.old }
    requires distinct { HasNoRepeat list.now }
    requires below { All (λ element. element < length marks.old) list.now }
    ensures in_turn { MatchBool result (¬ IsOutOfTurn writers.now list.now)
        (IsOutOfTurn writers.now list.now) }
    ensures clear { IsTrue result → AreElementMarks [] marks.new }
{
    for element in list {
        marks[*element] = false;
        if is_any_marked(marks, previous_of(writers, *element)) {
            return false;
        }
    }
    true
}

/// Whether there is an element and it is marked.
fn is_any_marked(marks: &[bool], element: Option<usize>) -> bool
    ensures { IsTrue result ↔ IsSomeAnd element (λ x. slice_index_or marks.now x false ≡ true) }
{
    match element {
        Some(element) => is_marked(marks, element),
        None => false,
    }
}

/// Whether there is an element and it is not marked.
pub(crate) fn is_any_lacking(marks: &[bool], element: Option<usize>) -> bool
    ensures { IsTrue result ↔ IsSomeAnd element (λ x. slice_index_or marks.now x false ≡ false) }
{
    match element {
        Some(element) => !is_marked(marks, element),
        None => false,
    }
}

/// Whether an element is marked.
fn is_marked(marks: &[bool], element: usize) -> bool
    ensures { result ≡ slice_index_or marks.now element false }
{
    match marks.get(element) {
        Some(is_marked) => *is_marked,
        None => false,
    }
}
