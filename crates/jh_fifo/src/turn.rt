//! Spans, put in the order in which the values can go through the queue.
//!
//! Next comes the span that entered first at the latest, or the one that left first at the latest:
//! the first one, where nothing else has to leave before it does; the second one, where nothing
//! else has to enter before it does. Else each of the two goes before the other.

ghost use Rattle.std.specs.Prelude.{◌≡◌, ◌<◌, ◌≤◌, ◌∷◌, ◌++◌, [], ℕ, true, false, max, replicate, map};
ghost use Rattle.std.specs.Prelude.{IfOk, OnOk, length, slice_set};
ghost use Rattle.jh_fifo.specs.Lines.{IsStep, IsTurnOf, is_put, moved_span};
ghost use Rattle.jh_fifo.specs.Sorted.{AreSortedKeys};
ghost use Rattle.jh_fifo.specs.Spans.{AreSpansApart, AreFair, span_at};

use crate::layout::span_of;
use crate::sorted::{index_at, sorted};
use crate::spans::Span;
use std::alloc::{AllocError, Global};

/// All spans in their turn, or two that go each before the other.
#[derive(Drop)]
pub(crate) enum Turn {
    All(Vec<Span>),
    Crossed(usize, usize),
}

/// What was put in its turn so far.
#[derive(Drop)]
struct Line {
    taken: Vec<bool>,
    turn: Vec<Span>,
    from: u128,
    leaving: u128,
}

/// What to do next with the two spans at hand.
#[derive(Clone, Copy)]
enum Step {
    PassFirst,
    PassSecond,
    TakeFirst,
    TakeSecond,
    Cross,
}

/// Puts a span at the end.
fn take(line: &mut Line, spans: &[Span], number: usize) -> Result<(), AllocError>
    requires number { number < length spans.now }
    requires taken { number < length line.old.taken.items }
    ensures taken { OnOk result (line.new.taken.items ≡ slice_set line.old.taken.items number true) }
    ensures turn { OnOk result (line.new.turn.items ≡ line.old.turn.items
        ++ moved_span (span_at spans.now number) line.new.from line.new.leaving ∷ []) }
    ensures from { OnOk result (line.new.from ≡ max line.old.from (span_at spans.now number).from) }
    ensures leaving { OnOk result (line.new.leaving
        ≡ max line.old.leaving (span_at spans.now number).leaving) }
{
    let span = span_of(spans, number);
    let from = line.from.max(span.from);
    let leaving = line.leaving.max(span.leaving);
    line.turn.push(Span {
        from,
        leaving,
        ..span
    })?;
    line.taken[number] = true;
    line.from = from;
    line.leaving = leaving;
    Ok(())
}

/// Whether a span was put in its turn.
fn was_taken(taken: &[bool], number: usize) -> bool
    requires { number < length taken.now }
    ensures { result ≡ is_put taken.now number }
{
    taken[number]
}

/// What to do with the span that entered first and the one that left first.
fn step_of(spans: &[Span], taken: &[bool], first: usize, second: usize) -> Step
    requires first { first < length spans.now }
    requires second { second < length spans.now }
    requires taken { length taken.now ≡ length spans.now }
    ensures { IsStep spans.now taken.now first second result }
{
    let one = span_of(spans, first);
    let other = span_of(spans, second);
    if was_taken(taken, first) {
        Step::PassFirst
    } else if was_taken(taken, second) {
        Step::PassSecond
    } else if one.leaving <= other.left {
        Step::TakeFirst
    } else if other.from <= one.entered {
        Step::TakeSecond
    } else {
        Step::Cross
    }
}

/// The spans by when they entered at the latest.
pub(crate) fn by_entered(alloc: Global, spans: &[Span]) -> Result<Vec<(u128, usize)>, AllocError>
    ensures { IfOk result (λ entries. AreSortedKeys (map (λ span. span.entered) spans.now) entries.items) }
{
    let keys = spans
        .iter()
        .map(|span| span.entered)
        .collect::<Vec<u128>>(alloc)?;
    sorted(alloc, &keys)
}

/// The spans by when they left at the latest.
fn by_left(alloc: Global, spans: &[Span]) -> Result<Vec<(u128, usize)>, AllocError>
    ensures { IfOk result (λ entries. AreSortedKeys (map (λ span. span.left) spans.now) entries.items) }
{
    let keys = spans
        .iter()
        .map(|span| span.left)
        .collect::<Vec<u128>>(alloc)?;
    sorted(alloc, &keys)
}

/// Nothing put in its turn.
fn no_line(alloc: Global, count: usize) -> Result<Line, AllocError>
    ensures taken { IfOk result (λ line. line.taken.items ≡ replicate count false) }
    ensures turn { IfOk result (λ line. line.turn.items ≡ []) }
    ensures from { IfOk result (λ line. line.from ≡ 0) }
    ensures leaving { IfOk result (λ line. line.leaving ≡ 0) }
{
    let taken = vec![in alloc; false; count]?;
    Ok(Line {
        taken,
        turn: Vec::new(alloc),
        from: 0,
        leaving: 0,
    })
}

/// All spans in their turn, or two that go each before the other.
pub(crate) fn in_turn(alloc: Global, spans: &[Span]) -> Result<Turn, AllocError>
    requires fair { AreFair spans.now }
    requires apart { AreSpansApart spans.now }
    ensures { IfOk result (IsTurnOf spans.now) }
{
    let entered = by_entered(alloc, spans)?;
    let left = by_left(alloc, spans)?;
    let mut line = no_line(alloc, spans.len())?;
    let mut early = 0;
    let mut late = 0;
    while early < entered.len() && late < left.len() {
        let first = index_at(&entered, early);
        let second = index_at(&left, late);
        match step_of(spans, &line.taken, first, second) {
            Step::PassFirst => early += 1,
            Step::PassSecond => late += 1,
            Step::TakeFirst => {
                take(&mut line, spans, first)?;
                early += 1;
            }
            Step::TakeSecond => {
                take(&mut line, spans, second)?;
                late += 1;
            }
            Step::Cross => return Ok(Turn::Crossed(first, second)),
        }
    }
    Ok(Turn::All(line.turn))
}
