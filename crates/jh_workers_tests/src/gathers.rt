//! Histories that are gathered from a log.
//!
//! None is answered where memory was refused.

ghost use Rattle.std.specs.Prelude.{◌≡◌, ◌≤◌, length, IfSome};

use crate::texts::history_text;
use jh_edn::{Value, read_all};
use jh_ops::{Op, Request, history_of, to_words};
use jh_simnode::invocation;
use jh_slots::{Seat, Slots};
use jh_workers::{GatherError, gather};
use std::alloc::Global;
use std::thread::{Threads, join};

/// The rows of each log.
const ROWS: u32 = 4;

/// A log of four rows, and two seats at it.
fn log_and_seats(alloc: Global) -> Option<(Slots, Seat, Seat)>
    ensures { IfSome result (λ all. (all.1.table ≡ all.0.table) × (all.2.table ≡ all.0.table)) }
{
    let Ok((slots, seat)) = Slots::new(alloc, ROWS) else {
        return None;
    };
    let Ok((one, other)) = slots.split(seat) else {
        return None;
    };
    Some((slots, one, other))
}

/// Claims a row, and publishes these words there. Answers whether a row was left.
fn publish(slots: &Slots, seat: &mut Seat, words: &[u64]) -> bool
    requires own { seat.old.table ≡ slots.now.table }
    requires words { (1 ≤ length words.now) × (length words.now ≤ 5) }
    ensures { seat.new.table ≡ seat.old.table }
{
    let Ok(mut claim) = slots.claim(seat, 1) else {
        return false;
    };
    for place in 0..words.len() {
        slots.write(seat, &mut claim, place, words[place]);
    }
    slots.publish(seat, claim, words.len());
    true
}

/// Claims a row, and publishes an operation there. Answers whether that was possible.
fn publish_op(slots: &Slots, seat: &mut Seat, op: &Op) -> bool
    requires { seat.old.table ≡ slots.now.table }
    ensures { seat.new.table ≡ seat.old.table }
{
    let mut words = [0; 5];
    match to_words(op, &mut words) {
        Ok(len) if len > 0 => publish(slots, seat, &words[..len]),
        _ => false,
    }
}

/// Claims a row, and leaves it with no record.
fn void_row(slots: &Slots, seat: &mut Seat)
    requires { seat.old.table ≡ slots.now.table }
    ensures { seat.new.table ≡ seat.old.table }
{
    if let Ok(claim) = slots.claim(seat, 1) {
        slots.void(seat, claim);
    }
}

/// The history that a seat gathers from the first rows, a line of each operation, or the error.
fn gathered(alloc: Global, slots: &Slots, seat: &mut Seat, rows: usize) -> Option<String>
    requires { seat.old.table ≡ slots.now.table }
    ensures { seat.new.table ≡ seat.old.table }
{
    match gather(alloc, slots, seat, rows) {
        Ok(history) => history_text(alloc, &history),
        Err(GatherError::OutOfMemory) => None,
        Err(error) => error.to_string(alloc).ok(),
    }
}

const RECORDED: &str = "{:type :ok, :process 2, :f :cas, :value [0 -1], :event 7}";

fn values_in(alloc: Global, text: &str) -> Option<Vec<Value>> {
    match read_all(alloc, &mut text.as_bytes(), 3) {
        Ok(found) => Some(found),
        Err(_) => None,
    }
}

fn operations_in(alloc: Global, text: &str) -> Option<Vec<Op>> {
    match history_of(alloc, values_in(alloc, text)?) {
        Ok(found) => Some(found),
        Err(_) => None,
    }
}

fn op_in(alloc: Global, text: &str) -> Option<Op> {
    operations_in(alloc, text)?.pop()
}

/// What the second seat gathers from all rows while the first has a claim.
fn gathered_beside_a_claim(
    alloc: Global,
    slots: &Slots,
    one: &mut Seat,
    other: &mut Seat,
) -> Option<String>
    requires one { one.old.table ≡ slots.now.table }
    requires other { other.old.table ≡ slots.now.table }
{
    let Ok(claim) = slots.claim(one, 1) else {
        return None;
    };
    let text = gathered(alloc, slots, other, 4);
    slots.void(one, claim);
    text
}

/// What is gathered from a row that is void, one with a record of the operation, one that is claimed, and one that is free.
fn gathered_with(alloc: Global, op: &Op) -> Option<String> {
    let (slots, mut one, mut other) = log_and_seats(alloc)?;
    void_row(&slots, &mut one);
    if publish_op(&slots, &mut one, op) {
        gathered_beside_a_claim(alloc, &slots, &mut one, &mut other)
    } else {
        None
    }
}

fn one_record_once(alloc: Global) -> Option<String> {
    gathered_with(alloc, &op_in(alloc, RECORDED)?)
}

/// Whether this text was gathered.
fn is_text(text: &Option<String>, wanted: &str) -> bool {
    match text {
        Some(text) => text.as_str() == wanted,
        None => false,
    }
}

#[test]
fn a_record_is_gathered(rt: HostRuntime) {
    let text = match one_record_once(rt.alloc()) {
        None => one_record_once(rt.alloc()),
        text => text,
    };
    let wanted = "{:index 0, :type :ok, :process 2, :f :cas, :value [0 -1], :event 7}\n";
    assert!(rt; is_text(&text, wanted));
}

/// What is gathered from the first rows, of which one is void and two have words of no operation.
fn bad_words_once(alloc: Global, rows: usize) -> Option<String> {
    let (slots, mut one, mut other) = log_and_seats(alloc)?;
    void_row(&slots, &mut one);
    if !publish(&slots, &mut one, &[1000]) || !publish(&slots, &mut one, &[1001]) {
        return None;
    }
    gathered(alloc, &slots, &mut other, rows)
}

/// Whether this is gathered from so many of those rows. It is asked once more where memory was refused.
fn is_refusal(alloc: Global, rows: usize, wanted: &str) -> bool {
    let text = match bad_words_once(alloc, rows) {
        None => bad_words_once(alloc, rows),
        text => text,
    };
    is_text(&text, wanted)
}

#[test]
fn words_of_no_operation_are_refused(rt: HostRuntime) {
    assert!(rt; is_refusal(rt.alloc(), 1, ""));
    assert!(rt; is_refusal(rt.alloc(), 2, "row 1: bad words"));
    assert!(rt; is_refusal(rt.alloc(), 9, "row 1: bad words"));
}

/// Publishes a write. Answers whether that was possible.
fn publish_write(alloc: Global, slots: &Slots, seat: &mut Seat, process: u64, value: i64) -> bool
    requires { seat.old.table ≡ slots.now.table }
    ensures { seat.new.table ≡ seat.old.table }
{
    match invocation(alloc, process, Request::Write(value)) {
        Ok(op) => publish_op(slots, seat, &op),
        Err(_) => false,
    }
}

/// Publishes two writes, and gives the seat back where that was possible.
fn publish_two(
    alloc: Global,
    slots: &Slots,
    seat: Seat,
    process: u64,
    values: [i64; 2],
) -> Option<Seat>
    requires { seat.table ≡ slots.now.table }
    ensures { IfSome result (λ seat. seat.table ≡ slots.now.table) }
{
    let mut seat = seat;
    let [one, other] = values;
    if publish_write(alloc, slots, &mut seat, process, one)
        && publish_write(alloc, slots, &mut seat, process, other)
    {
        Some(seat)
    } else {
        None
    }
}

/// Publishes two writes of process 1 and two of process 2, on a thread each. The seat has what both had.
fn publish_at_once<R: Threads>(
    rt: &R,
    alloc: Global,
    slots: &Slots,
    one: Seat,
    two: Seat,
) -> Option<Seat>
    requires { (one.table ≡ slots.now.table) × (two.table ≡ slots.now.table) }
    ensures { IfSome result (λ seat. seat.table ≡ slots.now.table) }
{
    let (one, two) = join(
        rt,
        || publish_two(alloc, slots, one, 1, [10, 11]),
        || publish_two(alloc, slots, two, 2, [20, 21]),
    );
    Some(slots.join(one?, two?))
}

/// Whether a text has both parts, in this order.
fn has_both(text: &str, one: &str, other: &str) -> bool {
    match text.split_once(one) {
        Some((_, rest)) => rest.contains(other),
        None => false,
    }
}

/// Whether a history is that of the four writes, those of each process in order.
fn has_all(text: &str) -> bool {
    text.lines().count() == 4
        && has_both(
            text,
            ":process 1, :f :write, :value 10}",
            ":process 1, :f :write, :value 11}",
        )
        && has_both(
            text,
            ":process 2, :f :write, :value 20}",
            ":process 2, :f :write, :value 21}",
        )
}

/// Whether a seat gathers this.
fn gathers(alloc: Global, slots: &Slots, seat: &mut Seat, wanted: &str) -> Option<bool>
    requires { seat.old.table ≡ slots.now.table }
    ensures { seat.new.table ≡ seat.old.table }
{
    let text = gathered(alloc, slots, seat, 4)?;
    Some(text.as_str() == wanted)
}

/// Whether the third seat gathers the history of the four writes, and once more the same, and so does the seat that both are
/// joined to.
fn gather_alike(alloc: Global, slots: &Slots, both: Seat, third: Seat) -> Option<bool>
    requires both { both.table ≡ slots.now.table }
    requires third { third.table ≡ slots.now.table }
{
    let mut third = third;
    let read = gathered(alloc, slots, &mut third, 4)?;
    let is_same = gathers(alloc, slots, &mut third, &read)?;
    let mut all = slots.join(both, third);
    let is_joined = gathers(alloc, slots, &mut all, &read)?;
    Some(has_all(&read) && is_same && is_joined)
}

/// Whether seats read alike what threads published.
fn read_alike<R: Threads>(rt: &R, alloc: Global) -> Option<bool> {
    let (slots, rest, third) = log_and_seats(alloc)?;
    let Ok((one, two)) = slots.split(rest) else {
        return None;
    };
    match publish_at_once(rt, alloc, &slots, one, two) {
        Some(both) => gather_alike(alloc, &slots, both, third),
        None => None,
    }
}

#[test]
fn seats_read_alike_what_threads_published(rt: HostRuntime) {
    let are_alike = match read_alike(&rt, rt.alloc()) {
        None => read_alike(&rt, rt.alloc()),
        answer => answer,
    };
    assert!(rt; are_alike == Some(true));
}
