//! Copies of schedules and of their parts, plans with the schedules of others, and numbers as lists.
//!
//! None is answered where memory was refused.

use crate::simnode::fixtures::plan_of;
use crate::simnode::plans::parts_text;
use crate::simnode::runs::refusal;
use jh_simnode::{Entry, Numbers, Schedule};
use std::alloc::Global;

/// After how many answers each entry is due.
fn dues(alloc: Global, entries: &[Entry]) -> Option<Vec<u32>> {
    entries.iter().map(|entry| entry.at).collect(alloc).ok()
}

const SETTINGS: &str =
    r#"{:start {:nodes ["n1"]}, :schedule [[0 [:begin 1 [:kill ["n1"]]]] [5 [:undo]] [9 [:withdraw 1]]]}"#;

/// A copy of the schedule of settings.
fn copied_schedule(alloc: Global, settings: &str) -> Option<Schedule> {
    plan_of(alloc, settings).ok()?.schedule().copy(alloc).ok()
}

/// When the entries of a copy are due.
fn dues_of_copy(alloc: Global) -> Option<Vec<u32>> {
    dues(alloc, copied_schedule(alloc, SETTINGS)?.entries())
}

/// A part of a schedule, without its second entry.
fn without_second(alloc: Global, schedule: &Schedule) -> Option<Schedule> {
    if schedule.entries().len() < 2 {
        return None;
    }
    schedule.copy_without(alloc, 1, 2).ok()
}

/// When the entries of such a part of a copy are due.
fn dues_of_part(alloc: Global) -> Option<Vec<u32>> {
    let part = without_second(alloc, &copied_schedule(alloc, SETTINGS)?)?;
    dues(alloc, &part.into_entries())
}

/// Whether these are the dues.
fn are_dues(dues: &Option<Vec<u32>>, wanted: &[u32]) -> bool {
    match dues {
        Some(dues) => dues.as_slice() == wanted,
        None => false,
    }
}

#[test]
fn a_schedule_is_copied(rt: HostRuntime) {
    let whole = match dues_of_copy(rt.alloc()) {
        None => dues_of_copy(rt.alloc()),
        whole => whole,
    };
    assert!(rt; are_dues(&whole, &[0, 5, 9]));
}

#[test]
fn a_part_of_a_schedule_is_copied(rt: HostRuntime) {
    let part = match dues_of_part(rt.alloc()) {
        None => dues_of_part(rt.alloc()),
        part => part,
    };
    assert!(rt; are_dues(&part, &[0, 9]));
}

const OTHER: &str =
    r#"{:start {:nodes ["a" "b"]}, :store :lww, :volatile true, :workload :counter, :initial 4, :clients 3, :ops 11,
    :generator [:once [:add 7]], :schedule [[5 [:begin 1 [:kill ["b"]]]]], :tick-every 6, :rows 12, :seed 13}"#;

/// The parts of a plan with the schedule of another, or the message of its refusal. None: memory was refused.
fn exchanged_once(alloc: Global, settings: &str, other: &str) -> Option<Vec<u8>> {
    let schedule = copied_schedule(alloc, other)?;
    match plan_of(alloc, settings)
        .ok()?
        .with_schedule(alloc, schedule)
    {
        Ok(plan) => parts_text(alloc, &plan),
        Err(error) => refusal(alloc, error),
    }
}

/// Whether a plan with the schedule of another comes to this. It is asked once more where memory was refused.
fn is_exchanged(alloc: Global, settings: &str, other: &str, wanted: &str) -> bool {
    let text = match exchanged_once(alloc, settings, other) {
        None => exchanged_once(alloc, settings, other),
        text => text,
    };
    match text {
        Some(text) => text.as_slice() == wanted.as_bytes(),
        None => false,
    }
}

#[test]
fn a_plan_takes_another_schedule(rt: HostRuntime) {
    let wanted =
        "2 nodes Lww true Counter Some(4); 3 11 6 12 13; Once(Client(Add(7))); 0 begin 1, 5 undo, 9 withdraw 1,";
    assert!(rt; is_exchanged(rt.alloc(), OTHER, SETTINGS, wanted));
    assert!(rt; is_exchanged(rt.alloc(), SETTINGS, OTHER, "bad step"));
}

/// Two numbers.
fn two_numbers(alloc: Global) -> Option<Numbers> {
    Some(Numbers::of(Vec::from_slice(alloc, &[7, -8]).ok()?))
}

#[test]
fn numbers_are_lists(rt: HostRuntime) {
    let numbers = match two_numbers(rt.alloc()) {
        None => two_numbers(rt.alloc()),
        numbers => numbers,
    };
    let Some(numbers) = numbers else {
        panic!(rt; "no numbers")
    };
    assert_eq!(rt; numbers.as_slice().last().copied(), Some(-8));
    assert_eq!(rt; numbers.into_vec().as_slice(), [7, -8].as_slice());
}
