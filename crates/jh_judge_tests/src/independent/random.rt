//! Random histories of up to forty keys, on each of which the serial call and several threads are compared with the plain
//! slow program.

use crate::independent::rows::is_always_answered;
use crate::plain_independent::random_keys;
use jh_checkers::{Checker, Judging};
use jh_ops::Workload;
use std::alloc::Global;
use std::sync::Wait;
use std::thread::Threads;

/// How many random histories of a workload there are.
const HISTORIES: u64 = 40;

/// Whether the plain program's answer to a random history is a line and no error. None: another answer was found, or
/// memory was refused.
fn is_line<R: Threads + Wait + Sync>(
    rt: &R,
    alloc: Global,
    workload: Workload,
    seed: u64,
) -> Option<bool> {
    let judging = Judging {
        initial: Some(0),
        ..Judging::by(Checker::of(workload), seed % 5 * 4)
    };
    let case = random_keys(alloc, workload, judging.budget, seed)?;
    if !is_always_answered(rt, alloc, judging, &case.history, &case.answer) {
        return None;
    }
    Some(case.answer.starts_with("{"))
}

/// How many random histories have a line, or the first with another answer than the plain program's.
fn line_count<R: Threads + Wait + Sync>(
    rt: &R,
    alloc: Global,
    workload: Workload,
) -> Result<u64, u64> {
    let mut count = 0u64;
    for seed in 0..HISTORIES {
        let is_line = match is_line(rt, alloc, workload, seed) {
            None => is_line(rt, alloc, workload, seed).ok_or(seed)?,
            Some(is_line) => is_line,
        };
        count = count.saturating_add(u64::from(is_line));
    }
    Ok(count)
}

/// Some have an error: there are both sorts, so that the comparison says something.
#[test]
fn sets_agree(rt: HostRuntime) {
    let count = line_count(&rt, rt.alloc(), Workload::Set);
    assert!(rt; matches!(count, Ok(20..=38)), "{count:?}");
}

#[test]
fn ids_agree(rt: HostRuntime) {
    let count = line_count(&rt, rt.alloc(), Workload::Ids);
    assert!(rt; matches!(count, Ok(20..=38)), "{count:?}");
}

#[test]
fn counters_agree(rt: HostRuntime) {
    let count = line_count(&rt, rt.alloc(), Workload::Counter);
    assert!(rt; matches!(count, Ok(10..=35)), "{count:?}");
}

#[test]
fn registers_agree(rt: HostRuntime) {
    let count = line_count(&rt, rt.alloc(), Workload::Register);
    assert!(rt; matches!(count, Ok(10..=35)), "{count:?}");
}
