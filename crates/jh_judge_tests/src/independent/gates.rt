//! Gates that show that threads run at once, and that say who may not be judged.

use crate::checkers::rows::by;
use crate::independent::rows::{given, is_always_answered, is_given, may_lack_memory};
use crate::spelled::ops_of;
use jh_checkers::Checker;
use jh_independent::{Gate, check_keys_at};
use std::alloc::Global;
use std::sync::Wait;
use std::sync::atomic::{AtomicBool, Ordering};
use std::test::Fail;
use std::thread;
use std::thread::Threads;

/// How often a thread that is held looks for the other one.
const TURNS: u32 = 10_000_000;

/// Holds the thread of each of two keys until that of the other one came, and then lets in all but one.
#[derive(Drop)]
struct Meeting {
    came: [AtomicBool; 2],
    refused: usize,
}

impl Meeting {
    fn new(refused: usize) -> Meeting {
        let came = [AtomicBool::new(false), AtomicBool::new(false)];
        Meeting { came, refused }
    }
}

impl Gate for Meeting {
    ghost may_refuse = { λ _. Unit {0} };

    fn enter(&self, key: usize) -> bool {
        let [first, second] = &self.came;
        let (own, other) = if key == 0 {
            (first, second)
        } else {
            (second, first)
        };
        own.store(true, Ordering::SeqCst);
        for _ in 0..TURNS {
            if other.load(Ordering::SeqCst) {
                return key != self.refused;
            }
            thread::yield_now();
        }
        false
    }
}

/// Lets in all but one.
#[derive(Drop)]
struct AllBut {
    key: usize,
}

impl Gate for AllBut {
    ghost may_refuse = { λ _. Unit {0} };

    fn enter(&self, key: usize) -> bool {
        key != self.key
    }
}

/// What is answered of a counter with a gate. None: memory was refused.
fn answer_at<G: Gate + Sync, R: Threads + Wait + Sync>(
    rt: &R,
    alloc: Global,
    history: &str,
    threads: u32,
    gate: &G,
) -> Option<String> {
    let ops = ops_of(alloc, history)?;
    match threads {
        1..=16 => given(
            alloc,
            check_keys_at(rt, alloc, &ops, by(Checker::Counter), threads, gate),
        ),
        _ => None,
    }
}

/// Whether that is answered where the threads of two keys meet, and one of them may not be let in.
fn is_met_by<R: Threads + Wait + Sync>(
    rt: &R,
    alloc: Global,
    history: &str,
    refused: usize,
    expected: &str,
) -> bool {
    let mut answer = answer_at(rt, alloc, history, 2, &Meeting::new(refused));
    if may_lack_memory(&answer, expected) {
        answer = answer_at(rt, alloc, history, 2, &Meeting::new(refused));
    }
    is_given(&answer, expected)
}

const TWO_KEYS: &str =
    "0 :invoke :add [2 5]; 0 :ok :add [2 5]; 0 :invoke :read [1 nil]; 0 :ok :read [1 0]";

const LINE_OF_TWO: &str = "{:valid? true, :keys [[1 {:valid? true, :reads [[0 0 0]], :errors []}] \
    [2 {:valid? true, :reads [], :errors []}]]}";

/// What is found is what is found without a gate, also by the serial call.
#[test]
fn threads_run_at_once(rt: HostRuntime) {
    assert!(rt; is_met_by(&rt, rt.alloc(), TWO_KEYS, 2, LINE_OF_TWO));
    let judging = by(Checker::Counter);
    assert!(rt; is_always_answered(&rt, rt.alloc(), judging, TWO_KEYS, LINE_OF_TWO));
}

#[test]
fn the_first_of_two_at_once_decides(rt: HostRuntime) {
    let history = "0 :ok :add [2 1]; 0 :ok :add [1 1]";
    for (refused, expected) in [
        (0, "thread failed"),
        (1, "operation 1: no invocation"),
        (2, "operation 1: no invocation"),
    ] {
        assert!(rt; is_met_by(&rt, rt.alloc(), history, refused, expected));
    }
}

/// Whether that is answered on each number of threads where one key is not let in.
fn is_answered<R: Threads + Wait + Sync>(
    rt: &R,
    alloc: Global,
    history: &str,
    gate: &AllBut,
    expected: &str,
) -> bool {
    for threads in [1, 2, 16] {
        let mut answer = answer_at(rt, alloc, history, threads, gate);
        if may_lack_memory(&answer, expected) {
            answer = answer_at(rt, alloc, history, threads, gate);
        }
        if !is_given(&answer, expected) {
            return false;
        }
    }
    true
}

/// Asks each row of a history: the place of the key that is not let in, and what is answered.
fn ask_all<R: Threads + Wait + Sync>(
    rt: &R,
    alloc: Global,
    history: &str,
    rows: &str,
) -> Result<(), Fail> {
    for row in rows.trim().lines() {
        let (key, expected) = row.split_once(" => ").ok_or("no answer")?;
        let key = key.trim().parse::<usize>()?;
        if !is_answered(rt, alloc, history, &AllBut { key }, expected) {
            return Err(Fail::new(row));
        }
    }
    Ok(())
}

#[test]
fn a_key_is_not_let_in(rt: HostRuntime) -> Result<(), Fail> {
    let rows = "
        0 => thread failed
        1 => thread failed
        2 => {:valid? true, :keys [[1 {:valid? true, :reads [[0 0 0]], :errors []}] \
        [2 {:valid? true, :reads [], :errors []}]]}";
    ask_all(&rt, rt.alloc(), TWO_KEYS, rows)?;
    let rows = "
        0 => operation 1: bad value
        1 => operation 1: bad value";
    ask_all(&rt, rt.alloc(), "0 :ok :add [1 1]; 0 :ok :add 1", rows)
}

#[test]
fn an_error_before_it_decides(rt: HostRuntime) -> Result<(), Fail> {
    let history = "\
        0 :ok :add [4 1]; 0 :invoke :add [1 5]; 0 :ok :add [1 5]; 0 :ok :add [2 5]; 0 :invoke :add [3 1]";
    let rows = "
        0 => thread failed
        1 => thread failed
        2 => operation 3: no invocation
        3 => operation 3: no invocation
        4 => operation 3: no invocation";
    ask_all(&rt, rt.alloc(), history, rows)
}
