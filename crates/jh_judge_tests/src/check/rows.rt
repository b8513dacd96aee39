//! Rows of histories with what is answered, and who is asked.
//!
//! A row is a line `GIVEN => ANSWER`. A history is its operations, `PROCESS TYPE F VALUE` each, with `; ` between two;
//! a `;` may stand behind the last. What is missing behind an operation is left out. A table is one text, since the
//! proof of an array takes a second for each row.

ghost use Rattle.std.specs.Prelude.{IfOk, IfSome};
ghost use Rattle.jh_linear.specs.Order.{EndAfterInvoked};

use crate::spelled::ops_of;
use jh_check::{
    CheckError, check_counter, check_set, check_unique, write_counter, write_ids, write_set,
};
use jh_edn::EdnError;
use jh_linear::{LinVerdict, Object, RegOp, RegOpsError, check, check_order, reg_ops};
use jh_ops::{Op, Workload, pair};
use std::alloc::Global;
use std::test::Fail;

/// What the rows of a table ask. A register holds 0 at first.
#[derive(Clone, Copy)]
pub(crate) enum Ask<'a> {
    /// The line of a checker on a history, or the message of its error.
    Checker(Workload),
    /// What the judge of a register says of a history within a budget: `order` with its places, `none` with the place of
    /// the completion at which it is stuck, or `unknown` with the number of steps; or the message of the error.
    Judge(u64),
    /// What is wrong with places as an order of this history: the message of the error, or `order`.
    Places(&'a str),
}

/// The operations of a register in a history. None: memory was refused.
pub(crate) fn calls_in(alloc: Global, history: &str) -> Option<Result<Vec<RegOp>, RegOpsError>>
    ensures { IfSome result (λ made. IfOk made (λ calls. EndAfterInvoked calls.items)) }
{
    let ops = ops_of(alloc, history)?;
    let pairs = pair(alloc, &ops).ok()?;
    match reg_ops(alloc, Object::Register, &ops, &pairs) {
        Err(RegOpsError::OutOfMemory) => None,
        made => Some(made),
    }
}

/// The line of a checker, or why there is none.
fn line_of(alloc: Global, workload: Workload, ops: &[Op]) -> Result<Vec<u8>, CheckError> {
    let mut line = Vec::new(alloc);
    let written: Result<(), EdnError> = match workload {
        Workload::Set => write_set(&check_set(alloc, ops)?, &mut line),
        Workload::Counter => write_counter(&check_counter(alloc, ops)?, &mut line),
        _ => write_ids(&check_unique(alloc, ops)?, &mut line),
    };
    match written {
        Ok(()) => Ok(line),
        Err(_) => Err(CheckError::OutOfMemory),
    }
}

fn checked(alloc: Global, workload: Workload, history: &str) -> Option<String> {
    match line_of(alloc, workload, &ops_of(alloc, history)?) {
        Ok(line) => String::from_utf8(line).ok(),
        Err(CheckError::OutOfMemory) => None,
        Err(error) => error.to_string(alloc).ok(),
    }
}

/// The text of a verdict.
fn verdict_text(alloc: Global, verdict: &LinVerdict) -> Option<String> {
    match verdict {
        LinVerdict::Valid(order) => {
            let mut text = "order".to_string(alloc).ok()?;
            for place in order.as_slice() {
                text.push_str(&format!(in alloc; " {place}").ok()?).ok()?;
            }
            Some(text)
        }
        LinVerdict::Invalid(stuck) => format!(in alloc; "none at {}", stuck.end).ok(),
        LinVerdict::Unknown(reached) => {
            format!(in alloc; "unknown {}", reached.as_slice().len()).ok()
        }
    }
}

fn judged(alloc: Global, budget: u64, history: &str) -> Option<String> {
    match calls_in(alloc, history)? {
        Ok(calls) => verdict_text(alloc, &check(alloc, &calls, Some(0), budget).ok()?),
        Err(error) => error.to_string(alloc).ok(),
    }
}

fn ordered(alloc: Global, history: &str, places: &str) -> Option<String> {
    let calls = calls_in(alloc, history)?.ok()?;
    let mut order = Vec::new(alloc);
    for place in places.split_whitespace() {
        order.push(place.parse::<usize>().ok()?).ok()?;
    }
    match check_order(&calls, Some(0), &order) {
        Ok(()) => "order".to_string(alloc).ok(),
        Err(error) => error.to_string(alloc).ok(),
    }
}

/// What is answered. None: memory was refused.
pub(crate) fn answer(alloc: Global, ask: Ask, given: &str) -> Option<String> {
    match ask {
        Ask::Checker(workload) => checked(alloc, workload, given),
        Ask::Judge(budget) => judged(alloc, budget, given),
        Ask::Places(history) => ordered(alloc, history, given),
    }
}

/// Whether that is answered, asked once more where memory was refused.
fn is_answered(alloc: Global, ask: Ask, given: &str, expected: &str) -> bool {
    let found = match answer(alloc, ask, given) {
        None => answer(alloc, ask, given),
        found => found,
    };
    found.is_some_and(|found| found.as_str() == expected)
}

/// Asks each row. One with another answer is the failure.
pub(crate) fn ask_all(alloc: Global, ask: Ask, rows: &str) -> Result<(), Fail> {
    for row in rows.trim().lines() {
        let (given, expected) = row.split_once("=> ").ok_or("no answer")?;
        if !is_answered(alloc, ask, given.trim(), expected) {
            return Err(Fail::new(row));
        }
    }
    Ok(())
}
