//! What is done with each key, and what is answered of that alone. None is answered where memory
//! was refused.

use crate::plain_check::{Case, random_case, random_history};
use crate::spelled::ops_of;
use jh_check::CheckError;
use jh_checkers::{Checker, Judging, check_history, write_finding};
use jh_ops::Workload;
use jh_test_kit::Dice;
use std::alloc::Global;

/// Keys in normal order, each as it is printed. Behind a bar stands how some may be written, too.
const KEYS: &str = r#"
nil
false
true
-9223372036854775808 | -9223372036854775808N
-1
0 | -0
1 | 1N
2
10
9007199254740993
\newline
\A
\a
""
"B"
"a"
"a b"
"ab"
:a
:a/b
:b
a
a/b
b
[] | ()
[nil] | (nil)
[1] | (1)
[1 2] | (1 2N)
[2] | (2)
[[1] 2] | ([1] 2)
[[1 2]] | [(1 2)]
{}
{1 2, [3] 4} | {(3) 4 1 2}
{1 [2 {3 4, 5 6}]} | {1 (2 {5 6 3 4})}
#{}
#{1 2} | #{2 1}
#{[1] #{2 3}} | #{#{3 2} (1)}
#a 1
#a [1] | #a (1)
#b nil
"#;

/// What is done with a key.
#[derive(Drop)]
pub(crate) struct Part {
    /// The key as it is printed.
    pub(crate) key: &'static str,
    /// The key as it may be written, too.
    pub(crate) other: &'static str,
    /// Its history, without the key, and what is answered of that alone.
    pub(crate) case: Case,
}

/// The line of a register, or why there is none. It holds 0 at first.
fn register_answer(alloc: Global, budget: u64, history: &str) -> Option<String> {
    let ops = ops_of(alloc, history)?;
    let judging = Judging {
        initial: Some(0),
        ..Judging::by(Checker::Register, budget)
    };
    match check_history(alloc, &ops, judging) {
        Ok(found) => {
            let mut line = Vec::new(alloc);
            write_finding(&found, &mut line).ok()?;
            String::from_utf8(line).ok()
        }
        Err(CheckError::OutOfMemory) => None,
        Err(error) => error.to_string(alloc).ok(),
    }
}

/// A history of a register. Now and then its first operation is missing, so that it may be in
/// error.
fn random_register(alloc: Global, dice: &mut Dice, budget: u64) -> Option<Case> {
    let most = dice.below(6) + 1;
    let whole = random_history(alloc, dice, most).ok()?;
    let history = match whole.split_once("; ") {
        Some((_, rest)) if dice.below(4) == 0 => rest.to_string(alloc).ok()?,
        _ => whole,
    };
    let answer = register_answer(alloc, budget, &history)?;
    Some(Case { history, answer })
}

/// A random history of the workload with its answer, which may be an error.
fn any_case(alloc: Global, dice: &mut Dice, workload: Workload, budget: u64) -> Option<Case> {
    match workload {
        Workload::Register => random_register(alloc, dice, budget),
        _ => random_case(alloc, workload, dice.below(1 << 31)).ok(),
    }
}

/// A history with its answer. Where it is to be judged, the answer is no error.
fn case_of(
    alloc: Global,
    dice: &mut Dice,
    workload: Workload,
    budget: u64,
    is_judged: bool,
) -> Option<Case> {
    for _ in 0..100 {
        let case = any_case(alloc, dice, workload, budget)?;
        if !is_judged || case.answer.starts_with("{") {
            return Some(case);
        }
    }
    None
}

/// The histories of up to forty keys. In half of the calls no answer is an error.
pub(crate) fn random_parts(
    alloc: Global,
    dice: &mut Dice,
    workload: Workload,
    budget: u64,
) -> Option<Vec<Part>> {
    let mut parts = Vec::new(alloc);
    let most = dice.below(40).min(dice.below(40)) + 1;
    let is_judged = dice.below(2) == 0;
    for row in KEYS.trim().lines() {
        if dice.below(40) < most {
            let (key, other) = row.split_once(" | ").unwrap_or((row, row));
            let case = case_of(alloc, dice, workload, budget, is_judged)?;
            parts.push(Part { key, other, case }).ok()?;
        }
    }
    Some(parts)
}
