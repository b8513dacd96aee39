//! The checkers of a register and of a mutex: their operations, as `jh_linear` has them, judged by
//! `jh_unique`, with the explanation that is asked for. `specs/Findings.antt` has the rule.

ghost use Rattle.std.specs.Prelude.{◌≡◌, MatchResult};
ghost use Rattle.jh_ops.specs.Operation.{operations};
ghost use Rattle.jh_checkers.specs.Findings as rule;
ghost use Rattle.jh_checkers.specs.Findings.{IsFindingBy, IsLinear, RefusesObject};
ghost use Rattle.jh_checkers.specs.RegisterInside as inside;
ghost use Rattle.jh_checkers.specs.declared.checker.Checker.TheVariants as Checker;
ghost use Rattle.jh_linear.specs.declared.operations.Object.TheVariants as Object;

use crate::explanation::{Explanation, explained};
use crate::finding::{Finding, Judging};
use jh_check::{CheckError, Verdict};
use jh_linear::{FREE, HELD, LinVerdict, Object, RegOpsError, reg_ops};
use jh_ops::{Op, pair};
use std::alloc::Global;

/// The verdict of what the judge of a register or a mutex answered.
pub(crate) fn verdict_of_register(judged: &LinVerdict) -> Verdict
    ensures { result ≡ rule.verdict_of_register judged.now }
{
    match judged {
        LinVerdict::Valid(_) => Verdict::True,
        LinVerdict::Invalid(_) => Verdict::False,
        LinVerdict::Unknown(_) => Verdict::Unknown,
    }
}

/// The error of a checker for one of `jh_linear`.
fn error_of(error: RegOpsError) -> CheckError
    ensures { result ≡ inside.error_of error }
{
    match error {
        RegOpsError::BadValue(place) => CheckError::BadValue(place),
        RegOpsError::OutOfMemory => CheckError::OutOfMemory,
    }
}

/// What the judge finds in the operations of an object that holds this at first, and the explanation
/// that is asked for.
///
/// Errors: `Pair`, then `BadValue` at the least place of one; `OutOfMemory` for the pairs, or where no
/// value is bad.
fn judged_object(
    alloc: Global,
    object: Object,
    initial: Option<i64>,
    history: &[Op],
    judging: Judging<'_>,
) -> Result<(LinVerdict, Option<Explanation>), CheckError>
    ensures { MatchResult result
        (λ found. IsLinear object initial judging.entry (operations history.now) found.0 found.1)
        (RefusesObject object (operations history.now)) }
{
    let pairs = pair(alloc, history)?;
    let ops = match reg_ops(alloc, object, history, &pairs) {
        Ok(ops) => ops,
        Err(error) => return Err(error_of(error)),
    };
    let judged = jh_unique::check_register(alloc, &ops, initial, judging.budget)?;
    let explanation = explained(alloc, judging.explain, history, &ops, initial, &judged)?;
    Ok((judged, explanation))
}

/// What the judge finds in the operations of a register.
///
/// Errors: those of `judged_object`.
pub(crate) fn check_register(
    alloc: Global,
    history: &[Op],
    judging: Judging<'_>,
) -> Result<Finding, CheckError>
    ensures { MatchResult result
        (IsFindingBy Checker.Register judging.entry (operations history.now))
        (RefusesObject Object.Register (operations history.now)) }
{
    let (judged, explanation) = judged_object(
        alloc,
        Object::Register,
        judging.initial,
        history,
        judging,
    )?;
    Ok(Finding::Register {
        judged,
        explanation,
    })
}

/// What a mutex holds at first, as the register that it is judged as.
fn mutex_start(locked: bool) -> i64
    ensures { result ≡ rule.mutex_start locked }
{
    if locked { HELD } else { FREE }
}

/// What the judge finds in the operations of a mutex.
///
/// Errors: those of `judged_object`.
pub(crate) fn check_mutex(
    alloc: Global,
    history: &[Op],
    judging: Judging<'_>,
) -> Result<Finding, CheckError>
    ensures { MatchResult result
        (IsFindingBy Checker.Mutex judging.entry (operations history.now))
        (RefusesObject Object.Mutex (operations history.now)) }
{
    let initial = Some(mutex_start(judging.locked));
    let (judged, explanation) = judged_object(alloc, Object::Mutex, initial, history, judging)?;
    Ok(Finding::Mutex {
        judged,
        explanation,
    })
}
