//! The keys of a history judged on several threads. What is found is what `check_keys_serial` may
//! find: `specs/Refusals.antt` has the rule of both.

ghost use Rattle.std.specs.Prelude.{◌≡◌, ℕ, false, is_err, IfOk, IsErrOf, MatchResult};
ghost use Rattle.jh_ops.specs.Operation.{operations};
ghost use Rattle.jh_tasks.specs.Answers.{AreDone};
ghost use Rattle.jh_tasks.specs.Threads.{IsThreadCount};
ghost use Rattle.jh_independent.specs.AnswersInside.{AreAnswers, AreKeysAsked, IsAnswerThrough, keys_count};
ghost use Rattle.jh_independent.specs.AnswersInside.{RefusesSome};
ghost use Rattle.jh_independent.specs.Keys.{AreTuples};
ghost use Rattle.jh_independent.specs.Refusals.{AreFindings, KeysQuestion, RefusesKeys, keys_question};
ghost use Rattle.jh_independent.specs.SplitInside.{groups_of, view_groups};

use crate::error::KeysError;
use crate::parts::check_key;
use crate::serial::KeyFinding;
use crate::sharing::{
    findings_can_be_sent, operations_can_be_shared, places_can_be_shared, values_can_be_shared,
};
use crate::split::{KeyPlaces, split};
use jh_checkers::{Finding, Judging};
use jh_ops::Op;
use jh_tasks::{Task, TaskAnswers, answer_tasks};
use std::alloc::{AllocError, Global};
use std::marker::{Brand, Model, PhantomData};
use std::sync::Wait;
use std::thread::Threads;

/// Who lets threads in to keys.
pub trait Gate {
    /// The key of this place may be refused its thread.
    ghost may_refuse: { ℕ → Type 0 };

    /// Whether the key of this place, in normal order from 0, is judged. Asked by the thread that
    /// is to judge it, before it does.
    fn enter(&self, key: usize) -> bool
        ensures { result ≡ false → may_refuse key };
}

/// Lets all in.
struct Open;

impl Gate for Open {
    ghost may_refuse = { λ _. ⊥ };

    fn enter(&self, _key: usize) -> bool {
        true
    }
}

/// What is asked of the threads of one call, as a name in the types for the prover alone: `Brand` makes a
/// new one for each call, so that no answer of another call is taken for one of this.
pub trait Asking {
    /// The history, and what it is judged by.
    ghost asked: { KeysQuestion };
}

impl Asking for Brand {
    ghost use Rattle.jh_independent.specs.AnswersInside.{no_question};

    ghost asked = { no_question };
}

/// What the check of one key gave.
type Answer = Result<Finding, KeysError>;

/// The keys of the history that is asked about, as tasks that threads share.
#[derive(Drop)]
struct Keys<'a, Q: Asking, G> {
    alloc: Global,
    history: &'a [Op],
    groups: &'a [KeyPlaces],
    judging: Judging<'a>,
    gate: &'a G,
    of: PhantomData<Q>,
}

impl<'a, Q: Asking, G> Model for Keys<'a, Q, G> {
    ghost Value = { Unit {0} };

    ghost view = { λ k. tt };

    ghost invariant = { λ k.
        AreKeysAsked Q.asked k.judging (operations k.history.now) k.groups.now };
}

impl<'a, Q: Asking, G: Gate> Task<Answer> for Keys<'a, Q, G> {
    ghost count = { keys_count Q.asked };

    ghost is_right = { IsAnswerThrough Q.asked G.may_refuse };

    ghost ends = { is_err };

    fn answer_at(&self, number: usize) -> Answer {
        if !self.gate.enter(number) {
            return Err(KeysError::Thread);
        }
        match self.groups.get(number) {
            Some(group) => check_key(self.alloc, self.history, self.judging, group),
            None => unreachable!(),
        }
    }

    fn is_last(answer: &Answer) -> bool {
        answer.is_err()
    }
}

/// What is answered of each key. By itself, so that what is safe to share is shown of few values.
fn answers_of<Q: Asking + Send + Sync, G: Gate + Sync, R: Threads + Wait + Sync>(
    rt: &R,
    keys: &Keys<'_, Q, G>,
    threads: u32,
) -> Result<TaskAnswers<Answer>, AllocError>
    requires { IsThreadCount threads }
    ensures right { IfOk result (λ answers. AreAnswers Q.asked G.may_refuse answers.of_each.items) }
    ensures done { IfOk result
        (λ answers. answers.lost_thread ≡ false → AreDone is_err answers.of_each.items) }
    ensures alone { IfOk result (λ answers. threads ≡ 1 → answers.lost_thread ≡ false) }
{
    findings_can_be_sent();
    values_can_be_shared();
    operations_can_be_shared();
    places_can_be_shared();
    answer_tasks::<Answer, Keys<'_, Q, G>, R>(rt, keys.alloc, keys, keys.groups.len(), threads)
}

/// The findings in the order of the keys, or what ended them: the first answer that is none, or a
/// key that no thread judged.
fn collected<Q: Asking, G: Gate>(
    alloc: Global,
    groups: Vec<KeyPlaces>,
    answers: TaskAnswers<Answer>,
) -> Result<Vec<KeyFinding>, KeysError>
    requires tuples { AreTuples Q.asked.history }
    requires groups { view_groups groups.items ≡ groups_of Q.asked.history }
    requires right { AreAnswers Q.asked G.may_refuse answers.of_each.items }
    requires done { answers.lost_thread ≡ false → AreDone is_err answers.of_each.items }
    ensures found { MatchResult result (λ found. AreFindings Q.asked found.items)
        (RefusesKeys Q.asked) }
    ensures let_in { answers.lost_thread ≡ false → IsErrOf result KeysError.Thread
        → RefusesSome G.may_refuse }
{
    let mut found = Vec::with_capacity(alloc, groups.len())?;
    for (group, answer) in groups.into_iter().zip(answers.of_each) {
        let finding = answer.unwrap_or(Err(KeysError::Thread))?;
        found.push(KeyFinding {
            key: group.key,
            finding,
        })?;
    }
    Ok(found)
}

/// The keys of a question judged.
fn judged<Q: Asking + Send + Sync, G: Gate + Sync, R: Threads + Wait + Sync>(
    rt: &R,
    alloc: Global,
    history: &[Op],
    judging: Judging<'_>,
    groups: Vec<KeyPlaces>,
    threads: u32,
    gate: &G,
) -> Result<Vec<KeyFinding>, KeysError>
    requires asks { keys_question judging (operations history.now) ≡ Q.asked }
    requires tuples { AreTuples (operations history.now) }
    requires groups { view_groups groups.items ≡ groups_of (operations history.now) }
    requires threads { IsThreadCount threads }
    ensures found { MatchResult result
        (λ found. AreFindings (keys_question judging.entry (operations history.now)) found.items)
        (RefusesKeys (keys_question judging.entry (operations history.now))) }
    ensures alone { threads ≡ 1 → IsErrOf result KeysError.Thread → RefusesSome G.may_refuse }
{
    let keys = Keys::<'_, Q, G> {
        alloc,
        history,
        groups: &groups,
        judging,
        gate,
        of: PhantomData,
    };
    let answers = answers_of::<Q, G, R>(rt, &keys, threads)?;
    collected::<Q, G>(alloc, groups, answers)
}

/// Judges a history of independent keys as `check_keys_serial` does, on so many threads, this one
/// among them. Each next thread that is free takes the next key, and asks the gate before it judges
/// it. All threads have ended when it returns.
///
/// What is found is what `check_keys_serial` may find, whatever the number of threads: for a register, a
/// mutex, a first-in-first-out queue and transactions each finding is what the judge promises, and for all
/// others there is one line (`key_findings_agree`).
///
/// May wait, and promises only if it returns. Where there are fewer keys than threads, fewer
/// threads are made.
///
/// Errors: those of `check_keys_serial`, and at the first key that was not judged, `Thread`, where
/// the gate did not let its thread in or a thread could not be had. With one thread none is asked
/// for, and `Thread` is the gate's alone.
pub fn check_keys_at<G: Gate + Sync, R: Threads + Wait + Sync>(
    rt: &R,
    alloc: Global,
    history: &[Op],
    judging: Judging<'_>,
    threads: u32,
    gate: &G,
) -> Result<Vec<KeyFinding>, KeysError>
    requires { IsThreadCount threads }
    ensures found { MatchResult result
        (λ found. AreFindings (keys_question judging.entry (operations history.now)) found.items)
        (RefusesKeys (keys_question judging.entry (operations history.now))) }
    ensures alone { threads ≡ 1 → IsErrOf result KeysError.Thread
        → (place : ℕ) × G.may_refuse place }
{
    let groups = split(alloc, history)?;
    judged::<Brand, G, R>(rt, alloc, history, judging, groups, threads, gate)
}

/// Judges a history of independent keys on so many threads: `check_keys_at` with a gate that lets
/// all in.
///
/// Errors: those of `check_keys_at`, and so with one thread never `Thread`.
pub fn check_keys<R: Threads + Wait + Sync>(
    rt: &R,
    alloc: Global,
    history: &[Op],
    judging: Judging<'_>,
    threads: u32,
) -> Result<Vec<KeyFinding>, KeysError>
    requires { IsThreadCount threads }
    ensures found { MatchResult result
        (λ found. AreFindings (keys_question judging.entry (operations history.now)) found.items)
        (RefusesKeys (keys_question judging.entry (operations history.now))) }
    ensures alone { threads ≡ 1 → IsErrOf result KeysError.Thread → ⊥ }
{
    check_keys_at(rt, alloc, history, judging, threads, &Open)
}
