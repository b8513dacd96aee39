//! Candidates tried on several threads, block by block. What is found is what `search_serial` may
//! find.

ghost use Rattle.std.specs.Prelude.{◌≡◌, ◌<◌, ◌≤◌, ◌+◌, ◌^◌, ℕ, false, IfOk, IsErrOf, length};
ghost use Rattle.jh_tasks.specs.Answers.{AreDone, AreTaskAnswers};
ghost use Rattle.jh_tasks.specs.Threads.{IsThreadCount};
ghost use Rattle.jh_search.specs.Search.{ComesOf, IsSearched};
ghost use Rattle.jh_search.specs.SearchInside.{AreTries, HasTried, LeadsToNext, ends_search};
ghost use Rattle.jh_check.specs.declared.verdict.Verdict.{Verdict};
ghost use Rattle.jh_search.specs.declared.threads.SearchError.TheVariants.{OutOfMemory};

use crate::options::Options;
use crate::serial::Searched;
use crate::verdicts::verdict_at;
use jh_check::Verdict;
use jh_simnode::Plan;
use jh_tasks::{Task, TaskAnswers, answer_tasks};
use std::alloc::{AllocError, Global};
use std::marker::{Brand, Model, PhantomData};
use std::sync::Wait;
use std::thread::Threads;
use thiserror::Error;

/// How many candidates the threads share at once: so a search of any length takes the memory of so
/// many answers, and an observer is told each time.
const MAX_BLOCK: u64 = 1_024;

/// Who is told how far a search is.
pub trait SearchObserver {
    /// `tried` candidates were tried and do not fail; of these, the verdict on `unknown` is unknown.
    fn see_tried(&mut self, tried: u64, unknown: u64);
}

/// Why a search ends without an answer.
#[derive(Clone, Copy, Debug, PartialEq, Eq, Error)]
pub enum SearchError {
    /// A thread could not be had.
    #[error("thread")]
    Thread,
    #[error("out of memory")]
    OutOfMemory,
}

impl From<AllocError> for SearchError {
    ghost use Rattle.std.specs.Prelude.{◌≡◌};
    ghost use Rattle.jh_search.specs.declared.threads.SearchError.TheVariants.{OutOfMemory};

    ghost from_gives = { λ _ e. e ≡ OutOfMemory };

    fn from(_error: AllocError) -> SearchError {
        SearchError::OutOfMemory
    }
}

/// What trying one candidate gave.
type Answer = Result<Verdict, AllocError>;

/// The candidates of a block, as a name in the types for the prover alone: how many there are, and
/// what may come of each. `Brand` makes a new one for each block.
pub trait Tries {
    /// How many there are.
    ghost count: { ℕ };

    /// What may come of each.
    ghost comes: { ℕ → Verdict → Type 0 };
}

impl Tries for Brand {
    ghost count = { 0 };

    ghost comes = { λ index verdict. Unit {0} };
}

/// The candidates from a number on.
#[derive(Drop)]
struct Candidates<'a, Q: Tries> {
    alloc: Global,
    plan: &'a Plan,
    options: &'a Options,
    from: u64,
    of: PhantomData<Q>,
}

impl<'a, Q: Tries> Model for Candidates<'a, Q> {
    ghost Value = { Unit {0} };

    ghost view = { λ c. tt };

    ghost invariant = { λ c. AreTries c.plan.now c.options.now c.from Q.count Q.comes };
}

impl<'a, Q: Tries> Task<Answer> for Candidates<'a, Q> {
    ghost count = { Q.count };

    ghost is_right = { λ index answer. IfOk answer (Q.comes index) };

    ghost ends = { ends_search };

    fn answer_at(&self, number: usize) -> Answer {
        verdict_at(
            self.alloc,
            self.plan,
            self.options,
            self.from + number as u64,
        )
    }

    fn is_last(answer: &Answer) -> bool
        ensures { result ≡ ends_search answer.now }
    {
        matches!(answer, Err(_) | Ok(Verdict::False))
    }
}

/// The answers of so many candidates from a number on, tried on threads, where the types name them.
fn tried<Q: Tries + Send + Sync, R: Threads + Wait + Sync>(
    rt: &R,
    alloc: Global,
    plan: &Plan,
    options: &Options,
    from: u64,
    count: usize,
    threads: u32,
) -> Result<TaskAnswers<Answer>, AllocError>
    requires tries { AreTries plan.now options.now from Q.count Q.comes }
    requires count { count ≡ Q.count }
    requires threads { IsThreadCount threads }
    ensures right { IfOk result
        (λ answers. AreTaskAnswers Q.count
        (λ index answer. IfOk answer (Q.comes index)) answers.of_each.items) }
    ensures done { IfOk result
        (λ answers. answers.lost_thread ≡ false → AreDone ends_search answers.of_each.items) }
    ensures alone { IfOk result (λ answers. threads ≡ 1 → answers.lost_thread ≡ false) }
{
    let candidates = Candidates::<'_, Q> {
        alloc,
        plan,
        options,
        from,
        of: PhantomData,
    };
    answer_tasks::<Answer, Candidates<'_, Q>, R>(rt, alloc, &candidates, count, threads)
}

/// The answers of the candidates of a block, tried on threads.
fn block<R: Threads + Wait + Sync>(
    rt: &R,
    alloc: Global,
    plan: &Plan,
    options: &Options,
    from: u64,
    count: usize,
    threads: u32,
) -> Result<TaskAnswers<Answer>, AllocError>
    requires few { from + count < 2 ^ 64 }
    requires threads { IsThreadCount threads }
    ensures right { IfOk result (λ answers. AreTaskAnswers count
        (λ index answer. IfOk answer (ComesOf plan.now options.now (from + index)))
        answers.of_each.items) }
    ensures done { IfOk result
        (λ answers. answers.lost_thread ≡ false → AreDone ends_search answers.of_each.items) }
    ensures alone { IfOk result (λ answers. threads ≡ 1 → answers.lost_thread ≡ false) }
{
    tried::<Brand, R>(rt, alloc, plan, options, from, count, threads)
}

/// Where a search stands: how many candidates were tried, none of which fails, and how many of
/// these are unknown.
#[derive(Clone, Copy)]
struct SearchCounts {
    tried: u64,
    unknown: u64,
}

/// What a block leads to.
#[derive(Clone, Copy)]
enum Next {
    Found(Searched),
    Goes(SearchCounts),
}

/// What the answers of a block lead to.
fn after_block(
    plan: &Plan,
    options: &Options,
    progress: SearchCounts,
    answers: &[Option<Answer>],
    lost_thread: bool,
) -> Result<Next, SearchError>
    requires tried { HasTried plan.now options.now progress.tried progress.unknown }
    requires answers { AreTaskAnswers (length answers.now)
        (λ index answer.
        IfOk answer (ComesOf plan.now options.now (options.now.from + progress.tried + index)))
        answers.now }
    requires done { lost_thread ≡ false → AreDone ends_search answers.now }
    requires few { progress.tried + length answers.now ≤ options.now.runs }
    requires range { options.now.from + options.now.runs < 2 ^ 64 }
    ensures next { IfOk result
        (LeadsToNext plan.now options.now (progress.tried + length answers.now)) }
    ensures thread { lost_thread ≡ false → IsErrOf result SearchError.Thread → ⊥ }
{
    let mut next = progress;
    for answer in answers {
        let verdict = match answer {
            Some(Ok(verdict)) => *verdict,
            Some(Err(error)) => return Err(SearchError::from(*error)),
            None => return Err(SearchError::Thread),
        };
        match verdict {
            Verdict::False => {
                return Ok(Next::Found(Searched {
                    failing: Some(options.from + next.tried),
                    unknown: next.unknown,
                }));
            }
            Verdict::True => {}
            Verdict::Unknown => next.unknown += 1,
        }
        next.tried += 1;
    }
    Ok(Next::Goes(next))
}

/// Tries candidates on so many threads, this one among them: what is found is what `search_serial`
/// may find, the least candidate that fails, whatever the number of threads. A thread that is free
/// takes the next candidate, and once one is known to fail none above it is begun. All threads have
/// ended when it returns. It tells an observer after each 1,024 candidates how many were tried.
///
/// May wait, and promises only if it returns. Takes the time of each run and of its judge, and
/// memory for one at a time for each thread, and 2 bytes for each candidate of 1,024 at once.
///
/// Errors: at the first candidate that was not tried, `Thread` where a thread could not be had, so
/// never with one thread; `OutOfMemory`.
pub fn search<R: Threads + Wait + Sync, O: SearchObserver>(
    rt: &R,
    alloc: Global,
    plan: &Plan,
    options: &Options,
    threads: u32,
    observer: &mut O,
) -> Result<Searched, SearchError>
    requires range { options.now.from + options.now.runs < 2 ^ 64 }
    requires threads { IsThreadCount threads }
    ensures found { IfOk result (IsSearched plan.now options.now) }
    ensures alone { threads ≡ 1 → IsErrOf result SearchError.Thread → ⊥ }
{
    let mut progress = SearchCounts {
        tried: 0,
        unknown: 0,
    };
    while progress.tried < options.runs {
        let count = (options.runs - progress.tried).min(MAX_BLOCK) as usize;
        let from = options.from + progress.tried;
        let answers = block(rt, alloc, plan, options, from, count, threads)?;
        match after_block(
            plan,
            options,
            progress,
            &answers.of_each,
            answers.lost_thread,
        )? {
            Next::Found(found) => return Ok(found),
            Next::Goes(next) => progress = next,
        }
        observer.see_tried(progress.tried, progress.unknown);
    }
    Ok(Searched {
        failing: None,
        unknown: progress.unknown,
    })
}
