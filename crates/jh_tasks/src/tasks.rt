//! Tasks on several threads.

ghost use Rattle.std.specs.Prelude.{◌≡◌, ◌<◌, ℕ, Bool, false, IfOk};
ghost use Rattle.std.specs.Option.{option_map_or};
ghost use Rattle.std.specs.Thread.{IsSync};
ghost use Rattle.jh_tasks.specs.Answers.{AreDone, AreTaskAnswers};
ghost use Rattle.jh_tasks.specs.Threads.{IsThreadCount};

use crate::board::Board;
use std::alloc::{AllocError, Global};
use std::sync::{Mutex, Wait};
use std::thread;
use std::thread::Threads;

/// How many threads may work on the tasks of one call, the calling one among them.
pub const MAX_THREADS: usize = 16;

/// So many tasks, numbered from 0, each with an answer.
pub trait Task<A> {
    /// How many there are.
    ghost count: { ℕ };

    /// This is a right answer to the task of a number.
    ghost is_right: { ℕ → A → Type 0 };

    /// No task of a higher number matters after this answer.
    ghost ends: { A → Bool };

    /// Does the task of this number.
    fn answer_at(&self, number: usize) -> A
        requires { number < count }
        ensures { is_right number result };

    /// Whether no task of a higher number matters after an answer.
    fn is_last(answer: &A) -> bool
        ensures { result ≡ ends answer.now };
}

/// What was answered to tasks.
#[derive(Drop)]
pub struct TaskAnswers<A> {
    /// The answer to each task, at the place of its number.
    pub of_each: Vec<Option<A>>,
    /// A thread could not be had, and the tasks that were not begun by then are not done.
    pub lost_thread: bool,
}

/// What each thread does: it takes the next task until none is left.
fn do_tasks<A: Drop, T: Task<A>, R: Wait>(
    rt: &R,
    task: &T,
    board: &Mutex<Board<A, T>>,
    count: usize,
) {
    for _ in 0..count {
        let Some(number) = board.lock(rt).take() else {
            return;
        };
        let answer = task.answer_at(number);
        board.lock(rt).put(number, answer);
    }
}

/// What several threads do with a board. The board is a type parameter, so that it is shown by
/// itself to be safe to share.
trait Work<B> {
    /// What each thread does.
    fn work_at<R: Wait>(&self, rt: &R, board: &B);

    /// Leaves all tasks undone that were not taken yet.
    fn close<R: Wait>(&self, rt: &R, board: &B);
}

/// So many tasks, as what the threads do.
#[derive(Drop)]
struct Tasks<'a, T> {
    task: &'a T,
    count: usize,
}

impl<'a, A: Drop, T: Task<A>> Work<Mutex<Board<A, T>>> for Tasks<'a, T> {
    fn work_at<R: Wait>(&self, rt: &R, board: &Mutex<Board<A, T>>) {
        do_tasks(rt, self.task, board, self.count)
    }

    fn close<R: Wait>(&self, rt: &R, board: &Mutex<Board<A, T>>) {
        board.lock(rt).close();
    }
}

/// Works on this thread and on so many others, all of which have ended when this returns. Gives whether
/// a thread could not be had: the tasks that were not taken by then are left undone.
fn work_on_threads<K: Work<B> + Sync, B: Sync, R: Threads + Wait + Sync>(
    rt: &R,
    work: &K,
    board: &B,
    others: usize,
) -> bool {
    thread::scope(
        thread::scope_env(),
        rt,
        |scope|
            requires { IsSync R.row × (IsSync K.row × IsSync B.row) }
        {
            let mut lost = false;
            for _ in 0..others {
                if scope.spawn(move || work.work_at(rt, board)).is_err() {
                    work.close(rt, board);
                    lost = true;
                    break;
                }
            }
            work.work_at(rt, board);
            lost
        },
    )
}

/// Whether the answer is there, and is a last one.
fn ends_all<A, T: Task<A>>(answer: &Option<A>) -> bool
    ensures { result ≡ option_map_or T.ends answer.now false }
{
    match answer {
        Some(answer) => T::is_last(answer),
        None => false,
    }
}

/// Does each task that has no answer yet, in order, up to a last answer. One thread alone does all
/// tasks here, without a lock. Where several threads worked, nothing is left to do, for each of them
/// goes on until no task is left to take. But what is known behind the lock cannot say so: it does
/// not tell which tasks a thread has taken and not answered yet. So the caller goes through all
/// tasks once more by itself, and each is then done, whatever the order in which the threads worked.
fn do_rest<A: Drop, T: Task<A>>(task: &T, answers: &mut Vec<Option<A>>)
    requires { AreTaskAnswers T.count T.is_right answers.old.items }
    ensures right { AreTaskAnswers T.count T.is_right answers.new.items }
    ensures done { AreDone T.ends answers.new.items }
{
    for number in 0..answers.len() {
        if answers[number].is_none() {
            answers[number] = Some(task.answer_at(number));
        }
        if ends_all::<A, T>(&answers[number]) {
            return;
        }
    }
}

/// Does tasks on so many threads, this one among them, and gives what was answered to each, at the
/// place of its number. A thread that is free takes the next task, and none behind a last answer is
/// begun. All threads have ended when it returns.
///
/// An answer is missing where the task was not begun: it is behind a last answer, or a thread could
/// not be had. Where one thread is wanted, no other is asked for.
///
/// May wait, and promises only if it returns. Where there are fewer tasks than threads, fewer
/// threads are made.
///
/// Error: memory was refused, for a place for each answer. No task was done then.
pub fn answer_tasks<A: Send + Drop, T: Task<A> + Send + Sync, R: Threads + Wait + Sync>(
    rt: &R,
    alloc: Global,
    task: &T,
    count: usize,
    threads: u32,
) -> Result<TaskAnswers<A>, AllocError>
    requires count { count ≡ T.count }
    requires threads { IsThreadCount threads }
    ensures right { IfOk result
        (λ answers. AreTaskAnswers T.count T.is_right answers.of_each.items) }
    ensures done { IfOk result
        (λ answers. answers.lost_thread ≡ false → AreDone T.ends answers.of_each.items) }
    ensures alone { IfOk result (λ answers. threads ≡ 1 → answers.lost_thread ≡ false) }
{
    let board = Mutex::new(Board::<A, T>::new(alloc, count)?);
    let others = count.min(threads as usize).saturating_sub(1);
    let tasks = Tasks { task, count };
    let lost_thread = others > 0
        && work_on_threads::<Tasks<'_, T>, Mutex<Board<A, T>>, R>(rt, &tasks, &board, others);
    let mut of_each = board.into_inner().into_answers();
    if !lost_thread {
        do_rest(task, &mut of_each);
    }
    Ok(TaskAnswers {
        of_each,
        lost_thread,
    })
}
