//! What the threads share: which task is next, and what was answered of each. What is true of it
//! whenever its lock is free stands in `specs/Answers.antt`.

ghost use Rattle.std.specs.Prelude.{◌≡◌, ◌<◌, ◌≤◌, IfSome};
ghost use Rattle.jh_tasks.specs.Answers.{AreTaskAnswers};

use crate::tasks::Task;
use std::alloc::{AllocError, Global};
use std::marker::{Model, PhantomData};

/// The answers to tasks, each at the place of its number, and the number of the task that is done
/// next.
#[derive(Drop)]
pub(crate) struct Board<A, T: Task<A>> {
    answers: Vec<Option<A>>,
    next: usize,
    /// No task from here on is begun.
    end: usize,
    of: PhantomData<T>,
}

impl<A, T: Task<A>> Model for Board<A, T> {
    ghost Value = { Unit {0} };

    ghost view = { λ b. tt };

    ghost invariant = { λ b. AreTaskAnswers T.count T.is_right b.answers.items
        × (b.end ≤ T.count) };
}

impl<A: Drop, T: Task<A>> Board<A, T> {
    /// A board for so many tasks, none of which is done.
    pub(crate) fn new(alloc: Global, count: usize) -> Result<Board<A, T>, AllocError>
        requires { count ≡ T.count }
    {
        let mut answers = Vec::with_capacity(alloc, count)?;
        for _ in 0..count {
            answers.push(None)?;
        }
        Ok(Board {
            answers,
            next: 0,
            end: count,
            of: PhantomData,
        })
    }

    /// The number of the next task, where one is left.
    pub(crate) fn take(&mut self) -> Option<usize>
        ensures { IfSome result (λ number. number < T.count) }
    {
        if self.next >= self.end {
            return None;
        }
        let number = self.next;
        self.next += 1;
        Some(number)
    }

    /// Begins no more tasks.
    pub(crate) fn close(&mut self) {
        self.end = 0;
    }

    /// Keeps the answer to a task. After a last one no task of a higher number is begun.
    pub(crate) fn put(&mut self, number: usize, answer: A)
        requires { T.is_right number answer }
    {
        if T::is_last(&answer) {
            self.end = self.end.min(number);
        }
        if number < self.answers.len() {
            self.answers[number] = Some(answer);
        }
    }

    /// All answers, once the threads have ended.
    pub(crate) fn into_answers(self) -> Vec<Option<A>>
        ensures { AreTaskAnswers T.count T.is_right result.items }
    {
        let Board {
            answers,
            next: _,
            end: _,
            of: _,
        } = self;
        answers
    }
}
