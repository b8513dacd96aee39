//! Tasks that threads share, and the first call that the README of `jh_tasks` shows.

ghost use Rattle.std.specs.Prelude.{◌≡◌, ◌%◌, ◌==◌, false};
ghost use Rattle.jh_tasks.specs.Threads.{IsThreadCount};

use jh_tasks::{Task, answer_tasks};
use std::alloc::Global;
use std::sync::Wait;
use std::thread::Threads;

/// Whether each number below 1,000 is even.
struct Evens;

impl Task<bool> for Evens {
    ghost count = { 1000 };

    ghost is_right = { λ number answer. answer ≡ ((number % 2) == 0) };

    ghost ends = { λ _. false };

    fn answer_at(&self, number: usize) -> bool {
        number % 2 == 0
    }

    fn is_last(_answer: &bool) -> bool {
        false
    }
}

/// How many of them are even, by so many threads. None: memory was refused, or a thread.
fn count_evens<R: Threads + Wait + Sync>(rt: &R, alloc: Global, threads: u32) -> Option<usize>
    requires { IsThreadCount threads }
{
    let answers = answer_tasks(rt, alloc, &Evens, 1_000, threads).ok()?;
    let mut evens = 0usize;
    for answer in &answers.of_each {
        if (*answer)? {
            evens = evens.saturating_add(1);
        }
    }
    Some(evens)
}

#[test]
fn each_task_is_done(rt: HostRuntime) {
    for threads in 1..=16 {
        let evens = match count_evens(&rt, rt.alloc(), threads) {
            None => count_evens(&rt, rt.alloc(), threads),
            evens => evens,
        };
        assert_eq!(rt; evens, Some(500));
    }
}
