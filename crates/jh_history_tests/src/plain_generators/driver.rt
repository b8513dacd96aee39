//! A driver by the definition: it knows of a run only the paths of its calls, who is busy, and who
//! crashed how often.

use crate::plain_generators::offers::{is_spent, offer_of};
use crate::plain_generators::parts::{MAX_DEEP, Part, Question, Scope};
use jh_gen::{Gen, GenAnswer};
use jh_ops::Process;
use std::alloc::{AllocError, Global};

/// Answers as a driver should, of a generator at most eight deep and 63 wide. Threads go by number:
/// the nemesis is thread 0, client n is thread n + 1.
#[derive(Drop)]
pub struct PlainDriver {
    source: Gen,
    clients: u32,
    calls: Vec<u64>,
    busy: Vec<bool>,
    crashes: Vec<u64>,
}

impl PlainDriver {
    /// A driver that has given no call, for this number of client threads.
    pub fn new(alloc: Global, source: Gen, clients: u32) -> Result<PlainDriver, AllocError> {
        let threads = clients as usize + 1;
        Ok(PlainDriver {
            source,
            clients,
            calls: Vec::new(alloc),
            busy: vec![in alloc; false; threads]?,
            crashes: vec![in alloc; 0; threads]?,
        })
    }

    /// How many calls were given.
    pub fn given(&self) -> usize {
        self.calls.len()
    }

    /// Whether a thread has an operation outstanding.
    pub fn is_busy(&self, thread: usize) -> bool {
        self.busy.get(thread).copied().unwrap_or(false)
    }

    /// The process whose operation the next one of a thread is.
    fn process(&self, thread: usize) -> Process {
        if thread == 0 {
            return Process::Nemesis;
        }
        let crashes = self.crashes.get(thread).copied().unwrap_or(0);
        let number = crashes.saturating_mul(u64::from(self.clients));
        Process::Client(number.saturating_add(thread as u64 - 1))
    }

    /// The answer to a thread that is not busy.
    pub fn ask(&mut self, thread: usize, draw: u64) -> Result<GenAnswer, AllocError> {
        let whole = Part {
            path: 0,
            calls: &self.calls,
            scope: Scope::of(1, self.clients as usize + 1, true),
        };
        if is_spent(&self.source, whole, MAX_DEEP) {
            return Ok(GenAnswer::Done);
        }
        let question = Question {
            asker: thread,
            draw,
            busy: &self.busy,
        };
        let Some((path, call)) = offer_of(&self.source, whole, question, MAX_DEEP) else {
            return Ok(GenAnswer::Pending);
        };
        self.calls.push(path)?;
        self.set_busy(thread, true);
        Ok(GenAnswer::Call(self.process(thread), call))
    }

    /// Ends a thread's operation; one that is lost crashes its process.
    pub fn complete(&mut self, thread: usize, is_lost: bool) {
        self.set_busy(thread, false);
        if is_lost {
            if let Some(crashes) = self.crashes.get_mut(thread) {
                *crashes = crashes.saturating_add(1);
            }
        }
    }

    /// Sets whether a thread has an operation outstanding.
    fn set_busy(&mut self, thread: usize, is_busy: bool) {
        if let Some(busy) = self.busy.get_mut(thread) {
            *busy = is_busy;
        }
    }
}
