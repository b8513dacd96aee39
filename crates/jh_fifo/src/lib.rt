//! A linearizability checker (Herlihy and Wing 1990) for a first-in-first-out queue that is empty at first
//! and into which each value is put once at most. The answer is a linearization, or a reason that excludes
//! every one: the reasons are those of Henzinger, Sezgin and Vafeiadis, "Aspect-oriented linearizability
//! proofs" (CONCUR 2013).
//!
//! `wrong.rt` looks for operations that are wrong by themselves or with one other of their value. A span
//! (`spans.rt`, `values.rt`) says when a value came into the queue and when it left, at the earliest and at
//! the latest. `moments.rt` finds for each dequeue that found the queue empty a moment at which the queue
//! can have been empty, `turn.rt` puts the spans in the order in which values can go through the queue, and
//! `layout.rt` lays the operations out in that order. `judge.rt` asks one after another.
#![tactic(auto)]

mod judge;
mod laws;
mod layout;
mod moments;
mod operations;
mod sorted;
mod spans;
mod tables;
mod turn;
mod values;
mod verdict;
mod wrong;

pub use judge::judge_fifo;
pub use laws::{goes_before, reasons_exclude, runs_take_in_turn};
pub use operations::{FifoCall, FifoOp};
pub use verdict::{FifoReason, FifoVerdict};
