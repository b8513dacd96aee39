//! The threads of a test, the step that is open, and the first line that is no reply. `specs/Machine.antt` says
//! what is known of them.

use jh_test_parts::{Complaint, ValuedCall};

/// A thread: how many numbers of processes it has used up, and the call that it has open. A crash uses
/// up one, and in *final* each thread begins with as many as processes have crashed in *main*.
#[derive(Debug, Drop)]
pub struct Caller {
    pub used_numbers: u64,
    pub call: Option<ValuedCall>,
}

/// A step that is open, since the adapter has not done it: the place of its entry, and the code of
/// what the nemesis answered.
#[derive(Clone, Copy, Debug, PartialEq, Eq)]
pub struct OpenStep {
    pub entry: u64,
    pub code: u64,
}

/// A line that is no reply, by its number from 1, and what is wrong with it.
#[derive(Clone, Copy, Debug, PartialEq, Eq)]
pub struct BadLine {
    pub number: u64,
    pub why: Complaint,
}
