//! What the judge answers.

/// Why the operations of a queue have no order. Each number is the place of an operation in the
/// list.
#[derive(Clone, Copy, Debug, PartialEq, Eq)]
pub enum FifoReason {
    /// An operation that ended before it was invoked.
    EndedBeforeInvoked(usize),
    /// A dequeue of a value that nothing enqueues.
    NeverEnqueued(usize),
    /// Two dequeues of one value.
    DequeuedTwice(usize, usize),
    /// A dequeue that ended before the enqueue of its value was invoked, and that enqueue.
    DequeuedBeforeEnqueued(usize, usize),
    /// The enqueues of two values, each of which has to go through the queue before the other.
    OutOfOrder(usize, usize),
    /// A dequeue that found the queue empty, though there was a value in it as long as it ran.
    NeverEmpty(usize),
}

/// Whether the operations of a queue have an order.
#[derive(Debug, Drop)]
pub enum FifoVerdict {
    /// They have: this one, of their places.
    Valid(Vec<usize>),
    /// They have none.
    Invalid(FifoReason),
    /// These two enqueue the same value, so they are not judged.
    EnqueuedTwice(usize, usize),
    /// This one is no enqueue, and it is not known whether it happened, so they are not judged.
    UnknownDequeue(usize),
}
