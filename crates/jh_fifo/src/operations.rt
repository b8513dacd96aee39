//! The operations of a queue. A place by itself is that of an operation in the list of them; a
//! place of the history is called so, and is a time.

ghost use Rattle.std.specs.Prelude.{◌≡◌, ◌<◌, length};
ghost use Rattle.jh_fifo.specs.Reasons.{call_at};

/// What was asked of the queue, and what it answered. Values are numbers.
#[derive(Clone, Copy, Debug, PartialEq, Eq)]
pub enum FifoCall {
    /// Put this value at the end.
    Enqueue(usize),
    /// Take the value at the front: it was this one.
    Dequeue(usize),
    /// Take the value at the front: the queue was empty.
    Empty,
}

/// One operation, with the places in the history where it was invoked and where it ended.
#[derive(Clone, Copy, Debug, PartialEq, Eq)]
pub struct FifoOp {
    pub invoked: usize,
    /// Where it ended; none where it is not known whether it happened: it may take effect at any
    /// time after its invocation, or never.
    pub ended: Option<usize>,
    pub call: FifoCall,
}

/// The call of the operation at a place.
pub(crate) fn call_of(ops: &[FifoOp], place: usize) -> FifoCall
    requires { place < length ops.now }
    ensures { result ≡ call_at ops.now place }
{
    ops[place].call
}
