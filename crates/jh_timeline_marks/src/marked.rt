//! The marks of what is found. `specs/Marked.antt` has the rule.

ghost use Rattle.std.specs.Prelude.{◌≡◌, IfOk};
ghost use Rattle.jh_ops.specs.Operation.{operations};
ghost use Rattle.jh_timeline_marks.specs.Marked as rule;

use crate::bank::bank_marks;
use crate::counter::counter_marks;
use crate::fifo::fifo_marks;
use crate::ids::ids_marks;
use crate::queues::{queue_marks, total_queue_marks};
use crate::register::register_marks;
use crate::set::set_marks;
use crate::set_full::set_full_marks;
use crate::transactions::transactions_marks;
use jh_checkers::Finding;
use jh_ops::Op;
use jh_timeline::{Call, Mark};
use std::alloc::{AllocError, Global};

/// The marks that a finding has at calls, in the order of the calls: at most one at each. A mark has
/// the number of its call among those that are given, from 0.
///
/// A register or a mutex: where it is valid, each call's place in the order. Where it is not valid, that the
/// history is stuck at the call's completion; else, where the finding is explained, that its reason names the
/// call, if it has a reason; else, where it is explained, that the call is pending there, with its place in
/// the order of what is before, if it has one; else that place. Where the verdict is unknown, there are no
/// marks. Unique ids: a call that gave an id that was given more than once. A counter: a read outside its
/// bounds, with these. Transactions: where they are valid, the first place of each in the order, which of a
/// snapshot order is where it starts; where they are not, the transaction of the bad read, or each of the
/// cycle with its step to the next one.
///
/// A set: a call that acknowledged what is lost, before the last read that happened; behind it where
/// nobody acknowledged the element before. So what failed to add it, or may have, has no mark. Else a
/// call that tried to add what is recovered; else the last read that happened, where it shows what
/// nobody tried to add. A completion that answers no invocation acknowledges too.
///
/// A queue: of `total-queue` a call that put in what is lost, that took out what is unexpected or came out
/// too often, or that tried to put in what is recovered; of `queue` the first dequeue that comes from no
/// enqueue; of `fifo-queue`, where it is valid, each call's place in the order, else each operation that the
/// verdict names. A bank: each read that has an error. A set over time: a call that tried to add what is lost,
/// or what was stale, and a read that shows an element twice.
///
/// The calls are those of the history, as `jh_timeline::calls_of` has them. A call is known by where
/// it begins and is completed, and a number of an order means the client's invocation of this number.
/// Where other calls are given, those are marked of which the same holds; and where the finding is
/// none of this history, what it says is taken as it is.
///
/// Errors: where memory runs out.
///
/// Takes O(n log n) for n records, calls and values found.
pub fn marks_of(
    alloc: Global,
    history: &[Op],
    finding: &Finding,
    calls: &[Call],
) -> Result<Vec<Mark>, AllocError>
    ensures { IfOk result
        (λ marks. marks.items ≡ rule.marks_of (operations history.now) finding.now calls.now) }
{
    match finding {
        Finding::Set(found) => set_marks(alloc, &found.found, history, calls),
        Finding::Counter(found) => counter_marks(alloc, found.reads.as_slice(), history, calls),
        Finding::Ids(found) => ids_marks(alloc, found.duplicated.as_slice(), history, calls),
        Finding::Register {
            judged,
            explanation,
        } => register_marks(alloc, judged, explanation, history, calls),
        Finding::ListAppend(found) => transactions_marks(alloc, found, history, calls),
        Finding::TotalQueue(found) => total_queue_marks(alloc, found, history, calls),
        Finding::Queue(found) => queue_marks(alloc, found, calls),
        Finding::Bank(found) => bank_marks(alloc, found, calls),
        Finding::SetFull(found) => set_full_marks(alloc, found, history, calls),
        Finding::Mutex {
            judged,
            explanation,
        } => register_marks(alloc, judged, explanation, history, calls),
        Finding::FifoQueue(found) => fifo_marks(alloc, found, history, calls),
    }
}
