//! Queues: what goes in must come out, and each dequeue comes from an enqueue.

use crate::rows::{Judge, first_wrong, refusal};
use jh_ops::Op;
use jh_queue::{QueueResult, check_queue, write_queue};
use jh_total_queue::{TotalQueueResult, check_total_queue, write_total_queue};
use std::alloc::Global;

/// The checker of queues as a whole.
#[derive(Clone, Copy)]
pub(crate) struct TotalQueue;

/// The line of a result. None: memory was refused.
fn line_of(alloc: Global, found: &TotalQueueResult) -> Option<Vec<u8>> {
    let mut line = Vec::new(alloc);
    write_total_queue(found, &mut line).ok()?;
    Some(line)
}

impl Judge for TotalQueue {
    fn said_of(&self, alloc: Global, history: &[Op]) -> Option<Vec<u8>> {
        match check_total_queue(alloc, history) {
            Ok(found) => line_of(alloc, &found),
            Err(error) => refusal(alloc, error),
        }
    }
}

/// What came out as it went in; an empty history; the nemesis, which has no part in it.
#[test]
fn queues_are_whole(rt: HostRuntime) {
    let rows = r#"
{:type :invoke, :process 0, :f :enqueue, :value 1}
{:type :ok, :process 0, :f :enqueue, :value 1}
{:type :invoke, :process 1, :f :dequeue, :value nil}
{:type :ok, :process 1, :f :dequeue, :value 1}
→ {:valid? true, :attempted 1, :acknowledged 1, :ok 1, :lost {}, :unexpected {}, :duplicated {}, :recovered {}}
§
{:type :info, :process :nemesis, :f :dequeue, :value 5}
→ {:valid? true, :attempted 0, :acknowledged 0, :ok 0, :lost {}, :unexpected {}, :duplicated {}, :recovered {}}
"#;
    assert_eq!(rt; first_wrong(rt.alloc(), &TotalQueue, rows), None);
}

/// Each part of a result, counted with how often a value is there: 1 went in twice and came out once; "a", of whose enqueue nobody
/// knows, came out twice; 2 and 9, which nobody put in, came out, 9 by a dequeue and by a drain.
#[test]
fn values_count_as_often_as_they_are_there(rt: HostRuntime) {
    let rows = r#"
{:type :invoke, :process 0, :f :enqueue, :value 1}
{:type :ok, :process 0, :f :enqueue, :value 1}
{:type :invoke, :process 0, :f :enqueue, :value 1}
{:type :ok, :process 0, :f :enqueue, :value 1}
{:type :invoke, :process 1, :f :enqueue, :value "a"}
{:type :info, :process 1, :f :enqueue, :value "a"}
{:type :invoke, :process 0, :f :dequeue}
{:type :ok, :process 0, :f :dequeue, :value 1}
{:type :invoke, :process 0, :f :dequeue}
{:type :ok, :process 0, :f :dequeue, :value "a"}
{:type :invoke, :process 0, :f :dequeue}
{:type :ok, :process 0, :f :dequeue, :value "a"}
{:type :invoke, :process 0, :f :dequeue}
{:type :ok, :process 0, :f :dequeue, :value 9}
{:type :invoke, :process 0, :f :drain}
{:type :ok, :process 0, :f :drain, :value (2 9)}
→ {:valid? false, :attempted 3, :acknowledged 2, :ok 2, :lost {1 1}, :unexpected {2 1, 9 2}, :duplicated {"a" 1}, :recovered {"a" 1}}
"#;
    assert_eq!(rt; first_wrong(rt.alloc(), &TotalQueue, rows), None);
}

/// A drain that shows no elements, and one that failed and shows some; the first of two.
#[test]
fn bad_drains_are_refused(rt: HostRuntime) {
    let rows = r#"
{:type :invoke, :process 0, :f :drain} {:type :ok, :process 0, :f :drain, :value 7}
→ operation 1: bad value
§
{:type :invoke, :process 0, :f :drain} {:type :fail, :process 0, :f :drain, :value [1]}
{:type :invoke, :process 0, :f :drain} {:type :ok, :process 0, :f :drain, :value 7}
→ operation 1: bad value
§
{:type :invoke, :process 0, :f :drain} {:type :info, :process 0, :f :drain, :value nil}
→ {:valid? true, :attempted 0, :acknowledged 0, :ok 0, :lost {}, :unexpected {}, :duplicated {}, :recovered {}}
"#;
    assert_eq!(rt; first_wrong(rt.alloc(), &TotalQueue, rows), None);
}

/// The checker of queues whose dequeues each come from somewhere.
#[derive(Clone, Copy)]
pub(crate) struct Queue;

/// The line of a result. None: memory was refused.
fn queue_line_of(alloc: Global, found: &QueueResult) -> Option<Vec<u8>> {
    let mut line = Vec::new(alloc);
    write_queue(found, &mut line).ok()?;
    Some(line)
}

impl Judge for Queue {
    fn said_of(&self, alloc: Global, history: &[Op]) -> Option<Vec<u8>> {
        match check_queue(alloc, history) {
            Ok(found) => queue_line_of(alloc, &found),
            Err(error) => refusal(alloc, error),
        }
    }
}

/// An enqueue of which nobody knows how it ended, and one that ends behind the dequeue, count from their invocations. A list and a
/// vector are one value. A completion without an invocation is refused.
#[test]
fn dequeues_come_from_enqueues(rt: HostRuntime) {
    let rows = r#"
{:type :invoke, :process 0, :f :enqueue, :value [1]}
{:type :info, :process 0, :f :enqueue, :value [1]}
{:type :invoke, :process 1, :f :enqueue, :value 2}
{:type :invoke, :process 2, :f :dequeue}
{:type :ok, :process 2, :f :dequeue, :value (1)}
{:type :invoke, :process 2, :f :dequeue}
{:type :ok, :process 2, :f :dequeue, :value 2}
{:type :ok, :process 1, :f :enqueue, :value 2}
→ {:valid? true, :dequeued 2}
§
→ {:valid? true, :dequeued 0}
§
{:type :ok, :process 2, :f :dequeue, :value 2}
→ operation 0: no invocation
"#;
    assert_eq!(rt; first_wrong(rt.alloc(), &Queue, rows), None);
}

/// One enqueue for two dequeues; one that failed; one invoked behind the completion. The first completion is told.
#[test]
fn dequeues_come_from_nowhere(rt: HostRuntime) {
    let rows = r#"
{:type :invoke, :process 0, :f :enqueue, :value 1}
{:type :ok, :process 0, :f :enqueue, :value 1}
{:type :invoke, :process 1, :f :dequeue}
{:type :invoke, :process 2, :f :dequeue}
{:type :ok, :process 2, :f :dequeue, :value 1}
{:type :ok, :process 1, :f :dequeue, :value 1, :time 8}
{:type :invoke, :process 2, :f :dequeue}
{:type :ok, :process 2, :f :dequeue, :value 5}
→ {:valid? false, :first {:time 8, :type :ok, :process 1, :f :dequeue, :value 1}}
§
{:type :invoke, :process 0, :f :enqueue, :value 1}
{:type :invoke, :process 2, :f :dequeue}
{:type :ok, :process 2, :f :dequeue, :value 1}
{:type :fail, :process 0, :f :enqueue, :value 1}
→ {:valid? false, :first {:type :ok, :process 2, :f :dequeue, :value 1}}
§
{:type :invoke, :process 2, :f :dequeue}
{:type :ok, :process 2, :f :dequeue, :value 1}
{:type :invoke, :process 0, :f :enqueue, :value 1}
→ {:valid? false, :first {:type :ok, :process 2, :f :dequeue, :value 1}}
"#;
    assert_eq!(rt; first_wrong(rt.alloc(), &Queue, rows), None);
}
