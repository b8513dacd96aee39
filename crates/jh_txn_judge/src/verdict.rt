//! The judge: a serial order, or what excludes each one. `specs/Judged.antt` says what its answers say.

ghost use Rattle.std.specs.Prelude.{◌≡◌, false, filter, length, slice_index_or, IfOk};
ghost use Rattle.jh_txn.specs.BadReads.{HasNoBadRead};
ghost use Rattle.jh_txn.specs.Cycles.{IsCycle};
ghost use Rattle.jh_txn.specs.RealTime.{CompleteAfterInvocation};
ghost use Rattle.jh_txn.specs.declared.model.ConsistencyModel.{ConsistencyModel};
ghost use Rattle.jh_txn_judge.specs.Judged.{IsSeriallyJudged};
ghost use Rattle.jh_txn_seen.specs.Marks.{AreThereMarks};
ghost use Rattle.jh_txn_seen.specs.Reads.{AreDoneReads, AreForked, AreLongestOf};
ghost use Rattle.jh_txn_writers.specs.Numbers.{AreNumbersOf};
ghost use Rattle.jh_txn_writers.specs.Writers.{AreWriters};

use jh_txn::{Step, Txn};
use jh_txn_cycles::order_or_short_cycle;
use jh_txn_edges::{fork_graph, graph_of};
use jh_txn_graph::OrderOrCycle;
use jh_txn_reads::{BadReadAt, find_bad_read};
use jh_txn_seen::{DoneRead, Longest, is_marked, longest_reads, marks_of, reads_of};
use jh_txn_writers::{Writer, writers_of};
use std::alloc::{AllocError, Global};

/// What the judge finds: a serial order, or what excludes each one.
#[derive(Debug, Drop)]
pub enum SerialVerdict {
    /// A serial order: the places of its transactions, each of those that are done among them.
    Valid(Vec<usize>),
    /// A read that no order explains, whatever the rest of the history is.
    BadRead(BadReadAt),
    /// A cycle of dependencies, which no serial order can keep.
    Cycle(Vec<Step>),
}

/// Judges transactions: a serial order, which keeps real time where that is asked for, or what excludes
/// each one. The transactions are numbered, with keys below `keys` and elements below `elements`; a
/// completion stands behind its invocation.
///
/// Errors: out of memory.
///
/// Takes time linear in the keys, the elements, the micro-operations and what reads saw, and with real
/// time n log n for n transactions.
pub fn judge_serial(
    alloc: Global,
    txns: &[Txn],
    keys: usize,
    elements: usize,
    real_time: bool,
) -> Result<SerialVerdict, AllocError>
    requires numbered { AreNumbersOf txns.now keys elements }
    requires ends { CompleteAfterInvocation txns.now }
    ensures { IfOk result (IsSeriallyJudged txns.now real_time) }
{
    let writers = writers_of(alloc, txns, keys, elements)?;
    match find_bad_read(alloc, txns, keys, elements, &writers)? {
        Some(at) => Ok(SerialVerdict::BadRead(at)),
        None => judge_good_reads(alloc, txns, keys, elements, &writers, real_time),
    }
}

/// Judges transactions of which no read is bad.
fn judge_good_reads(
    alloc: Global,
    txns: &[Txn],
    keys: usize,
    elements: usize,
    writers: &[Option<Writer>],
    real_time: bool,
) -> Result<SerialVerdict, AllocError>
    requires numbered { AreNumbersOf txns.now keys elements }
    requires ends { CompleteAfterInvocation txns.now }
    requires writers { AreWriters txns.now elements writers.now }
    requires good { HasNoBadRead txns.now }
    ensures { IfOk result (IsSeriallyJudged txns.now real_time) }
{
    let reads = reads_of(alloc, txns)?;
    let there = marks_of(alloc, txns, writers, &reads)?;
    match longest_reads(alloc, &reads, keys)? {
        Longest::Reads(longest) => judge_longest(
            alloc, txns, elements, writers, &reads, &there, &longest, real_time,
        ),
        Longest::Fork(one, other) => {
            let steps = fork_cycle(
                alloc, txns, keys, elements, writers, &reads, &there, &one, &other,
            )?;
            Ok(SerialVerdict::Cycle(steps))
        }
    }
}

/// Judges transactions by the longest read of each key, which all reads of the key begin.
fn judge_longest(
    alloc: Global,
    txns: &[Txn],
    elements: usize,
    writers: &[Option<Writer>],
    reads: &[DoneRead<'_>],
    there: &[bool],
    longest: &[Option<DoneRead<'_>>],
    real_time: bool,
) -> Result<SerialVerdict, AllocError>
    requires numbered { AreNumbersOf txns.now (length longest.now) elements }
    requires ends { CompleteAfterInvocation txns.now }
    requires writers { AreWriters txns.now elements writers.now }
    requires good { HasNoBadRead txns.now }
    requires reads { AreDoneReads txns.now reads.now }
    requires there { AreThereMarks txns.now writers.now reads.now there.now }
    requires longest { AreLongestOf reads.now (length reads.now) longest.now }
    ensures { IfOk result (IsSeriallyJudged txns.now real_time) }
{
    let graph = graph_of(
        alloc, txns, elements, writers, there, reads, longest, real_time,
    )?;
    match order_or_short_cycle(alloc, &graph, txns.len(), 0)? {
        OrderOrCycle::Order(order) => {
            let order = marked_of(alloc, there, &order)?;
            Ok(SerialVerdict::Valid(order))
        }
        OrderOrCycle::Cycle(steps) => Ok(SerialVerdict::Cycle(steps)),
    }
}

/// A cycle in what two reads say that fork.
fn fork_cycle(
    alloc: Global,
    txns: &[Txn],
    keys: usize,
    elements: usize,
    writers: &[Option<Writer>],
    reads: &[DoneRead<'_>],
    there: &[bool],
    one: &DoneRead<'_>,
    other: &DoneRead<'_>,
) -> Result<Vec<Step>, AllocError>
    requires numbered { AreNumbersOf txns.now keys elements }
    requires writers { AreWriters txns.now elements writers.now }
    requires good { HasNoBadRead txns.now }
    requires reads { AreDoneReads txns.now reads.now }
    requires there { AreThereMarks txns.now writers.now reads.now there.now }
    requires forked { AreForked reads.now one.now other.now }
    ensures { IfOk result (λ steps. (model : ConsistencyModel) → IsCycle txns.now model steps.items) }
{
    let graph = fork_graph(alloc, txns.len(), writers, there, one, other)?;
    match order_or_short_cycle(alloc, &graph, txns.len(), 0)? {
        OrderOrCycle::Order(_) => unreachable!(),
        OrderOrCycle::Cycle(steps) => Ok(steps),
    }
}

/// Those of an order that are marked.
fn marked_of(alloc: Global, there: &[bool], order: &[usize]) -> Result<Vec<usize>, AllocError>
    ensures { IfOk result (λ marked. marked.items
        ≡ filter (λ place. slice_index_or there.now place false) order.now) }
{
    let mut marked = Vec::new(alloc);
    for place in order {
        if is_marked(there, *place) {
            marked.push(*place)?;
        }
    }
    Ok(marked)
}
