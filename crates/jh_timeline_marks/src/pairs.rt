//! The pairs of clients in a history.

ghost use Rattle.std.specs.Prelude.{◌≡◌, ◌++◌, IfOk, OnOk};
ghost use Rattle.jh_ops.specs.Operation.{operations};
ghost use Rattle.jh_ops.specs.Pairing.{history_pairs};
ghost use Rattle.jh_timeline_marks.specs.MarkedInside.{pair_with};

use jh_ops::{Kind, Op, Pair, Process};
use std::alloc::{AllocError, Global};
use std::collections::BTreeMap;

/// Puts the pair of a client's record last, if the record is an invocation, where this is the place
/// of the client's next record.
fn push_pair(
    kind: Kind,
    place: usize,
    next: Option<usize>,
    pairs: &mut Vec<Pair>,
) -> Result<(), AllocError>
    ensures { OnOk result (pairs.new.items ≡ pairs.old.items ++ pair_with kind place next) }
{
    match kind {
        Kind::Invoke => pairs.push(Pair {
            invoke: place,
            outcome: next,
        })?,
        _ => (),
    }
    Ok(())
}

/// The pairs of clients, in the order of their invocations. `jh_ops::pair` refuses a history that is
/// not well formed, and the marks of such a history are defined too.
pub(crate) fn pairs_of(alloc: Global, history: &[Op]) -> Result<Vec<Pair>, AllocError>
    ensures { IfOk result (λ pairs. pairs.items ≡ history_pairs (operations history.now)) }
{
    let mut next = BTreeMap::new(alloc);
    let mut pairs = Vec::new(alloc);
    let mut place = history.len();
    while place > 0 {
        place -= 1;
        let op = &history[place];
        if let Process::Client(client) = op.process {
            let outcome = next.get(&client).copied();
            push_pair(op.kind, place, outcome, &mut pairs)?;
            next.insert(client, place)?;
        }
    }
    pairs.reverse();
    Ok(pairs)
}
