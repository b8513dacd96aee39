//! Faults with their links, nodes or bumps in order. `specs/FaultOrder.antt` says in which.

ghost use Rattle.std.specs.Prelude.{◌≡◌, IfOk};
ghost use Rattle.std.specs.Ordering.{is_lt};
ghost use Rattle.jh_edn.specs.Order.{in_order};
ghost use Rattle.jh_tables.specs.Plain.{fault_of};
ghost use Rattle.jh_env.specs.FaultOrder.{fault_in_order, is_bump_before};

use crate::faults::Fault;
use jh_tables::{Node, PlainFault};
use std::alloc::{AllocError, Global};
use std::cmp::Ordering;

/// These, in ascending order.
fn sorted<T: Copy + Ord + Drop>(alloc: Global, items: &[T]) -> Result<Vec<T>, AllocError>
    ensures { IfOk result (λ v. v.items ≡ in_order (λ x y. is_lt (T.cmp x y)) items.now) }
{
    let mut sorted = Vec::from_slice(alloc, items)?;
    sorted.sort()?;
    Ok(sorted)
}

/// The order of two bumps: by the places of their nodes.
fn compare_bumps(x: &(Node, i64), y: &(Node, i64)) -> Ordering
    ensures { is_lt result ≡ is_bump_before x.now y.now }
{
    x.0.cmp(&y.0)
}

/// These bumps, by the places of their nodes.
fn sorted_bumps(alloc: Global, bumps: &[(Node, i64)]) -> Result<Vec<(Node, i64)>, AllocError>
    ensures { IfOk result (λ v. v.items ≡ in_order is_bump_before bumps.now) }
{
    let mut sorted = Vec::from_slice(alloc, bumps)?;
    sorted.sort_by(compare_bumps)?;
    Ok(sorted)
}

/// What a fault does, to the same links, nodes or bumps in order.
fn plain_in_order(alloc: Global, fault: &PlainFault) -> Result<PlainFault, AllocError>
    ensures { IfOk result (λ ordered. fault_of ordered ≡ fault_in_order (fault_of fault.now)) }
{
    match fault {
        PlainFault::OnLinks(kind, links) => {
            Ok(PlainFault::OnLinks(*kind, sorted(alloc, links)?))
        }
        PlainFault::OnNodes(kind, nodes) => {
            Ok(PlainFault::OnNodes(*kind, sorted(alloc, nodes)?))
        }
        PlainFault::Bump(bumps) => Ok(PlainFault::Bump(sorted_bumps(alloc, bumps)?)),
    }
}

impl Fault {
    /// The same fault with what it names in order: links by the place of their source and then of
    /// their destination, nodes and bumps by place. It does the same, for that order makes no
    /// difference. Takes n log n comparisons for n links, nodes or bumps.
    pub fn in_order(&self, alloc: Global) -> Result<Fault, AllocError>
        ensures { IfOk result (λ ordered. ordered ≡ fault_in_order self.now) }
    {
        let fault = plain_in_order(alloc, &self.fault)?;
        Ok(Fault { fault })
    }
}
