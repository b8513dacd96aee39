//! An order of the transactions of a graph, or a cycle of them. `specs/Graphs.antt` says what a graph,
//! its paths, an order and a cycle are.

ghost use Rattle.std.specs.Prelude.{◌≤◌, length, IfOk};
ghost use Rattle.jh_txn_graph.specs.Graphs.{AreHubsUpwards, IsClosed, IsOrderOrCycle};

use crate::hubs::{cycle_of, transactions_of};
use crate::walk::search;
use jh_txn::Step;
use std::alloc::{AllocError, Global};

/// What there is in a graph of transactions.
#[derive(Debug, Drop)]
pub enum OrderOrCycle {
    /// All transactions, each before those that it leads to.
    Order(Vec<usize>),
    /// Steps from one transaction to the next one, and from the last one back to the first one.
    Cycle(Vec<Step>),
}

/// An order of the transactions of a graph that keeps each of its steps, or a cycle of them.
/// `graph[node]` has the steps that lead to the node. Nodes below `count` are transactions; the others
/// are hubs, through which one transaction leads to another one. Neither answer has hubs in it: a step
/// of a cycle that goes through hubs has the reason of its path's last step.
///
/// Each step comes from a node of the graph, and a step between two hubs goes to the higher one.
///
/// Errors: where there is no memory for the answer.
///
/// Takes time and memory linear in the nodes and the steps.
pub fn order_or_cycle(
    alloc: Global,
    graph: &[Vec<Step>],
    count: usize,
) -> Result<OrderOrCycle, AllocError>
    requires closed { IsClosed graph.now }
    requires count { count ≤ length graph.now }
    requires upwards { AreHubsUpwards graph.now count }
    ensures { IfOk result (IsOrderOrCycle graph.now count) }
{
    match search(alloc, graph)? {
        OrderOrCycle::Order(nodes) => {
            let order = transactions_of(alloc, &nodes, count)?;
            Ok(OrderOrCycle::Order(order))
        }
        OrderOrCycle::Cycle(steps) => {
            let cycle = cycle_of(alloc, steps, count)?;
            Ok(OrderOrCycle::Cycle(cycle))
        }
    }
}
