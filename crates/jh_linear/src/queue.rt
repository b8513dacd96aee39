//! Which configuration is expanded next: the one of the highest rank. Any other choice would be
//! right too. Nothing that is proved rests on the ranks, which decide only how soon an order is
//! found.
//!
//! The more stages a configuration has passed, the higher its rank. Each operation of unknown
//! outcome that it has placed costs it the rank of some stages, since a later operation may need
//! that one. So an order that does without it is looked for first, for as many stages as it costs.
//! For the same reason a configuration is expanded twice: at first only by operations that are
//! known to have happened, and then, at a lower rank, by those of unknown outcome too. Where none of
//! these can come next, it is expanded at first by one operation alone, and then at the same rank.
//! docs/performance.md shows how many configurations histories take.

ghost use Rattle.std.specs.Prelude.{◌≡◌, [], IfSome, IfNone, OnOk, true};
ghost use Rattle.jh_linear.specs.WaitingInside.{IsWith};
ghost use Rattle.jh_linear.specs.declared.queue.RankedConfig.{RankedConfig};

use crate::config::Config;
use crate::sorted_ops::{Problem, SortedOps};
use std::alloc::{AllocError, Global};
use std::collections::BinaryHeap;
use std::marker::Model;

/// How many stages one operation of unknown outcome costs at most.
const MAX_PRICE: usize = 10;

/// A configuration that waits to be expanded, with its rank. The greatest is taken first.
#[derive(Clone, Copy, Debug, PartialEq, Eq, PartialOrd, Ord)]
pub(crate) struct RankedConfig {
    pub(crate) rank: usize,
    /// The index of the configuration. Of equal ranks the one that was entered last comes first.
    pub(crate) at: usize,
    /// Whether this is its last expansion, in which all moves are tried.
    pub(crate) is_last: bool,
}

/// The configurations that wait. A contract sees a list of them, in some order.
#[derive(Drop)]
pub(crate) struct Queue {
    configs: BinaryHeap<RankedConfig>,
}

impl Model for Queue {
    ghost use Rattle.std.specs.Prelude.{List};
    ghost use Rattle.std.specs.BinaryHeap.{heap_items};
    ghost use Rattle.jh_linear.specs.declared.queue.RankedConfig.{RankedConfig};

    ghost Value = { List RankedConfig };

    ghost view = { λ a. heap_items a.configs };
}

impl Queue {
    /// A queue in which nothing waits.
    pub(crate) fn new(alloc: Global) -> Queue
        ensures { result ≡ [] }
    {
        Queue {
            configs: BinaryHeap::new(alloc),
        }
    }

    /// Lets a configuration wait.
    pub(crate) fn push(&mut self, ranked: RankedConfig) -> Result<(), AllocError>
        ensures { OnOk result (IsWith ranked self.old self.new) }
    {
        self.configs.push(ranked)?;
        Ok(())
    }

    /// Takes out the one of the highest rank.
    pub(crate) fn pop(&mut self) -> Option<RankedConfig>
        ensures some { IfSome result (λ ranked. IsWith ranked self.new self.old) }
        ensures none { IfNone result ((self.old ≡ []) × (self.new ≡ [])) }
    {
        self.configs.pop()
    }
}

/// How many stages one operation of unknown outcome costs: the number of stages divided by the
/// number of these operations, at least 1, and up to a limit.
fn price(sorted: &SortedOps) -> usize {
    match sorted.stages.len().checked_div(sorted.unsure_changes.len()) {
        Some(stages) => stages.clamp(1, MAX_PRICE),
        None => MAX_PRICE,
    }
}

/// The rank of a configuration: how many stages it has passed, and the price of each operation of
/// unknown outcome that it has not placed.
pub(crate) fn rank_of(problem: &Problem, config: &Config) -> usize {
    let mut left = 0usize;
    for (class, next) in problem.sorted.classes.iter().zip(config.next.as_slice()) {
        left = left.saturating_add(class.upto.saturating_sub(*next));
    }
    left.saturating_mul(price(&problem.sorted))
        .saturating_add(config.stage)
}

/// A configuration that waits for its second expansion. Where that may place an operation of unknown
/// outcome, it ranks as if it had placed one more, which is what comes of it.
pub(crate) fn second_expansion(
    problem: &Problem,
    ranked: RankedConfig,
    is_unsure: bool,
) -> RankedConfig
    ensures at { result.at ≡ ranked.at }
    ensures last { result.is_last ≡ true }
{
    let cost = if is_unsure { price(&problem.sorted) } else { 0 };
    RankedConfig {
        rank: ranked.rank.saturating_sub(cost),
        at: ranked.at,
        is_last: true,
    }
}
