//! Candidates as whoever reads what is written of them has them.

ghost use Rattle.std.specs.Prelude.{◌≡◌, length};
ghost use Rattle.jh_nemesis.specs.Steps.{FitsNodes};

use crate::search::fixtures::{FIVE, TURNED, options_of, plan_of};
use jh_nemesis::Step;
use jh_search::candidate;
use jh_simnode::Plan;
use jh_step_texts::{step_of_value, value_of_step};
use std::alloc::Global;

/// Whether a step is the one that its text means. None: memory was refused.
fn is_read_back(alloc: Global, plan: &Plan, step: &Step) -> Option<bool>
    requires { FitsNodes (length plan.now.env.names) step.now }
{
    let nodes = plan.environment().nodes();
    let value = value_of_step(alloc, nodes, step).ok()?;
    let read = step_of_value(alloc, nodes, &value).ok()?;
    Some(read.is_same(step))
}

/// How many steps of a plan are not those that their texts mean.
fn turned_steps(alloc: Global, plan: &Plan) -> Option<u32> {
    let mut turned = 0u32;
    for entry in plan.schedule().entries() {
        if !is_read_back(alloc, plan, &entry.step)? {
            turned = turned.saturating_add(1);
        }
    }
    Some(turned)
}

/// How many steps of a candidate are not.
fn turned_in(alloc: Global, plan: &Plan, number: u64) -> Option<u32> {
    turned_steps(
        alloc,
        &candidate(alloc, plan, &options_of(8, 0, 0), number).ok()?,
    )
}

/// How many steps of so many candidates are not.
fn turned_among(alloc: Global, plan: &Plan, count: u64) -> Option<u32> {
    let mut turned = 0u32;
    for number in 0..count {
        turned = turned.saturating_add(turned_in(alloc, plan, number)?);
    }
    Some(turned)
}

/// How many steps of a plan are not, and how many of so many candidates.
fn turned_both(alloc: Global, plan: &Plan, count: u64) -> Option<(u32, u32)> {
    Some((
        turned_steps(alloc, plan)?,
        turned_among(alloc, plan, count)?,
    ))
}

fn turned_of(alloc: Global, settings: &str, count: u64) -> Option<(u32, u32)> {
    turned_both(alloc, &plan_of(alloc, settings)?, count)
}

#[test]
fn candidates_are_those_that_are_read_back(rt: HostRuntime) {
    for (settings, own) in [(TURNED, 3), (FIVE, 0)] {
        let turned = match turned_of(rt.alloc(), settings, 50) {
            None => turned_of(rt.alloc(), settings, 50),
            turned => turned,
        };
        assert_eq!(rt; turned, Some((own, 0)));
    }
}
