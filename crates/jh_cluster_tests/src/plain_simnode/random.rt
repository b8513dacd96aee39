//! Requests, faults and steps that look random.

use crate::plain_simnode::reach::node_at;
use jh_env::{Env, Fault, Node};
use jh_nemesis::Step;
use jh_ops::Request;
use jh_test_kit::Random;
use std::alloc::Global;

/// A number from 0 to 4.
fn small(random: &mut Random) -> i64 {
    i64::try_from(random.below(5)).unwrap_or(0)
}

/// An amount to add: mostly a small one, else the greatest or the least of all.
fn amount(random: &mut Random) -> i64 {
    match random.below(12) {
        0 => i64::MAX,
        1 => i64::MIN,
        _ => small(random),
    }
}

/// A request, also of another workload.
pub fn random_request(random: &mut Random) -> Request {
    match random.below(6) {
        0 | 1 => Request::Read,
        2 => Request::Write(small(random)),
        3 => Request::Cas(small(random), small(random)),
        4 => Request::Add(amount(random)),
        _ => Request::Generate,
    }
}

/// The place of a node.
pub fn random_place(random: &mut Random, env: &Env) -> usize {
    let count = env.nodes().len() as u64;
    usize::try_from(random.below(count)).unwrap_or(0)
}

/// A fault between two nodes, or of the first. None: they are the same, or memory was refused.
fn random_fault(alloc: Global, random: &mut Random, env: &Env) -> Option<Fault> {
    let first = node_at(env, random_place(random, env))?;
    let second = node_at(env, random_place(random, env))?;
    let kind = random.below(7);
    match kind {
        0..=2 => fault_between(alloc, env, kind, (first, second)),
        3 => fix_between(alloc, env, random.below(3), (first, second)),
        _ => fault_of(alloc, env, kind, first),
    }
}

/// A step; a step back in place of a begin whose fault can't be had.
pub fn random_step(alloc: Global, random: &mut Random, env: &Env) -> Step {
    let id = u32::try_from(random.below(3)).unwrap_or(0);
    match random.below(9) {
        0 => Step::Undo,
        1 => Step::Redo,
        2 => Step::WithdrawAll,
        3 | 4 => Step::Withdraw(id),
        _ => match random_fault(alloc, random, env) {
            Some(fault) => Step::Begin(id, fault),
            None => Step::Undo,
        },
    }
}

/// A cut or a loss on the link of two nodes, or slowness both ways.
fn fault_between(alloc: Global, env: &Env, kind: u64, link: (Node, Node)) -> Option<Fault> {
    match kind {
        0 => Fault::cut(alloc, env.nodes(), &[link]).ok(),
        1 => Fault::slow(alloc, env.nodes(), &[link, (link.1, link.0)], 501).ok(),
        _ => Fault::loss(alloc, env.nodes(), &[link], 10).ok(),
    }
}

/// A delay that is fixed both ways: to none, to the most that is in time there and back, or to one
/// more.
fn fix_between(alloc: Global, env: &Env, kind: u64, link: (Node, Node)) -> Option<Fault> {
    let ms = match kind {
        0 => 0,
        1 => 500,
        _ => 501,
    };
    Fault::fix(alloc, env.nodes(), &[link, (link.1, link.0)], ms).ok()
}

/// A pause or a kill of a node, or a bump of its clock.
fn fault_of(alloc: Global, env: &Env, kind: u64, node: Node) -> Option<Fault> {
    match kind {
        4 => Fault::pause(alloc, env.nodes(), &[node]).ok(),
        5 => Fault::kill(alloc, env.nodes(), &[node]).ok(),
        _ => Fault::bump(alloc, env.nodes(), &[(node, 50)]).ok(),
    }
}
