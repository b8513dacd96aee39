//! What a link is while two faults stand, after the first is taken, and after both are; and how often cells are
//! written for all that.

ghost use Rattle.std.specs.Prelude.{◌∷◌, [], length, IfSome};
ghost use Rattle.jh_env.specs.Faults.{FitsCount};
ghost use Rattle.jh_env.specs.Overlay.{StandsWith};

use crate::env::faults::{fault, over_first};
use crate::env::rows::{link_text, spelled};
use jh_env::{Env, Fault, Link, Node, Nodes, Start};
use std::alloc::Global;

/// An environment of three calm nodes.
fn calm(alloc: Global) -> Option<Env>
    ensures { IfSome result (λ env. StandsWith env []) }
{
    let nodes = Nodes::of(alloc, &["n1", "n2", "n3"]).ok()?;
    Env::start(alloc, Start::new(alloc, nodes).ok()?).ok()
}

/// Puts two faults on an environment that has none.
fn put_both(env: &mut Env, first: &Fault, second: &Fault)
    requires none { StandsWith env.old [] }
    requires first { FitsCount (length env.old.names) first.now }
    requires second { FitsCount (length env.old.names) second.now }
    ensures { StandsWith env.new ((0, first.now) ∷ (1, second.now) ∷ []) }
{
    env.put(first, 0);
    env.put(second, 1);
}

/// Takes the first of two faults.
fn take_first(env: &mut Env, first: &Fault, second: &Fault)
    requires { StandsWith env.old ((0, first.now) ∷ (1, second.now) ∷ []) }
    ensures { StandsWith env.new ((1, second.now) ∷ []) }
{
    env.take(first, 0);
}

/// Takes the second fault, which alone is left.
fn take_second(env: &mut Env, second: &Fault)
    requires { StandsWith env.old ((1, second.now) ∷ []) }
    ensures { StandsWith env.new [] }
{
    env.take(second, 1);
}

/// The link from the first node to the second.
fn link(alloc: Global, env: &Env) -> Option<String> {
    link_text(alloc, env.link(Node::at(0), Node::at(1))?)
}

/// The link with both faults and with the second alone; in the end both are taken.
fn links(alloc: Global, env: &mut Env, first: &Fault, second: &Fault) -> Option<String>
    requires none { StandsWith env.old [] }
    requires first { FitsCount (length env.old.names) first.now }
    requires second { FitsCount (length env.old.names) second.now }
{
    put_both(env, first, second);
    let both = link(alloc, env)?;
    take_first(env, first, second);
    let one = link(alloc, env)?;
    take_second(env, second);
    format!(in alloc; "{both}; {one}").ok()
}

/// The fault that a text spells. None: it spells none, or memory was refused.
fn made(alloc: Global, text: &str) -> Option<Fault> {
    fault(alloc, &over_first(alloc, "3")?, &spelled(alloc, text)?).ok()
}

/// What there is to see of two faults: the links while they stand, the link in the end, and how often cells were
/// written.
type Seen = (String, Option<Link>, u64);

/// What is seen of two faults on an environment that has none. None: memory was refused, or a fault does not fit.
fn seen_on(alloc: Global, env: &mut Env, first: &Fault, second: &Fault) -> Option<Seen>
    requires { StandsWith env.old [] }
{
    if !first.fits(env) || !second.fits(env) {
        return None;
    }
    let links = links(alloc, env, first, second)?;
    Some((links, env.link(Node::at(0), Node::at(1)), env.work()))
}

/// What is seen of the faults that texts spell.
fn seen_once(alloc: Global, first: &str, second: &str) -> Option<Seen> {
    let first = made(alloc, first)?;
    let second = made(alloc, second)?;
    seen_on(alloc, &mut calm(alloc)?, &first, &second)
}

// Asks once more where memory was refused, so that the test stands one refused allocation.
fn seen(alloc: Global, first: &str, second: &str) -> Option<Seen> {
    match seen_once(alloc, first, second) {
        Some(seen) => Some(seen),
        None => seen_once(alloc, first, second),
    }
}

/// Two faults, the links while they stand, and the fewest and the most writes.
type Row = (&'static str, &'static str, &'static str, u64, u64);

// A cut of no links writes nothing.
static ROWS: [Row; 6] = [
    ("cut 0 1", "cut 0 1", "cut 0 0; cut 0 0", 4, 4),
    ("fix 20 0 1 1 0", "cut", "open 20 0; open 0 0", 1, 6),
    ("fix 300 0 1", "fix 20 0 1", "open 20 0; open 20 0", 2, 8),
    ("fix 20 0 1", "slow 50 0 1", "open 70 0; open 50 0", 2, 6),
    ("loss 7 0 1", "loss 4 0 1", "open 0 7; open 0 4", 4, 4),
    ("cut 1 0", "pause 0 1", "open 0 0; open 0 0", 6, 6),
];

/// Whether this is seen of the faults of a row, and a calm link in the end.
fn is_seen(alloc: Global, row: &Row) -> bool {
    let (first, second, wanted, fewest, most) = row;
    match seen(alloc, first, second) {
        Some((links, last, work)) => links.as_str() == *wanted
            && last == Some(Link::calm())
            && *fewest <= work
            && work <= *most,
        None => false,
    }
}

#[test]
fn taken_faults_are_gone(rt: HostRuntime) {
    for row in ROWS.iter() {
        assert!(rt; is_seen(rt.alloc(), row), "at {}", row.0);
    }
}
