//! Starts and faults that look random. None: memory was refused.

use crate::plain_nemesis::cells::{PlainCells, all_links};
use crate::plain_nemesis::faults::{LinkFault, NodeFault, PlainFault};
use jh_env::{Life, Link, MAX_BUMPED_MS, MAX_FIXED_MS, MAX_LOSS, MAX_SLOWED_MS, NodeCell};
use jh_test_kit::Random;
use std::alloc::Global;

/// A node of so many, mostly one of the first three, so that faults meet.
fn random_place(random: &mut Random, count: u8) -> u8 {
    let bound = match random.below(4) {
        0 => count,
        _ => count.min(3),
    };
    u8::try_from(random.below(u64::from(bound))).unwrap_or(0)
}

/// A level of loss, from the least on.
fn level(random: &mut Random, least: u64) -> u8 {
    u8::try_from(random.amount(least, u64::from(MAX_LOSS))).unwrap_or(MAX_LOSS)
}

/// A link whose cut, delay and loss are drawn.
fn random_link(random: &mut Random) -> Link {
    Link {
        cut: random.is_within(1),
        delay: random.amount(0, 60_000),
        loss: level(random, 0),
    }
}

/// The cell of a node whose life and clock are drawn.
fn random_node(random: &mut Random) -> NodeCell {
    let process = match random.below(3) {
        0 => Life::Running,
        1 => Life::Paused,
        _ => Life::Killed,
    };
    NodeCell {
        process,
        clock: random.offset(1_000_000_000_000),
    }
}

/// Starting cells of so many nodes: none, some or all of them other than they should be.
pub fn random_cells(alloc: Global, random: &mut Random, count: u8) -> Option<PlainCells> {
    let mut cells = PlainCells::calm(alloc, count)?;
    let share = random.below(6);
    for (from, to) in all_links(alloc, count)? {
        if random.is_within(share) {
            cells.set_link(from, to, random_link(random))?;
        }
    }
    set_nodes(random, count, share, &mut cells)?;
    Some(cells)
}

/// Gives some nodes cells that are drawn: none of them at a share of 0, all from a share of 4 on.
fn set_nodes(random: &mut Random, count: u8, share: u64, cells: &mut PlainCells) -> Option<()> {
    for place in 0..count {
        if random.is_within(share) {
            cells.set_node(place, random_node(random))?;
        }
    }
    Some(())
}

/// Fewer than 12 links between so many nodes, each once.
fn few_links(alloc: Global, random: &mut Random, count: u8) -> Option<Vec<(u8, u8)>> {
    let mut links = Vec::new(alloc);
    for _draw in 0..random.below(12) {
        let link = (random_place(random, count), random_place(random, count));
        if link.0 != link.1 && !links.contains(&link) {
            links.push(link).ok()?;
        }
    }
    Some(links)
}

/// About half of these links.
fn half_of(alloc: Global, random: &mut Random, links: &[(u8, u8)]) -> Option<Vec<(u8, u8)>> {
    let mut half = Vec::new(alloc);
    for link in links {
        if random.is_within(2) {
            half.push(*link).ok()?;
        }
    }
    Some(half)
}

/// Few links between so many nodes, half of them, or all.
fn random_links(alloc: Global, random: &mut Random, count: u8) -> Option<Vec<(u8, u8)>> {
    match random.below(8) {
        0 => all_links(alloc, count),
        1 => half_of(alloc, random, all_links(alloc, count)?.as_slice()),
        _ => few_links(alloc, random, count),
    }
}

/// The places of none, some or all of so many nodes.
fn random_nodes(alloc: Global, random: &mut Random, count: u8) -> Option<Vec<u8>> {
    let mut places = Vec::new(alloc);
    let share = random.below(5);
    for place in 0..count {
        if random.is_within(share) {
            places.push(place).ok()?;
        }
    }
    Some(places)
}

/// A bump of the node at each of these places.
fn bumps(alloc: Global, random: &mut Random, places: &[u8]) -> Option<Vec<(u8, i64)>> {
    let mut bumps = Vec::new(alloc);
    for place in places {
        let ms = random.offset(MAX_BUMPED_MS.unsigned_abs());
        bumps.push((*place, ms)).ok()?;
    }
    Some(bumps)
}

/// What a fault of links does. Fixes are drawn more often, for it matters which of them is the
/// last.
fn link_fault(random: &mut Random) -> LinkFault {
    match random.below(6) {
        0 => LinkFault::Cut,
        1 => LinkFault::Slow(random.amount(1, MAX_SLOWED_MS)),
        2 => LinkFault::Loss(level(random, 1)),
        _ => LinkFault::Fix(random.amount(0, MAX_FIXED_MS)),
    }
}

/// What a fault of nodes does.
fn node_fault(random: &mut Random) -> NodeFault {
    match random.below(2) {
        0 => NodeFault::Pause,
        _ => NodeFault::Kill,
    }
}

/// A fault of one of the seven kinds, between so many nodes.
pub(crate) fn random_fault(alloc: Global, random: &mut Random, count: u8) -> Option<PlainFault> {
    let kind = random.below(9);
    if kind < 6 {
        let links = random_links(alloc, random, count)?;
        return Some(PlainFault::OnLinks(link_fault(random), links));
    }
    let places = random_nodes(alloc, random, count)?;
    match kind {
        6 | 7 => Some(PlainFault::OnNodes(node_fault(random), places)),
        _ => Some(PlainFault::Bump(bumps(alloc, random, places.as_slice())?)),
    }
}
