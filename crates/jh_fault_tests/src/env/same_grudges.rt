//! Splits and grudges of many lists of nodes, compared whole with those that the plain slow program makes.
//!
//! None is answered where memory was refused.

use crate::env::grudge::{bridged, complete, ring, split};
use crate::plain_grudge::{
    are_distinct, bridge_slowly, complete_slowly, halves_slowly, ring_slowly, split_slowly,
};
use jh_grudge::{SplitError, bisect, distinct};
use std::alloc::Global;

/// Which part of a list a place is in.
#[derive(Clone, Copy)]
enum Cut {
    /// The first part ends before this place.
    Before(usize),
    /// The remainder by this number.
    By(usize),
    /// The bit of this number.
    Bits(usize),
}

impl Cut {
    fn part_of(self, place: usize) -> usize {
        match self {
            Cut::Before(end) => usize::from(place >= end),
            Cut::By(count) => place.checked_rem(count).unwrap_or(0),
            Cut::Bits(bits) => (bits >> place.min(63)) & 1,
        }
    }
}

fn part(alloc: Global, nodes: &[u8], cut: Cut, number: usize) -> Option<Vec<u8>> {
    let mut part = Vec::new(alloc);
    for (place, node) in nodes.iter().enumerate() {
        if cut.part_of(place) == number {
            part.push(*node).ok()?;
        }
    }
    Some(part)
}

fn parts(alloc: Global, nodes: &[u8], cut: Cut, count: usize) -> Option<Vec<Vec<u8>>> {
    let mut parts = Vec::new(alloc);
    for number in 0..count {
        parts.push(part(alloc, nodes, cut, number)?).ok()?;
    }
    Some(parts)
}

/// Whether both make the same complete grudge.
fn is_same_complete(alloc: Global, components: &[Vec<u8>]) -> Option<bool> {
    let grudge = complete(alloc, components)?;
    let expected = complete_slowly(alloc, components).ok()?;
    Some(grudge.links() == expected.as_slice())
}

/// Whether they do so of a list that is cut in two at any place, and in any number of parts; at every fourth where there
/// are many nodes.
fn are_same_cuts(alloc: Global, nodes: &[u8]) -> Option<bool> {
    for number in (0..=nodes.len()).step_by(nodes.len() / 17 + 1) {
        let halves = parts(alloc, nodes, Cut::Before(number), 2)?;
        let many = parts(alloc, nodes, Cut::By(number), number)?;
        if !is_same_complete(alloc, &halves)? || !is_same_complete(alloc, &many)? {
            return Some(false);
        }
    }
    Some(true)
}

/// Whether they do so of two parts of any nodes, where there are few.
fn are_same_choices(alloc: Global, nodes: &[u8]) -> Option<bool> {
    if nodes.len() > 8 {
        return Some(true);
    }
    for bits in 0..1usize << nodes.len() {
        if !is_same_complete(alloc, &parts(alloc, nodes, Cut::Bits(bits), 2)?)? {
            return Some(false);
        }
    }
    Some(true)
}

fn is_same_split(alloc: Global, nodes: &[u8], loner: u8) -> Option<bool> {
    let found = match split(alloc, nodes, loner) {
        Ok(parts) => Some(parts),
        Err(SplitError::UnknownNode) => None,
        Err(SplitError::OutOfMemory) => return None,
    };
    let is_same = found == split_slowly(alloc, nodes, loner).ok()?;
    match found {
        Some(parts) if is_same && nodes.len() < 17 => is_same_complete(alloc, &parts),
        _ => Some(is_same),
    }
}

/// Whether both split off any node alike, also one that is not there, and make the same grudge of the parts of few nodes.
fn are_same_splits(alloc: Global, nodes: &[u8]) -> Option<bool> {
    for loner in 0..=u8::MAX {
        if !is_same_split(alloc, nodes, loner)? {
            return Some(false);
        }
    }
    Some(true)
}

fn are_same_halves(alloc: Global, nodes: &[u8]) -> Option<bool> {
    let (first, second) = bisect(nodes);
    match halves_slowly(alloc, nodes).ok()?.as_slice() {
        [before, behind] => Some(first == before.as_slice() && second == behind.as_slice()),
        _ => Some(false),
    }
}

fn is_same_bridge(alloc: Global, nodes: &[u8]) -> Option<bool> {
    let expected = bridge_slowly(alloc, nodes).ok()?;
    Some(bridged(alloc, nodes)?.links() == expected.as_slice())
}

fn is_same_ring(alloc: Global, nodes: &[u8]) -> Option<bool> {
    let expected = ring_slowly(alloc, nodes).ok()?;
    Some(ring(alloc, nodes)?.links() == expected.as_slice())
}

/// So many nodes from the first on, each the same number behind the one before, around.
fn row(alloc: Global, first: u8, step: u8, count: u8) -> Option<Vec<u8>> {
    let mut nodes = Vec::new(alloc);
    for place in 0..count {
        let node = first.wrapping_add(step.wrapping_mul(place));
        nodes.push(node).ok()?;
    }
    Some(nodes)
}

/// What is made of a list.
#[derive(Clone, Copy)]
enum Ask {
    Grudges,
    Splits,
    Cuts,
}

/// Whether both make the same of a row of nodes, and both know whether it has a node twice.
fn is_same(alloc: Global, ask: Ask, nodes: &[u8]) -> Option<bool> {
    if !distinct(nodes) || !are_distinct(nodes) {
        return Some(distinct(nodes) == are_distinct(nodes));
    }
    match ask {
        Ask::Grudges => Some(is_same_bridge(alloc, nodes)? && is_same_ring(alloc, nodes)?),
        Ask::Splits => Some(are_same_halves(alloc, nodes)? && are_same_splits(alloc, nodes)?),
        Ask::Cuts => Some(are_same_cuts(alloc, nodes)? && are_same_choices(alloc, nodes)?),
    }
}

fn is_same_row(alloc: Global, ask: Ask, first: u8, step: u8, count: u8) -> Option<bool> {
    is_same(alloc, ask, &row(alloc, first, step, count)?)
}

/// The first number of nodes, of all to 16 and 64, of which they make something else.
fn wrong_count(alloc: Global, ask: Ask, first: u8, step: u8) -> Option<u8> {
    for number in 0..=17 {
        let count = if number > 16 { 64 } else { number };
        let is_same = match is_same_row(alloc, ask, first, step, count) {
            None => is_same_row(alloc, ask, first, step, count),
            is_same => is_same,
        };
        if is_same != Some(true) {
            return Some(count);
        }
    }
    None
}

// The first node of a row, and the step. The last two rows have nodes twice where they are long.
static ROWS: [(u8, u8); 5] = [(0, 1), (255, 255), (7, 37), (0, 64), (1, 16)];

/// The first row of which they make something else, with its number of nodes.
fn first_wrong(alloc: Global, ask: Ask) -> Option<(u8, u8, u8)> {
    for (first, step) in ROWS.iter() {
        if let Some(count) = wrong_count(alloc, ask, *first, *step) {
            return Some((*first, *step, count));
        }
    }
    None
}

#[test]
fn bridges_and_rings_agree(rt: HostRuntime) {
    assert_eq!(rt; first_wrong(rt.alloc(), Ask::Grudges), None);
}

#[test]
fn splits_agree(rt: HostRuntime) {
    assert_eq!(rt; first_wrong(rt.alloc(), Ask::Splits), None);
}

#[test]
fn cuts_agree(rt: HostRuntime) {
    assert_eq!(rt; first_wrong(rt.alloc(), Ask::Cuts), None);
}
