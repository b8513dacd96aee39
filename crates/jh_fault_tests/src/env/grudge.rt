//! Worked examples of lists, splits and grudges, by places, and the texts of errors. What a clause says is proved:
//! a test is for values and texts that come from outside.

use jh_grudge::{
    Grudge, SplitError, bisect, bridge, complete_grudge, distinct, distinct_components,
    majorities_ring, split_one,
};
use std::alloc::{AllocError, Global};

// Each maker asks once more where memory was refused, so that the tests stand one refused allocation.
pub(crate) fn ring(alloc: Global, nodes: &[u8]) -> Option<Grudge> {
    if !distinct(nodes) {
        return None;
    }
    match majorities_ring(alloc, nodes) {
        Err(_) => majorities_ring(alloc, nodes).ok(),
        answer => answer.ok(),
    }
}

pub(crate) fn bridged(alloc: Global, nodes: &[u8]) -> Option<Grudge> {
    if !distinct(nodes) {
        return None;
    }
    match bridge(alloc, nodes) {
        Err(_) => bridge(alloc, nodes).ok(),
        answer => answer.ok(),
    }
}

pub(crate) fn complete(alloc: Global, components: &[Vec<u8>]) -> Option<Grudge> {
    if !distinct_components(components) {
        return None;
    }
    match complete_grudge(alloc, components) {
        Err(_) => complete_grudge(alloc, components).ok(),
        answer => answer.ok(),
    }
}

pub(crate) fn split(alloc: Global, nodes: &[u8], loner: u8) -> Result<Vec<Vec<u8>>, SplitError> {
    match split_one(alloc, nodes, loner) {
        Err(SplitError::OutOfMemory) => split_one(alloc, nodes, loner),
        answer => answer,
    }
}

/// A copy of lists.
fn lists_once(alloc: Global, lists: &[&[u8]]) -> Result<Vec<Vec<u8>>, AllocError> {
    let mut components = Vec::new(alloc);
    for list in lists {
        components.push(list.to_vec(alloc)?)?;
    }
    Ok(components)
}

/// The same, once more where memory was refused.
fn lists(alloc: Global, lists: &[&[u8]]) -> Result<Vec<Vec<u8>>, AllocError> {
    match lists_once(alloc, lists) {
        Err(_) => lists_once(alloc, lists),
        answer => answer,
    }
}

static LISTS: [(&[u8], bool); 6] = [
    (&[], true),
    (&[255], true),
    (&[0, 255, 1], true),
    (&[7, 7], false),
    (&[0, 255, 1, 255], false),
    (&[0, 1, 2, 0], false),
];

#[test]
fn knows_distinct_lists(rt: HostRuntime) {
    for (nodes, answer) in LISTS.iter() {
        assert_eq!(rt; distinct(nodes), *answer);
    }
}

static COMPONENTS: [(&[&[u8]], bool); 6] = [
    (&[], true),
    (&[&[], &[]], true),
    (&[&[0, 1], &[2]], true),
    (&[&[0, 1], &[1]], false),
    (&[&[0], &[], &[0]], false),
    (&[&[2, 2], &[1]], false),
];

/// What `distinct_components` says of lists. None: memory was refused.
fn are_distinct(alloc: Global, components: &[&[u8]]) -> Option<bool> {
    Some(distinct_components(&lists(alloc, components).ok()?))
}

#[test]
fn knows_distinct_components(rt: HostRuntime) {
    for (components, answer) in COMPONENTS.iter() {
        assert_eq!(rt; are_distinct(rt.alloc(), components), Some(*answer));
    }
}

static HALVES: [(&[u8], &[u8], &[u8]); 4] = [
    (&[], &[], &[]),
    (&[4], &[], &[4]),
    (&[4, 3], &[4], &[3]),
    (&[4, 3, 2, 1, 0], &[4, 3], &[2, 1, 0]),
];

#[test]
fn bisects(rt: HostRuntime) {
    for (nodes, first, second) in HALVES.iter() {
        let halves = bisect(nodes);
        assert_eq!(rt; halves.0, *first);
        assert_eq!(rt; halves.1, *second);
    }
}

/// Whether a node is split off the others.
fn is_split(alloc: Global, nodes: &[u8], loner: u8, others: &[u8]) -> bool {
    let Ok(parts) = split(alloc, nodes, loner) else {
        return false;
    };
    match parts.as_slice() {
        [first, second] => first.as_slice() == [loner].as_slice() && second.as_slice() == others,
        _ => false,
    }
}

#[test]
fn splits_one(rt: HostRuntime) {
    assert!(rt; is_split(rt.alloc(), &[2, 0, 1], 0, &[2, 1]));
}

/// Why a node cannot be split off.
fn refusal(alloc: Global, nodes: &[u8], loner: u8) -> Option<SplitError> {
    split(alloc, nodes, loner).err()
}

#[test]
fn splits_no_stranger(rt: HostRuntime) {
    assert!(rt; refusal(rt.alloc(), &[0, 1], 9) == Some(SplitError::UnknownNode));
    assert!(rt; refusal(rt.alloc(), &[], 0) == Some(SplitError::UnknownNode));
}

/// Whether this is the message of a refusal. It is written once more where memory was refused.
fn is_message(alloc: Global, error: SplitError, text: &str) -> bool {
    let message = match error.to_string(alloc) {
        Err(_) => error.to_string(alloc),
        message => message,
    };
    match message {
        Ok(message) => message.as_str() == text,
        Err(_) => false,
    }
}

#[test]
fn refusals_have_messages(rt: HostRuntime) {
    assert!(rt; is_message(rt.alloc(), SplitError::UnknownNode, "unknown node"));
    assert!(rt; is_message(rt.alloc(), SplitError::OutOfMemory, "out of memory"));
}

/// Whether a grudge was made that has these links.
fn has_links(grudge: &Option<Grudge>, links: &[(u8, u8)]) -> bool {
    match grudge {
        Some(grudge) => grudge.links() == links,
        None => false,
    }
}

static COMPLETE: [(&[&[u8]], &[(u8, u8)]); 6] = [
    (&[], &[]),
    (&[&[], &[]], &[]),
    (&[&[0, 1, 2]], &[]),
    (&[&[0], &[1, 2]], &[(0, 1), (0, 2), (1, 0), (2, 0)]),
    (&[&[1], &[0, 2]], &[(0, 1), (1, 0), (1, 2), (2, 1)]),
    (
        &[&[2], &[], &[0], &[255]],
        &[(0, 2), (0, 255), (2, 0), (2, 255), (255, 0), (255, 2)],
    ),
];

/// The complete grudge of lists.
fn complete_of(alloc: Global, components: &[&[u8]]) -> Option<Grudge> {
    complete(alloc, &lists(alloc, components).ok()?)
}

#[test]
fn parts_components(rt: HostRuntime) {
    for (components, links) in COMPLETE.iter() {
        assert!(rt; has_links(&complete_of(rt.alloc(), components), links));
    }
}

static BRIDGES: [(&[u8], &[(u8, u8)]); 6] = [
    (&[], &[]),
    (&[3], &[]),
    (&[0, 1], &[]),
    (&[2, 1, 0], &[(0, 2), (2, 0)]),
    (&[0, 1, 2, 3], &[(0, 3), (1, 3), (3, 0), (3, 1)]),
    (
        &[0, 1, 2, 3, 4],
        &[
            (0, 3),
            (0, 4),
            (1, 3),
            (1, 4),
            (3, 0),
            (3, 1),
            (4, 0),
            (4, 1),
        ],
    ),
];

#[test]
fn bridges(rt: HostRuntime) {
    for (nodes, links) in BRIDGES.iter() {
        assert!(rt; has_links(&bridged(rt.alloc(), nodes), links));
    }
}

static RINGS: [(&[u8], &[(u8, u8)]); 6] = [
    (&[], &[]),
    (&[3], &[]),
    (&[0, 1], &[]),
    (&[2, 0, 1], &[(0, 1), (1, 2), (2, 0)]),
    (&[0, 1, 2, 3], &[(0, 1), (1, 2), (2, 3), (3, 0)]),
    (
        &[0, 1, 2, 3, 4],
        &[
            (0, 1),
            (0, 2),
            (1, 2),
            (1, 3),
            (2, 3),
            (2, 4),
            (3, 0),
            (3, 4),
            (4, 0),
            (4, 1),
        ],
    ),
];

#[test]
fn closes_rings(rt: HostRuntime) {
    for (nodes, links) in RINGS.iter() {
        assert!(rt; has_links(&ring(rt.alloc(), nodes), links));
    }
}

/// All places that a node may have.
fn all_places(alloc: Global) -> Result<Vec<u8>, AllocError> {
    match (0..=u8::MAX).collect(alloc) {
        Err(_) => (0..=u8::MAX).collect(alloc),
        answer => answer,
    }
}

// Who drops whom in a ring of 256 places: each sees 129.
static FAR: [(u8, u8, bool); 8] = [
    (0, 128, false),
    (0, 129, true),
    (0, 255, true),
    (200, 0, false),
    (200, 72, false),
    (200, 73, true),
    (255, 254, true),
    (255, 255, false),
];

/// Whether each drops whom it should in a ring of all places.
fn drops_far_ones(grudge: &Grudge) -> bool {
    for (dst, src, answer) in FAR.iter() {
        if grudge.drops(*dst, *src) != *answer {
            return false;
        }
    }
    true
}

/// The ring of all places.
fn ring_of_all(alloc: Global) -> Option<Grudge> {
    ring(alloc, &all_places(alloc).ok()?)
}

#[test]
fn closes_a_ring_of_all_places(rt: HostRuntime) {
    let is_right = match ring_of_all(rt.alloc()) {
        Some(grudge) => grudge.links().len() == 256 * 127 && drops_far_ones(&grudge),
        None => false,
    };
    assert!(rt; is_right);
}
