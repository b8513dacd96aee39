//! Grudges made slowly: of each node it is said whom it sees, and it drops all others.

use crate::plain_grudge::splits::halves_slowly;
use std::alloc::{AllocError, Global};

/// The links on which messages are dropped.
pub type Links = Vec<(u8, u8)>;

/// Lets a node drop all nodes but those that it sees.
fn drop_others(links: &mut Links, nodes: &[u8], dst: u8, seen: &[u8]) -> Result<(), AllocError> {
    for src in nodes {
        if !seen.contains(src) {
            links.push((*src, dst))?;
        }
    }
    Ok(())
}

/// The nodes of all components.
fn all_of(alloc: Global, components: &[Vec<u8>]) -> Result<Vec<u8>, AllocError> {
    let mut nodes = Vec::new(alloc);
    for component in components {
        nodes.extend_from_slice(component)?;
    }
    Ok(nodes)
}

/// A complete grudge: no node sees one outside its component.
pub fn complete_slowly(alloc: Global, components: &[Vec<u8>]) -> Result<Links, AllocError> {
    let nodes = all_of(alloc, components)?;
    let mut links = Vec::new(alloc);
    for component in components {
        for dst in component {
            drop_others(&mut links, &nodes, *dst, component)?;
        }
    }
    links.sort()?;
    Ok(links)
}

/// A bridge: the complete grudge of both halves, but that the first node of the second half drops
/// nobody, and nobody drops it.
pub fn bridge_slowly(alloc: Global, nodes: &[u8]) -> Result<Links, AllocError> {
    let halves = halves_slowly(alloc, nodes)?;
    let bridge = halves.get(1).and_then(|second| second.first()).copied();
    let mut links = Vec::new(alloc);
    for link in complete_slowly(alloc, &halves)? {
        if Some(link.0) != bridge && Some(link.1) != bridge {
            links.push(link)?;
        }
    }
    Ok(links)
}

/// The nodes that the one at a place of a ring sees: the smallest majority that begins with itself,
/// around.
fn majority_from(alloc: Global, nodes: &[u8], place: usize) -> Result<Vec<u8>, AllocError> {
    let mut seen = Vec::new(alloc);
    for node in nodes.iter().skip(place).chain(nodes.iter().take(place)) {
        if seen.len().saturating_mul(2) <= nodes.len() {
            seen.push(*node)?;
        }
    }
    Ok(seen)
}

/// A ring of majorities: each node sees the smallest majority that begins with itself.
pub fn ring_slowly(alloc: Global, nodes: &[u8]) -> Result<Links, AllocError> {
    let mut links = Vec::new(alloc);
    for (place, dst) in nodes.iter().enumerate() {
        let seen = majority_from(alloc, nodes, place)?;
        drop_others(&mut links, nodes, *dst, &seen)?;
    }
    links.sort()?;
    Ok(links)
}
