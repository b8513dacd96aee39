//! Lists of nodes, split slowly.

use std::alloc::{AllocError, Global};

/// Whether no node stands at two places.
pub fn are_distinct(nodes: &[u8]) -> bool {
    for (place, node) in nodes.iter().enumerate() {
        for (other, again) in nodes.iter().enumerate() {
            if place != other && node == again {
                return false;
            }
        }
    }
    true
}

/// The first nodes, as many as do not outnumber the others, and the others.
pub fn halves_slowly(alloc: Global, nodes: &[u8]) -> Result<Vec<Vec<u8>>, AllocError> {
    let mut first = Vec::new(alloc);
    let mut second = Vec::new(alloc);
    for (place, node) in nodes.iter().enumerate() {
        if place + 1 <= nodes.len() - place - 1 {
            first.push(*node)?;
        } else {
            second.push(*node)?;
        }
    }
    Ok(vec![in alloc; first, second]?)
}

/// The loner, and the others in order; nothing where the loner is not among the nodes.
pub fn split_slowly(
    alloc: Global,
    nodes: &[u8],
    loner: u8,
) -> Result<Option<Vec<Vec<u8>>>, AllocError> {
    let mut alone = Vec::new(alloc);
    let mut others = Vec::new(alloc);
    for node in nodes {
        match *node == loner {
            true => alone.push(*node)?,
            false => others.push(*node)?,
        }
    }
    if alone.is_empty() {
        return Ok(None);
    }
    Ok(Some(vec![in alloc; alone, others]?))
}
