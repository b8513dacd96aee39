//! The text of a random fault. Links and nodes stand by their places, as faults are written.

use jh_env::{Node, Nodes};
use jh_step_texts::ring_order;
use std::alloc::Global;
use std::io::Write;

/// The name of the node at a place.
fn name_at(nodes: &Nodes, place: u8) -> Option<&str> {
    nodes.name(Node::at(place))
}

/// The links between the first so many nodes and the rest.
fn put_apart(links: &mut Vec<(u8, u8)>, order: &[u8], first: usize) -> Option<()> {
    for one in order.get(..first)? {
        for other in order.get(first..)? {
            links.push((*one, *other)).ok()?;
            links.push((*other, *one)).ok()?;
        }
    }
    Some(())
}

/// Whether a node of a ring drops what another sends: it stands behind the majority that the first
/// sees.
fn is_dropped(order: &[u8], source: u8, destination: u8) -> Option<bool> {
    let count = order.len();
    let at = order.iter().position(|node| *node == destination)?;
    let from = order.iter().position(|node| *node == source)?;
    let behind = count
        .checked_add(from)?
        .checked_sub(at)?
        .checked_rem(count)?;
    Some(behind > count / 2)
}

/// The links that are dropped in a ring, each of whose nodes sees a majority.
fn put_ring(links: &mut Vec<(u8, u8)>, order: &[u8]) -> Option<()> {
    for source in order {
        for destination in order {
            if is_dropped(order, *source, *destination)? {
                links.push((*source, *destination)).ok()?;
            }
        }
    }
    Some(())
}

/// The links that a fault names.
fn links(alloc: Global, order: &[u8], choice: u64) -> Option<Vec<(u8, u8)>> {
    let mut links = Vec::new(alloc);
    match choice {
        0 => links.push((*order.get(0)?, *order.get(1)?)).ok()?,
        1 => put_apart(&mut links, order, 1)?,
        2 => put_apart(&mut links, order, order.len() / 2)?,
        _ => put_ring(&mut links, order)?,
    }
    links.sort_unstable();
    Some(links)
}

/// Writes links by the names of their nodes.
fn put_links(text: &mut Vec<u8>, nodes: &Nodes, links: &[(u8, u8)]) -> Option<()> {
    let mut gap = "";
    for link in links {
        let source = name_at(nodes, link.0)?;
        let destination = name_at(nodes, link.1)?;
        write!(text, "{gap}[\"{source}\" \"{destination}\"]").ok()?;
        gap = " ";
    }
    Some(())
}

/// The nodes that a fault names.
fn some(alloc: Global, order: &[u8], choice: u64) -> Option<Vec<u8>> {
    let minority = order.len().saturating_sub(1) / 2;
    let count = match choice {
        0 => 1,
        1 => minority.max(1),
        _ => (order.len() / 2).saturating_add(1),
    };
    let mut some = Vec::from_slice(alloc, order.get(..count)?).ok()?;
    some.sort_unstable();
    Some(some)
}

/// Writes nodes by their names.
fn put_nodes(text: &mut Vec<u8>, nodes: &Nodes, places: &[u8]) -> Option<()> {
    let mut gap = "";
    for place in places {
        let name = name_at(nodes, *place)?;
        write!(text, "{gap}\"{name}\"").ok()?;
        gap = " ";
    }
    Some(())
}

/// Writes bumps by the names of their nodes, each with the milliseconds.
fn put_clocks(text: &mut Vec<u8>, nodes: &Nodes, places: &[u8], ms: i64) -> Option<()> {
    let mut gap = "";
    for place in places {
        let name = name_at(nodes, *place)?;
        write!(text, "{gap}\"{name}\" {ms}").ok()?;
        gap = ", ";
    }
    Some(())
}

/// The one of four amounts that a number draws.
fn one_of(choices: &[i64; 4], number: u64) -> Option<i64> {
    choices.get(usize::try_from(number % 4).ok()?).copied()
}

/// What stands before the links of a fault.
fn put_kind(text: &mut Vec<u8>, kind: &str, number: u64) -> Option<()> {
    let amounts = match kind {
        "slow" | "fix" => [50, 400, 600, 1_500],
        "loss" => [2, 6, 12, 20],
        _ => return write!(text, "[:{kind} ").ok(),
    };
    let amount = one_of(&amounts, number)?;
    write!(text, "[:{kind} {amount} ").ok()
}

/// The text of a fault of this kind, by the numbers of its shape, its order and its amount.
pub(crate) fn fault_text(
    alloc: Global,
    nodes: &Nodes,
    kind: &str,
    numbers: (u64, u64, u64),
) -> Option<Vec<u8>> {
    let order = ring_order(alloc, nodes, numbers.1).ok()?;
    let mut text = Vec::new(alloc);
    put_kind(&mut text, kind, numbers.2)?;
    match kind {
        "bump" => {
            let ms = one_of(&[100, -100, 100_000, -100_000], numbers.2)?;
            text.push(b'{').ok()?;
            put_clocks(&mut text, nodes, &some(alloc, &order, numbers.0 % 3)?, ms)?;
            text.push(b'}').ok()?;
        }
        "pause" | "kill" => {
            text.push(b'[').ok()?;
            put_nodes(&mut text, nodes, &some(alloc, &order, numbers.0 % 3)?)?;
            text.push(b']').ok()?;
        }
        _ => {
            text.push(b'[').ok()?;
            put_links(&mut text, nodes, &links(alloc, &order, numbers.0 % 4)?)?;
            text.push(b']').ok()?;
        }
    }
    text.push(b']').ok()?;
    Some(text)
}
