//! Calls that a row spells: a name and numbers, with a space between.

use jh_env::{Link, Node, Nodes};
use std::alloc::Global;

/// A call of a row.
#[derive(Drop)]
pub(crate) struct Call<'a> {
    pub(crate) name: &'a str,
    pub(crate) numbers: Vec<i64>,
}

/// The call that a text spells. None: it spells none, or memory was refused.
pub(crate) fn spelled(alloc: Global, text: &str) -> Option<Call<'_>> {
    let (name, rest) = text.split_once(' ').unwrap_or((text, ""));
    let mut numbers = Vec::new(alloc);
    for word in rest.split_ascii_whitespace() {
        numbers.push(word.parse::<i64>().ok()?).ok()?;
    }
    Some(Call { name, numbers })
}

/// Four nodes, whose places the numbers of a row are.
pub(crate) fn four(alloc: Global) -> Option<Nodes> {
    Nodes::of(alloc, &["n1", "n2", "n3", "n4"]).ok()
}

/// The node at a place.
pub(crate) fn node(nodes: &Nodes, place: i64) -> Option<Node> {
    nodes.at(u8::try_from(place).ok()?)
}

/// The nodes at the first two places of a call.
pub(crate) fn ends(nodes: &Nodes, places: &[i64]) -> Option<(Node, Node)> {
    match places {
        [from, to, ..] => Some((node(nodes, *from)?, node(nodes, *to)?)),
        _ => None,
    }
}

/// The cell of a link: `cut` or `open`, the delay and the level of loss.
pub(crate) fn link_text(alloc: Global, link: Link) -> Option<String> {
    let cut = if link.cut { "cut" } else { "open" };
    format!(in alloc; "{cut} {} {}", link.delay, link.loss).ok()
}
