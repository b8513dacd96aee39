//! The cells that entries mean, set one entry after another. `specs/TextCells.antt` says which they
//! are, and `specs/TextErrors.antt` which entry is in error.

ghost use Rattle.std.specs.Prelude.{◌≡◌, Some, None, MatchResult, if◌then◌else◌};
ghost use Rattle.std.specs.List.{list_any};
ghost use Rattle.jh_env.specs.Starting.{IsCalm};
ghost use Rattle.jh_env.specs.Text.{OfLink, OfNode};
ghost use Rattle.jh_env.specs.TextCells.{AreCellsOf, link_with, node_with};
ghost use Rattle.jh_env.specs.TextErrors as rule;
ghost use Rattle.jh_env.specs.TextErrors.{place_of, entry_error, AreSound, HasEntryError};
ghost use Rattle.jh_env.specs.TextInside.{entry_parsed, entries_parsed, fits_link, AreStarting};
ghost use Rattle.jh_env.specs.TextInside.{SetsEntry};

use super::EnvTextError;
use super::entries::{Entry, LinkChange, NodeChange};
use crate::names::Nodes;
use crate::starting::Start;
use jh_tables::{Life, Link, Node, NodeCell};

/// The node of this name, or `UnknownNode`.
fn find(nodes: &Nodes, name: &str) -> Result<Node, EnvTextError>
    ensures { MatchResult result
        (λ node. place_of nodes.now name.now ≡ Some node)
        (λ e. (e ≡ EnvTextError.UnknownNode) × (place_of nodes.now name.now ≡ None)) }
{
    nodes.find(name).ok_or(EnvTextError::UnknownNode)
}

impl LinkChange {
    /// The link with this change, where a link can hold that.
    fn applied(self, link: Link) -> Option<Link>
        ensures { result ≡ (if fits_link self then Some (link_with self link) else None) }
    {
        Some(match self {
            LinkChange::Cut => Link { cut: true, ..link },
            LinkChange::Delay(ms) => Link {
                delay: u64::try_from(ms).ok()?,
                ..link
            },
            LinkChange::Loss(level) => Link {
                loss: u8::try_from(level).ok()?,
                ..link
            },
        })
    }

    /// Whether both stand under one key.
    fn has_key_of(self, other: LinkChange) -> bool
        ensures { result ≡ rule.is_same_link_key self other }
    {
        matches!(
            (self, other),
            (LinkChange::Cut, LinkChange::Cut)
                | (LinkChange::Delay(_), LinkChange::Delay(_))
                | (LinkChange::Loss(_), LinkChange::Loss(_))
        )
    }
}

impl NodeChange {
    /// The node with this change.
    fn applied(self, cell: NodeCell) -> NodeCell
        ensures { result ≡ node_with self cell }
    {
        match self {
            NodeChange::Pause => NodeCell {
                process: Life::Paused,
                ..cell
            },
            NodeChange::Kill => NodeCell {
                process: Life::Killed,
                ..cell
            },
            NodeChange::Clock(ms) => NodeCell { clock: ms, ..cell },
        }
    }

    /// Whether both stand under one key: `:clock`, or `:down`.
    fn has_key_of(self, other: NodeChange) -> bool
        ensures { result ≡ rule.is_same_node_key self other }
    {
        match (self, other) {
            (NodeChange::Clock(_), NodeChange::Clock(_)) => true,
            (NodeChange::Clock(_), _) | (_, NodeChange::Clock(_)) => false,
            _ => true,
        }
    }
}

/// Whether both name the same link or node under one key.
fn repeats(entry: &Entry, other: &Entry) -> bool
    ensures { result ≡ rule.repeats (entry_parsed entry.now) (entry_parsed other.now) }
{
    match (*entry, *other) {
        (Entry::Link(a, b, change), Entry::Link(c, d, other)) => a == c
            && b == d
            && change.has_key_of(other),
        (Entry::Node(a, change), Entry::Node(b, other)) => a == b && change.has_key_of(other),
        _ => false,
    }
}

/// Whether an entry before names the same link or node under one key.
fn is_repeated(before: &[Entry], entry: &Entry) -> bool
    ensures { result
        ≡ list_any (λ other. rule.repeats (entry_parsed entry.now) (entry_parsed other))
        before.now }
{
    before.iter().any(|other| repeats(entry, other))
}

/// Sets a link to what its entry means, or finds the error of the entry.
fn set_link(start: &mut Start, from: &str, to: &str, change: LinkChange) -> Result<(), EnvTextError>
    requires { AreStarting start.old }
    ensures { MatchResult result
        (λ _. (entry_error start.old.names (OfLink from.now to.now change) ≡ None)
        × SetsEntry start.old (OfLink from.now to.now change) start.new)
        (λ e. entry_error start.old.names (OfLink from.now to.now change) ≡ Some e) }
{
    let source = find(start.nodes(), from)?;
    let destination = find(start.nodes(), to)?;
    let Some(link) = start.link(source, destination) else {
        return Err(EnvTextError::SelfLink);
    };
    let Some(changed) = change.applied(link) else {
        return Err(EnvTextError::BadAmount);
    };
    start.set_link(source, destination, changed)?;
    Ok(())
}

/// Sets a node to what its entry means, or finds the error of the entry.
fn set_node(start: &mut Start, name: &str, change: NodeChange) -> Result<(), EnvTextError>
    requires { AreStarting start.old }
    ensures { MatchResult result
        (λ _. (entry_error start.old.names (OfNode name.now change) ≡ None)
        × SetsEntry start.old (OfNode name.now change) start.new)
        (λ e. entry_error start.old.names (OfNode name.now change) ≡ Some e) }
{
    let node = find(start.nodes(), name)?;
    let Some(cell) = start.node(node) else {
        return Err(EnvTextError::UnknownNode);
    };
    start.set_node(node, change.applied(cell))?;
    Ok(())
}

/// Sets the link or the node of an entry, or finds the error of the entry.
fn set_entry(start: &mut Start, entry: &Entry) -> Result<(), EnvTextError>
    requires { AreStarting start.old }
    ensures { MatchResult result
        (λ _. (entry_error start.old.names (entry_parsed entry.now) ≡ None)
        × SetsEntry start.old (entry_parsed entry.now) start.new)
        (λ e. entry_error start.old.names (entry_parsed entry.now) ≡ Some e) }
{
    match *entry {
        Entry::Link(from, to, change) => set_link(start, from, to, change),
        Entry::Node(name, change) => set_node(start, name, change),
    }
}

/// Sets what the entries mean in an environment where nothing is set yet, or finds the first entry
/// in error.
pub fn set_all(start: &mut Start, entries: &[Entry]) -> Result<(), EnvTextError>
    requires { IsCalm start.old }
    ensures { MatchResult result
        (λ _. (start.new.names ≡ start.old.names)
        × AreSound start.old.names (entries_parsed entries.now)
        × AreCellsOf start.old.names (entries_parsed entries.now) start.new.cells)
        (HasEntryError start.old.names (entries_parsed entries.now)) }
{
    for (place, entry) in entries.iter().enumerate() {
        set_entry(start, entry)?;
        if is_repeated(&entries[..place], entry) {
            return Err(EnvTextError::RepeatedEntry);
        }
    }
    Ok(())
}
