//! Nodes and their names. `specs/Names.antt` says which lists of names an environment may have.

ghost use Rattle.std.specs.Prelude.{◌≡◌, ◌<◌, ◌≤◌, ◌%◌, ◌++◌, ◌∷◌, [], map, length, slice_get};
ghost use Rattle.std.specs.Prelude.{option_map, position, IfOk, IfSome, MatchResult, MatchOption};
ghost use Rattle.std.specs.List.{All, list_all};
ghost use Rattle.std.specs.Str.{bytes_eq};
ghost use Rattle.std.specs.String.{string_bytes};
ghost use Rattle.jh_tables.specs.Limits.{max_nodes};
ghost use Rattle.jh_env.specs.Names as rule;
ghost use Rattle.jh_env.specs.Names.{AreNodeNames, AreFew, MayFollow, RefusesName, RefusesNames};
ghost use Rattle.jh_env.specs.Names.{is_name_byte, node_places};

use arrayvec::ArrayVec;
use indexmap::IndexSet;
use jh_tables::{MAX_NODES, Node};
use std::alloc::{AllocError, Global};
use std::marker::Model;
use thiserror::Error;

/// The most bytes of a name.
const MAX_NAME_BYTES: usize = 64;

/// The names of an environment's nodes, in the order given. A contract sees the list of names.
#[derive(Debug, Drop)]
pub struct Nodes {
    names: IndexSet<String>,
}

impl Model for Nodes {
    ghost use Rattle.std.specs.Prelude.{ℕ, List, length, ◌<◌, ◌≤◌, map};
    ghost use Rattle.std.specs.String.{string_bytes};

    ghost Value = { List (List ℕ) };

    ghost use Rattle.jh_tables.specs.Limits.{max_nodes};
    ghost use Rattle.jh_env.specs.Names.{AreNodeNames};

    ghost view = { λ a. map string_bytes a.names.keys };

    ghost invariant = { λ a. (0 < length a.names.keys) × (length a.names.keys ≤ max_nodes)
        × AreNodeNames (map string_bytes a.names.keys) };
}

/// Why names are refused.
#[derive(Clone, Copy, Debug, PartialEq, Eq, Error)]
pub enum NodesError {
    #[error("no nodes")]
    NoNodes,
    #[error("too many nodes")]
    TooManyNodes,
    #[error("bad name")]
    BadName,
    #[error("duplicate name")]
    DuplicateName,
    #[error("out of memory")]
    OutOfMemory,
}

/// Whether a text may name a node.
fn is_node_name(name: &str) -> bool
    ensures { result ≡ rule.is_node_name name.now }
{
    let bytes = name.as_bytes();
    if bytes.is_empty() || bytes.len() > MAX_NAME_BYTES {
        return false;
    }
    are_name_bytes(bytes)
}

/// Whether each of these bytes may stand in a name.
fn are_name_bytes(bytes: &[u8]) -> bool
    ensures { result ≡ list_all is_name_byte bytes.now }
{
    bytes.iter().all(|byte| is_name_byte(*byte))
}

/// Whether the byte may stand in a name.
fn is_name_byte(byte: u8) -> bool
    ensures { result ≡ rule.is_name_byte byte }
{
    byte.is_ascii_alphanumeric() || byte == b'.' || byte == b'-' || byte == b'_'
}

/// Adds a name, if it may stand after those that are there.
fn add_name(alloc: Global, set: &mut IndexSet<String>, name: &str) -> Result<(), NodesError>
    ensures { MatchResult result
        (λ _. (map string_bytes set.new.keys ≡ map string_bytes set.old.keys ++ name.now ∷ [])
        × MayFollow (map string_bytes set.old.keys) name.now)
        (RefusesName (map string_bytes set.old.keys) name.now) }
{
    if !is_node_name(name) {
        return Err(NodesError::BadName);
    }
    if set.contains(name) {
        return Err(NodesError::DuplicateName);
    }
    let Ok(text) = name.to_string(alloc) else {
        return Err(NodesError::OutOfMemory);
    };
    match set.insert(text) {
        Ok(_) => Ok(()),
        Err(_) => Err(NodesError::OutOfMemory),
    }
}

/// The same names, in a set of their own.
#[tactic(auto, using(crate::proofs::NameLemmas::same_texts, crate::proofs::NameLemmas::as_many_texts))]
fn copied(names: &IndexSet<String>) -> Result<IndexSet<String>, AllocError>
    ensures names { IfOk result
        (λ copy. map string_bytes copy.keys ≡ map string_bytes names.now.keys) }
    ensures count { IfOk result (λ copy. length copy.keys ≡ length names.now.keys) }
{
    let copy = names.clone()?;
    Ok(copy)
}

impl Nodes {
    /// The nodes of these names, 1 to 64, each 1 to 64 ASCII letters, digits, `.`, `-` or `_`.
    ///
    /// Errors: `NoNodes`, `TooManyNodes`, then for the first name in error `BadName` or
    /// `DuplicateName`; `OutOfMemory` where memory was refused before such a name.
    pub fn of(alloc: Global, names: &[&str]) -> Result<Nodes, NodesError>
        ensures { MatchResult result
            (λ nodes. (nodes ≡ map (λ s. s.now) names.now) × AreNodeNames nodes × AreFew nodes)
            (RefusesNames (map (λ s. s.now) names.now)) }
    {
        if names.is_empty() {
            return Err(NodesError::NoNodes);
        }
        if names.len() > MAX_NODES {
            return Err(NodesError::TooManyNodes);
        }
        let mut set = IndexSet::new(alloc);
        for name in names {
            add_name(alloc, &mut set, name)?;
        }
        Ok(Nodes { names: set })
    }

    /// The same names.
    pub(crate) fn copy(&self) -> Result<Nodes, AllocError>
        ensures { IfOk result (λ copy. copy ≡ self.now) }
    {
        Ok(Nodes {
            names: copied(&self.names)?,
        })
    }

    /// How many nodes there are, 1 to 64.
    pub fn len(&self) -> usize
        ensures len { result ≡ length self.now }
        ensures bounded { (0 < result) × (result ≤ max_nodes) }
        ensures named { AreNodeNames self.now }
    {
        self.names.len()
    }

    /// The node of this name.
    pub fn find(&self, name: &str) -> Option<Node>
        ensures found { result ≡ position (bytes_eq name.now) self.now }
        ensures known { IfSome result (λ node. node < length self.now) }
    {
        let place = self.names.get_index_of(name)?;
        Some(Node::at(place as u8))
    }

    /// The node at this place, from 0.
    pub fn at(&self, place: u8) -> Option<Node>
        ensures { MatchOption result (length self.now ≤ place)
            (λ node. (node ≡ place) × (node < length self.now)) }
    {
        if (place as usize) < self.len() {
            Some(Node::at(place))
        } else {
            None
        }
    }

    /// The node that the client thread of this number, from 0, calls: threads have the nodes in order,
    /// the first node again after the last.
    pub fn of_thread(&self, thread: u32) -> Node
        ensures node { result ≡ thread % length self.now }
        ensures known { result < length self.now }
    {
        let place = thread as usize % self.len();
        Node::at(place as u8)
    }

    /// All nodes, by place. Takes no memory.
    pub fn all(&self) -> ArrayVec<Node, MAX_NODES>
        ensures all { result.items ≡ node_places (length self.now) }
        ensures known { All (λ node. node < length self.now) result.items }
    {
        let mut all = ArrayVec::new();
        for place in 0..self.len() as u8 {
            all.push(Node::at(place));
        }
        all
    }

    /// The name of a node, where the node is one of these.
    pub fn name(&self, node: Node) -> Option<&str>
        ensures { option_map (λ s. s.now) result ≡ slice_get self.now node }
    {
        let name = self.names.get_index(node.place() as usize)?;
        Some(name.as_str())
    }
}
