//! What is kept of links, nodes and fixes, and how often a part of it was written. Nothing outside
//! of this file can write one without raising the count. `specs/Tallies.antt` says what stands
//! where.

ghost use Rattle.std.specs.Prelude.{◌≡◌, ◌<◌, ◌≤◌, ◌+◌, ◌*◌, length, is_some, map};
ghost use Rattle.std.specs.Prelude.{slice_index_or, slice_set, IfOk};
ghost use Rattle.std.specs.List.{count_by};
ghost use Rattle.std.specs.Vec.{vec_capacity};
ghost use Rattle.jh_tables.specs.Limits.{max_laid, max_nodes};
ghost use Rattle.jh_tables.specs.Tallies.{calm_tally, faultless_tallies, fresh_link, fresh_node};
ghost use Rattle.jh_tables.specs.Tallies.{running_tally, with_free_entries};
ghost use Rattle.jh_tables.specs.ChangingInside.{one_if, written_tallies, IsThere};

use crate::cells::{Link, NodeCell};
use crate::tables::MAX_LAID;
use std::alloc::{AllocError, Global};
use std::marker::Model;

/// How many levels of loss there are.
pub const LEVELS: usize = 20;

/// The most nodes that tables have: as many as a `u64` has bits, so that one has a bit for each
/// node.
pub const MAX_NODES: usize = 64;

/// How many fixes there is room for: one for each fault that can be laid.
pub const MAX_FIXES: usize = MAX_LAID;

/// What is kept of a link.
#[derive(Clone, Copy, Debug, PartialEq, Eq)]
pub struct LinkTally {
    /// The link at the start.
    pub start: Link,
    /// How many faults cut it.
    pub cuts: u16,
    /// Milliseconds by which all faults slow it.
    pub slowed_ms: u64,
    /// For each level of loss, from 1 on, how many faults lose its messages at it.
    pub losses: [u16; LEVELS],
}

/// What is kept of a node.
#[derive(Clone, Copy, Debug, PartialEq, Eq)]
pub struct NodeTally {
    /// The node at the start.
    pub start: NodeCell,
    /// How many faults pause it.
    pub pauses: u16,
    /// How many faults kill it.
    pub kills: u16,
    /// Milliseconds by which all faults move its clock.
    pub bumped_ms: i64,
}

/// A fixed delay, with the links that have it.
#[derive(Clone, Copy, Debug, PartialEq, Eq)]
pub struct FixEntry {
    /// The stamp that it was put with.
    pub stamp: u32,
    /// The delay, in milliseconds.
    pub ms: u64,
    /// For each node a number, whose bits stand for the links from it: the bit at the place of the
    /// destination is 1 where the fix is of that link.
    pub links: [u64; MAX_NODES],
}

/// The delay that a fix gives to a link.
#[derive(Clone, Copy)]
pub struct FixedDelay {
    /// The stamp of the fix. Of two fixes of a link the one with the greater stamp holds.
    pub stamp: u32,
    /// The delay, in milliseconds.
    pub ms: u64,
}

/// One count or sum of a link.
#[derive(Clone, Copy)]
pub enum LinkCount {
    Cuts(u16),
    Slowed(u64),
    /// The count at this place, below `LEVELS`, among those of the levels of loss.
    Losses(usize, u16),
}

/// One count or sum of a node.
#[derive(Clone, Copy)]
pub enum NodeCount {
    Pauses(u16),
    Kills(u16),
    Bumped(i64),
}

/// What is written: one count or sum of a link or of a node, or an entry for a fix, which is free
/// or in use.
#[derive(Clone, Copy)]
pub enum TableWrite {
    Link(LinkCount),
    Node(NodeCount),
    Fix(Option<FixEntry>),
}

/// Tallies, entries of fixes, and how often a count, a sum or an entry was written. A contract sees
/// all of them.
#[derive(Debug, Drop)]
pub struct Counted {
    links: Vec<LinkTally>,
    nodes: Vec<NodeTally>,
    // The entries that were ever in use. There is room for all, and those behind these are free: so
    // tables on which nothing is fixed touch and copy none of the memory that is taken for entries.
    fixes: Vec<Option<FixEntry>>,
    // How many entries are in use.
    used: usize,
    work: u64,
}

impl Model for Counted {
    ghost use Rattle.std.specs.Prelude.{◌≡◌, ◌≤◌, ◌*◌, length, is_some};
    ghost use Rattle.std.specs.List.{count_by};
    ghost use Rattle.std.specs.Vec.{vec_capacity};
    ghost use Rattle.jh_tables.specs.Limits.{max_laid, max_nodes};
    ghost use Rattle.jh_tables.specs.Tallies.{Tallies, with_free_entries};

    ghost Value = { Tallies };

    ghost view = { λ a. record {
      links = a.links.items;
      nodes = a.nodes.items;
      fixes = with_free_entries a.fixes.items;
      work = a.work;
    } };

    ghost invariant = { λ a. (length a.nodes.items ≤ max_nodes)
        × (length a.links.items ≡ length a.nodes.items * length a.nodes.items)
        × (a.used ≡ count_by is_some a.fixes.items)
        × (length a.fixes.items ≤ max_laid) × (max_laid ≤ vec_capacity a.fixes) };
}

/// A tally for each link, in which no fault counts.
fn link_tallies(alloc: Global, links: &[Link]) -> Result<Vec<LinkTally>, AllocError>
    ensures { IfOk result (λ tallies. tallies.items ≡ map fresh_link links.now) }
{
    let mut tallies = Vec::with_capacity(alloc, links.len())?;
    for link in links {
        tallies.push(LinkTally {
            start: *link,
            cuts: 0,
            slowed_ms: 0,
            losses: [0; LEVELS],
        })?;
    }
    Ok(tallies)
}

/// A tally for each node, in which no fault counts.
fn node_tallies(alloc: Global, nodes: &[NodeCell]) -> Result<Vec<NodeTally>, AllocError>
    ensures { IfOk result (λ tallies. tallies.items ≡ map fresh_node nodes.now) }
{
    let mut tallies = Vec::with_capacity(alloc, nodes.len())?;
    for node in nodes {
        tallies.push(NodeTally {
            start: *node,
            pauses: 0,
            kills: 0,
            bumped_ms: 0,
        })?;
    }
    Ok(tallies)
}

/// These entries, with room for all that there can be.
fn entries_of(
    alloc: Global,
    entries: &[Option<FixEntry>],
) -> Result<Vec<Option<FixEntry>>, AllocError>
    ensures entries { IfOk result (λ copy. copy.items ≡ entries.now) }
    ensures room { IfOk result (λ copy. max_laid ≤ vec_capacity copy) }
{
    let mut copy = Vec::with_capacity(alloc, MAX_FIXES)?;
    copy.extend_from_slice(entries)?;
    Ok(copy)
}

/// Makes entries reach a place, by free ones. It takes no memory.
fn reach(entries: &mut Vec<Option<FixEntry>>, place: usize)
    requires place { place < max_laid }
    requires few { length entries.old.items ≤ max_laid }
    requires room { max_laid ≤ vec_capacity entries.old }
    ensures same { with_free_entries entries.new.items ≡ with_free_entries entries.old.items }
    ensures used { count_by is_some entries.new.items ≡ count_by is_some entries.old.items }
    ensures there { place < length entries.new.items }
    ensures few { length entries.new.items ≤ max_laid }
    ensures room { max_laid ≤ vec_capacity entries.new }
{
    for _place in entries.len()..place + 1 {
        entries.push_reserved(None);
    }
}

/// How many entries are in use, once one is written over another.
fn used_after(used: usize, before: &Option<FixEntry>, after: &Option<FixEntry>) -> usize
    requires { (one_if (is_some before.now) ≤ used) × (used ≤ max_laid) }
    ensures { result + one_if (is_some before.now) ≡ used + one_if (is_some after.now) }
{
    used - usize::from(before.is_some()) + usize::from(after.is_some())
}

impl Counted {
    /// Tallies in which no fault counts, and `MAX_FIXES` free entries. Nothing is written yet. The
    /// memory that entries will need is taken here.
    pub fn new(alloc: Global, links: &[Link], nodes: &[NodeCell]) -> Result<Counted, AllocError>
        requires few { length nodes.now ≤ max_nodes }
        requires square { length links.now ≡ length nodes.now * length nodes.now }
        ensures { IfOk result (λ new. new ≡ faultless_tallies links.now nodes.now) }
    {
        Ok(Counted {
            links: link_tallies(alloc, links)?,
            nodes: node_tallies(alloc, nodes)?,
            fixes: entries_of(alloc, &[])?,
            used: 0,
            work: 0,
        })
    }

    /// The same tallies, entries and count.
    pub fn copy(&self, alloc: Global) -> Result<Counted, AllocError>
        ensures { IfOk result (λ copy. copy ≡ self.now) }
    {
        Ok(Counted {
            links: Vec::from_slice(alloc, &self.links)?,
            nodes: Vec::from_slice(alloc, &self.nodes)?,
            fixes: entries_of(alloc, &self.fixes)?,
            used: self.used,
            work: self.work,
        })
    }

    /// How many nodes there are.
    pub fn count(&self) -> usize
        ensures count { result ≡ length self.now.nodes }
        ensures few { result ≤ max_nodes }
        ensures square { length self.now.links ≡ result * result }
    {
        self.nodes.len()
    }

    /// The tally of a link.
    pub fn link(&self, place: usize) -> &LinkTally
        requires { place < length self.now.links }
        ensures { result.now ≡ slice_index_or self.now.links place calm_tally }
    {
        &self.links[place]
    }

    /// The tally of a node.
    pub fn node(&self, place: usize) -> &NodeTally
        requires { place < length self.now.nodes }
        ensures { result.now ≡ slice_index_or self.now.nodes place running_tally }
    {
        &self.nodes[place]
    }

    /// The entries of fixes that were ever in use. All behind them are free.
    pub fn fixes(&self) -> &[Option<FixEntry>]
        ensures all { self.now.fixes ≡ with_free_entries result.now }
        ensures few { length result.now ≤ max_laid }
    {
        &self.fixes
    }

    /// How many entries of fixes are in use.
    pub fn used(&self) -> usize
        ensures { result ≡ count_by is_some self.now.fixes }
    {
        self.used
    }

    /// How often a count, a sum or an entry was written, up to 2^64 - 1.
    pub fn work(&self) -> u64
        ensures { result ≡ self.now.work }
    {
        self.work
    }

    /// Writes an entry over another, and counts those in use.
    fn write_fix(&mut self, place: usize, entry: &Option<FixEntry>)
        requires { place < length self.old.fixes }
        ensures { self.new ≡ record self.old { fixes = slice_set self.old.fixes place entry.now } }
    {
        reach(&mut self.fixes, place);
        self.used = used_after(self.used, &self.fixes[place], entry);
        self.fixes[place] = *entry;
    }

    /// Writes one count, one sum or one entry, where it stands, and counts it.
    pub fn write(&mut self, place: usize, written: &TableWrite)
        requires { IsThere self.old place written.now }
        ensures { self.new ≡ written_tallies self.old place written.now }
    {
        match written {
            TableWrite::Link(LinkCount::Cuts(count)) => self.links[place].cuts = *count,
            TableWrite::Link(LinkCount::Slowed(ms)) => self.links[place].slowed_ms = *ms,
            TableWrite::Link(LinkCount::Losses(level, count)) => self.links[place].losses[*level] =
                *count,
            TableWrite::Node(NodeCount::Pauses(count)) => self.nodes[place].pauses = *count,
            TableWrite::Node(NodeCount::Kills(count)) => self.nodes[place].kills = *count,
            TableWrite::Node(NodeCount::Bumped(ms)) => self.nodes[place].bumped_ms = *ms,
            TableWrite::Fix(entry) => self.write_fix(place, entry),
        }
        self.work = self.work.saturating_add(1);
    }
}
