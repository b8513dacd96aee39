//! Tables: faults are put on cells and taken off. `specs/Standing.antt` says which faults tables
//! stand for.

ghost use Rattle.std.specs.Prelude.{◌≡◌, ◌<◌, ◌≤◌, ◌+◌, ◌*◌, [], length, IfOk, IfSome};
ghost use Rattle.std.specs.List.{All};
ghost use Rattle.jh_tables.specs.Faults.{fault_size, FitsCount, IsFault, fix_value};
ghost use Rattle.jh_tables.specs.Plain.{fault_of};
ghost use Rattle.jh_tables.specs.Cells.{link_at, node_at};
ghost use Rattle.jh_tables.specs.Standing.{IsLinkInRange, IsNodeInRange, IsPut, IsStartingLink};
ghost use Rattle.jh_tables.specs.Standing.{IsStartingNode, IsTaken, StandsAt, StandsAtSome};
ghost use Rattle.jh_tables.specs.Limits.{max_laid, max_nodes};
ghost use Rattle.jh_tables.specs.ChangingInside.{AreEntriesChanged, AreChanged, CanChangeEntries};
ghost use Rattle.jh_tables.specs.ChangingInside.{CanChangeTallies};

use crate::cells::{Link, NodeCell};
use crate::changing::{Change, change_tallies};
use crate::counted::Counted;
use crate::entries::{change_entries, latest_fix};
use crate::faults::PlainFault;
use crate::nodes::Node;
use crate::reading::{link_now, node_now};
use std::alloc::{AllocError, Global};
use std::marker::Model;

/// The most faults that can be laid at once: put and not taken off again.
pub const MAX_LAID: usize = 256;

/// Cells of links and nodes, and what is put on them.
#[derive(Debug, Drop)]
pub struct Tables {
    counted: Counted,
    laid: usize,
}

impl Model for Tables {
    ghost use Rattle.jh_tables.specs.Standing.{TablesValue};

    ghost Value = { TablesValue };

    ghost use Rattle.jh_tables.specs.TablesInside.{view_tables, IsWhole};

    ghost view = { view_tables };

    ghost invariant = { IsWhole };
}

impl Tables {
    /// Tables of these cells, on which no fault is put: the link from a to b of n nodes at a * n +
    /// b, and each node at its place. All the memory that they will need is taken here.
    pub fn start(alloc: Global, links: &[Link], nodes: &[NodeCell]) -> Result<Tables, AllocError>
        requires few { length nodes.now ≤ max_nodes }
        requires square { length links.now ≡ length nodes.now * length nodes.now }
        requires starting { All IsStartingLink links.now × All IsStartingNode nodes.now }
        ensures stands { IfOk result (λ tables. StandsAt tables []) }
        ensures start { IfOk result
            (λ tables. tables.start ≡ record { links = links.now; nodes = nodes.now }) }
        ensures whole { IfOk result (λ tables. length tables.cells.nodes ≡ length nodes.now) }
        ensures work { IfOk result (λ tables. tables.tallies.work ≡ 0) }
    {
        Ok(Tables {
            counted: Counted::new(alloc, links, nodes)?,
            laid: 0,
        })
    }

    /// The same tables.
    pub fn copy(&self, alloc: Global) -> Result<Tables, AllocError>
        ensures { IfOk result (λ copy. copy ≡ self.now) }
    {
        Ok(Tables {
            counted: self.counted.copy(alloc)?,
            laid: self.laid,
        })
    }

    /// How many nodes there are, at most `MAX_NODES`.
    pub fn count(&self) -> usize
        ensures count { result ≡ length self.now.start.nodes }
        ensures few { result ≤ max_nodes }
    {
        self.counted.count()
    }

    /// The link from one node to another now, where both are nodes of the tables and differ.
    pub fn link(&self, from: Node, to: Node) -> Option<Link>
        ensures link { result ≡ link_at self.now.cells from to }
        ensures within { IfSome result IsLinkInRange }
    {
        let count = self.counted.count();
        if from.place() as usize >= count || to.place() as usize >= count || from == to {
            return None;
        }
        let tally = self
            .counted
            .link(from.place() as usize * count + to.place() as usize);
        Some(link_now(tally, latest_fix(&self.counted, from, to)))
    }

    /// A node's cell now, where the tables have the node.
    pub fn node(&self, node: Node) -> Option<NodeCell>
        ensures node { result ≡ node_at self.now.cells node }
        ensures within { IfSome result IsNodeInRange }
    {
        let place = node.place() as usize;
        if place < self.counted.count() {
            Some(node_now(self.counted.node(place)))
        } else {
            None
        }
    }

    /// Puts a fault on the cells, at the place of its stamp among those that are put. It takes no
    /// memory. At most one count or sum is written for each link or node that the fault names, and
    /// one entry for a fix.
    pub fn put(&mut self, fault: &PlainFault, stamp: u32)
        requires fits { FitsCount (length self.old.start.nodes) (fault_of fault.now) }
        requires right { IsFault (fault_of fault.now) }
        requires room { self.old.laid < max_laid }
        ensures stands { IsPut (stamp, fault_of fault.now) self.old self.new }
        ensures start { self.new.start ≡ self.old.start }
        ensures whole { length self.new.cells.nodes ≡ length self.old.cells.nodes }
        ensures work { self.new.tallies.work
            ≤ self.old.tallies.work + fault_size (fault_of fault.now) }
    {
        change_all(&mut self.counted, Change::Add, fault, stamp);
        self.laid += 1;
    }

    /// Takes a fault off the cells, which was put with this stamp. It takes no memory, and writes
    /// as much as `put`.
    pub fn take(&mut self, fault: &PlainFault, stamp: u32)
        requires { StandsAtSome self.old (stamp, fault_of fault.now) }
        ensures stands { IsTaken (stamp, fault_of fault.now) self.old self.new }
        ensures start { self.new.start ≡ self.old.start }
        ensures whole { length self.new.cells.nodes ≡ length self.old.cells.nodes }
        ensures work { self.new.tallies.work
            ≤ self.old.tallies.work + fault_size (fault_of fault.now) }
    {
        change_all(&mut self.counted, Change::Remove, fault, stamp);
        self.laid -= 1;
    }

    /// How many faults are laid, that is, put and not taken off again: at most `MAX_LAID`.
    pub fn laid(&self) -> usize
        ensures { result ≡ self.now.laid }
    {
        self.laid
    }

    /// How often a count or a sum from which a cell is read, or the entry of a fix, was written
    /// since the start, up to 2^64 - 1.
    pub fn work(&self) -> u64
        ensures { result ≡ self.now.tallies.work }
    {
        self.counted.work()
    }
}

/// Changes the tallies of what a fault names, and the entries of fixes.
fn change_all(counted: &mut Counted, change: Change, fault: &PlainFault, stamp: u32)
    requires fits { FitsCount (length counted.old.nodes) (fault_of fault.now) }
    requires few { length counted.old.nodes ≤ max_nodes }
    requires right { IsFault (fault_of fault.now) }
    requires room { CanChangeTallies change (fault_of fault.now) counted.old }
    requires entries { CanChangeEntries change stamp
        (fix_value (fault_of fault.now)) counted.old.fixes }
    ensures changed { AreChanged change (fault_of fault.now) counted.old counted.new }
    ensures entries { AreEntriesChanged change stamp
        (fix_value (fault_of fault.now)) counted.old.fixes counted.new.fixes }
    ensures work { counted.new.work ≤ counted.old.work + fault_size (fault_of fault.now) }
{
    change_tallies(counted, change, fault);
    change_entries(counted, change, fault, stamp);
}
