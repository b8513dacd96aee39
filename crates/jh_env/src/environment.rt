//! An environment: names, and the tables of their cells. `specs/Overlay.antt` says which faults it
//! stands for.

ghost use Rattle.std.specs.Prelude.{◌≡◌, ◌<◌, ◌≤◌, ◌+◌, [], length, IfOk, IfSome};
ghost use Rattle.jh_tables.specs.Standing.{IsLinkInRange, IsNodeInRange, IsPut, IsTaken};
ghost use Rattle.jh_tables.specs.Limits.{max_laid};
ghost use Rattle.jh_tables.specs.Standing.{StandsAtSome};
ghost use Rattle.jh_env.specs.Names.{AreFew, AreNodeNames};
ghost use Rattle.jh_env.specs.Overlay.{StandsFor, StandsWith, KeepsStart, cells_of, link_of};
ghost use Rattle.jh_env.specs.Overlay.{node_of, tables_of, work_of};
ghost use Rattle.jh_env.specs.Faults.{FitsCount, fault_size};

use crate::faults::{Fault, MAX_BUMPED_MS, MAX_SLOWED_MS};
use crate::names::Nodes;
use crate::starting::{MAX_START_DELAY_MS, MAX_START_OFFSET_MS, Start};
use jh_tables::{Link, Node, NodeCell, Tables};
use std::alloc::{AllocError, Global};
use std::marker::Model;

/// The most faults that can be laid at once: put and not taken off again.
pub const MAX_LAID: usize = jh_tables::MAX_LAID;

/// The most milliseconds by which a message can be late: `MAX_START_DELAY_MS` at the start, or as
/// many by a fix, and a further `MAX_SLOWED_MS` for each of `MAX_LAID` faults.
pub const MAX_DELAY_MS: u64 = MAX_START_DELAY_MS + MAX_LAID as u64 * MAX_SLOWED_MS;

/// The most milliseconds by which a clock can be off, either way: `MAX_START_OFFSET_MS` at the
/// start and a further `MAX_BUMPED_MS` for each of `MAX_LAID` faults.
pub const MAX_OFFSET_MS: u64 = MAX_START_OFFSET_MS as u64 + MAX_LAID as u64 * MAX_BUMPED_MS as u64;

/// An environment: the cells of its links and nodes, and the faults that change them. A contract sees
/// the names, the starting cells, the cells now, what is kept of the faults, and how many are laid.
#[derive(Debug, Drop)]
pub struct Env {
    names: Nodes,
    tables: Tables,
}

impl Model for Env {
    ghost use Rattle.jh_env.specs.Overlay.{EnvValue};

    ghost Value = { EnvValue };

    ghost use Rattle.jh_env.specs.EnvInside.{view_env, IsWholeEnv};

    ghost view = { view_env };

    ghost invariant = { IsWholeEnv };
}

impl Env {
    /// An environment at its start. All the memory that it will need is taken here.
    pub fn start(alloc: Global, start: Start) -> Result<Env, AllocError>
        ensures stands { IfOk result (λ env. StandsWith env [] × StandsFor env []) }
        ensures start { IfOk result (λ env. (env.names ≡ start.names) × (env.start ≡ start.cells)) }
        ensures work { IfOk result (λ env. work_of env ≡ 0) }
    {
        let Start {
            names,
            link_cells,
            node_cells,
        } = start;
        let tables = Tables::start(alloc, &link_cells, &node_cells)?;
        Ok(Env { names, tables })
    }

    /// An environment with the same names, start, cells and faults, and with the same count of what
    /// was written. Takes time and memory for every cell.
    pub fn copy(&self, alloc: Global) -> Result<Env, AllocError>
        ensures { IfOk result (λ copy. copy ≡ self.now) }
    {
        Ok(Env {
            names: self.names.copy()?,
            tables: self.tables.copy(alloc)?,
        })
    }

    /// The nodes, with their names.
    pub fn nodes(&self) -> &Nodes
        ensures names { result.now ≡ self.now.names }
        ensures named { AreFew self.now.names × AreNodeNames self.now.names }
        ensures whole { length (cells_of self.now).nodes ≡ length self.now.names }
    {
        &self.names
    }

    /// The link from one node to another, where both are nodes of the environment and differ. Takes
    /// time linear in the fixes that are laid, at most `MAX_LAID`.
    pub fn link(&self, from: Node, to: Node) -> Option<Link>
        ensures link { result ≡ link_of self.now from to }
        ensures within { IfSome result IsLinkInRange }
    {
        self.tables.link(from, to)
    }

    /// A node's cell, where the node is one of the environment.
    pub fn node(&self, node: Node) -> Option<NodeCell>
        ensures node { result ≡ node_of self.now node }
        ensures within { IfSome result IsNodeInRange }
    {
        self.tables.node(node)
    }

    /// How many faults are laid, that is, put and not taken off again: at most `MAX_LAID`.
    pub fn laid(&self) -> usize
        ensures { result ≡ self.now.laid }
    {
        self.tables.laid()
    }

    /// How often a count, a sum or the entry of a fix was written since the start, up to 2^64 - 1.
    pub fn work(&self) -> u64
        ensures { result ≡ work_of self.now }
    {
        self.tables.work()
    }

    /// Puts a fault on the cells, at the place of its stamp among those that stand; none of them
    /// has that stamp. It takes no memory. At most one count or sum is written for each link or
    /// node that the fault names, and one entry for a fix.
    pub fn put(&mut self, fault: &Fault, stamp: u32)
        requires fits { FitsCount (length self.old.names) fault.now }
        requires room { self.old.laid < max_laid }
        ensures stands { IsPut (stamp, fault.now) (tables_of self.old) (tables_of self.new) }
        ensures kept { KeepsStart self.old self.new }
        ensures work { work_of self.new ≤ work_of self.old + fault_size fault.now }
    {
        self.tables.put(&fault.fault, stamp);
    }

    /// Takes a fault off the cells, which was put with this stamp. It takes no memory, and writes
    /// as much as `put`.
    pub fn take(&mut self, fault: &Fault, stamp: u32)
        requires { StandsAtSome (tables_of self.old) (stamp, fault.now) }
        ensures stands { IsTaken (stamp, fault.now) (tables_of self.old) (tables_of self.new) }
        ensures kept { KeepsStart self.old self.new }
        ensures work { work_of self.new ≤ work_of self.old + fault_size fault.now }
    {
        self.tables.take(&fault.fault, stamp);
    }
}
