//! When the nemesis takes which step in a run.

ghost use Rattle.std.specs.Prelude.{◌≡◌, ◌<◌, ◌≤◌, ◌++◌, length, IfOk, MatchResult, OnOk};
ghost use Rattle.std.specs.List.{remove_range};
ghost use Rattle.jh_simnode.specs.Limits.{max_entries};

use jh_nemesis::Step;
use std::alloc::{AllocError, Global};
use std::marker::Model;
use thiserror::Error;

/// The most entries of a schedule. `jh_settings` reads no more by this number, also for a test of a
/// real database, whose own limit, `MAX_TEST_ENTRIES` of `jh_test_parts`, is the same.
pub const MAX_ENTRIES: usize = 1_024;

/// A step of the nemesis, and after how many answered client calls it is due. An entry waits for
/// those before it.
#[derive(Debug, Drop)]
pub struct Entry {
    pub at: u32,
    pub step: Step,
}

impl Entry {
    /// The same entry once more.
    pub fn copy(&self, alloc: Global) -> Result<Entry, AllocError>
        ensures { IfOk result (λ copy. copy ≡ self.now) }
    {
        Ok(Entry {
            at: self.at,
            step: self.step.copy(alloc)?,
        })
    }
}

/// Puts copies of entries behind others.
fn push_copies(copies: &mut Vec<Entry>, alloc: Global, entries: &[Entry]) -> Result<(), AllocError>
    ensures { OnOk result (copies.new.items ≡ copies.old.items ++ entries.now) }
{
    for entry in entries {
        copies.push(entry.copy(alloc)?)?;
    }
    Ok(())
}

/// Entries in order, at most 1,024. A contract sees a list.
#[derive(Debug, Drop)]
pub struct Schedule {
    items: Vec<Entry>,
}

impl Model for Schedule {
    ghost use Rattle.std.specs.Prelude.{◌≤◌, List, length};
    ghost use Rattle.jh_simnode.specs.declared.schedule.Entry.{Entry};
    ghost use Rattle.jh_simnode.specs.Limits.{max_entries};

    ghost Value = { List Entry };

    ghost view = { λ a. a.items.items };

    ghost invariant = { λ a. length a.items.items ≤ max_entries };
}

/// There are more entries than a schedule has.
#[derive(Clone, Copy, Debug, PartialEq, Eq, Error)]
#[error("too long")]
pub struct TooLong;

impl Schedule {
    /// The schedule of these entries. Takes no memory.
    ///
    /// Error: there are more than 1,024.
    pub fn of(items: Vec<Entry>) -> Result<Schedule, TooLong>
        ensures { MatchResult result
            (λ schedule. (schedule ≡ items.items) × (length items.items ≤ max_entries))
            (λ _. max_entries < length items.items) }
    {
        if items.len() > MAX_ENTRIES {
            return Err(TooLong);
        }
        Ok(Schedule { items })
    }

    /// Its entries, in order.
    pub fn entries(&self) -> &[Entry]
        ensures entries { result.now ≡ self.now }
        ensures few { length self.now ≤ max_entries }
    {
        &self.items
    }

    /// Its entries. Takes no memory.
    pub fn into_entries(self) -> Vec<Entry>
        ensures entries { result.items ≡ self }
        ensures few { length self ≤ max_entries }
    {
        self.items
    }

    /// The same schedule once more.
    pub fn copy(&self, alloc: Global) -> Result<Schedule, AllocError>
        ensures { IfOk result (λ copy. copy ≡ self.now) }
    {
        self.copy_without(alloc, 0, 0)
    }

    /// A copy without the entries from a place on and below another.
    pub fn copy_without(
        &self,
        alloc: Global,
        from: usize,
        to: usize,
    ) -> Result<Schedule, AllocError>
        requires { (from ≤ to) × (to ≤ length self.now) }
        ensures { IfOk result (λ copy. copy ≡ remove_range self.now from to) }
    {
        let mut kept = Vec::new(alloc);
        push_copies(&mut kept, alloc, &self.items[..from])?;
        push_copies(&mut kept, alloc, &self.items[to..])?;
        Ok(Schedule { items: kept })
    }
}
