//! What nodes keep of the database, and what they answer. `specs/Replicas.antt` has the rules of
//! recency and of first replicas.

ghost use Rattle.std.specs.Prelude.{◌≡◌, List, [], IfOk, replicate};
ghost use Rattle.jh_simnode.specs.Replicas.{first_contents, first_replica, is_lower, version};
ghost use Rattle.jh_simnode.specs.Replicas.{got_of};

use crate::database::Database;
use jh_ops::Workload;
use std::alloc::{AllocError, Global};
use std::marker::Model;

/// Numbers in order. A contract sees a list. Those of a set ascend.
#[derive(Debug, Drop)]
pub struct Numbers {
    pub(crate) items: Vec<i64>,
}

impl Model for Numbers {
    ghost use Rattle.std.specs.Prelude.{List, ℤ};

    ghost Value = { List ℤ };

    ghost view = { λ a. a.items.items };
}

/// What a replica holds: one value, none at all, or the elements of a set.
#[derive(Debug, Drop)]
pub enum Contents {
    One(Option<i64>),
    Many(Numbers),
}

/// What a request got: nothing, one value if there is one, or all elements of a set in ascending
/// order.
#[derive(Debug, Drop)]
pub enum Got {
    Nothing,
    One(Option<i64>),
    Many(Numbers),
}

/// A node's reply to a request.
#[derive(Debug, Drop)]
pub enum Reply {
    /// It was done, and got this.
    Ok(Got),
    /// It was not done.
    Fail,
    /// It may have been done.
    Info,
}

/// How new a replica is.
#[derive(Clone, Copy, Debug, PartialEq, Eq)]
pub enum Recency {
    /// As at first.
    First,
    /// In a store of quorums: one more than the greatest version that the change reached. Where
    /// killed nodes lose their replicas, two changes can have the same one.
    Version(u64),
    /// The time of the last change, which is its event's number plus the milliseconds by which the
    /// clock of its node is ahead, and the place of that node.
    Stamp(i128, u8),
}

/// A node's replica: what it holds of the database, and how new that is.
#[derive(Debug, Drop)]
pub struct Replica {
    pub recency: Recency,
    pub contents: Contents,
}

impl Numbers {
    /// No numbers. Takes no memory.
    pub(crate) fn new(alloc: Global) -> Numbers
        ensures { result ≡ [] }
    {
        Numbers {
            items: Vec::new(alloc),
        }
    }

    /// These numbers. Those of a set have to ascend. Takes no memory.
    pub fn of(items: Vec<i64>) -> Numbers
        ensures { result ≡ items.items }
    {
        Numbers { items }
    }

    /// The numbers in order.
    pub fn as_slice(&self) -> &[i64]
        ensures { result.now ≡ self.now }
    {
        &self.items
    }

    /// The numbers in order, as a list of their own. Takes no memory.
    pub fn into_vec(self) -> Vec<i64>
        ensures { result.items ≡ self }
    {
        self.items
    }

    /// The same numbers once more.
    pub(crate) fn copy(&self, alloc: Global) -> Result<Numbers, AllocError>
        ensures { IfOk result (λ copy. copy ≡ self.now) }
    {
        let mut items = Vec::new(alloc);
        items.extend_from_slice(&self.items)?;
        Ok(Numbers { items })
    }
}

impl Contents {
    /// What a replica holds at first.
    pub(crate) fn first(alloc: Global, database: &Database) -> Contents
        ensures { result ≡ first_contents database.now }
    {
        match database.workload {
            Workload::Register => Contents::One(database.initial),
            Workload::Counter => Contents::One(Some(0)),
            Workload::Set => Contents::Many(Numbers::new(alloc)),
            Workload::Ids => Contents::One(Some(0)),
        }
    }

    /// The same contents once more.
    pub(crate) fn copy(&self, alloc: Global) -> Result<Contents, AllocError>
        ensures { IfOk result (λ copy. copy ≡ self.now) }
    {
        match self {
            Contents::One(value) => Ok(Contents::One(*value)),
            Contents::Many(numbers) => Ok(Contents::Many(numbers.copy(alloc)?)),
        }
    }

    /// What a read of it gets.
    pub(crate) fn got(&self, alloc: Global) -> Result<Got, AllocError>
        ensures { IfOk result (λ got. got ≡ got_of self.now) }
    {
        match self {
            Contents::One(value) => Ok(Got::One(*value)),
            Contents::Many(numbers) => Ok(Got::Many(numbers.copy(alloc)?)),
        }
    }
}

impl Got {
    /// What was got, once more.
    pub(crate) fn copy(&self, alloc: Global) -> Result<Got, AllocError>
        ensures { IfOk result (λ copy. copy ≡ self.now) }
    {
        match self {
            Got::Nothing => Ok(Got::Nothing),
            Got::One(value) => Ok(Got::One(*value)),
            Got::Many(numbers) => Ok(Got::Many(numbers.copy(alloc)?)),
        }
    }
}

impl Reply {
    /// The same reply once more.
    pub(crate) fn copy(&self, alloc: Global) -> Result<Reply, AllocError>
        ensures { IfOk result (λ copy. copy ≡ self.now) }
    {
        match self {
            Reply::Ok(got) => Ok(Reply::Ok(got.copy(alloc)?)),
            Reply::Fail => Ok(Reply::Fail),
            Reply::Info => Ok(Reply::Info),
        }
    }
}

impl Recency {
    /// The version; at first 0.
    pub(crate) fn version(self) -> u64
        ensures { result ≡ version self }
    {
        match self {
            Recency::Version(version) => version,
            _ => 0,
        }
    }

    /// Whether it is the lower of two stamps; no stamp is below each.
    pub(crate) fn is_lower(self, other: Recency) -> bool
        ensures { result ≡ is_lower self other }
    {
        match (self, other) {
            (Recency::First, Recency::Stamp(_, _)) => true,
            (Recency::Stamp(at, place), Recency::Stamp(other_at, other_place)) => {
                at < other_at || at == other_at && place < other_place
            }
            _ => false,
        }
    }
}

impl Replica {
    /// A node's replica at first.
    pub(crate) fn first(alloc: Global, database: &Database) -> Replica
        ensures { result ≡ first_replica database.now }
    {
        Replica {
            recency: Recency::First,
            contents: Contents::first(alloc, database),
        }
    }

    /// The same replica once more.
    pub(crate) fn copy(&self, alloc: Global) -> Result<Replica, AllocError>
        ensures { IfOk result (λ copy. copy ≡ self.now) }
    {
        Ok(Replica {
            recency: self.recency,
            contents: self.contents.copy(alloc)?,
        })
    }
}

/// So many replicas as they are at first.
pub(crate) fn first_replicas(
    alloc: Global,
    database: &Database,
    count: usize,
) -> Result<Vec<Replica>, AllocError>
    ensures { IfOk result (λ all. all.items ≡ replicate count (first_replica database.now)) }
{
    let mut all = Vec::new(alloc);
    for _place in 0..count {
        all.push(Replica::first(alloc, database))?;
    }
    Ok(all)
}
