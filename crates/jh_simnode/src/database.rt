//! How the nodes of a world keep a database. A new store is a case here, a name in
//! `specs/StoreNames.antt`, and a case of the rules in `specs/Stores.antt`.

ghost use Rattle.std.specs.Prelude.{◌≡◌};
ghost use Rattle.jh_simnode.specs.StoreNames.{all_stores, store_name, store_named};

use jh_ops::Workload;

/// How the nodes keep their replicas together.
#[derive(Clone, Copy, Debug, PartialEq, Eq)]
pub enum Store {
    /// A request is done by more than half of the nodes, or not at all.
    Quorum,
    /// The last writer wins: each node answers from its own replica, and keeps the replica with the
    /// greatest stamp that it met.
    Lww,
    /// Each node has a replica of its own, of which no other node learns.
    Local,
}

/// All stores.
static STORES: [Store; 3] = [Store::Quorum, Store::Lww, Store::Local];

/// All stores, in the order of the enum.
fn stores() -> &'static [Store]
    ensures { result.now ≡ all_stores }
{
    STORES.as_slice()
}

impl Store {
    /// The name by which the store is chosen.
    pub fn name(self) -> &'static str
        ensures { result.now ≡ store_name self }
    {
        match self {
            Store::Quorum => "quorum",
            Store::Lww => "lww",
            Store::Local => "local",
        }
    }

    /// The store of this name: `quorum`, `lww` or `local`.
    pub fn named(name: &str) -> Option<Store>
        ensures { result ≡ store_named name.now }
    {
        stores().iter().copied().find(|store| name == store.name())
    }
}

/// The database of a world, which it keeps for good beside its starting environment.
#[derive(Clone, Copy, Debug, PartialEq, Eq)]
pub struct Database {
    pub store: Store,
    /// Whether a node that is killed loses its replica.
    pub volatile: bool,
    pub workload: Workload,
    /// What a register holds at first. It matters to no other workload.
    pub initial: Option<i64>,
}
