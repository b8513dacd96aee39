//! What a history is judged by. `specs/Models.antt` says which orders each model asks for.

/// A consistency model of transactions, by the order that a history has to have.
#[derive(Clone, Copy, Debug, PartialEq, Eq)]
pub enum ConsistencyModel {
    /// A serial order.
    Serializable,
    /// A serial order that keeps real time.
    StrictSerializable,
    /// A snapshot order.
    SnapshotIsolation,
    /// A snapshot order that keeps real time.
    StrongSnapshotIsolation,
}
