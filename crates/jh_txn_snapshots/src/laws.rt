//! What the definitions imply. Each law is the clause of a function that does nothing, and
//! `specs/Laws.antt` states it.

ghost use Rattle.jh_txn_snapshots.specs.Laws.{NextPointsAreDependencies};
ghost use Rattle.jh_txn_snapshots.specs.Laws.{NextPointsSuffice, NextPointsMakeSnapshotOrders};
ghost use Rattle.jh_txn_snapshots.specs.Laws.{SerialOrdersAreSnapshotOrders};
ghost use Rattle.jh_txn_snapshots.specs.Laws.{UntoldAtOnceAreApart, UntoldInTurnAreApart};
ghost use Rattle.jh_txn_snapshots.specs.Laws.{PointCyclesAreSnapshotCycles};
ghost use Rattle.jh_txn_snapshots.specs.Laws.{OverlapsExcludeSnapshotOrders};
ghost use Rattle.jh_txn_snapshots.specs.Laws.{ReadsSayDependencies};
ghost use Rattle.jh_txn_snapshots.specs.Laws.{ReadPointsAreExplained, ReadPointsBeginOneAnother};

/// Each next dependency is a dependency.
pub fn next_points_are_dependencies()
    ensures { NextPointsAreDependencies }
{}

/// A linear number of dependencies is enough: points that keep these keep all, and are a snapshot
/// order where no two writers of a key overlap of which no read tells the order.
pub fn next_points_suffice()
    ensures kept { NextPointsSuffice }
    ensures snapshot { NextPointsMakeSnapshotOrders }
{}

/// A serial order is a snapshot order, where each transaction starts and commits at once.
pub fn serial_orders_are_snapshot_orders()
    ensures { SerialOrdersAreSnapshotOrders }
{}

/// Writers of a key of which no read tells the order do not overlap where each commits just behind
/// its start, nor where they stand in a list, each over before the next one starts.
pub fn untold_writers_are_apart()
    ensures at_once { UntoldAtOnceAreApart }
    ensures in_turn { UntoldInTurnAreApart }
{}

/// Of a cycle of points the dependencies are a cycle that excludes snapshot orders.
pub fn point_cycles_are_cycles()
    ensures { PointCyclesAreSnapshotCycles }
{}

/// Where two writers of a key have to overlap there is no snapshot order.
pub fn overlaps_exclude()
    ensures { OverlapsExcludeSnapshotOrders }
{}

/// Each dependency that a read says by itself is one.
pub fn reads_say_dependencies()
    ensures { ReadsSayDependencies }
{}

/// Where no read is bad, points that keep what some reads say explain these, and each two of them
/// of one key begin one another.
pub fn kept_points_explain_reads()
    ensures explained { ReadPointsAreExplained }
    ensures begin { ReadPointsBeginOneAnother }
{}
