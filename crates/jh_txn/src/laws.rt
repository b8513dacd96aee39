//! What the definitions imply. Each law is the clause of a function that does nothing, and
//! `specs/Laws.antt` states it.

ghost use Rattle.jh_txn.specs.Laws.{SerialOrdersIncludeAll, SerialOrdersKeepDependencies};
ghost use Rattle.jh_txn.specs.Laws.{SnapshotOrdersIncludeAll, SnapshotOrdersKeepDependencies};
ghost use Rattle.jh_txn.specs.Laws.{BadReadsExcludeSerialOrders, BadReadsExcludeSnapshotOrders};
ghost use Rattle.jh_txn.specs.Laws.{CyclesExcludeSerialOrders};
ghost use Rattle.jh_txn.specs.Laws.{SnapshotCyclesExcludeSnapshotOrders};
ghost use Rattle.jh_txn.specs.Laws.{DependenciesMakeSerialOrders};
ghost use Rattle.jh_txn.specs.Laws.{DependenciesMakeSnapshotOrders};
ghost use Rattle.jh_txn.specs.Laws.{KeptReadsAreExplained, KeptReadsBeginOneAnother};
ghost use Rattle.jh_txn.specs.Laws.{NextDependenciesSuffice, ToldWritersAreApart};

/// What must be there is in every order, and every order keeps each dependency.
pub fn dependencies_order()
    ensures serial_there { SerialOrdersIncludeAll }
    ensures serial { SerialOrdersKeepDependencies }
    ensures snapshot_there { SnapshotOrdersIncludeAll }
    ensures snapshot { SnapshotOrdersKeepDependencies }
{}

/// Where a read is bad there is no order.
pub fn bad_reads_exclude()
    ensures serial { BadReadsExcludeSerialOrders }
    ensures snapshot { BadReadsExcludeSnapshotOrders }
{}

/// Where there is a cycle there is no serial order, and where no two neighbours of it are `:rw`
/// there is no snapshot order.
pub fn cycles_exclude()
    ensures serial { CyclesExcludeSerialOrders }
    ensures snapshot { SnapshotCyclesExcludeSnapshotOrders }
{}

/// Where no read is bad, what keeps each dependency is an order.
pub fn dependencies_suffice()
    ensures serial { DependenciesMakeSerialOrders }
    ensures snapshot { DependenciesMakeSnapshotOrders }
{}

/// Where no read is bad, an order that keeps what some reads say explains these, and each two of
/// them of one key begin one another.
pub fn kept_reads_are_explained()
    ensures explained { KeptReadsAreExplained }
    ensures begin { KeptReadsBeginOneAnother }
{}

/// A linear number of dependencies is enough: an order that keeps these keeps all.
pub fn next_dependencies_suffice()
    ensures { NextDependenciesSuffice }
{}

/// Points that keep each dependency keep those writers apart of which the reads tell the order.
pub fn told_writers_are_apart()
    ensures { ToldWritersAreApart }
{}
