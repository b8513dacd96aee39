//! What the graph of points says of a history. Each law is the clause of a function that does nothing,
//! and `specs/Laws.antt` states it.

ghost use Rattle.jh_txn_points.specs.Laws.{ForkGraphsAreSearchable, ForkPathsAreDependencies};
ghost use Rattle.jh_txn_points.specs.Laws.{ForksHaveNoOrder, GraphsAreSearchable};
ghost use Rattle.jh_txn_points.specs.Laws.{OrdersKeepNextDependencies};
ghost use Rattle.jh_txn_points.specs.Laws.{OrdersStartBeforeCommit, PathsAreDependencies};

/// Each path of the graph between two points is a dependency, or leads from a start to its commit.
pub fn paths_are_dependencies()
    ensures { PathsAreDependencies }
{}

/// An order of the nodes that keeps the paths keeps the next dependencies, and has each start before
/// its commit.
pub fn orders_keep_next_dependencies()
    ensures kept { OrdersKeepNextDependencies }
    ensures paired { OrdersStartBeforeCommit }
{}

/// The graph is one that can be searched.
pub fn graphs_are_searchable()
    ensures { GraphsAreSearchable }
{}

/// Each path of the graph of two reads that fork is a dependency, or leads from a start to its commit.
pub fn fork_paths_are_dependencies()
    ensures { ForkPathsAreDependencies }
{}

/// No order of its nodes keeps its paths, so that a search of it finds a cycle.
pub fn forks_have_no_order()
    ensures { ForksHaveNoOrder }
{}

/// It is a graph that can be searched.
pub fn fork_graphs_are_searchable()
    ensures { ForkGraphsAreSearchable }
{}
