//! Kinds of cycles, by the steps that they may have. They are looked for in the order of the names that
//! they get (Adya, "Weak consistency", 1999, has the first three): G0, G1c, G-single, G-nonadjacent,
//! lost updates, G2-item, and then the same with real time.

use jh_txn::{Step, Why};

/// How many kinds of cycles there are.
pub(crate) const KINDS: usize = 12;

/// How many `:rw` a cycle may have.
#[derive(Clone, Copy, PartialEq, Eq)]
pub(crate) enum AntiDependencies {
    /// None.
    Without,
    /// One.
    One,
    /// Any number, of which no two are neighbours.
    Apart,
    /// Any number.
    Any,
}

/// Which steps a cycle may have, beside `:ww`.
#[derive(Clone, Copy)]
pub(crate) struct Choice {
    /// Whether it may have `:wr`.
    pub reads: bool,
    /// How many `:rw` it may have.
    pub anti: AntiDependencies,
    /// Whether it may have `:fcw`.
    pub first_committer: bool,
    /// Whether it may have `:rt`.
    pub real_time: bool,
}

/// Which nodes of a graph are no hubs, and which steps between them are no dependencies.
#[derive(Clone, Copy)]
pub(crate) struct GraphShape {
    /// The nodes below this number are no hubs.
    pub count: usize,
    /// A step from a node to the one with a number higher by this is no dependency, and in cycles of each
    /// kind; where this is 0 there are no such steps.
    pub joint: usize,
}

/// The kind at a place, from 0.
pub(crate) fn choice_at(place: usize) -> Choice {
    let (reads, anti, first_committer) = match place % 6 {
        0 => (false, AntiDependencies::Without, false),
        1 => (true, AntiDependencies::Without, false),
        2 => (true, AntiDependencies::One, false),
        3 => (true, AntiDependencies::Apart, false),
        4 => (true, AntiDependencies::Apart, true),
        _ => (true, AntiDependencies::Any, true),
    };
    Choice {
        reads,
        anti,
        first_committer,
        real_time: place >= 6,
    }
}

/// Whether a step that leads to a node is in cycles of a kind. What leads to a hub is: what leads out of it
/// decides.
pub(crate) fn allows(choice: Choice, shape: GraphShape, step: &Step, node: usize) -> bool {
    if node >= shape.count || is_joint(shape, step, node) {
        return true;
    }
    match step.why {
        Why::WriteWrite { .. } => true,
        Why::WriteRead { .. } => choice.reads,
        Why::FirstCommitter { .. } => choice.first_committer,
        Why::ReadWrite { .. } => choice.anti != AntiDependencies::Without,
        Why::RealTime => choice.real_time,
    }
}

/// Whether a step that leads to a node is no dependency.
fn is_joint(shape: GraphShape, step: &Step, node: usize) -> bool {
    shape.joint > 0 && node >= shape.joint && node - shape.joint == step.place
}

/// Whether a step is `:rw`.
pub(crate) fn is_anti(step: &Step) -> bool {
    matches!(step.why, Why::ReadWrite { .. })
}
