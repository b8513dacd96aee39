//! How threads call a world, and count the calls that it accepted.

ghost use Rattle.std.specs.Prelude.{◌≡◌, ℕ, ◌+◌, ◌<◌, List, IfOk, IfSome, OnOk, OnErr};
ghost use Rattle.jh_simnode.specs.Limits.{max_events};
ghost use Rattle.jh_simnode.specs.declared.events.Event.{Event};

use jh_env::Node;
use jh_nemesis::{Step, StepAnswer};
use jh_ops::Request;
use jh_simnode::{Event, Reply, WorldError};
use std::alloc::{AllocError, Global};
use std::sync::Wait;

/// A thread's own count of the calls of a port that were accepted.
pub trait Count {
    /// The count.
    ghost total: { Self → ℕ };

    /// How many calls were accepted.
    fn count(&self) -> u64
        ensures { result ≡ total self.now };
}

/// A world that several threads call. Each thread has a share of it: a count that an accepted call
/// raises by one, and a refused call leaves as it is. All calls may wait.
pub trait Port {
    /// A thread's own count.
    type Share: Count;

    /// Which journals the port may show.
    ghost shows: { Self → List Event → Type 0 };

    /// A share for one thread, whose count is 0, or `None` where no part is left to split off.
    fn share<R: Wait>(&self, rt: &R) -> Option<Self::Share>
        ensures { IfSome result (λ mine. Self.Share.total mine ≡ 0) };

    /// A client's call of a node, as of `World::call`.
    fn call<R: Wait>(
        &self,
        rt: &R,
        mine: &mut Self::Share,
        process: u64,
        node: Node,
        request: Request,
        draw: u64,
    ) -> Result<(u64, Reply), WorldError>
        ensures accepted { OnOk result (Self.Share.total mine.new ≡ Self.Share.total mine.old + 1) }
        ensures refused { OnErr result (Self.Share.total mine.new ≡ Self.Share.total mine.old) }
        ensures numbered { IfOk result (λ given. given.0 < max_events) };

    /// A step of the nemesis, as of `World::step`.
    fn step<R: Wait>(
        &self,
        rt: &R,
        mine: &mut Self::Share,
        step: Step,
    ) -> Result<(u64, StepAnswer), WorldError>
        ensures accepted { OnOk result (Self.Share.total mine.new ≡ Self.Share.total mine.old + 1) }
        ensures refused { OnErr result (Self.Share.total mine.new ≡ Self.Share.total mine.old) }
        ensures numbered { IfOk result (λ given. given.0 < max_events) };

    /// A tick, as of `World::tick`.
    fn tick<R: Wait>(&self, rt: &R, mine: &mut Self::Share) -> Result<u64, WorldError>
        ensures accepted { OnOk result (Self.Share.total mine.new ≡ Self.Share.total mine.old + 1) }
        ensures refused { OnErr result (Self.Share.total mine.new ≡ Self.Share.total mine.old) };

    /// A copy of the journal.
    fn events<R: Wait>(&self, rt: &R, alloc: Global) -> Result<Vec<Event>, AllocError>
        ensures { IfOk result (λ journal. shows self.now journal.items) };
}
