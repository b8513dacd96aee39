//! Laws of the definitions, the clauses of functions that do nothing.

ghost use Rattle.std.specs.Prelude.{◌≡◌, ◌<◌, ◌⊎◌, ℕ, List, [], true};
ghost use Rattle.jh_fifo.specs.declared.operations.FifoCall.TheVariants.{Empty};
ghost use Rattle.jh_fifo.specs.declared.operations.FifoOp.{FifoOp};
ghost use Rattle.jh_fifo.specs.Order.{IsFifoOrder, PlaceStandsBefore, has_place};
ghost use Rattle.jh_fifo.specs.Reasons.{AreCrossed, AreOfOne, ComesFromNowhere, ComesTooSoon, Dequeues, DequeuesAreDone, EndsTooSoon, EnqueuedOnce, Enqueues, GoesBefore, IsNeverEmpty, WasThere, call_at};

/// In each order a value is enqueued before it is dequeued, values are dequeued in the order in
/// which they were enqueued, and before the queue is found empty all is dequeued that was
/// enqueued.
pub fn runs_take_in_turn()
    ensures first_in { (ops : List FifoOp) (order : List ℕ) (value dequeue : ℕ)
        → IsFifoOrder ops order → Dequeues ops value dequeue → has_place order dequeue ≡ true
        → (enqueue : ℕ) × Enqueues ops value enqueue × PlaceStandsBefore order enqueue dequeue }
    ensures first_out { (ops : List FifoOp) (order : List ℕ) (one other first second : ℕ)
        → EnqueuedOnce ops → IsFifoOrder ops order → Enqueues ops one first
        → Enqueues ops other second → PlaceStandsBefore order first second → (dequeue : ℕ)
        → Dequeues ops other dequeue → has_place order dequeue ≡ true
        → (before : ℕ) × Dequeues ops one before × PlaceStandsBefore order before dequeue }
    ensures emptied { (ops : List FifoOp) (order : List ℕ) (value enqueue place : ℕ)
        → IsFifoOrder ops order → Enqueues ops value enqueue → call_at ops place ≡ Empty
        → PlaceStandsBefore order enqueue place
        → (dequeue : ℕ) × Dequeues ops value dequeue × PlaceStandsBefore order dequeue place }
{}

/// What goes before another value is enqueued before it in each order.
pub fn goes_before()
    ensures { (ops : List FifoOp) (order : List ℕ) (one other first second : ℕ)
        → EnqueuedOnce ops → DequeuesAreDone ops → IsFifoOrder ops order → WasThere ops one
        → WasThere ops other → GoesBefore ops one other → Enqueues ops one first
        → Enqueues ops other second → PlaceStandsBefore order first second }
{}

/// Each reason excludes every order.
pub fn reasons_exclude()
    ensures backwards { (ops : List FifoOp) (order : List ℕ) (place : ℕ) → IsFifoOrder ops order
        → EndsTooSoon ops place → ⊥ }
    ensures nowhere { (ops : List FifoOp) (order : List ℕ) (place : ℕ) → DequeuesAreDone ops
        → IsFifoOrder ops order → ComesFromNowhere ops place → ⊥ }
    ensures twice { (ops : List FifoOp) (order : List ℕ) (first second : ℕ) → EnqueuedOnce ops
        → DequeuesAreDone ops → IsFifoOrder ops order → AreOfOne ops first second → ⊥ }
    ensures early { (ops : List FifoOp) (order : List ℕ) (dequeue enqueue : ℕ)
        → EnqueuedOnce ops → DequeuesAreDone ops → IsFifoOrder ops order
        → ComesTooSoon ops dequeue enqueue → ⊥ }
    ensures crossed { (ops : List FifoOp) (order : List ℕ) (first second : ℕ)
        → EnqueuedOnce ops → DequeuesAreDone ops → IsFifoOrder ops order
        → AreCrossed ops first second → ⊥ }
    ensures never_empty { (ops : List FifoOp) (order : List ℕ) (place : ℕ) → EnqueuedOnce ops
        → DequeuesAreDone ops → IsFifoOrder ops order → IsNeverEmpty ops place → ⊥ }
{}
