//! Why a register whose values are written once each has no order. Each law is a function that does
//! nothing, and whose contract is the law.

ghost use Rattle.std.specs.Prelude.{◌≡◌, ◌≢◌, ℕ, ℤ, List, Option, true};
ghost use Rattle.jh_linear.specs.declared.register.RegOp.{RegOp};
ghost use Rattle.jh_linear.specs.Order.{IsOrder, Precedes, StandBefore, has};
ghost use Rattle.jh_unique.specs.declared.verdict.UniqueReason.{UniqueReason};
ghost use Rattle.jh_unique.specs.Judged.{IsUniqueReason};
ghost use Rattle.jh_unique.specs.Reasons.{AreCrossedClusters, AreFromOne, HandsOnBy, HasNoOrigin};
ghost use Rattle.jh_unique.specs.Unique.{IsOfCluster, MustStand, WriteOnce};

/// In every order all that must stand is there. The operations of a cluster stand together, in the
/// order in which they hand on, and those of the initial value stand first.
pub fn clusters_stand_together()
    ensures there { (ops : List RegOp) (initial : Option ℤ) (order : List ℕ) (number : ℕ)
        → WriteOnce ops initial → IsOrder ops initial order → MustStand ops number
        → has order number ≡ true }
    ensures in_turn { (ops : List RegOp) (initial : Option ℤ) (order : List ℕ) (first : ℕ)
        (between : List ℕ) (second : ℕ) → WriteOnce ops initial → IsOrder ops initial order
        → HandsOnBy ops first between second → StandBefore order first second }
    ensures apart { (ops : List RegOp) (initial : Option ℤ) (order : List ℕ)
        (cluster other first between last : ℕ) → WriteOnce ops initial
        → IsOrder ops initial order → other ≢ cluster → IsOfCluster ops initial cluster first
        → IsOfCluster ops initial other between → IsOfCluster ops initial cluster last
        → StandBefore order first between → StandBefore order between last → ⊥ }
    ensures start { (ops : List RegOp) (initial : Option ℤ) (order : List ℕ)
        (other early late : ℕ) → WriteOnce ops initial → IsOrder ops initial order → other ≢ 0
        → IsOfCluster ops initial other early → IsOfCluster ops initial 0 late
        → StandBefore order early late → ⊥ }
{}

/// Each reason excludes every order: a value without an origin, two compare-and-sets from one value,
/// operations that hand on in a ring, or back in time, and two clusters that are crossed; and so
/// does whatever the judge names.
pub fn reasons_exclude()
    ensures nowhere { (ops : List RegOp) (initial : Option ℤ) (order : List ℕ) (number : ℕ)
        (value : ℤ) → WriteOnce ops initial → IsOrder ops initial order
        → HasNoOrigin ops initial number value → ⊥ }
    ensures from_one { (ops : List RegOp) (initial : Option ℤ) (order : List ℕ)
        (first second : ℕ) (value : ℤ) → WriteOnce ops initial → IsOrder ops initial order
        → AreFromOne ops first second value → ⊥ }
    ensures ring { (ops : List RegOp) (initial : Option ℤ) (order : List ℕ) (number : ℕ)
        (between : List ℕ) → WriteOnce ops initial → IsOrder ops initial order
        → HandsOnBy ops number between number → ⊥ }
    ensures late { (ops : List RegOp) (initial : Option ℤ) (order : List ℕ) (first : ℕ)
        (between : List ℕ) (second : ℕ) → WriteOnce ops initial → IsOrder ops initial order
        → HandsOnBy ops first between second → Precedes ops second first → ⊥ }
    ensures crossed { (ops : List RegOp) (initial : Option ℤ) (order : List ℕ)
        (first second : ℕ) → WriteOnce ops initial → IsOrder ops initial order
        → AreCrossedClusters ops initial first second → ⊥ }
    ensures named { (ops : List RegOp) (initial : Option ℤ) (order : List ℕ)
        (reason : UniqueReason) → WriteOnce ops initial → IsOrder ops initial order
        → IsUniqueReason ops initial reason → ⊥ }
{}
