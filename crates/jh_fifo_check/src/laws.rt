//! Laws of the definitions, the clauses of functions that do nothing.

ghost use Rattle.std.specs.Prelude.{◌≡◌, Bool, List, Contains, true};
ghost use Rattle.jh_edn.specs.Edn.{Edn};
ghost use Rattle.jh_ops.specs.Operation.{Operation};
ghost use Rattle.jh_check.specs.Distinct.{is_same};
ghost use Rattle.jh_fifo_check.specs.FifoFindings.{IsFifoFinding, verdict_of_fifo};
ghost use Rattle.jh_fifo_check.specs.FifoHistories.{value_number};
ghost use Rattle.jh_fifo_check.specs.declared.finding.FifoFinding.{FifoFinding};

/// Of some values two have one number exactly where they are equal.
pub fn numbers_tell()
    ensures told { (values : List Edn) (x y : Edn) → Contains values x → Contains values y
        → value_number values x ≡ value_number values y → is_same x y ≡ true }
    ensures alike { (values : List Edn) (x y : Edn) → is_same x y ≡ true
        → value_number values x ≡ value_number values y }
{}

/// All findings of one history say the same of it, whether they are explained or not.
pub fn fifo_verdicts_agree()
    ensures { (explain other : Bool) (history : List Operation) (a b : FifoFinding)
        → IsFifoFinding explain history a → IsFifoFinding other history b
        → verdict_of_fifo a.verdict ≡ verdict_of_fifo b.verdict }
{}
