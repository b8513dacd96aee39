//! Laws of the definitions, the clauses of a function that does nothing else than to cite those of
//! one history.

ghost use Rattle.std.specs.Prelude.{◌≡◌, ◌≢◌, IsTrue, List};
ghost use Rattle.jh_edn.specs.Edn.{Edn};
ghost use Rattle.jh_check.specs.declared.verdict.Verdict.TheVariants as verdict;
ghost use Rattle.jh_checkers.specs.Findings.{finding_verdict, has_one_line, stuck_point_of};
ghost use Rattle.jh_checkers.specs.declared.checker.Checker.TheVariants as checker;
ghost use Rattle.jh_checkers.specs.declared.finding.Finding.{Finding};
ghost use Rattle.jh_independent.specs.Lines.{keys_line};
ghost use Rattle.jh_independent.specs.Refusals.{KeysQuestion, AreFindings, IsFindingOf};
ghost use Rattle.jh_independent.specs.declared.serial.KeyFinding.{KeyFinding};

use jh_checkers::findings_agree;

/// Whatever judges the keys of a history, and on however many threads: for checkers other than those of
/// a register, a mutex, a first-in-first-out queue and transactions the line is the same, and no key of a
/// register, a mutex or a first-in-first-out queue is valid once and not valid another time. One of a
/// register or a mutex that is not valid is stuck at one completion, where the same operations are
/// pending. Of transactions it says nothing but that no finding has a place where it is stuck.
pub fn key_findings_agree()
    ensures line { (asked : KeysQuestion) (a b : List KeyFinding)
        → IsTrue (has_one_line asked.judging.checker)
        → AreFindings asked a → AreFindings asked b → keys_line a ≡ keys_line b }
    ensures verdict { (asked : KeysQuestion) (key : Edn) (a b : Finding)
        → asked.judging.checker ≢ checker.ListAppend → IsFindingOf asked key a
        → IsFindingOf asked key b → finding_verdict a ≡ verdict.True → finding_verdict b ≡ verdict.False
        → ⊥ }
    ensures stuck { (asked : KeysQuestion) (key : Edn) (a b : Finding) → IsFindingOf asked key a
        → IsFindingOf asked key b → finding_verdict a ≡ verdict.False → finding_verdict b ≡ verdict.False
        → stuck_point_of a ≡ stuck_point_of b }
{
    findings_agree()
}
