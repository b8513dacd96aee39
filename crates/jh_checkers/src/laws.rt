//! Laws of the definitions, the clauses of a function that does nothing.

ghost use Rattle.std.specs.Prelude.{◌≡◌, ◌≢◌, IsTrue, List};
ghost use Rattle.jh_ops.specs.Operation.{Operation};
ghost use Rattle.jh_check.specs.declared.verdict.Verdict.TheVariants as verdict;
ghost use Rattle.jh_checkers.specs.Findings.{IsFinding, finding_verdict, has_one_finding};
ghost use Rattle.jh_checkers.specs.Findings.{has_one_line, stuck_point_of};
ghost use Rattle.jh_checkers.specs.Lines.{finding_value};
ghost use Rattle.jh_checkers.specs.declared.checker.Checker.TheVariants as checker;
ghost use Rattle.jh_checkers.specs.declared.finding.Finding.{Finding};
ghost use Rattle.jh_checkers.specs.declared.finding.Judging.{Judging};

/// Whatever judges a history: checkers other than those of a register, a mutex, a first-in-first-out queue
/// and transactions write one line, and no history of a register, a mutex or a first-in-first-out queue is valid once and not valid
/// another time. One of a register or a mutex that is not valid is stuck at one completion, where the same
/// operations are pending. Of transactions it
/// says nothing but that no finding has a place where it is stuck.
///
/// The finding of a queue or a bank shows operations of the history. Two of them may hold the same text
/// at other places of the memory, so of these no more than the line is said.
pub fn findings_agree()
    ensures one { (judging : Judging) (history : List Operation) (a b : Finding)
        → IsTrue (has_one_finding judging.checker)
        → IsFinding judging history a → IsFinding judging history b → a ≡ b }
    ensures line { (judging : Judging) (history : List Operation) (a b : Finding)
        → IsTrue (has_one_line judging.checker)
        → IsFinding judging history a → IsFinding judging history b
        → finding_value a ≡ finding_value b }
    ensures line_verdict { (judging : Judging) (history : List Operation) (a b : Finding)
        → IsTrue (has_one_line judging.checker)
        → IsFinding judging history a → IsFinding judging history b
        → finding_verdict a ≡ finding_verdict b }
    ensures verdict { (judging : Judging) (history : List Operation) (a b : Finding)
        → judging.checker ≢ checker.ListAppend → IsFinding judging history a → IsFinding judging history b
        → finding_verdict a ≡ verdict.True → finding_verdict b ≡ verdict.False → ⊥ }
    ensures stuck { (judging : Judging) (history : List Operation) (a b : Finding)
        → IsFinding judging history a → IsFinding judging history b
        → finding_verdict a ≡ verdict.False → finding_verdict b ≡ verdict.False
        → stuck_point_of a ≡ stuck_point_of b }
{}
