//! Faults and steps, written and read as bytes.

ghost use Rattle.std.specs.Prelude.{◌≡◌, ℕ, List, [], ◌∷◌, All, Ok, length, map, option_and_then};
ghost use Rattle.jh_edn.specs.Edn.{Edn};
ghost use Rattle.jh_edn.specs.Print.{print};
ghost use Rattle.jh_edn.specs.Printable.{IsPrintable};
ghost use Rattle.jh_edn.specs.Spelling.{depth_limit, SpellsAll};
ghost use Rattle.jh_env.specs.Cells.{Table};
ghost use Rattle.jh_env.specs.Faults.{FaultValue};
ghost use Rattle.jh_step_texts.specs.FaultWritten.{fault_in_order, edn_of_fault};
ghost use Rattle.jh_env.specs.Names.{AreNodeNames};
ghost use Rattle.jh_env.specs.Overlay.{EnvValue, cells_of};
ghost use Rattle.jh_env.specs.TextLaws.{CanStart, AreSameCells};
ghost use Rattle.jh_env.specs.TextWritten.{edn_of_env};
ghost use Rattle.jh_step_texts.specs.FaultText.{IsRingOverAll, fault_spelling};
ghost use Rattle.jh_step_texts.specs.StepText.{fault_of_begin, parsed_step};
ghost use Rattle.jh_step_texts.specs.StepWritten.{edn_of_step};
ghost use Rattle.jh_nemesis.specs.declared.steps.Step.{Step};
ghost use Rattle.jh_laws.specs.Lines.{lines_of, ReadsBack};
ghost use Rattle.jh_laws.specs.StepLines.{AreBytesOf, IsFaultOn, IsStepOver, IsTextOfFault};
ghost use Rattle.jh_laws.specs.StepLines.{step_in_order};

use crate::environments::environment_lines_read_back;
use crate::lines::lines_read_back;
use jh_edn::{print_laws, spelled_once};
use jh_env::environments_read_back;
use jh_step_texts::order_changes_no_fault;

/// What is written of a fault on nodes of good names is a text of that fault, with its links, nodes
/// or bumps in order. What is printed of it spells it alone, so whoever reads these bytes has a
/// text of that fault.
pub fn faults_read_back()
    ensures written { (names : List (List ℕ)) (fault : FaultValue) → AreNodeNames names
        → IsFaultOn (length names) fault
        → IsTextOfFault (edn_of_fault names fault) names (fault_in_order fault) }
    ensures printable { (names : List (List ℕ)) (fault : FaultValue) → AreNodeNames names
        → IsFaultOn (length names) fault → IsPrintable depth_limit (edn_of_fault names fault) }
    ensures spells { (names : List (List ℕ)) (fault : FaultValue) → AreNodeNames names
        → IsFaultOn (length names) fault
        → ReadsBack (edn_of_fault names fault ∷ []) (print (edn_of_fault names fault)) }
    ensures bytes { (names : List (List ℕ)) (fault : FaultValue) (value : Edn) → AreNodeNames names
        → IsFaultOn (length names) fault
        → SpellsAll (value ∷ []) (print (edn_of_fault names fault))
        → IsTextOfFault value names (fault_in_order fault) }
{
    order_changes_no_fault();
    print_laws()
}

/// What is written of a step over nodes of good names is parsed as that step, with its fault in
/// order, and what is printed of it spells it alone. Steps, each printed on a line, are spelled by
/// these lines, and nothing else is: so whoever reads the bytes has values that are parsed as these
/// steps.
pub fn steps_read_back()
    ensures written { (names : List (List ℕ)) (step : Step) → AreNodeNames names
        → IsStepOver (length names) step
        → parsed_step names (edn_of_step names step) ≡ Ok (step_in_order step) }
    ensures printable { (names : List (List ℕ)) (step : Step) → AreNodeNames names
        → IsStepOver (length names) step → IsPrintable depth_limit (edn_of_step names step) }
    ensures spells { (names : List (List ℕ)) (step : Step) → AreNodeNames names
        → IsStepOver (length names) step
        → ReadsBack (edn_of_step names step ∷ []) (print (edn_of_step names step)) }
    ensures lines { (names : List (List ℕ)) (steps : List Step) → AreNodeNames names
        → All (IsStepOver (length names)) steps
        → ReadsBack (map (edn_of_step names) steps) (lines_of (map (edn_of_step names) steps)) }
    ensures bytes { (names : List (List ℕ)) (steps : List Step) (values : List Edn)
        → AreNodeNames names → All (IsStepOver (length names)) steps
        → SpellsAll values (lines_of (map (edn_of_step names) steps))
        → map (parsed_step names) values ≡ map Ok (map step_in_order steps) }
{
    order_changes_no_fault();
    print_laws();
    lines_read_back()
}

/// The line of an environment that can start, and behind it the lines of steps over its nodes, are
/// bytes of that environment and these steps, as `jeprun env` reads them. And bytes are those of
/// one environment and one list of steps at most.
pub fn inputs_read_back()
    ensures written { (env : EnvValue) (steps : List Step) → CanStart env
        → All (IsStepOver (length env.names)) steps
        → AreBytesOf env.names (cells_of env) (map step_in_order steps)
        (lines_of (edn_of_env env ∷ map (edn_of_step env.names) steps)) }
    ensures one { (bytes : List ℕ) (names others : List (List ℕ)) (cells more : Table)
        (steps those : List Step)
        → AreBytesOf names cells steps bytes → AreBytesOf others more those bytes
        → (others ≡ names) × AreSameCells cells more × (those ≡ steps) }
{
    spelled_once();
    environments_read_back();
    environment_lines_read_back();
    lines_read_back();
    steps_read_back()
}

/// A step that is parsed from a value can be written: it is a step over the nodes whose names were
/// given, where a ring that is shuffled by a seed is laid over all of them, as `step_of_value` has
/// it.
pub fn parsed_steps_are_steps()
    ensures { (names : List (List ℕ)) (value : Edn) (step : Step)
        → parsed_step names value ≡ Ok step
        → IsRingOverAll (length names) (option_and_then fault_spelling (fault_of_begin value))
        → IsStepOver (length names) step }
{}
