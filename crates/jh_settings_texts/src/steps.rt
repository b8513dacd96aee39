//! Steps of a schedule, as far as their texts ask something of them.

ghost use Rattle.std.specs.Prelude.{◌≡◌, ◌↔◌, IsTrue, length};
ghost use Rattle.std.specs.List.{list_any};
ghost use Rattle.jh_env.specs.Faults.{is_self_link};
ghost use Rattle.jh_nemesis.specs.Steps.{FitsNodes};
ghost use Rattle.jh_laws.specs.StepLines.{IsStepOver};
ghost use Rattle.jh_settings_texts.specs.SettingsWritten.{LeadsToOthers};

use jh_env::{Node, Nodes, PlainFault};
use jh_nemesis::Step;

/// Whether a link leads from a node to itself.
fn is_any_self_link(links: &[(Node, Node)]) -> bool
    ensures { result ≡ list_any is_self_link links.now }
{
    links.iter().any(|link| link.0.place() == link.1.place())
}

/// Whether no link of the step's fault leads from a node to itself, as the text of a fault wants.
///
/// Takes time linear in the links.
pub fn leads_to_others(step: &Step) -> bool
    ensures { IsTrue result ↔ LeadsToOthers step.now }
{
    let Step::Begin(_, fault) = step else {
        return true;
    };
    match fault.parts() {
        PlainFault::OnLinks(_, links) => !is_any_self_link(links),
        _ => true,
    }
}

/// Does nothing. Its clause says that a step has a text over these nodes, if its fault names none but
/// these, and no link of it leads from a node to itself.
pub fn step_has_text(nodes: &Nodes, step: &Step)
    requires fits { FitsNodes (length nodes.now) step.now }
    requires others { LeadsToOthers step.now }
    ensures { IsStepOver (length nodes.now) step.now }
{
    // That an id has 32 bits, and what holds of a fault, is known to the prover where the code reads them.
    match step {
        Step::Begin(id, fault) => {
            let _id = *id;
            fault.parts();
        }
        Step::Withdraw(id) => {
            let _id = *id;
        }
        Step::WithdrawAll | Step::Undo | Step::Redo => {}
    }
}
