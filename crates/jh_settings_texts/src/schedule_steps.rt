//! The steps of the schedule that settings have, as texts. `specs/ScheduleSteps.antt` has the rule.

ghost use Rattle.std.specs.Prelude.{◌≡◌, All, IfOk, MatchResult, length};
ghost use Rattle.jh_edn.specs.View.{views};
ghost use Rattle.jh_nemesis.specs.Steps.{FitsNodes};
ghost use Rattle.jh_settings.specs.Settings.{RefusesSettings};
ghost use Rattle.jh_settings_texts.specs.ScheduleSteps.{AreStepsIn, step_texts};

use jh_edn::Value;
use jh_env::Nodes;
use jh_settings::{SettingsError, settings_of};
use jh_simnode::Entry;
use jh_step_texts::value_of_step;
use std::alloc::{AllocError, Global};

/// The texts of the steps of entries over these nodes.
fn steps_of_entries(
    alloc: Global,
    nodes: &Nodes,
    entries: &[Entry],
) -> Result<Vec<Value>, AllocError>
    requires { All (λ entry. FitsNodes (length nodes.now) entry.step) entries.now }
    ensures { IfOk result (λ steps. views steps.items ≡ step_texts nodes.now entries.now) }
{
    let mut steps = Vec::new(alloc);
    for entry in entries {
        steps.push(value_of_step(alloc, nodes, &entry.step)?)?;
    }
    Ok(steps)
}

/// The steps of the schedule of a run, by its settings, a TOML document: a text for each entry, in
/// order, as `value_of_step` writes it. A page that draws what a run printed says by them which steps
/// the nemesis took.
///
/// Errors: those of `settings_of`, in their order; `OutOfMemory`.
pub fn steps_in_settings(alloc: Global, bytes: &[u8]) -> Result<Vec<Value>, SettingsError>
    ensures { MatchResult result
        (λ steps. AreStepsIn bytes.now (views steps.items))
        (RefusesSettings bytes.now) }
{
    let settings = settings_of(alloc, bytes)?;
    let nodes = settings.plan.environment().nodes();
    let entries = settings.plan.schedule().entries();
    Ok(steps_of_entries(alloc, nodes, entries)?)
}
