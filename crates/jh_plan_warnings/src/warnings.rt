//! What is warned of a plan. `specs/Warnings.antt` has the rule.

ghost use Rattle.std.specs.Prelude.{◌≡◌, ◌++◌, ◌<◌, IfOk, OnOk, length};
ghost use Rattle.jh_plan_warnings.specs.Warnings as rule;

use jh_nemesis::Step;
use jh_ops::Workload;
use jh_simnode::{Entry, Plan};
use std::alloc::{AllocError, Global};

/// What a plan says that was hardly meant.
#[derive(Clone, Copy, Debug, PartialEq, Eq)]
pub enum Warning {
    /// The generator never asks for a read, by which the history of its workload is judged.
    NeverReads,
    /// The entry at this place, from 0, withdraws the fault of this id, which no entry before it begins.
    NeverBegun { entry: usize, id: u32 },
}

/// Whether a history of the workload is judged by what its reads saw.
fn has_reads(workload: Workload) -> bool
    ensures { result ≡ rule.has_reads workload }
{
    !matches!(workload, Workload::Ids)
}

/// Whether a step begins a fault under this id.
fn begins(id: u32, step: &Step) -> bool
    ensures { result ≡ rule.begins id step.now }
{
    match step {
        Step::Begin(begun, _) => *begun == id,
        _ => false,
    }
}

/// Whether one of the entries begins a fault under this id.
fn is_begun(id: u32, entries: &[Entry]) -> bool
    ensures { result ≡ rule.is_begun id entries.now }
{
    for entry in entries {
        if begins(id, &entry.step) {
            return true;
        }
    }
    false
}

/// What is warned of a step, behind the entries that are taken before it.
fn of_step(before: &[Entry], step: &Step) -> Option<Warning>
    ensures { result ≡ rule.of_step before.now step.now }
{
    match step {
        Step::Withdraw(id) if !is_begun(*id, before) => Some(Warning::NeverBegun {
            entry: before.len(),
            id: *id,
        }),
        _ => None,
    }
}

/// What is warned of the entry at a place, if anything is.
fn of_entry(entries: &[Entry], place: usize) -> Option<Warning>
    ensures { result ≡ rule.of_entry entries.now place }
{
    let entry = entries.get(place)?;
    of_step(&entries[..place], &entry.step)
}

/// Puts a warning, if it is one, behind others.
fn push_one(warnings: &mut Vec<Warning>, warning: Option<Warning>) -> Result<(), AllocError>
    ensures { OnOk result (warnings.new.items ≡ warnings.old.items ++ rule.one_or_none warning) }
{
    if let Some(warning) = warning {
        warnings.push(warning)?;
    }
    Ok(())
}

/// Puts what is warned of each entry behind other warnings.
fn push_of_entries(warnings: &mut Vec<Warning>, entries: &[Entry]) -> Result<(), AllocError>
    ensures { OnOk result (warnings.new.items
        ≡ warnings.old.items ++ rule.of_entries_before entries.now (length entries.now)) }
{
    for place in 0..entries.len() {
        push_one(warnings, of_entry(entries, place))?;
    }
    Ok(())
}

/// What is warned of a plan: that its generator never reads, first; then the entries of its schedule that
/// withdraw what no entry before them begins, in order.
///
/// For each withdrawal the entries before it are looked through, which are at most 1,024.
pub fn warnings_of(alloc: Global, plan: &Plan) -> Result<Vec<Warning>, AllocError>
    ensures { IfOk result (λ warnings. warnings.items ≡ rule.warnings_of plan.now) }
{
    let mut warnings = Vec::new(alloc);
    if has_reads(plan.workload()) && plan.generator().never_reads() {
        warnings.push(Warning::NeverReads)?;
    }
    push_of_entries(&mut warnings, plan.schedule().entries())?;
    Ok(warnings)
}
