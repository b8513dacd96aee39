//! The candidates of a search. `specs/Candidates.antt` says which plan each is,
//! `specs/CandidatesInside.antt` what is known of entries while one is made.

ghost use Rattle.std.specs.Prelude.{◌≡◌, ◌<◌, ◌≤◌, ℕ, IfErr, IfOk, Ok, OnOk, length};
ghost use Rattle.jh_simnode.specs.declared.plan.PlanError.TheVariants.{OutOfMemory};
ghost use Rattle.jh_settings.specs.Limits.{max_due_at};
ghost use Rattle.jh_settings_texts.specs.SettingsWritten.{CanBeWritten, plan_in_order};
ghost use Rattle.jh_random_faults.specs.Draws.{numbers_after};
ghost use Rattle.jh_random_faults.specs.Kinds.{drawn_kind};
ghost use Rattle.jh_random_faults.specs.Named.{HasNamed, HaveNamed};
ghost use Rattle.jh_search.specs.Candidates as rule;
ghost use Rattle.jh_search.specs.CandidatesInside.{AreEntriesFor};

use crate::entries::{entries_in_order, greatest_id, put_entry};
use crate::options::Options;
use jh_nemesis::Step;
use jh_random_faults::{
    Draw, begin_within, candidate_seed, drawn_kind, end_within, fault_drawn, fault_id, heal_within,
    heals, kinds_of, next_draw, next_number, numbers_of, stays,
};
use jh_simnode::{Entry, Plan, PlanError, Schedule};
use jh_step_texts::FaultKind;
use rand_pcg::Lcg128Xsl64;
use std::alloc::{AllocError, Global};

/// After how many calls a candidate heals, where it does.
fn calls_before_heal(plan: &Plan) -> u32
    ensures at { result ≡ rule.calls_before_heal plan.now }
    ensures few { result ≤ max_due_at }
{
    heal_within(plan.ops())
}

/// After how many calls a fault begins.
fn calls_before_begin(plan: &Plan, draw: Draw) -> u32
    ensures at { result ≡ rule.calls_before_begin plan.now draw }
    ensures few { result ≤ max_due_at }
{
    begin_within(plan.ops(), draw)
}

/// After how many calls it is withdrawn.
fn calls_before_end(plan: &Plan, draw: Draw) -> u32
    ensures at { result ≡ rule.calls_before_end plan.now draw }
    ensures few { result ≤ max_due_at }
{
    end_within(plan.ops(), draw)
}

/// Puts the begin of a fault of this kind among entries, and its withdrawal.
fn put_fault(
    alloc: Global,
    plan: &Plan,
    id: u32,
    draw: Draw,
    kind: FaultKind,
    entries: &mut Vec<Entry>,
) -> Result<(), AllocError>
    requires kept { AreEntriesFor plan.now entries.old.items }
    requires named { HasNamed (length plan.now.env.names) kind }
    ensures put { OnOk result
        (entries.new.items ≡ rule.entries_with_fault plan.now id draw entries.old.items kind) }
    ensures kept { OnOk result (AreEntriesFor plan.now entries.new.items) }
{
    let fault = fault_drawn(alloc, plan.environment().nodes(), kind, draw)?;
    let begin = Entry {
        at: calls_before_begin(plan, draw),
        step: Step::Begin(id, fault),
    };
    put_entry(entries, begin)?;
    if stays(draw) {
        return Ok(());
    }
    let end = Entry {
        at: calls_before_end(plan, draw),
        step: Step::Withdraw(id),
    };
    put_entry(entries, end)
}

/// Puts a fault of the kind that is drawn among entries, where there is one.
fn put_drawn(
    alloc: Global,
    plan: &Plan,
    kinds: &[FaultKind],
    id: u32,
    draw: Draw,
    entries: &mut Vec<Entry>,
) -> Result<(), AllocError>
    requires kept { AreEntriesFor plan.now entries.old.items }
    requires named { HaveNamed (length plan.now.env.names) kinds.now }
    ensures put { OnOk result (entries.new.items
        ≡ rule.entries_with_drawn plan.now id draw entries.old.items
        (drawn_kind kinds.now draw)) }
    ensures kept { OnOk result (AreEntriesFor plan.now entries.new.items) }
{
    match drawn_kind(kinds, draw) {
        Some(kind) => put_fault(alloc, plan, id, draw, kind, entries),
        None => Ok(()),
    }
}

/// The plan's own entries, with random faults among them.
fn entries_with_faults(
    alloc: Global,
    plan: &Plan,
    options: Options,
    numbers: &mut Lcg128Xsl64,
) -> Result<Vec<Entry>, AllocError>
    ensures faults { (seed : ℕ) → numbers.old ≡ numbers_after seed 1
        → IfOk result (λ entries. entries.items ≡ rule.entries_with_faults plan.now options seed) }
    ensures kept { IfOk result (λ entries. AreEntriesFor plan.now entries.items) }
{
    let kinds = kinds_of(alloc, options.palette, plan.environment().nodes().len())?;
    let last_id = greatest_id(plan.schedule().entries());
    let mut entries = plan.schedule().copy(alloc)?.into_entries();
    for fault in 0..options.faults {
        let id = fault_id(last_id, fault);
        put_drawn(alloc, plan, &kinds, id, next_draw(numbers), &mut entries)?;
    }
    Ok(entries)
}

/// Puts the withdrawal of all faults among entries, where the first random number says that the
/// candidate heals.
fn put_heal(plan: &Plan, first_number: u64, entries: &mut Vec<Entry>) -> Result<(), AllocError>
    requires kept { AreEntriesFor plan.now entries.old.items }
    ensures put { OnOk result
        (entries.new.items ≡ rule.healed_entries plan.now first_number entries.old.items) }
    ensures kept { OnOk result (AreEntriesFor plan.now entries.new.items) }
{
    if !heals(first_number) {
        return Ok(());
    }
    let heal = Entry {
        at: calls_before_heal(plan),
        step: Step::WithdrawAll,
    };
    put_entry(entries, heal)
}

/// The entries of a candidate with this seed, each fault as it was drawn or given.
fn random_entries(
    alloc: Global,
    plan: &Plan,
    options: Options,
    seed: u64,
) -> Result<Vec<Entry>, AllocError>
    ensures entries { IfOk result
        (λ entries. entries.items ≡ rule.random_schedule plan.now options seed) }
    ensures kept { IfOk result (λ entries. AreEntriesFor plan.now entries.items) }
{
    let mut numbers = numbers_of(seed);
    let first_number = next_number(&mut numbers);
    let mut entries = entries_with_faults(alloc, plan, options, &mut numbers)?;
    put_heal(plan, first_number, &mut entries)?;
    Ok(entries)
}

/// A plan that can be refused only as out of memory.
fn made_plan(made: Result<Plan, PlanError>) -> Result<Plan, AllocError>
    requires { IfErr made (λ e. e ≡ OutOfMemory) }
    ensures { IfOk result (λ plan. made ≡ Ok plan) }
{
    match made {
        Ok(plan) => Ok(plan),
        Err(PlanError::OutOfMemory) => Err(AllocError),
        Err(_) => unreachable!(),
    }
}

/// The plan with another seed and with other entries, whose faults name nodes of its environment.
fn candidate_plan(
    alloc: Global,
    plan: &Plan,
    entries: Vec<Entry>,
    seed: u64,
) -> Result<Plan, AllocError>
    requires { AreEntriesFor plan.now entries.items }
    ensures { IfOk result (λ made. made ≡ rule.candidate_plan plan.now entries.items seed) }
{
    let Ok(schedule) = Schedule::of(entries) else {
        unreachable!()
    };
    let made = made_plan(plan.with_schedule(alloc, schedule))?;
    Ok(made.with_seed(seed))
}

/// The candidate of this number, from 0: the plan with its seed raised by the number, modulo 2^63,
/// and with random faults among the entries of its schedule. A schedule has at most `MAX_ENTRIES`
/// entries; what it has no room for is left out. Each fault, also one of the plan's own, has its
/// links, nodes or bumps in the order of its text.
///
/// Takes time for each fault and for the entries that stand behind it, and to sort what each fault
/// names; and memory for the whole plan.
///
/// Where settings can say the plan, they can say the candidate, and mean it when they are read.
///
/// Error: memory was refused.
pub fn candidate(
    alloc: Global,
    plan: &Plan,
    options: &Options,
    number: u64,
) -> Result<Plan, AllocError>
    ensures candidate { IfOk result
        (λ made. made ≡ rule.candidate_of plan.now options.now number) }
    ensures written { CanBeWritten plan.now → IfOk result CanBeWritten }
    ensures read_back { IfOk result (λ made. plan_in_order made ≡ made) }
{
    let seed = candidate_seed(plan.seed(), number);
    let drawn = random_entries(alloc, plan, *options, seed)?;
    let entries = entries_in_order(alloc, &drawn)?;
    candidate_plan(alloc, plan, entries, seed)
}
