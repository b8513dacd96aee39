//! The candidates of a search over tests of a real database. `specs/Candidates.antt` says which test
//! each is, `specs/CandidatesInside.antt` what is known of entries while a candidate is made. Which
//! entries settings can say stands in `jh_test_settings_texts`.

ghost use Rattle.std.specs.Prelude.{◌≡◌, ◌<◌, ◌^◌, ℕ, All, IfOk, OnOk, length};
ghost use Rattle.jh_random_faults.specs.Draws.{numbers_after};
ghost use Rattle.jh_random_faults.specs.Kinds.{drawn_kind};
ghost use Rattle.jh_random_faults.specs.Named.{HasNamed, HaveNamed};
ghost use Rattle.jh_test_candidates.specs.Candidates as rule;
ghost use Rattle.jh_test_candidates.specs.CandidatesInside.{AreEntriesForTest};
ghost use Rattle.jh_test_settings_texts.specs.WritableEntries.{HasWritableLimit, IsWritableTestEntry};
ghost use Rattle.jh_test_settings_texts.specs.WritableEntries.{test_in_order};

use crate::entries::{entries_copied, entries_in_order, greatest_id, put_entry};
use crate::moments::{begin_of, end_of, heal_of};
use jh_nemesis::Step;
use jh_random_faults::{
    Draw, Palette, candidate_seed, drawn_kind, fault_drawn, fault_id, heals, kinds_of, next_draw,
    next_number, numbers_of, stays,
};
use jh_step_texts::FaultKind;
use jh_test_parts::{Test, TestEntry};
use rand_pcg::Lcg128Xsl64;
use std::alloc::{AllocError, Global};

/// Puts the begin of a fault of this kind among entries, and its withdrawal.
fn put_fault(
    alloc: Global,
    test: &Test,
    id: u32,
    draw: Draw,
    kind: FaultKind,
    entries: &mut Vec<TestEntry>,
) -> Result<(), AllocError>
    requires kept { AreEntriesForTest test.now entries.old.items }
    requires named { HasNamed (length test.now.start.names) kind }
    ensures put { OnOk result
        (entries.new.items ≡ rule.test_entries_with_fault test.now id draw entries.old.items kind) }
    ensures kept { OnOk result (AreEntriesForTest test.now entries.new.items) }
{
    let fault = fault_drawn(alloc, test.nodes(), kind, draw)?;
    let begin = TestEntry {
        at: begin_of(test, draw),
        step: Step::Begin(id, fault),
    };
    put_entry(entries, begin)?;
    if stays(draw) {
        return Ok(());
    }
    let end = TestEntry {
        at: end_of(test, draw),
        step: Step::Withdraw(id),
    };
    put_entry(entries, end)
}

/// Puts a fault of the kind that is drawn among entries, where there is one.
fn put_drawn(
    alloc: Global,
    test: &Test,
    kinds: &[FaultKind],
    id: u32,
    draw: Draw,
    entries: &mut Vec<TestEntry>,
) -> Result<(), AllocError>
    requires kept { AreEntriesForTest test.now entries.old.items }
    requires named { HaveNamed (length test.now.start.names) kinds.now }
    ensures put { OnOk result (entries.new.items
        ≡ rule.test_entries_with_drawn test.now id draw entries.old.items
        (drawn_kind kinds.now draw)) }
    ensures kept { OnOk result (AreEntriesForTest test.now entries.new.items) }
{
    match drawn_kind(kinds, draw) {
        Some(kind) => put_fault(alloc, test, id, draw, kind, entries),
        None => Ok(()),
    }
}

/// The test's own entries once more.
fn own_entries(alloc: Global, test: &Test) -> Result<Vec<TestEntry>, AllocError>
    ensures entries { IfOk result (λ entries. entries.items ≡ test.now.schedule) }
    ensures kept { IfOk result (λ entries. AreEntriesForTest test.now entries.items) }
{
    // The answer is not used: this call's contract says that the test can be made.
    let _clients = test.clients();
    entries_copied(alloc, test.schedule())
}

/// The test's own entries, with random faults among them.
fn entries_with_faults(
    alloc: Global,
    test: &Test,
    palette: Palette,
    faults: u32,
    numbers: &mut Lcg128Xsl64,
) -> Result<Vec<TestEntry>, AllocError>
    ensures faults { (seed : ℕ) → numbers.old ≡ numbers_after seed 1 → IfOk result
        (λ entries. entries.items ≡ rule.test_entries_with_faults test.now palette faults seed) }
    ensures kept { IfOk result (λ entries. AreEntriesForTest test.now entries.items) }
{
    let kinds = kinds_of(alloc, palette, test.nodes().len())?;
    let last_id = greatest_id(test.schedule());
    let mut entries = own_entries(alloc, test)?;
    for fault in 0..faults {
        let id = fault_id(last_id, fault);
        put_drawn(alloc, test, &kinds, id, next_draw(numbers), &mut entries)?;
    }
    Ok(entries)
}

/// Puts the withdrawal of all faults among entries, where the first random number says that the
/// candidate heals.
fn put_heal(test: &Test, first_number: u64, entries: &mut Vec<TestEntry>) -> Result<(), AllocError>
    requires kept { AreEntriesForTest test.now entries.old.items }
    ensures put { OnOk result
        (entries.new.items ≡ rule.healed_test_entries test.now first_number entries.old.items) }
    ensures kept { OnOk result (AreEntriesForTest test.now entries.new.items) }
{
    if !heals(first_number) {
        return Ok(());
    }
    let heal = TestEntry {
        at: heal_of(test),
        step: Step::WithdrawAll,
    };
    put_entry(entries, heal)
}

/// The entries of a candidate with this seed, each fault as it was drawn or given.
fn random_entries(
    alloc: Global,
    test: &Test,
    palette: Palette,
    faults: u32,
    seed: u64,
) -> Result<Vec<TestEntry>, AllocError>
    ensures entries { IfOk result
        (λ entries. entries.items ≡ rule.random_test_schedule test.now palette faults seed) }
    ensures kept { IfOk result (λ entries. AreEntriesForTest test.now entries.items) }
{
    let mut numbers = numbers_of(seed);
    let first_number = next_number(&mut numbers);
    let mut entries = entries_with_faults(alloc, test, palette, faults, &mut numbers)?;
    put_heal(test, first_number, &mut entries)?;
    Ok(entries)
}

/// The candidate of a number, from 0: the test with its seed raised by the number, modulo 2^63, and
/// with so many random faults of the kinds of a palette among the entries of its schedule. They begin
/// and end by the clock, in milliseconds, where the test has a time limit, and by answered calls where
/// it has none. A schedule has at most `MAX_TEST_ENTRIES` entries; what it has no room for is left
/// out. Each fault, also one of the test's own, has its links, nodes or bumps in the order of its text,
/// so what is read of the candidate's settings is the candidate again.
///
/// Takes time for each fault and for the entries that stand behind it, and to sort what each fault
/// names; and memory for the whole test.
///
/// Where settings can say the test's time limit and its entries, they can say the candidate's entries;
/// its seed they can say always.
///
/// Error: memory was refused.
pub fn test_candidate(
    alloc: Global,
    test: &Test,
    palette: Palette,
    faults: u32,
    number: u64,
) -> Result<Test, AllocError>
    ensures candidate { IfOk result
        (λ made. made ≡ rule.test_candidate_of test.now palette faults number) }
    ensures seed { IfOk result (λ made. made.seed < 2 ^ 63) }
    ensures written { HasWritableLimit test.now → All IsWritableTestEntry test.now.schedule
        → IfOk result (λ made. All IsWritableTestEntry made.schedule) }
    ensures read_back { IfOk result (λ made. test_in_order made ≡ made) }
{
    let seed = candidate_seed(test.seed(), number);
    let drawn = random_entries(alloc, test, palette, faults, seed)?;
    let entries = entries_in_order(alloc, &drawn)?;
    test.with_schedule(alloc, entries, seed)
}
