//! Plans, written as settings. `specs/SettingsWritten.antt` says which can be, and as which they
//! are read back, `specs/DocumentWritten.antt` what is written.

ghost use Rattle.std.specs.Prelude.{◌≤◌, ◌≢◌, ◌↔◌, IfOk, IfSome, IsTrue, All, string_bytes};
ghost use Rattle.toml_parser.specs.Lexical.{first};
ghost use Rattle.jh_simnode.specs.declared.schedule.Entry.{Entry};
ghost use Rattle.jh_settings.specs.Keys.{IsDocument};
ghost use Rattle.jh_settings.specs.Limits.{max_budget};
ghost use Rattle.jh_settings.specs.Settings.{AreSettingsOf};
ghost use Rattle.jh_settings.specs.declared.choices.Mode.{Mode};
ghost use Rattle.jh_settings_texts.specs.DocumentWritten.{document_of};
ghost use Rattle.jh_settings_texts.specs.SettingsWritten.{CanBeWritten, IsWritableEntry};
ghost use Rattle.jh_settings_texts.specs.SettingsWritten.{plan_in_order};
ghost use Rattle.jh_settings_texts.specs.TableInside.{HasWritableLoad, HasWritableNumbers};
ghost use Rattle.jh_settings_texts.specs.TableInside.{HasWritableTexts};

use crate::depth::is_within;
use crate::start::may_start;
use crate::steps::leads_to_others;
use crate::table::table_of;
use jh_ops::Workload;
use jh_settings::{MAX_DUE_AT, MAX_TICK_EVERY};
use jh_simnode::{Entry, Plan};
use std::alloc::{AllocError, Global};
use toml::ser::Error;
use toml::table_to_string_pretty;

/// How deep a text of EDN may be nested: as deep as `jh_edn` reads it.
const MAX_DEPTH: u32 = 64;

/// Whether the numbers of a plan are in the ranges of their keys, and only a register holds
/// something at first.
fn has_writable_numbers(plan: &Plan) -> bool
    ensures { IsTrue result ↔ HasWritableNumbers plan.now }
{
    let held = plan.initial().is_none() || plan.workload() == Workload::Register;
    held && plan.tick_every() <= MAX_TICK_EVERY && plan.seed() <= i64::MAX as u64
}

/// Whether an entry is due in time and leads to others.
fn is_writable(entry: &Entry) -> bool
    ensures { IsTrue result ↔ IsWritableEntry entry.now }
{
    entry.at <= MAX_DUE_AT && leads_to_others(&entry.step)
}

/// Whether each entry is due in time and leads to others.
fn are_writable(entries: &[Entry]) -> bool
    ensures { IsTrue result ↔ All IsWritableEntry entries.now }
{
    for entry in entries {
        if !is_writable(entry) {
            return false;
        }
    }
    true
}

/// Whether the start and the generator have texts that are read back.
fn has_writable_texts(plan: &Plan) -> bool
    ensures { IsTrue result ↔ HasWritableTexts plan.now }
{
    may_start(plan.environment()) && is_within(plan.generator(), MAX_DEPTH)
}

/// Whether the numbers and the schedule can be written.
fn has_writable_numbers_and_schedule(plan: &Plan) -> bool
    ensures { IsTrue result ↔ HasWritableLoad plan.now }
{
    has_writable_numbers(plan) && are_writable(plan.schedule().entries())
}

/// Whether settings can say the plan: its generator is nested no deeper than 64 levels, only a
/// register holds something at first, its seed is below 2^63, `tick_every` is at most 10,000, each
/// entry of its schedule is due after at most 10,000 calls, no link of a fault leads from a node to
/// itself, and its environment is within the ranges of a start.
///
/// Takes time linear in the generator and the schedule, and quadratic in the nodes.
pub fn can_be_written(plan: &Plan) -> bool
    ensures { IsTrue result ↔ CanBeWritten plan.now }
{
    has_writable_texts(plan) && has_writable_numbers_and_schedule(plan)
}

/// The settings of a plan that `can_be_written`, which `settings_of` of `jh_settings` reads back as
/// the same plan, run serially with this budget, from 0 to 10,000,000: a TOML document with its
/// keys in the order of their bytes, and a line for each entry of a schedule of two or more. Under
/// `start`, `generator` and in `schedule` stand texts of EDN. `initial` stands there only where the
/// plan has it. The links, nodes and bumps of the faults of its schedule are written in order, and
/// read back so. The text begins with no byte order mark, so another may stand before it.
///
/// Takes time and memory in proportion to the text.
///
/// Errors: out of memory.
pub fn settings_to_text(alloc: Global, plan: &Plan, budget: u64) -> Result<String, AllocError>
    requires can { CanBeWritten plan.now }
    requires few { budget ≤ max_budget }
    ensures document { IfOk result
        (λ text. IsDocument (string_bytes text) (document_of plan.now budget)) }
    ensures read_back { IfOk result
        (λ text. AreSettingsOf (string_bytes text) (plan_in_order plan.now) Mode.Serial budget) }
    ensures unmarked { IfOk result (λ text. first (string_bytes text) ≢ 239) }
{
    let table = table_of(alloc, plan, budget)?;
    match table_to_string_pretty(alloc, &table) {
        Ok(text) => Ok(text),
        Err(Error::OutOfMemory) => Err(AllocError),
        Err(Error::DateInvalid) => unreachable!(),
    }
}
