//! The settings of a test, written. `specs/DocumentWritten.antt` says what is written, and
//! `specs/WritableEntries.antt` which entries can be.

ghost use Rattle.std.specs.Prelude.{◌≡◌, ◌<◌, ◌^◌, ℕ, ℤ, All, IfOk, Option, string_bytes};
ghost use Rattle.toml.specs.View.{table_view};
ghost use Rattle.jh_settings.specs.Keys.{IsDocument};
ghost use Rattle.jh_drive_settings.specs.Settings.{AreDriveSettingsOf};
ghost use Rattle.jh_txn.specs.declared.model.ConsistencyModel.{ConsistencyModel};
ghost use Rattle.jh_test_settings_texts.specs.DocumentWritten.{rewritten_document};
ghost use Rattle.jh_test_settings_texts.specs.UpToSchedule.{AreSettingsUpToSeedAndSchedule};
ghost use Rattle.jh_test_settings_texts.specs.WritableEntries.{IsWritableTestEntry, test_in_order};

use crate::table::put_seed_and_schedule;
use jh_test_parts::Test;
use std::alloc::{AllocError, Global};
use toml::ser::Error;
use toml::{Table, table_to_string_pretty};

/// The settings of a table, with the seed and the schedule of a test in place of its own. The table means
/// that test with some seed and some schedule; what is written, `drive_settings_of` of
/// `jh_drive_settings` reads back as that test, with all else as the table has it: what a register
/// holds at first, the model, and the budget. The links, nodes and bumps of the faults of the schedule
/// are written in order, and read back so.
///
/// It is a TOML document with its keys in the order of their bytes, and a line for each entry of a
/// schedule of two or more. Each entry is a text of EDN, `[AT STEP]`, where AT is a number of answered
/// calls, or `[:ms T]`. `seed` and `schedule` stand there also where the table has none.
///
/// Takes time and memory in proportion to the text.
///
/// Errors: out of memory.
pub fn settings_with(alloc: Global, mut table: Table, test: &Test) -> Result<String, AllocError>
    requires known { (held : Option ℤ) × (consistency : ConsistencyModel) × (most : ℕ)
        × AreSettingsUpToSeedAndSchedule (table_view table) test.now held consistency most }
    requires seed { test.now.seed < 2 ^ 63 }
    requires written { All IsWritableTestEntry test.now.schedule }
    ensures document { IfOk result (λ text. IsDocument (string_bytes text)
        (rewritten_document test.now (table_view table))) }
    ensures read_back { IfOk result
        (λ text. (held : Option ℤ) (consistency : ConsistencyModel) (most : ℕ)
        → AreSettingsUpToSeedAndSchedule (table_view table) test.now held consistency most
        → AreDriveSettingsOf (string_bytes text) (test_in_order test.now)
        held consistency most) }
{
    put_seed_and_schedule(alloc, &mut table, test)?;
    match table_to_string_pretty(alloc, &table) {
        Ok(text) => Ok(text),
        Err(Error::OutOfMemory) => Err(AllocError),
        Err(Error::DateInvalid) => unreachable!(),
    }
}
