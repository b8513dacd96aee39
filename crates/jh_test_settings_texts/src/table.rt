//! Tables of settings, with other values under some keys.

ghost use Rattle.std.specs.Prelude.{◌≡◌, ◌<◌, ◌^◌, All, IfOk, OnOk, length};
ghost use Rattle.std.specs.BTreeMap.{IsOrdered};
ghost use Rattle.std.specs.String.{string_cmp};
ghost use Rattle.toml.specs.Data.{array};
ghost use Rattle.toml.specs.View as toml;
ghost use Rattle.toml.specs.View.{table_view};
ghost use Rattle.jh_env.specs.Names.{AreNodeNames};
ghost use Rattle.jh_nemesis.specs.Steps.{FitsNodes};
ghost use Rattle.jh_test_parts.specs.Test.{IsFitTest};
ghost use Rattle.jh_laws.specs.StepLines.{IsStepOver};
ghost use Rattle.jh_settings_texts.specs.DocumentWritten.{whole_number};
ghost use Rattle.jh_settings_texts.specs.TableInside.{put_key};
ghost use Rattle.jh_test_settings_texts.specs.DocumentWritten.{rewritten_document};
ghost use Rattle.jh_test_settings_texts.specs.DocumentWritten.{test_entry_texts};
ghost use Rattle.jh_test_settings_texts.specs.Inside.{IsTestWithTexts};
ghost use Rattle.jh_test_settings_texts.specs.WritableEntries.{IsWritableTestEntry};

use crate::entries::entry_text;
use jh_env::Nodes;
use jh_settings::Key;
use jh_test_parts::{Test, TestEntry};
use std::alloc::{AllocError, Global};
use toml::{Table, Value};

/// Puts a value under a key.
fn put(alloc: Global, table: &mut Table, key: Key, value: Value) -> Result<(), AllocError>
    ensures put { OnOk result
        (table_view table.new ≡ put_key key (toml.view value) (table_view table.old)) }
    ensures ordered { OnOk result (IsOrdered string_cmp table.new) }
{
    let name = String::from_str(alloc, key.as_str())?;
    match table.insert(name, value) {
        Ok(_) => Ok(()),
        Err(_) => Err(AllocError),
    }
}

/// What is printed of each entry over these nodes.
fn entry_texts(
    alloc: Global,
    nodes: &Nodes,
    entries: &[TestEntry],
) -> Result<Vec<Value>, AllocError>
    requires named { AreNodeNames nodes.now }
    requires fit { All (λ entry. FitsNodes (length nodes.now) entry.step) entries.now }
    requires writable { All IsWritableTestEntry entries.now }
    ensures texts { IfOk result
        (λ values. toml.items_view values.items ≡ test_entry_texts nodes.now entries.now) }
    ensures over { IfOk result
        (λ _. All (λ entry. IsStepOver (length nodes.now) entry.step) entries.now) }
{
    let mut values = Vec::new(alloc);
    for entry in entries {
        values.push(Value::from(entry_text(alloc, nodes, entry)?))?;
    }
    Ok(values)
}

/// Puts the seed and the schedule of a test under their keys.
pub(crate) fn put_seed_and_schedule(
    alloc: Global,
    table: &mut Table,
    test: &Test,
) -> Result<(), AllocError>
    requires seed { test.now.seed < 2 ^ 63 }
    requires written { All IsWritableTestEntry test.now.schedule }
    ensures table { OnOk result
        (table_view table.new ≡ rewritten_document test.now (table_view table.old)) }
    ensures ordered { OnOk result (IsOrdered string_cmp table.new) }
    ensures texts { OnOk result (IsTestWithTexts test.now) }
{
    // The answer is not used: this call's contract says that the test can be made.
    let _clients = test.clients();
    let values = entry_texts(alloc, test.environment().nodes(), test.schedule())?;
    put(alloc, table, Key::Seed, Value::from(test.seed() as i64))?;
    put(alloc, table, Key::Schedule, Value::Array(values))
}
