//! What holds of each test that settings mean. The law is the clause of a function that does nothing.

ghost use Rattle.std.specs.Prelude.{ℕ, ℤ, Option};
ghost use Rattle.toml.specs.Data.{Members};
ghost use Rattle.jh_drive_settings.specs.Settings.{AreDriveSettings};
ghost use Rattle.jh_test_parts.specs.Test.{TestValue};
ghost use Rattle.jh_txn.specs.declared.model.ConsistencyModel.{ConsistencyModel};
ghost use Rattle.jh_test_settings_texts.specs.WritableEntries.{HasWritableLimit};

/// Settings can say the time limit of a test that some settings mean.
pub fn time_limits_are_writable()
    ensures { (document : Members) (test : TestValue) (held : Option ℤ)
        (consistency : ConsistencyModel) (most : ℕ)
        → AreDriveSettings document test held consistency most → HasWritableLimit test }
{}
