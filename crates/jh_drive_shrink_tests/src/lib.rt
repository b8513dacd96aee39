//! Tests of `jh_drive_shrink`, and through it of `jh_trials`, `jh_shrink` and `jh_test_settings_texts`.
#![tactic(auto)]

#[cfg(test)]
mod shrinks;
