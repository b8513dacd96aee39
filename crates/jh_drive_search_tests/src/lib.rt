//! Tests of `jh_drive_search`, and through it of `jh_trials`, `jh_test_candidates` and `jh_test_settings_texts`.
#![tactic(auto)]

#[cfg(test)]
mod searches;
