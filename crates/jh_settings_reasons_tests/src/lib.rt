//! Tests of `jh_settings_reasons`: which lines stand behind a refusal of settings.
#![tactic(auto)]

#[cfg(test)]
mod reasons;
