//! Tests of `jh_drive`, with `jh_conversation` and `jh_test_parts` below it, in `drive`, and of `jh_drive_settings` in a module of
//! that name.
#![tactic(auto)]

#[cfg(test)]
mod drive;
#[cfg(test)]
mod drive_settings;
