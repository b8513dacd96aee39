//! Tests of `jh_search` and `jh_tasks` in `search`, of `jh_settings_texts`, with which what was found is written, and of
//! `jh_test_candidates`, in modules of these names. `plain_search` is a plain slow program of which nothing is claimed: `search` compares with it.
#![tactic(auto)]

#[cfg(test)]
mod plain_search;
#[cfg(test)]
mod search;
#[cfg(test)]
mod settings_texts;
#[cfg(test)]
mod test_candidates;
