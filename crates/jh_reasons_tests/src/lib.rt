//! Tests of `jh_text_reasons` and what it stands on, and of `jh_plan_warnings`, through public calls alone: which lines
//! there are for which input, with rows that were worked out by hand.
#![tactic(auto)]

#[cfg(test)]
mod operations;
#[cfg(test)]
mod rows;
#[cfg(test)]
mod texts;
#[cfg(test)]
mod warnings;
