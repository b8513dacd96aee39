//! Tests of `jh_lexemes` and `jh_unread`, through their public calls alone, with rows that were worked out by hand.
#![tactic(auto)]

#[cfg(test)]
mod blanks;
#[cfg(test)]
mod lexemes;
