//! Tests of `jh_plots`: pixels that were worked out by hand.
#![tactic(auto)]

mod plot;
