//! Numbers for values: those that are equal as EDN says have one, and those that differ have
//! different ones. A fingerprint of `jh_edn` is none of these: values that differ may share it.
#![tactic(auto)]

mod laws;
mod numbers;
mod owned;
mod sought;

pub use laws::number_laws;
pub use numbers::Numbers;
