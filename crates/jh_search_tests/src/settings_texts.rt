//! Tests of `jh_settings_texts`, through its public calls alone: what is written of plans, byte for
//! byte, and which plans can be written. What the clauses say is proved: a test is for texts that
//! were worked out by hand, and shows that memory suffices where there is some.
//!
//! Each test passes, too, where one allocation is refused: the call that answers so is made again.

mod able;
mod written;
