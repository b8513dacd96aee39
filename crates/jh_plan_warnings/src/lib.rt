//! What a plan says that was hardly meant: a run of it is as good as any, and may show less than one
//! expects. `specs/Warnings.antt` says what is warned of. A new warning is a case of `Warning`, of its
//! text, and of `warnings_of`, here and there.
#![tactic(auto)]

mod text;
mod warnings;

pub use warnings::{Warning, warnings_of};
