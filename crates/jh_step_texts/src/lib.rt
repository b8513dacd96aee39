//! The texts of faults and of the steps that begin and withdraw them, as EDN values: read and
//! written. Cuts that are named by a grudge are made here, so that what is below knows neither
//! grudges nor shuffles.
#![tactic(auto)]

mod fault_writing;
mod faults;
mod kinds;
mod laws;
mod named;
mod ordering;
mod spelling;
mod steps;
mod writing;

pub use fault_writing::value_of_fault;
pub use kinds::{FAULT_KINDS, FaultKind};
pub use laws::{all_kinds, named_faults_are_grudges, order_changes_no_fault};
pub use named::ring_order;
pub use ordering::step_in_order;
pub use steps::{StepTextError, step_of_value};
pub use writing::value_of_step;
