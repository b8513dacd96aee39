//! Rows of histories with their bands, worked out by hand.
//!
//! Each test passes, too, where one allocation is refused: what answers so is asked again.

use crate::rows::{Drawn, judge_all};
use std::test::Fail;

/// A client's record counts too. One of two faults is withdrawn, and the other is active at the end.
#[test]
fn withdrawn_faults_end(rt: HostRuntime) -> Result<(), Fail> {
    let rows = "
        | ask 0 [:begin 1 [:cut [[\"n1\" \"n2\"]]]]; done 0 0; client; ask 1 [:withdraw 1]; done 1 0 => 1 4 1: cut n1 n2;
        | ask 0 [:begin 7 :a]; done 0 0; ask 1 [:begin 8 :b]; done 1 0; ask 2 [:withdraw 7]; done 2 0 => 1 5 7: a; 3 - 8: b;";
    judge_all(rt.alloc(), Drawn::Bands, rows)
}

/// An undo of a withdrawal begins a new band, and a redo ends it. All are withdrawn and brought back in the order of the
/// list; what is begun then ends what could be redone.
#[test]
fn undone_withdrawals_begin_again(rt: HostRuntime) -> Result<(), Fail> {
    let rows = "
        | ask 0 [:begin 1 :a]; done 0 0; ask 1 [:withdraw 1]; done 1 0; ask 2 [:undo]; done 2 0; ask 3 [:redo]; done 3 0 => 1 3 1: a; 5 7 1: a;
        | ask 0 [:begin 2 :a]; done 0 0; ask 1 [:begin 1 :b]; done 1 0; ask 2 [:withdraw-all]; done 2 0; ask 3 [:undo]; done 3 0; ask 4 [:begin 3 :c]; done 4 0; ask 5 [:redo]; done 5 0 => 1 5 2: a; 3 5 1: b; 7 - 2: a; 7 - 1: b; 9 - 3: c;";
    judge_all(rt.alloc(), Drawn::Bands, rows)
}

/// A refused step, an answer at another place, and one to nothing. What is no step, what the list does not allow, and
/// records of other nemeses, behind which a step is not answered.
#[test]
fn other_records_change_nothing(rt: HostRuntime) -> Result<(), Fail> {
    let rows = "
        | done 0 0; ask 0 [:begin 1 :a]; done 0 2; ask 1 [:begin 1 :b]; done 0 0; ask 2 [:begin 1 :c]; done 2 0; ask 3 [:undo]; done 3 6 => 6 - 1: c;
        | ask 0 [:heal]; done 0 0; ask 1 [:undo]; done 1 0; other :f :heal; ask 2 [:begin 1 :a]; other :f :start-partition, :value :majority; done 2 0; ask 3 (:begin 1 :b); done 3 0; ask 4 [:begin 1 :c]; done 4 0; ask 5 [:withdraw 2]; done 5 0; ask 6 [:undo]; done 6 0 => 9 15 1: b;";
    judge_all(rt.alloc(), Drawn::Bands, rows)
}

/// The steps of the schedule, by place; what a record has comes first.
#[test]
fn scheduled_steps_have_bands(rt: HostRuntime) -> Result<(), Fail> {
    let rows = "
        [:begin 1 :a] [:withdraw-all] | ask 0; done 0 0; ask 1; done 1 0; ask 2; done 2 0 => 1 3 1: a;
        [:begin 1 :a] [:withdraw 1] | ask 0 [:begin 2 :b]; done 0 0; ask 1; done 1 0; ask 1 [:withdraw 2]; done 1 0 => 1 5 2: b;";
    judge_all(rt.alloc(), Drawn::Bands, rows)
}
