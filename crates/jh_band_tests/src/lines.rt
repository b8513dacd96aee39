//! Rows of histories with their lines, worked out by hand.
//!
//! Each test passes, too, where one allocation is refused: what answers so is asked again.

use crate::rows::{Drawn, judge_all};
use std::test::Fail;

/// Each of the five steps, done or refused. A client's record has no line, and counts.
#[test]
fn steps_stand_in_words(rt: HostRuntime) -> Result<(), Fail> {
    let rows = "
        | ask 0 [:begin 1 [:cut [[\"n1\" \"n2\"] [\"n2\" \"n1\"]]]]; done 0 0; client; ask 1 [:begin -2 [:slow [[\"n1\" \"n2\"]] 100]]; done 1 6 => 0 begin 1: cut n1 n2, n2 n1; 1 begin 1: cut n1 n2, n2 n1: done; 3 begin -2: slow n1 n2 100; 4 begin -2: slow n1 n2 100: refused, code 6;
        | ask 0 [:withdraw 12]; done 0 -1; ask 1 [:undo]; done 1 0; ask 2 [:redo]; client; done 2 0; ask 3 [:withdraw-all]; done 3 0 => 0 withdraw 12; 1 withdraw 12: refused, code -1; 2 undo; 3 undo: done; 4 redo; 6 redo: done; 7 withdraw all; 8 withdraw all: done;
        [:begin 1 :a] [:withdraw-all] | ask 1; done 1 0; ask 0; done 0 0; ask 0 [:undo]; done 0 0 => 0 withdraw all; 1 withdraw all: done; 2 begin 1: a; 3 begin 1: a: done; 4 undo; 5 undo: done;";
    judge_all(rt.alloc(), Drawn::Lines, rows)
}

/// A step that is not known or none of ours, an answer at another place, a second one, and one behind another nemesis. Without a
/// value a record has its function alone.
#[test]
fn other_records_have_their_function(rt: HostRuntime) -> Result<(), Fail> {
    let rows = "
        [:undo] | ask 1; done 1 0; ask 0 [:heal :all]; done 0 0; ask -1; done -1 0 => 0 step 1; 1 step [1 0]; 2 step 0; 3 step [0 0]; 4 step -1; 5 step [-1 0];
        | ask 0 [:undo]; done 1 0; ask 0 [:redo]; done 0 0; done 0 0 => 0 undo; 1 step [1 0]; 2 redo; 3 redo: done; 4 step [0 0];
        | ask 0 [:undo]; other :f :start-partition, :value :majority; done 0 0; other :f :heal; other :f \"go\", :value [nil] => 0 undo; 1 start-partition :majority; 2 step [0 0]; 3 heal; 4 \"go\" [nil];";
    judge_all(rt.alloc(), Drawn::Lines, rows)
}

/// Vectors and lists within others, and empty ones. What is neither a name nor a text stands as EDN, whatever it holds.
#[test]
fn faults_stand_in_words(rt: HostRuntime) -> Result<(), Fail> {
    let rows = "
        | ask 0 [:begin 1 [:a [[[\"n1\" \"n2\"] [\"n3\"]] [] nil] (:b \"c d\") ()]] => 0 begin 1: a n1 n2, n3, [] nil, b c d, ();
        | ask 0 [:begin 1 [{:a [\"b\"]} #{:c} true \\d -5 e #t :f]]; ask 1 [:begin 1 []]; ask 2 [:begin 1 [[[]]]] => 0 begin 1: {:a [\"b\"]} #{:c} true \\d -5 e #t :f; 1 begin 1: []; 2 begin 1: [];
        | ask 0 [:begin 1 \"n1: \\\"down\\\"\"]; ask 1 [:begin 1 [\"\" \"\" ]] => 0 begin 1: n1: \"down\"; 1 begin 1:  ;";
    judge_all(rt.alloc(), Drawn::Lines, rows)
}
