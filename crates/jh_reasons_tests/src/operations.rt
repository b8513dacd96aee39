//! Where elements, operations and replies stand.

use crate::rows::judge_all;
use std::rt::HostRuntime;
use std::test::Fail;

const ROWS: &str = r#"
element 1 |  {:nodes ["n1"]} => element 1 begins at line 1, column 2;
element 2 | {:nodes ["n1"]}¶; a comment¶[:undo] => element 2 begins at line 3, column 1;
element 0 | 1 =>
element 3 | 1 ) 2 =>
operation 1 | {:a 1}¶{:b 2} => operation 1 begins at line 2, column 1;
operation 1 | [{:a 1}¶  {:b 2}] => operation 1 begins at line 2, column 3;
operation 0 | [{:a 1}] {:b 2} => operation 0 begins at line 1, column 1;
operation 1 | #history [#op {:a 1} #op {:b 2}] => operation 1 begins at line 1, column 22;
operation 0 | :step¶:end¶{:a 1}¶:active [] => operation 0 begins at line 3, column 1;
operation 0 read write cas | {:type :invoke, :process 0, :f :add, :value 1} => operation 0 begins at line 1, column 1; the functions of the workload: read write cas;
operation 0 read write cas | {:type :invoke, :process 0, :f :read, :value 1} => operation 0 begins at line 1, column 1;
operation 0 add read | {:type :info, :process :nemesis, :f :kill, :value 1} => operation 0 begins at line 1, column 1;
reply 2 | 1¶{:type :bad}¶2 => reply 2 was: {:type :bad};
reply 4 | 1¶2 =>
reply 0 | 1 =>
"#;

#[test]
fn places_are_shown(rt: HostRuntime) -> Result<(), Fail> {
    judge_all(rt.alloc(), ROWS)
}
