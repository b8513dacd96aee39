//! What each store does on each request. `worlds` says what a row of acts is.

use crate::simnode::rows::{TextKind, ask_all};
use std::test::Fail;

const ACTS: &str = r#"
; a set of two nodes: adds at both, and a read is ascending
{:start {:nodes ["n1" "n2"]}, :store :quorum, :workload :set}
[0 [:add 5]] [1 [:add -3]] [0 [:add 9]] [1 [:add 5]] [0 :read] [1 :read]
→ ok; ok; ok; ok; ok [-3, 5, 9]; ok [-3, 5, 9]
§ ; the same of the last writer's store and of the local one
{:start {:nodes ["n1" "n2"]}, :store :lww, :workload :set}
[0 [:add 5]] [1 [:add -3]] [0 [:add 9]] [1 [:add 5]] [0 :read] [1 :read]
→ ok; ok; ok; ok; ok [-3, 5, 9]; ok [-3, 5, 9]
§ {:start {:nodes ["n1" "n2"]}, :store :local, :workload :set}
[0 [:add 5]] [1 [:add -3]] [0 [:add 9]] [1 [:add 5]] [0 :read] [1 :read]
→ ok; ok; ok; ok; ok [5, 9]; ok [-3, 5]
§ ; a counter goes as far as 64 bits, up and down
{:start {:nodes ["n1"]}, :store :quorum, :workload :counter, :initial 4}
[0 :read] [0 [:add 9223372036854775807]] [0 [:add 1]] [0 :read] [0 [:add -9223372036854775808]] [0 [:add -9223372036854775808]] [0 :read]
→ ok 0; ok; fail; ok 9223372036854775807; ok; fail; ok -1
§ {:start {:nodes ["n1"]}, :store :lww, :workload :counter}
[0 [:add -9223372036854775808]] [0 [:add -1]] [0 :read]
→ ok; fail; ok -9223372036854775808
§ ; ids are given in turn
{:start {:nodes ["n1" "n2"]}, :store :quorum, :workload :ids}
[0 :generate] [1 :generate] [0 :generate] [0 :read]
→ ok 0; ok 1; ok 2; fail
§ {:start {:nodes ["n1" "n2"]}, :store :local, :workload :ids}
[0 :generate] [1 :generate] [0 :generate]
→ ok 0; ok 0; ok 1
§ ; a register that holds nothing
{:start {:nodes ["n1"]}, :store :local}
[0 :read] [0 [:cas 0 1]] [0 [:write 0]] [0 [:cas 0 1]] [0 [:cas 0 1]] [0 :read] [0 [:add 1]] [0 :generate]
→ ok nil; fail; ok; ok; fail; ok 1; fail; fail
§ ; a volatile replica is lost, and undoing the kill gives nothing back
{:start {:nodes ["n1"]}, :store :local, :volatile true, :initial 7}
[0 [:write 5]] [:begin 1 [:kill ["n1"]]] [0 :read] [:undo] [0 :read] [0 [:write 5]] [:redo] [:withdraw-all] [0 :read]
→ ok; Ok; fail; Ok; ok 7; ok; Ok; Ok; ok 7
§ ; where replicas aren't volatile, it isn't
{:start {:nodes ["n1"]}, :store :local, :initial 7}
[0 [:write 5]] [:begin 1 [:kill ["n1"]]] [0 :read] [:undo] [0 :read]
→ ok; Ok; fail; Ok; ok 5
§ ; a paused node may have done it, unless it only asks
{:start {:nodes ["n1" "n2" "n3"]}, :store :quorum, :initial 0}
[:begin 1 [:pause ["n1"]]] [0 :read] [0 [:write 4]] [0 [:add 4]] [1 :read] [1 [:write 6]] [:withdraw 1] [0 :read]
→ Ok; fail; info; fail; ok 0; ok; Ok; ok 6
§ ; messages are lost by the draw, on either way
{:start {:nodes ["n1" "n2" "n3"], :loss [["n1" "n2" 5] ["n3" "n1" 9]]}, :store :quorum, :initial 0}
[0 [:write 1] 4] [0 [:write 2] 5] [0 :read 8] [0 :read 9] [0 [:write 3] 20] [0 [:write 3] 39] [1 :read 0]
→ fail; ok; ok 2; ok 2; fail; ok; ok 3
§ ; a minority keeps what it has, and is told by the greatest version
{:start {:nodes ["n1" "n2" "n3"]}, :store :quorum, :initial 0}
[0 [:write 1]] [:begin 1 [:cut [["n3" "n1"] ["n3" "n2"]]]] [1 [:write 2]] [2 :read] [2 [:write 9]] [:withdraw-all] [:begin 2 [:cut [["n1" "n2"]]]] [2 :read]
→ ok; Ok; ok; fail; fail; Ok; Ok; ok 2
§ ; the greater clock wins, and of equal times the later node
{:start {:nodes ["n1" "n2"], :clock [["n1" 1]]}, :store :lww, :initial 0}
[0 [:write 1]] [1 [:write 2]] [0 :read] [1 :read]
→ ok; ok; ok 2; ok 2
§ {:start {:nodes ["n1" "n2"], :clock [["n1" 2]]}, :store :lww, :initial 0}
[0 [:write 1]] [1 [:write 2]] [0 :read] [1 :read]
→ ok; ok; ok 1; ok 1
"#;

#[test]
fn stores_keep_their_rules(rt: HostRuntime) -> Result<(), Fail> {
    ask_all(rt.alloc(), TextKind::Acts, ACTS)
}
