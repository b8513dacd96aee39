//! Worked examples of the command `env`: an environment and steps.

use crate::rows::{Texts, first_wrong, is_answer};

#[test]
fn writes_reports(rt: HostRuntime) {
    let rows = r#"; a calm environment
{:nodes ["n1" "n2"]} → 0
:active []
{:nodes ["n1" "n2"], :cut [], :slow [], :loss [], :down [], :clock []}
§ ; a shared cut, the first withdrawn
{:nodes ["n1" "n2"]} [:begin 1 [:cut [["n2" "n1"]]]] [:begin 2 [:cut [["n2" "n1"]]]] [:withdraw 1] → 0
:ok
:ok
:ok
:active [2]
{:nodes ["n1" "n2"], :cut [["n2" "n1"]], :slow [], :loss [], :down [], :clock []}
§ ; a shared cut, both withdrawn
{:nodes ["n1" "n2"]} [:begin 1 [:cut [["n2" "n1"]]]] [:begin 2 [:cut [["n2" "n1"]]]] [:withdraw 1] [:withdraw 2] → 0
:ok
:ok
:ok
:ok
:active []
{:nodes ["n1" "n2"], :cut [], :slow [], :loss [], :down [], :clock []}
§ ; withdrawing keeps the starting cut
{:nodes ["n1" "n2"], :cut [["n2" "n1"]]} [:begin 1 [:cut [["n2" "n1"] ["n1" "n2"]]]] [:withdraw 1] → 0
:ok
:ok
:active []
{:nodes ["n1" "n2"], :cut [["n2" "n1"]], :slow [], :loss [], :down [], :clock []}
§ ; refused steps
{:nodes ["n1" "n2"]} [:withdraw 9] [:begin 9 [:cut []]] [:begin 9 [:cut []]] → 0
:not-active
:ok
:id-taken
:active [9]
{:nodes ["n1" "n2"], :cut [], :slow [], :loss [], :down [], :clock []}
§ ; an id used again, the greatest and the least
{:nodes ["n1"]} [:begin 4294967295 [:cut []]] [:withdraw 4294967295] [:begin 4294967295 [:cut []]] [:begin 0 [:cut []]] → 0
:ok
:ok
:ok
:ok
:active [4294967295 0]
{:nodes ["n1"], :cut [], :slow [], :loss [], :down [], :clock []}
§ ; a start with every kind of cell
{:clock [["n2" -5]], :down [["n1" :paused] ["n3" :killed]], :loss [["n3" "n1" 20]], :slow [["n1" "n2" 100]], :nodes ["n1" "n2" "n3"]} → 0
:active []
{:nodes ["n1" "n2" "n3"], :cut [], :slow [["n1" "n2" 100]], :loss [["n3" "n1" 20]], :down [["n1" :paused] ["n3" :killed]], :clock [["n2" -5]]}
§ ; amounts of zero, and links by source and then by destination
{:nodes ["n1" "n2" "n3"] :slow [["n1" "n2" 0]] :cut [["n3" "n1"] ["n1" "n3"] ["n1" "n2"]]} → 0
:active []
{:nodes ["n1" "n2" "n3"], :cut [["n1" "n2"] ["n1" "n3"] ["n3" "n1"]], :slow [], :loss [], :down [], :clock []}
§ ; the last fix counts, and slow links add to it
{:nodes ["n1" "n2"], :slow [["n1" "n2" 100]]} [:begin 1 [:fix 300 [["n1" "n2"]]]] [:begin 2 [:slow 50 [["n1" "n2"]]]] [:begin 3 [:fix 20 [["n1" "n2"]]]] → 0
:ok
:ok
:ok
:active [1 2 3]
{:nodes ["n1" "n2"], :cut [], :slow [["n1" "n2" 70]], :loss [], :down [], :clock []}
§ ; an earlier fix withdrawn
{:nodes ["n1" "n2"], :slow [["n1" "n2" 100]]} [:begin 1 [:fix 300 [["n1" "n2"]]]] [:begin 2 [:slow 50 [["n1" "n2"]]]] [:begin 3 [:fix 20 [["n1" "n2"]]]] [:withdraw 1] → 0
:ok
:ok
:ok
:ok
:active [2 3]
{:nodes ["n1" "n2"], :cut [], :slow [["n1" "n2" 70]], :loss [], :down [], :clock []}
§ ; no fix left
{:nodes ["n1" "n2"], :slow [["n1" "n2" 100]]} [:begin 1 [:fix 300 [["n1" "n2"]]]] [:begin 2 [:slow 50 [["n1" "n2"]]]] [:begin 3 [:fix 20 [["n1" "n2"]]]] [:withdraw 1] [:withdraw 3] → 0
:ok
:ok
:ok
:ok
:ok
:active [2]
{:nodes ["n1" "n2"], :cut [], :slow [["n1" "n2" 150]], :loss [], :down [], :clock []}
§ ; undone withdrawals of fixes put each back at its place
{:nodes ["n1" "n2"], :slow [["n1" "n2" 100]]} [:begin 1 [:fix 300 [["n1" "n2"]]]] [:begin 2 [:slow 50 [["n1" "n2"]]]] [:begin 3 [:fix 20 [["n1" "n2"]]]] [:withdraw 1] [:withdraw 3] [:undo] [:undo] → 0
:ok
:ok
:ok
:ok
:ok
:ok
:ok
:active [1 2 3]
{:nodes ["n1" "n2"], :cut [], :slow [["n1" "n2" 70]], :loss [], :down [], :clock []}
§ ; the fix before the last one counts again
{:nodes ["n1" "n2"], :slow [["n1" "n2" 100]]} [:begin 1 [:fix 300 [["n1" "n2"]]]] [:begin 2 [:slow 50 [["n1" "n2"]]]] [:begin 3 [:fix 20 [["n1" "n2"]]]] [:withdraw 1] [:withdraw 3] [:undo] [:undo] [:withdraw 3] → 0
:ok
:ok
:ok
:ok
:ok
:ok
:ok
:ok
:active [1 2]
{:nodes ["n1" "n2"], :cut [], :slow [["n1" "n2" 350]], :loss [], :down [], :clock []}
§ ; a fix of no delay
{:nodes ["n1" "n2"], :slow [["n1" "n2" 100]]} [:begin 1 [:fix 0 [["n1" "n2"]]]] → 0
:ok
:active [1]
{:nodes ["n1" "n2"], :cut [], :slow [], :loss [], :down [], :clock []}
§ ; 64 nodes
{:nodes ["1" "2" "3" "4" "5" "6" "7" "8" "9" "10" "11" "12" "13" "14" "15" "16" "17" "18" "19" "20" "21" "22" "23" "24" "25" "26" "27" "28" "29" "30" "31" "32" "33" "34" "35" "36" "37" "38" "39" "40" "41" "42" "43" "44" "45" "46" "47" "48" "49" "50" "51" "52" "53" "54" "55" "56" "57" "58" "59" "60" "61" "62" "63" "64"]} [:begin 1 [:cut [["64" "1"]]]] → 0
:ok
:active [1]
{:nodes ["1" "2" "3" "4" "5" "6" "7" "8" "9" "10" "11" "12" "13" "14" "15" "16" "17" "18" "19" "20" "21" "22" "23" "24" "25" "26" "27" "28" "29" "30" "31" "32" "33" "34" "35" "36" "37" "38" "39" "40" "41" "42" "43" "44" "45" "46" "47" "48" "49" "50" "51" "52" "53" "54" "55" "56" "57" "58" "59" "60" "61" "62" "63" "64"], :cut [["64" "1"]], :slow [], :loss [], :down [], :clock []}
§ ; withdraw-all keeps the starting cut
{:nodes ["n1" "n2"], :cut [["n2" "n1"]]} [:begin 1 [:cut [["n2" "n1"]]]] [:withdraw-all] → 0
:ok
:ok
:active []
{:nodes ["n1" "n2"], :cut [["n2" "n1"]], :slow [], :loss [], :down [], :clock []}
§ ; loss is the greatest level left
{:nodes ["n1" "n2"]} [:begin 1 [:loss 4 [["n1" "n2"]]]] [:begin 2 [:loss 7 [["n1" "n2"]]]] [:begin 3 [:loss 7 [["n1" "n2"]]]] [:withdraw 2] → 0
:ok
:ok
:ok
:ok
:active [1 3]
{:nodes ["n1" "n2"], :cut [], :slow [], :loss [["n1" "n2" 7]], :down [], :clock []}
§ ; and less once that is withdrawn
{:nodes ["n1" "n2"]} [:begin 1 [:loss 4 [["n1" "n2"]]]] [:begin 2 [:loss 7 [["n1" "n2"]]]] [:begin 3 [:loss 7 [["n1" "n2"]]]] [:withdraw 2] [:withdraw 3] → 0
:ok
:ok
:ok
:ok
:ok
:active [1]
{:nodes ["n1" "n2"], :cut [], :slow [], :loss [["n1" "n2" 4]], :down [], :clock []}
§ ; undo puts a withdrawn kill back in its place
{:nodes ["n1" "n2"]} [:begin 1 [:pause ["n1"]]] [:begin 2 [:kill ["n2"]]] [:begin 3 [:bump {"n1" 500}]] [:withdraw 2] [:undo] → 0
:ok
:ok
:ok
:ok
:ok
:active [1 2 3]
{:nodes ["n1" "n2"], :cut [], :slow [], :loss [], :down [["n1" :paused] ["n2" :killed]], :clock [["n1" 500]]}
§ ; an id used again, and two undos
{:nodes ["n1" "n2"]} [:begin 1 [:pause ["n1"]]] [:withdraw 1] [:begin 1 [:kill ["n1"]]] [:undo] [:undo] → 0
:ok
:ok
:ok
:ok
:ok
:active [1]
{:nodes ["n1" "n2"], :cut [], :slow [], :loss [], :down [["n1" :paused]], :clock []}
§ ; a new step ends the future
{:nodes ["n1" "n2"]} [:begin 1 [:pause ["n1"]]] [:undo] [:begin 2 [:pause ["n2"]]] [:redo] → 0
:ok
:ok
:ok
:nothing-to-redo
:active [2]
{:nodes ["n1" "n2"], :cut [], :slow [], :loss [], :down [["n2" :paused]], :clock []}
§ ; a refused step does not
{:nodes ["n1" "n2"]} [:begin 1 [:pause ["n1"]]] [:undo] [:withdraw 9] [:redo] → 0
:ok
:ok
:not-active
:ok
:active [1]
{:nodes ["n1" "n2"], :cut [], :slow [], :loss [], :down [["n1" :paused]], :clock []}
§ ; a kill over a pause
{:nodes ["n1" "n2"]} [:begin 1 [:pause ["n1"]]] [:begin 2 [:kill ["n1"]]] → 0
:ok
:ok
:active [1 2]
{:nodes ["n1" "n2"], :cut [], :slow [], :loss [], :down [["n1" :killed]], :clock []}
§ ; and the pause is left
{:nodes ["n1" "n2"]} [:begin 1 [:pause ["n1"]]] [:begin 2 [:kill ["n1"]]] [:withdraw 2] → 0
:ok
:ok
:ok
:active [1]
{:nodes ["n1" "n2"], :cut [], :slow [], :loss [], :down [["n1" :paused]], :clock []}
§ ; steps with nothing to do
{:nodes ["n1" "n2"]} [:undo] [:redo] [:withdraw-all] [:withdraw 9] [:begin 9 [:cut []]] [:begin 9 [:cut []]] → 0
:nothing-to-undo
:nothing-to-redo
:nothing-active
:not-active
:ok
:id-taken
:active [9]
{:nodes ["n1" "n2"], :cut [], :slow [], :loss [], :down [], :clock []}
§ ; delays and offsets are sums
{:nodes ["n1" "n2"], :slow [["n1" "n2" 100]], :clock [["n2" -5]]} [:begin 1 [:slow 250 [["n1" "n2"] ["n1" "n2"]]]] [:begin 2 [:slow 60000 [["n1" "n2"]]]] [:begin 3 [:bump {"n2" 5}]] [:withdraw 2] → 0
:ok
:ok
:ok
:ok
:active [1 3]
{:nodes ["n1" "n2"], :cut [], :slow [["n1" "n2" 350]], :loss [], :down [], :clock []}
§ ; and an undo adds again
{:nodes ["n1" "n2"], :slow [["n1" "n2" 100]], :clock [["n2" -5]]} [:begin 1 [:slow 250 [["n1" "n2"] ["n1" "n2"]]]] [:begin 2 [:slow 60000 [["n1" "n2"]]]] [:begin 3 [:bump {"n2" 5}]] [:withdraw 2] [:undo] → 0
:ok
:ok
:ok
:ok
:ok
:active [1 2 3]
{:nodes ["n1" "n2"], :cut [], :slow [["n1" "n2" 60350]], :loss [], :down [], :clock []}
§ ; undo and redo of a withdrawal of all
{:nodes ["n1" "n2"]} [:begin 1 [:pause ["n1"]]] [:begin 2 [:cut [["n2" "n1"]]]] [:withdraw-all] [:undo] [:redo] [:undo] → 0
:ok
:ok
:ok
:ok
:ok
:ok
:active [1 2]
{:nodes ["n1" "n2"], :cut [["n2" "n1"]], :slow [], :loss [], :down [["n1" :paused]], :clock []}
§ ; a step that is left out, and lists for vectors
{:nodes ("n1" "n2")} #_[:undo] (:redo) ; no more → 0
:nothing-to-redo
:active []
{:nodes ["n1" "n2"], :cut [], :slow [], :loss [], :down [], :clock []}
§ ; amounts at their borders
{:nodes ["n1" "n2"]} [:begin 1 [:slow 1 [["n1" "n2"]]]] [:begin 2 [:slow 60000 [["n1" "n2"]]]] [:begin 3 [:loss 20 [["n2" "n1"]]]] [:begin 4 [:bump {"n1" 1000000000, "n2" -1000000000}]] → 0
:ok
:ok
:ok
:ok
:active [1 2 3 4]
{:nodes ["n1" "n2"], :cut [], :slow [["n1" "n2" 60001]], :loss [["n2" "n1" 20]], :down [], :clock [["n1" 1000000000] ["n2" -1000000000]]}
"#;
    let texts = Texts::Inputs("jeprun env");
    assert_eq!(rt; first_wrong(&rt, rt.alloc(), texts, rows), None);
}

#[test]
fn names_faults_by_grudges(rt: HostRuntime) {
    let rows = r#"; the two sides of a bridge of five nodes
{:nodes ["n1" "n2" "n3" "n4" "n5"]} [:begin 1 [:bridge]] → 0
:ok
:active [1]
{:nodes ["n1" "n2" "n3" "n4" "n5"], :cut [["n1" "n4"] ["n1" "n5"] ["n2" "n4"] ["n2" "n5"] ["n4" "n1"] ["n4" "n2"] ["n5" "n1"] ["n5" "n2"]], :slow [], :loss [], :down [], :clock []}
§ ; a ring of five nodes
{:nodes ["n1" "n2" "n3" "n4" "n5"]} [:begin 1 [:ring]] → 0
:ok
:active [1]
{:nodes ["n1" "n2" "n3" "n4" "n5"], :cut [["n1" "n2"] ["n1" "n3"] ["n2" "n3"] ["n2" "n4"] ["n3" "n4"] ["n3" "n5"] ["n4" "n1"] ["n4" "n5"] ["n5" "n1"] ["n5" "n2"]], :slow [], :loss [], :down [], :clock []}
§ ; a ring of four nodes
{:nodes ["n1" "n2" "n3" "n4"]} [:begin 1 [:ring]] → 0
:ok
:active [1]
{:nodes ["n1" "n2" "n3" "n4"], :cut [["n1" "n2"] ["n2" "n3"] ["n3" "n4"] ["n4" "n1"]], :slow [], :loss [], :down [], :clock []}
§ ; a ring of two nodes cuts nothing
{:nodes ["n1" "n2"]} [:begin 1 [:ring]] → 0
:ok
:active [1]
{:nodes ["n1" "n2"], :cut [], :slow [], :loss [], :down [], :clock []}
§ ; one node split off
{:nodes ["n1" "n2" "n3"]} [:begin 1 [:split-one "n2"]] → 0
:ok
:active [1]
{:nodes ["n1" "n2" "n3"], :cut [["n1" "n2"] ["n2" "n1"] ["n2" "n3"] ["n3" "n2"]], :slow [], :loss [], :down [], :clock []}
§ ; a bridge of one node cuts nothing
{:nodes ["n1"]} [:begin 1 [:bridge]] → 0
:ok
:active [1]
{:nodes ["n1"], :cut [], :slow [], :loss [], :down [], :clock []}
§ ; halves of three nodes, the first of them the smaller
{:nodes ["n1" "n2" "n3"]} [:begin 1 [:halves]] → 0
:ok
:active [1]
{:nodes ["n1" "n2" "n3"], :cut [["n1" "n2"] ["n1" "n3"] ["n2" "n1"] ["n3" "n1"]], :slow [], :loss [], :down [], :clock []}
§ ; a ring in the order of a seed, begun twice
{:nodes ["n1" "n2" "n3" "n4" "n5"]} [:begin 1 [:ring 7]] [:begin 2 [:ring 7]] [:withdraw 1] → 0
:ok
:ok
:ok
:active [2]
{:nodes ["n1" "n2" "n3" "n4" "n5"], :cut [["n1" "n4"] ["n1" "n5"] ["n2" "n1"] ["n2" "n3"] ["n3" "n1"] ["n3" "n5"] ["n4" "n2"] ["n4" "n3"] ["n5" "n2"] ["n5" "n4"]], :slow [], :loss [], :down [], :clock []}
§ {:nodes ["n1" "n2"]} [:begin 1 [:split-one "n9"]] → 3 element 2: unknown node
§ {:nodes ["n1" "n2"]} [:begin 1 [:ring -1]] → 3 element 2: bad amount
§ {:nodes ["n1" "n2"]} [:begin 1 [:ring "7"]] → 3 element 2: bad step
"#;
    let texts = Texts::Inputs("jeprun env");
    assert_eq!(rt; first_wrong(&rt, rt.alloc(), texts, rows), None);
}

#[test]
fn refuses_inputs(rt: HostRuntime) {
    let rows = r#"{:nodes ["n1" → 3 line 1: unexpected end
§ ; a comment → 3 environment missing
§ nil → 3 environment: not a map
§ #t {:nodes ["n1"]} → 3 environment: not a map
§ {:nodes ["n1"]} nil → 3 element 2: bad step
§ {:nodes ["n1"]} #t [:undo] → 3 element 2: bad step
§ 1.5 → 3 line 1: float unsupported
§ 9223372036854775808 → 3 line 1: integer out of range
§ "\q" → 3 line 1: bad escape
§ {:nodes ["n1"] :cut} → 3 line 1: odd map
§ {:nodes ["n1"] :nodes ["n1"]} → 3 line 1: duplicate key
§ [[[[[[[[[[[[[[[[[[[[[[[[[[[[[[[[[[[[[[[[[[[[[[[[[[[[[[[[[[[[[[[[[ → 3 line 1: too deep
§ [] → 3 environment: not a map
§ {:nodes ["n1"] :links []} → 3 environment: unknown key
§ {"nodes" ["n1"]} → 3 environment: unknown key
§ {} → 3 environment: nodes missing
§ {:nodes [:n1]} → 3 environment: bad entry
§ {:nodes [] :cut [["n1"]]} → 3 environment: bad entry
§ {:nodes []} → 3 environment: no nodes
§ {:nodes ["1" "2" "3" "4" "5" "6" "7" "8" "9" "10" "11" "12" "13" "14" "15" "16" "17" "18" "19" "20" "21" "22" "23" "24" "25" "26" "27" "28" "29" "30" "31" "32" "33" "34" "35" "36" "37" "38" "39" "40" "41" "42" "43" "44" "45" "46" "47" "48" "49" "50" "51" "52" "53" "54" "55" "56" "57" "58" "59" "60" "61" "62" "63" "64" "65"]} → 3 environment: too many nodes
§ {:nodes ["n 1"]} → 3 environment: bad name
§ {:nodes ["n1" "n1"]} → 3 environment: duplicate name
§ {:nodes ["n1"] :down [["n2" :paused]]} → 3 environment: unknown node
§ {:nodes ["n1"] :cut [["n1" "n1"]]} → 3 environment: self link
§ {:nodes ["n1" "n2"] :loss [["n1" "n2" 21]]} → 3 environment: bad amount
§ {:nodes ["n1" "n2"] :slow [["n1" "n2" -1]]} → 3 environment: bad amount
§ {:nodes ["n1" "n2"] :slow [["n1" "n2" 0] ["n1" "n2" 1]]} → 3 environment: repeated entry
§ {:nodes ["n1"]} [] → 3 element 2: bad step
§ {:nodes ["n1"]} [:undo 1] → 3 element 2: bad step
§ {:nodes ["n1"]} [:withdraw 1] [:begin 1 [:pause "n1"]] → 3 element 3: bad step
§ {:nodes ["n1"]} [:begin 1 [:cut [["n1"]]]] → 3 element 2: bad step
§ {:nodes ["n1"]} [:withdraw "1"] → 3 element 2: bad step
§ {:nodes ["n1"]} [:withdraw 4294967296] → 3 element 2: bad id
§ {:nodes ["n1"]} [:begin -1 [:cut []]] → 3 element 2: bad id
§ {:nodes ["n1"]} [:begin -1 [:frob]] → 3 element 2: bad step
§ {:nodes ["n1"]} [:begin 1 [:cut [["n1" "n1"] ["n1" "n 2"]]]] → 3 element 2: unknown node
§ {:nodes ["n1" "n2"]} [:begin 1 [:cut [["n1" "n1"]]]] → 3 element 2: self link
§ {:nodes ["n1" "n1"]} [:frob] → 3 environment: duplicate name
§ {:nodes ["n1" "n2"]} [:undo] [:begin 1 [:slow 0 [["n1" "n2"]]]] → 3 element 3: bad amount
§ {:nodes ["n1" "n2"]} [:undo] [:begin 1 [:slow 60001 []]] → 3 element 3: bad amount
§ {:nodes ["n1" "n2"]} [:undo] [:begin 1 [:slow -1 []]] → 3 element 3: bad amount
§ {:nodes ["n1" "n2"]} [:begin 1 [:fix 60001 [["n1" "n2"]]]] → 3 element 2: bad amount
§ {:nodes ["n1" "n2"]} [:begin 1 [:fix -1 []]] → 3 element 2: bad amount
§ {:nodes ["n1" "n2"]} [:begin 1 [:fix 1 [["n1" "n1"]]]] → 3 element 2: self link
§ {:nodes ["n1" "n2"]} [:begin 1 [:fix 1 [["n1" "n3"]]]] → 3 element 2: unknown node
§ {:nodes ["n1" "n2"]} [:begin 1 [:fix [["n1" "n2"]]]] → 3 element 2: bad step
§ {:nodes ["n1" "n2"]} [:undo] [:begin 1 [:slow 1 [["n1" "n3"]]]] → 3 element 3: unknown node
§ {:nodes ["n1" "n2"]} [:undo] [:begin 1 [:slow 0 [["n2" "n2"]]]] → 3 element 3: self link
§ {:nodes ["n1" "n2"]} [:undo] [:begin 1 [:slow [["n1" "n2"]]]] → 3 element 3: bad step
§ {:nodes ["n1" "n2"]} [:undo] [:begin 1 [:loss 0 []]] → 3 element 3: bad amount
§ {:nodes ["n1" "n2"]} [:undo] [:begin 1 [:loss 21 [["n1" "n2"]]]] → 3 element 3: bad amount
§ {:nodes ["n1" "n2"]} [:undo] [:begin 1 [:loss 21 [["n1" "n1"]]]] → 3 element 3: self link
§ {:nodes ["n1" "n2"]} [:undo] [:begin 1 [:loss 1 {}]] → 3 element 3: bad step
§ {:nodes ["n1" "n2"]} [:undo] [:begin 1 [:pause ["n1" "n3"]]] → 3 element 3: unknown node
§ {:nodes ["n1" "n2"]} [:undo] [:begin 1 [:pause ["n1" 2]]] → 3 element 3: bad step
§ {:nodes ["n1" "n2"]} [:undo] [:begin 1 [:kill ["n3"]]] → 3 element 3: unknown node
§ {:nodes ["n1" "n2"]} [:undo] [:begin 1 [:kill ["n1"] 1]] → 3 element 3: bad step
§ {:nodes ["n1" "n2"]} [:undo] [:begin 1 [:bump {"n1" 0}]] → 3 element 3: bad amount
§ {:nodes ["n1" "n2"]} [:undo] [:begin 1 [:bump {"n1" 1000000001}]] → 3 element 3: bad amount
§ {:nodes ["n1" "n2"]} [:undo] [:begin 1 [:bump {"n1" -1000000001}]] → 3 element 3: bad amount
§ {:nodes ["n1" "n2"]} [:undo] [:begin 1 [:bump {"n1" 0, "n3" 1}]] → 3 element 3: unknown node
§ {:nodes ["n1" "n2"]} [:undo] [:begin 1 [:bump {"n1" "n2"}]] → 3 element 3: bad step
§ {:nodes ["n1" "n2"]} [:undo] [:begin 1 [:bump {:n1 1}]] → 3 element 3: bad step
§ → 3 environment missing
§ {:nodes ["n1"]}

[:withdraw 01] → 3 line 3: bad token
"#;
    let texts = Texts::Inputs("jeprun env");
    assert_eq!(rt; first_wrong(&rt, rt.alloc(), texts, rows), None);
}

/// Inputs that no row can have: white space alone, and bytes that are no text.
#[test]
fn refuses_bytes(rt: HostRuntime) {
    assert!(rt;
        is_answer(
            &rt,
            rt.alloc(),
            "jeprun env",
            b" ,\n",
            b"3 environment missing\n"
        )
    );
    assert!(rt; is_answer(&rt, rt.alloc(), "jeprun env", b"\xff", b"3 not UTF-8\n"));
}

/// The first error of a text is reported with its line, whichever command reads it.
#[test]
fn names_the_line_of_an_error(rt: HostRuntime) {
    let rows = r#"{:nodes ["n1"]}
[:undo → 3 line 2: unexpected end
§ {:nodes ["n1"]}
[:withdraw 01] 1.5 → 3 line 2: bad token
§ {:nodes ["n1"]}
; a float
1.5 [:withdraw 01] → 3 line 3: float unsupported
§ {:nodes ["n1"]}
[:withdraw 9223372036854775808] → 3 line 2: integer out of range
§ {:nodes ["n1"]} "a
\q" → 3 line 2: bad escape
§ {:nodes ["n1"]}

{:a} → 3 line 3: odd map
§ {:nodes ["n1"]}
{:a 1, :b 2,
:a 3} → 3 line 3: duplicate key
§ {:nodes ["n1"]}
[[[[[[[[[[[[[[[[[[[[[[[[[[[[[[[[[[[[[[[[[[[[[[[[[[[[[[[[[[[[[[[[[ → 3 line 2: too deep
"#;
    for arguments in ["jeprun env", "jeprun check --workload set"] {
        let wrong = first_wrong(&rt, rt.alloc(), Texts::Inputs(arguments), rows);
        assert_eq!(rt; wrong, None, "{arguments}");
    }
}
