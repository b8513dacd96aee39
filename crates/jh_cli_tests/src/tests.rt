//! What is asked of tests of a database: by which arguments, and from the arguments to the output. The settings stand in a file, since
//! what is read is what the adapter replies.

use crate::answers::first_wrong as first_wrong_answer;
use crate::rows::{Texts, first_wrong};
use jh_arguments::{parse, test_question_of, trial_question_of};
use std::alloc::Global;
use std::fs;
use std::io::Write;

/// What these arguments ask of a test, and which candidates they name, on a line each; `None` where memory was refused, and where no
/// command is found in them.
pub(crate) fn asked_of_a_test_once(alloc: Global, arguments: &str) -> Option<Vec<u8>> {
    let mut text = Vec::new(alloc);
    let arguments: Vec<&str> = arguments.split(' ').collect(alloc).ok()?;
    let matches = parse(alloc, arguments.as_slice()).ok()?;
    let (_, options) = matches.subcommand()?;
    write!(&mut text, "{:?}\n", test_question_of(&matches)).ok()?;
    write!(&mut text, "{:?}\n", trial_question_of(options)).ok()?;
    Some(text)
}

#[test]
fn asks_for_tests(rt: HostRuntime) {
    let rows = r#"jeprun drive a.toml → Some(Conduct { path: "a.toml" })
None
§ jeprun search --drive a.toml → Some(Try { path: "a.toml", candidates: TrialQuestion { from: 0, runs: 10000, faults: 8, palette: Some(Palette { cut: true, slow: true, loss: true, fix: true, pause: true, kill: true, bump: true }) } })
Some(TrialQuestion { from: 0, runs: 10000, faults: 8, palette: Some(Palette { cut: true, slow: true, loss: true, fix: true, pause: true, kill: true, bump: true }) })
§ jeprun search --from 7 --runs 5 --drive a.toml --faults 0 --palette x --threads 3 → Some(Try { path: "a.toml", candidates: TrialQuestion { from: 7, runs: 5, faults: 0, palette: None } })
Some(TrialQuestion { from: 7, runs: 5, faults: 0, palette: None })
§ jeprun shrink --drive a.toml --budget 20 → Some(Reduce { path: "a.toml", runs: 20 })
None
§ jeprun search --palette kill → None
Some(TrialQuestion { from: 0, runs: 10000, faults: 8, palette: Some(Palette { cut: false, slow: false, loss: false, fix: false, pause: false, kill: true, bump: false }) })
§ jeprun shrink → None
None
§ jeprun env → None
None
"#;
    assert_eq!(rt; first_wrong(&rt, rt.alloc(), Texts::Tests, rows), None);
}

/// One node and a register that holds 0; and a single read.
const SETTINGS: &str = "\
    start = '{:nodes [\"n1\"]}'\n\
    workload = \"register\"\n\
    initial = 0\n\
    clients = 1\n\
    ops = 1\n\
    generator = '[:once :read]'\n";

/// The read is of 0, which was there, or of 3, which nobody wrote. Candidate 1 is one of those that withdraw nothing before the end.
#[test]
fn conducts_tries_and_reduces_tests(rt: HostRuntime) {
    let rows = r#"jeprun drive test.toml
{:type :ok, :process 0, :f :read, :value 0, :time 7}
→ 0
{:index 0, :time 0, :type :invoke, :process 0, :f :read, :value nil, :node "n1"}
:end
{:index 0, :time 0, :type :invoke, :process 0, :f :read, :value nil, :node "n1"}
{:index 1, :time 7, :type :ok, :process 0, :f :read, :value 0}
:active []
{:nodes ["n1"], :cut [], :slow [], :loss [], :down [], :clock []}
{:valid? true, :order [0]}
§jeprun search --drive test.toml --from 1 --runs 1 --faults 0
:ready
{:type :ok, :process 0, :f :read, :value 3, :time 7}
→ 1
{:type :test, :number 1, :seed 1}
{:index 0, :time 0, :type :invoke, :process 0, :f :read, :value nil, :node "n1"}
:end
{:index 0, :time 0, :type :invoke, :process 0, :f :read, :value nil, :node "n1"}
{:index 1, :time 7, :type :ok, :process 0, :f :read, :value 3}
:active []
{:nodes ["n1"], :cut [], :slow [], :loss [], :down [], :clock []}
{:valid? false}
:found
clients = 1
generator = "[:once :read]"
initial = 0
ops = 1
schedule = []
seed = 1
start = '{:nodes ["n1"]}'
workload = "register"
§jeprun shrink --drive test.toml
:ready
{:type :ok, :process 0, :f :read, :value 3, :time 7}
:ready
{:type :ok, :process 0, :f :read, :value 3, :time 7}
→ 1
{:type :test, :number 0, :seed 0}
{:index 0, :time 0, :type :invoke, :process 0, :f :read, :value nil, :node "n1"}
:end
{:type :test, :number 1, :seed 0}
{:index 0, :time 0, :type :invoke, :process 0, :f :read, :value nil, :node "n1"}
:end
{:index 0, :time 0, :type :invoke, :process 0, :f :read, :value nil, :node "n1"}
{:index 1, :time 7, :type :ok, :process 0, :f :read, :value 3}
:active []
{:nodes ["n1"], :cut [], :slow [], :loss [], :down [], :clock []}
{:valid? false}
:minimal
clients = 1
generator = "[:once :read]"
initial = 0
ops = 1
schedule = []
seed = 0
start = '{:nodes ["n1"]}'
workload = "register"
"#;
    assert!(rt; fs::write(&rt, "test.toml", SETTINGS.as_bytes()).is_ok());
    assert_eq!(rt; first_wrong_answer(&rt, rows), None);
}
