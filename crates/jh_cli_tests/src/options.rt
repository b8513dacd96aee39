//! The options that say something to one checker, from the arguments to the output: taken, misplaced, missing, and accounts that
//! are none. What is expected follows from the definitions.

use crate::answers::first_wrong;

#[test]
fn options_of_a_judgement_are_taken(rt: HostRuntime) {
    let rows = r#"jeprun check --workload bank --accounts [0,1] --total 10
{:type :ok, :process 0, :f :read, :value {0 3, 1 7}}
→ 0
{:valid? true, :reads 1, :errors {}}
§jeprun check --workload bank --accounts (:a,"b") --total=-2 --negative-balances
{:type :ok, :process 0, :f :read, :value {:a -3, "b" 1}}
→ 0
{:valid? true, :reads 1, :errors {}}
§jeprun check --workload set-full
{:type :invoke, :process 0, :f :add, :value 1} {:type :ok, :process 0, :f :add, :value 1}
{:type :invoke, :process 0, :f :read} {:type :ok, :process 0, :f :read, :value []}
{:type :invoke, :process 0, :f :read} {:type :ok, :process 0, :f :read, :value [1]}
→ 0
{:valid? true, :attempted 1, :stable 1, :lost [], :never-read [], :stale [[1 nil]], :duplicated {}}
§jeprun check --workload set-full --linearizable
{:type :invoke, :process 0, :f :add, :value 1} {:type :ok, :process 0, :f :add, :value 1}
{:type :invoke, :process 0, :f :read} {:type :ok, :process 0, :f :read, :value []}
{:type :invoke, :process 0, :f :read} {:type :ok, :process 0, :f :read, :value [1]}
→ 1
{:valid? false, :attempted 1, :stable 1, :lost [], :never-read [], :stale [[1 nil]], :duplicated {}}
§jeprun check --workload mutex
{:type :invoke, :process 0, :f :release, :value nil} {:type :ok, :process 0, :f :release, :value nil}
→ 1
{:valid? false}
§jeprun check --workload mutex --locked
{:type :invoke, :process 0, :f :release, :value nil} {:type :ok, :process 0, :f :release, :value nil}
→ 0
{:valid? true, :order [0]}
"#;
    assert_eq!(rt; first_wrong(&rt, rows), None);
}

/// The history is not looked at.
#[test]
fn options_of_a_judgement_are_refused(rt: HostRuntime) {
    let rows = r#"jeprun check --workload set --accounts [0]
{
→ 3 --accounts: only for bank
§jeprun check --workload register --total 1
{
→ 3 --total: only for bank
§jeprun check --workload queue --negative-balances
{
→ 3 --negative-balances: only for bank
§jeprun check --workload set --linearizable
{
→ 3 --linearizable: only for set-full
§jeprun check --workload register --locked
{
→ 3 --locked: only for mutex
§jeprun timeline --workload mutex --linearizable
{
→ 3 --linearizable: only for set-full
§jeprun check --workload bank --total 1
{
→ 3 --accounts: needed for bank
§jeprun check --workload bank --accounts []
{
→ 3 --total: needed for bank
§jeprun timeline --workload bank
{
→ 3 --accounts: needed for bank
"#;
    assert_eq!(rt; first_wrong(&rt, rows), None);
}

/// They are looked at before all else, also where nothing is judged.
#[test]
fn accounts_are_a_vector_or_a_list(rt: HostRuntime) {
    let rows = r#"jeprun check --workload bank --total 1 --accounts #{0}
{
→ 3 --accounts: no vector or list of values
§jeprun check --workload bank --total 1 --accounts [0][1]
{
→ 3 --accounts: no vector or list of values
§jeprun check --workload bank --total 1 --accounts [0
{
→ 3 --accounts: no vector or list of values
§jeprun check --workload bank --total 1 --accounts ,
{
→ 3 --accounts: no vector or list of values
§jeprun check --workload set --initial 1 --accounts {}
{
→ 3 --accounts: no vector or list of values
§jeprun timeline --accounts 0
{
→ 3 --accounts: no vector or list of values
"#;
    assert_eq!(rt; first_wrong(&rt, rows), None);
}
