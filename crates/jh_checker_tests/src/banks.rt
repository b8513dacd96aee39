//! Banks: each read of all balances has the total. The bank of these rows has the accounts 0, 1, "c" and [2] and the total 100.

use crate::rows::{Judge, first_wrong, refusal};
use jh_bank::{Bank, BankResult, check_bank, write_bank};
use jh_edn::values_in_line;
use jh_ops::Op;
use std::alloc::Global;

/// The checker of a bank in which balances may be negative, or may not.
#[derive(Clone, Copy)]
pub(crate) struct Balances {
    pub(crate) may_be_negative: bool,
}

/// The bank. None: memory was refused.
fn bank_of(alloc: Global, may_be_negative: bool) -> Option<Bank> {
    let accounts = values_in_line(alloc, "1 \"c\" 0 (2)").ok()?;
    Bank::of(alloc, &accounts, 100, may_be_negative).ok()
}

/// The line of a result. None: memory was refused.
fn line_of(alloc: Global, found: &BankResult) -> Option<Vec<u8>> {
    let mut line = Vec::new(alloc);
    write_bank(found, &mut line).ok()?;
    Some(line)
}

impl Judge for Balances {
    fn said_of(&self, alloc: Global, history: &[Op]) -> Option<Vec<u8>> {
        let bank = bank_of(alloc, self.may_be_negative)?;
        match check_bank(alloc, history, &bank) {
            Ok(found) => line_of(alloc, &found),
            Err(error) => refusal(alloc, error),
        }
    }
}

/// An account that is missing is no error; sums go beyond 64 bits.
#[test]
fn reads_have_the_total(rt: HostRuntime) {
    let rows = r#"
{:type :ok, :process 0, :f :read, :value {0 60, 1 40}}
{:type :ok, :process 0, :f :read, :value {"c" 100}}
{:type :ok, :process 0, :f :transfer, :value {:from 0, :to 1, :amount 5}}
→ {:valid? true, :reads 2, :errors {}}
§
{:type :ok, :process 0, :f :read, :value {0 9223372036854775807, 1 9223372036854775807}}
→ {:valid? false, :reads 1, :errors {:wrong-total {:count 1, :first {:type :ok, :process 0, :f :read, :value {0 9223372036854775807, 1 9223372036854775807}}}}, :worst {:type :ok, :process 0, :f :read, :value {0 9223372036854775807, 1 9223372036854775807}}}
"#;
    let judge = Balances {
        may_be_negative: false,
    };
    assert_eq!(rt; first_wrong(rt.alloc(), &judge, rows), None);
}

/// Each error, in the order in which a read is asked for them; of two wrong totals that are as far away the first is the worst.
#[test]
fn errors_are_counted(rt: HostRuntime) {
    let rows = r#"
{:type :ok, :process 0, :f :read, :value {0 120, 1 -20}}
{:type :ok, :process 0, :f :read, :value {0 99}}
{:type :ok, :process 0, :f :read, :value {1 90}}
{:type :ok, :process 0, :f :read, :value {1 110}}
{:type :ok, :process 0, :f :read, :value {0 nil, 1 3}}
{:type :ok, :process 0, :f :read, :value {7 nil}}
→ {:valid? false, :reads 6, :errors {:unexpected-key {:count 1, :first {:type :ok, :process 0, :f :read, :value {7 nil}}}, :nil-balance {:count 1, :first {:type :ok, :process 0, :f :read, :value {0 nil, 1 3}}}, :wrong-total {:count 3, :first {:type :ok, :process 0, :f :read, :value {0 99}}}, :negative-value {:count 1, :first {:type :ok, :process 0, :f :read, :value {0 120, 1 -20}}}}, :worst {:type :ok, :process 0, :f :read, :value {1 90}}}
"#;
    let judge = Balances {
        may_be_negative: false,
    };
    assert_eq!(rt; first_wrong(rt.alloc(), &judge, rows), None);
}

/// Where balances may be negative, one is no error.
#[test]
fn balances_may_be_negative(rt: HostRuntime) {
    let rows = r#"
{:type :ok, :process 0, :f :read, :value {0 120, 1 -20}}
→ {:valid? true, :reads 1, :errors {}}
"#;
    let judge = Balances {
        may_be_negative: true,
    };
    assert_eq!(rt; first_wrong(rt.alloc(), &judge, rows), None);
}

/// A read that is no map, and one with a balance that is no number.
#[test]
fn bad_reads_are_refused(rt: HostRuntime) {
    let rows = r#"
{:type :invoke, :process 0, :f :read, :value 5}
{:type :ok, :process 0, :f :read, :value nil}
→ operation 1: bad value
§
{:type :ok, :process 0, :f :read, :value {0 100}}
{:type :ok, :process 0, :f :read, :value {0 "x"}}
→ operation 1: bad value
"#;
    let judge = Balances {
        may_be_negative: false,
    };
    assert_eq!(rt; first_wrong(rt.alloc(), &judge, rows), None);
}
