//! Which values the completion of a call may have. `specs/Values.antt` has the rule.

ghost use Rattle.std.specs.Prelude.{◌≡◌, IfOk, option_map};
ghost use Rattle.jh_edn.specs.View.{view, views};
ghost use Rattle.jh_test_parts.specs.Values as rule;

use crate::calls::ValuedCall;
use crate::test::Test;
use crate::workload::TestWorkload;
use jh_edn::Value;
use jh_ops::{Kind, Request};
use jh_txn_histories::{is_answered, is_equal};
use std::alloc::{AllocError, Global};

/// Whether a value is a list, a vector or a set.
fn is_collection(value: &Value) -> bool
    ensures { result ≡ rule.is_collection (view value.now) }
{
    match value {
        Value::List(_) => true,
        Value::Vector(_) => true,
        Value::Set(_) => true,
        _ => false,
    }
}

/// Whether a read may see a value.
fn is_readable(workload: TestWorkload, value: &Value) -> bool
    ensures { result ≡ rule.is_readable workload (view value.now) }
{
    match workload {
        TestWorkload::Register => value.is_nil() || value.is_integer(),
        TestWorkload::Counter => value.is_integer(),
        TestWorkload::Set => is_collection(value),
        TestWorkload::Ids | TestWorkload::ListAppend => true,
    }
}

/// Whether a call that was done may have got this, but for its key.
fn fits_request(
    alloc: Global,
    workload: TestWorkload,
    request: Request,
    asked: &Value,
    got: &Value,
) -> Result<bool, AllocError>
    ensures { IfOk result
        (λ yes. yes ≡ rule.fits_request workload request (view asked.now) (view got.now)) }
{
    match request {
        Request::Read => Ok(is_readable(workload, got)),
        Request::Generate => Ok(true),
        Request::Txn => is_answered(alloc, asked, got),
        Request::Write(_) | Request::Cas(_, _) | Request::Add(_) => is_equal(alloc, asked, got),
    }
}

/// Whether the pair that a call got has the key of the pair that it asked with, and a value that the call
/// may have got. False where one of them is no pair.
fn fits_with_key(
    alloc: Global,
    workload: TestWorkload,
    request: Request,
    asked: &[Value],
    got: &[Value],
) -> Result<bool, AllocError>
    ensures { IfOk result (λ yes. yes
        ≡ rule.fits_with_key workload request (views asked.now) (Some (views got.now))) }
{
    if asked.len() != 2 || got.len() != 2 {
        return Ok(false);
    }
    Ok(
        is_equal(alloc, &asked[0], &got[0])?
            && fits_request(alloc, workload, request, &asked[1], &got[1])?,
    )
}

/// Whether a call that was done may have this value.
fn is_good_value(
    alloc: Global,
    test: &Test,
    call: &ValuedCall,
    value: &Value,
) -> Result<bool, AllocError>
    ensures { IfOk result
        (λ yes. yes ≡ rule.is_good_value test.now test.now.keys call.now (view value.now)) }
{
    let asked = call.value.value();
    if test.keys().is_none() {
        return fits_request(alloc, test.workload(), call.request, asked, value);
    }
    let (Some(asked), Some(got)) = (asked.elements(), value.elements()) else {
        return Ok(false);
    };
    fits_with_key(alloc, test.workload(), call.request, asked, got)
}

/// Whether a call can end as this kind, with this value.
pub fn fits_call(
    alloc: Global,
    test: &Test,
    call: &ValuedCall,
    kind: Kind,
    value: &Value,
) -> Result<bool, AllocError>
    ensures { IfOk result
        (λ yes. yes ≡ rule.fits_call test.now call.now kind (view value.now)) }
{
    match kind {
        Kind::Ok => is_good_value(alloc, test, call, value),
        Kind::Invoke | Kind::Fail | Kind::Info => is_equal(alloc, call.value.value(), value),
    }
}
