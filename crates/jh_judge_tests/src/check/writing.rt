//! Results that a checker need not make: what is written of one, and what a type gives back.

use crate::narrow::Narrow;
use jh_check::{Counted, CounterResult, ReadBounds, Reads, Tally, Verdict, write_counter};
use jh_edn::{EdnError, Value};
use std::alloc::{AllocError, Global};
use std::test::Fail;

/// The line of the result below.
const ONE_ERROR: &str = "{:valid? false, :reads [[170141183460469231731687303715884105727 -1 0]], \
    :errors [[170141183460469231731687303715884105727 -1 0]]}";

/// A result with one read outside its bounds.
fn one_error_once(alloc: Global) -> Result<CounterResult, AllocError> {
    let read = ReadBounds {
        lower: 170_141_183_460_469_231_731_687_303_715_884_105_727,
        value: -1,
        upper: 0,
    };
    Ok(CounterResult {
        verdict: Verdict::False,
        reads: Reads::of(Vec::from_slice(alloc, &[read])?),
        errors: Reads::of(Vec::from_slice(alloc, &[read])?),
    })
}

/// The same, once more where memory was refused.
fn one_error(alloc: Global) -> Result<CounterResult, AllocError> {
    match one_error_once(alloc) {
        Err(_) => one_error_once(alloc),
        made => made,
    }
}

#[test]
fn writes_numbers_in_full(rt: HostRuntime) -> Result<(), Fail> {
    let result = one_error(rt.alloc())?;
    let mut text = Vec::new(rt.alloc());
    if write_counter(&result, &mut text).is_err() {
        text.clear();
        write_counter(&result, &mut text)?;
    }
    assert_eq!(rt; text.as_slice(), ONE_ERROR.as_bytes());
    let reads = result.reads;
    assert_eq!(rt; reads.as_slice().len(), 1);
    assert_eq!(rt; reads.into_vec().len(), 1);
    Ok(())
}

#[test]
fn says_that_the_writer_failed(rt: HostRuntime) -> Result<(), Fail> {
    let result = one_error(rt.alloc())?;
    for left in 0..ONE_ERROR.len() {
        let found = write_counter(&result, &mut Narrow { left });
        assert_eq!(rt; found, Err(EdnError::Write), "at {left}");
    }
    let left = ONE_ERROR.len();
    assert_eq!(rt; write_counter(&result, &mut Narrow { left }), Ok(()));
    Ok(())
}

/// An id that was given twice.
fn twice_once(alloc: Global) -> Result<Tally, AllocError> {
    let mut items = Vec::new(alloc);
    items.push(Counted {
        value: Value::Int(7),
        times: 2,
    })?;
    Ok(Tally::of(items))
}

#[test]
fn gives_a_tally_back(rt: HostRuntime) -> Result<(), Fail> {
    let twice = match twice_once(rt.alloc()) {
        Err(_) => twice_once(rt.alloc())?,
        Ok(twice) => twice,
    };
    assert_eq!(rt; twice.as_slice().len(), 1);
    assert_eq!(rt; twice.into_vec().len(), 1);
    Ok(())
}
