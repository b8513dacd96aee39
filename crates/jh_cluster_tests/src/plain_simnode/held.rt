//! What a replica holds, and what requests make of it.
//!
//! A replica holds a list of numbers: none or one of a register, one of a counter and of ids, all
//! of a set, which ascend.

use jh_ops::{Request, Workload};
use std::alloc::{AllocError, Global};

/// One number alone.
fn one(alloc: Global, value: i64) -> Result<Vec<i64>, AllocError> {
    Ok(vec![in alloc; value]?)
}

/// What a replica holds at first.
pub(crate) fn first_held(
    alloc: Global,
    workload: Workload,
    initial: Option<i64>,
) -> Result<Vec<i64>, AllocError> {
    match (workload, initial) {
        (Workload::Register, Some(initial)) => one(alloc, initial),
        (Workload::Counter | Workload::Ids, _) => one(alloc, 0),
        _ => Ok(Vec::new(alloc)),
    }
}

/// The numbers with one that is theirs, too.
fn with(alloc: Global, held: &[i64], value: i64) -> Result<Vec<i64>, AllocError> {
    let mut all = held.to_vec(alloc)?;
    if !held.contains(&value) {
        all.push(value)?;
    }
    all.sort()?;
    Ok(all)
}

/// The one value that is held after a request. None: the request fails.
fn next_value(request: Request, held: &[i64]) -> Option<i64> {
    match (request, held) {
        (Request::Write(value), _) => Some(value),
        (Request::Cas(old, new), [value]) if *value == old => Some(new),
        (Request::Add(amount), [value]) => value.checked_add(amount),
        (Request::Generate, [value]) => value.checked_add(1),
        _ => None,
    }
}

/// What is held after a request. None: the request fails.
pub(crate) fn held_after(
    alloc: Global,
    workload: Workload,
    request: Request,
    held: &[i64],
) -> Result<Option<Vec<i64>>, AllocError> {
    let all = match (workload, request) {
        (_, Request::Read) => held.to_vec(alloc),
        (Workload::Set, Request::Add(value)) => with(alloc, held, value),
        _ => match next_value(request, held) {
            Some(value) => one(alloc, value),
            None => return Ok(None),
        },
    };
    Ok(Some(all?))
}
