//! The least place of a bad value. `specs/Histories.antt` says where one is.

ghost use Rattle.std.specs.Prelude.{◌≡◌, IfOk};
ghost use Rattle.jh_ops.specs.Operation.{operations};
ghost use Rattle.jh_txn_histories.specs.Histories.{IsBadAt};
ghost use Rattle.jh_txn_histories.specs.ReadingInside.{IsLeastPlace, lesser_of_places};

use crate::asked::bad_value_place;
use jh_ops::{Op, Pair};
use std::alloc::{AllocError, Global};

/// The lesser of two places, of which one or both may be missing.
pub(crate) fn lesser(first: Option<usize>, second: Option<usize>) -> Option<usize>
    ensures { result ≡ lesser_of_places first second }
{
    match (first, second) {
        (Some(one), Some(other)) => Some(one.min(other)),
        (None, other) => other,
        (one, None) => one,
    }
}

/// The least place of a bad value in the pairs, if there is one.
pub(crate) fn least_bad(
    alloc: Global,
    history: &[Op],
    pairs: &[Pair],
) -> Result<Option<usize>, AllocError>
    ensures { IfOk result (IsLeastPlace (IsBadAt (operations history.now) pairs.now)) }
{
    let mut least = None;
    for pair in pairs {
        least = lesser(least, bad_value_place(alloc, history, *pair)?);
    }
    Ok(least)
}
