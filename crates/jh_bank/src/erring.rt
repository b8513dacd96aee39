//! The reads of a history that have an error, and what is counted and looked for among them.
//! `specs/BankInside.antt` says what is kept of each.

ghost use Rattle.std.specs.Prelude.{◌≡◌, ◌++◌, IfOk, OnOk, count_by, filter, find, map, option_map};
ghost use Rattle.std.specs.Prelude.{option_copied};
ghost use Rattle.jh_edn.specs.View.{view_pairs};
ghost use Rattle.jh_ops.specs.Operation.{operation, operations};
ghost use Rattle.jh_bank.specs.BankInside as inside;
ghost use Rattle.jh_bank.specs.BankInside.{IsWorstOf, errs_by, worse_of};
ghost use Rattle.jh_bank.specs.declared.errors.BankError.TheVariants.{WrongTotal};

use crate::balances::{bank_error, distance, pairs_of};
use crate::bank::Bank;
use crate::errors::BankError;
use jh_edn::Value;
use jh_ops::{Kind, Op};
use std::alloc::{AllocError, Global};

/// A read that has an error.
#[derive(Clone, Copy, Debug)]
pub(crate) struct ErringRead {
    /// Its place in the history.
    pub(crate) place: usize,
    pub(crate) error: BankError,
    /// How far its sum is from the bank's total.
    pub(crate) distance: u128,
}

/// A read of these pairs, where it has an error.
fn erring_in(
    alloc: Global,
    bank: &Bank,
    place: usize,
    pairs: &[(Value, Value)],
) -> Result<Option<ErringRead>, AllocError>
    ensures { IfOk result
        (λ read. read ≡ inside.erring_in bank.now place (view_pairs pairs.now)) }
{
    match bank_error(alloc, bank, pairs)? {
        Some(error) => Ok(Some(ErringRead {
            place,
            error,
            distance: distance(bank, pairs),
        })),
        None => Ok(None),
    }
}

/// A read, where it has an error. One whose value is no map has none.
fn erring_at(
    alloc: Global,
    bank: &Bank,
    place: usize,
    op: &Op,
) -> Result<Option<ErringRead>, AllocError>
    ensures { IfOk result (λ read. read ≡ inside.erring_at bank.now place (operation op.now)) }
{
    match pairs_of(&op.value) {
        Some(pairs) => erring_in(alloc, bank, place, pairs),
        None => Ok(None),
    }
}

/// Puts the operation last, where it is a read that happened and has an error.
fn push_erring(
    alloc: Global,
    bank: &Bank,
    place: usize,
    op: &Op,
    erring: &mut Vec<ErringRead>,
) -> Result<(), AllocError>
    ensures { OnOk result (erring.new.items
        ≡ erring.old.items ++ inside.erring_of bank.now place (operation op.now)) }
{
    if op.is_asked(Kind::Ok, "read") {
        if let Some(read) = erring_at(alloc, bank, place, op)? {
            erring.push(read)?;
        }
    }
    Ok(())
}

/// The reads that happened and have an error.
pub(crate) fn erring_reads(
    alloc: Global,
    bank: &Bank,
    history: &[Op],
) -> Result<Vec<ErringRead>, AllocError>
    ensures { IfOk result
        (λ erring. erring.items ≡ inside.erring_reads bank.now (operations history.now)) }
{
    let mut erring = Vec::new(alloc);
    for (place, op) in history.iter().enumerate() {
        push_erring(alloc, bank, place, op, &mut erring)?;
    }
    Ok(erring)
}

/// How many of the reads have this error.
pub(crate) fn count_with(error: BankError, erring: &[ErringRead]) -> usize
    ensures { result ≡ count_by (errs_by error) erring.now }
{
    erring.iter().filter(|read| error.is(read.error)).count()
}

/// The first of the reads that has this error, if there is one.
fn first_with(error: BankError, erring: &[ErringRead]) -> Option<&ErringRead>
    ensures { option_copied result ≡ find (errs_by error) erring.now }
{
    erring.iter().find(|read| error.is(read.error))
}

/// The place of the first of the reads that has this error, if there is one.
pub(crate) fn first_place(error: BankError, erring: &[ErringRead]) -> Option<usize>
    ensures { result ≡ option_map (λ read. read.place) (find (errs_by error) erring.now) }
{
    match first_with(error, erring) {
        Some(read) => Some(read.place),
        None => None,
    }
}

/// The worst read so far and one more, if that counts: the worse of both, and of two that are as bad
/// the earlier one.
fn worse(counts: bool, worst: Option<ErringRead>, read: ErringRead) -> Option<ErringRead>
    ensures { result ≡ worse_of counts worst read }
{
    if !counts {
        return worst;
    }
    match worst {
        None => Some(read),
        Some(last) => {
            if last.distance < read.distance {
                Some(read)
            } else {
                Some(last)
            }
        }
    }
}

/// The first of the reads with a wrong total that are farthest from the bank's, if there are such.
pub(crate) fn worst_of(erring: &[ErringRead]) -> Option<ErringRead>
    ensures { IsWorstOf (filter (errs_by WrongTotal) erring.now) result }
{
    let mut worst = None;
    for read in erring {
        worst = worse(BankError::WrongTotal.is(read.error), worst, *read);
    }
    worst
}

/// The place of a read, if there is one.
pub(crate) fn place_of(read: Option<ErringRead>) -> Option<usize>
    ensures { result ≡ option_map (λ read. read.place) read }
{
    match read {
        Some(read) => Some(read.place),
        None => None,
    }
}

/// The places of the reads.
pub(crate) fn places_of(alloc: Global, erring: &[ErringRead]) -> Result<Vec<usize>, AllocError>
    ensures { IfOk result (λ places. places.items ≡ map (λ read. read.place) erring.now) }
{
    erring.iter().map(|read| read.place).collect(alloc)
}
