//! The history that a log's records make. `specs/Gather.antt` has the rule.

ghost use Rattle.std.specs.Prelude.{◌≡◌, ◌<◌, ◌≤◌, ◌+◌, ◌^◌, ℕ, All, length, IfOk, IfErr, OnOk};
ghost use Rattle.std.specs.Prelude.{MatchResult};
ghost use Rattle.std.specs.FinMap as fin;
ghost use Rattle.jh_ops.specs.Operation.{operation, operations};
ghost use Rattle.jh_ops.specs.OperationWritten.{IsWritable};
ghost use Rattle.jh_ops.specs.Words.{IsRecordedAs};
ghost use Rattle.jh_workers.specs.Gather.{IsGathered, RefusesGather};
ghost use Rattle.jh_workers.specs.GatherInside.{IsFound, RefusesRecord, RefusesRow, gather_error};
ghost use Rattle.jh_workers.specs.GatherInside.{history_with_found};

use jh_ops::{Op, WordsError, of_words};
use jh_simnode::push_indexed;
use jh_slots::{MAX_CLAIMED, MAX_ROWS, ROW_WORDS, Read, Seat, Slots};
use std::alloc::{AllocError, Global};
use thiserror::Error;

/// The most words of a record: those of the rows of one claim.
pub(crate) const MAX_WORDS: usize = MAX_CLAIMED as usize * ROW_WORDS;

/// Why no history is gathered.
#[derive(Clone, Copy, Debug, PartialEq, Eq, Error)]
pub enum GatherError {
    /// A row was published with words of no operation.
    #[error("row {0}: bad words")]
    BadWords(usize),
    #[error("out of memory")]
    OutOfMemory,
}

impl From<AllocError> for GatherError {
    ghost use Rattle.std.specs.Prelude.{◌≡◌};
    ghost use Rattle.jh_workers.specs.declared.records.GatherError.TheVariants.{OutOfMemory};

    ghost from_gives = { λ _ e. e ≡ OutOfMemory };

    fn from(_error: AllocError) -> GatherError {
        GatherError::OutOfMemory
    }
}

/// What a refusal of the words of a row means.
fn refusal_of(error: WordsError, row: usize) -> GatherError
    ensures { result ≡ gather_error error row }
{
    match error {
        WordsError::OutOfMemory => GatherError::OutOfMemory,
        WordsError::NotRecordable | WordsError::TooSmall | WordsError::BadWords => {
            GatherError::BadWords(row)
        }
    }
}

/// The operation of the words of a row.
fn operation_in(alloc: Global, words: &[u64], row: usize) -> Result<Op, GatherError>
    ensures { MatchResult result (λ op. IsRecordedAs (operation op) words.now)
        (RefusesRow words.now row) }
{
    match of_words(alloc, words) {
        Ok(op) => Ok(op),
        Err(error) => Err(refusal_of(error, row)),
    }
}

/// The operation of a row's record, if it has one.
fn record_in(
    alloc: Global,
    slots: &Slots,
    seat: &mut Seat,
    row: u32,
    buffer: &mut [u64; MAX_WORDS],
) -> Result<Option<Op>, GatherError>
    requires table { seat.old.table ≡ slots.now.table }
    requires row { row < MAX_ROWS }
    ensures table { seat.new.table ≡ seat.old.table }
    ensures found { IfOk result (IsFound (fin.get seat.new.knows.seen row)) }
    ensures others { (r : ℕ) → r < row
        → fin.get seat.new.knows.seen r ≡ fin.get seat.old.knows.seen r }
    ensures refused { IfErr result (RefusesRecord seat.new.knows.seen row) }
{
    match slots.read(seat, row, buffer.as_mut_slice()) {
        Read::Absent => Ok(None),
        Read::Void => Ok(None),
        Read::TooSmall(_) => Err(GatherError::BadWords(row as usize)),
        Read::Words(len) => match operation_in(alloc, &buffer[..len], row as usize) {
            Ok(op) => Ok(Some(op)),
            Err(error) => Err(error),
        },
    }
}

/// Adds the operation that was found in a row, if there was one.
fn push_found(history: &mut Vec<Op>, found: Option<Op>) -> Result<(), AllocError>
    requires { length history.old.items < 2 ^ 63 }
    ensures added { OnOk result
        (operations history.new.items ≡ history_with_found (operations history.old.items) found) }
    ensures few { OnOk result (length history.new.items ≤ length history.old.items + 1) }
{
    match found {
        Some(op) => push_indexed(history, op),
        None => Ok(()),
    }
}

/// The history that the records below a row make: the operations of the rows that were published,
/// in the order of the rows, each with its place under `:index`. Rows that are void or were not
/// published so far are left out. A row that the seat saw before is read as it saw it.
///
/// Takes time linear in the rows and in the words of their records.
///
/// Errors, in the order of the rows: `BadWords` with the row, where it was published with words of
/// no operation; `OutOfMemory`.
pub fn gather(
    alloc: Global,
    slots: &Slots,
    seat: &mut Seat,
    rows: usize,
) -> Result<Vec<Op>, GatherError>
    requires { seat.old.table ≡ slots.now.table }
    ensures table { seat.new.table ≡ seat.old.table }
    ensures gathered { IfOk result
        (λ history. IsGathered seat.new.knows.seen rows (operations history.items)) }
    ensures writable { IfOk result
        (λ history. All (λ op. IsWritable op.process) (operations history.items)) }
    ensures refused { IfErr result (RefusesGather seat.new.knows.seen rows) }
{
    let mut history = Vec::new(alloc);
    let mut buffer = [0; MAX_WORDS];
    for row in 0..rows.min(MAX_ROWS as usize) {
        let found = record_in(alloc, slots, seat, row as u32, &mut buffer)?;
        push_found(&mut history, found)?;
    }
    Ok(history)
}
