//! The rule of the table of words, and the kinds of atomic step: `Look` loads the next free row,
//! `Take` exchanges it, `Write` stores a word of a claim, `End` the status of its first row, `Peek`
//! loads a status, `Gather` a word of a record, `Recall` follows a join.

use atomic_table::{Join, Play, Split, TableRule};
use std::marker::Model;

/// What a seat of the table knows. No value of it says anything.
pub struct View {}

impl Model for View {
    ghost use Rattle.jh_slots.specs.Stored.{View as Known, opening_view};
    ghost use Rattle.jh_slots.specs.Codes.{view_code};

    ghost Value = { Known };

    ghost coded = { view_code };

    ghost view = { λ _. opening_view 0 };
}

/// The rule of the table: its words and what its seats know show a sound log.
pub struct Law;

impl TableRule<u8, View, usize> for Law {
    ghost use Rattle.jh_slots.specs.Stored.{IsTableKept, opening_view};

    ghost holds = { IsTableKept };

    ghost first = { opening_view };
}

/// A load of the next free row.
pub struct Look;

impl Play<u8, View> for Look {
    ghost use Rattle.jh_slots.specs.Steps.{Looks};

    ghost then = { Looks };
}

/// An exchange of the next free row, which claims rows where it succeeds.
pub struct Take;

impl Play<u8, View> for Take {
    ghost use Rattle.jh_slots.specs.Steps.{TakesRows};

    ghost then = { TakesRows };
}

/// A store of a word of a claim.
pub struct Write;

impl Play<u8, View> for Write {
    ghost use Rattle.jh_slots.specs.Steps.{Writes};

    ghost then = { Writes };
}

/// A store of the status of a claim's first row, which ends the claim.
pub struct End;

impl Play<u8, View> for End {
    ghost use Rattle.jh_slots.specs.Steps.{Ends};

    ghost then = { Ends };
}

/// A load of the status of a row.
pub struct Peek;

impl Play<u8, View> for Peek {
    ghost use Rattle.jh_slots.specs.Steps.{Peeks};

    ghost then = { Peeks };
}

/// A load of the next word of a record that is read.
pub struct Gather;

impl Play<u8, View> for Gather {
    ghost use Rattle.jh_slots.specs.Steps.{Gathers};

    ghost then = { Gathers };
}

/// A load after a join, which shows that the two seats agreed.
pub struct Recall;

impl Play<u8, View> for Recall {
    ghost use Rattle.jh_slots.specs.Steps.{Recalls};

    ghost then = { Recalls };
}

/// The split of a seat: the new one has seen the same, and the claims stay with the old one.
pub struct Copy;

impl Split<View> for Copy {
    ghost use Rattle.jh_slots.specs.Stored.{copy_view};

    ghost left = { λ v. v };

    ghost right = { copy_view };
}

/// The join of two seats into one.
pub struct Unite;

impl Join<View> for Unite {
    ghost use Rattle.jh_slots.specs.Stored.{join_view, spent_view};

    ghost both = { join_view };

    ghost spent = { spent_view };
}
