//! What a transaction knows of the list of a key, step by step. `specs/Inside.antt` says what a
//! view stands for.

ghost use Rattle.std.specs.Prelude.{◌≡◌, ◌++◌, ◌∷◌, [], true, length, IfOk};
ghost use Rattle.jh_txn_reads.specs.Inside.{AreEmptyFrom};

use std::alloc::{AllocError, Global};

/// What a transaction knows of the list of a key. For every other transaction it is an empty view,
/// so none has to be cleared when the next transaction begins.
#[derive(Debug, Drop)]
pub(crate) struct View {
    /// The place of the transaction.
    pub(crate) place: usize,
    /// Whether it read the key, so that `list` is all of the list and not its own appends alone.
    pub(crate) is_known: bool,
    /// The list, with what the transaction appended itself at the end.
    pub(crate) list: Vec<usize>,
}

/// So many empty views.
pub(crate) fn empty_views(alloc: Global, keys: usize) -> Result<Vec<View>, AllocError>
    ensures { IfOk result (λ views. (length views.items ≡ keys) × AreEmptyFrom 0 views.items) }
{
    let mut views = Vec::new(alloc);
    for _key in 0..keys {
        views.push(View {
            place: 0,
            is_known: false,
            list: Vec::new(alloc),
        })?;
    }
    Ok(views)
}

impl View {
    ghost use Rattle.jh_txn_reads.specs.Inside.{IsViewWith, is_known_for, list_for};

    /// Makes it a view of this transaction, an empty one where it was not.
    pub(crate) fn turn_to(&mut self, place: usize)
        ensures { IsViewWith self.new place (is_known_for self.old place)
            (list_for self.old place) }
    {
        if self.place != place {
            self.place = place;
            self.is_known = false;
            self.list.clear();
        }
    }

    /// Puts what this transaction appends at the end of the list.
    pub(crate) fn append(&mut self, place: usize, element: usize) -> Result<(), AllocError>
        ensures { IfOk result (λ _. IsViewWith self.new place (is_known_for self.old place)
            (list_for self.old place ++ element ∷ [])) }
    {
        self.turn_to(place);
        self.list.push(element)?;
        Ok(())
    }

    /// Takes the list as this transaction saw it.
    pub(crate) fn learn(&mut self, place: usize, seen: &[usize]) -> Result<(), AllocError>
        ensures { IfOk result (λ _. IsViewWith self.new place true seen.now) }
    {
        self.place = place;
        self.is_known = true;
        self.list.clear();
        self.list.extend_from_slice(seen)
    }
}
