//! The changes that an editor makes. Each gives the one that takes it back, so that undo and redo
//! are one thing. `specs/ChangesInside.antt` says what a change makes of the entries.

ghost use Rattle.std.specs.Prelude.{◌≡◌, ◌≤◌, ◌<◌};
ghost use Rattle.std.specs.Vec.{vec_capacity};
ghost use Rattle.jh_simnode.specs.Limits.{max_entries};
ghost use Rattle.jh_shrink.specs.ChangesInside.{entries_after_change, IsChangeBack, Fits};

use jh_simnode::Entry;
use std::mem;

/// A change of entries.
#[derive(Debug, Drop)]
pub(crate) enum EntryChange {
    /// An entry is put in at a place.
    Put(usize, Entry),
    /// The one at a place is taken out.
    Take(usize),
    /// One takes the place of another.
    Swap(usize, Entry),
}

/// Makes a change, for which there is room, and gives the one that takes it back.
pub(crate) fn make(entries: &mut Vec<Entry>, change: EntryChange) -> EntryChange
    requires fits { Fits change entries.old.items }
    requires room { max_entries ≤ vec_capacity entries.old }
    ensures changed { entries.new.items ≡ entries_after_change change entries.old.items }
    ensures back { IsChangeBack change entries.old.items result }
    ensures room { max_entries ≤ vec_capacity entries.new }
{
    match change {
        EntryChange::Put(place, entry) => {
            let _ = entries.insert(place, entry);
            EntryChange::Take(place)
        }
        EntryChange::Take(place) => EntryChange::Put(place, entries.remove(place)),
        EntryChange::Swap(place, entry) => {
            EntryChange::Swap(place, mem::replace(&mut entries[place], entry))
        }
    }
}
