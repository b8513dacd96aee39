//! The bands of a history. `specs/Bands.antt` says what they are.

ghost use Rattle.std.specs.Prelude.{◌≡◌, ◌++◌, All, IfOk, OnOk, length, map};
ghost use Rattle.jh_edn.specs.View.{views};
ghost use Rattle.jh_ops.specs.Operation.{operations};
ghost use Rattle.jh_bands.specs.Bands as rule;
ghost use Rattle.jh_bands.specs.Bands.{IsBandWithin, view_band};
ghost use Rattle.jh_bands.specs.BandsInside.{bands_along, new_bands, view_change, view_changes};

use crate::band::Band;
use crate::edit::Change;
use crate::labels::fault_label;
use crate::moment::changes_in;
use jh_edn::Value;
use jh_ops::Op;
use std::alloc::{AllocError, Global};
use std::collections::BTreeMap;

/// Adds the band of a change that begins, up to an index.
fn add_band(
    alloc: Global,
    change: Change,
    to: Option<usize>,
    bands: &mut Vec<Band>,
) -> Result<(), AllocError>
    ensures { OnOk result (map view_band bands.new.items
        ≡ map view_band bands.old.items ++ new_bands (view_change change.entry) to) }
{
    if change.begins {
        let label = fault_label(alloc, change.fault)?;
        bands.push(Band {
            from: change.index,
            to,
            label,
        })?;
    }
    Ok(())
}

/// The bands of changes, in order. Goes from the last one to the first, and keeps the index of the
/// next change of each id.
fn bands_of_changes(alloc: Global, changes: &[Change]) -> Result<Vec<Band>, AllocError>
    ensures { IfOk result
        (λ bands. map view_band bands.items ≡ bands_along (view_changes changes.now)) }
{
    let mut next = BTreeMap::new(alloc);
    let mut bands = Vec::new(alloc);
    let mut left = changes.len();
    while left > 0 {
        left -= 1;
        let change = changes[left];
        let to = next.get(&change.fault.id).copied();
        add_band(alloc, change, to, &mut bands)?;
        next.insert(change.fault.id, change.index)?;
    }
    bands.reverse();
    Ok(bands)
}

/// The bands of a history: one for each longest stretch of records behind which a fault is active, in
/// the order in which they begin, and of those that begin together in the order of the active list.
/// A band begins at the answer that puts its fault into the list and ends at the one that takes it
/// out. A fault that an undo or a redo brings back begins a new band.
///
/// A step stands under `:step` in the record that asks for it, as `jeprun drive` writes; where a
/// record has none, as `jeprun run` writes, it is the one of `steps` at the place that is the record's `:value`. A step
/// that is not known, or is none of `[:begin ID FAULT]`, `[:withdraw ID]`, `[:withdraw-all]`,
/// `[:undo]` and `[:redo]`, makes no band and changes nothing. Nor does one that was refused, or that
/// the active list does not allow, which no history of this program has, nor any other record of the
/// nemesis.
///
/// Takes time in the order of the records times the faults that are active at once, and O(n log n)
/// for n changes of the list.
///
/// Errors: where memory runs out.
pub fn bands_of(alloc: Global, steps: &[Value], history: &[Op]) -> Result<Vec<Band>, AllocError>
    ensures bands { IfOk result (λ bands. map view_band bands.items
        ≡ rule.bands_in (views steps.now) (operations history.now)) }
    ensures within { IfOk result (λ bands.
        All (λ band. IsBandWithin (length history.now) (view_band band)) bands.items) }
{
    let changes = changes_in(alloc, steps, history)?;
    bands_of_changes(alloc, &changes)
}
