//! Entries of fixes: their bits, the latest one of a link, one that is put or taken.
//! `specs/ChangingInside.antt` says what each call changes, `specs/Tallies.antt` what the entries
//! mean.

ghost use Rattle.std.specs.Prelude.{◌≡◌, ◌<◌, ◌≤◌, ◌+◌, length, is_some, true, false, slice_get};
ghost use Rattle.std.specs.Prelude.{Some, None, MatchOption};
ghost use Rattle.std.specs.List.{All, count_by, list_any};
ghost use Rattle.jh_tables.specs.Limits.{max_laid, max_nodes};
ghost use Rattle.jh_tables.specs.Tallies.{is_after, is_fixed_in, later_fix, latest_fix};
ghost use Rattle.jh_tables.specs.Tallies.{with_free_entries};
ghost use Rattle.jh_tables.specs.Faults.{AreKnownLinks, FitsCount, fix_value};
ghost use Rattle.jh_tables.specs.Plain.{fault_of};
ghost use Rattle.jh_tables.specs.Standing.{IsEntryOf, is_fix};
ghost use Rattle.jh_tables.specs.ChangingInside.{AreEntriesChanged, AreMarked, CanChangeEntries};
ghost use Rattle.jh_tables.specs.ChangingInside.{IsEntryPut, IsEntryTaken, IsPlaceOfStamp};
ghost use Rattle.jh_tables.specs.ChangingInside.{has_stamp, one_if};

use crate::changing::Change;
use crate::counted::{Counted, FixEntry, FixedDelay, MAX_NODES, TableWrite};
use crate::faults::{LinkFault, PlainFault};
use crate::nodes::Node;

/// Whether the entry fixes the delay of a link.
fn is_fixed_in(fix: &FixEntry, from: Node, to: Node) -> bool
    requires { (from < max_nodes) × (to < max_nodes) }
    ensures { result ≡ is_fixed_in fix.now from to }
{
    fix.links[from.place() as usize] >> to.place() & 1 == 1
}

/// Whether the stamp is above that of the latest fix so far.
fn is_after(stamp: u32, latest: Option<FixedDelay>) -> bool
    ensures { result ≡ is_after stamp latest }
{
    match latest {
        None => true,
        Some(fixed) => fixed.stamp < stamp,
    }
}

/// The latest fix of a link so far, after one more entry.
fn later_fix(
    from: Node,
    to: Node,
    latest: Option<FixedDelay>,
    entry: &Option<FixEntry>,
) -> Option<FixedDelay>
    requires { (from < max_nodes) × (to < max_nodes) }
    ensures { result ≡ later_fix from to latest entry.now }
{
    match entry {
        Some(fix) if is_fixed_in(fix, from, to) && is_after(fix.stamp, latest) => {
            Some(FixedDelay {
                stamp: fix.stamp,
                ms: fix.ms,
            })
        }
        _ => latest,
    }
}

/// The delay of the latest fix of a link among entries.
fn latest_among(entries: &[Option<FixEntry>], from: Node, to: Node) -> Option<FixedDelay>
    requires { (from < max_nodes) × (to < max_nodes) }
    ensures { result ≡ latest_fix from to entries.now }
{
    let mut latest = None;
    for entry in entries {
        latest = later_fix(from, to, latest, entry);
    }
    latest
}

/// The delay of the latest fix of a link. No entry is looked at where none is in use.
pub(crate) fn latest_fix(counted: &Counted, from: Node, to: Node) -> Option<FixedDelay>
    requires { (from < max_nodes) × (to < max_nodes) }
    ensures { result ≡ latest_fix from to counted.now.fixes }
{
    if counted.used() == 0 {
        return None;
    }
    latest_among(counted.fixes(), from, to)
}

/// Sets the bits of these links: in the word of its source the bit of its destination.
fn mark_links(words: &mut [u64; MAX_NODES], links: &[(Node, Node)])
    requires { AreKnownLinks max_nodes links.now }
    ensures { AreMarked links.now words.old words.new }
{
    for (from, to) in links {
        let source = from.place() as usize;
        words[source] |= 1 << to.place();
    }
}

/// The entry of a fix.
fn entry_of(stamp: u32, ms: u64, links: &[(Node, Node)]) -> FixEntry
    requires { AreKnownLinks max_nodes links.now }
    ensures { IsEntryOf max_nodes stamp ms links.now result }
{
    let mut words = [0; MAX_NODES];
    mark_links(&mut words, links);
    FixEntry {
        stamp,
        ms,
        links: words,
    }
}

/// Whether the entry is in use with this stamp.
fn is_of_stamp(entry: &Option<FixEntry>, stamp: u32) -> bool
    ensures { result ≡ has_stamp stamp entry.now }
{
    match entry {
        Some(fix) => fix.stamp == stamp,
        None => false,
    }
}

/// The first entry that is free, among these or behind them.
fn first_free(entries: &[Option<FixEntry>]) -> usize
    requires room { count_by is_some entries.now < max_laid }
    requires few { length entries.now ≤ max_laid }
    ensures { slice_get (with_free_entries entries.now) result ≡ Some None }
{
    match entries.iter().position(|entry| entry.is_none()) {
        Some(place) => place,
        None => entries.len(),
    }
}

/// An entry that is free: the one at this place, or else the first. Those behind these entries are
/// free too.
fn free_place(entries: &[Option<FixEntry>], likely: usize) -> usize
    requires within { likely < max_laid }
    requires room { count_by is_some entries.now < max_laid }
    requires few { length entries.now ≤ max_laid }
    ensures { slice_get (with_free_entries entries.now) result ≡ Some None }
{
    match entries.get(likely) {
        Some(Some(_)) => first_free(entries),
        _ => likely,
    }
}

/// The entry with this stamp: the one at this place, or else the first.
fn place_of_stamp(entries: &[Option<FixEntry>], likely: usize, stamp: u32) -> Option<usize>
    ensures { MatchOption result (All (λ e. has_stamp stamp e ≡ false) entries.now)
        (IsPlaceOfStamp stamp entries.now) }
{
    match entries.get(likely) {
        Some(entry) if is_of_stamp(entry, stamp) => Some(likely),
        _ => entries.iter().position(|entry| is_of_stamp(entry, stamp)),
    }
}

/// Writes a fix into a free entry. The search begins behind as many entries as are in use, which is
/// a free one unless a fix before it was taken off.
fn put_fix(counted: &mut Counted, fix: FixEntry)
    requires { count_by is_some counted.old.fixes < length counted.old.fixes }
    ensures { IsEntryPut fix counted.old counted.new }
{
    let place = free_place(counted.fixes(), counted.used());
    counted.write(place, &TableWrite::Fix(Some(fix)));
}

/// Frees the entry with this stamp, which mostly is the one that was put last.
fn take_fix(counted: &mut Counted, stamp: u32)
    requires { list_any (has_stamp stamp) counted.old.fixes ≡ true }
    ensures { IsEntryTaken stamp counted.old counted.new }
{
    let last = counted.used().saturating_sub(1);
    if let Some(place) = place_of_stamp(counted.fixes(), last, stamp) {
        counted.write(place, &TableWrite::Fix(None));
    }
}

/// The delay that a fault fixes and its links, where it fixes any.
fn fix_of(fault: &PlainFault) -> Option<(u64, &[(Node, Node)])>
    ensures { MatchOption result (fix_value (fault_of fault.now) ≡ None)
        (λ fix. fix_value (fault_of fault.now) ≡ Some (fix.0, fix.1.now)) }
{
    match fault {
        PlainFault::OnLinks(LinkFault::Fix(ms), links) => Some((*ms, links)),
        _ => None,
    }
}

/// Changes the entries of fixes.
pub(crate) fn change_entries(counted: &mut Counted, change: Change, fault: &PlainFault, stamp: u32)
    requires fits { FitsCount max_nodes (fault_of fault.now) }
    requires room { CanChangeEntries change stamp (fix_value (fault_of fault.now)) counted.old.fixes }
    ensures changed { AreEntriesChanged change stamp
        (fix_value (fault_of fault.now)) counted.old.fixes counted.new.fixes }
    ensures rest { (counted.new.links ≡ counted.old.links)
        × (counted.new.nodes ≡ counted.old.nodes) }
    ensures work { counted.new.work ≤ counted.old.work + one_if (is_fix (fault_of fault.now)) }
{
    if let Some((ms, links)) = fix_of(fault) {
        match change {
            Change::Add => put_fix(counted, entry_of(stamp, ms, links)),
            Change::Remove => take_fix(counted, stamp),
        }
    }
}
