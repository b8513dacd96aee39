//! The sections of independent keys. `specs/KeySections.antt` has the rule.

ghost use Rattle.std.specs.Prelude.{◌≡◌, All, IfOk, MatchResult, Some, None, map, option_map};
ghost use Rattle.std.specs.List.{AllZip};
ghost use Rattle.std.specs.Option.{option_copied};
ghost use Rattle.std.specs.Ordering.{is_lt};
ghost use Rattle.jh_edn.specs.Order.{in_order};
ghost use Rattle.jh_edn.specs.View.{view};
ghost use Rattle.jh_independent.specs.Histories.{RefusesKeySplit};
ghost use Rattle.jh_independent.specs.Keys.{history_keys};
ghost use Rattle.jh_ops.specs.Operation.{operations};
ghost use Rattle.jh_ops.specs.OperationWritten.{IsWritable};
ghost use Rattle.jh_timeline_sections.specs.ShownKeysInside.{AreShownKeys, IsSectionOfShown, key_and_found};
ghost use Rattle.jh_timeline_sections.specs.ShownKeysInside.{is_shown_before};
ghost use Rattle.jh_timeline_sections.specs.KeySections as rule;
ghost use Rattle.jh_timeline_sections.specs.KeySections.{AreOfKeys, AreSectionsOf};

use crate::section::section_of;
use crate::window::Choice;
use jh_check::Verdict;
use jh_checkers::Finding;
use jh_edn::{Value, write};
use jh_independent::{KeyFinding, KeyHistory, KeysError, histories_by_key};
use jh_ops::Op;
use jh_timeline_pages::Section;
use std::alloc::{AllocError, Global};
use std::cmp::Ordering;

/// A key with its own history.
#[derive(Drop)]
struct ShownKey {
    key: Value,
    history: Vec<Op>,
    /// What was found in it, if it was judged.
    found: Option<Finding>,
}

/// The sections of a history of independent keys: one for each key, which shows the key's own
/// history with what was found in it, as `section_of` does. Where keys were judged, the findings
/// are those of `jh_independent::check_keys` or `check_keys_serial` in this history. Sections of keys that
/// are not valid stand first, then those of unknown verdict; those of one verdict stand in the
/// normal order of the keys. A heading has the key and the verdict. Indexes count the records of
/// the key's own history, in which the nemesis has none.
///
/// Takes what `histories_by_key` takes, and for each key what `section_of` takes: O(n log n) for n
/// records.
///
/// Errors: those of `histories_by_key`; memory may run out at any key.
pub fn sections_of_keys(
    alloc: Global,
    history: &[Op],
    findings: Option<Vec<KeyFinding>>,
    choice: Choice,
) -> Result<Vec<Section>, KeysError>
    requires keys { AreOfKeys (operations history.now)
        (option_map (λ found. found.items) findings) }
    ensures sections { MatchResult result
        (λ sections. AreSectionsOf (operations history.now) choice
        (option_map (λ found. found.items) findings) sections.items)
        (RefusesKeySplit (operations history.now)) }
    ensures writable { All (λ op. IsWritable op.process) history.now → IfOk result (λ sections.
        All (λ section. All (λ op. IsWritable op.process) section.history.items) sections.items) }
{
    let shown = shown_keys(alloc, history, findings)?;
    let sorted = sorted(shown)?;
    Ok(sections_of_shown(alloc, sorted, choice)?)
}

/// Each key with its history, and what was found in it, if it was judged.
fn shown_keys(
    alloc: Global,
    history: &[Op],
    findings: Option<Vec<KeyFinding>>,
) -> Result<Vec<ShownKey>, KeysError>
    requires { AreOfKeys (operations history.now) (option_map (λ found. found.items) findings) }
    ensures { MatchResult result
        (λ shown. AreShownKeys (operations history.now)
        (option_map (λ found. found.items) findings) shown.items)
        (RefusesKeySplit (operations history.now)) }
{
    match findings {
        Some(findings) => judged_shown_keys(alloc, history, findings),
        None => unjudged_shown_keys(alloc, history),
    }
}

/// Each key with its history, and what was found in it.
fn judged_shown_keys(
    alloc: Global,
    history: &[Op],
    findings: Vec<KeyFinding>,
) -> Result<Vec<ShownKey>, KeysError>
    requires { map (λ finding. view finding.key) findings.items
        ≡ history_keys (operations history.now) }
    ensures { MatchResult result
        (λ shown. AreShownKeys (operations history.now) (Some findings.items) shown.items)
        (RefusesKeySplit (operations history.now)) }
{
    let histories = histories_by_key(alloc, history)?;
    let mut shown = Vec::with_capacity(alloc, findings.len())?;
    for (finding, own) in findings.into_iter().zip(histories) {
        shown.push(judged_shown_key(own, finding))?;
    }
    Ok(shown)
}

/// A key with its history, and what was found in it.
fn judged_shown_key(own: KeyHistory, finding: KeyFinding) -> ShownKey
    ensures key { result.key ≡ own.key }
    ensures history { result.history ≡ own.history }
    ensures found { result.found ≡ Some finding.finding }
{
    ShownKey {
        key: own.key,
        history: own.history,
        found: Some(finding.finding),
    }
}

/// Each key with its history.
fn unjudged_shown_keys(alloc: Global, history: &[Op]) -> Result<Vec<ShownKey>, KeysError>
    ensures { MatchResult result
        (λ shown. AreShownKeys (operations history.now) None shown.items)
        (RefusesKeySplit (operations history.now)) }
{
    let histories = histories_by_key(alloc, history)?;
    let mut shown = Vec::with_capacity(alloc, histories.len())?;
    for own in histories {
        shown.push(ShownKey {
            key: own.key,
            history: own.history,
            found: None,
        })?;
    }
    Ok(shown)
}

/// Where the section of a shown key stands: the lower, the earlier.
fn section_rank(one: &ShownKey) -> u8
    ensures { result ≡ rule.section_rank one.now.found }
{
    match &one.found {
        Some(found) => rank_of_verdict(found.verdict()),
        None => 0,
    }
}

/// Where the section of a key with this verdict stands: first the not valid, then the unknown, last
/// the valid.
pub(crate) fn rank_of_verdict(verdict: Verdict) -> u8
    ensures { result ≡ rule.rank_of_verdict verdict }
{
    match verdict {
        Verdict::False => 0,
        Verdict::Unknown => 1,
        Verdict::True => 2,
    }
}

/// How two keys compare by where their sections stand.
fn compare_shown(a: &ShownKey, b: &ShownKey) -> Ordering
    ensures { is_lt result ≡ is_shown_before a.now b.now }
{
    section_rank(a).cmp(&section_rank(b))
}

/// The shown keys, in the order of their sections.
fn sorted(mut shown: Vec<ShownKey>) -> Result<Vec<ShownKey>, AllocError>
    ensures { IfOk result (λ sorted. sorted.items ≡ in_order is_shown_before shown.items) }
{
    shown.sort_by(compare_shown)?;
    Ok(shown)
}

/// The text in a heading of what was found.
fn found_text(found: Option<&Finding>) -> &'static [u8]
    ensures { result.now ≡ rule.found_text (option_copied found.entry) }
{
    match found {
        Some(found) => verdict_text(found.verdict()),
        None => b"",
    }
}

/// The text in a heading of a verdict.
fn verdict_text(verdict: Verdict) -> &'static [u8]
    ensures { result.now ≡ rule.verdict_text verdict }
{
    match verdict {
        Verdict::True => b": valid",
        Verdict::Unknown => b": unknown",
        Verdict::False => b": not valid",
    }
}

/// The heading of a section.
fn heading_of(alloc: Global, one: &ShownKey) -> Result<Vec<u8>, AllocError>
    ensures { IfOk result (λ heading. heading.items ≡ rule.heading_of (key_and_found one.now)) }
{
    let mut heading = Vec::from_slice(alloc, b"Key ")?;
    if write(&one.key, &mut heading).is_err() {
        return Err(AllocError);
    }
    heading.extend_from_slice(found_text(one.found.as_ref()))?;
    Ok(heading)
}

/// The section of a shown key.
fn section_of_shown(alloc: Global, one: ShownKey, choice: Choice) -> Result<Section, AllocError>
    ensures { IfOk result (IsSectionOfShown choice one) }
{
    let heading = heading_of(alloc, &one)?;
    section_of(alloc, heading, one.history, &[], one.found.as_ref(), choice)
}

/// The sections of shown keys, one behind another.
fn sections_of_shown(
    alloc: Global,
    shown: Vec<ShownKey>,
    choice: Choice,
) -> Result<Vec<Section>, AllocError>
    ensures { IfOk result
        (λ sections. AllZip (IsSectionOfShown choice) shown.items sections.items) }
{
    let mut sections = Vec::with_capacity(alloc, shown.len())?;
    for one in shown {
        sections.push(section_of_shown(alloc, one, choice)?)?;
    }
    Ok(sections)
}
