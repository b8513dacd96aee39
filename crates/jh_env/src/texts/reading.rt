//! The shape of an environment's text: its keys, its names and its entries. `specs/Text.antt` says
//! what they are.

ghost use Rattle.std.specs.Prelude.{◌≡◌, ◌∷◌, map, bytes_eq};
ghost use Rattle.std.specs.Prelude.{MatchResult};
ghost use Rattle.std.specs.List.{list_any, list_all};
ghost use Rattle.jh_edn.specs.View.{view, view_pair, view_pairs};
ghost use Rattle.jh_env.specs.Text as text;
ghost use Rattle.jh_env.specs.Text.{nodes_keyword, sections};
ghost use Rattle.jh_env.specs.TextInside.{entries_parsed, list_with_front, RefusesShape};

use super::EnvTextError;
use super::entries::{Entry, SECTIONS, Section};
use jh_edn::{Value, value_under};
use std::alloc::Global;

/// Whether one of the six keys has this name: `nodes`, or that of a section.
fn is_known_keyword(name: &str) -> bool
    ensures { result ≡ list_any (bytes_eq name.now) (nodes_keyword ∷ map text.keyword_of sections) }
{
    matches!(name, "nodes" | "cut" | "slow" | "loss" | "down" | "clock")
}

/// Whether the key of the pair is one of the six.
fn has_known_key(pair: &(Value, Value)) -> bool
    ensures { result ≡ text.has_known_key (view_pair pair.now) }
{
    match &pair.0 {
        Value::Keyword(text) => is_known_keyword(text.as_str()),
        _ => false,
    }
}

/// Whether the key of each pair is one of the six.
fn have_known_keys(pairs: &[(Value, Value)]) -> bool
    ensures { result ≡ list_all (λ pair. text.has_known_key (view_pair pair)) pairs.now }
{
    pairs.iter().all(|pair| has_known_key(pair))
}

/// The value of `:nodes` and all pairs of a map that has no unknown key.
pub fn keys_of(value: &Value) -> Result<(&Value, &[(Value, Value)]), EnvTextError>
    ensures { MatchResult result
        (λ keys. text.text_keys (view value.now)
        ≡ Ok (record { nodes = view keys.0.now; pairs = view_pairs keys.1.now }))
        (λ e. text.text_keys (view value.now) ≡ Err e) }
{
    let Value::Map(pairs) = value else {
        return Err(EnvTextError::NotMap);
    };
    let pairs = pairs.as_slice();
    if !have_known_keys(pairs) {
        return Err(EnvTextError::UnknownKey);
    }
    match value_under("nodes", pairs) {
        Some(nodes) => Ok((nodes, pairs)),
        None => Err(EnvTextError::MissingNodes),
    }
}

/// The names under `:nodes`.
pub fn names_of(alloc: Global, value: &Value) -> Result<Vec<&str>, EnvTextError>
    ensures { MatchResult result
        (λ names. text.names_of (view value.now) ≡ Some (map (λ s. s.now) names.items))
        (RefusesShape (text.names_of (view value.now))) }
{
    let elements = value.elements().ok_or(EnvTextError::BadEntry)?;
    let mut names = Vec::new(alloc);
    for element in elements {
        let Value::Str(name) = element else {
            return Err(EnvTextError::BadEntry);
        };
        names.push(name.as_str())?;
    }
    Ok(names)
}

/// All entries, section by section.
pub fn all_entries(alloc: Global, pairs: &[(Value, Value)]) -> Result<Vec<Entry<'_>>, EnvTextError>
    ensures { MatchResult result
        (λ entries. text.all_entries (view_pairs pairs.now) ≡ Some (entries_parsed entries.items))
        (RefusesShape (text.all_entries (view_pairs pairs.now))) }
{
    let mut entries = Vec::new(alloc);
    for section in SECTIONS {
        push_section(section, pairs, &mut entries)?;
    }
    Ok(entries)
}

/// Appends the entries of a section; a missing key means none.
fn push_section<'a>(
    section: Section,
    pairs: &'a [(Value, Value)],
    entries: &mut Vec<Entry<'a>>,
) -> Result<(), EnvTextError>
    ensures { MatchResult result
        (λ _. list_with_front (entries_parsed entries.old.items)
        (text.entries_under (view_pairs pairs.now) section)
        ≡ Some (entries_parsed entries.new.items))
        (RefusesShape (text.entries_under (view_pairs pairs.now) section)) }
{
    match value_under(section.keyword(), pairs) {
        Some(value) => push_entries(section, value, entries),
        None => Ok(()),
    }
}

/// Appends the entries of the value under the key of a section.
fn push_entries<'a>(
    section: Section,
    value: &'a Value,
    entries: &mut Vec<Entry<'a>>,
) -> Result<(), EnvTextError>
    ensures { MatchResult result
        (λ _. list_with_front (entries_parsed entries.old.items)
        (text.entries_of section (view value.now)) ≡ Some (entries_parsed entries.new.items))
        (RefusesShape (text.entries_of section (view value.now))) }
{
    let elements = value.elements().ok_or(EnvTextError::BadEntry)?;
    for element in elements {
        entries.push(section.entry_in(element).ok_or(EnvTextError::BadEntry)?)?;
    }
    Ok(())
}
