//! Faults as EDN values: how they are spelled. `specs/FaultText.antt` has the rule, case by case.

ghost use Rattle.std.specs.Prelude.{◌≡◌, option_map, is_some};
ghost use Rattle.std.specs.List.{list_all};
ghost use Rattle.jh_edn.specs.View.{view, views, view_pair, view_pairs};
ghost use Rattle.jh_env.specs.Naming as naming;
ghost use Rattle.jh_step_texts.specs.FaultText as rule;
ghost use Rattle.jh_step_texts.specs.SpellingInside.{spelling_of};

use crate::kinds::FaultKind;
use jh_edn::Value;
use jh_env::{GivenLinkFault, NodeFault, bump_spelled, link_names, node_name};

/// A cut that is named by its grudge over all nodes.
#[derive(Clone, Copy, Debug, PartialEq, Eq)]
pub enum NamedGrudge {
    Halves,
    Bridge,
    Ring,
    /// A ring over the nodes in the order that a seed gives, as the seed is written.
    ShuffledRing(i64),
}

/// A fault as it is spelled, before anything is judged: the values of its links, its nodes or its
/// bumps, each of the right shape; for a split, the name of the node that is left alone; or the
/// grudge that it is named by.
#[derive(Clone, Copy, Debug)]
pub enum SpelledFault<'a> {
    Links(GivenLinkFault, &'a [Value]),
    Nodes(NodeFault, &'a [Value]),
    Bumps(&'a [(Value, Value)]),
    SplitOne(&'a str),
    Grudge(NamedGrudge),
}

/// Whether a value has the shape of a link.
fn is_link(link: &Value) -> bool
    ensures { result ≡ is_some (naming.link_names (view link.now)) }
{
    link_names(link).is_some()
}

/// Whether a value has the shape of a node.
fn is_node(node: &Value) -> bool
    ensures { result ≡ is_some (naming.node_name (view node.now)) }
{
    node_name(node).is_some()
}

/// Whether a pair has the shape of a bump.
fn is_bump(bump: &(Value, Value)) -> bool
    ensures { result ≡ is_some (naming.bump_spelled (view_pair bump.now)) }
{
    bump_spelled(bump).is_some()
}

/// Whether each value has the shape of a link.
fn are_links(links: &[Value]) -> bool
    ensures { result ≡ list_all (λ l. is_some (naming.link_names (view l))) links.now }
{
    links.iter().all(|link| is_link(link))
}

/// Whether each value has the shape of a node.
fn are_nodes(nodes: &[Value]) -> bool
    ensures { result ≡ list_all (λ n. is_some (naming.node_name (view n))) nodes.now }
{
    nodes.iter().all(|node| is_node(node))
}

/// Whether each pair has the shape of a bump.
fn are_bumps(bumps: &[(Value, Value)]) -> bool
    ensures { result ≡ list_all (λ b. is_some (naming.bump_spelled (view_pair b))) bumps.now }
{
    bumps.iter().all(|bump| is_bump(bump))
}

/// The values, if each has the shape of a link.
fn all_links(links: &[Value]) -> Option<&[Value]>
    ensures { option_map (λ kept. views kept.now) result
        ≡ rule.all_of (λ l. is_some (naming.link_names l)) (views links.now) }
{
    if are_links(links) { Some(links) } else { None }
}

/// The values, if each has the shape of a node.
fn all_nodes(nodes: &[Value]) -> Option<&[Value]>
    ensures { option_map (λ kept. views kept.now) result
        ≡ rule.all_of (λ n. is_some (naming.node_name n)) (views nodes.now) }
{
    if are_nodes(nodes) { Some(nodes) } else { None }
}

/// The pairs, if each has the shape of a bump.
fn all_bumps(bumps: &[(Value, Value)]) -> Option<&[(Value, Value)]>
    ensures { option_map (λ kept. view_pairs kept.now) result
        ≡ rule.all_of (λ b. is_some (naming.bump_spelled b)) (view_pairs bumps.now) }
{
    if are_bumps(bumps) { Some(bumps) } else { None }
}

/// The elements of a list or a vector, if each has the shape of a link.
fn links_in(value: &Value) -> Option<&[Value]>
    ensures { option_map (λ links. views links.now) result ≡ rule.links_in (view value.now) }
{
    all_links(value.elements()?)
}

/// The elements of a list or a vector, if each has the shape of a node.
fn nodes_in(value: &Value) -> Option<&[Value]>
    ensures { option_map (λ nodes. views nodes.now) result ≡ rule.nodes_in (view value.now) }
{
    all_nodes(value.elements()?)
}

/// The pairs of a map, if each has the shape of a bump.
fn bumps_in(value: &Value) -> Option<&[(Value, Value)]>
    ensures { option_map (λ bumps. view_pairs bumps.now) result ≡ rule.bumps_in (view value.now) }
{
    match value {
        Value::Map(pairs) => all_bumps(pairs.as_slice()),
        _ => None,
    }
}

/// The fault that a keyword alone spells, if it does.
fn spelled_by_keyword(name: &str) -> Option<SpelledFault<'_>>
    ensures { option_map spelling_of result ≡ rule.spelled_by_keyword name.now }
{
    match name {
        "halves" => Some(SpelledFault::Grudge(NamedGrudge::Halves)),
        "bridge" => Some(SpelledFault::Grudge(NamedGrudge::Bridge)),
        "ring" => Some(SpelledFault::Grudge(NamedGrudge::Ring)),
        _ => None,
    }
}

/// The ring in the order that a seed gives, if the value is an integer.
fn spelled_ring(seed: &Value) -> Option<SpelledFault<'_>>
    ensures { option_map spelling_of result ≡ rule.spelled_ring (view seed.now) }
{
    match seed {
        Value::Int(seed) => Some(SpelledFault::Grudge(NamedGrudge::ShuffledRing(*seed))),
        _ => None,
    }
}

/// The cut of a grudge that a keyword and a value spell, if they do.
fn spelled_grudge<'a>(name: &str, value: &'a Value) -> Option<SpelledFault<'a>>
    ensures { option_map spelling_of result ≡ rule.spelled_grudge name.now (view value.now) }
{
    match name {
        "split-one" => Some(SpelledFault::SplitOne(node_name(value)?)),
        "ring" => spelled_ring(value),
        _ => None,
    }
}

/// The fault that a keyword and a value spell, without an amount, if they do.
fn unmeasured_fault<'a>(name: &str, value: &'a Value) -> Option<SpelledFault<'a>>
    ensures { option_map spelling_of result ≡ rule.unmeasured_fault name.now (view value.now) }
{
    match FaultKind::named(name) {
        Some(FaultKind::Cut) => Some(SpelledFault::Links(GivenLinkFault::Cut, links_in(value)?)),
        Some(FaultKind::Pause) => Some(SpelledFault::Nodes(NodeFault::Pause, nodes_in(value)?)),
        Some(FaultKind::Kill) => Some(SpelledFault::Nodes(NodeFault::Kill, nodes_in(value)?)),
        Some(FaultKind::Bump) => Some(SpelledFault::Bumps(bumps_in(value)?)),
        Some(FaultKind::Slow | FaultKind::Loss | FaultKind::Fix) => None,
        None => spelled_grudge(name, value),
    }
}

/// What a fault of this kind does to its links with an amount, if it has one.
fn measured(kind: FaultKind, amount: i64) -> Option<GivenLinkFault>
    ensures { result ≡ rule.measured kind amount }
{
    let amount = i128::from(amount);
    match kind {
        FaultKind::Slow => Some(GivenLinkFault::Slow(amount)),
        FaultKind::Loss => Some(GivenLinkFault::Loss(amount)),
        FaultKind::Fix => Some(GivenLinkFault::Fix(amount)),
        FaultKind::Cut | FaultKind::Pause | FaultKind::Kill | FaultKind::Bump => None,
    }
}

/// The fault that a keyword, an amount and a value spell, if they do.
fn measured_fault<'a>(name: &str, amount: i64, value: &'a Value) -> Option<SpelledFault<'a>>
    ensures { option_map spelling_of result
        ≡ rule.measured_fault name.now amount (view value.now) }
{
    let given = measured(FaultKind::named(name)?, amount)?;
    Some(SpelledFault::Links(given, links_in(value)?))
}

/// How these elements of a list or a vector spell a fault, if they do.
fn spelling_in(elements: &[Value]) -> Option<SpelledFault<'_>>
    ensures { option_map spelling_of result ≡ rule.spelling_in (views elements.now) }
{
    match elements {
        [Value::Keyword(name)] => spelled_by_keyword(name.as_str()),
        [Value::Keyword(name), value] => unmeasured_fault(name.as_str(), value),
        [Value::Keyword(name), Value::Int(amount), value] => {
            measured_fault(name.as_str(), *amount, value)
        }
        _ => None,
    }
}

/// How a value spells a fault, if it does.
pub fn fault_spelling(fault: &Value) -> Option<SpelledFault<'_>>
    ensures { option_map spelling_of result ≡ rule.fault_spelling (view fault.now) }
{
    spelling_in(fault.elements()?)
}
