//! The text of an environment, written. `specs/TextWritten.antt` says what is written, and how.

ghost use Rattle.std.specs.Prelude.{◌≡◌, ◌∷◌, ◌++◌, map, option_map, filter_map, flat_map};
ghost use Rattle.std.specs.Prelude.{IfOk, OnOk};
ghost use Rattle.jh_edn.specs.Edn.{str, keyword, vector, items_of};
ghost use Rattle.jh_edn.specs.View.{view, views, view_pair, view_pairs};
ghost use Rattle.jh_tables.specs.Standing.{IsLinkInRange};
ghost use Rattle.jh_env.specs.Text.{nodes_keyword, sections};
ghost use Rattle.jh_env.specs.TextWritten as text;
ghost use Rattle.jh_env.specs.TextWritten.{edn_of_entry};
ghost use Rattle.jh_env.specs.TextInside.{entry_parsed, entries_parsed};

use super::entries::{Entry, LinkChange, NodeChange, SECTIONS, Section};
use crate::environment::Env;
use crate::names::Nodes;
use jh_edn::{Text, Value, Values};
use jh_tables::{Life, Link, Node, NodeCell};
use std::alloc::{AllocError, Global};

impl Section {
    /// What is written of a link under this key.
    fn link_change(self, link: Link) -> Option<LinkChange>
        requires { IsLinkInRange link }
        ensures { result ≡ text.link_change self link }
    {
        match self {
            Section::Cut if link.cut => Some(LinkChange::Cut),
            Section::Slow if link.delay > 0 => Some(LinkChange::Delay(link.delay as i64)),
            Section::Loss if link.loss > 0 => Some(LinkChange::Loss(i64::from(link.loss))),
            _ => None,
        }
    }

    /// What is written of a node under this key.
    fn node_change(self, cell: NodeCell) -> Option<NodeChange>
        ensures { result ≡ text.node_change self cell }
    {
        match (self, cell.process) {
            (Section::Down, Life::Paused) => Some(NodeChange::Pause),
            (Section::Down, Life::Killed) => Some(NodeChange::Kill),
            (Section::Clock, _) if cell.clock != 0 => Some(NodeChange::Clock(cell.clock)),
            _ => None,
        }
    }
}

/// The entry of a link under this key, if there is one.
fn link_entry(env: &Env, section: Section, from: Node, to: Node) -> Option<Entry<'_>>
    ensures { option_map entry_parsed result ≡ text.link_entry env.now section from to }
{
    let source = env.nodes().name(from)?;
    let destination = env.nodes().name(to)?;
    let link = env.link(from, to)?;
    Some(Entry::Link(source, destination, section.link_change(link)?))
}

/// The entry of a node under this key, if there is one.
fn node_entry(env: &Env, section: Section, node: Node) -> Option<Entry<'_>>
    ensures { option_map entry_parsed result ≡ text.node_entry env.now section node }
{
    let name = env.nodes().name(node)?;
    let cell = env.node(node)?;
    Some(Entry::Node(name, section.node_change(cell)?))
}

/// Appends the entries of the links from one node to these.
fn push_links_from<'a>(
    env: &'a Env,
    section: Section,
    from: Node,
    nodes: &[Node],
    entries: &mut Vec<Entry<'a>>,
) -> Result<(), AllocError>
    ensures { OnOk result (entries_parsed entries.new.items
        ≡ entries_parsed entries.old.items
        ++ filter_map (text.link_entry env.now section from) nodes.now) }
{
    for to in nodes {
        if let Some(entry) = link_entry(env, section, from, *to) {
            entries.push(entry)?;
        }
    }
    Ok(())
}

/// Appends the entries of the links between these nodes, by source and then by destination.
fn push_links<'a>(
    env: &'a Env,
    section: Section,
    nodes: &[Node],
    entries: &mut Vec<Entry<'a>>,
) -> Result<(), AllocError>
    ensures { OnOk result (entries_parsed entries.new.items
        ≡ entries_parsed entries.old.items
        ++ flat_map (λ from. filter_map (text.link_entry env.now section from) nodes.now)
        nodes.now) }
{
    for from in nodes {
        push_links_from(env, section, *from, nodes, entries)?;
    }
    Ok(())
}

/// Appends the entries of these nodes.
fn push_nodes<'a>(
    env: &'a Env,
    section: Section,
    nodes: &[Node],
    entries: &mut Vec<Entry<'a>>,
) -> Result<(), AllocError>
    ensures { OnOk result (entries_parsed entries.new.items
        ≡ entries_parsed entries.old.items
        ++ filter_map (text.node_entry env.now section) nodes.now) }
{
    for node in nodes {
        if let Some(entry) = node_entry(env, section, *node) {
            entries.push(entry)?;
        }
    }
    Ok(())
}

/// The entries under a key: by source and then by destination, or by node.
fn entries_of(alloc: Global, env: &Env, section: Section) -> Result<Vec<Entry<'_>>, AllocError>
    ensures { IfOk result
        (λ entries. entries_parsed entries.items ≡ text.entries_written env.now section) }
{
    let nodes = env.nodes().all();
    let mut entries = Vec::new(alloc);
    match section {
        Section::Down | Section::Clock => push_nodes(env, section, &nodes, &mut entries)?,
        _ => push_links(env, section, &nodes, &mut entries)?,
    }
    Ok(entries)
}

/// The string with this text.
pub fn string(alloc: Global, text: &str) -> Result<Value, AllocError>
    ensures { IfOk result (λ value. view value ≡ str text.now) }
{
    Ok(Value::Str(Text::of(alloc, text)?))
}

/// The value that spells an entry.
fn entry_value(alloc: Global, entry: &Entry) -> Result<Value, AllocError>
    ensures { IfOk result (λ value. view value ≡ edn_of_entry (entry_parsed entry.now)) }
{
    let mut values = Vec::new(alloc);
    match *entry {
        Entry::Link(from, to, says) => {
            values.push(string(alloc, from)?)?;
            values.push(string(alloc, to)?)?;
            match says {
                LinkChange::Cut => {}
                LinkChange::Delay(ms) => values.push(Value::Int(ms))?,
                LinkChange::Loss(level) => values.push(Value::Int(level))?,
            }
        }
        Entry::Node(name, says) => {
            values.push(string(alloc, name)?)?;
            values.push(match says {
                NodeChange::Pause => Value::keyword(alloc, "paused")?,
                NodeChange::Kill => Value::keyword(alloc, "killed")?,
                NodeChange::Clock(ms) => Value::Int(ms),
            })?;
        }
    }
    Ok(Value::Vector(Values::of(values)))
}

/// The values that spell the entries, one by one.
fn entry_values(alloc: Global, entries: &[Entry]) -> Result<Vec<Value>, AllocError>
    ensures { IfOk result
        (λ values. views values.items ≡ map edn_of_entry (entries_parsed entries.now)) }
{
    let mut values = Vec::new(alloc);
    for entry in entries {
        values.push(entry_value(alloc, entry)?)?;
    }
    Ok(values)
}

/// A key with its entries.
fn section_pair(alloc: Global, env: &Env, section: Section) -> Result<(Value, Value), AllocError>
    ensures { IfOk result (λ pair. view_pair pair ≡ text.section_pair env.now section) }
{
    let entries = entries_of(alloc, env, section)?;
    let values = entry_values(alloc, &entries)?;
    Ok((
        Value::keyword(alloc, section.keyword())?,
        Value::Vector(Values::of(values)),
    ))
}

/// The vector of all names, by place.
fn names_value(alloc: Global, nodes: &Nodes) -> Result<Value, AllocError>
    ensures { IfOk result (λ value. view value ≡ vector (items_of (map str nodes.now))) }
{
    let mut names = Vec::new(alloc);
    for node in nodes.all().as_slice() {
        if let Some(name) = nodes.name(*node) {
            names.push(string(alloc, name)?)?;
        }
    }
    Ok(Value::Vector(Values::of(names)))
}

/// All pairs of the text: the names, then the sections in order.
pub fn pairs_of(alloc: Global, env: &Env) -> Result<Vec<(Value, Value)>, AllocError>
    ensures { IfOk result (λ pairs. view_pairs pairs.items
        ≡ (keyword nodes_keyword, vector (items_of (map str env.now.names)))
        ∷ map (text.section_pair env.now) sections) }
{
    let mut pairs = Vec::new(alloc);
    pairs.push((
        Value::keyword(alloc, "nodes")?,
        names_value(alloc, env.nodes())?,
    ))?;
    for section in SECTIONS {
        pairs.push(section_pair(alloc, env, section)?)?;
    }
    Ok(pairs)
}
