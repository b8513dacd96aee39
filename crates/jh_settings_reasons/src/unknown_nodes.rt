//! The name in a step that no node has. A step names nodes by the texts behind the kind of its fault,
//! alone, in a list or as the ends of links, and by the keys of a map. No clause says which name is
//! found; tests do.

use jh_edn::Value;
use jh_env::Nodes;

/// The text, where it is no node's name.
fn unknown_name<'a>(nodes: &Nodes, value: &'a Value) -> Option<&'a str> {
    match value {
        Value::Str(name) if nodes.find(name.as_str()).is_none() => Some(name.as_str()),
        _ => None,
    }
}

/// The first such text in what stands for a node, or for a link as its two ends.
fn unknown_in_item<'a>(nodes: &Nodes, item: &'a Value) -> Option<&'a str> {
    let Some(ends) = item.elements() else {
        return unknown_name(nodes, item);
    };
    for end in ends {
        if let Some(name) = unknown_name(nodes, end) {
            return Some(name);
        }
    }
    None
}

/// The first such text among nodes or links.
fn unknown_in_list<'a>(nodes: &Nodes, items: &'a [Value]) -> Option<&'a str> {
    for item in items {
        if let Some(name) = unknown_in_item(nodes, item) {
            return Some(name);
        }
    }
    None
}

/// The first such text among the keys of a map.
fn unknown_key<'a>(nodes: &Nodes, pairs: &'a [(Value, Value)]) -> Option<&'a str> {
    for pair in pairs {
        if let Some(name) = unknown_name(nodes, &pair.0) {
            return Some(name);
        }
    }
    None
}

/// The first such text in a part of a fault.
fn unknown_in_part<'a>(nodes: &Nodes, part: &'a Value) -> Option<&'a str> {
    match part {
        Value::Map(pairs) => unknown_key(nodes, pairs.as_slice()),
        Value::List(items) => unknown_in_list(nodes, items.as_slice()),
        Value::Vector(items) => unknown_in_list(nodes, items.as_slice()),
        _ => unknown_name(nodes, part),
    }
}

/// The fault that an entry `[AT [:begin ID FAULT]]` begins.
fn fault_in(entry: &Value) -> Option<&Value> {
    let [_, step] = entry.elements()? else {
        return None;
    };
    let [_, _, fault] = step.elements()? else {
        return None;
    };
    Some(fault)
}

/// The first name in an entry that is no node's.
pub(crate) fn unknown_node<'a>(nodes: &Nodes, entry: &'a Value) -> Option<&'a str> {
    for part in fault_in(entry)?.elements()? {
        if let Some(name) = unknown_in_part(nodes, part) {
            return Some(name);
        }
    }
    None
}
