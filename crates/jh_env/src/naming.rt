//! The ways to name the links, nodes and clocks of a fault: by nodes, by their places, or by values
//! of EDN with their names. `specs/Naming.antt` says what each stands for. Another way is one more
//! `impl` here; how a fault is judged (`judging.rt`) does not change with it.

ghost use Rattle.std.specs.Prelude.{◌≡◌, ◌<◌, IfSome, length, option_map};
ghost use Rattle.jh_edn.specs.View.{view, view_pair};
ghost use Rattle.jh_env.specs.Naming as rule;

use crate::names::Nodes;
use jh_edn::Value;
use jh_tables::Node;

/// What stands for a link.
pub trait NamesLink {
    ghost use Rattle.std.specs.Prelude.{ℕ, List, Option};

    /// The places of its source and its destination among these names, where it has both.
    ghost linked: { List (List ℕ) → Self → Option (ℕ × ℕ) };

    /// The source and the destination, where both are nodes.
    fn ends(&self, nodes: &Nodes) -> Option<(Node, Node)>
        ensures ends { result ≡ linked nodes.now self.now }
        ensures known { IfSome result
            (λ l. (l.0 < length nodes.now) × (l.1 < length nodes.now)) };
}

/// What stands for a node.
pub trait NamesNode {
    ghost use Rattle.std.specs.Prelude.{ℕ, List, Option};

    /// The place of the node among these names, where it is there.
    ghost named: { List (List ℕ) → Self → Option ℕ };

    /// The node, where there is one.
    fn node(&self, nodes: &Nodes) -> Option<Node>
        ensures node { result ≡ named nodes.now self.now }
        ensures known { IfSome result (λ n. n < length nodes.now) };
}

/// What stands for a clock that is moved.
pub trait NamesBump {
    ghost use Rattle.std.specs.Prelude.{ℕ, ℤ, List, Option};

    /// The place of the clock's node among these names, where it is there, and milliseconds.
    ghost bumped: { List (List ℕ) → Self → Option (ℕ × ℤ) };

    /// The node, where there is one, and by how many milliseconds its clock is moved.
    fn bump(&self, nodes: &Nodes) -> Option<(Node, i64)>
        ensures bump { result ≡ bumped nodes.now self.now }
        ensures known { IfSome result (λ b. b.0 < length nodes.now) };
}

impl NamesLink for (Node, Node) {
    ghost use Rattle.jh_env.specs.Naming.{known_link};

    ghost linked = { known_link };

    fn ends(&self, nodes: &Nodes) -> Option<(Node, Node)> {
        Some((nodes.at(self.0.place())?, nodes.at(self.1.place())?))
    }
}

impl NamesLink for (u8, u8) {
    ghost use Rattle.jh_env.specs.Naming.{known_link};

    ghost linked = { known_link };

    fn ends(&self, nodes: &Nodes) -> Option<(Node, Node)> {
        Some((nodes.at(self.0)?, nodes.at(self.1)?))
    }
}

impl NamesLink for Value {
    ghost use Rattle.jh_edn.specs.View.{view};
    ghost use Rattle.jh_env.specs.Naming.{ends_of};

    ghost linked = { λ names link. ends_of names (view link) };

    fn ends(&self, nodes: &Nodes) -> Option<(Node, Node)> {
        let (source, destination) = link_names(self)?;
        Some((nodes.find(source)?, nodes.find(destination)?))
    }
}

impl NamesNode for Node {
    ghost use Rattle.jh_env.specs.Naming.{known_node};

    ghost named = { known_node };

    fn node(&self, nodes: &Nodes) -> Option<Node> {
        nodes.at(self.place())
    }
}

impl NamesNode for Value {
    ghost use Rattle.jh_edn.specs.View.{view};
    ghost use Rattle.jh_env.specs.Naming.{named_node};

    ghost named = { λ names node. named_node names (view node) };

    fn node(&self, nodes: &Nodes) -> Option<Node> {
        nodes.find(node_name(self)?)
    }
}

impl NamesBump for (Node, i64) {
    ghost use Rattle.jh_env.specs.Naming.{known_bump};

    ghost bumped = { known_bump };

    fn bump(&self, nodes: &Nodes) -> Option<(Node, i64)> {
        Some((nodes.at(self.0.place())?, self.1))
    }
}

impl NamesBump for (Value, Value) {
    ghost use Rattle.jh_edn.specs.View.{view_pair};
    ghost use Rattle.jh_env.specs.Naming.{bump_of};

    ghost bumped = { λ names bump. bump_of names (view_pair bump) };

    fn bump(&self, nodes: &Nodes) -> Option<(Node, i64)> {
        let (name, ms) = bump_spelled(self)?;
        Some((nodes.find(name)?, ms))
    }
}

/// The source's and the destination's name of a link.
pub fn link_names(link: &Value) -> Option<(&str, &str)>
    ensures { option_map (λ l. (l.0.now, l.1.now)) result ≡ rule.link_names (view link.now) }
{
    match link.elements()? {
        [Value::Str(source), Value::Str(destination)] => {
            Some((source.as_str(), destination.as_str()))
        }
        _ => None,
    }
}

/// The name of a node.
pub fn node_name(node: &Value) -> Option<&str>
    ensures { option_map (λ s. s.now) result ≡ rule.node_name (view node.now) }
{
    match node {
        Value::Str(name) => Some(name.as_str()),
        _ => None,
    }
}

/// The name of a node and by how many milliseconds its clock is moved.
pub fn bump_spelled(bump: &(Value, Value)) -> Option<(&str, i64)>
    ensures { option_map (λ b. (b.0.now, b.1)) result ≡ rule.bump_spelled (view_pair bump.now) }
{
    match (&bump.0, &bump.1) {
        (Value::Str(name), Value::Int(ms)) => Some((name.as_str(), *ms)),
        _ => None,
    }
}
