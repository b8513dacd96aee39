//! Entries of an environment's text, one by one. `specs/Text.antt` says which value spells which
//! entry.

ghost use Rattle.std.specs.Prelude.{◌≡◌, option_map};
ghost use Rattle.jh_edn.specs.View.{view, views};
ghost use Rattle.jh_env.specs.Text as text;
ghost use Rattle.jh_env.specs.TextInside.{entry_parsed};

use jh_edn::Value;

/// A key of the text under which entries stand.
#[derive(Clone, Copy, Debug)]
pub enum Section {
    Cut,
    Slow,
    Loss,
    Down,
    Clock,
}

/// The sections, in their order.
pub const SECTIONS: [Section; 5] = [
    Section::Cut,
    Section::Slow,
    Section::Loss,
    Section::Down,
    Section::Clock,
];

/// What an entry changes of a link.
#[derive(Clone, Copy, Debug)]
pub enum LinkChange {
    Cut,
    /// Milliseconds.
    Delay(i64),
    /// Level of loss.
    Loss(i64),
}

/// What an entry changes of a node.
#[derive(Clone, Copy, Debug)]
pub enum NodeChange {
    Pause,
    Kill,
    /// Milliseconds.
    Clock(i64),
}

/// An entry, with the names that it mentions.
#[derive(Clone, Copy, Debug)]
pub enum Entry<'a> {
    Link(&'a str, &'a str, LinkChange),
    Node(&'a str, NodeChange),
}

impl Section {
    /// Its keyword, without the colon.
    pub fn keyword(self) -> &'static str
        ensures { result.now ≡ text.keyword_of self }
    {
        match self {
            Section::Cut => "cut",
            Section::Slow => "slow",
            Section::Loss => "loss",
            Section::Down => "down",
            Section::Clock => "clock",
        }
    }

    /// The entry that a value spells under this key.
    pub fn entry_in(self, value: &Value) -> Option<Entry<'_>>
        ensures { option_map entry_parsed result ≡ text.entry_in self (view value.now) }
    {
        self.entry_of(value.elements()?)
    }

    /// The entry that the elements of a value spell under this key.
    fn entry_of(self, elements: &[Value]) -> Option<Entry<'_>>
        ensures { option_map entry_parsed result ≡ text.entry_of self (views elements.now) }
    {
        match (self, elements) {
            (Section::Cut, [Value::Str(from), Value::Str(to)]) => {
                Some(Entry::Link(from.as_str(), to.as_str(), LinkChange::Cut))
            }
            (Section::Slow, [Value::Str(from), Value::Str(to), Value::Int(ms)]) => {
                Some(Entry::Link(from.as_str(), to.as_str(), LinkChange::Delay(*ms)))
            }
            (Section::Loss, [Value::Str(from), Value::Str(to), Value::Int(level)]) => {
                Some(Entry::Link(from.as_str(), to.as_str(), LinkChange::Loss(*level)))
            }
            (Section::Down, [Value::Str(node), Value::Keyword(life)]) => match life.as_str() {
                "paused" => Some(Entry::Node(node.as_str(), NodeChange::Pause)),
                "killed" => Some(Entry::Node(node.as_str(), NodeChange::Kill)),
                _ => None,
            },
            (Section::Clock, [Value::Str(node), Value::Int(ms)]) => {
                Some(Entry::Node(node.as_str(), NodeChange::Clock(*ms)))
            }
            _ => None,
        }
    }
}
