//! EDN values, as programs hold them.
//!
//! `specs/Edn.antt` says what a contract sees of a value and `specs/View.antt` how it sees it. A
//! kind of element is added here, there and in `specs/Code.antt`.

ghost use Rattle.std.specs.Prelude.{◌≡◌, ◌↔◌, [], length, IsTrue, IfErr, IfOk, None, Some, option_map};
ghost use Rattle.jh_edn.specs.Edn as edn;
ghost use Rattle.jh_edn.specs.Edn.{elements_of};
ghost use Rattle.jh_edn.specs.View.{view, views, view_pairs};

use crate::text::Text;
use std::alloc::{AllocError, Global};
use std::boxed::Box;
use std::marker::Model;

/// An EDN element: one of the kinds that EDN's format description lists under "Built-in elements",
/// floating point numbers left out.
#[cycle(value)]
#[derive(Debug)]
pub enum Value {
    Nil,
    Bool(bool),
    /// An integer of 64 bits, whether or not an `N` stood behind it.
    Int(i64),
    Char(char),
    /// A string, without its quotes and with its escapes resolved.
    Str(Text),
    /// A keyword, without its colon.
    Keyword(Text),
    Symbol(Text),
    List(Values),
    Vector(Values),
    /// A map, its pairs in the order in which they were written.
    Map(Pairs),
    /// A set, its elements in the order in which they were written.
    Set(Values),
    Tagged(Tagged),
}

// This isn't derived, because a derived drop would be proved at each way out of every function that
// holds a value, once for each of the twelve kinds. Written out, it is proved once, and is one call
// there.
impl Drop for Value {
    fn drop(self) {
        match self {
            Value::Nil
            | Value::Bool(_)
            | Value::Int(_)
            | Value::Char(_)
            | Value::Str(_)
            | Value::Keyword(_)
            | Value::Symbol(_)
            | Value::List(_)
            | Value::Vector(_)
            | Value::Map(_)
            | Value::Set(_)
            | Value::Tagged(_) => (),
        }
    }
}

/// Values in order. A contract sees a list.
#[cycle(value)]
#[derive(Debug, Drop)]
pub struct Values {
    pub(crate) items: Vec<Value>,
}

impl Model for Values {
    ghost use Rattle.std.specs.Prelude.{List};
    ghost use Rattle.std.specs.Coded.{coded_list};
    ghost use Rattle.jh_edn.specs.Edn.{Edn, size_list};
    ghost use Rattle.jh_edn.specs.Code.{edn_coded};

    ghost Value = { List Edn };

    ghost coded = { coded_list edn_coded };

    ghost use Rattle.jh_edn.specs.View.{views};

    ghost view = { λ a. views a.items.items };

    ghost size = { size_list };

    ghost use Rattle.std.proofs.Common.{arith};
    ghost use Rattle.jh_edn.specs.FallsInside.{values_fall};

    ghost size_decreases = { λ a h. Prim.omega (arith, values_fall a.items.items) };
}

/// The pairs of a map, each a key with its value, in order. A contract sees a list of pairs.
#[cycle(value)]
#[derive(Debug, Drop)]
pub struct Pairs {
    pub(crate) items: Vec<(Value, Value)>,
}

impl Model for Pairs {
    ghost use Rattle.std.specs.Prelude.{List};
    ghost use Rattle.std.specs.Coded.{coded_list, coded×};
    ghost use Rattle.jh_edn.specs.Edn.{Edn, size_pairs};
    ghost use Rattle.jh_edn.specs.Code.{edn_coded};

    ghost Value = { List (Edn × Edn) };

    ghost coded = { coded_list (coded× edn_coded edn_coded) };

    ghost use Rattle.jh_edn.specs.View.{view_pairs};

    ghost view = { λ a. view_pairs a.items.items };

    ghost size = { size_pairs };

    ghost use Rattle.jh_edn.specs.FallsInside.{pairs_fall};

    ghost size_decreases = { λ a h. pairs_fall a };
}

/// A tagged element: a tag, and the element behind it. A contract sees both, as a pair.
#[cycle(value)]
#[derive(Debug, Drop)]
pub struct Tagged {
    pub(crate) inside: Box<(Text, Value)>,
}

impl Model for Tagged {
    ghost use Rattle.std.specs.Prelude.{List, ℕ};
    ghost use Rattle.std.specs.Coded.{coded_list, coded_ℕ, coded×};
    ghost use Rattle.jh_edn.specs.Edn.{Edn, size_of};
    ghost use Rattle.jh_edn.specs.Code.{edn_coded};

    ghost Value = { List ℕ × Edn };

    ghost coded = { coded× (coded_list coded_ℕ) edn_coded };

    ghost use Rattle.jh_edn.specs.View.{view as view_of};

    ghost view = { λ a. (a.inside.value.0, view_of a.inside.value.1) };

    ghost size = { λ t. size_of t.1 };

    ghost use Rattle.std.proofs.Common.{arith};
    ghost use Rattle.jh_edn.specs.FallsInside.{deep};

    ghost size_decreases = { λ a h. Prim.omega (arith, deep a.inside.value.1) };
}

impl Value {
    /// The keyword of this name, without its colon. Whether the name is one that a text may have is
    /// not looked at.
    ///
    /// Errors: where there is no memory to hold the name.
    pub fn keyword(alloc: Global, name: &str) -> Result<Value, AllocError>
        ensures { IfOk result (λ value. view value ≡ edn.keyword name.now) }
    {
        Ok(Value::Keyword(Text::of(alloc, name)?))
    }

    /// Whether the value is the keyword of this name, without its colon.
    pub fn is_keyword(&self, name: &str) -> bool
        ensures { result ≡ edn.is_keyword name.now (view self.now) }
    {
        match self {
            Value::Keyword(text) => text.as_str() == name,
            _ => false,
        }
    }

    /// Whether the value is nil.
    pub fn is_nil(&self) -> bool
        ensures { result ≡ edn.is_nil (view self.now) }
    {
        matches!(self, Value::Nil)
    }

    /// Whether the value is an integer.
    pub fn is_integer(&self) -> bool
        ensures { result ≡ edn.is_integer (view self.now) }
    {
        matches!(self, Value::Int(_))
    }

    /// The integer, where the value is one.
    pub fn as_integer(&self) -> Option<i64>
        ensures { result ≡ edn.integer_of (view self.now) }
    {
        match self {
            Value::Int(number) => Some(*number),
            _ => None,
        }
    }

    /// The elements of a sequence, a list or a vector, where the value is one.
    pub fn elements(&self) -> Option<&[Value]>
        ensures { option_map (λ xs. views xs.now) result ≡ elements_of (view self.now) }
    {
        match self {
            Value::List(items) => Some(items.as_slice()),
            Value::Vector(items) => Some(items.as_slice()),
            _ => None,
        }
    }

    /// The tagged element, where the value is one, and any other value as it is.
    pub fn into_tagged(self) -> Result<Tagged, Value>
        ensures tagged { IfOk result (λ t. view self ≡ edn.tagged t.0 t.1) }
        ensures other { IfErr result
            (λ value. (value ≡ self) × (edn.untagged_value (view self) ≡ view self)) }
    {
        match self {
            Value::Tagged(tagged) => Ok(tagged),
            other => Err(other),
        }
    }

    /// The value without the tags around it.
    pub fn untagged(self) -> Value
        ensures { view result ≡ edn.untagged_value (view self) }
    {
        let mut value = self;
        loop {
            match value.into_tagged() {
                Ok(tagged) => value = tagged.into_parts().1,
                Err(other) => return other,
            }
        }
    }

    /// The elements of a sequence, a list or a vector, given back without memory, and any other
    /// value as it is.
    pub fn into_elements(self) -> Result<Vec<Value>, Value>
        ensures elements { IfOk result
            (λ items. elements_of (view self) ≡ Some (views items.items)) }
        ensures other { IfErr result
            (λ value. (elements_of (view self) ≡ None) × (value ≡ self)) }
    {
        match self {
            Value::List(items) => Ok(items.into_vec()),
            Value::Vector(items) => Ok(items.into_vec()),
            other => Err(other),
        }
    }

    /// The pairs of a map, where the value is one, given back without memory.
    pub fn into_pairs(self) -> Option<Vec<(Value, Value)>>
        ensures { option_map (λ pairs. view_pairs pairs.items) result
            ≡ edn.map_pairs (view self) }
    {
        match self {
            Value::Map(pairs) => Some(pairs.into_vec()),
            _ => None,
        }
    }
}

impl Tagged {
    /// The element behind a tag.
    ///
    /// Errors: where there is no memory to hold the element.
    pub fn of(alloc: Global, tag: Text, element: Value) -> Result<Tagged, AllocError>
        ensures { IfOk result (λ t. (t.0 ≡ tag) × (t.1 ≡ view element)) }
    {
        Ok(Tagged {
            inside: Box::new(alloc, (tag, element))?,
        })
    }

    /// The tag, without its `#`.
    pub fn tag(&self) -> &str
        ensures { result.now ≡ self.now.0 }
    {
        self.inside.0.as_str()
    }

    /// The element behind the tag.
    pub fn element(&self) -> &Value
        ensures { view result.now ≡ self.now.1 }
    {
        &self.inside.1
    }

    /// The tag and the element, given back without memory.
    pub fn into_parts(self) -> (Text, Value)
        ensures tag { result.0 ≡ self.0 }
        ensures element { view result.1 ≡ self.1 }
    {
        let Tagged { inside } = self;
        Box::into_inner(inside)
    }
}

impl Values {
    /// The values of a vector. Takes no memory.
    pub fn of(items: Vec<Value>) -> Values
        ensures { result ≡ views items.items }
    {
        Values { items }
    }

    /// How many values there are.
    pub fn len(&self) -> usize
        ensures { result ≡ length self.now }
    {
        self.items.len()
    }

    /// Whether there is no value.
    pub fn is_empty(&self) -> bool
        ensures { IsTrue result ↔ (self.now ≡ []) }
    {
        self.items.is_empty()
    }

    /// The values as a slice.
    pub fn as_slice(&self) -> &[Value]
        ensures { views result.now ≡ self.now }
    {
        self.items.as_slice()
    }

    /// The vector, given back without memory.
    pub fn into_vec(self) -> Vec<Value>
        ensures { views result.items ≡ self }
    {
        let Values { items } = self;
        items
    }
}

impl Pairs {
    /// The pairs of a vector. Takes no memory, and does not look for equal keys.
    pub fn of(items: Vec<(Value, Value)>) -> Pairs
        ensures { result ≡ view_pairs items.items }
    {
        Pairs { items }
    }

    /// How many pairs there are.
    pub fn len(&self) -> usize
        ensures { result ≡ length self.now }
    {
        self.as_slice().len()
    }

    /// Whether there is no pair.
    pub fn is_empty(&self) -> bool
        ensures { IsTrue result ↔ (self.now ≡ []) }
    {
        self.as_slice().is_empty()
    }

    /// The pairs as a slice.
    pub fn as_slice(&self) -> &[(Value, Value)]
        ensures { view_pairs result.now ≡ self.now }
    {
        &self.items
    }

    /// The vector, given back without memory.
    pub fn into_vec(self) -> Vec<(Value, Value)>
        ensures { view_pairs result.items ≡ self }
    {
        let Pairs { items } = self;
        items
    }
}
