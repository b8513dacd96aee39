//! Copies of values.

ghost use Rattle.std.specs.Prelude.{◌≡◌, IfOk};
ghost use Rattle.jh_edn.specs.View.{view};

use crate::text::Text;
use crate::value::{Pairs, Tagged, Value, Values};
use std::alloc::{AllocError, Global};

impl Text {
    /// A text of the same characters.
    ///
    /// Errors: where there is no memory for it.
    pub fn copy(&self, alloc: Global) -> Result<Text, AllocError>
        ensures { IfOk result (λ text. text ≡ self.now) }
    {
        Text::of(alloc, self.as_str())
    }
}

impl Value {
    /// The same value once more: lists stay lists, and members stay in their order. Costs as much
    /// as the value is large.
    ///
    /// Errors: where there is no memory for it.
    #[cycle(copy)]
    pub fn copy(&self, alloc: Global) -> Result<Value, AllocError>
        ensures { IfOk result (λ value. view value ≡ view self.now) }
    {
        match self {
            Value::Nil => Ok(Value::Nil),
            Value::Bool(truth) => Ok(Value::Bool(*truth)),
            Value::Int(number) => Ok(Value::Int(*number)),
            Value::Char(character) => Ok(Value::Char(*character)),
            Value::Str(text) => Ok(Value::Str(text.copy(alloc)?)),
            Value::Keyword(name) => Ok(Value::Keyword(name.copy(alloc)?)),
            Value::Symbol(name) => Ok(Value::Symbol(name.copy(alloc)?)),
            Value::List(items) => Ok(Value::List(copy_items(alloc, items)?)),
            Value::Vector(items) => Ok(Value::Vector(copy_items(alloc, items)?)),
            Value::Map(pairs) => Ok(Value::Map(copy_pairs(alloc, pairs)?)),
            Value::Set(items) => Ok(Value::Set(copy_items(alloc, items)?)),
            Value::Tagged(tagged) => Ok(Value::Tagged(copy_tagged(alloc, tagged)?)),
        }
    }
}

impl Pairs {
    /// The same pairs once more, in their order. Costs as much as they are large.
    ///
    /// Errors: where there is no memory for them.
    pub fn copy(&self, alloc: Global) -> Result<Pairs, AllocError>
        ensures { IfOk result (λ copies. copies ≡ self.now) }
    {
        copy_pairs(alloc, self)
    }
}

/// The same elements once more.
#[cycle(copy)]
fn copy_items(alloc: Global, items: &Values) -> Result<Values, AllocError>
    ensures { IfOk result (λ copies. copies ≡ items.now) }
{
    let mut copies = Vec::with_capacity(alloc, items.items.len())?;
    for item in &items.items {
        copies.push(item.copy(alloc)?)?;
    }
    Ok(Values::of(copies))
}

/// The same pairs once more.
#[cycle(copy)]
fn copy_pairs(alloc: Global, pairs: &Pairs) -> Result<Pairs, AllocError>
    ensures { IfOk result (λ copies. copies ≡ pairs.now) }
{
    let mut copies = Vec::with_capacity(alloc, pairs.items.len())?;
    for pair in &pairs.items {
        copies.push((pair.0.copy(alloc)?, pair.1.copy(alloc)?))?;
    }
    Ok(Pairs::of(copies))
}

/// The same tagged element once more.
#[cycle(copy)]
fn copy_tagged(alloc: Global, tagged: &Tagged) -> Result<Tagged, AllocError>
    ensures { IfOk result (λ copy. copy ≡ tagged.now) }
{
    Tagged::of(
        alloc,
        tagged.inside.0.copy(alloc)?,
        tagged.inside.1.copy(alloc)?,
    )
}
