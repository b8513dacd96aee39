//! Values with how often each is there. `specs/Tallies.antt` says what a contract sees of them.

ghost use Rattle.std.specs.Prelude.{◌≡◌, ◌∷◌, [], ◌++◌, ◌↔◌, IsTrue, OnOk, filter};
ghost use Rattle.jh_edn.specs.View.{view};
ghost use Rattle.jh_check.specs.Tallies.{is_repeated, view_tally};

use jh_edn::Value;
use std::alloc::{AllocError, Global};
use std::marker::Model;

/// A value with how often it is there.
#[derive(Debug, Drop)]
pub struct Counted {
    /// The value in normal form.
    pub value: Value,
    /// How often it is there.
    pub times: usize,
}

/// Values in order, each with how often it is there. A contract sees a list of pairs.
#[derive(Debug, Drop)]
pub struct Tally {
    items: Vec<Counted>,
}

impl Model for Tally {
    ghost use Rattle.std.specs.Prelude.{List, ℕ};
    ghost use Rattle.std.specs.Coded.{coded_list, coded_ℕ, coded×};
    ghost use Rattle.jh_edn.specs.Edn.{Edn};
    ghost use Rattle.jh_edn.specs.Code.{edn_coded};
    ghost use Rattle.jh_check.specs.Tallies.{view_tally};

    ghost Value = { List (Edn × ℕ) };

    ghost coded = { coded_list (coded× edn_coded coded_ℕ) };

    ghost view = { λ a. view_tally a.items.items };
}

impl Tally {
    /// The tally of a vector. Takes no memory.
    pub fn of(items: Vec<Counted>) -> Tally
        ensures { result ≡ view_tally items.items }
    {
        Tally { items }
    }

    /// Whether no value is there.
    pub fn is_empty(&self) -> bool
        ensures { IsTrue result ↔ (self.now ≡ []) }
    {
        self.items.is_empty()
    }

    /// The values in order, each with how often it is there.
    pub fn as_slice(&self) -> &[Counted]
        ensures { view_tally result.now ≡ self.now }
    {
        &self.items
    }

    /// The vector, given back without memory.
    pub fn into_vec(self) -> Vec<Counted>
        ensures { view_tally result.items ≡ self }
    {
        let Tally { items } = self;
        items
    }
}

/// Puts a copy of the value last, where it is there more than once.
///
/// Errors: out of memory.
pub fn push_repeated(
    alloc: Global,
    value: &Value,
    times: usize,
    found: &mut Vec<Counted>,
) -> Result<(), AllocError>
    ensures { OnOk result (view_tally found.new.items
        ≡ view_tally found.old.items ++ filter is_repeated ((view value.now, times) ∷ [])) }
{
    if times > 1 {
        let value = value.copy(alloc)?;
        found.push(Counted { value, times })?;
    }
    Ok(())
}
