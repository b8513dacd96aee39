//! Elements that were stale.

ghost use Rattle.std.specs.Prelude.{◌≡◌};
ghost use Rattle.jh_set_full.specs.StaleView.{view_stales};

use jh_edn::Value;
use std::marker::Model;

/// An element that a read lacked when it was known to be there, and later reads have.
#[derive(Debug, Drop)]
pub struct Stale {
    /// The element in normal form.
    pub element: Value,
    /// The whole milliseconds from when it was known to when the last read began that lacks it,
    /// where both have a time.
    pub milliseconds: Option<u64>,
}

/// Stale elements in order. A contract sees a list of pairs, each an element and its milliseconds.
#[derive(Debug, Drop)]
pub struct Stales {
    items: Vec<Stale>,
}

impl Model for Stales {
    ghost use Rattle.std.specs.Prelude.{List, ℕ, Option};
    ghost use Rattle.std.specs.Coded.{coded_list, coded_ℕ, coded×, coded_option};
    ghost use Rattle.jh_edn.specs.Edn.{Edn};
    ghost use Rattle.jh_edn.specs.Code.{edn_coded};
    ghost use Rattle.jh_set_full.specs.StaleView.{view_stales};

    ghost Value = { List (Edn × Option ℕ) };

    ghost coded = { coded_list (coded× edn_coded (coded_option coded_ℕ)) };

    ghost view = { λ a. view_stales a.items.items };
}

impl Stales {
    /// The stale elements of a vector. Takes no memory.
    pub fn of(items: Vec<Stale>) -> Stales
        ensures { result ≡ view_stales items.items }
    {
        Stales { items }
    }

    /// The elements in order.
    pub fn as_slice(&self) -> &[Stale]
        ensures { view_stales result.now ≡ self.now }
    {
        &self.items
    }
}
