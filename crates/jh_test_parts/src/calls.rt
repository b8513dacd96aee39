//! The calls of a test. `specs/Records.antt` says what is recorded of them.

ghost use Rattle.std.specs.Prelude.{◌≡◌, IfOk};
ghost use Rattle.jh_edn.specs.View.{view};

use jh_edn::Value;
use jh_ops::Request;
use std::alloc::{AllocError, Global};
use std::marker::Model;

/// The value of a call or of its completion. A contract sees the value as EDN has it.
#[derive(Debug, Drop)]
pub struct Datum {
    value: Value,
}

impl Model for Datum {
    ghost use Rattle.jh_edn.specs.Edn.{Edn};
    ghost use Rattle.jh_edn.specs.Code.{edn_coded};

    ghost Value = { Edn };

    ghost coded = { edn_coded };

    ghost use Rattle.jh_edn.specs.View.{view as view_of};

    ghost view = { λ a. view_of a.value };
}

/// A call: its request, and its value as it is written, with its key where keys are independent.
#[derive(Debug, Drop)]
pub struct ValuedCall {
    pub request: Request,
    pub value: Datum,
}

impl Datum {
    /// The value of this element.
    pub fn of(value: Value) -> Self
        ensures { result ≡ view value }
    {
        Datum { value }
    }

    /// The element.
    pub fn value(&self) -> &Value
        ensures { view result.now ≡ self.now }
    {
        &self.value
    }

    /// The same value once more. Takes time and memory in proportion to its size.
    pub fn copy(&self, alloc: Global) -> Result<Self, AllocError>
        ensures { IfOk result (λ copy. copy ≡ self.now) }
    {
        Ok(Datum {
            value: self.value.copy(alloc)?,
        })
    }
}

impl ValuedCall {
    /// The same call once more.
    pub fn copy(&self, alloc: Global) -> Result<Self, AllocError>
        ensures { IfOk result (λ copy. copy ≡ self.now) }
    {
        Ok(ValuedCall {
            request: self.request,
            value: self.value.copy(alloc)?,
        })
    }
}
