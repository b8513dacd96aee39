//! Copies of operations.

ghost use Rattle.std.specs.Prelude.{◌≡◌, IfOk};
ghost use Rattle.jh_edn.specs.View.{view};
ghost use Rattle.jh_ops.specs.Operation.{operation, operation_with_value};

use crate::operation::Op;
use jh_edn::Value;
use std::alloc::{AllocError, Global};

impl Op {
    /// The same operation once more, with another value. Costs as much as the rest of it is large.
    ///
    /// Errors: where memory runs out.
    pub fn with_value(&self, alloc: Global, value: Value) -> Result<Op, AllocError>
        ensures { IfOk result
            (λ copy. operation copy ≡ operation_with_value (view value) (operation self.now)) }
    {
        Ok(Op {
            kind: self.kind,
            f: self.f.copy(alloc)?,
            value,
            process: self.process,
            time: self.time,
            index: self.index,
            rest: self.rest.copy(alloc)?,
        })
    }

    /// The same operation once more. Costs as much as the operation is large.
    ///
    /// Errors: where memory runs out.
    pub fn copy(&self, alloc: Global) -> Result<Op, AllocError>
        ensures { IfOk result (λ copy. operation copy ≡ operation self.now) }
    {
        let value = self.value.copy(alloc)?;
        self.with_value(alloc, value)
    }
}
