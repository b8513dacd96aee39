//! What was parsed of elements so far: operations, or the refusal of the first that means none.
//! `specs/ParsingInside.antt` says what each element adds. What is parsed here comes one by one;
//! `jh_ops::history_of` parses a list of values.

ghost use Rattle.std.specs.Prelude.{◌≡◌, ◌≢◌, ◌∷◌, [], OnOk, MatchResult, length};
ghost use Rattle.jh_edn.specs.Edn.{Edn};
ghost use Rattle.jh_histories.specs.ParsingInside.{HasParsed, IsListOrVector};
ghost use Rattle.jh_ops.specs.HistoryText.{history_error_at};

use jh_edn::{Sink, Value};
use jh_ops::{HistoryError, Op, OpError, op_of};
use std::alloc::{AllocError, Global};

/// What the elements so far mean.
#[derive(Drop)]
pub(crate) struct Parsing {
    pub(crate) ops: Vec<Op>,
    /// Why the first element that means no operation was refused. Nothing is parsed behind it.
    pub(crate) refusal: Option<HistoryError>,
}

impl Parsing {
    /// Nothing parsed so far.
    pub(crate) fn new(alloc: Global) -> Parsing
        ensures { HasParsed result [] }
    {
        Parsing {
            ops: Vec::new(alloc),
            refusal: None,
        }
    }

    /// What a list or a vector leaves that is the first of several values: it means no operation.
    pub(crate) fn of_sequence(alloc: Global) -> Parsing
        ensures { (value : Edn) → IsListOrVector value → HasParsed result (value ∷ []) }
    {
        Parsing {
            ops: Vec::new(alloc),
            refusal: Some(HistoryError::Op(0, OpError::NotMap)),
        }
    }

    /// The element behind those parsed is refused, unless memory ran out.
    fn refuse(&mut self, error: OpError) -> Result<(), AllocError>
        ensures refusal { OnOk result (self.new ≡
            record self.old {
              refusal = Some (history_error_at (length self.old.ops.items) error);
            }) }
        ensures other { OnOk result (error ≢ OpError.OutOfMemory) }
    {
        match error {
            OpError::OutOfMemory => Err(AllocError),
            _ => {
                self.refusal = Some(HistoryError::Op(self.ops.len(), error));
                Ok(())
            }
        }
    }

    /// The operations, where each element means one.
    pub(crate) fn history(self) -> Result<Vec<Op>, HistoryError>
        ensures parsed { MatchResult result
            (λ ops. (self.refusal ≡ None) × (ops ≡ self.ops))
            (λ e. self.refusal ≡ Some e) }
    {
        let Parsing { ops, refusal } = self;
        match refusal {
            None => Ok(ops),
            Some(error) => Err(error),
        }
    }
}

impl Sink for Parsing {
    ghost has_taken = { HasParsed };

    fn take(&mut self, alloc: Global, element: Value) -> Result<(), AllocError> {
        match self.refusal {
            Some(_) => Ok(()),
            None => match op_of(alloc, element) {
                Ok(op) => Ok(self.ops.push(op)?),
                Err(error) => self.refuse(error),
            },
        }
    }
}
