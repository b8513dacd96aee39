//! The records of a history, one after the other. `specs/Bands.antt` says where a history stands
//! behind each of them.

ghost use Rattle.std.specs.Prelude.{◌≡◌, [], IfOk, OnOk};
ghost use Rattle.jh_edn.specs.View.{views};
ghost use Rattle.jh_ops.specs.Operation.{operation, operations};
ghost use Rattle.jh_bands.specs.Bands.{active_behind, first_moment, moment_behind};
ghost use Rattle.jh_bands.specs.BandsInside.{AddChanges, AreFit, PassesTo, HasOwnIds};
ghost use Rattle.jh_bands.specs.BandsInside.{changes_from, view_changes, view_moment, view_replay};

use crate::edit::Change;
use crate::replay::Replay;
use crate::step::{Asked, asked_in, done_step};
use jh_edn::Value;
use jh_ops::Op;
use std::alloc::{AllocError, Global};

/// Where a history stands behind some of its records.
#[derive(Drop)]
pub(crate) struct Moment<'a> {
    /// What the last record of the nemesis asked for.
    pub(crate) asked: Option<Asked<'a>>,
    /// What the steps that were done have left.
    pub(crate) replay: Replay<'a>,
}

impl<'a> Moment<'a> {
    /// Before any record.
    fn new(alloc: Global) -> Moment<'a>
        ensures moment { view_moment result ≡ first_moment }
        ensures fit { AreFit result.replay }
    {
        Moment {
            asked: None,
            replay: Replay::new(alloc),
        }
    }

    /// Passes a record of the nemesis, and adds what becomes active at its index or ends there.
    fn pass(
        &mut self,
        alloc: Global,
        steps: &'a [Value],
        op: &'a Op,
        index: usize,
        changes: &mut Vec<Change<'a>>,
    ) -> Result<(), AllocError>
        requires fit { AreFit self.old.replay }
        requires distinct { HasOwnIds (view_replay self.old.replay) }
        ensures goes { OnOk result (PassesTo self.old self.new
            (moment_behind (views steps.now) (view_moment self.old) (operation op.now))) }
        ensures changes { OnOk result (AddChanges index (view_replay self.old.replay).active
            (view_replay self.new.replay).active changes.old.items changes.new.items) }
    {
        if op.process.is_client() {
            return Ok(());
        }
        let done = done_step(self.asked, op);
        self.asked = asked_in(steps, op);
        match done {
            Some(step) => self.replay.take_step(alloc, step, index, changes),
            None => Ok(()),
        }
    }
}

/// What becomes active and what ends, record by record.
pub(crate) fn changes_in<'a>(
    alloc: Global,
    steps: &'a [Value],
    history: &'a [Op],
) -> Result<Vec<Change<'a>>, AllocError>
    ensures { IfOk result (λ changes. view_changes changes.items
        ≡ changes_from 0 [] (active_behind (views steps.now) (operations history.now))) }
{
    let mut moment = Moment::new(alloc);
    let mut changes = Vec::new(alloc);
    for (index, op) in history.iter().enumerate() {
        moment.pass(alloc, steps, op, index, &mut changes)?;
    }
    Ok(changes)
}
