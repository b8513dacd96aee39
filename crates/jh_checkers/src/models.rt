//! The consistency models that an option names. `specs/Models.antt` has the rule; a new model is a line
//! here and there.

ghost use Rattle.std.specs.Prelude.{◌≡◌};
ghost use Rattle.jh_checkers.specs.Models as rule;

use jh_txn::ConsistencyModel;

/// The model of a name, as `--model` has it. None where it is no name of a model.
pub fn model_named(name: &str) -> Option<ConsistencyModel>
    ensures { result ≡ rule.model_named name.now }
{
    match name {
        "strict-serializable" => Some(ConsistencyModel::StrictSerializable),
        "serializable" => Some(ConsistencyModel::Serializable),
        "strong-snapshot-isolation" => Some(ConsistencyModel::StrongSnapshotIsolation),
        "snapshot-isolation" => Some(ConsistencyModel::SnapshotIsolation),
        _ => None,
    }
}
