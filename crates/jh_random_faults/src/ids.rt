//! The ids of random faults. `specs/Ids.antt` says which they are.

ghost use Rattle.std.specs.Prelude.{◌≡◌};
ghost use Rattle.jh_random_faults.specs.Ids as rule;

use jh_nemesis::Step;

/// The id that a step begins or withdraws, and 0 where it names none.
fn id_named(step: &Step) -> u32
    ensures { result ≡ rule.id_named step.now }
{
    match step {
        Step::Begin(id, _) | Step::Withdraw(id) => *id,
        Step::WithdrawAll | Step::Undo | Step::Redo => 0,
    }
}

/// The greater of an id and the one that a step begins or withdraws. From 0 on, over all steps of a
/// schedule, that makes the greatest id of the schedule.
pub fn greater_id(id: u32, step: &Step) -> u32
    ensures { result ≡ rule.greater_id id step.now }
{
    id.max(id_named(step))
}

/// The id of the random fault of an index, from 0, where this is the greatest id of the schedule that it
/// is put into: those that follow, and 0 behind the greatest id of all.
pub fn fault_id(greatest_id: u32, fault: u32) -> u32
    ensures { result ≡ rule.fault_id greatest_id fault }
{
    let id = u64::from(greatest_id) + 1 + u64::from(fault);
    (id % (1 << 32)) as u32
}
