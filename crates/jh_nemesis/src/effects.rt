//! What an accepted step does to an environment, and what taking it back does.
//! `specs/AcceptedInside.antt` says which faults are active after so many steps.

ghost use Rattle.std.specs.Prelude.{◌≤◌, ◌<◌, ◌+◌, [], length};
ghost use Rattle.std.specs.List.{All, AllPairs};
ghost use Rattle.jh_env.specs.Faults.{FitsCount, fault_size};
ghost use Rattle.jh_env.specs.Overlay.{KeepsStart, StandsWith, tables_of, work_of};
ghost use Rattle.jh_tables.specs.Standing.{IsPut, IsTaken, StandsAtSome};
ghost use Rattle.jh_nemesis.specs.AcceptedInside.{active_after, faults_at, moment, accepted_at};
ghost use Rattle.jh_nemesis.specs.AcceptedInside.{fault_with_stamp, faults_with_stamps, AreRight};
ghost use Rattle.jh_nemesis.specs.AcceptedInside.{AreStamps, IsBegin};
ghost use Rattle.jh_nemesis.specs.Steps.{max_active, max_steps};
ghost use Rattle.jh_nemesis.specs.Work.{size_between, size_of_all};

use crate::accepted::AcceptedStep;
use jh_env::Env;

/// Puts the fault of a begin on the environment, under its stamp.
fn put_begun(env: &mut Env, accepted: &[AcceptedStep], stamp: usize)
    requires begin { (stamp < length accepted.now) × IsBegin (accepted_at accepted.now stamp) }
    requires few { length accepted.now ≤ max_steps }
    requires fits { FitsCount (length env.old.names) (fault_with_stamp accepted.now stamp).1 }
    requires room { env.old.laid < max_active }
    ensures stands { IsPut (fault_with_stamp accepted.now stamp) (tables_of env.old)
        (tables_of env.new) }
    ensures kept { KeepsStart env.old env.new }
    ensures work { work_of env.new
        ≤ work_of env.old + fault_size (fault_with_stamp accepted.now stamp).1 }
{
    if let AcceptedStep::Begun(_, fault) = &accepted[stamp] {
        env.put(fault, stamp as u32);
    }
}

/// Takes the fault of a begin off the environment.
fn take_begun(env: &mut Env, accepted: &[AcceptedStep], stamp: usize)
    requires begin { (stamp < length accepted.now) × IsBegin (accepted_at accepted.now stamp) }
    requires few { length accepted.now ≤ max_steps }
    requires stands { StandsAtSome (tables_of env.old) (fault_with_stamp accepted.now stamp) }
    ensures stands { IsTaken (fault_with_stamp accepted.now stamp) (tables_of env.old)
        (tables_of env.new) }
    ensures kept { KeepsStart env.old env.new }
    ensures work { work_of env.new
        ≤ work_of env.old + fault_size (fault_with_stamp accepted.now stamp).1 }
{
    if let AcceptedStep::Begun(_, fault) = &accepted[stamp] {
        env.take(fault, stamp as u32);
    }
}

/// Puts the faults of these stamps on an environment that stands for none.
fn put_each(env: &mut Env, accepted: &[AcceptedStep], stamps: &[usize])
    requires begins { AreStamps accepted.now stamps.now }
    requires few { (length accepted.now ≤ max_steps) × (length stamps.now ≤ max_active) }
    requires fit { All
        (λ k. FitsCount (length env.old.names) (fault_with_stamp accepted.now k).1) stamps.now }
    requires rise { AllPairs (λ x y. x < y) stamps.now }
    requires stands { StandsWith env.old [] }
    ensures stands { StandsWith env.new (faults_with_stamps accepted.now stamps.now) }
    ensures kept { KeepsStart env.old env.new }
    ensures work { work_of env.new
        ≤ work_of env.old + size_of_all (faults_at accepted.now stamps.now) }
{
    for stamp in stamps {
        put_begun(env, accepted, *stamp);
    }
}

/// Takes the faults of these stamps, for which the environment stands, off it.
fn take_each(env: &mut Env, accepted: &[AcceptedStep], stamps: &[usize])
    requires begins { AreStamps accepted.now stamps.now }
    requires few { length accepted.now ≤ max_steps }
    requires stands { StandsWith env.old (faults_with_stamps accepted.now stamps.now) }
    ensures stands { StandsWith env.new [] }
    ensures kept { KeepsStart env.old env.new }
    ensures work { work_of env.new
        ≤ work_of env.old + size_of_all (faults_at accepted.now stamps.now) }
{
    for stamp in stamps {
        take_begun(env, accepted, *stamp);
    }
}

/// Does to the environment what the step at this index does. It takes no memory, and writes no more
/// often than the sizes of the faults say that the step begins or ends.
pub fn apply_to_environment(env: &mut Env, accepted: &[AcceptedStep], index: usize)
    requires known { index < length accepted.now }
    requires few { length accepted.now ≤ max_steps }
    requires right { AreRight (length env.old.names) accepted.now }
    requires stands { StandsWith env.old
        (faults_with_stamps accepted.now (active_after accepted.now index)) }
    ensures stands { StandsWith env.new
        (faults_with_stamps accepted.now (active_after accepted.now (index + 1))) }
    ensures kept { KeepsStart env.old env.new }
    ensures work { work_of env.new
        ≤ work_of env.old + size_between (moment accepted.now index)
        (moment accepted.now (index + 1)) }
{
    match &accepted[index] {
        AcceptedStep::Begun(_, _) => put_begun(env, accepted, index),
        AcceptedStep::Withdrawn(stamp) => take_begun(env, accepted, *stamp),
        AcceptedStep::WithdrawnAll(stamps) => take_each(env, accepted, stamps),
    }
}

/// Takes back what the step at this index did to the environment. It takes no memory, and writes no
/// more than `apply_to_environment`.
pub fn revert_in_environment(env: &mut Env, accepted: &[AcceptedStep], index: usize)
    requires known { index < length accepted.now }
    requires few { length accepted.now ≤ max_steps }
    requires right { AreRight (length env.old.names) accepted.now }
    requires stands { StandsWith env.old
        (faults_with_stamps accepted.now (active_after accepted.now (index + 1))) }
    ensures stands { StandsWith env.new
        (faults_with_stamps accepted.now (active_after accepted.now index)) }
    ensures kept { KeepsStart env.old env.new }
    ensures work { work_of env.new
        ≤ work_of env.old + size_between (moment accepted.now (index + 1))
        (moment accepted.now index) }
{
    match &accepted[index] {
        AcceptedStep::Begun(_, _) => take_begun(env, accepted, index),
        AcceptedStep::Withdrawn(stamp) => put_begun(env, accepted, *stamp),
        AcceptedStep::WithdrawnAll(stamps) => put_each(env, accepted, stamps),
    }
}
