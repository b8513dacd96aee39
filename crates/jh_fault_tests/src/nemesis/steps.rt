//! Faults that are begun and withdrawn on an environment of two nodes and on one of 64, with steps back and forth.
//!
//! A row is calls with `; ` between, and their answers. Each fault cuts the link from `n2` to `n1`, or delays it.
//!
//! - `begin 1` begins a cut, `slow 1` a delay of 1 ms; `withdraw 1`, `withdraw-all`, `undo`, `redo` are the calls of those names; `apply-begin 1`, `apply-withdraw 1`
//!   take such a step by `apply`, `few` takes three steps by `apply_all`. Answers `ok` or the message of the refusal.
//! - `slows 257` begins delays with the ids below 257, `begins 256` cuts, `rounds 2048` begins and withdraws one so often.
//! - `by-begin 1`, `by-withdraw 1`, `by-withdraw-all`, `by-undo`, `by-redo` give how many faults such a step would begin or end.
//! - `active` gives the ids of the active faults, `link` whether the link is cut, `work` how often a cell was written.
//!
//! A call whose memory was refused is made again where the number of active faults stayed.

ghost use Rattle.std.specs.Prelude.{[], IfOk, IfSome};
ghost use Rattle.std.specs.List.{All};
ghost use Rattle.jh_env.specs.Overlay.{StandsFor};
ghost use Rattle.jh_nemesis.specs.State.{State};
ghost use Rattle.jh_nemesis.specs.Steps.{StepFits};

use jh_env::{Env, Fault, Nodes, Start};
use jh_nemesis::{
    BeginError, MAX_ACTIVE, Nemesis, Step, StepAnswer, WithdrawAllError, WithdrawError,
};
use std::alloc::{AllocError, Global};

static TWO: &str = "n1,n2";

static SIXTY_FOUR: &str =
    "n1,n2,a,b,c,d,e,f,g,h,i,j,k,l,m,n,o,p,q,r,s,t,u,v,w,x,y,z,A,B,C,D,E,F,G,H,I,J,K,L,M,N,O,P,Q,R,S,T,U,V,W,X,Y,Z,\
    0,1,2,3,4,5,6,7,8,9";

fn calm(alloc: Global, names: &str) -> Option<Env>
    ensures { IfSome result (λ env. StandsFor env []) }
{
    let names = names.split(',').collect::<Vec<_>>(alloc).ok()?;
    let nodes = Nodes::of(alloc, &names).ok()?;
    Env::start(alloc, Start::new(alloc, nodes).ok()?).ok()
}

/// A cut of the link from `n2` to `n1`.
fn cut(alloc: Global, nodes: &Nodes) -> Option<Fault> {
    Fault::cut(alloc, nodes, &[(nodes.at(1)?, nodes.at(0)?)]).ok()
}

/// A delay of 1 ms on the link from `n2` to `n1`.
fn slow(alloc: Global, nodes: &Nodes) -> Option<Fault> {
    Fault::slow(alloc, nodes, &[(nodes.at(1)?, nodes.at(0)?)], 1).ok()
}

/// `ok`, or the message of a refusal. None: memory was refused.
fn begun(alloc: Global, nemesis: &mut Nemesis, id: u32, fault: Fault) -> Option<String> {
    if !fault.fits(nemesis.env()) {
        return None;
    }
    match nemesis.begin(id, fault) {
        Ok(()) => "ok".to_string(alloc).ok(),
        Err(BeginError::OutOfMemory) => None,
        Err(refusal) => refusal.to_string(alloc).ok(),
    }
}

fn withdrawn(alloc: Global, nemesis: &mut Nemesis, id: u32) -> Option<String> {
    match nemesis.withdraw(id) {
        Ok(()) => "ok".to_string(alloc).ok(),
        Err(WithdrawError::OutOfMemory) => None,
        Err(refusal) => refusal.to_string(alloc).ok(),
    }
}

fn all_withdrawn(alloc: Global, nemesis: &mut Nemesis) -> Option<String> {
    match nemesis.withdraw_all() {
        Ok(()) => "ok".to_string(alloc).ok(),
        Err(WithdrawAllError::OutOfMemory) => None,
        Err(refusal) => refusal.to_string(alloc).ok(),
    }
}

fn undone(alloc: Global, nemesis: &mut Nemesis) -> Option<String> {
    match nemesis.undo() {
        Ok(()) => "ok".to_string(alloc).ok(),
        Err(refusal) => refusal.to_string(alloc).ok(),
    }
}

fn redone(alloc: Global, nemesis: &mut Nemesis) -> Option<String> {
    match nemesis.redo() {
        Ok(()) => "ok".to_string(alloc).ok(),
        Err(refusal) => refusal.to_string(alloc).ok(),
    }
}

/// What a step answers, as a text.
fn answer_text(answer: StepAnswer) -> &'static str {
    match answer {
        StepAnswer::Ok => "ok",
        StepAnswer::IdTaken => "id taken",
        StepAnswer::NotActive => "not active",
        StepAnswer::NothingToUndo => "nothing to undo",
        StepAnswer::NothingToRedo => "nothing to redo",
        _ => "another answer",
    }
}

fn applied_begin(alloc: Global, nemesis: &mut Nemesis, id: u32) -> Option<String> {
    let fault = cut(alloc, nemesis.env().nodes())?;
    if !fault.fits(nemesis.env()) {
        return None;
    }
    let answer = nemesis.apply(Step::Begin(id, fault)).ok()?;
    answer_text(answer).to_string(alloc).ok()
}

fn applied_withdrawal(alloc: Global, nemesis: &mut Nemesis, id: u32) -> Option<String> {
    let answer = nemesis.apply(Step::Withdraw(id)).ok()?;
    answer_text(answer).to_string(alloc).ok()
}

fn cut_begun(alloc: Global, nemesis: &mut Nemesis, id: u32) -> Option<String> {
    let fault = cut(alloc, nemesis.env().nodes())?;
    begun(alloc, nemesis, id, fault)
}

fn slow_begun(alloc: Global, nemesis: &mut Nemesis, id: u32) -> Option<String> {
    let fault = slow(alloc, nemesis.env().nodes())?;
    begun(alloc, nemesis, id, fault)
}

/// Begins a cut, or a delay.
fn fault_begun(alloc: Global, nemesis: &mut Nemesis, is_slow: bool, id: u32) -> Option<String> {
    if is_slow {
        slow_begun(alloc, nemesis, id)
    } else {
        cut_begun(alloc, nemesis, id)
    }
}

/// Begins cuts, or delays, with the ids below a number, and gives the answer of the last.
fn begins(alloc: Global, nemesis: &mut Nemesis, is_slow: bool, count: u32) -> Option<String> {
    let mut answer = "none".to_string(alloc).ok()?;
    for id in 0..count {
        answer = fault_begun(alloc, nemesis, is_slow, id)?;
    }
    Some(answer)
}

/// Begins and withdraws a fault so often.
fn rounds(alloc: Global, nemesis: &mut Nemesis, count: u32) -> Option<String> {
    for _round in 0..count {
        cut_begun(alloc, nemesis, 1)?;
        withdrawn(alloc, nemesis, 1)?;
    }
    "ok".to_string(alloc).ok()
}

/// Steps that need no fault of their own.
fn few_steps(alloc: Global) -> Result<Vec<Step>, AllocError>
    ensures { IfOk result (λ steps. (state : State) → All (StepFits state) steps.items) }
{
    let mut steps = Vec::with_capacity(alloc, 3)?;
    steps.push(Step::Undo)?;
    steps.push(Step::Redo)?;
    steps.push(Step::Withdraw(9))?;
    Ok(steps)
}

/// Answers, with `, ` behind each.
fn answer_texts(alloc: Global, answers: &[StepAnswer]) -> Option<String> {
    let mut texts = String::new(alloc);
    for answer in answers {
        texts.push_str(answer_text(*answer)).ok()?;
        texts.push_str(", ").ok()?;
    }
    Some(texts)
}

/// The answers of a list of steps. None of these steps takes memory, so it is refused before the first or not at all.
fn few(alloc: Global, nemesis: &mut Nemesis) -> Option<String> {
    let Ok(steps) = few_steps(alloc) else {
        return None;
    };
    match nemesis.apply_all(alloc, steps) {
        Ok(answers) => answer_texts(alloc, &answers),
        Err(stopped) if stopped.answers().is_empty() => None,
        Err(_) => "stopped behind a step".to_string(alloc).ok(),
    }
}

/// The id of an active fault, with a space behind it.
fn id_text(alloc: Global, nemesis: &Nemesis, index: usize) -> Option<String> {
    let (id, _) = nemesis.active_at(index)?;
    format!(in alloc; "{id} ").ok()
}

/// The ids of the active faults.
fn active(alloc: Global, nemesis: &Nemesis) -> Option<String> {
    let mut ids = String::new(alloc);
    for index in 0..nemesis.active_len() {
        ids.push_str(&id_text(alloc, nemesis, index)?).ok()?;
    }
    Some(ids)
}

/// Whether the link from `n2` to `n1` is cut.
fn link(alloc: Global, env: &Env) -> Option<String> {
    let link = env.link(env.nodes().at(1)?, env.nodes().at(0)?)?;
    let text = if link.cut { "cut" } else { "open" };
    text.to_string(alloc).ok()
}

/// The step of this name, of a cut or an id where it has one.
fn named_step(alloc: Global, nodes: &Nodes, name: &str, id: u32) -> Option<Step> {
    match name {
        "by-begin" => Some(Step::Begin(id, cut(alloc, nodes)?)),
        "by-withdraw" => Some(Step::Withdraw(id)),
        "by-withdraw-all" => Some(Step::WithdrawAll),
        "by-undo" => Some(Step::Undo),
        "by-redo" => Some(Step::Redo),
        _ => None,
    }
}

/// How many faults a step would begin or end.
fn changes(alloc: Global, nemesis: &Nemesis, name: &str, id: u32) -> Option<String> {
    let step = named_step(alloc, nemesis.env().nodes(), name, id)?;
    let faults = nemesis.changed_by(alloc, &step).ok()?;
    format!(in alloc; "{}", faults.len()).ok()
}

/// What a call answers. None: memory was refused.
fn act(alloc: Global, nemesis: &mut Nemesis, name: &str, number: u32) -> Option<String> {
    match name {
        "begin" => cut_begun(alloc, nemesis, number),
        "slow" => slow_begun(alloc, nemesis, number),
        "withdraw" => withdrawn(alloc, nemesis, number),
        "withdraw-all" => all_withdrawn(alloc, nemesis),
        "undo" => undone(alloc, nemesis),
        "redo" => redone(alloc, nemesis),
        "apply-begin" => applied_begin(alloc, nemesis, number),
        "apply-withdraw" => applied_withdrawal(alloc, nemesis, number),
        "begins" => begins(alloc, nemesis, false, number),
        "slows" => begins(alloc, nemesis, true, number),
        "rounds" => rounds(alloc, nemesis, number),
        "few" => few(alloc, nemesis),
        "active" => active(alloc, nemesis),
        "link" => link(alloc, nemesis.env()),
        "work" => format!(in alloc; "{}", nemesis.env().work()).ok(),
        _ => changes(alloc, nemesis, name, number),
    }
}

/// What a call answers, asked once more where memory was refused and no fault was begun or withdrawn.
fn take(alloc: Global, nemesis: &mut Nemesis, call: &str) -> Option<String> {
    let (name, number) = call.split_once(' ').unwrap_or((call, "0"));
    let number = number.parse::<u32>().ok()?;
    let before = nemesis.active_len();
    match act(alloc, nemesis, name, number) {
        None if nemesis.active_len() == before => act(alloc, nemesis, name, number),
        answer => answer,
    }
}

/// The answers of calls, with `; ` behind each.
fn answers_of(alloc: Global, nemesis: &mut Nemesis, calls: &str) -> Option<String> {
    let mut answers = String::new(alloc);
    for call in calls.split("; ") {
        answers.push_str(&take(alloc, nemesis, call)?).ok()?;
        answers.push_str("; ").ok()?;
    }
    Some(answers)
}

/// The answers of a row's calls. None: memory was refused.
fn answers_once(alloc: Global, names: &str, calls: &str) -> Option<String> {
    let mut nemesis = Nemesis::new(alloc, calm(alloc, names)?);
    answers_of(alloc, &mut nemesis, calls)
}

/// Whether the calls of a row have its answers on an environment of these names.
fn holds(alloc: Global, names: &str, row: &str) -> bool {
    let (calls, wanted) = row.split_once(" → ").unwrap_or((row, ""));
    let answers = match answers_once(alloc, names, calls) {
        None => answers_once(alloc, names, calls),
        answers => answers,
    };
    match answers {
        Some(answers) => answers.as_str() == wanted,
        None => false,
    }
}

#[test]
fn steps_are_answered(rt: HostRuntime) {
    let rows = "\
        begin 1; begin 2; withdraw 1; active; link → ok; ok; ok; 2 ; cut; \n\
        begin 1; link; withdraw 1; link; active → ok; cut; ok; open; ; \n\
        begin 1; apply-begin 1; apply-withdraw 2; apply-withdraw 1 → ok; id taken; not active; ok; \n\
        begin 1; undo; link; redo; link → ok; ok; open; ok; cut; \n\
        undo; redo; withdraw-all → nothing to undo; nothing to redo; nothing active; \n\
        begin 1; withdraw-all; active; link; undo; link → ok; ok; ; open; ok; cut; \n\
        few → nothing to undo, nothing to redo, not active, ; \n\
        begin 1; few; link → ok; ok, ok, not active, ; cut; \n\
        begin 1; begin 2; withdraw 1; withdraw 2; work → ok; ok; ok; ok; 4; \n\
        begin 1; withdraw 1; undo; redo; work → ok; ok; ok; ok; 4; \n\
        slow 1; slow 2; withdraw 1; withdraw-all; undo; undo; redo; work → ok; ok; ok; ok; ok; ok; ok; 7; \n\
        by-begin 1; begin 1; by-begin 1; by-undo; by-redo → 1; ok; 0; 1; 0; \n\
        begin 1; slow 2; by-withdraw-all; withdraw-all; by-undo; undo; by-redo → ok; ok; 2; ok; 2; ok; 2; \n\
        begin 1; slow 2; by-withdraw 2; by-withdraw 3; withdraw 1; by-undo → ok; ok; 1; 0; ok; 1; \n\
        begins 256; begin 256; undo; work → ok; too many active; ok; 257; \n\
        slows 257; undo; work → too many active; ok; 257; \n\
        rounds 2048; begin 1; withdraw 1 → ok; too many steps; not active; ";
    for row in rows.lines() {
        assert!(rt; holds(rt.alloc(), TWO, row), "at {row}");
        assert!(rt; holds(rt.alloc(), SIXTY_FOUR, row), "at {row}");
    }
}

/// Whether so many faults are active where 256 were begun, and the next is refused. None: memory was refused.
fn is_full_once(alloc: Global) -> Option<bool> {
    let mut nemesis = Nemesis::new(alloc, calm(alloc, TWO)?);
    begins(alloc, &mut nemesis, false, 256)?;
    let answer = cut_begun(alloc, &mut nemesis, 256)?;
    Some(nemesis.active_len() == MAX_ACTIVE && answer.as_str() == "too many active")
}

#[test]
fn few_faults_are_active(rt: HostRuntime) {
    let is_full = match is_full_once(rt.alloc()) {
        None => is_full_once(rt.alloc()),
        is_full => is_full,
    };
    assert_eq!(rt; is_full, Some(true));
}

/// The id of a copy of a begin, and whether its fault fits.
fn copied_once(alloc: Global) -> Option<(u32, bool)> {
    let env = calm(alloc, TWO)?;
    let step = Step::Begin(7, cut(alloc, env.nodes())?);
    match step.copy(alloc).ok()? {
        Step::Begin(id, fault) => Some((id, fault.fits(&env))),
        _ => None,
    }
}

#[test]
fn a_step_is_copied(rt: HostRuntime) {
    let copied = match copied_once(rt.alloc()) {
        None => copied_once(rt.alloc()),
        copied => copied,
    };
    assert_eq!(rt; copied, Some((7, true)));
}
