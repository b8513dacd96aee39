//! Faults, ticks and the journal of a world.
//!
//! The text of a row is the settings of a world, and acts in it. An act is `:tick`, a step, or a call: the place of a
//! node, a request, and a draw where it is not 0; or `:replicas`, which gives what each node holds. What comes of each
//! act stands behind the arrow, with `; ` between. An act whose memory was refused is taken once more.

use crate::simnode::fixtures::{keyword_name, value, values, world_of};
use crate::simnode::rows::{TextKind, ask_all};
use jh_edn::Value;
use jh_env::Node;
use jh_nemesis::StepAnswer;
use jh_ops::Request;
use jh_simnode::{Contents, Got, MAX_EVENTS, Reply, World, WorldError};
use jh_step_texts::step_of_value;
use std::alloc::Global;
use std::io::Write;
use std::test::Fail;

const ACTS: &str = r#"
; the last writer is told by a tick
{:start {:nodes ["n1" "n2"]}, :store :lww, :initial 0}
[:begin 1 [:cut [["n1" "n2"] ["n2" "n1"]]]] [0 [:write 1]] [:withdraw 1] [1 :read] :tick [1 :read]
→ Ok; ok; Ok; ok 0; tick; ok 1
§ ; a majority that is late leaves a write unknown
{:start {:nodes ["n1" "n2" "n3"]}, :store :quorum, :initial 0}
[:begin 1 [:slow 600 [["n1" "n2"] ["n2" "n1"] ["n1" "n3"] ["n3" "n1"]]]] [0 [:write 5]] [0 :read] [1 :read]
→ Ok; info; fail; ok 5
§ ; a majority that a fix makes late leaves a write unknown
{:start {:nodes ["n1" "n2" "n3"]}, :store :quorum, :initial 0}
[:begin 1 [:fix 600 [["n1" "n2"] ["n2" "n1"] ["n1" "n3"] ["n3" "n1"]]]] [0 [:write 5]] [0 :read] [1 :read]
→ Ok; info; fail; ok 5
§ ; a second is in time
{:start {:nodes ["n1" "n2"]}, :store :quorum, :initial 0}
[:begin 1 [:slow 500 [["n1" "n2"] ["n2" "n1"]]]] [0 [:write 5]] [:begin 2 [:slow 1 [["n2" "n1"]]]] [0 [:write 6]] [0 :read] [:undo] [1 :read]
→ Ok; ok; Ok; info; fail; Ok; ok 6
§ ; what is told travels over several nodes in one tick, but not back
{:start {:nodes ["n1" "n2" "n3"], :cut [["n1" "n3"] ["n3" "n1"]]}, :store :lww, :initial 0}
[:begin 1 [:pause ["n2" "n3"]]] [0 [:write 1]] [:withdraw 1] :tick [2 :read]
→ Ok; ok; Ok; tick; ok 1
§ {:start {:nodes ["n1" "n2" "n3"], :cut [["n1" "n3"] ["n3" "n1"]]}, :store :lww, :initial 0}
[:begin 1 [:pause ["n1" "n2"]]] [2 [:write 1]] [:withdraw 1] :tick [0 :read] [1 :read] :tick [0 :read]
→ Ok; ok; Ok; tick; ok 0; ok 1; tick; ok 1
§ ; each node has a replica of its own, and a set is empty at first
{:start {:nodes ["n1" "n2"]}, :store :local, :initial 7}
:replicas [0 [:write 5]] :replicas [1 [:write 9]] :replicas
→ replicas 7 7; ok; replicas 5 7; ok; replicas 5 9
§ {:start {:nodes ["n1"]}, :store :lww, :workload :set}
:replicas [0 [:add 4]] [0 [:add -1]] :replicas
→ replicas []; ok; ok; replicas [-1, 4]
§ ; refused steps are events too
{:start {:nodes ["n1"]}, :store :quorum}
[:undo] [:redo] [:withdraw-all] [:withdraw 9] [:begin 9 [:cut []]] [:begin 9 [:cut []]] :tick [:undo] [:redo] [0 [:write 3]] [0 :read]
→ NothingToUndo; NothingToRedo; NothingActive; NotActive; Ok; IdTaken; tick; Ok; Ok; ok; ok 3
"#;

#[test]
fn worlds_keep_their_faults(rt: HostRuntime) -> Result<(), Fail> {
    ask_all(rt.alloc(), TextKind::Acts, ACTS)
}

fn request_of(value: &Value) -> Option<Request> {
    let Some(parts) = value.elements() else {
        return match keyword_name(value) {
            "read" => Some(Request::Read),
            _ => Some(Request::Generate),
        };
    };
    match parts {
        [name, Value::Int(value)] if keyword_name(name) == "write" => Some(Request::Write(*value)),
        [_, Value::Int(amount)] => Some(Request::Add(*amount)),
        [_, Value::Int(old), Value::Int(new)] => Some(Request::Cas(*old, *new)),
        _ => None,
    }
}

fn put_reply(text: &mut Vec<u8>, reply: &Reply) -> Option<()> {
    match reply {
        Reply::Ok(Got::Nothing) => write!(text, "ok").ok(),
        Reply::Ok(Got::One(None)) => write!(text, "ok nil").ok(),
        Reply::Ok(Got::One(Some(value))) => write!(text, "ok {value}").ok(),
        Reply::Ok(Got::Many(numbers)) => write!(text, "ok {:?}", numbers.as_slice()).ok(),
        Reply::Fail => write!(text, "fail").ok(),
        Reply::Info => write!(text, "info").ok(),
    }
}

type Called = Result<(u64, Reply), WorldError>;

fn called(world: &mut World, node: Node, request: Request, draw: u64) -> Called {
    match world.call(0, node, request, draw) {
        Err(WorldError::OutOfMemory) => world.call(0, node, request, draw),
        called => called,
    }
}

/// Writes what comes of a call, and answers the number of its event, where it is one.
fn call(world: &mut World, text: &mut Vec<u8>, act: &[Value]) -> Option<Option<u64>> {
    let [Value::Int(place), request, draw @ ..] = act else {
        return None;
    };
    let draw = match draw {
        [Value::Int(draw)] => u64::try_from(*draw).ok()?,
        _ => 0,
    };
    let node = world
        .nemesis()
        .env()
        .nodes()
        .at(u8::try_from(*place).ok()?)?;
    match called(world, node, request_of(request)?, draw) {
        Ok((number, reply)) => {
            put_reply(text, &reply)?;
            Some(Some(number))
        }
        Err(error) => refused(text, error),
    }
}

fn refused(text: &mut Vec<u8>, error: WorldError) -> Option<Option<u64>> {
    write!(text, "{error}").ok()?;
    Some(None)
}

type Stepped = Result<(u64, StepAnswer), WorldError>;

fn step_once(alloc: Global, world: &mut World, act: &Value) -> Option<Stepped> {
    let step = step_of_value(alloc, world.nemesis().env().nodes(), act).ok()?;
    Some(world.step(step))
}

fn stepped(alloc: Global, world: &mut World, act: &Value) -> Option<Stepped> {
    match step_once(alloc, world, act) {
        Some(Err(WorldError::OutOfMemory)) => step_once(alloc, world, act),
        stepped => stepped,
    }
}

fn step(alloc: Global, world: &mut World, text: &mut Vec<u8>, act: &Value) -> Option<Option<u64>> {
    match stepped(alloc, world, act)? {
        Ok((number, answer)) => {
            write!(text, "{answer:?}").ok()?;
            Some(Some(number))
        }
        Err(error) => refused(text, error),
    }
}

fn ticked(world: &mut World) -> Result<u64, WorldError> {
    match world.tick() {
        Err(WorldError::OutOfMemory) => world.tick(),
        ticked => ticked,
    }
}

fn tick(world: &mut World, text: &mut Vec<u8>) -> Option<Option<u64>> {
    match ticked(world) {
        Ok(number) => {
            write!(text, "tick").ok()?;
            Some(Some(number))
        }
        Err(error) => refused(text, error),
    }
}

/// Writes what each node holds, in the order of the nodes.
fn put_replicas(world: &World, text: &mut Vec<u8>) -> Option<Option<u64>> {
    write!(text, "replicas").ok()?;
    for replica in world.replicas() {
        match &replica.contents {
            Contents::One(None) => write!(text, " nil").ok()?,
            Contents::One(Some(value)) => write!(text, " {value}").ok()?,
            Contents::Many(numbers) => write!(text, " {:?}", numbers.as_slice()).ok()?,
        }
    }
    Some(None)
}

fn act(alloc: Global, world: &mut World, text: &mut Vec<u8>, act: &Value) -> Option<Option<u64>> {
    match act.elements() {
        None if keyword_name(act) == "replicas" => put_replicas(world, text),
        None => tick(world, text),
        Some([first, ..]) if first.is_integer() => call(world, text, act.elements()?),
        Some(_) => step(alloc, world, text, act),
    }
}

/// Whether an event of this number is one more than so many.
fn is_next(world: &World, before: usize, number: Option<u64>) -> bool {
    match number {
        Some(number) => number == before as u64 && world.journal().len() > before,
        None => world.journal().len() == before,
    }
}

/// Does an act, and writes what comes of it behind a text. None: memory was refused, or the event has another number than
/// is its turn.
fn perform(alloc: Global, world: &mut World, text: &mut Vec<u8>, value: &Value) -> Option<()> {
    let before = world.journal().len();
    let number = act(alloc, world, text, value)?;
    is_next(world, before, number).then_some(())
}

/// What comes of acts in a world, with `; ` between.
fn acts_text(alloc: Global, world: &mut World, acts: &[Value]) -> Option<Vec<u8>> {
    let mut text = Vec::new(alloc);
    for act in acts {
        if !text.is_empty() {
            text.extend_from_slice(b"; ").ok()?;
        }
        perform(alloc, world, &mut text, act)?;
    }
    Some(text)
}

/// What comes of the acts of a row. None: memory was refused, or an event has another number than is its turn.
pub(crate) fn answers_text(alloc: Global, text: &str) -> Option<Vec<u8>> {
    let values = values(alloc, text)?;
    let (settings, acts) = values.as_slice().split_first()?;
    acts_text(alloc, &mut world_of(alloc, settings)?, acts)
}

/// The world of one node.
fn one_node(alloc: Global) -> Option<World> {
    world_of(alloc, &value(alloc, r#"{:start {:nodes ["n1"]}}"#)?)
}

/// The second node of a world of two.
fn second_node(alloc: Global) -> Option<Node> {
    let two = value(alloc, r#"{:start {:nodes ["n1" "n2"]}}"#)?;
    world_of(alloc, &two)?.nemesis().env().nodes().at(1)
}

/// Whether a world ticks so many times.
fn has_ticked(world: &mut World, times: usize) -> bool {
    for _event in 0..times {
        if ticked(world).is_err() {
            return false;
        }
    }
    true
}

/// Why a world refuses one event more than the most, and how many it has then.
fn full_once(alloc: Global) -> Option<(Option<WorldError>, usize)> {
    let mut world = one_node(alloc)?;
    if !has_ticked(&mut world, MAX_EVENTS) {
        return None;
    }
    Some((world.tick().err(), world.journal().len()))
}

#[test]
fn a_world_holds_so_many_events(rt: HostRuntime) {
    let full = match full_once(rt.alloc()) {
        None => full_once(rt.alloc()),
        full => full,
    };
    assert_eq!(rt; full, Some((Some(WorldError::TooManyEvents), 65_536)));
}

/// Why one node's world refuses the second node of another, and how many events it has then.
fn stranger_once(alloc: Global) -> Option<(Option<WorldError>, usize)> {
    let stranger = second_node(alloc)?;
    let mut world = one_node(alloc)?;
    let refusal = called(&mut world, stranger, Request::Read, 0).err();
    Some((refusal, world.journal().len()))
}

#[test]
fn a_world_knows_its_nodes_alone(rt: HostRuntime) {
    let refusal = match stranger_once(rt.alloc()) {
        None => stranger_once(rt.alloc()),
        refusal => refusal,
    };
    assert_eq!(rt; refusal, Some((Some(WorldError::UnknownNode), 0)));
}
