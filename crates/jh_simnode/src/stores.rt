//! What a node does with a request, and what nodes send each other in a tick. `specs/Stores.antt`
//! has the rule of each store.

ghost use Rattle.std.specs.Prelude.{◌≡◌, ℕ, pos, ◌+ℤ◌, ◌<◌, ◌≤◌, ◌&&◌, [], length, IfOk};
ghost use Rattle.std.specs.List.{All};
ghost use Rattle.jh_tables.specs.Limits.{max_nodes};
ghost use Rattle.jh_simnode.specs.Limits.{max_events};
ghost use Rattle.jh_simnode.specs.Reach.{env_cells, is_node_running};
ghost use Rattle.jh_simnode.specs.Replicas.{is_lower, replica_at};
ghost use Rattle.jh_simnode.specs.TakingInside.{GivesReply, AreTaken, AreSources};
ghost use Rattle.jh_simnode.specs.TakingInside.{replicas_with_all, replicas_from};
ghost use Rattle.jh_simnode.specs.Stores.{local_reply, lww_reply, quorum_reply, quorum_read};
ghost use Rattle.jh_simnode.specs.Stores.{quorum_write, newest_place, newer_place};
ghost use Rattle.jh_simnode.specs.Stores.{replicas_with_new_at, older_places, version_at};
ghost use Rattle.jh_simnode.specs.Stores.{killed_flags, replicas_after_tick};
ghost use Rattle.jh_simnode.specs.Stores.{replicas_after_sending, replicas_after_sending_all};
ghost use Rattle.jh_simnode.specs.Stores.{replicas_after_spread, is_uncut, replicas_after_kills};
ghost use Rattle.jh_simnode.specs.Stores.{reply_to};

use crate::database::{Database, Store};
use crate::effects::effect;
use crate::reach::{
    SomeNodes, is_node_killed, is_node_running, is_open, reached_nodes, responding_nodes,
};
use crate::replicas::{Recency, Replica, Reply};
use crate::requests::{is_read_request, only_asks};
use arrayvec::ArrayVec;
use jh_env::{Env, Life, Node};
use jh_ops::Request;
use jh_tables::MAX_NODES;
use std::alloc::{AllocError, Global};

/// A replica that the node at a place takes over.
#[derive(Drop)]
pub(crate) struct Taken {
    pub(crate) place: usize,
    pub(crate) replica: Replica,
}

/// A reply, and the replicas that nodes take over with it, one for each node that changes its own.
#[derive(Drop)]
pub(crate) struct ReplyAndTaken {
    pub(crate) reply: Reply,
    pub(crate) taken: Vec<Taken>,
}

/// Of each node, in order, the node whose replica it has in the end.
type Sources = ArrayVec<Node, MAX_NODES>;

/// Of each node, in order, whether it is killed.
pub(crate) type Flags = ArrayVec<bool, MAX_NODES>;

/// Which nodes are killed. Takes no memory.
pub(crate) fn killed_nodes(env: &Env) -> Flags
    ensures { result.items ≡ killed_flags (env_cells env.now) (length env.now.names) }
{
    let mut flags = Flags::new();
    for node in env.nodes().all().as_slice() {
        flags.push(is_node_killed(env, *node));
    }
    flags
}

/// Makes the replica of each node that is killed now and wasn't before as it is at first, where the
/// database is volatile.
#[tactic(auto, unfolding(crate::specs::Stores::replicas_after_kills))]
pub(crate) fn forget(
    alloc: Global,
    database: &Database,
    before: &[bool],
    env: &Env,
    replicas: &mut [Replica],
)
    requires before { length before.now ≡ length env.now.names }
    requires sized { length replicas.old ≡ length env.now.names }
    ensures { replicas.new
        ≡ replicas_after_kills database.now before.now (env_cells env.now) replicas.old }
{
    if !database.volatile {
        return;
    }
    for node in env.nodes().all().as_slice() {
        let place = node.place() as usize;
        if is_node_killed(env, *node) && !before[place] {
            replicas[place] = Replica::first(alloc, database);
        }
    }
}

/// Whether one node can send another what it has.
fn can_send(env: &Env, from: Node, to: Node) -> bool
    ensures { let cells = env_cells env.now in result
        ≡ ((is_node_running (cells.node from) && is_node_running (cells.node to))
        && is_uncut (cells.link from to)) }
{
    is_node_running(env, from) && is_node_running(env, to) && is_open(env.link(from, to))
}

/// Whether the stamp of one node's replica is lower than that of another's.
fn is_older(replicas: &[Replica], node: Node, other: Node) -> bool
    requires node { node < length replicas.now }
    requires other { other < length replicas.now }
    ensures { result
        ≡ is_lower (replica_at replicas.now node).recency (replica_at replicas.now other).recency }
{
    let recency = replicas[other.place() as usize].recency;
    replicas[node.place() as usize].recency.is_lower(recency)
}

/// One node sends another what it has: the other takes it where its own stamp is lower.
fn send(env: &Env, replicas: &[Replica], from: Node, sources: &mut [Node], to: Node)
    requires from { from < length env.now.names }
    requires to { to < length env.now.names }
    requires sized { length replicas.now ≡ length env.now.names }
    requires sources { AreSources (length env.now.names) sources.old }
    ensures sent { replicas_from replicas.now sources.new
        ≡ replicas_after_sending (env_cells env.now) from
        (replicas_from replicas.now sources.old) to }
    ensures sources { AreSources (length env.now.names) sources.new }
{
    let source = sources[from.place() as usize];
    let target = sources[to.place() as usize];
    if can_send(env, from, to) && is_older(replicas, target, source) {
        sources[to.place() as usize] = source;
    }
}

/// One node sends what it has to each of the others.
fn send_to_all(env: &Env, replicas: &[Replica], sources: &mut [Node], from: Node)
    requires from { from < length env.now.names }
    requires sized { length replicas.now ≡ length env.now.names }
    requires sources { AreSources (length env.now.names) sources.old }
    ensures sent { replicas_from replicas.now sources.new
        ≡ replicas_after_sending_all (env_cells env.now) (length env.now.names)
        (replicas_from replicas.now sources.old) from }
    ensures sources { AreSources (length env.now.names) sources.new }
{
    for to in env.nodes().all().as_slice() {
        send(env, replicas, from, sources, *to);
    }
}

/// Each node in turn sends what it has to each of the others.
fn spread(env: &Env, replicas: &[Replica]) -> Sources
    requires sized { length replicas.now ≡ length env.now.names }
    ensures sent { replicas_from replicas.now result.items
        ≡ replicas_after_spread (env_cells env.now) (length env.now.names) replicas.now }
    ensures sources { AreSources (length env.now.names) result.items }
{
    let mut sources = env.nodes().all();
    for from in env.nodes().all().as_slice() {
        send_to_all(env, replicas, &mut sources, *from);
    }
    sources
}

/// The replicas that nodes take over from others.
fn taken_from(
    alloc: Global,
    replicas: &[Replica],
    sources: &[Node],
) -> Result<Vec<Taken>, AllocError>
    requires { AreSources (length replicas.now) sources.now }
    ensures { IfOk result
        (λ taken. AreTaken replicas.now taken.items (replicas_from replicas.now sources.now)) }
{
    let mut taken = Vec::new(alloc);
    for (place, source) in sources.iter().enumerate() {
        let from = source.place() as usize;
        if from != place {
            let replica = replicas[from].copy(alloc)?;
            taken.push(Taken { place, replica })?;
        }
    }
    Ok(taken)
}

/// The replicas that nodes take over after they sent each other what they have, if the store does
/// so.
#[tactic(auto, unfolding(crate::specs::Stores::replicas_after_tick))]
pub(crate) fn tick_replicas(
    alloc: Global,
    store: Store,
    env: &Env,
    replicas: &[Replica],
) -> Result<Vec<Taken>, AllocError>
    requires sized { length replicas.now ≡ length env.now.names }
    ensures { IfOk result (λ taken. AreTaken replicas.now taken.items
        (replicas_after_tick store (env_cells env.now) replicas.now)) }
{
    match store {
        Store::Lww => {
            let sources = spread(env, replicas);
            taken_from(alloc, replicas, &sources)
        }
        Store::Quorum => Ok(Vec::new(alloc)),
        Store::Local => Ok(Vec::new(alloc)),
    }
}

/// Takes over these replicas, each at its place.
pub(crate) fn take_over(replicas: &mut Vec<Replica>, taken: Vec<Taken>)
    requires { All (λ t. t.place < length replicas.old.items) taken.items }
    ensures { replicas.new.items ≡ replicas_with_all replicas.old.items taken.items }
{
    for one in taken {
        replicas[one.place] = one.replica;
    }
}

/// The new replica for each of these nodes.
fn give_all(
    alloc: Global,
    replicas: &[Replica],
    new: &Replica,
    these: &[Node],
) -> Result<Vec<Taken>, AllocError>
    requires { All (λ p. p < length replicas.now) these.now }
    ensures { IfOk result
        (λ taken. AreTaken replicas.now taken.items
        (replicas_with_new_at new.now replicas.now these.now)) }
{
    let mut taken = Vec::new(alloc);
    for node in these {
        let replica = new.copy(alloc)?;
        let place = node.place() as usize;
        taken.push(Taken { place, replica })?;
    }
    Ok(taken)
}

/// Those of these nodes whose own stamp is lower.
fn older(replicas: &[Replica], stamp: Recency, these: &[Node]) -> SomeNodes
    requires known { All (λ p. p < length replicas.now) these.now }
    requires few { length these.now ≤ max_nodes }
    ensures nodes { result.items ≡ older_places replicas.now stamp these.now }
    ensures known { All (λ p. p < length replicas.now) result.items }
{
    let mut those = SomeNodes::new();
    for node in these {
        if replicas[node.place() as usize].recency.is_lower(stamp) {
            those.push(*node);
        }
    }
    those
}

/// The node of the greater version of two, or else the first of them.
fn newer(replicas: &[Replica], best: Node, node: Node) -> Node
    requires best { best < length replicas.now }
    requires node { node < length replicas.now }
    ensures value { result ≡ newer_place replicas.now best node }
    ensures known { result < length replicas.now }
{
    let version = replicas[node.place() as usize].recency.version();
    if replicas[best.place() as usize].recency.version() < version {
        node
    } else {
        best
    }
}

/// The node of the greatest version among these, of equals the first.
fn newest(replicas: &[Replica], these: &[Node]) -> Node
    requires known { All (λ p. p < length replicas.now) these.now }
    requires some { 0 < length replicas.now }
    ensures value { result ≡ newest_place replicas.now these.now }
    ensures known { result < length replicas.now }
{
    if these.is_empty() {
        return Node::at(0);
    }
    let mut best = these[0];
    for node in &these[1..] {
        best = newer(replicas, best, *node);
    }
    best
}

/// A reply with which no node takes over a replica.
fn unchanged(alloc: Global, reply: Reply) -> ReplyAndTaken
    ensures reply { result.reply ≡ reply }
    ensures taken { result.taken.items ≡ [] }
{
    ReplyAndTaken {
        reply,
        taken: Vec::new(alloc),
    }
}

/// What a node replies in a local store, and its own replica after a change.
fn serve_local(
    alloc: Global,
    replicas: &[Replica],
    node: Node,
    request: Request,
) -> Result<ReplyAndTaken, AllocError>
    requires { node < length replicas.now }
    ensures { IfOk result
        (λ served. GivesReply replicas.now served (local_reply replicas.now node request)) }
{
    let place = node.place() as usize;
    if is_read_request(request) {
        let got = replicas[place].contents.got(alloc)?;
        return Ok(unchanged(alloc, Reply::Ok(got)));
    }
    match effect(alloc, request, &replicas[place].contents)? {
        Some(change) => {
            let replica = Replica {
                recency: replicas[place].recency,
                contents: change.after,
            };
            let mut taken = Vec::new(alloc);
            taken.push(Taken { place, replica })?;
            Ok(ReplyAndTaken {
                reply: Reply::Ok(change.got),
                taken,
            })
        }
        None => Ok(unchanged(alloc, Reply::Fail)),
    }
}

/// The time of a stamp: the event's number and the node's clock, added.
fn stamp_time(number: u64, clock: i64) -> i128
    ensures { result ≡ pos number +ℤ clock }
{
    number as i128 + clock as i128
}

/// What a node replies where the last writer wins, and what the nodes that it reaches take over.
fn serve_lww(
    alloc: Global,
    env: &Env,
    replicas: &[Replica],
    at: i128,
    node: Node,
    request: Request,
    draw: u64,
) -> Result<ReplyAndTaken, AllocError>
    requires known { node < length replicas.now }
    requires sized { length replicas.now ≡ length env.now.names }
    ensures { IfOk result
        (λ served. GivesReply replicas.now served
        (lww_reply (env_cells env.now) replicas.now at node request draw)) }
{
    let place = node.place() as usize;
    if is_read_request(request) {
        let got = replicas[place].contents.got(alloc)?;
        return Ok(unchanged(alloc, Reply::Ok(got)));
    }
    match effect(alloc, request, &replicas[place].contents)? {
        Some(change) => {
            let new = Replica {
                recency: Recency::Stamp(at, node.place()),
                contents: change.after,
            };
            let these = older(replicas, new.recency, &reached_nodes(env, draw, node));
            let taken = give_all(alloc, replicas, &new, &these)?;
            Ok(ReplyAndTaken {
                reply: Reply::Ok(change.got),
                taken,
            })
        }
        None => Ok(unchanged(alloc, Reply::Fail)),
    }
}

/// The reply to a read in a store of quorums; it fails where fewer than a majority respond.
fn quorum_read(
    alloc: Global,
    replicas: &[Replica],
    responding: &[Node],
) -> Result<ReplyAndTaken, AllocError>
    requires known { All (λ p. p < length replicas.now) responding.now }
    requires some { 0 < length replicas.now }
    ensures { IfOk result
        (λ served. GivesReply replicas.now served (quorum_read replicas.now responding.now)) }
{
    if responding.len() < replicas.len() / 2 + 1 {
        return Ok(unchanged(alloc, Reply::Fail));
    }
    let best = newest(replicas, responding).place() as usize;
    let got = replicas[best].contents.got(alloc)?;
    Ok(unchanged(alloc, Reply::Ok(got)))
}

/// The reply to a change in a store of quorums, and the new replica of each node reached. It fails
/// where fewer than a majority are reached.
fn quorum_write(
    alloc: Global,
    replicas: &[Replica],
    reached: &[Node],
    responding: usize,
    request: Request,
) -> Result<ReplyAndTaken, AllocError>
    requires known { All (λ p. p < length replicas.now) reached.now }
    requires some { 0 < length replicas.now }
    requires low { (place : ℕ) → version_at replicas.now place < max_events }
    ensures { IfOk result
        (λ served. GivesReply replicas.now served
        (quorum_write replicas.now reached.now responding request)) }
{
    if reached.len() < replicas.len() / 2 + 1 {
        return Ok(unchanged(alloc, Reply::Fail));
    }
    let best = newest(replicas, reached).place() as usize;
    match effect(alloc, request, &replicas[best].contents)? {
        Some(change) => {
            let new = Replica {
                recency: Recency::Version(replicas[best].recency.version() + 1),
                contents: change.after,
            };
            let taken = give_all(alloc, replicas, &new, reached)?;
            let reply = if responding < replicas.len() / 2 + 1 {
                Reply::Info
            } else {
                Reply::Ok(change.got)
            };
            Ok(ReplyAndTaken { reply, taken })
        }
        None => Ok(unchanged(alloc, Reply::Fail)),
    }
}

/// What a node replies in a store of quorums, and what the nodes that it reaches take over.
fn serve_quorum(
    alloc: Global,
    env: &Env,
    replicas: &[Replica],
    node: Node,
    request: Request,
    draw: u64,
) -> Result<ReplyAndTaken, AllocError>
    requires known { node < length replicas.now }
    requires sized { length replicas.now ≡ length env.now.names }
    requires low { (place : ℕ) → version_at replicas.now place < max_events }
    ensures { IfOk result
        (λ served. GivesReply replicas.now served
        (quorum_reply (env_cells env.now) replicas.now node request draw)) }
{
    let reached = reached_nodes(env, draw, node);
    let responding = responding_nodes(env, node, &reached);
    if is_read_request(request) {
        return quorum_read(alloc, replicas, &responding);
    }
    quorum_write(alloc, replicas, &reached, responding.len(), request)
}

/// What a node replies to a request, and the replicas after it.
#[tactic(auto, unfolding(crate::specs::Stores::reply_to))]
pub(crate) fn serve(
    alloc: Global,
    database: &Database,
    env: &Env,
    replicas: &[Replica],
    number: u64,
    node: Node,
    request: Request,
    draw: u64,
) -> Result<ReplyAndTaken, AllocError>
    requires sized { length replicas.now ≡ length env.now.names }
    requires known { node < length replicas.now }
    requires low { (place : ℕ) → version_at replicas.now place ≤ number }
    requires few { number < max_events }
    ensures { IfOk result
        (λ served. GivesReply replicas.now served
        (reply_to database.now (env_cells env.now) replicas.now number node request draw)) }
{
    if !request.is_of(database.workload) {
        return Ok(unchanged(alloc, Reply::Fail));
    }
    let Some(cell) = env.node(node) else {
        return Ok(unchanged(alloc, Reply::Fail));
    };
    match cell.process {
        Life::Killed => Ok(unchanged(alloc, Reply::Fail)),
        Life::Paused if only_asks(request) => Ok(unchanged(alloc, Reply::Fail)),
        Life::Paused => Ok(unchanged(alloc, Reply::Info)),
        Life::Running => match database.store {
            Store::Quorum => serve_quorum(alloc, env, replicas, node, request, draw),
            Store::Lww => {
                let at = stamp_time(number, cell.clock);
                serve_lww(alloc, env, replicas, at, node, request, draw)
            }
            Store::Local => serve_local(alloc, replicas, node, request),
        },
    }
}
