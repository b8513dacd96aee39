//! What is left of a generator, and how a call is taken from it. `specs/State.antt` has the rule,
//! `specs/Turns.antt` the same for members by their places.

ghost use Rattle.std.specs.Prelude.{◌≡◌, ◌<◌, ◌≤◌, ◌-◌, length};
ghost use Rattle.jh_gen.specs.NodeView.{node_state};
ghost use Rattle.jh_gen.specs.State as left;
ghost use Rattle.jh_gen.specs.State.{are_all_done, are_lots_done, states_from, lots_from, taking};
ghost use Rattle.jh_gen.specs.State.{taken_call, rest_of};
ghost use Rattle.jh_gen.specs.Scope.{has_busy_thread, is_in_scope};
ghost use Rattle.jh_gen.specs.Turns.{question, first_open_place, turn_at, first_turn, open_len};
ghost use Rattle.jh_gen.specs.Turns.{open_place};
ghost use Rattle.jh_gen.specs.Turns.{turn_among, any_turn, lot_at, lot_turn};

use crate::rise::Rise;
use jh_ops::Call;
use std::marker::Model;

/// Who asks, with which random number, and which threads have an operation outstanding.
#[derive(Clone, Copy)]
pub(crate) struct Question<'a> {
    pub(crate) asker: usize,
    pub(crate) random_number: u64,
    pub(crate) busy: &'a [bool],
}

/// Rising numbers: what is asked with each, and the next one.
#[derive(Clone, Copy)]
pub(crate) struct Count {
    pub(crate) rise: Rise,
    pub(crate) next: i64,
}

/// What is left of a generator: a node of its tree, and none of a cluster.
#[cycle(node)]
pub(crate) enum Node {
    /// Nothing is left.
    Gone,
    /// One call, of `Gen::Once`.
    One(Call),
    /// Rising numbers, of `Gen::Rising`.
    Counting(Count),
    /// One call again and again, of `Gen::Forever`.
    Endless(Call),
    /// Members in their turn, of `Gen::Seq` or `Gen::Phases`: each waits until none of these threads is
    /// busy. A `Seq` awaits no thread.
    InTurn(Vec<usize>, Row),
    /// At most so many calls, of `Gen::Limit`.
    Limited(u32, Within),
    /// Members among which a random number chooses, of `Gen::Mix`.
    Mixed(Row),
    /// Nodes that each have threads of their own: of `Gen::Reserve`, `EachThread`, `Clients` or
    /// `NemesisOnly`.
    Split(Lots),
}

// Written out, as that of a generator.
impl Drop for Node {
    #[cycle(drop)]
    fn drop(self) {
        match self {
            Node::Gone
            | Node::One(_)
            | Node::Counting(_)
            | Node::Endless(_)
            | Node::InTurn(_, _)
            | Node::Limited(_, _)
            | Node::Mixed(_)
            | Node::Split(_) => (),
        }
    }
}

/// A member, and whether it has given a call.
#[cycle(node)]
#[derive(Drop)]
pub(crate) struct Member {
    pub(crate) started: bool,
    pub(crate) node: Node,
}

/// Members in a row.
#[cycle(node)]
#[derive(Drop)]
pub(crate) struct Row {
    pub(crate) members: Vec<Member>,
}

impl Model for Row {
    ghost use Rattle.std.specs.Prelude.{List, Bool};
    ghost use Rattle.std.specs.Coded.{coded_list, coded×, coded_bool};
    ghost use Rattle.jh_gen.specs.State.{GeneratorState, row_size};
    ghost use Rattle.jh_gen.specs.StateCode.{state_coded};

    ghost Value = { List (Bool × GeneratorState) };

    ghost coded = { coded_list (coded× coded_bool state_coded) };

    ghost use Rattle.jh_gen.specs.NodeView.{row_view};

    ghost view = { λ a. row_view a.members.items };

    ghost size = { row_size };

    ghost use Rattle.std.proofs.Common.{arith};
    ghost use Rattle.jh_gen.specs.NodeFallsInside.{row_falls};

    ghost size_decreases = { λ a h. Prim.omega (arith, row_falls a.members.items) };
}

/// A node within another.
#[cycle(node)]
#[derive(Drop)]
pub(crate) struct Within {
    pub(crate) boxed: Box<Node>,
}

impl Model for Within {
    ghost use Rattle.jh_gen.specs.State.{GeneratorState, state_size};
    ghost use Rattle.jh_gen.specs.StateCode.{state_coded};

    ghost Value = { GeneratorState };

    ghost coded = { state_coded };

    ghost use Rattle.jh_gen.specs.NodeView.{node_state};

    ghost view = { λ a. node_state a.boxed.value };

    ghost size = { state_size };

    ghost use Rattle.std.proofs.Common.{arith};
    ghost use Rattle.jh_gen.specs.NodeFallsInside.{node_falls};

    ghost size_decreases = { λ a h. Prim.omega (arith, node_falls a.boxed.value) };
}

/// A node, and the threads that use it.
#[cycle(node)]
#[derive(Drop)]
pub(crate) struct Lot {
    pub(crate) threads: Vec<usize>,
    pub(crate) node: Node,
}

/// Nodes, each for some threads.
#[cycle(node)]
#[derive(Drop)]
pub(crate) struct Lots {
    pub(crate) items: Vec<Lot>,
}

impl Model for Lots {
    ghost use Rattle.std.specs.Prelude.{List, ℕ};
    ghost use Rattle.std.specs.Coded.{coded_list, coded×, coded_ℕ};
    ghost use Rattle.jh_gen.specs.State.{GeneratorState, split_size};
    ghost use Rattle.jh_gen.specs.StateCode.{state_coded};

    ghost Value = { List (List ℕ × GeneratorState) };

    ghost coded = { coded_list (coded× (coded_list coded_ℕ) state_coded) };

    ghost use Rattle.jh_gen.specs.NodeView.{lots_view};

    ghost view = { λ a. lots_view a.items.items };

    ghost size = { split_size };

    ghost use Rattle.std.proofs.Common.{arith};
    ghost use Rattle.jh_gen.specs.NodeFallsInside.{split_falls};

    ghost size_decreases = { λ a h. Prim.omega (arith, split_falls a.items.items) };
}

impl Node {
    /// Whether nothing is left.
    #[cycle(done)]
    pub(crate) fn is_done(&self) -> bool
        ensures { result ≡ left.is_done (node_state self.now) }
    {
        match self {
            Node::Gone => true,
            Node::One(_) => false,
            Node::Counting(_) => false,
            Node::Endless(_) => false,
            Node::InTurn(_, row) => row.is_done(),
            Node::Limited(count, inner) => *count == 0 || inner.boxed.is_done(),
            Node::Mixed(row) => row.is_done(),
            Node::Split(lots) => lots.is_done(),
        }
    }
}

impl Row {
    /// Whether nothing is left of any member.
    #[cycle(done)]
    fn is_done(&self) -> bool
        ensures { result ≡ are_all_done (states_from self.now) }
    {
        for member in &self.members {
            if !member.node.is_done() {
                return false;
            }
        }
        true
    }
}

impl Lots {
    /// Whether nothing is left in any lot.
    #[cycle(done)]
    fn is_done(&self) -> bool
        ensures { result ≡ are_lots_done (lots_from self.now) }
    {
        for lot in &self.items {
            if !lot.node.is_done() {
                return false;
            }
        }
        true
    }
}

/// Whether one of the threads has an operation outstanding.
fn is_any_busy(busy: &[bool], threads: &[usize]) -> bool
    ensures { result ≡ has_busy_thread busy.now threads.now }
{
    for thread in threads {
        if *thread < busy.len() && busy[*thread] {
            return true;
        }
    }
    false
}

impl Node {
    /// The call that a thread gets now. It is gone from what is left.
    #[cycle(take)]
    pub(crate) fn take(&mut self, asked: Question) -> Option<Call>
        ensures call { result ≡ taken_call (taking (node_state self.old) (question asked.entry)) }
        ensures rest { node_state self.new
            ≡ rest_of (node_state self.old) (taking (node_state self.old) (question asked.entry)) }
    {
        match self {
            Node::Gone => None,
            Node::One(call) => {
                let call = *call;
                *self = Node::Gone;
                Some(call)
            }
            Node::Counting(count) => {
                let Count { rise, next } = *count;
                *self = if next < i64::MAX {
                    Node::Counting(Count {
                        rise,
                        next: next + 1,
                    })
                } else {
                    Node::Gone
                };
                Some(rise.call(next))
            }
            Node::Endless(call) => Some(*call),
            Node::InTurn(awaited, row) => row.take_first(awaited, asked),
            Node::Limited(count, inner) => {
                if *count == 0 {
                    return None;
                }
                let call = inner.boxed.take(asked)?;
                *count -= 1;
                Some(call)
            }
            Node::Mixed(row) => row.take_any(asked),
            Node::Split(lots) => lots.take(asked),
        }
    }
}

impl Row {
    /// The place of the first member that isn't done.
    fn first_open_place(&self) -> usize
        ensures { result ≡ first_open_place self.now }
    {
        for (at, member) in self.members.iter().enumerate() {
            if !member.node.is_done() {
                return at;
            }
        }
        self.members.len()
    }

    /// The call that a thread gets from the member at a place. A member that has given none waits for
    /// the awaited threads.
    #[cycle(take)]
    fn take_at(&mut self, at: usize, awaited: &[usize], asked: Question) -> Option<Call>
        requires { at < length self.old }
        ensures call { result
            ≡ taken_call (turn_at awaited.now self.old at (question asked.entry)) }
        ensures rest { self.new
            ≡ rest_of self.old (turn_at awaited.now self.old at (question asked.entry)) }
    {
        let member = &mut self.members[at];
        if !member.started && is_any_busy(asked.busy, awaited) {
            return None;
        }
        let call = member.node.take(asked)?;
        member.started = true;
        Some(call)
    }

    /// The call that a thread gets from the first member that isn't done.
    #[cycle(take)]
    fn take_first(&mut self, awaited: &[usize], asked: Question) -> Option<Call>
        ensures call { result
            ≡ taken_call (first_turn awaited.now self.old (question asked.entry)) }
        ensures rest { self.new
            ≡ rest_of self.old (first_turn awaited.now self.old (question asked.entry)) }
    {
        let at = self.first_open_place();
        if at < self.members.len() {
            self.take_at(at, awaited, asked)
        } else {
            None
        }
    }

    /// How many members aren't done.
    fn open_len(&self) -> usize
        ensures { result ≡ open_len self.now }
    {
        let mut open = 0;
        for member in &self.members {
            if !member.node.is_done() {
                open += 1;
            }
        }
        open
    }

    /// The place of a member by its number among those that aren't done.
    fn open_place(&self, number: usize) -> usize
        requires { number < open_len self.now }
        ensures place { result ≡ open_place self.now number }
        ensures within { result < length self.now }
    {
        let mut before = number;
        for (at, member) in self.members.iter().enumerate() {
            if !member.node.is_done() {
                if before == 0 {
                    return at;
                }
                before -= 1;
            }
        }
        self.members.len()
    }

    /// The first call that there is at the places of a range.
    #[cycle(take)]
    fn take_among(&mut self, from: usize, to: usize, asked: Question) -> Option<Call>
        requires { (from ≤ to) × (to ≤ length self.old) }
        ensures call { result
            ≡ taken_call (turn_among self.old (question asked.entry) from (to - from)) }
        ensures rest { self.new
            ≡ rest_of self.old (turn_among self.old (question asked.entry) from (to - from)) }
    {
        for at in from..to {
            if !self.members[at].node.is_done() {
                let call = self.take_at(at, &[], asked);
                if call.is_some() {
                    return call;
                }
            }
        }
        None
    }

    /// Members that aren't done are tried in turn: from the one that the random number chooses to the
    /// last, and then from the first on.
    #[cycle(take)]
    fn take_any(&mut self, asked: Question) -> Option<Call>
        ensures call { result ≡ taken_call (any_turn self.old (question asked.entry)) }
        ensures rest { self.new ≡ rest_of self.old (any_turn self.old (question asked.entry)) }
    {
        let open = self.open_len();
        if open == 0 {
            return None;
        }
        let from = self.open_place((asked.random_number % open as u64) as usize);
        let len = self.members.len();
        let call = self.take_among(from, len, asked);
        if call.is_some() {
            return call;
        }
        self.take_among(0, from, asked)
    }
}

impl Lots {
    /// The place of the first lot for a thread.
    fn lot_at(&self, thread: usize) -> usize
        ensures { result ≡ lot_at self.now thread }
    {
        for (at, lot) in self.items.iter().enumerate() {
            if is_thread_in(&lot.threads, thread) {
                return at;
            }
        }
        self.items.len()
    }

    /// The call that a thread gets from the first lot for it.
    #[cycle(take)]
    fn take(&mut self, asked: Question) -> Option<Call>
        ensures call { result
            ≡ taken_call
            (lot_turn self.old (lot_at self.old asked.entry.asker) (question asked.entry)) }
        ensures rest { self.new
            ≡ rest_of self.old
            (lot_turn self.old (lot_at self.old asked.entry.asker) (question asked.entry)) }
    {
        let at = self.lot_at(asked.asker);
        if at < self.items.len() {
            self.items[at].node.take(asked)
        } else {
            None
        }
    }
}

/// Whether a thread is among these.
fn is_thread_in(threads: &[usize], thread: usize) -> bool
    ensures { result ≡ is_in_scope threads.now thread }
{
    threads.iter().any(|x| *x == thread)
}
