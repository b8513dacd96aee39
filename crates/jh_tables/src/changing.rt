//! Tallies are changed: a fault is put on them or taken off. `specs/ChangingInside.antt` says what
//! each then is.

ghost use Rattle.std.specs.Prelude.{◌≡◌, ◌<◌, ◌≤◌, ◌+◌, ◌^◌, length};
ghost use Rattle.std.specs.List.{All};
ghost use Rattle.jh_tables.specs.Faults.{AreApart, AreBumps, AreKnownLinks, IsBumpAmount};
ghost use Rattle.jh_tables.specs.Faults.{FitsCount, IsFault, named_count, is_same_link};
ghost use Rattle.jh_tables.specs.Faults.{is_same_node};
ghost use Rattle.jh_tables.specs.Plain.{fault_of};
ghost use Rattle.jh_tables.specs.Standing.{IsWithin};
ghost use Rattle.jh_tables.specs.ChangingInside.{changed_number, int_changed, link_written};
ghost use Rattle.jh_tables.specs.ChangingInside.{named_link_changed, node_written, IsLevelThere};
ghost use Rattle.jh_tables.specs.ChangingInside.{named_node_changed, AreClocksChanged, AreLinksChanged};
ghost use Rattle.jh_tables.specs.ChangingInside.{AreNodesChanged, AreChanged, CanChange, CanChangeLink};
ghost use Rattle.jh_tables.specs.ChangingInside.{CanChangeLinks, CanChangeNode, CanChangeNodes};
ghost use Rattle.jh_tables.specs.ChangingInside.{CanChangeTallies};

use crate::counted::{Counted, LinkCount, LinkTally, NodeCount, NodeTally, TableWrite};
use crate::faults::{LinkFault, NodeFault, PlainFault};
use crate::nodes::Node;

/// What changes tallies and entries: a fault is added or removed.
#[derive(Clone, Copy, Debug, PartialEq, Eq)]
pub enum Change {
    Add,
    Remove,
}

/// A count with one fault more or less.
fn number_changed(change: Change, number: u16) -> u16
    requires { CanChange change 65535 number 1 }
    ensures { result ≡ changed_number change number 1 }
{
    match change {
        Change::Add => number + 1,
        Change::Remove => number - 1,
    }
}

/// The count or sum of a link that the fault changes, changed. A fix has an entry of its own: the sum is
/// unchanged.
fn link_changed(change: Change, fault: LinkFault, tally: &LinkTally) -> LinkCount
    requires { CanChangeLink change fault tally.now }
    ensures there { IsLevelThere result }
    ensures changed { link_written result tally.now ≡ named_link_changed change fault tally.now }
{
    match fault {
        LinkFault::Cut => LinkCount::Cuts(number_changed(change, tally.cuts)),
        LinkFault::Slow(ms) => LinkCount::Slowed(match change {
            Change::Add => tally.slowed_ms + ms,
            Change::Remove => tally.slowed_ms - ms,
        }),
        LinkFault::Loss(level) => {
            let place = level as usize - 1;
            LinkCount::Losses(place, number_changed(change, tally.losses[place]))
        }
        LinkFault::Fix(_) => LinkCount::Slowed(tally.slowed_ms),
    }
}

/// The count of a node that the fault changes, changed.
fn node_changed(change: Change, fault: NodeFault, tally: &NodeTally) -> NodeCount
    requires { CanChangeNode change fault tally.now }
    ensures { node_written result tally.now ≡ named_node_changed change fault tally.now }
{
    match fault {
        NodeFault::Pause => NodeCount::Pauses(number_changed(change, tally.pauses)),
        NodeFault::Kill => NodeCount::Kills(number_changed(change, tally.kills)),
    }
}

/// The sum of a node whose clock the fault moves, changed. A sum within 2^62 has room for one more bump
/// in 64 bits.
fn clock_changed(change: Change, ms: i64, tally: &NodeTally) -> NodeCount
    requires amount { IsBumpAmount ms }
    requires room { IsWithin (2 ^ 62) tally.now.bumped_ms }
    ensures { node_written result tally.now
        ≡ record tally.now { bumped_ms = int_changed change tally.now.bumped_ms ms } }
{
    NodeCount::Bumped(match change {
        Change::Add => tally.bumped_ms + ms,
        Change::Remove => tally.bumped_ms - ms,
    })
}

/// Changes the tally of each of these links, each of which stands once.
fn change_links(counted: &mut Counted, change: Change, fault: LinkFault, links: &[(Node, Node)])
    requires known { AreKnownLinks (length counted.old.nodes) links.now }
    requires once { AreApart is_same_link links.now }
    requires room { CanChangeLinks change fault links.now (length counted.old.nodes) counted.old.links }
    ensures changed { AreLinksChanged change fault links.now
        (length counted.old.nodes) counted.old.links counted.new.links }
    ensures many { length counted.new.links ≡ length counted.old.links }
    ensures rest { (counted.new.nodes ≡ counted.old.nodes)
        × (counted.new.fixes ≡ counted.old.fixes) }
    ensures work { counted.new.work ≤ counted.old.work + length links.now }
{
    let count = counted.count();
    for (from, to) in links {
        let place = from.place() as usize * count + to.place() as usize;
        let changed = link_changed(change, fault, counted.link(place));
        counted.write(place, &TableWrite::Link(changed));
    }
}

/// Changes the tally of each of these nodes, each of which stands once.
fn change_nodes(counted: &mut Counted, change: Change, fault: NodeFault, nodes: &[Node])
    requires known { All (λ n. n < length counted.old.nodes) nodes.now }
    requires once { AreApart is_same_node nodes.now }
    requires room { CanChangeNodes change fault nodes.now counted.old.nodes }
    ensures changed { AreNodesChanged change fault nodes.now counted.old.nodes counted.new.nodes }
    ensures many { length counted.new.nodes ≡ length counted.old.nodes }
    ensures rest { (counted.new.links ≡ counted.old.links)
        × (counted.new.fixes ≡ counted.old.fixes) }
    ensures work { counted.new.work ≤ counted.old.work + length nodes.now }
{
    for node in nodes {
        let place = node.place() as usize;
        let changed = node_changed(change, fault, counted.node(place));
        counted.write(place, &TableWrite::Node(changed));
    }
}

/// Changes the clock of each of these nodes, each of which stands once. The bound of 2^61 is far above
/// what `MAX_LAID` bumps can sum to, so it always holds.
fn change_clocks(counted: &mut Counted, change: Change, bumps: &[(Node, i64)])
    requires known { All (λ b. b.0 < length counted.old.nodes) bumps.now }
    requires right { AreBumps bumps.now }
    requires room { All (λ n. IsWithin (2 ^ 61) n.bumped_ms) counted.old.nodes }
    ensures changed { AreClocksChanged change bumps.now counted.old.nodes counted.new.nodes }
    ensures many { length counted.new.nodes ≡ length counted.old.nodes }
    ensures rest { (counted.new.links ≡ counted.old.links)
        × (counted.new.fixes ≡ counted.old.fixes) }
    ensures work { counted.new.work ≤ counted.old.work + length bumps.now }
{
    for (node, ms) in bumps {
        let place = node.place() as usize;
        let changed = clock_changed(change, *ms, counted.node(place));
        counted.write(place, &TableWrite::Node(changed));
    }
}

/// Changes the tallies of all that a fault names. `change_entries` changes the entries of fixes.
pub(crate) fn change_tallies(counted: &mut Counted, change: Change, fault: &PlainFault)
    requires fits { FitsCount (length counted.old.nodes) (fault_of fault.now) }
    requires right { IsFault (fault_of fault.now) }
    requires room { CanChangeTallies change (fault_of fault.now) counted.old }
    ensures changed { AreChanged change (fault_of fault.now) counted.old counted.new }
    ensures fixes { counted.new.fixes ≡ counted.old.fixes }
    ensures work { counted.new.work ≤ counted.old.work + named_count (fault_of fault.now) }
{
    match fault {
        PlainFault::OnLinks(LinkFault::Fix(_), _) => {}
        PlainFault::OnLinks(kind, links) => change_links(counted, change, *kind, links),
        PlainFault::OnNodes(kind, nodes) => change_nodes(counted, change, *kind, nodes),
        PlainFault::Bump(bumps) => change_clocks(counted, change, bumps),
    }
}
