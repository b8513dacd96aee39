//! Ranks of nodes, and the links that a rule makes of them. `specs/Ranks.antt` says which.

ghost use Rattle.std.specs.Prelude.{◌≡◌, ℕ, ◌+◌, Some, IfOk, MatchResult};
ghost use Rattle.std.specs.List.{Contains};
ghost use Rattle.jh_grudge.specs.Grudges.{CutsExactly, DropsSome, IsAscending};
ghost use Rattle.jh_grudge.specs.Ranks.{AreLinksBefore, DropsIn, drops_by, drops_in, rank_of};

use std::alloc::{AllocError, Global};

/// By node, its rank if it has one: the number of its component, or its place in a ring.
pub(crate) type Ranks = [Option<usize>; 256];

/// Which node drops which, by their ranks.
#[derive(Clone, Copy, Debug)]
pub(crate) enum Rule {
    /// Nodes of different ranks drop each other.
    Apart,
    /// In a ring of so many nodes each sees the smallest majority that begins with itself, and drops the
    /// others, which are those just before it.
    Ring(usize),
}

impl Rule {
    /// Whether a destination of the first rank drops a source of the second.
    fn drops(self, dst: usize, src: usize) -> bool
        ensures { result ≡ drops_by self dst src }
    {
        match self {
            Rule::Apart => dst != src,
            Rule::Ring(len) if src < dst => dst - src < len - len / 2,
            Rule::Ring(len) => src - dst > len / 2,
        }
    }
}

/// Gives these nodes a rank.
pub(crate) fn rank_all(ranks: &mut Ranks, nodes: &[u8], rank: usize)
    ensures ranked { (node : ℕ) → Contains nodes.now node → rank_of ranks.new node ≡ Some rank }
    ensures others { (node : ℕ) → ¬ Contains nodes.now node
        → rank_of ranks.new node ≡ rank_of ranks.old node }
{
    for node in nodes {
        ranks[usize::from(*node)] = Some(rank);
    }
}

/// Whether a destination drops a source, by their ranks.
fn is_dropped(ranks: &Ranks, rule: Rule, dst: u8, src: u8) -> bool
    ensures { result ≡ drops_in rule ranks.now dst src }
{
    match (ranks[usize::from(dst)], ranks[usize::from(src)]) {
        (Some(dst), Some(src)) => rule.drops(dst, src),
        _ => false,
    }
}

/// Puts the links from a node behind those from all nodes before it.
fn push_links_from(
    links: &mut Vec<(u8, u8)>,
    ranks: &Ranks,
    rule: Rule,
    src: u8,
) -> Result<(), AllocError>
    requires { AreLinksBefore (drops_in rule ranks.now) links.old.items (src, 0) }
    ensures { MatchResult result
        (λ _. AreLinksBefore (drops_in rule ranks.now) links.new.items (src + 1, 0))
        (λ _. DropsSome (DropsIn rule ranks.now)) }
{
    if ranks[usize::from(src)].is_none() {
        return Ok(());
    }
    for dst in 0..=u8::MAX {
        if is_dropped(ranks, rule, dst, src) {
            links.push((src, dst))?;
        }
    }
    Ok(())
}

/// All links that a rule makes of ranks, ascending. Takes 256 steps for each node that has a rank.
pub(crate) fn links_by(
    alloc: Global,
    ranks: &Ranks,
    rule: Rule,
) -> Result<Vec<(u8, u8)>, AllocError>
    ensures exact { MatchResult result
        (λ links. CutsExactly (DropsIn rule ranks.now) links.items)
        (λ _. DropsSome (DropsIn rule ranks.now)) }
    ensures ascending { IfOk result (λ links. IsAscending links.items) }
{
    let mut links = Vec::new(alloc);
    for src in 0..=u8::MAX {
        push_links_from(&mut links, ranks, rule, src)?;
    }
    Ok(links)
}
