//! A fixed delay on all 4,032 links of 64 nodes: each growth on the way may be refused, and is asked for once more.

ghost use Rattle.std.specs.Prelude.{◌∷◌, [], length, IfSome};
ghost use Rattle.jh_env.specs.Faults.{FitsCount};
ghost use Rattle.jh_env.specs.Overlay.{StandsWith};

use jh_env::{Env, Fault, Node, Nodes, Start};
use std::alloc::Global;

/// The names of 64 nodes.
static NAMES: &str =
    "a,b,c,d,e,f,g,h,i,j,k,l,m,n,o,p,q,r,s,t,u,v,w,x,y,z,A,B,C,D,E,F,G,H,I,J,K,L,M,N,O,P,Q,R,S,T,U,V,W,X,Y,Z,\
    0,1,2,3,4,5,6,7,8,9,-,_";

fn calm(alloc: Global) -> Option<Env>
    ensures { IfSome result (λ env. StandsWith env []) }
{
    let names = NAMES.split(',').collect::<Vec<_>>(alloc).ok()?;
    let nodes = Nodes::of(alloc, &names).ok()?;
    Env::start(alloc, Start::new(alloc, nodes).ok()?).ok()
}

/// The links from a node to all others.
fn push_links(links: &mut Vec<(Node, Node)>, from: u8) -> Option<()> {
    for to in 0..64_u8 {
        if to != from {
            links.push((Node::at(from), Node::at(to))).ok()?;
        }
    }
    Some(())
}

/// A fix of all links.
fn fix(alloc: Global, nodes: &Nodes) -> Option<Fault> {
    let mut links = Vec::new(alloc);
    for from in 0..64_u8 {
        push_links(&mut links, from)?;
    }
    Fault::fix(alloc, nodes, &links, 300).ok()
}

/// How many of the links from a node have this delay.
fn count_from(env: &Env, from: u8, delay: u64) -> usize {
    (0..64_u8)
        .filter_map(|to| env.link(Node::at(from), Node::at(to)))
        .filter(|link| link.delay == delay)
        .count()
}

/// How many links have this delay.
fn count(env: &Env, delay: u64) -> usize {
    let mut count = 0_usize;
    for from in 0..64_u8 {
        count = count.saturating_add(count_from(env, from, delay));
    }
    count
}

/// Puts a fix on an environment that has no fault.
fn put(env: &mut Env, fix: &Fault)
    requires none { StandsWith env.old [] }
    requires fits { FitsCount (length env.old.names) fix.now }
    ensures { StandsWith env.new ((7, fix.now) ∷ []) }
{
    env.put(fix, 7);
}

/// Takes the fix, which alone is there.
fn take(env: &mut Env, fix: &Fault)
    requires { StandsWith env.old ((7, fix.now) ∷ []) }
{
    env.take(fix, 7);
}

/// How many links have the delay while the fix stands, so many of a copy, and so many have none after it is taken.
fn counts(alloc: Global, env: &mut Env, fix: &Fault) -> Option<(usize, usize, usize)>
    requires none { StandsWith env.old [] }
    requires fits { FitsCount (length env.old.names) fix.now }
{
    put(env, fix);
    let (stands, copy) = (count(env, 300), env.copy(alloc).ok()?);
    take(env, fix);
    Some((stands, count(&copy, 300), count(env, 0)))
}

/// The same of any environment that has no fault. None: memory was refused, or the fix does not fit.
fn counts_of(alloc: Global, env: &mut Env) -> Option<(usize, usize, usize)>
    requires { StandsWith env.old [] }
{
    let fix = fix(alloc, env.nodes())?;
    if !fix.fits(env) {
        return None;
    }
    counts(alloc, env, &fix)
}

/// The same of 64 calm nodes.
fn counts_once(alloc: Global) -> Option<(usize, usize, usize)> {
    counts_of(alloc, &mut calm(alloc)?)
}

#[test]
fn a_fix_of_all_links_is_put_and_taken(rt: HostRuntime) {
    let counts = match counts_once(rt.alloc()) {
        None => counts_once(rt.alloc()),
        counts => counts,
    };
    assert_eq!(rt; counts, Some((4032, 4032, 4032)));
}
