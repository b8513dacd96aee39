//! Which names are taken, and who is found by them.
//!
//! A row is names, each with a `,` behind it, and `ok` or the refusal; or a question about three nodes and its answer.

use jh_env::{Nodes, NodesError};
use std::alloc::Global;

/// `ok`, or why names are refused. None: memory was refused.
fn refusal_once(alloc: Global, names: &str) -> Option<String> {
    let names = names.split_terminator(',').collect::<Vec<_>>(alloc).ok()?;
    match Nodes::of(alloc, &names) {
        Ok(_) => "ok".to_string(alloc).ok(),
        Err(NodesError::OutOfMemory) => None,
        Err(refusal) => refusal.to_string(alloc).ok(),
    }
}

/// Whether the names of a row are taken or refused as it says. They are tried once more where memory was refused.
fn is_refusal(alloc: Global, row: &str) -> bool {
    let (names, wanted) = row.split_once("=> ").unwrap_or((row, ""));
    let refusal = match refusal_once(alloc, names) {
        None => refusal_once(alloc, names),
        refusal => refusal,
    };
    match refusal {
        Some(refusal) => refusal.as_str() == wanted,
        None => false,
    }
}

// The longest name that is allowed has 64 letters.
#[test]
fn names_are_taken_or_refused(rt: HostRuntime) {
    let rows = "\
        => no nodes\n\
        a,b,c,d,e,f,g,h,i,j,k,l,m,n,o,p,q,r,s,t,u,v,w,x,y,z,A,B,C,D,E,F,G,H,I,J,K,L,M,N,O,P,Q,R,S,T,U,V,W,X,Y,Z,\
        0,1,2,3,4,5,6,7,8,9,-,_,=> ok\n\
        a,b,c,d,e,f,g,h,i,j,k,l,m,n,o,p,q,r,s,t,u,v,w,x,y,z,A,B,C,D,E,F,G,H,I,J,K,L,M,N,O,P,Q,R,S,T,U,V,W,X,Y,Z,\
        0,1,2,3,4,5,6,7,8,9,-,_,.,=> too many nodes\n\
        n1,n 2,=> bad name\n\
        ,=> bad name\n\
        a234567890123456789012345678901234567890123456789012345678901234,=> ok\n\
        a2345678901234567890123456789012345678901234567890123456789012345,=> bad name\n\
        ä,=> bad name\n\
        n1,n1,n 2,=> duplicate name\n\
        n1,n 2,n1,=> bad name\n\
        A.b-c_9,n1,=> ok";
    for row in rows.lines() {
        assert!(rt; is_refusal(rt.alloc(), row), "at {row}");
    }
}

/// Three nodes.
fn three(alloc: Global) -> Option<Nodes> {
    Nodes::of(alloc, &["n1", "n2", "n3"]).ok()
}

/// What nodes answer to a question, as a number; for a name, its number. None: they know no such node.
fn known(nodes: &Nodes, question: &str, about: &str) -> Option<usize> {
    let place = about.parse::<u8>().unwrap_or(u8::MAX);
    match question {
        "len" => Some(nodes.len()),
        "find" => Some(usize::from(nodes.find(about)?.place())),
        "at" => Some(usize::from(nodes.at(place)?.place())),
        "all" => Some(usize::from(nodes.all().as_slice().get(usize::from(place))?.place())),
        _ => nodes
            .name(nodes.at(place)?)?
            .strip_prefix("n")?
            .parse::<usize>()
            .ok(),
    }
}

/// Whether three nodes answer a question as a row says. None: memory was refused.
fn is_known_once(alloc: Global, row: &str) -> Option<bool> {
    let (call, wanted) = row.split_once(',')?;
    let (question, about) = call.split_once(' ')?;
    Some(known(&three(alloc)?, question, about) == wanted.parse::<usize>().ok())
}

/// The same, once more where memory was refused.
fn is_known(alloc: Global, row: &str) -> bool {
    match is_known_once(alloc, row) {
        None => is_known_once(alloc, row) == Some(true),
        Some(is_known) => is_known,
    }
}

#[test]
fn nodes_are_found(rt: HostRuntime) {
    let rows =
        "len n,3\nfind n2,1\nfind n4,\nat 1,1\nat 3,\nat 2,2\nall 0,0\nall 2,2\nall 3,\nname 2,3";
    for row in rows.lines() {
        assert!(rt; is_known(rt.alloc(), row), "at {row}");
    }
}
