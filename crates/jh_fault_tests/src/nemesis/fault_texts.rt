//! Worked texts of faults: one of each kind, whose links and nodes are given out of order and repeated.

ghost use Rattle.std.specs.Prelude.{length, IfSome};
ghost use Rattle.jh_env.specs.Faults.{FitsCount};

use jh_edn::{Value, write};
use jh_env::{Fault, FaultError, Nodes};
use jh_step_texts::{order_changes_no_fault, value_of_fault};
use std::alloc::Global;

/// The place of a node is not where its name stands among the names.
fn nodes(alloc: Global) -> Option<Nodes> {
    Nodes::of(alloc, &["n2", "n1", "n3"]).ok()
}

/// A fault of each kind, by its place in the table below.
fn fault_of(alloc: Global, nodes: &Nodes, kind: usize) -> Result<Fault, FaultError> {
    let (Some(first), Some(second), Some(third)) = (nodes.at(0), nodes.at(1), nodes.at(2)) else {
        return Err(FaultError::UnknownNode);
    };
    let links = [
        (third, first),
        (second, first),
        (first, third),
        (first, second),
        (third, first),
    ];
    match kind {
        0 => Fault::cut(alloc, nodes, &links),
        1 => Fault::slow(alloc, nodes, &links, 250),
        2 => Fault::loss(alloc, nodes, &links, 7),
        3 => Fault::pause(alloc, nodes, &[third, first, third]),
        4 => Fault::kill(alloc, nodes, &[second, first, second]),
        5 => Fault::bump(alloc, nodes, &[(third, -500), (first, 500)]),
        6 => Fault::fix(alloc, nodes, &links, 20),
        7 => Fault::fix(alloc, nodes, &[], 0),
        _ => Fault::cut(alloc, nodes, &[]),
    }
}

/// A fault of a kind that fits the nodes.
fn fitting_fault(alloc: Global, nodes: &Nodes, kind: usize) -> Option<Fault>
    ensures { IfSome result (FitsCount (length nodes.now)) }
{
    let fault = fault_of(alloc, nodes, kind).ok()?;
    if fault.fits_nodes(nodes) {
        Some(fault)
    } else {
        None
    }
}

/// The text of a value. None: memory was refused.
fn value_text(alloc: Global, value: &Value) -> Option<Vec<u8>> {
    let mut written = Vec::new(alloc);
    write(value, &mut written).ok()?;
    Some(written)
}

/// The text of a fault of a kind. None: memory was refused.
fn text_once(alloc: Global, kind: usize) -> Option<Vec<u8>> {
    let nodes = nodes(alloc)?;
    let fault = fitting_fault(alloc, &nodes, kind)?;
    value_text(alloc, &value_of_fault(alloc, &nodes, &fault).ok()?)
}

/// Whether this is the text of a fault of a kind. It is written once more where memory was refused.
fn is_text(alloc: Global, kind: usize, wanted: &str) -> bool {
    let text = match text_once(alloc, kind) {
        None => text_once(alloc, kind),
        text => text,
    };
    match text {
        Some(text) => text.as_slice() == wanted.as_bytes(),
        None => false,
    }
}

static TEXTS: [&str; 9] = [
    "[:cut [[\"n2\" \"n1\"] [\"n2\" \"n3\"] [\"n1\" \"n2\"] [\"n3\" \"n2\"]]]",
    "[:slow 250 [[\"n2\" \"n1\"] [\"n2\" \"n3\"] [\"n1\" \"n2\"] [\"n3\" \"n2\"]]]",
    "[:loss 7 [[\"n2\" \"n1\"] [\"n2\" \"n3\"] [\"n1\" \"n2\"] [\"n3\" \"n2\"]]]",
    "[:pause [\"n2\" \"n3\"]]",
    "[:kill [\"n2\" \"n1\"]]",
    "[:bump {\"n2\" 500, \"n3\" -500}]",
    "[:fix 20 [[\"n2\" \"n1\"] [\"n2\" \"n3\"] [\"n1\" \"n2\"] [\"n3\" \"n2\"]]]",
    "[:fix 0 []]",
    "[:cut []]",
];

#[test]
fn writes_faults_by_place(rt: HostRuntime) {
    order_changes_no_fault();
    for (kind, wanted) in TEXTS.iter().enumerate() {
        assert!(rt; is_text(rt.alloc(), kind, wanted), "at kind {kind}");
    }
}
