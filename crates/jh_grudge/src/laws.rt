//! Laws of grudges, each a function that does nothing and whose contract is the law.
//! `specs/Laws.antt` states them.

ghost use Rattle.jh_grudge.specs.Laws.{
  BridgeSeesItself,
  BridgeTalksToAll,
  CompleteSeesItself,
  RingSeesItself,
  RingSeesMajority,
  RingSightsDiffer,
};

/// A node sees itself, whatever the grudge.
pub fn each_sees_itself()
    ensures complete { CompleteSeesItself }
    ensures bridge { BridgeSeesItself }
    ensures ring { RingSeesItself }
{}

/// The node of a bridge drops nobody, and nobody drops it.
pub fn bridge_talks_to_all()
    ensures { BridgeTalksToAll }
{}

/// In a ring each node sees a majority of the nodes, itself among them.
pub fn ring_sees_majority()
    ensures { RingSeesMajority }
{}

/// In a ring of three nodes or more no two see the same nodes: each sees one that the other drops.
pub fn ring_sights_differ()
    ensures { RingSightsDiffer }
{}
