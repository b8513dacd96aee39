//! Laws of the texts of faults, each a function that does nothing and whose contract is the law.
//! `specs/GrudgeLaws.antt` states those of faults that are named by a grudge, `specs/FaultLaws.antt`
//! what it is that a fault does as another.

ghost use Rattle.std.specs.Prelude.{◌≡◌, ℕ, List};
ghost use Rattle.jh_edn.specs.Order.{in_order};
ghost use Rattle.jh_env.specs.Faults.{FaultValue, FitsCount, AreApart, is_same_link, is_same_node};
ghost use Rattle.jh_env.specs.Faults.{kept_links, kept_nodes};
ghost use Rattle.jh_step_texts.specs.FaultLaws.{DoesAs};
ghost use Rattle.jh_step_texts.specs.FaultWritten.{fault_in_order, is_link_before, is_node_before};
ghost use Rattle.jh_step_texts.specs.GrudgeLaws.{
  BridgeIsBridge,
  HalvesAreComplete,
  RingIsRing,
  SplitIsComplete,
};
ghost use Rattle.jh_step_texts.specs.Kinds.{fault_kinds};

use crate::kinds::FAULT_KINDS;

/// The list of all kinds of faults is that of the definitions.
pub fn all_kinds()
    ensures kinds { FAULT_KINDS ≡ fault_kinds }
{}

/// A named fault cuts the links of its grudge: `[:halves]` those of the complete grudge of the two
/// halves of all nodes, `[:split-one NODE]` those of the complete grudge of the node and the rest,
/// `[:bridge]` those of the bridge, and a ring, in whatever order of all nodes, those of the
/// majorities ring in that order.
pub fn named_faults_are_grudges()
    ensures halves { HalvesAreComplete }
    ensures split { SplitIsComplete }
    ensures bridge { BridgeIsBridge }
    ensures ring { RingIsRing }
{}

/// The order in which a fault was given its links, nodes or bumps makes no difference: with them in
/// the order of its text it does what it did, whatever the faults before and after it, and fits the
/// nodes that it fitted; links or nodes that stand once are kept whole in that order, as
/// `Fault::cut` and the like keep them; and what is in that order stays as it is.
pub fn order_changes_no_fault()
    ensures does { (fault : FaultValue) → DoesAs (fault_in_order fault) fault }
    ensures fits { (count : ℕ) (fault : FaultValue) → FitsCount count fault
        → FitsCount count (fault_in_order fault) }
    ensures links_kept { (links : List (ℕ × ℕ)) → AreApart is_same_link links
        → kept_links (in_order is_link_before links) ≡ in_order is_link_before links }
    ensures nodes_kept { (nodes : List ℕ) → AreApart is_same_node nodes
        → kept_nodes (in_order is_node_before nodes) ≡ in_order is_node_before nodes }
    ensures stays { (fault : FaultValue)
        → fault_in_order (fault_in_order fault) ≡ fault_in_order fault }
{}
