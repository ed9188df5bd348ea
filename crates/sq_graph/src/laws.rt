//! The laws of the canonical graph and of names, for the layers above.

ghost use Rattle.std.specs.Prelude.{◌≡◌};
ghost use Rattle.sq_graph.specs.Graph.{Graph};
ghost use Rattle.sq_graph.specs.Rules.{IsGraph};
ghost use Rattle.sq_graph.specs.Leaders.{IsCanonical};
ghost use Rattle.sq_graph.specs.Alike.{AreAlike};
ghost use Rattle.sq_graph.specs.Canonical.{canonical_of};
ghost use Rattle.sq_graph.specs.Places.{IsInReach};
ghost use Rattle.sq_graph.specs.Slotted.{slotted, IsSlotted};

/// The canonical graph of a canonical graph is that graph, and the one of a graph in reach is in reach.
#[tactic(auto, using(crate::proofs::CanonicalLaws::canonical_again, crate::proofs::CanonicalReach::canonical_in_reach))]
pub fn canonical_laws()
    ensures again { (g : Graph) → IsCanonical g → canonical_of g ≡ g }
    ensures in_reach { (g : Graph) → IsGraph g → IsInReach g → IsInReach (canonical_of g) }
{}

/// That graphs differ in the names of their blocks alone is symmetric and transitive. Where one of them keeps the rules, the
/// other does, and their canonical graphs differ in names alone too.
#[tactic(auto, using(crate::proofs::AlikeGraphs::alike_itself, crate::proofs::AlikeGraphs::alike_back, crate::proofs::AlikeGraphs::alike_through, crate::proofs::AlikeCanonical::alike_canonical))]
pub fn alike_laws()
    ensures itself { (g : Graph) → AreAlike g g }
    ensures back { (g h : Graph) → IsGraph g → AreAlike g h → AreAlike h g }
    ensures through { (g h k : Graph) → AreAlike g h → AreAlike h k → AreAlike g k }
    ensures rules { (g h : Graph) → IsGraph g → AreAlike g h → IsGraph h }
    ensures canonical { (g h : Graph) → IsGraph g → AreAlike g h → AreAlike (canonical_of g) (canonical_of h) }
{}

/// Graphs that differ in the names of their blocks alone have one slotted graph, which is alike them and slotted. So what
/// is said of slotted graphs doesn't depend on names.
#[tactic(auto, using(crate::proofs::Slotting::slotted_alike, crate::proofs::Slotting::one_slotted, crate::proofs::Slotting::slotted_again))]
pub fn slotted_laws()
    ensures alike { (g : Graph) → AreAlike g (slotted g) }
    ensures one { (g h : Graph) → IsGraph g → AreAlike g h → slotted h ≡ slotted g }
    ensures again { (g : Graph) → IsGraph g → IsSlotted (slotted g) }
{}
