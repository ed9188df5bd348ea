//! What equal keys and equal numbers tell, for the layers above.

ghost use Rattle.std.specs.Prelude.{◌≡◌, ◌≤◌, ℕ, List, Option, Some, map, Contains};
ghost use Rattle.std.specs.Option.{option_map};
ghost use Rattle.sq_graph.specs.Graph.{Graph};
ghost use Rattle.sq_graph.specs.Rules.{ItemFits};
ghost use Rattle.sq_graph.specs.declared.item.Item.{Item};
ghost use Rattle.sq_graph.specs.declared.item.Term.{Term};
ghost use Rattle.sq_finger.specs.Exact.{IsExact};
ghost use Rattle.sq_finger.specs.ItemKeys.{key_of};
ghost use Rattle.sq_finger.specs.TermKeys.{term_key_of};
ghost use Rattle.sq_finger.specs.Numbers.{AreNumbers, AreNumbersOf};
ghost use Rattle.sq_finger.specs.Runs.{AreRunNumbers};
ghost use Rattle.sq_finger.specs.Lines.{line_of, item_at, AreWindowNumbers};

use crate::keys::{ItemKey, TermKey};

/// Keys are `==` exactly where they are equal, also that of an item behind a number, and those of a term and an item
/// beside a name that may be there.
#[tactic(auto, using(crate::proofs::Exactness::exact_item_key, crate::proofs::Exactness::exact_term_key, crate::proofs::Exactness::exact_numbered_item, crate::proofs::Exactness::exact_end))]
pub fn key_laws()
    ensures items { IsExact ⟦<ItemKey as PartialEq>⟧.eq }
    ensures terms { IsExact ⟦<TermKey as PartialEq>⟧.eq }
    ensures numbered { IsExact ⟦<(u32, ItemKey) as PartialEq>⟧.eq }
    ensures ends { IsExact ⟦<(TermKey, Option<u32>, ItemKey) as PartialEq>⟧.eq }
{}

/// The numbers of the keys of items, and those of the keys of terms, are equal exactly where the items and the terms are.
pub fn number_laws()
    ensures items { (items : List (Option Item)) (numbers : List (Option ℕ)) → ((item : Item) → Contains items (Some item) → ItemFits item) → AreNumbers ⟦<ItemKey as PartialEq>⟧.eq (map (option_map key_of) items) numbers → AreNumbersOf items numbers }
    ensures terms { (terms : List (Option Term)) (numbers : List (Option ℕ)) → AreNumbers ⟦<TermKey as PartialEq>⟧.eq (map (option_map term_key_of) terms) numbers → AreNumbersOf terms numbers }
{}

/// Numbers of items at the places of a graph are those of their runs of one, and numbers of the runs of n of these are those
/// of the windows of n items: two are equal exactly where the windows have equal items.
pub fn window_laws()
    ensures ones { (firsts : List (Option ℕ)) → AreRunNumbers 1 firsts firsts }
    ensures windows { (g : Graph) (n : ℕ) (firsts numbers : List (Option ℕ)) → 1 ≤ n → AreNumbersOf (map (item_at g) (line_of g)) firsts → AreRunNumbers n firsts numbers → AreWindowNumbers g n (line_of g) numbers }
{}
