//! Which names a graph uses.

ghost use Rattle.std.specs.Prelude.{◌≡◌, ◌++◌, ◌∷◌, [], map, OnOk, IfOk};
ghost use Rattle.std.specs.List.{flat_map};
ghost use Rattle.sq_graph.specs.Blocks.{all_items};
ghost use Rattle.sq_graph.specs.Parts.{names_of};
ghost use Rattle.sq_graph.specs.Rules.{IsGraph};
ghost use Rattle.sq_graph.specs.Uses.{items_uses, terms_uses, code_word_uses, uses};
ghost use Rattle.sq_lookup.specs.Names.{Adds, held_uses};

use crate::names::Names;
use sq_graph::{CodeRef, Graph, Item};
use sq_num::Memory;
use std::alloc::Global;

fn use_words(used: &mut Names, words: &[CodeRef]) -> Result<(), Memory>
    ensures { OnOk result (Adds (code_word_uses words.now) used.old used.new) }
{
    for word in words {
        used.insert(word.block)?;
    }
    Ok(())
}

fn use_items(used: &mut Names, items: &[Item]) -> Result<(), Memory>
    ensures { OnOk result (Adds (items_uses items.now) used.old used.new) }
{
    for item in items {
        used.insert_some(item.target())?;
    }
    Ok(())
}

fn use_terms(used: &mut Names, graph: &Graph, names: &[u32]) -> Result<(), Memory>
    requires rules { IsGraph graph.now.graph }
    requires names { names.now ≡ names_of graph.now.graph }
    ensures { OnOk result (Adds (terms_uses graph.now.graph.blocks) used.old used.new) }
{
    for name in names {
        used.insert_some(graph.term(*name).target())?;
    }
    Ok(())
}

fn use_blocks(used: &mut Names, graph: &Graph, names: &[u32]) -> Result<(), Memory>
    requires rules { IsGraph graph.now.graph }
    requires names { names.now ≡ names_of graph.now.graph }
    ensures { OnOk result (Adds (flat_map (λ b. items_uses b.items) graph.now.graph.blocks) used.old used.new) }
{
    for name in names {
        use_items(used, graph.items(*name))?;
    }
    Ok(())
}

fn use_bodies(used: &mut Names, graph: &Graph) -> Result<(), Memory>
    ensures { OnOk result (Adds (flat_map (λ p. items_uses p.body) graph.now.graph.procedures) used.old used.new) }
{
    for procedure in 0..graph.procedures() {
        use_items(used, graph.body(procedure))?;
    }
    Ok(())
}

/// The names that are used in items: in Hi and Lo in blocks and in all procedures. It looks at each item once.
fn item_names(alloc: Global, graph: &Graph, names: &[u32]) -> Result<Names, Memory>
    requires rules { IsGraph graph.now.graph }
    requires names { names.now ≡ names_of graph.now.graph }
    ensures { IfOk result (λ they. Adds (items_uses (all_items graph.now.graph)) [] they) }
{
    let mut they = Names::new(alloc);
    use_blocks(&mut they, graph, names)?;
    use_bodies(&mut they, graph)?;
    Ok(they)
}

/// The names that are used elsewhere than in terms: in the entry, code words, and Hi and Lo in blocks and in all procedures. It
/// looks at each item once.
pub fn held_names(alloc: Global, graph: &Graph, names: &[u32]) -> Result<Names, Memory>
    requires rules { IsGraph graph.now.graph }
    requires names { names.now ≡ names_of graph.now.graph }
    ensures { IfOk result (λ held. Adds (held_uses graph.now.graph) [] held) }
{
    let mut held = item_names(alloc, graph, names)?;
    held.insert(graph.entry())?;
    use_words(&mut held, graph.code_words())?;
    Ok(held)
}

/// The names that are used: in the entry, code words, terms, and Hi and Lo in blocks and in all procedures. It looks at each
/// block and each item once.
pub fn used_names(alloc: Global, graph: &Graph, names: &[u32]) -> Result<Names, Memory>
    requires rules { IsGraph graph.now.graph }
    requires names { names.now ≡ names_of graph.now.graph }
    ensures { IfOk result (λ used. Adds (uses graph.now.graph) [] used) }
{
    let mut used = held_names(alloc, graph, names)?;
    use_terms(&mut used, graph, names)?;
    Ok(used)
}
