//! The registers that are live at each node.

ghost use Rattle.std.specs.Prelude.{◌≡◌, ℕ, ◌+◌, ◌<◌, ◌≤◌, ◌↔◌, ◌++◌, ◌^◌, true, [], IfOk, OnOk, length, map, slice_index};
ghost use Rattle.std.specs.List.{Contains};
ghost use Rattle.sq_graph.specs.Parts.{names_of};
ghost use Rattle.sq_graph.specs.Rules.{IsGraph};
ghost use Rattle.sq_isa.specs.Registers.{is_member};
ghost use Rattle.sq_live.specs.Exits.{position_at, exits_of};
ghost use Rattle.sq_live.specs.Search.{list_at, Leads, IsVisiting, up_to, work_of};
ghost use Rattle.sq_live.specs.Sources.{sources_of, IsChained};

use crate::effect::Effect;
use crate::sources::{Sources, find_sources};
use sq_graph::Graph;
use sq_isa::RegSet;
use sq_num::Memory;
use std::alloc::Global;

/// The set of each node: the registers that some way from it reads before it writes them. A node is looked at again only
/// where a node that it leads to gained a register.
pub(crate) fn live_sets(
    alloc: Global,
    g: &Graph,
    names: &[u32],
    positions: &[Option<u32>],
    effects: &[Effect],
) -> Result<Vec<RegSet>, Memory>
    requires rules { IsGraph g.now.graph }
    requires names { names.now ≡ names_of g.now.graph }
    requires count { length effects.now ≡ length names.now + 1 }
    requires there { (from to : ℕ) → Contains (list_at (exits_of (position_at positions.now) (length names.now) g.now.graph) from) to → to < length effects.now }
    ensures count { IfOk result (λ sets. length sets.items ≡ length effects.now) }
    ensures live { IfOk result (λ sets. (k r : ℕ) → k < length effects.now → 0 < r → r < 32 → (is_member (slice_index sets.items k) r ≡ true) ↔ Leads effects.now (exits_of (position_at positions.now) (length names.now) g.now.graph) r k) }
{
    g.learn();
    let sources = find_sources(alloc, g, names, positions)?;
    let mut sets = read_sets(alloc, effects)?;
    let mut waiting = Vec::new(alloc);
    visit_all(effects, &sources, &mut sets, &mut waiting)?;
    while let Some(node) = waiting.pop() {
        visit(effects, &sources, node, 0, &mut sets, &mut waiting)?;
    }
    Ok(sets)
}

// The registers that each node reads.
fn read_sets(alloc: Global, effects: &[Effect]) -> Result<Vec<RegSet>, Memory>
    ensures { IfOk result (λ sets. sets.items ≡ map (λ effect. effect.reads) effects.now) }
{
    let mut sets = Vec::with_capacity(alloc, effects.len())?;
    for effect in effects {
        sets.push(effect.reads)?;
    }
    Ok(sets)
}

// Visits each node once, from the last to the first.
fn visit_all(
    effects: &[Effect],
    sources: &Sources,
    sets: &mut Vec<RegSet>,
    waiting: &mut Vec<u32>,
) -> Result<(), Memory>
    requires few { length effects.now < 2 ^ 32 }
    requires chained { IsChained sources.now }
    requires count { length (sources_of sources.now) ≡ length effects.now }
    requires there { (from to : ℕ) → Contains (list_at (sources_of sources.now) to) from → from < length effects.now }
    requires none { waiting.old.items ≡ [] }
    requires search { IsVisiting effects.now (sources_of sources.now) 0 [] sets.old.items (up_to (length effects.now)) }
    ensures { OnOk result (IsVisiting effects.now (sources_of sources.now) 0 [] sets.new.items waiting.new.items) }
{
    for node in (0..effects.len()).rev() {
        visit(effects, sources, node as u32, node as u32, sets, waiting)?;
    }
    Ok(())
}

// Adds what is live at this node to the nodes that lead to it, but for what they write. Those that gain a register wait,
// but for the nodes before `later`, whose turn comes anyhow.
fn visit(
    effects: &[Effect],
    sources: &Sources,
    node: u32,
    later: u32,
    sets: &mut Vec<RegSet>,
    waiting: &mut Vec<u32>,
) -> Result<(), Memory>
    requires chained { IsChained sources.now }
    requires count { length (sources_of sources.now) ≡ length effects.now }
    requires there { (from to : ℕ) → Contains (list_at (sources_of sources.now) to) from → from < length effects.now }
    requires node { node < length effects.now }
    requires search { IsVisiting effects.now (sources_of sources.now) node (list_at (sources_of sources.now) node) sets.old.items (up_to later ++ waiting.old.items) }
    ensures search { OnOk result (IsVisiting effects.now (sources_of sources.now) node [] sets.new.items (up_to later ++ waiting.new.items)) }
    ensures work { OnOk result (work_of sets.new.items waiting.new.items ≤ work_of sets.old.items waiting.old.items) }
{
    let mut at = sources.first[node as usize];
    while let Some(number) = at {
        let edge = sources.edges[number as usize];
        let from = edge.from as usize;
        let live = effects[from].before(sets[node as usize]);
        if let Some(grown) = sets[from].grown_by(live) {
            sets[from] = grown;
            if edge.from >= later {
                waiting.push(edge.from)?;
            }
        }
        at = edge.next;
    }
    Ok(())
}
