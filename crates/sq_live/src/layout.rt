//! The blocks of a graph by their positions in layout order.

ghost use Rattle.std.specs.Prelude.{◌≡◌, ℕ, ◌+◌, ◌<◌, ◌^◌, Some, IfOk, OnOk, length, nat_eq};
ghost use Rattle.std.specs.Map.{update};
ghost use Rattle.sq_graph.specs.Parts.{names_of};
ghost use Rattle.sq_graph.specs.Rules.{IsGraph};
ghost use Rattle.sq_live.specs.Effects.{AreCalls, AreBlocks};
ghost use Rattle.sq_live.specs.Exits.{position_in, position_at};

use crate::effect::{Effect, items_effect, term_effect};
use sq_graph::Graph;
use sq_isa::RegSet;
use sq_num::Memory;
use std::alloc::Global;

/// The names of the blocks, in layout order.
pub fn block_names(alloc: Global, g: &Graph) -> Result<Vec<u32>, Memory>
    requires { IsGraph g.now.graph }
    ensures { IfOk result (λ names. names.items ≡ names_of g.now.graph) }
{
    let mut names = Vec::with_capacity(alloc, g.links().len() as usize)?;
    let mut place = Some(g.first());
    while let Some(name) = place {
        names.push(name)?;
        place = g.next(name);
    }
    Ok(names)
}

/// The position under each name, in a table that reaches up to the greatest. Of equal names, which a graph doesn't have,
/// the first would count.
pub(crate) fn positions(alloc: Global, names: &[u32]) -> Result<Vec<Option<u32>>, Memory>
    requires { length names.now < 2 ^ 32 }
    ensures { IfOk result (λ positions. (name : ℕ) → position_at positions.items name ≡ position_in names.now 0 name) }
{
    let mut positions = Vec::new(alloc);
    for k in (0..names.len()).rev() {
        put(&mut positions, names[k], k as u32)?;
    }
    Ok(positions)
}

// Puts a position under a name.
fn put(positions: &mut Vec<Option<u32>>, name: u32, position: u32) -> Result<(), Memory>
    ensures { OnOk result ((n : ℕ) → position_at positions.new.items n ≡ update nat_eq (position_at positions.old.items) name (Some position) n) }
{
    grow(positions, name)?;
    positions[name as usize] = Some(position);
    Ok(())
}

// Makes room for a name.
fn grow(positions: &mut Vec<Option<u32>>, name: u32) -> Result<(), Memory>
    ensures room { OnOk result (name < length positions.new.items) }
    ensures same { (n : ℕ) → position_at positions.new.items n ≡ position_at positions.old.items n }
{
    let room = name as usize + 1;
    if positions.len() < room {
        positions.resize(room, None)?;
    }
    Ok(())
}

/// The position of a name, if it is a block's.
pub(crate) fn position(positions: &[Option<u32>], name: u32) -> Option<u32>
    ensures { result ≡ position_at positions.now name }
{
    let name = name as usize;
    if name < positions.len() {
        positions[name]
    } else {
        None
    }
}

/// The effects of the calls of procedures: each writes its link, and then does its body.
pub(crate) fn call_effects(alloc: Global, g: &Graph) -> Result<Vec<Effect>, Memory>
    ensures { IfOk result (λ calls. AreCalls g.now.graph.procedures calls.items) }
{
    let mut calls = Vec::new(alloc);
    for procedure in 0..g.procedures() {
        let link = Effect {
            reads: RegSet::new(),
            writes: RegSet::new().with(g.link(procedure)),
        };
        calls.push(link.then(&items_effect(g.body(procedure), &[])))?;
    }
    Ok(calls)
}

/// The effects of the blocks, and that of no code behind them.
pub(crate) fn block_effects(
    alloc: Global,
    g: &Graph,
    names: &[u32],
    calls: &[Effect],
) -> Result<Vec<Effect>, Memory>
    requires rules { IsGraph g.now.graph }
    requires names { names.now ≡ names_of g.now.graph }
    ensures effects { IfOk result (λ effects. AreBlocks calls.now g.now.graph.blocks effects.items) }
    ensures count { IfOk result (λ effects. length effects.items ≡ length names.now + 1) }
{
    let mut effects = Vec::with_capacity(alloc, names.len() + 1)?;
    for name in names {
        let items = items_effect(g.items(*name), calls);
        effects.push(items.then(&term_effect(g.term(*name))))?;
    }
    effects.push(Effect::none())?;
    Ok(effects)
}
