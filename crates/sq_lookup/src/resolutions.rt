//! What the names of all blocks resolve to, by one walk over the blocks.

ghost use Rattle.std.specs.Prelude.{◌≡◌, true, IsSome, IfOk, OnOk};
ghost use Rattle.std.specs.List.{All};
ghost use Rattle.sq_graph.specs.Blocks.{HasBlock};
ghost use Rattle.sq_graph.specs.Resolve.{is_on_cycle};
ghost use Rattle.sq_lookup.specs.Resolutions.{AreResolutions, AreClosed};
ghost use Rattle.sq_lookup.specs.Tables.{value_at};

use crate::lone_jumps::{is_on_cycle, jump_from, resolve};
use crate::table::{put, value};
use sq_graph::Graph;
use sq_live::block_names;
use sq_num::Memory;
use std::alloc::Global;
use std::marker::Model;

/// What names of blocks resolve to.
#[derive(Drop)]
pub struct Resolutions {
    found: Vec<Option<u32>>,
}

impl Model for Resolutions {
    ghost use Rattle.std.specs.Prelude.{ℕ, List, Option};

    ghost Value = { List (Option ℕ) };

    ghost view = { λ they. they.found.items };
}

impl Resolutions {
    ghost use Rattle.std.specs.Prelude.{◌≡◌};
    ghost use Rattle.sq_graph.specs.Graph.{Graph as Parts};
    ghost use Rattle.sq_graph.specs.Blocks.{HasBlock};
    ghost use Rattle.sq_graph.specs.Resolve.{resolved};
    ghost use Rattle.sq_lookup.specs.Resolutions.{AreResolutions};

    /// Those of no names.
    pub fn none(alloc: Global) -> Resolutions
        ensures { (g : Parts) → AreResolutions g result }
    {
        Resolutions {
            found: Vec::new(alloc),
        }
    }

    /// What a block's name resolves to, where these are names of the graph's blocks. One that isn't among them is looked for.
    pub fn get(&self, graph: &Graph, block: u32) -> u32
        requires are { AreResolutions graph.now.graph self.now }
        requires block { HasBlock graph.now.graph block }
        ensures { result ≡ resolved graph.now.graph block }
    {
        match value(&self.found, block) {
            Some(to) => to,
            None => resolve(graph, block),
        }
    }
}

/// Lone Jumps one behind the other, and where the last one leads.
#[derive(Drop)]
struct Path {
    jumps: Vec<u32>,
    last: u32,
}

/// Follows lone Jumps from a block up to the first that is found or is no lone Jump, or to one on a cycle of them. It takes as many
/// steps as there are, or on a cycle a few times as many.
fn follow(alloc: Global, graph: &Graph, found: &[Option<u32>], block: u32) -> Result<Path, Memory>
    requires { HasBlock graph.now.graph block }
    ensures jumps { IfOk result (λ path. All (HasBlock graph.now.graph) path.jumps.items) }
    ensures last { IfOk result (λ path. HasBlock graph.now.graph path.last) }
{
    graph.learn();
    let mut jumps = Vec::new(alloc);
    let mut last = block;
    // The block at which the hops last doubled: where the Jumps come to it again, they go round.
    let mut mark = block;
    for hop in 0..u32::MAX {
        if value(found, last).is_some() {
            return Ok(Path { jumps, last });
        }
        let Some(to) = jump_from(graph, last) else {
            return Ok(Path { jumps, last });
        };
        jumps.push(last)?;
        last = to;
        if last == mark {
            return Ok(Path { jumps, last });
        }
        if hop.is_power_of_two() {
            mark = last;
        }
    }
    Ok(Path { jumps, last })
}

/// Puts each block of a cycle of lone Jumps under itself.
fn note_cycle(graph: &Graph, found: &mut Vec<Option<u32>>, block: u32) -> Result<(), Memory>
    requires block { HasBlock graph.now.graph block }
    requires cycle { is_on_cycle graph.now.graph block ≡ true }
    requires are { AreResolutions graph.now.graph found.old.items }
    requires closed { AreClosed graph.now.graph found.old.items }
    ensures are { OnOk result (AreResolutions graph.now.graph found.new.items) }
    ensures closed { OnOk result (AreClosed graph.now.graph found.new.items) }
    ensures known { OnOk result (IsSome (value_at found.new.items block)) }
{
    graph.learn();
    let mut at = block;
    while value(found, at).is_none() {
        put(found, at, at)?;
        let Some(to) = jump_from(graph, at) else {
            unreachable!()
        };
        at = to;
    }
    Ok(())
}

/// Notes what a block resolves to that is no lone Jump or on a cycle of them. Another one is left.
fn note_last(graph: &Graph, found: &mut Vec<Option<u32>>, block: u32) -> Result<(), Memory>
    requires block { HasBlock graph.now.graph block }
    requires are { AreResolutions graph.now.graph found.old.items }
    requires closed { AreClosed graph.now.graph found.old.items }
    ensures are { OnOk result (AreResolutions graph.now.graph found.new.items) }
    ensures closed { OnOk result (AreClosed graph.now.graph found.new.items) }
{
    graph.learn();
    if value(found, block).is_some() {
        return Ok(());
    }
    if jump_from(graph, block).is_none() {
        return put(found, block, block);
    }
    if is_on_cycle(graph, block) {
        return note_cycle(graph, found, block);
    }
    Ok(())
}

/// Notes what a lone Jump resolves to, where it is found what its target does.
fn note_jump(graph: &Graph, found: &mut Vec<Option<u32>>, block: u32) -> Result<(), Memory>
    requires block { HasBlock graph.now.graph block }
    requires are { AreResolutions graph.now.graph found.old.items }
    requires closed { AreClosed graph.now.graph found.old.items }
    ensures are { OnOk result (AreResolutions graph.now.graph found.new.items) }
    ensures closed { OnOk result (AreClosed graph.now.graph found.new.items) }
{
    if value(found, block).is_some() {
        return Ok(());
    }
    let Some(next) = jump_from(graph, block) else {
        return Ok(());
    };
    match value(found, next) {
        Some(to) => put(found, block, to),
        None => Ok(()),
    }
}

/// Notes what a block's name resolves to, and those of the lone Jumps by which it does.
fn note(
    alloc: Global,
    graph: &Graph,
    found: &mut Vec<Option<u32>>,
    block: u32,
) -> Result<(), Memory>
    requires block { HasBlock graph.now.graph block }
    requires are { AreResolutions graph.now.graph found.old.items }
    requires closed { AreClosed graph.now.graph found.old.items }
    ensures are { OnOk result (AreResolutions graph.now.graph found.new.items) }
    ensures closed { OnOk result (AreClosed graph.now.graph found.new.items) }
{
    let Path { jumps, last } = follow(alloc, graph, found, block)?;
    note_last(graph, found, last)?;
    for back in 0..jumps.len() {
        note_jump(graph, found, jumps[jumps.len() - 1 - back])?;
    }
    Ok(())
}

/// What the names of a graph's blocks resolve to. It follows each lone Jump a few times.
pub fn resolve_all(alloc: Global, graph: &Graph) -> Result<Resolutions, Memory>
    ensures { IfOk result (AreResolutions graph.now.graph) }
{
    graph.learn();
    let names = block_names(alloc, graph)?;
    let mut found = Vec::new(alloc);
    for name in &names {
        note(alloc, graph, &mut found, *name)?;
    }
    Ok(Resolutions { found })
}
