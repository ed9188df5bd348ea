//! A graph made of its parts.

ghost use Rattle.std.specs.Prelude.{◌≡◌, ◌<◌, ◌^◌, IfOk};
ghost use Rattle.sq_graph.specs.Rules.{IsGraph};
ghost use Rattle.sq_graph.specs.Room.{IsSmall, count_of, no_room};
ghost use Rattle.sq_graph.specs.Parts.{LengthsFit, length_of_blocks, length_of_bodies, graph_of_parts};
ghost use Rattle.sq_graph.specs.PartSlots.{part_slots, part_bodies};

use crate::graph::Graph;
use crate::loose::Loose;
use crate::parts::{BlockPart, Parts, ProcedurePart};
use crate::slot::{Body, Slot};
use crate::vectors;
use sq_arena::Arena;
use sq_num::Memory;
use std::alloc::{AllocError, Global};

impl Graph {
    /// The graph of these parts, in which a block's name is its position.
    pub fn from_parts(alloc: Global, parts: &Parts<'_>) -> Result<Graph, Memory>
        requires lengths { LengthsFit parts.now.blocks.now parts.now.items.now parts.now.procedures.now }
        requires rules { IsGraph (graph_of_parts parts.now.blocks.now parts.now.items.now parts.now.entry parts.now.code_words.now parts.now.procedures.now) }
        requires small { IsSmall (count_of (graph_of_parts parts.now.blocks.now parts.now.items.now parts.now.entry parts.now.code_words.now parts.now.procedures.now)) }
        ensures graph { IfOk result (λ made. made.graph ≡ graph_of_parts parts.now.blocks.now parts.now.items.now parts.now.entry parts.now.code_words.now parts.now.procedures.now) }
        ensures spare { IfOk result (λ made. made.spare ≡ no_room) }
    {
        let (blocks, blocks_end) = slots_of(alloc, parts.blocks)?;
        let Ok(slots) = Arena::from_values(alloc, &blocks) else {
            return Err(Memory);
        };
        let items = vectors::copy(alloc, parts.items, 0)?;
        let code_words = vectors::copy(alloc, parts.code_words, 0)?;
        let bodies = bodies(alloc, parts.procedures)?;
        let item_room = items.len() as u32;
        let body_room = bodies.len() as u32;
        Ok(Graph {
            slots,
            items,
            blocks_end,
            gaps: 0,
            loose: Loose::in_order(alloc),
            entry: parts.entry,
            code_words,
            bodies,
            item_room,
            body_room,
        })
    }
}

// The slots of the blocks, and how many items they have.
fn slots_of(alloc: Global, blocks: &[BlockPart]) -> Result<(Vec<Slot>, u32), AllocError>
    requires { length_of_blocks blocks.now < 2 ^ 32 }
    ensures slots { IfOk result (λ made. made.0.items ≡ part_slots 0 blocks.now) }
    ensures length { IfOk result (λ made. made.1 ≡ length_of_blocks blocks.now) }
{
    let mut slots = Vec::new(alloc);
    let mut start = 0;
    for part in blocks {
        slots.push(Slot {
            start,
            length: part.length,
            term: part.term,
        })?;
        start += part.length;
    }
    Ok((slots, start))
}

// The procedures, with where their bodies start.
fn bodies(alloc: Global, procedures: &[ProcedurePart]) -> Result<Vec<Body>, AllocError>
    requires { length_of_bodies procedures.now < 2 ^ 32 }
    ensures { IfOk result (λ v. v.items ≡ part_bodies 0 procedures.now) }
{
    let mut bodies = Vec::new(alloc);
    let mut start = 0;
    for part in procedures {
        bodies.push(Body {
            link: part.link,
            start,
            length: part.length,
        })?;
        start += part.length;
    }
    Ok(bodies)
}
