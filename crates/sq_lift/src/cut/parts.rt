//! The parts of a program's graph.

ghost use Rattle.std.specs.Prelude.{◌≡◌, ◌<◌, ◌^◌, length, map, IfOk};
ghost use Rattle.std.specs.List.{AllByRecursion};
ghost use Rattle.sq_graph.specs.Parts.{LengthsFit, graph_of_parts};
ghost use Rattle.sq_graph.specs.Renames.{retargeted_words};
ghost use Rattle.sq_graph.specs.Slotted.{slotted};
ghost use Rattle.law_program.specs.Lifted.{code_ref, lifted};
ghost use Rattle.sq_lift.specs.Flags.{is_flagged};
ghost use Rattle.sq_lift.specs.Cuts.{position_by};

use crate::cut::bodies::push_bodies;
use crate::cut::cuts::cut_words;
use crate::cut::frame::frame_of;
use crate::cut::names::{Kinds, Positions};
use crate::cut::procedures::procedures_of;
use crate::{Note, Text, WordSet};
use sq_graph::{BlockPart, CodeRef, Item, Parts, ProcedurePart};
use sq_num::Memory;
use sq_reloc::CodeWord;
use std::alloc::Global;

/// The parts of a graph, in which a block's name is its position.
#[derive(Drop)]
pub struct GraphParts {
    pub blocks: Vec<BlockPart>,
    pub items: Vec<Item>,
    pub entry: u32,
    pub code_words: Vec<CodeRef>,
    pub procedures: Vec<ProcedurePart>,
}

impl GraphParts {
    ghost use Rattle.std.specs.Prelude.{◌≡◌};

    /// The parts, lent.
    pub fn parts(&self) -> Parts<'_>
        ensures blocks { result.blocks.now ≡ self.now.blocks.items }
        ensures items { result.items.now ≡ self.now.items.items }
        ensures entry { result.entry ≡ self.now.entry }
        ensures code_words { result.code_words.now ≡ self.now.code_words.items }
        ensures procedures { result.procedures.now ≡ self.now.procedures.items }
    {
        Parts {
            blocks: &self.blocks,
            items: &self.items,
            entry: self.entry,
            code_words: &self.code_words,
            procedures: &self.procedures,
        }
    }
}

/// The code words with positions for addresses.
fn code_refs(
    alloc: Global,
    words: &[CodeWord],
    positions: &Positions,
) -> Result<Vec<CodeRef>, Memory>
    ensures { IfOk result (λ refs. refs.items ≡ retargeted_words (position_by positions.now) (map code_ref words.now)) }
{
    let mut refs = Vec::new(alloc);
    for word in words {
        refs.push(CodeRef {
            at: word.at,
            block: positions.of(word.to),
        })?;
    }
    Ok(refs)
}

/// The parts of the graph that is read off a program, whose blocks' names are their positions.
pub fn parts_of(
    alloc: Global,
    text: &Text,
    reached: &WordSet,
    entry: u32,
    code_words: &[CodeWord],
    notes: &[Note],
) -> Result<GraphParts, Memory>
    requires count { length notes.now < 2 ^ 32 }
    requires links { AllByRecursion (λ note. note.link < 32) notes.now }
    ensures graph { IfOk result (λ made. graph_of_parts made.blocks.items made.items.items made.entry made.code_words.items made.procedures.items ≡ slotted (lifted (is_flagged reached.now) (record { text = text.now; entry = entry; code_words = code_words.now; notes = notes.now }))) }
    ensures lengths { IfOk result (λ made. LengthsFit made.blocks.items made.items.items made.procedures.items) }
{
    let procedures = procedures_of(alloc, reached, notes)?;
    let frame = frame_of(alloc, text, reached, &procedures, entry, code_words)?;
    let kinds = Kinds {
        reached,
        inside: &frame.inside,
        leaders: &frame.leaders,
    };
    let positions = Positions::new(alloc, &frame.starts)?;
    let (mut items, blocks) = cut_words(alloc, text, &kinds, &procedures, &positions)?;
    let procedures = push_bodies(alloc, &mut items, text, &procedures, &positions)?;
    Ok(GraphParts {
        blocks,
        items,
        entry: positions.of(entry),
        code_words: code_refs(alloc, code_words, &positions)?,
        procedures,
    })
}
