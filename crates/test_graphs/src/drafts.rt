//! Graphs that are read from texts.

use crate::rules::made_of;
use crate::terms::{item_of, register_of, term_of};
use crate::texts::memory;
use anyhow::{Context, Error};
use sq_cases::{Step, decimal, hexadecimal};
use sq_graph::{BlockPart, CodeRef, Graph, Item, ProcedurePart};
use std::alloc::Global;

/// The parts of a graph, of which each was read. A block is called by its position.
#[derive(Drop)]
pub struct Draft {
    pub blocks: Vec<BlockPart>,
    pub items: Vec<Item>,
    pub entry: u32,
    pub code_words: Vec<CodeRef>,
    pub procedures: Vec<ProcedurePart>,
    /// The items of the procedures.
    pub bodies: Vec<Item>,
}

/// Whether a step is a part of a graph.
pub fn is_part(step: &Step<'_>) -> bool {
    matches!(step.verb, "entry" | "block" | "word" | "procedure")
}

/// The parts with which the steps begin.
pub fn parts_ahead<'s, 't>(steps: &'s [Step<'t>]) -> &'s [Step<'t>] {
    match steps.iter().position(|step| !is_part(step)) {
        Some(end) => &steps[..end],
        None => steps,
    }
}

/// Appends the item of a text; `N * ITEM` stands for N of them.
fn push_copies(alloc: Global, words: &str, items: &mut Vec<Item>, text: &str) -> Result<(), Error> {
    let (times, text) = text.split_once(" * ").unwrap_or(("1", text));
    let item = item_of(alloc, words, text)?;
    let copies = vec![in alloc; item; decimal(times)? as usize]?;
    items.extend_from_slice(&copies)?;
    Ok(())
}

/// Appends items that are apart by ` ; `, and says how many.
fn push_items(alloc: Global, words: &str, items: &mut Vec<Item>, text: &str) -> Result<u32, Error> {
    let before = items.len();
    for part in text.split(" ; ") {
        let part = part.trim();
        if !part.is_empty() {
            push_copies(alloc, words, items, part)?;
        }
    }
    u32::try_from(items.len().wrapping_sub(before)).context("too many items")
}

impl Draft {
    fn new(alloc: Global) -> Draft {
        Draft {
            blocks: Vec::new(alloc),
            items: Vec::new(alloc),
            entry: 0,
            code_words: Vec::new(alloc),
            procedures: Vec::new(alloc),
            bodies: Vec::new(alloc),
        }
    }

    /// Takes in a block, `ITEMS => TERM`; with `N * TERM`, and N - 1 behind it that have this term alone.
    fn push_blocks(&mut self, alloc: Global, words: &str, text: &str) -> Result<(), Error> {
        let (items, terms) = text.split_once("=> ").context("no term")?;
        let (times, term) = terms.split_once(" * ").unwrap_or(("1", terms));
        let length = push_items(alloc, words, &mut self.items, items)?;
        let term = term_of(alloc, term)?;
        self.blocks.push(BlockPart { length, term })?;
        let behind = decimal(times)?.saturating_sub(1) as usize;
        let copies = vec![in alloc; BlockPart { length: 0, term }; behind]?;
        self.blocks.extend_from_slice(&copies)?;
        Ok(())
    }

    /// Takes in a part: `entry BLOCK`, `block ITEMS => TERM`, `word ADDRESS BLOCK` or `procedure LINK ; ITEMS`.
    fn push(&mut self, alloc: Global, words: &str, part: &Step<'_>) -> Result<(), Error> {
        match part.verb {
            "entry" => self.entry = decimal(part.words)?,
            "block" => self.push_blocks(alloc, words, part.words)?,
            "word" => {
                let (at, block) = part.words.split_once(" ").context("no block")?;
                let at = hexadecimal(at)?;
                let block = decimal(block)?;
                self.code_words.push(CodeRef { at, block })?;
            }
            _ => {
                let (link, items) = part.words.split_once(" ; ").unwrap_or((part.words, ""));
                let length = push_items(alloc, words, &mut self.bodies, items)?;
                let link = register_of(link)?;
                self.procedures.push(ProcedurePart { link, length })?;
            }
        }
        Ok(())
    }
}

/// The graph of these parts, where they meet the rules of a graph.
pub fn graph_of(alloc: Global, words: &str, parts: &[Step<'_>]) -> Result<Graph, Error> {
    let mut draft = Draft::new(alloc);
    for part in parts {
        draft.push(alloc, words, part)?;
    }
    draft.items.extend_from_slice(&draft.bodies)?;
    made_of(alloc, &draft)
        .map_err(memory)?
        .context("the rules of a graph don't hold")
}
