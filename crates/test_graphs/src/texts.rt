//! Graphs as texts.

use crate::changes::is_block;
use crate::terms::{cond_name, register_name};
use anyhow::Error;
use sq_cases::CaseError;
use sq_encode::encode;
use sq_graph::{Graph, Item, Term};
use sq_isa::{Insn, fits};
use sq_live::block_names;
use sq_num::Memory;
use std::alloc::Global;

/// Want of memory, as an error of a case.
pub fn memory(_error: Memory) -> Error {
    Error::from(CaseError::Memory)
}

/// The names of the blocks, by their positions.
pub fn names_of(alloc: Global, graph: &Graph) -> Result<Vec<u32>, Memory> {
    graph.learn();
    block_names(alloc, graph)
}

/// The position of a name, of those that there are.
pub fn position(names: &[u32], name: u32) -> u32 {
    for (position, found) in (0..u32::MAX).zip(names) {
        if *found == name {
            return position;
        }
    }
    u32::MAX
}

/// An instruction by its text in the table `words`; where that has none, its word in hexadecimal digits.
pub fn insn_text(alloc: Global, words: &str, insn: &Insn) -> Result<String, Memory> {
    if !fits(insn) {
        return Ok(String::from_str(alloc, "unfit")?);
    }
    let wanted = format!(in alloc; "{:x}", encode(insn))?;
    for line in words.lines() {
        match line.split_once(" | ") {
            Some((word, text)) if word == wanted.as_str() => {
                return Ok(String::from_str(alloc, text)?);
            }
            _ => {}
        }
    }
    Ok(wanted)
}

/// A graph that is shown: the table of instruction words, and the names of its blocks.
#[derive(Clone, Copy)]
struct Names<'n> {
    words: &'n str,
    blocks: &'n [u32],
}

/// An item with a position for a name.
fn item_text(alloc: Global, names: Names<'_>, item: &Item) -> Result<String, Memory> {
    Ok(match *item {
        Item::Op(insn) => insn_text(alloc, names.words, &insn)?,
        Item::Hi { rd, to } => {
            let to = position(names.blocks, to);
            format!(in alloc; "hi {} {to}", register_name(rd))?
        }
        Item::Lo { rd, rs, to } => {
            let to = position(names.blocks, to);
            format!(in alloc; "lo {} {} {to}", register_name(rd), register_name(rs))?
        }
        Item::Out { procedure } => format!(in alloc; "out {procedure}")?,
    })
}

/// A term with a position for a name.
fn term_text(alloc: Global, names: Names<'_>, term: Term) -> Result<String, Memory> {
    Ok(match term {
        Term::Fall => String::from_str(alloc, "fall")?,
        Term::Jump { to } => format!(in alloc; "jump {}", position(names.blocks, to))?,
        Term::Branch { cond, a, b, to } => {
            let (cond, a, b) = (cond_name(cond), register_name(a), register_name(b));
            format!(in alloc; "branch {cond} {a} {b} {}", position(names.blocks, to))?
        }
        Term::Call { link, to } => {
            let link = register_name(link);
            format!(in alloc; "call {link} {}", position(names.blocks, to))?
        }
        Term::PartJump { link, part, to } => {
            let (link, part) = (register_name(link), register_name(part));
            format!(in alloc; "part-jump {link} {part} {}", position(names.blocks, to))?
        }
        Term::Indirect { link, at, offset } => {
            let (link, at) = (register_name(link), register_name(at));
            format!(in alloc; "indirect {link} {at} {offset}")?
        }
        Term::Stop { word } => format!(in alloc; "stop {word:x}")?,
    })
}

/// Items, apart by ` ; `.
fn items_text(alloc: Global, names: Names<'_>, items: &[Item]) -> Result<String, Memory> {
    let mut text = String::new(alloc);
    for item in items {
        if !text.is_empty() {
            text.push_str(" ; ")?;
        }
        text.push_str(&item_text(alloc, names, item)?)?;
    }
    Ok(text)
}

/// The text of a graph, by which it is given too.
pub fn graph_text(alloc: Global, words: &str, graph: &Graph) -> Result<String, Memory> {
    let blocks = names_of(alloc, graph)?;
    let names = Names {
        words,
        blocks: &blocks,
    };
    let mut text = format!(in alloc; "entry {}\n", position(&blocks, graph.entry()))?;
    for name in &blocks {
        if is_block(graph, *name) {
            let items = items_text(alloc, names, graph.items(*name))?;
            let gap = if items.is_empty() { "" } else { " " };
            let term = term_text(alloc, names, graph.term(*name))?;
            text.push_str(&format!(in alloc; "block {items}{gap}=> {term}\n")?)?;
        }
    }
    for word in graph.code_words() {
        let block = position(&blocks, word.block);
        text.push_str(&format!(in alloc; "word {:x} {block}\n", word.at)?)?;
    }
    for number in 0..graph.procedures() {
        let items = items_text(alloc, names, graph.body(number))?;
        let gap = if items.is_empty() { "" } else { " ; " };
        let link = register_name(graph.link(number));
        text.push_str(&format!(in alloc; "procedure {link}{gap}{items}\n")?)?;
    }
    Ok(text)
}
