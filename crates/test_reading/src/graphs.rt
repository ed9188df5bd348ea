//! Graphs as texts, in which a block is called by its position.

ghost use Rattle.std.specs.Prelude.{IsTrue};
ghost use Rattle.sq_graph.specs.Blocks.{HasBlock};

use crate::texts::{instruction, mnemonic, name};
use crate::words::sure;
use anyhow::Result;
use sq_elf::read_elf;
use sq_graph::{Graph, Item, Term};
use sq_layout::place;
use sq_lifted::lift;
use sq_live::block_names;
use sq_num::Denied;
use sq_reloc::read_relocs;
use sq_write::write_elf;
use std::alloc::Global;

/// The graph of a file.
fn graph_of(alloc: Global, file: &[u8]) -> Result<Graph, Denied> {
    let elf = read_elf(alloc, file)?;
    let relocs = read_relocs(alloc, &elf)?;
    lift(alloc, &elf, &relocs)
}

/// The file of the graph of a file, where nothing is rewritten.
pub fn written(alloc: Global, file: &[u8]) -> Result<Vec<u8>, Denied> {
    let elf = read_elf(alloc, file)?;
    let relocs = read_relocs(alloc, &elf)?;
    let graph = lift(alloc, &elf, &relocs)?;
    let places = place(alloc, &graph, elf.text().lo)?;
    Ok(write_elf(alloc, &elf, &graph, &places)?)
}

/// Whether the graph has a block of this name.
fn is_block(graph: &Graph, name: u32) -> bool
    ensures { IsTrue result → HasBlock graph.now.graph name }
{
    graph.links().get(name).is_some()
}

/// The position of a name among those that there are.
fn position(names: &[u32], name: u32) -> usize {
    names
        .iter()
        .position(|found| *found == name)
        .unwrap_or(usize::MAX)
}

/// The texts of items, apart by ` ; `.
fn items_text(alloc: Global, names: &[u32], items: &[Item]) -> Result<String> {
    let mut text = String::new(alloc);
    for item in items {
        let item = match *item {
            Item::Op(insn) => instruction(alloc, &insn)?,
            Item::Hi { rd, to } => format!(in alloc; "hi {},{}", name(rd), position(names, to))?,
            Item::Lo { rd, rs, to } => {
                format!(in alloc; "lo {},{},{}", name(rd), name(rs), position(names, to))?
            }
            Item::Out { procedure } => format!(in alloc; "out {procedure}")?,
        };
        text.push_str(if text.is_empty() { "" } else { " ; " })?;
        text.push_str(&item)?;
    }
    Ok(text)
}

/// The text of a term.
fn term_text(alloc: Global, names: &[u32], term: Term) -> Result<String> {
    Ok(match term {
        Term::Fall => format!(in alloc; "fall")?,
        Term::Jump { to } => format!(in alloc; "jump {}", position(names, to))?,
        Term::Branch { cond, a, b, to } => {
            let cond = mnemonic(alloc, &cond)?;
            format!(in alloc;
                "branch {cond} {},{},{}",
                name(a),
                name(b),
                position(names, to)
            )?
        }
        Term::Call { link, to } => {
            format!(in alloc; "call {},{}", name(link), position(names, to))?
        }
        Term::PartJump { link, part, to } => {
            format!(in alloc;
                "part {},{},{}",
                name(link),
                name(part),
                position(names, to)
            )?
        }
        Term::Indirect { link, at, offset } => {
            format!(in alloc; "indirect {},{offset}({})", name(link), name(at))?
        }
        Term::Stop { word } => format!(in alloc; "stop {word:x}")?,
    })
}

/// The text of the graph of a file: a line each for the entry, the words of data that hold the address of a block, the
/// blocks in layout order, and the procedures.
pub fn graph_text(alloc: Global, file: &[u8]) -> Result<String> {
    let graph = sure(graph_of(alloc, file))?;
    let Ok(names) = block_names(alloc, &graph) else {
        return sure(Err(Denied::Memory));
    };
    let names = names.as_slice();
    let mut text = format!(in alloc; "entry {}\n", position(names, graph.entry()))?;
    for word in graph.code_words() {
        let block = position(names, word.block);
        text.push_str(&format!(in alloc; "word {:x} {block}\n", word.at)?)?;
    }
    for name in names {
        if is_block(&graph, *name) {
            let items = items_text(alloc, names, graph.items(*name))?;
            let term = term_text(alloc, names, graph.term(*name))?;
            let gap = if items.is_empty() { "" } else { " " };
            text.push_str(&format!(in alloc; "block {items}{gap}=> {term}\n")?)?;
        }
    }
    for number in 0..graph.procedures() {
        let items = items_text(alloc, names, graph.body(number))?;
        text.push_str(&format!(in alloc; "procedure {} ; {items}\n", name(graph.link(number)))?)?;
    }
    Ok(text)
}
