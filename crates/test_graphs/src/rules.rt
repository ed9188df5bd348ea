//! The rules of a graph, looked at in its parts.

ghost use Rattle.std.specs.Prelude.{◌≡◌, ◌<◌, ◌^◌, IsTrue, length, map};
ghost use Rattle.std.specs.List.{All};
ghost use Rattle.std.specs.List.Sorted.{IsStrictlyIncreasing};
ghost use Rattle.sq_isa.specs.Ranges.{IsRegister};
ghost use Rattle.sq_graph.specs.Rules.{IsOperation, ProcedureFits};
ghost use Rattle.sq_graph.specs.Terms.{goes_on};
ghost use Rattle.sq_graph.specs.Parts.{length_of_blocks, length_of_bodies, procedures_of_parts};
ghost use Rattle.test_graphs.specs.Standing.{ItemIsRight, TermIsRight, IsFree, IsLastTerm, MakeGraph};

use crate::drafts::Draft;
use sq_graph::{BlockPart, CodeRef, Graph, Item, Parts, ProcedurePart, Term};
use sq_isa::{Insn, Reg, RegSet, fits, mentions};
use sq_num::Memory;
use std::alloc::Global;

/// Whether an instruction goes on to the next word whatever it does, and names no address.
fn is_operation(insn: &Insn) -> bool
    ensures { IsTrue result → IsOperation insn.now }
{
    match *insn {
        Insn::Auipc { .. }
        | Insn::Jal { .. }
        | Insn::Jalr { .. }
        | Insn::Branch { .. }
        | Insn::Ebreak
        | Insn::Unimp { .. } => false,
        Insn::Lui { .. }
        | Insn::Load { .. }
        | Insn::Store { .. }
        | Insn::OpImm { .. }
        | Insn::Op { .. }
        | Insn::Fence { .. }
        | Insn::Ecall
        | Insn::Atomic { .. } => true,
    }
}

/// A `Reg` is one of x0 to x31.
fn register_fits(register: Reg)
    ensures { IsRegister register }
{
    let _number = register.number();
}

fn item_is_right(item: &Item, blocks: u32, procedures: u32) -> bool
    ensures { IsTrue result → ItemIsRight blocks procedures item.now }
{
    match *item {
        Item::Op(insn) => is_operation(&insn) && fits(&insn),
        Item::Hi { rd, to } => {
            register_fits(rd);
            to < blocks
        }
        Item::Lo { rd, rs, to } => {
            register_fits(rd);
            register_fits(rs);
            to < blocks
        }
        Item::Out { procedure } => procedure < procedures,
    }
}

fn items_are_right(items: &[Item], blocks: u32, procedures: u32) -> bool
    ensures { IsTrue result → All (ItemIsRight blocks procedures) items.now }
{
    for item in items {
        if !item_is_right(item, blocks, procedures) {
            return false;
        }
    }
    true
}

fn term_is_right(term: Term, blocks: u32) -> bool
    ensures { IsTrue result → TermIsRight blocks term }
{
    match term {
        Term::Fall => true,
        Term::Jump { to } => to < blocks,
        Term::Branch { a, b, to, .. } => {
            register_fits(a);
            register_fits(b);
            to < blocks
        }
        Term::Call { link, to } => link.number() != 0 && to < blocks,
        Term::PartJump { link, part, to } => {
            register_fits(link);
            register_fits(part);
            to < blocks
        }
        Term::Indirect { link, at, offset } => {
            register_fits(link);
            register_fits(at);
            -2048 <= offset && offset < 2048
        }
        Term::Stop { word } => word == 0x0010_0073 || word == 0 || word == 0xc000_1073,
    }
}

fn terms_are_right(parts: &[BlockPart], blocks: u32) -> bool
    ensures { IsTrue result → All (λ part. TermIsRight blocks part.term) parts.now }
{
    for part in parts {
        if !term_is_right(part.term, blocks) {
            return false;
        }
    }
    true
}

/// Whether a term goes on to its next slot.
fn goes_on(term: Term) -> bool
    ensures { result ≡ goes_on term }
{
    match term {
        Term::Fall | Term::Branch { .. } | Term::Call { .. } => true,
        Term::Jump { .. } | Term::Stop { .. } => false,
        Term::PartJump { link, .. } | Term::Indirect { link, .. } => link.number() != 0,
    }
}

/// Whether the addresses of code words ascend.
fn ascend(words: &[CodeRef]) -> bool
    ensures { IsTrue result → IsStrictlyIncreasing (map (λ w. w.at) words.now) }
{
    for place in 1..words.len() {
        if words[place - 1].at >= words[place].at {
            return false;
        }
    }
    true
}

/// Whether code words name blocks that are there.
fn words_are_named(words: &[CodeRef], blocks: u32) -> bool
    ensures { IsTrue result → All (λ word. word.block < blocks) words.now }
{
    for word in words {
        if word.block >= blocks {
            return false;
        }
    }
    true
}

/// Whether an item calls no procedure and doesn't mention the register.
fn is_free(item: &Item, link: Reg) -> bool
    ensures { IsTrue result → IsFree link item.now }
{
    match *item {
        Item::Op(insn) => !mentions(&insn).has(link),
        Item::Hi { rd, .. } => !RegSet::new().with(rd).has(link),
        Item::Lo { rd, rs, .. } => !RegSet::new().with(rd).with(rs).has(link),
        Item::Out { .. } => false,
    }
}

/// Whether a procedure may have this link and this body.
pub fn body_fits(link: Reg, body: &[Item]) -> bool
    ensures { IsTrue result → ProcedureFits (record { link = link; body = body.now }) }
{
    if link.number() == 0 {
        return false;
    }
    for item in body {
        if !is_free(item, link) {
            return false;
        }
    }
    true
}

/// Whether the items are just those of the procedures, each of which may have its body.
fn bodies_fit(procedures: &[ProcedurePart], items: &[Item]) -> bool
    ensures length { IsTrue result → length_of_bodies procedures.now ≡ length items.now }
    ensures fit { IsTrue result → All ProcedureFits (procedures_of_parts procedures.now items.now) }
{
    let Some((first, rest)) = procedures.split_first() else {
        return items.is_empty();
    };
    if items.len() < first.length as usize {
        return false;
    }
    let (body, others) = items.split_at(first.length as usize);
    body_fits(first.link, body) && bodies_fit(rest, others)
}

/// How many items the blocks have.
fn items_of(blocks: &[BlockPart]) -> u64
    requires { length blocks.now < 2 ^ 29 }
    ensures { result ≡ length_of_blocks blocks.now }
{
    blocks.iter().map(|part| u64::from(part.length)).sum()
}

/// Whether parts that have a last block meet the rules of a graph.
fn are_right(parts: &Parts<'_>, last: Term) -> bool
    requires { IsLastTerm last parts.now.blocks.now }
    ensures { IsTrue result → MakeGraph parts.now.blocks.now parts.now.items.now parts.now.entry parts.now.code_words.now parts.now.procedures.now }
{
    const MOST: usize = 1 << 29;
    if parts.blocks.len() >= MOST || parts.items.len() >= MOST || parts.procedures.len() >= MOST {
        return false;
    }
    let (blocks, procedures) = (parts.blocks.len() as u32, parts.procedures.len() as u32);
    let own = items_of(parts.blocks);
    if own > parts.items.len() as u64 || parts.entry >= blocks || goes_on(last) {
        return false;
    }
    if !terms_are_right(parts.blocks, blocks) {
        return false;
    }
    if !items_are_right(parts.items, blocks, procedures) {
        return false;
    }
    if !ascend(parts.code_words) {
        return false;
    }
    if !words_are_named(parts.code_words, blocks) {
        return false;
    }
    bodies_fit(parts.procedures, &parts.items[own as usize..])
}

/// The graph of parts, or None where they don't meet the rules of a graph.
fn made(alloc: Global, parts: &Parts<'_>) -> Result<Option<Graph>, Memory> {
    let Some(last) = parts.blocks.last() else {
        return Ok(None);
    };
    if !are_right(parts, last.term) {
        return Ok(None);
    }
    let graph = Graph::from_parts(alloc, parts)?;
    Ok(Some(graph))
}

/// The graph of a draft, or None where its parts don't meet the rules of a graph.
pub fn made_of(alloc: Global, draft: &Draft) -> Result<Option<Graph>, Memory> {
    let parts = Parts {
        blocks: &draft.blocks,
        items: &draft.items,
        entry: draft.entry,
        code_words: &draft.code_words,
        procedures: &draft.procedures,
    };
    made(alloc, &parts)
}
