//! The changes of a graph, each made where its conditions hold. Else they answer None.

ghost use Rattle.std.specs.Prelude.{◌≡◌, ◌≢◌, Some, IsTrue, IsSome, IfSome};
ghost use Rattle.std.specs.List.{All};
ghost use Rattle.sq_graph.specs.Blocks.{HasBlock};
ghost use Rattle.sq_graph.specs.Uses.{uses, calls};
ghost use Rattle.sq_graph.specs.Operations.{called_at};

use crate::rules::body_fits;
use crate::texts::memory;
use anyhow::Error;
use sq_graph::{Graph, Item, Room, Term};
use sq_isa::{Insn, Reg};
use sq_layout::words_of;

/// Whether the graph has a block of this name.
pub fn is_block(graph: &Graph, name: u32) -> bool
    ensures { IsTrue result → HasBlock graph.now.graph name }
{
    graph.links().get(name).is_some()
}

/// Splits a block behind so many items, and answers the name of the second.
fn split(graph: &mut Graph, block: u32, at: u32) -> Option<u32> {
    if !is_block(graph, block) {
        return None;
    }
    if graph.items(block).len() < at as usize || graph.spare().blocks == 0 {
        return None;
    }
    Some(graph.split(block, at))
}

/// Gives a block a Jump for its term.
fn set_jump(graph: &mut Graph, block: u32, to: u32) -> Option<()> {
    if !is_block(graph, block) {
        return None;
    }
    if !is_block(graph, to) {
        return None;
    }
    graph.learn();
    graph.set_term(block, Term::Jump { to });
    Some(())
}

/// Has a word of data name a block.
fn set_word(graph: &mut Graph, at: u32, block: u32) -> Option<()> {
    if graph.code_words().len() <= at as usize {
        return None;
    }
    if !is_block(graph, block) {
        return None;
    }
    graph.set_word(at, block);
    Some(())
}

/// Has the program start at a block.
fn set_entry(graph: &mut Graph, block: u32) -> Option<()> {
    if !is_block(graph, block) {
        return None;
    }
    graph.set_entry(block);
    Some(())
}

/// Puts a lone Jump behind a block.
fn insert_jump(graph: &mut Graph, block: u32, to: u32) -> Option<()> {
    if graph.spare().blocks == 0 {
        return None;
    }
    if !is_block(graph, block) {
        return None;
    }
    if !is_block(graph, to) {
        return None;
    }
    graph.learn();
    graph.insert_after(block, Term::Jump { to });
    Some(())
}

/// Makes each use of a name one of another.
fn redirect(graph: &mut Graph, from: u32, to: u32) -> Option<()>
    ensures { IsSome result → All (λ n. n ≢ from) (uses graph.new.graph) }
{
    if from == to {
        return None;
    }
    if !is_block(graph, to) {
        return None;
    }
    graph.learn();
    graph.redirect(from, to);
    Some(())
}

/// Takes out a block whose uses become those of another.
fn remove(graph: &mut Graph, block: u32, to: u32) -> Option<()> {
    redirect(graph, block, to)?;
    if !is_block(graph, block) {
        return None;
    }
    let _next = graph.next(block)?;
    graph.learn();
    graph.remove(block);
    Some(())
}

/// Moves a block behind the next one, which isn't last.
fn move_on(graph: &mut Graph, block: u32) -> Option<()> {
    if !is_block(graph, block) {
        return None;
    }
    let after = graph.next(block)?;
    if !is_block(graph, after) {
        return None;
    }
    let _last = graph.next(after)?;
    graph.learn();
    graph.move_after(block, block, after);
    Some(())
}

/// Has an item be the upper half of a block's address.
fn set_hi(graph: &mut Graph, block: u32, at: u32, to: u32) -> Option<()> {
    if !is_block(graph, block) {
        return None;
    }
    if graph.items(block).len() <= at as usize {
        return None;
    }
    if !is_block(graph, to) {
        return None;
    }
    graph.learn();
    graph.set_item(block, at, Item::Hi { rd: Reg::A2, to });
    Some(())
}

/// The same of an item of a procedure, whose link the item doesn't mention.
fn set_body_hi(graph: &mut Graph, procedure: u32, at: u32, to: u32) -> Option<()> {
    if graph.procedures() <= procedure {
        return None;
    }
    if graph.body(procedure).len() <= at as usize {
        return None;
    }
    if !is_block(graph, to) {
        return None;
    }
    let link = graph.link(procedure);
    let item = [Item::Hi { rd: Reg::A2, to }];
    if !body_fits(link, &item) {
        return None;
    }
    graph.learn();
    graph.set_body_item(procedure, at, Item::Hi { rd: Reg::A2, to });
    Some(())
}

/// Puts an ECALL and a call of a procedure in the place of an item.
fn put_call(graph: &mut Graph, block: u32, at: u32, procedure: u32) -> Option<()> {
    if !is_block(graph, block) {
        return None;
    }
    if graph.items(block).len() <= at as usize || graph.spare().items == 0 {
        return None;
    }
    if graph.procedures() <= procedure {
        return None;
    }
    graph.learn();
    let items = [Item::Op(Insn::Ecall), Item::Out { procedure }];
    graph.replace(block, at, 1, &items);
    Some(())
}

/// The procedure that an item of a block calls.
fn called(graph: &Graph, block: u32, at: u32) -> Option<u32>
    ensures block { IsSome result → HasBlock graph.now.graph block }
    ensures value { IfSome result (λ procedure. called_at graph.now.graph block at ≡ Some procedure) }
{
    if !is_block(graph, block) {
        return None;
    }
    match graph.items(block).get(at as usize)? {
        Item::Out { procedure } => Some(*procedure),
        _ => None,
    }
}

/// Puts the body of the procedure that an item calls in its place.
fn inline(graph: &mut Graph, block: u32, at: u32) -> Option<()> {
    let procedure = called(graph, block, at)?;
    if procedure >= graph.procedures() {
        return None;
    }
    if (graph.spare().items as usize) < graph.body(procedure).len() {
        return None;
    }
    graph.learn();
    graph.inline(block, at);
    Some(())
}

/// Makes a procedure of items that may be its body.
fn outline(graph: &mut Graph, block: u32, at: u32, count: u32, link: u32) -> Option<()> {
    if !is_block(graph, block) {
        return None;
    }
    let room = graph.spare();
    if count == 0 || room.items < count || room.procedures == 0 {
        return None;
    }
    let link = Reg::new(link)?;
    let items = graph.items(block);
    if items.len() < at as usize || items.len() - (at as usize) < count as usize {
        return None;
    }
    if !body_fits(link, &items[at as usize..at as usize + count as usize]) {
        return None;
    }
    graph.learn();
    graph.outline(block, at, count, link);
    Some(())
}

/// Makes each call of a procedure one of another.
fn redirect_calls(graph: &mut Graph, from: u32, to: u32) -> Option<()>
    ensures { IsSome result → All (λ n. n ≢ from) (calls graph.new.graph) }
{
    if from == to || graph.procedures() <= to {
        return None;
    }
    graph.learn();
    graph.redirect_calls(from, to);
    Some(())
}

/// Takes out a procedure whose calls become those of another.
fn remove_procedure(graph: &mut Graph, procedure: u32, to: u32) -> Option<()> {
    redirect_calls(graph, procedure, to)?;
    if graph.procedures() <= procedure {
        return None;
    }
    graph.learn();
    graph.remove_procedure(procedure);
    Some(())
}

/// Makes room, in a graph of less than a million words.
pub fn reserve(graph: &mut Graph, room: Room) -> Result<(), Error> {
    const MOST: u32 = 1_000_000;
    if graph.links().len() >= MOST || words_of(graph) >= MOST {
        return Err(Error::msg("a graph of fewer words is wanted"));
    }
    if room.blocks >= MOST || room.items >= MOST || room.procedures >= MOST {
        return Err(Error::msg("less room is wanted"));
    }
    graph.reserve(room).map_err(memory)
}

/// Splits the first block behind each of so many items, every second time with an empty block between.
fn split_often(graph: &mut Graph, times: u32) -> Option<()> {
    let mut block = graph.first();
    for step in 0..times {
        block = split(graph, block, 1)?;
        if step % 2 == 0 {
            block = split(graph, block, 0)?;
        }
    }
    Some(())
}

/// Makes the change of a verb, behind which stand positions of blocks, places in them and among the words of data, numbers
/// of procedures and of registers. `names` are those of the blocks.
pub fn change(graph: &mut Graph, names: &[u32], verb: &str, operands: &[u32]) -> Option<()> {
    let name = |position: u32| names.get(position as usize).copied().unwrap_or(u32::MAX);
    match (verb, operands) {
        ("canonical", &[]) => {
            graph.canonical();
            Some(())
        }
        ("loosen", &[]) => graph.loosen().ok(),
        ("move", &[block]) => move_on(graph, name(block)),
        ("split", &[block, at]) => split(graph, name(block), at).map(|_| ()),
        ("split_often", &[times]) => split_often(graph, times),
        ("jump", &[block, to]) => set_jump(graph, name(block), name(to)),
        ("set_word", &[at, block]) => set_word(graph, at, name(block)),
        ("set_entry", &[block]) => set_entry(graph, name(block)),
        ("set_hi", &[block, at, to]) => set_hi(graph, name(block), at, name(to)),
        ("set_body_hi", &[procedure, at, to]) => set_body_hi(graph, procedure, at, name(to)),
        ("insert", &[block, to]) => insert_jump(graph, name(block), name(to)),
        ("redirect", &[from, to]) => redirect(graph, name(from), name(to)),
        ("remove", &[block, to]) => remove(graph, name(block), name(to)),
        ("call", &[block, at, procedure]) => put_call(graph, name(block), at, procedure),
        ("inline", &[block, at]) => inline(graph, name(block), at),
        ("outline", &[block, at, count, link]) => outline(graph, name(block), at, count, link),
        ("calls", &[from, to]) => redirect_calls(graph, from, to),
        ("drop", &[procedure, to]) => remove_procedure(graph, procedure, to),
        _ => None,
    }
}
