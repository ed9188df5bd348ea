//! Row O4: the body of a procedure takes the place of its calls, and the procedure goes.
//!
//!     before   a: jal x5,p              after   a: add a0,a0,a1
//!              p: add a0,a0,a1; jr x5

mod blocked;
mod fitting;
mod sweep;
mod waiting;

ghost use Rattle.std.specs.Prelude.{◌≡◌, ◌↔◌, ℕ, ◌+◌, ◌*◌, ◌≤◌, ◌<◌, ◌^◌, IsTrue, length, None, Ok, IfOk, IfSome, OnOk};
ghost use Rattle.std.specs.List.{count_by, list_any};
ghost use Rattle.sq_graph.specs.Blocks.{HasBlock, HasProcedure, items_of, body_of};
ghost use Rattle.sq_graph.specs.Places.{block_address, IsInReach};
ghost use Rattle.sq_graph.specs.Room.{KeepsTotal};
ghost use Rattle.sq_lookup.specs.Tables.{number_at};
ghost use Rattle.sq_pass.specs.declared.cut.Cut.{Cut as Told};
ghost use Rattle.sq_pass.specs.declared.cut.Row.TheVariants.{O4 as InPlace};
ghost use Rattle.sq_pass.specs.Applied.{IsApplied};
ghost use Rattle.sq_pass.specs.Cuts.{IsCompleted};
ghost use Rattle.sq_outline.specs.Inlined.{is_call, call_count, spread_all, inlined_all, WouldSave, IsInlinable, inline_cut, IsInlined};
ghost use Rattle.sq_outline.specs.InlineSteps.{inlined_if, spread_at, HasRoom, inline_room, counted};

use blocked::{Places, blocker};
use sq_graph::{Graph, Item, Room};
use sq_isa::Reg;
use sq_layout::words_of;
use sq_lookup::{Table, in_reach};
use sq_num::Memory;
use sq_pass::{Blocks, Cut, Row};
use std::alloc::Global;
pub(crate) use sweep::sweep_inlines;
pub(crate) use waiting::{WaitingCalls, WaitingMoves};

// Whether the item calls the procedure.
fn is_call(item: &Item, number: u32) -> bool
    ensures { result ≡ is_call number item.now }
{
    match *item {
        Item::Out { procedure } => procedure == number,
        Item::Op(_) | Item::Hi { .. } | Item::Lo { .. } => false,
    }
}

// Whether one of the items calls the procedure.
fn has_call(items: &[Item], number: u32) -> bool
    ensures { result ≡ list_any (is_call number) items.now }
{
    items.iter().any(|item| is_call(item, number))
}

// Puts the body of the procedure in place of an item, if that calls it.
fn inline_at(graph: &mut Graph, procedure: u32, block: u32, at: u32)
    requires block { HasBlock graph.old.graph block }
    requires there { at < length (items_of graph.old.graph block) }
    requires room { HasRoom procedure graph.old }
    ensures graph { graph.new.graph ≡ inlined_if graph.old.graph procedure block at }
    ensures room { HasRoom procedure graph.new }
    ensures total { KeepsTotal graph.old graph.new }
{
    graph.learn();
    if is_call(&graph.items(block)[at as usize], procedure) {
        graph.inline(block, at);
    }
}

// The same for each item of a block, from the last one back, so that those ahead keep their places.
fn inline_block(graph: &mut Graph, procedure: u32, block: u32)
    requires block { HasBlock graph.old.graph block }
    requires room { HasRoom procedure graph.old }
    ensures graph { graph.new.graph ≡ spread_at graph.old.graph procedure block }
    ensures room { HasRoom procedure graph.new }
    ensures total { KeepsTotal graph.old graph.new }
{
    graph.learn();
    if !has_call(graph.items(block), procedure) {
        return;
    }
    let count = graph.items(block).len() as u32;
    for at in (0..count).rev() {
        inline_at(graph, procedure, block, at);
    }
}

// The same for each block.
fn inline_blocks(graph: &mut Graph, procedure: u32)
    requires { HasRoom procedure graph.old }
    ensures graph { graph.new.graph ≡ spread_all graph.old.graph procedure }
    ensures none { call_count graph.new.graph procedure ≡ 0 }
    ensures total { KeepsTotal graph.old graph.new }
{
    graph.learn();
    let mut place = Some(graph.first());
    while let Some(block) = place {
        inline_block(graph, procedure, block);
        graph.learn();
        place = graph.next(block);
    }
}

/// Puts the body of the procedure in place of each call of it, and removes the procedure.
pub(crate) fn apply_inline(graph: &mut Graph, procedure: u32)
    requires there { HasProcedure graph.old.graph procedure }
    requires room { HasRoom procedure graph.old }
    ensures graph { graph.new.graph ≡ inlined_all graph.old.graph procedure }
    ensures applied { (saving : ℕ) → IsInlinable graph.old.graph procedure saving → IsApplied saving (inlined_all graph.old.graph procedure) graph.old.graph graph.new.graph }
    ensures total { KeepsTotal graph.old graph.new }
{
    graph.learn();
    inline_blocks(graph, procedure);
    graph.learn();
    graph.remove_procedure(procedure);
}

// Counts the calls among these items.
fn add_calls(calls: &mut Table, items: &[Item]) -> Result<(), Memory>
    requires { (p : ℕ) → counted calls.old p + length items.now < 2 ^ 32 }
    ensures { OnOk result ((p : ℕ) → counted calls.new p ≡ counted calls.old p + count_by (is_call p) items.now) }
{
    for item in items {
        if let Item::Out { procedure } = *item {
            let count = calls.get(procedure).unwrap_or(0);
            calls.insert(procedure, count + 1)?;
        }
    }
    Ok(())
}

// How often each procedure is called.
fn count_calls(alloc: Global, graph: &Graph) -> Result<Table, Memory>
    ensures { IfOk result (λ calls. (p : ℕ) → counted calls p ≡ call_count graph.now.graph p) }
{
    graph.learn();
    let mut calls = Table::new(alloc);
    let mut place = Some(graph.first());
    while let Some(block) = place {
        add_calls(&mut calls, graph.items(block))?;
        place = graph.next(block);
    }
    Ok(calls)
}

/// The room that a procedure takes whose body comes in place of its calls.
pub(crate) fn inline_room(graph: &Graph, procedure: u32) -> Room
    requires there { HasProcedure graph.now.graph procedure }
    ensures { result ≡ inline_room graph.now.graph procedure }
{
    graph.learn();
    Room {
        blocks: 0,
        items: graph.body(procedure).len() as u32 + 1,
        procedures: 0,
    }
}

// A graph of so many words isn't copied.
const MANY: u32 = 1 << 28;

// Whether each Branch reaches its target once the body stands in place of the calls, which is found on a copy.
fn is_near(alloc: Global, graph: &Graph, procedure: u32) -> Result<bool, Memory>
    requires there { HasProcedure graph.now.graph procedure }
    requires few { call_count graph.now.graph procedure * length (body_of graph.now.graph procedure) ≤ call_count graph.now.graph procedure + length (body_of graph.now.graph procedure) }
    ensures { IfOk result (λ near. IsTrue near ↔ IsInReach (inlined_all graph.now.graph procedure)) }
{
    graph.learn();
    if words_of(graph) >= MANY {
        return Err(Memory);
    }
    let mut copy = graph.copy(alloc)?;
    copy.reserve(inline_room(graph, procedure))?;
    apply_inline(&mut copy, procedure);
    in_reach(alloc, &copy)
}

// How many words are saved by a procedure whose body comes in place of its calls, or `None` where that is none.
fn would_save(graph: &Graph, calls: &Table, procedure: u32) -> Option<u32>
    requires there { HasProcedure graph.now.graph procedure }
    requires calls { counted calls.now procedure ≡ call_count graph.now.graph procedure }
    ensures some { IfSome result (WouldSave graph.now.graph procedure) }
    ensures none { result ≡ None → (saving : ℕ) → ¬ WouldSave graph.now.graph procedure saving }
{
    graph.learn();
    let count = calls.get(procedure).unwrap_or(0);
    let size = graph.body(procedure).len() as u64;
    let gone = count + size + 1;
    let come = count * size;
    if count == 0 || gone <= come {
        return None;
    }
    Some((gone - come) as u32)
}

// The same, or `None` where a Branch doesn't reach. A copy is made only where none is found around the calls that doesn't.
fn inline_saving(
    alloc: Global,
    graph: &Graph,
    calls: &Table,
    places: &Places,
    procedure: u32,
) -> Result<Option<u32>, Memory>
    requires there { HasProcedure graph.now.graph procedure }
    requires calls { counted calls.now procedure ≡ call_count graph.now.graph procedure }
    requires places { (n : ℕ) → number_at places.now.addresses n ≡ block_address graph.now.graph 0 n }
    ensures some { IfOk result (λ found. IfSome found (IsInlinable graph.now.graph procedure)) }
    ensures none { result ≡ Ok None → (saving : ℕ) → ¬ IsInlinable graph.now.graph procedure saving }
{
    let Some(saving) = would_save(graph, calls, procedure) else {
        return Ok(None);
    };
    if blocker(graph, places, procedure).is_some() || !is_near(alloc, graph, procedure)? {
        return Ok(None);
    }
    Ok(Some(saving))
}

/// Whether some procedure would save words in place of its calls if each Branch reached then. Such are called once, have one
/// item, or have two and are called twice.
pub(crate) fn any_would_save(alloc: Global, graph: &Graph) -> Result<bool, Memory> {
    let calls = count_calls(alloc, graph)?;
    for procedure in 0..graph.procedures() {
        let count = calls.get(procedure).unwrap_or(0);
        let size = graph.body(procedure).len();
        if count == 1 || count > 0 && size < 2 || count == 2 && size == 2 {
            return Ok(true);
        }
    }
    Ok(false)
}

// The cut of a procedure whose body comes in place of its calls.
fn inline_cut(alloc: Global, procedure: u32, saving: u32) -> Cut
    ensures { result ≡ inline_cut procedure saving }
{
    Cut {
        row: Row::O4,
        blocks: Blocks::new(alloc),
        procedure,
        other: 0,
        length: 0,
        link: Reg::from_low_bits(0),
        saving,
    }
}

/// The cut of the first procedure whose body may come in place of its calls, or `None` where there is none.
///
/// It looks at each word a few times, and for each procedure that would save words at the blocks around its calls: such are
/// called once, have one item, or have two and are called twice.
pub(crate) fn find_inline(alloc: Global, graph: &Graph) -> Result<Option<Cut>, Memory>
    ensures some { IfOk result (λ found. IfSome found (IsInlined graph.now.graph)) }
    ensures none { result ≡ Ok None → (cut : Told) → ¬ IsInlined graph.now.graph cut }
{
    let calls = count_calls(alloc, graph)?;
    let places = Places::look(alloc, graph)?;
    for procedure in 0..graph.procedures() {
        if let Some(saving) = inline_saving(alloc, graph, &calls, &places, procedure)? {
            return Ok(Some(inline_cut(alloc, procedure, saving)));
        }
    }
    Ok(None)
}

/// The cut of O4 with its saving, or `None` where the procedure is no candidate. It looks at each word a few times.
pub(crate) fn admit_inline(alloc: Global, graph: &Graph, cut: &Cut) -> Result<Option<Cut>, Memory>
    requires row { cut.now.row ≡ InPlace }
    ensures some { IfOk result (λ found. IfSome found (λ given. IsInlined graph.now.graph given × IsCompleted cut.now given)) }
    ensures none { result ≡ Ok None → (given : Told) → IsCompleted cut.now given → ¬ IsInlined graph.now.graph given }
{
    if !cut.blocks.as_slice().is_empty() || cut.other != 0 || cut.length != 0 {
        return Ok(None);
    }
    if cut.procedure >= graph.procedures() {
        return Ok(None);
    }
    let calls = count_calls(alloc, graph)?;
    let places = Places::look(alloc, graph)?;
    match inline_saving(alloc, graph, &calls, &places, cut.procedure)? {
        Some(saving) => Ok(Some(inline_cut(alloc, cut.procedure, saving))),
        None => Ok(None),
    }
}
