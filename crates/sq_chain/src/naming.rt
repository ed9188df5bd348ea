//! Items that name a block which is empty with Fall, and come to name the next one.

ghost use Rattle.std.specs.Prelude.{◌≡◌, true, IfSome};
ghost use Rattle.sq_graph.specs.Blocks.{HasBlock};
ghost use Rattle.sq_lookup.specs.Counts.{AreUses};
ghost use Rattle.sq_chain.specs.Passing.{IsHandedOn, IsItemHanded};

use crate::holders::Holders;
use crate::spots::{Home, Spot, Spots};
use sq_graph::{Graph, Item};
use sq_lookup::{Uses, is_block};

/// The item that names `next`, where this one names `bare`.
fn handed_item(item: Item, bare: u32, next: u32) -> Option<Item>
    ensures { IfSome result (λ new. IsItemHanded bare next item new) }
{
    match item {
        Item::Hi { rd, to } if to == bare => Some(Item::Hi { rd, to: next }),
        Item::Lo { rd, rs, to } if to == bare => Some(Item::Lo { rd, rs, to: next }),
        _ => None,
    }
}

/// Has the item at this place of a block, if it names `bare`, name `next`. False where there is no memory to count that.
fn hand_item(graph: &mut Graph, uses: &mut Uses, block: u32, at: u32, bare: u32, next: u32) -> bool
    requires uses { AreUses graph.old.graph uses.old }
    requires next { HasBlock graph.old.graph next }
    ensures handed { IsHandedOn bare next graph.old.graph graph.new.graph }
    ensures uses { result ≡ true → AreUses graph.new.graph uses.new }
{
    graph.learn();
    if !is_block(graph, block) {
        return true;
    }
    let items = graph.items(block);
    if items.len() <= at as usize {
        return true;
    }
    let item = items[at as usize];
    let Some(new) = handed_item(item, bare, next) else {
        return true;
    };
    if uses.add_item(next).is_err() {
        return false;
    }
    uses.take_item(bare);
    graph.set_item(block, at, new);
    true
}

/// The same of the item at this place of a procedure's body.
fn hand_body_item(
    graph: &mut Graph,
    uses: &mut Uses,
    procedure: u32,
    at: u32,
    bare: u32,
    next: u32,
) -> bool
    requires uses { AreUses graph.old.graph uses.old }
    requires next { HasBlock graph.old.graph next }
    ensures handed { IsHandedOn bare next graph.old.graph graph.new.graph }
    ensures uses { result ≡ true → AreUses graph.new.graph uses.new }
{
    graph.learn();
    if procedure >= graph.procedures() {
        return true;
    }
    let items = graph.body(procedure);
    if items.len() <= at as usize {
        return true;
    }
    let item = items[at as usize];
    let Some(new) = handed_item(item, bare, next) else {
        return true;
    };
    if uses.add_item(next).is_err() {
        return false;
    }
    uses.take_item(bare);
    graph.set_body_item(procedure, at, new);
    true
}

/// The same of the item that lies there.
fn hand_spot(graph: &mut Graph, uses: &mut Uses, spot: Spot, bare: u32, next: u32) -> bool
    requires uses { AreUses graph.old.graph uses.old }
    requires next { HasBlock graph.old.graph next }
    ensures handed { IsHandedOn bare next graph.old.graph graph.new.graph }
    ensures uses { result ≡ true → AreUses graph.new.graph uses.new }
{
    match spot.home {
        Home::Block(block) => hand_item(graph, uses, block, spot.at, bare, next),
        Home::Procedure(number) => hand_body_item(graph, uses, number, spot.at, bare, next),
    }
}

/// The same of the items that are listed as naming `bare`. It lists them so.
fn hand_items(graph: &mut Graph, uses: &mut Uses, spots: &mut Spots, bare: u32, next: u32) -> bool
    requires uses { AreUses graph.old.graph uses.old }
    requires next { HasBlock graph.old.graph next }
    ensures handed { IsHandedOn bare next graph.old.graph graph.new.graph }
    ensures uses { result ≡ true → AreUses graph.new.graph uses.new }
{
    for _step in 0..u32::MAX {
        let Some(spot) = spots.first(bare) else {
            return true;
        };
        if !hand_spot(graph, uses, spot, bare, next) {
            return false;
        }
        spots.pass_first(bare, next);
    }
    true
}

/// Has the items that name `bare` name `next`. False where there is no memory for that.
pub(crate) fn hand_named(
    graph: &mut Graph,
    uses: &mut Uses,
    holders: &mut Holders,
    bare: u32,
    next: u32,
) -> bool
    requires uses { AreUses graph.old.graph uses.old }
    requires next { HasBlock graph.old.graph next }
    ensures handed { IsHandedOn bare next graph.old.graph graph.new.graph }
    ensures uses { result ≡ true → AreUses graph.new.graph uses.new }
{
    if !uses.has_item(bare) {
        return true;
    }
    let Ok(mut spots) = holders.take_items(graph) else {
        return false;
    };
    let all = hand_items(graph, uses, &mut spots, bare, next);
    holders.keep_items(spots);
    all
}
