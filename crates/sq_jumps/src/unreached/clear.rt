//! Blocks and procedures that go together, though they name one another.

ghost use Rattle.std.specs.Prelude.{◌≡◌, ℕ, IfSome, length, option_copied};
ghost use Rattle.std.specs.List.{All, flat_map};
ghost use Rattle.sq_graph.specs.Blocks.{HasBlock};
ghost use Rattle.sq_graph.specs.Room.{KeepsTotal};
ghost use Rattle.sq_graph.specs.Rules.{IsGraph};
ghost use Rattle.sq_graph.specs.Uses.{item_calls};
ghost use Rattle.sq_lookup.specs.Names.{is_listed};
ghost use Rattle.sq_jumps.specs.Unreached.{AreUnreached, without_all};
ghost use Rattle.sq_jumps.specs.UnreachedClear.{AreHeld, cleared, cleared_each, is_called, TellsCalled, without_uncalled, without_each, MayGo};

use sq_graph::{Graph, Item, Term};
use sq_lookup::Names;

/// Takes the items of a block away, and makes it stop, so that it names nothing.
fn clear(graph: &mut Graph, block: u32)
    requires { HasBlock graph.old.graph block }
    ensures graph { graph.new.graph ≡ cleared graph.old.graph block }
    ensures blocks { (n : ℕ) → HasBlock graph.old.graph n → HasBlock graph.new.graph n }
    ensures total { KeepsTotal graph.old graph.new }
{
    graph.learn();
    let count = graph.items(block).len() as u32;
    graph.replace(block, 0, count, &[]);
    graph.set_term(block, Term::Stop { word: 0 });
}

/// Clears each of these blocks.
fn clear_each(graph: &mut Graph, blocks: &[u32])
    requires { All (HasBlock graph.old.graph) blocks.now }
    ensures graph { graph.new.graph ≡ cleared_each blocks.now graph.old.graph }
    ensures total { KeepsTotal graph.old graph.new }
{
    for block in blocks {
        clear(graph, *block);
    }
}

/// Whether one of the items calls the procedure.
fn has_call(items: &[Item], number: u32) -> bool
    ensures { result ≡ is_listed (flat_map item_calls items.now) number }
{
    for item in items {
        if let Item::Out { procedure } = *item {
            if procedure == number {
                return true;
            }
        }
    }
    false
}

/// Whether a block calls the procedure. It looks at each item of a block once at most.
fn is_called(graph: &Graph, number: u32) -> bool
    requires { IsGraph graph.now.graph }
    ensures { result ≡ is_called graph.now.graph number }
{
    let mut place = Some(graph.first());
    while let Some(name) = place {
        if has_call(graph.items(name), number) {
            return true;
        }
        place = graph.next(name);
    }
    false
}

/// The same, by one look where the set of the procedures that blocks call is given.
fn has_caller(graph: &Graph, called: Option<&Names>, number: u32) -> bool
    requires rules { IsGraph graph.now.graph }
    requires called { IfSome (option_copied called) (λ called. is_listed called number ≡ is_called graph.now.graph number) }
    ensures { result ≡ is_called graph.now.graph number }
{
    match called {
        Some(called) => called.has(number),
        None => is_called(graph, number),
    }
}

/// Removes each procedure that no block calls. It looks at all items once for each of them, and at the blocks once for each
/// procedure where the set isn't given.
fn remove_uncalled(graph: &mut Graph, called: Option<&Names>)
    requires { IfSome (option_copied called) (TellsCalled graph.old.graph (length graph.old.graph.procedures)) }
    ensures graph { graph.new.graph ≡ without_uncalled (length graph.old.graph.procedures) graph.old.graph }
    ensures total { KeepsTotal graph.old graph.new }
{
    for number in (0..graph.procedures()).rev() {
        graph.learn();
        if !has_caller(graph, called, number) {
            graph.remove_procedure(number);
        }
    }
}

/// Removes each of these blocks.
fn remove_each(graph: &mut Graph, blocks: &[u32])
    requires { MayGo graph.old.graph blocks.now }
    ensures graph { graph.new.graph ≡ without_each blocks.now graph.old.graph }
    ensures total { KeepsTotal graph.old graph.new }
{
    for block in blocks {
        graph.learn();
        graph.remove(*block);
    }
}

/// Removes the blocks that aren't reached, and the procedures that no other block calls. It looks at all items once for each
/// procedure that goes, and at the blocks once for each procedure where the set of those that they call isn't given.
pub(crate) fn drop_unreached(graph: &mut Graph, blocks: &[u32], called: Option<&Names>)
    requires unreached { AreUnreached graph.old.graph blocks.now }
    requires called { IfSome (option_copied called) (AreHeld graph.old.graph blocks.now) }
    ensures graph { graph.new.graph ≡ without_all graph.old.graph blocks.now }
    ensures rules { IsGraph graph.new.graph }
    ensures total { KeepsTotal graph.old graph.new }
{
    graph.learn();
    clear_each(graph, blocks);
    remove_uncalled(graph, called);
    graph.learn();
    remove_each(graph, blocks);
    graph.learn();
}
