//! The entry, words of data and items that name a block which is empty with Fall, and come to name the next one.

ghost use Rattle.std.specs.Prelude.{◌≡◌, true};
ghost use Rattle.sq_graph.specs.Blocks.{HasBlock};
ghost use Rattle.sq_lookup.specs.Counts.{AreUses};
ghost use Rattle.sq_chain.specs.Passing.{IsHandedOn};

use crate::holders::Holders;
use crate::lists::Lists;
use crate::naming::hand_named;
use sq_graph::Graph;
use sq_lookup::Uses;

/// Has the word of data at this place, if it names `bare`, name `next`. False where there is no memory to count that.
fn hand_word(graph: &mut Graph, uses: &mut Uses, at: u32, bare: u32, next: u32) -> bool
    requires uses { AreUses graph.old.graph uses.old }
    requires next { HasBlock graph.old.graph next }
    ensures handed { IsHandedOn bare next graph.old.graph graph.new.graph }
    ensures uses { result ≡ true → AreUses graph.new.graph uses.new }
{
    graph.learn();
    let words = graph.code_words();
    if words.len() <= at as usize || words[at as usize].block != bare {
        return true;
    }
    if uses.add_word(next).is_err() {
        return false;
    }
    uses.take_word(bare);
    graph.set_word(at, next);
    true
}

/// The same of the words that are listed as naming `bare`. It lists them so.
fn hand_words(graph: &mut Graph, uses: &mut Uses, lists: &mut Lists, bare: u32, next: u32) -> bool
    requires uses { AreUses graph.old.graph uses.old }
    requires next { HasBlock graph.old.graph next }
    ensures handed { IsHandedOn bare next graph.old.graph graph.new.graph }
    ensures uses { result ≡ true → AreUses graph.new.graph uses.new }
{
    for _step in 0..u32::MAX {
        let Some(word) = lists.first(bare) else {
            return true;
        };
        if !hand_word(graph, uses, word, bare, next) {
            return false;
        }
        lists.pass_first(bare, next);
    }
    true
}

/// The same of the entry.
fn hand_entry(graph: &mut Graph, uses: &mut Uses, bare: u32, next: u32) -> bool
    requires uses { AreUses graph.old.graph uses.old }
    requires next { HasBlock graph.old.graph next }
    ensures handed { IsHandedOn bare next graph.old.graph graph.new.graph }
    ensures uses { result ≡ true → AreUses graph.new.graph uses.new }
{
    graph.learn();
    if graph.entry() != bare {
        return true;
    }
    if uses.add_word(next).is_err() {
        return false;
    }
    uses.take_word(bare);
    graph.set_entry(next);
    true
}

/// Has the entry and the words of data that name `bare` name `next`. False where there is no memory for that.
fn hand_held(
    graph: &mut Graph,
    uses: &mut Uses,
    holders: &mut Holders,
    bare: u32,
    next: u32,
) -> bool
    requires uses { AreUses graph.old.graph uses.old }
    requires next { HasBlock graph.old.graph next }
    ensures handed { IsHandedOn bare next graph.old.graph graph.new.graph }
    ensures uses { result ≡ true → AreUses graph.new.graph uses.new }
{
    if !uses.has_word(bare) {
        return true;
    }
    if !hand_entry(graph, uses, bare, next) {
        return false;
    }
    let Ok(mut words) = holders.take_words(graph) else {
        return false;
    };
    let all = hand_words(graph, uses, &mut words, bare, next);
    holders.keep_words(words);
    all
}

/// Has the entry, the words of data and the items that name `bare` name `next`. False where there is no memory for that.
pub(crate) fn hand_on(
    graph: &mut Graph,
    uses: &mut Uses,
    holders: &mut Holders,
    bare: u32,
    next: u32,
) -> bool
    requires uses { AreUses graph.old.graph uses.old }
    requires next { HasBlock graph.old.graph next }
    ensures handed { IsHandedOn bare next graph.old.graph graph.new.graph }
    ensures uses { result ≡ true → AreUses graph.new.graph uses.new }
{
    if !hand_held(graph, uses, holders, bare, next) {
        return false;
    }
    hand_named(graph, uses, holders, bare, next)
}
