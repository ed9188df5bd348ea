//! Row U: the blocks that aren't reached go, and the procedures that no other block calls.
//!
//!     before   a: ..      after   a: ..
//!                 j c                j c
//!              b: ..              c: ..
//!              c: ..
//!
//! What the cut is, how it is found, and the walk of a sweep are here, and `clear` has how it is applied.

mod clear;

ghost use Rattle.std.specs.Prelude.{◌≡◌, ◌+◌, ◌≤◌, IfOk, IfSome, ℕ, ◌<◌, ◌^◌, not, sum_by, None, Ok, OnOk};
ghost use Rattle.sq_jumps.specs.Candidates.{IsUnreachedCut, IsCandidate, described};
ghost use Rattle.std.specs.List.{filter, flat_map};
ghost use Rattle.sq_graph.specs.Parts.{names_of};
ghost use Rattle.sq_graph.specs.Rules.{IsGraph};
ghost use Rattle.sq_graph.specs.Words.{words_of, most_words, block_words, procedure_words};
ghost use Rattle.sq_graph.specs.Leaders.{IsCanonical};
ghost use Rattle.sq_num.specs.Saved.{words_saved};
ghost use Rattle.law_follow.specs.Follows.{Follows};
ghost use Rattle.sq_pass.specs.Rewrites.{IsRewritten};
ghost use Rattle.sq_graph.specs.Uses.{item_calls};
ghost use Rattle.law_patch.specs.Restrictions.{procedures_held};
ghost use Rattle.sq_pass.specs.declared.cut.Cut.{Cut as Told};
ghost use Rattle.sq_lookup.specs.Names.{is_listed, Adds};
ghost use Rattle.sq_jumps.specs.Unreached.{is_called_in, words_gone, AreUnreached};
ghost use Rattle.sq_jumps.specs.UnreachedClear.{AreHeld};
ghost use Rattle.sq_pass.specs.declared.cut.Row.TheVariants.{U as Unreached};
ghost use Rattle.sq_pass.specs.Cuts.{IsCompleted};

use crate::cut::no_register;
pub(crate) use clear::drop_unreached;
use sq_graph::{Graph, Item};
use sq_layout::block_words;
use sq_live::block_names;
use sq_lookup::Names;
use sq_num::{Memory, Savings};
use sq_pass::{Blocks, Cut, Rewrite, Row};
use sq_reach::{Marks, reachable};
use std::alloc::Global;

/// What goes by row U: the blocks that aren't reached, and all procedures but those that the other blocks call.
#[derive(Drop)]
struct Removal {
    gone: Blocks,
    called: Names,
    saving: u32,
}

/// The names that aren't marked.
fn unmarked(alloc: Global, marks: &Marks, names: &[u32]) -> Result<Blocks, Memory>
    ensures { IfOk result (λ blocks. blocks ≡ filter (λ n. not (is_listed marks.now n)) names.now) }
{
    let mut blocks = Blocks::new(alloc);
    for name in names {
        if !marks.has(*name) {
            blocks.push(*name)?;
        }
    }
    Ok(blocks)
}

/// Adds the procedures that items call.
fn add_calls(called: &mut Names, items: &[Item]) -> Result<(), Memory>
    ensures { OnOk result (Adds (flat_map item_calls items.now) called.old called.new) }
{
    for item in items {
        if let Item::Out { procedure } = *item {
            called.insert(procedure)?;
        }
    }
    Ok(())
}

/// The procedures that marked blocks call.
fn called_procedures(
    alloc: Global,
    graph: &Graph,
    marks: &Marks,
    names: &[u32],
) -> Result<Names, Memory>
    requires rules { IsGraph graph.now.graph }
    requires names { names.now ≡ names_of graph.now.graph }
    ensures { IfOk result (λ called. (q : ℕ) → is_listed called q ≡ is_called_in (is_listed marks.now) graph.now.graph.blocks q) }
{
    let mut called = Names::new(alloc);
    for name in names {
        if !marks.has(*name) {
            continue;
        }
        add_calls(&mut called, graph.items(*name))?;
    }
    Ok(called)
}

/// The words of the blocks that aren't marked.
fn words_of_unmarked(graph: &Graph, marks: &Marks, names: &[u32]) -> u64
    requires rules { IsGraph graph.now.graph }
    requires few { words_of graph.now.graph < 2 ^ 31 }
    requires names { names.now ≡ names_of graph.now.graph }
    ensures { result ≡ sum_by block_words (filter (λ b. not (is_listed marks.now b.name)) graph.now.graph.blocks) }
{
    let mut words = 0;
    for name in names {
        if marks.has(*name) {
            continue;
        }
        words += u64::from(block_words(graph, *name));
    }
    words
}

/// The words of the procedures that aren't among these.
fn words_of_uncalled(graph: &Graph, called: &Names) -> u64
    requires { words_of graph.now.graph < 2 ^ 31 }
    ensures { result ≡ sum_by procedure_words (procedures_held (λ q. not (is_listed called.now q)) graph.now.graph.procedures) }
{
    let mut words = 0;
    for procedure in 0..graph.procedures() {
        if called.has(procedure) {
            continue;
        }
        words += graph.body(procedure).len() as u64 + 1;
    }
    words
}

/// What goes by row U, which may be nothing. It looks at each word a few times.
fn find_removal(alloc: Global, graph: &Graph, names: &[u32]) -> Result<Removal, Memory>
    requires { names.now ≡ names_of graph.now.graph }
    ensures unreached { IfOk result (λ found. AreUnreached graph.now.graph found.gone) }
    ensures called { IfOk result (λ found. AreHeld graph.now.graph found.gone found.called) }
    ensures saving { IfOk result (λ found. found.saving ≡ words_gone graph.now.graph found.gone) }
{
    graph.learn();
    let marks = reachable(alloc, graph)?;
    let gone = unmarked(alloc, &marks, names)?;
    let called = called_procedures(alloc, graph, &marks, names)?;
    let saving = words_of_unmarked(graph, &marks, names) + words_of_uncalled(graph, &called);
    Ok(Removal {
        gone,
        called,
        saving: saving as u32,
    })
}

/// The cut of all that isn't reached, or `None` where that has no words. It looks at each word a few times.
pub(crate) fn find_unreached(
    alloc: Global,
    graph: &Graph,
    names: &[u32],
) -> Result<Option<Cut>, Memory>
    requires { names.now ≡ names_of graph.now.graph }
    ensures some { IfOk result (λ found. IfSome found (IsUnreachedCut graph.now.graph)) }
    ensures none { result ≡ Ok None → (cut : Told) → ¬ IsUnreachedCut graph.now.graph cut }
{
    let found = find_removal(alloc, graph, names)?;
    if found.saving == 0 {
        return Ok(None);
    }
    Ok(Some(Cut {
        row: Row::U,
        blocks: found.gone,
        procedure: 0,
        other: 0,
        length: 0,
        link: no_register(),
        saving: found.saving,
    }))
}

/// The cut of U with its blocks, link and saving, or `None` where there is none.
pub(crate) fn admit_unreached(
    alloc: Global,
    graph: &Graph,
    cut: &Cut,
) -> Result<Option<Cut>, Memory>
    requires rules { IsGraph graph.now.graph }
    requires row { cut.now.row ≡ Unreached }
    ensures some { IfOk result (λ found. IfSome found (λ given. IsUnreachedCut graph.now.graph given × IsCompleted cut.now given)) }
    ensures none { result ≡ Ok None → (given : Told) → IsCompleted cut.now given → ¬ IsUnreachedCut graph.now.graph given }
{
    if cut.procedure != 0 || cut.other != 0 || cut.length != 0 {
        return Ok(None);
    }
    let names = block_names(alloc, graph)?;
    find_unreached(alloc, graph, &names)
}

/// Rewrites the graph by row U, where that has a candidate. It looks at each word a few times, and at all items once more
/// for each procedure that goes.
pub(crate) fn sweep_unreached(
    alloc: Global,
    graph: &mut Graph,
    savings: Savings,
) -> Result<Savings, Memory>
    requires canonical { IsCanonical graph.old.graph }
    requires words { words_of graph.old.graph + words_saved savings ≤ most_words }
    ensures rewritten { IfOk result (λ after. IsRewritten IsCandidate described savings after graph.old.graph graph.new.graph) }
    ensures follows { Follows graph.old.graph graph.new.graph }
{
    graph.learn();
    let names = block_names(alloc, graph)?;
    let found = find_removal(alloc, graph, &names)?;
    if found.saving == 0 {
        return Ok(savings);
    }
    drop_unreached(graph, found.gone.as_slice(), Some(&found.called));
    graph.canonical();
    let done = Rewrite {
        row: Row::U,
        saving: found.saving,
    };
    Ok(done.count(savings))
}
