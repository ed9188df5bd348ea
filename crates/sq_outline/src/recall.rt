//! Row O3: of two procedures with equal bodies and equal links one goes.
//!
//!     before   a: jal x5,p; b: jal x5,q      after   a: jal x5,p; b: jal x5,p
//!              p: add a0,a0,a1; jr x5                p: add a0,a0,a1; jr x5
//!              q: add a0,a0,a1; jr x5

ghost use Rattle.std.specs.Prelude.{◌≡◌, ◌↔◌, ℕ, slice_get, ◌≤◌, ◌<◌, ◌+◌, ◌^◌, length, None, Ok, Some, IsTrue, IfOk, IfSome, OnOk};
ghost use Rattle.std.specs.List.{All};
ghost use Rattle.indexmap.specs.IndexSet.{index_set_len};
ghost use Rattle.sq_num.specs.Saved.{words_saved};
ghost use Rattle.sq_graph.specs.Blocks.{HasProcedure, body_of};
ghost use Rattle.sq_graph.specs.Fates.{AreFates, settled};
ghost use Rattle.sq_graph.specs.Leaders.{IsCanonical};
ghost use Rattle.sq_graph.specs.Room.{KeepsTotal};
ghost use Rattle.sq_graph.specs.Rules.{IsGraph, ItemFits};
ghost use Rattle.sq_graph.specs.Words.{words_of, most_words};
ghost use Rattle.sq_finger.specs.ItemKeys.{key_of};
ghost use Rattle.law_follow.specs.Follows.{Follows};
ghost use Rattle.sq_pass.specs.declared.cut.Cut.{Cut as Told};
ghost use Rattle.sq_pass.specs.declared.cut.Row.TheVariants.{O3 as Doubles};
ghost use Rattle.sq_pass.specs.Applied.{IsApplied};
ghost use Rattle.sq_pass.specs.Cuts.{IsCompleted};
ghost use Rattle.sq_pass.specs.Rewrites.{IsRewritten};
ghost use Rattle.sq_outline.specs.Candidates.{IsCandidate, described};
ghost use Rattle.sq_outline.specs.Recalled.{AreDoubles, IsRecalled, recall_cut, without_double};
ghost use Rattle.sq_outline.specs.RecalledNumbers.{IsNumberOf, HasGrown, StandOnce, AreBodyNumbers};

use indexmap::IndexSet;
use sq_finger::{ItemKey, first_double, item_key};
use sq_graph::{Fate, Graph, Item};
use sq_isa::Reg;
use sq_num::{Memory, Savings};
use sq_pass::{Blocks, Cut, Rewrite, Row};
use std::alloc::Global;
use std::collections::HashMap;

// The number of what was read of a body, once this item is read too.
fn number_after(
    pairs: &mut IndexSet<(u32, ItemKey)>,
    before: u32,
    item: &Item,
) -> Result<u32, Memory>
    requires fits { ItemFits item.now }
    requires few { index_set_len pairs.old < 2 ^ 31 }
    ensures place { IfOk result (λ number. (at : ℕ) × (number ≡ at + 32) × (slice_get pairs.new.keys at ≡ Some (before, key_of item.now))) }
    ensures grown { OnOk result (HasGrown 1 pairs.old.keys pairs.new.keys) }
{
    let (at, _) = pairs.insert_full((before, item_key(item)))?;
    Ok(at as u32 + 32)
}

/// The number of a link and a body.
pub(crate) fn body_number(
    pairs: &mut IndexSet<(u32, ItemKey)>,
    link: Reg,
    body: &[Item],
) -> Result<u32, Memory>
    requires fits { All ItemFits body.now }
    requires few { index_set_len pairs.old + length body.now < 2 ^ 31 }
    ensures number { IfOk result (λ number. IsNumberOf pairs.new.keys number link body.now) }
    ensures register { link < 32 }
    ensures grown { OnOk result (HasGrown (length body.now) pairs.old.keys pairs.new.keys) }
{
    let mut number = link.number();
    for item in body {
        number = number_after(pairs, number, item)?;
    }
    Ok(number)
}

// The numbers of all procedures. It looks at each item once.
fn body_numbers(alloc: Global, graph: &Graph) -> Result<Vec<Option<u32>>, Memory>
    requires rules { IsGraph graph.now.graph }
    ensures { IfOk result (λ numbers. AreBodyNumbers graph.now.graph numbers.items) }
{
    graph.learn();
    let mut pairs = IndexSet::new(alloc);
    let mut numbers = Vec::new(alloc);
    for procedure in 0..graph.procedures() {
        let number = body_number(&mut pairs, graph.link(procedure), graph.body(procedure))?;
        numbers.push(Some(number))?;
    }
    Ok(numbers)
}

// The cut of two procedures of which one goes.
fn recall_cut(alloc: Global, graph: &Graph, stays: u32, goes: u32) -> Cut
    requires there { HasProcedure graph.now.graph goes }
    ensures { result ≡ recall_cut graph.now.graph stays goes }
{
    graph.learn();
    Cut {
        row: Row::O3,
        blocks: Blocks::new(alloc),
        procedure: stays,
        other: goes,
        length: 0,
        link: Reg::from_low_bits(0),
        saving: graph.body(goes).len() as u32 + 1,
    }
}

/// The cut of two procedures that are equal, or `None` where all differ. It looks at each word of procedures once.
pub(crate) fn find_recall(alloc: Global, graph: &Graph) -> Result<Option<Cut>, Memory>
    ensures some { IfOk result (λ found. IfSome found (IsRecalled graph.now.graph)) }
    ensures none { result ≡ Ok None → (cut : Told) → ¬ IsRecalled graph.now.graph cut }
{
    graph.learn();
    let numbers = body_numbers(alloc, graph)?;
    let Some((stays, goes)) = first_double(alloc, &numbers)? else {
        return Ok(None);
    };
    Ok(Some(recall_cut(alloc, graph, stays as u32, goes as u32)))
}

// Whether these are two procedures with equal bodies and equal links.
fn are_doubles(graph: &Graph, stays: u32, goes: u32) -> bool
    ensures { IsTrue result ↔ AreDoubles graph.now.graph stays goes }
{
    if stays == goes || stays >= graph.procedures() || goes >= graph.procedures() {
        return false;
    }
    if graph.link(stays).number() != graph.link(goes).number() {
        return false;
    }
    graph.body(stays) == graph.body(goes)
}

/// The cut of O3 with its saving, or `None` where the two procedures aren't equal. It looks at the two.
pub(crate) fn admit_recall(alloc: Global, graph: &Graph, cut: &Cut) -> Result<Option<Cut>, Memory>
    requires row { cut.now.row ≡ Doubles }
    ensures some { IfOk result (λ found. IfSome found (λ given. IsRecalled graph.now.graph given × IsCompleted cut.now given)) }
    ensures none { result ≡ Ok None → (given : Told) → IsCompleted cut.now given → ¬ IsRecalled graph.now.graph given }
{
    if !cut.blocks.as_slice().is_empty() || cut.length != 0 {
        return Ok(None);
    }
    if !are_doubles(graph, cut.procedure, cut.other) {
        return Ok(None);
    }
    Ok(Some(recall_cut(alloc, graph, cut.procedure, cut.other)))
}

/// Gives the calls of the one procedure to the other, and removes it.
pub(crate) fn apply_recall(graph: &mut Graph, stays: u32, goes: u32)
    requires { AreDoubles graph.old.graph stays goes }
    ensures graph { graph.new.graph ≡ without_double graph.old.graph stays goes }
    ensures applied { IsApplied (length (body_of graph.old.graph goes) + 1) (without_double graph.old.graph stays goes) graph.old.graph graph.new.graph }
    ensures total { KeepsTotal graph.old graph.new }
{
    graph.learn();
    graph.redirect_calls(goes, stays);
    graph.remove_procedure(goes);
}

// The fates of procedures of which, where bodies and links are equal, the first stays, and the savings then.
fn recall_fates(
    alloc: Global,
    graph: &Graph,
    savings: Savings,
) -> Result<(Vec<Fate>, Savings), Memory>
    requires canonical { IsCanonical graph.now.graph }
    requires words { words_of graph.now.graph + words_saved savings ≤ most_words }
    ensures fates { IfOk result (λ made. AreFates made.0.items graph.now.graph) }
    ensures rules { IfOk result (λ made. IsGraph (settled made.0.items graph.now.graph)) }
    ensures rewritten { IfOk result (λ made. IsRewritten IsCandidate described savings made.1 graph.now.graph (settled made.0.items graph.now.graph)) }
{
    graph.learn();
    let numbers = body_numbers(alloc, graph)?;
    let mut firsts = HashMap::new(alloc);
    let mut fates = vec![in alloc; Fate::Stays; numbers.len()]?;
    let mut after = savings;
    for procedure in 0..graph.procedures() {
        let Some(number) = numbers[procedure as usize] else {
            continue;
        };
        let Some(first) = firsts.get(&number).copied() else {
            firsts.insert(number, procedure)?;
            continue;
        };
        fates[procedure as usize] = Fate::Joins(first);
        let done = Rewrite {
            row: Row::O3,
            saving: graph.body(procedure).len() as u32 + 1,
        };
        after = done.count(after);
    }
    Ok((fates, after))
}

/// Of procedures with equal bodies and equal links leaves the first. It looks at each item of procedures once, and where one
/// goes once at all items.
#[tactic(auto, using(law_follow::proofs::Following::graph_follows_itself, sq_pass::proofs::Rewriting::rewritten_itself))]
pub(crate) fn sweep_recalls(
    alloc: Global,
    graph: &mut Graph,
    savings: Savings,
) -> Result<Savings, Memory>
    requires canonical { IsCanonical graph.old.graph }
    requires words { words_of graph.old.graph + words_saved savings ≤ most_words }
    ensures rewritten { IfOk result (λ after. IsRewritten IsCandidate described savings after graph.old.graph graph.new.graph) }
    ensures follows { Follows graph.old.graph graph.new.graph }
{
    let (fates, after) = recall_fates(alloc, graph, savings)?;
    if after == savings {
        return Ok(savings);
    }
    *graph = graph.settled(alloc, &fates)?;
    Ok(after)
}
