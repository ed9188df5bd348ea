//! Puts the bodies of many procedures in place of their calls, with one look at whether each Branch reaches.

ghost use Rattle.std.specs.Prelude.{◌≡◌, ◌≤◌, ◌<◌, ◌+◌, length, IfOk, IfSome};
ghost use Rattle.sq_num.specs.Saved.{words_saved};
ghost use Rattle.sq_graph.specs.Blocks.{HasProcedure, body_of};
ghost use Rattle.sq_graph.specs.Fates.{AreFates, settled};
ghost use Rattle.sq_graph.specs.Leaders.{IsCanonical};
ghost use Rattle.sq_graph.specs.Rules.{IsGraph};
ghost use Rattle.sq_graph.specs.Words.{words_of, most_words};
ghost use Rattle.law_follow.specs.Follows.{Follows};
ghost use Rattle.sq_pass.specs.Rewrites.{IsRewritten};
ghost use Rattle.sq_outline.specs.Candidates.{IsCandidate, described};
ghost use Rattle.sq_outline.specs.Inlined.{call_count, WouldSave};
ghost use Rattle.sq_outline.specs.InlineSteps.{counted};
ghost use Rattle.sq_outline.specs.InlineSweeps.{IsTried};

use crate::inline::fitting::unfitting;
use crate::inline::{any_would_save, count_calls, would_save};
use sq_graph::{Fate, Graph};
use sq_lookup::{Names, Table, in_reach};
use sq_num::{Memory, Savings};
use sq_pass::{Rewrite, Row};
use std::alloc::Global;

// How many words are saved by a procedure of some items, no more than `most`, whose body comes in place of its calls, or `None`
// where that is none or the procedure is left out.
fn saving_within(
    graph: &Graph,
    calls: &Table,
    procedure: u32,
    most: usize,
    left_out: &Names,
) -> Option<u32>
    requires there { HasProcedure graph.now.graph procedure }
    requires calls { counted calls.now procedure ≡ call_count graph.now.graph procedure }
    ensures some { IfSome result (λ _. 0 < length (body_of graph.now.graph procedure)) }
    ensures saving { IfSome result (WouldSave graph.now.graph procedure) }
{
    let size = graph.body(procedure).len();
    if size == 0 || size > most {
        return None;
    }
    if left_out.has(procedure) {
        return None;
    }
    would_save(graph, calls, procedure)
}

// The fates of procedures whose bodies come in place of their calls where they have some items, no more than `most`, and that
// saves words, whether or not each Branch reaches then, but for those that are left out; and the savings then.
fn inline_fates(
    alloc: Global,
    graph: &Graph,
    most: usize,
    left_out: &Names,
    savings: Savings,
) -> Result<(Vec<Fate>, Savings), Memory>
    requires canonical { IsCanonical graph.now.graph }
    requires words { words_of graph.now.graph + words_saved savings ≤ most_words }
    ensures fates { IfOk result (λ made. AreFates made.0.items graph.now.graph) }
    ensures rules { IfOk result (λ made. IsGraph (settled made.0.items graph.now.graph)) }
    ensures tried { IfOk result (λ made. IsTried savings made.1 graph.now.graph (settled made.0.items graph.now.graph)) }
{
    graph.learn();
    let calls = count_calls(alloc, graph)?;
    let mut fates = vec![in alloc; Fate::Stays; graph.procedures() as usize]?;
    let mut after = savings;
    for procedure in 0..graph.procedures() {
        let Some(saving) = saving_within(graph, &calls, procedure, most, left_out) else {
            continue;
        };
        fates[procedure as usize] = Fate::Inlined;
        let done = Rewrite {
            row: Row::O4,
            saving,
        };
        after = done.count(after);
    }
    Ok((fates, after))
}

// Puts these bodies in place of their calls where each Branch reaches in the end; else the graph stays as it was.
#[tactic(auto, using(sq_pass::proofs::Rewriting::rewritten_itself))]
fn try_each(
    alloc: Global,
    graph: &mut Graph,
    most: usize,
    left_out: &Names,
    savings: Savings,
) -> Result<Savings, Memory>
    requires canonical { IsCanonical graph.old.graph }
    requires words { words_of graph.old.graph + words_saved savings ≤ most_words }
    ensures rewritten { IfOk result (λ after. IsRewritten IsCandidate described savings after graph.old.graph graph.new.graph) }
    ensures follows { Follows graph.old.graph graph.new.graph }
{
    let (fates, after) = inline_fates(alloc, graph, most, left_out, savings)?;
    if after == savings {
        return Ok(savings);
    }
    let trial = graph.settled(alloc, &fates)?;
    if !in_reach(alloc, &trial)? {
        return Ok(savings);
    }
    *graph = trial;
    Ok(after)
}

/// Puts bodies in place of calls, by row O4: of those that save words one after another, as long as each Branch reaches, and then
/// those of one item, which move no Branch. It looks at each word a few times, and for each of them at the blocks around its calls.
#[tactic(auto, using(law_follow::proofs::Following::graph_follows_through))]
pub(crate) fn sweep_inlines(
    alloc: Global,
    graph: &mut Graph,
    savings: Savings,
) -> Result<Savings, Memory>
    requires canonical { IsCanonical graph.old.graph }
    requires words { words_of graph.old.graph + words_saved savings ≤ most_words }
    ensures rewritten { IfOk result (λ after. IsRewritten IsCandidate described savings after graph.old.graph graph.new.graph) }
    ensures follows { Follows graph.old.graph graph.new.graph }
{
    if !any_would_save(alloc, graph)? {
        return Ok(savings);
    }
    let unfitting = unfitting(alloc, graph)?;
    let none = Names::new(alloc);
    let after = try_each(alloc, graph, usize::MAX, &unfitting, savings)?;
    try_each(alloc, graph, 1, &none, after)
}
