//! What passes find in a graph, and what they make of it.

ghost use Rattle.std.specs.Prelude.{◌≤◌, IsTrue};
ghost use Rattle.sq_graph.specs.Leaders.{IsCanonical};
ghost use Rattle.sq_graph.specs.Words.{words_of, most_words};

use crate::cuts::{cut_of, cut_text, savings_text};
use crate::texts::{memory, names_of};
use anyhow::{Context, Error};
use sq_cases::{decimal, expect};
use sq_drive::{rewrite_once, settle, settle_by, settle_with};
use sq_graph::Graph;
use sq_jumps::{Jumps, sweep_reach};
use sq_layout::words_of;
use sq_live::live;
use sq_num::{Memory, Savings};
use sq_pass::{Cut, Pass, Rewrite};
use std::alloc::Global;

/// The cut that a pass finds.
fn found<P: Pass>(alloc: Global, graph: &Graph, pass: &P) -> Result<String, Memory> {
    let live = live(alloc, graph)?;
    let cut = pass.find(alloc, graph, &live)?;
    cut_text(alloc, &names_of(alloc, graph)?, cut.as_ref())
}

/// What a pass admits of a cut.
fn admitted<P: Pass>(
    alloc: Global,
    graph: &Graph,
    pass: &P,
    cut: Cut,
) -> Result<Option<Cut>, Memory> {
    let live = live(alloc, graph)?;
    pass.admit(alloc, graph, &live, cut)
}

/// Whether a pass admits what is wanted: `CUT gives CUT`.
fn expect_admitted<P: Pass>(
    alloc: Global,
    graph: &Graph,
    pass: &P,
    words: &str,
) -> Result<(), Error> {
    let (cut, wanted) = words.split_once(" gives ").context("nothing is wanted")?;
    let names = names_of(alloc, graph).map_err(memory)?;
    let cut = cut_of(alloc, &names, cut)?;
    let given = admitted(alloc, graph, pass, cut).map_err(memory)?;
    let found = cut_text(alloc, &names, given.as_ref()).map_err(memory)?;
    expect(wanted, &found)
}

/// Applies the cut that a pass finds, where there is room for it, and tells it.
fn applied<P: Pass>(alloc: Global, graph: &mut Graph, pass: &P) -> Result<String, Memory> {
    let live = live(alloc, graph)?;
    let names = names_of(alloc, graph)?;
    let Some(cut) = pass.find(alloc, graph, &live)? else {
        return cut_text(alloc, &names, None);
    };
    let room = pass.room(graph, &cut);
    let spare = graph.spare();
    if spare.blocks < room.blocks
        || spare.items < room.items
        || spare.procedures < room.procedures
    {
        return Ok(String::from_str(alloc, "too little room")?);
    }
    pass.apply(graph, &cut);
    cut_text(alloc, &names, Some(&cut))
}

/// Makes the graph canonical, and tells whether it has few enough words to be settled.
pub fn is_ready(graph: &mut Graph) -> bool
    ensures canonical { IsCanonical graph.new.graph }
    ensures words { IsTrue result → words_of graph.new.graph ≤ most_words }
{
    graph.canonical();
    words_of(graph) <= 1_048_576
}

/// The row of a rewrite and what it saved, or `none`.
pub fn rewrite_text(alloc: Global, done: Option<Rewrite>) -> Result<String, Memory> {
    Ok(match done {
        Some(done) => format!(in alloc; "{:?} saving {}", done.row, done.saving)?,
        None => String::from_str(alloc, "none")?,
    })
}

/// One rewrite by a pass.
fn rewritten<P: Pass>(alloc: Global, graph: &mut Graph, pass: &P) -> Result<String, Memory> {
    if !is_ready(graph) {
        return Ok(String::from_str(alloc, "too many words")?);
    }
    rewrite_text(alloc, rewrite_once(alloc, graph, pass)?)
}

/// What a sweep of a pass saves, or with `settled` settling by it.
fn saved<P: Pass>(
    alloc: Global,
    graph: &mut Graph,
    pass: &P,
    settled: bool,
) -> Result<String, Memory> {
    if !is_ready(graph) {
        return Ok(String::from_str(alloc, "too many words")?);
    }
    let savings = if settled {
        settle_by(alloc, graph, pass, Savings::NONE)?
    } else {
        pass.sweep(alloc, graph, Savings::NONE)?
    };
    savings_text(alloc, &savings)
}

/// What a pass does: `find CUT`, `apply CUT`, `admit CUT gives CUT`, `rewrite ROW saving N`, `sweep SAVINGS` or `settle
/// SAVINGS`. The last three begin with the canonical graph.
pub fn pass_step<P: Pass>(
    alloc: Global,
    graph: &mut Graph,
    pass: &P,
    words: &str,
) -> Result<(), Error> {
    let (verb, wanted) = words.split_once(" ").context("nothing is wanted")?;
    if verb == "admit" {
        return expect_admitted(alloc, graph, pass, wanted);
    }
    let found = match verb {
        "find" => found(alloc, graph, pass),
        "apply" => applied(alloc, graph, pass),
        "rewrite" => rewritten(alloc, graph, pass),
        "sweep" => saved(alloc, graph, pass, false),
        "settle" => saved(alloc, graph, pass, true),
        _ => return Err(Error::msg("a pass doesn't do this")),
    };
    let found = found.map_err(memory)?;
    expect(wanted, &found)
}

/// What the sweep of rows J2 and J3 alone saves. It begins with the canonical graph.
pub fn led_on(alloc: Global, graph: &mut Graph) -> Result<String, Memory> {
    if !is_ready(graph) {
        return Ok(String::from_str(alloc, "too many words")?);
    }
    savings_text(alloc, &sweep_reach(alloc, graph, Savings::NONE)?)
}

/// What settling by all rows saves.
pub fn settled(alloc: Global, graph: &mut Graph) -> Result<String, Memory> {
    if !is_ready(graph) {
        return Ok(String::from_str(alloc, "too many words")?);
    }
    savings_text(alloc, &settle(alloc, graph)?)
}

/// What settling by a list of so many passes saves.
pub fn settled_with(alloc: Global, graph: &mut Graph, count: &str) -> Result<String, Error> {
    let mut passes: Vec<Box<dyn Pass>> = Vec::new(alloc);
    for _ in 0..decimal(count)? {
        passes.push(Box::new(alloc, Jumps)?)?;
    }
    if !is_ready(graph) {
        return Err(Error::msg("too many words"));
    }
    let savings = settle_with(alloc, graph, &passes).map_err(memory)?;
    savings_text(alloc, &savings).map_err(memory)
}
