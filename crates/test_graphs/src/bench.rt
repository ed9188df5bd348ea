//! The steps of a case.

use crate::arenas::Lists;
use crate::bodies::{body_text, expect_numbers};
use crate::certificates::{checked, lines_of, noted};
use crate::chains::{chain_text, tried};
use crate::changes::{change, reserve};
use crate::drafts::{graph_of, is_part, parts_ahead};
use crate::folds::{difference_text, folded};
use crate::late::{late_moves, late_windows};
use crate::passes::{led_on, pass_step, settled, settled_with};
use crate::places::{liveness_text, told};
use crate::terms::{fields, register_of};
use crate::texts::{graph_text, memory, names_of};
use anyhow::{Context, Error};
use sq_cases::{CaseError, Step, Subject, cases_of, decimal, expect};
use sq_drive::AllRows;
use sq_graph::{Graph, Room};
use sq_jumps::Jumps;
use sq_layout::reaches;
use sq_outline::{Outlines, Windows};
use sq_pass::{Blocks, Pass};
use sq_tail::Tails;
use std::alloc::Global;
use std::{mem, str};

/// The cases of this program, over the texts of the instruction words and of the graphs with names.
#[derive(Drop)]
pub struct Bench {
    pub words: String,
    pub graphs: String,
}

/// What a case has so far: a graph, another one that is kept, and lists.
#[derive(Drop)]
struct Scene {
    graph: Option<Graph>,
    kept: Option<Graph>,
    lists: Lists,
}

/// A number, or that of a register.
fn operand(word: &str) -> Result<u32, Error> {
    match decimal(word) {
        Ok(number) => Ok(number),
        Err(_) => Ok(register_of(word)?.number()),
    }
}

/// Numbers and registers, apart by spaces.
pub fn operands_of(alloc: Global, words: &str) -> Result<Vec<u32>, Error> {
    let mut operands = Vec::new(alloc);
    for word in words.split_whitespace() {
        operands.push(operand(word)?)?;
    }
    Ok(operands)
}

/// Whether branches reach so far, which is wanted of each of the distances or of none.
fn expect_reach(distances: &str, wanted: bool) -> Result<bool, Error> {
    for distance in distances.split_whitespace() {
        let number = distance.parse::<i64>().map_err(|_| CaseError::Number)?;
        if reaches(number) != wanted {
            return Err(Error::msg(format_args!("{distance} is wrong")));
        }
    }
    Ok(true)
}

/// Whether a list of blocks has these names once they are pushed.
fn expect_listed(alloc: Global, words: &str) -> Result<bool, Error> {
    let names = operands_of(alloc, words)?;
    let mut blocks = Blocks::new(alloc);
    for name in &names {
        blocks.push(*name).map_err(memory)?;
    }
    if blocks.as_slice() != names.as_slice() {
        return Err(Error::msg("other names are listed"));
    }
    Ok(true)
}

/// Whether the graph has these parts.
fn expect_graph(
    alloc: Global,
    words: &str,
    graph: &Graph,
    parts: &[Step<'_>],
) -> Result<bool, Error> {
    let wanted = graph_of(alloc, words, parts)?;
    let wanted = graph_text(alloc, words, &wanted).map_err(memory)?;
    let found = graph_text(alloc, words, graph).map_err(memory)?;
    expect(&wanted, &found)?;
    Ok(true)
}

/// Whether the graph is the kept one, with the same names of its blocks.
fn expect_kept(alloc: Global, words: &str, graph: &Graph, kept: &Graph) -> Result<bool, Error> {
    if names_of(alloc, graph).map_err(memory)? != names_of(alloc, kept).map_err(memory)? {
        return Err(Error::msg("the blocks have other names"));
    }
    let wanted = graph_text(alloc, words, kept).map_err(memory)?;
    let found = graph_text(alloc, words, graph).map_err(memory)?;
    expect(&wanted, &found)?;
    Ok(true)
}

/// A copy of the graph, where there is one.
fn copy_of(alloc: Global, graph: &Option<Graph>) -> Result<Option<Graph>, Error> {
    match graph {
        Some(graph) => Ok(Some(graph.copy(alloc).map_err(memory)?)),
        None => Ok(None),
    }
}

/// Does a step that changes the graph, where it can be done.
fn change_step(alloc: Global, graph: &mut Graph, step: &Step<'_>) -> Result<(), Error> {
    let operands = operands_of(alloc, step.words)?;
    if let ("reserve", &[blocks, items, procedures]) = (step.verb, operands.as_slice()) {
        return reserve(
            graph,
            Room {
                blocks,
                items,
                procedures,
            },
        );
    }
    let names = names_of(alloc, graph).map_err(memory)?;
    change(graph, &names, step.verb, &operands).context("this can't be done")
}

/// Whether a register is `live` or `dead` at a place of a block, as the verb has it: `BLOCK PLACE REGISTER`.
fn expect_liveness(alloc: Global, graph: &Graph, step: &Step<'_>) -> Result<(), Error> {
    let fields = fields(alloc, step.words)?;
    let &[block, place, r] = fields.as_slice() else {
        return Err(Error::msg("a block, a place and a register are wanted"));
    };
    let names = names_of(alloc, graph).map_err(memory)?;
    let block = names.get(decimal(block)? as usize).copied();
    let block = block.context("no block")?;
    let r = register_of(r)?.number();
    let found = liveness_text(alloc, graph, block, decimal(place)?, r);
    expect(step.verb, found.map_err(memory)?)
}

/// Whether a verb gives what is wanted: `OPERANDS gives ANSWER`.
fn expect_given(
    alloc: Global,
    words: &str,
    graph: &mut Graph,
    step: &Step<'_>,
) -> Result<(), Error> {
    let (given, wanted) = step
        .words
        .split_once(" gives ")
        .context("nothing is wanted")?;
    if step.verb == "check" {
        let found = checked(alloc, graph, &lines_of(alloc, given).map_err(memory)?);
        return expect(wanted, &found.map_err(memory)?);
    }
    let operands = operands_of(alloc, given)?;
    if let ("try_move", &[from, to]) = (step.verb, operands.as_slice()) {
        return expect(wanted, tried(alloc, graph, from, to).map_err(memory)?);
    }
    if let ("difference", &[x, y]) = (step.verb, operands.as_slice()) {
        return expect(
            wanted,
            &difference_text(alloc, graph, x, y).map_err(memory)?,
        );
    }
    let found = body_text(alloc, words, graph, step.verb, &operands);
    expect(wanted, &found.map_err(memory)?)
}

/// Whether settling notes the certificate of these lines.
fn expect_noted(alloc: Global, graph: &mut Graph, lines: &str) -> Result<(), Error> {
    let found = noted(alloc, graph).map_err(memory)?;
    let found = str::from_utf8(&found).context("no text was noted")?;
    expect(&lines_of(alloc, lines).map_err(memory)?, found)
}

/// Does a step on the graph that isn't about its text, and tells whether it was an expectation.
fn graph_step(
    alloc: Global,
    words: &str,
    graph: &mut Graph,
    step: &Step<'_>,
) -> Result<bool, Error> {
    match step.verb {
        "fingerprint"
        | "window_classes"
        | "matches"
        | "matches_body"
        | "rename"
        | "try_move"
        | "difference"
        | "check" => expect_given(alloc, words, graph, step)?,
        "live" | "dead" => expect_liveness(alloc, graph, step)?,
        "jumps" => pass_step(alloc, graph, &Jumps, step.words)?,
        "tails" => pass_step(alloc, graph, &Tails, step.words)?,
        "outlines" => pass_step(alloc, graph, &Outlines, step.words)?,
        "windows" => pass_step(alloc, graph, &Windows, step.words)?,
        "rows" => pass_step(alloc, graph, &AllRows, step.words)?,
        "boxed" => {
            let boxed: Box<dyn Pass> = Box::new(alloc, Jumps)?;
            pass_step(alloc, graph, &boxed, step.words)?;
        }
        "widen" | "moves" | "sweep_moves" => {
            let found = chain_text(alloc, graph, step.verb).map_err(memory)?;
            expect(step.words, &found)?;
        }
        "fold" => expect(step.words, folded(alloc, graph).map_err(memory)?)?,
        "late_moves" => expect(step.words, &late_moves(alloc, graph).map_err(memory)?)?,
        "late_windows" => expect(step.words, &late_windows(alloc, graph).map_err(memory)?)?,
        "sweep_reach" => expect(step.words, &led_on(alloc, graph).map_err(memory)?)?,
        "settle" => expect(step.words, &settled(alloc, graph).map_err(memory)?)?,
        "settle_with" => {
            let (count, wanted) = step.words.split_once(" saves ").context("no savings")?;
            expect(wanted, &settled_with(alloc, graph, count)?)?;
        }
        "note" => expect_noted(alloc, graph, step.words)?,
        verb => match told(alloc, graph, verb).map_err(memory)? {
            Some(found) => expect(step.words, &found)?,
            None => {
                change_step(alloc, graph, step)?;
                return Ok(false);
            }
        },
    }
    Ok(true)
}

impl Bench {
    /// The graph of this name.
    fn named(&self, alloc: Global, name: &str) -> Result<Graph, Error> {
        for case in cases_of(alloc, &self.graphs)? {
            if case.name == name {
                return graph_of(alloc, &self.words, &case.steps);
            }
        }
        Err(Error::msg("no graph of this name"))
    }

    /// Does a step, behind which stand the parts of a graph, and tells whether it was an expectation.
    fn step(
        &self,
        alloc: Global,
        scene: &mut Scene,
        step: &Step<'_>,
        parts: &[Step<'_>],
    ) -> Result<bool, Error> {
        if !parts.is_empty() && step.verb != "given" && step.verb != "graph" {
            return Err(Error::msg("no graph is wanted here"));
        }
        match step.verb {
            "given" => scene.graph = Some(graph_of(alloc, &self.words, parts)?),
            "from" => scene.graph = Some(self.named(alloc, step.words)?),
            "keep" => scene.kept = copy_of(alloc, &scene.graph)?,
            "swap" => mem::swap(&mut scene.graph, &mut scene.kept),
            "list" => return scene.lists.step(alloc, step.words),
            "reaches" => return expect_reach(step.words, true),
            "too_far" => return expect_reach(step.words, false),
            "names" => return expect_listed(alloc, step.words),
            "numbers" | "pairs" | "double" => return expect_numbers(alloc, step.verb, step.words),
            _ => {
                let Some(graph) = &mut scene.graph else {
                    return Err(Error::msg("no graph"));
                };
                match (step.verb, &scene.kept) {
                    ("graph", _) => return expect_graph(alloc, &self.words, graph, parts),
                    ("as_kept", Some(kept)) => return expect_kept(alloc, &self.words, graph, kept),
                    _ => return graph_step(alloc, &self.words, graph, step),
                }
            }
        }
        Ok(false)
    }
}

impl Subject for Bench {
    fn run(&mut self, alloc: Global, steps: &[Step<'_>]) -> Result<usize, Error> {
        let mut scene = Scene {
            graph: None,
            kept: None,
            lists: Lists::new(alloc),
        };
        let mut expectations = 0usize;
        for (place, step) in steps.iter().enumerate() {
            // A part belongs to the step before.
            if place == 0 || !is_part(step) {
                let parts = parts_ahead(&steps[place + 1..]);
                if self.step(alloc, &mut scene, step, parts)? {
                    expectations = expectations.saturating_add(1);
                }
            }
        }
        Ok(expectations)
    }
}
