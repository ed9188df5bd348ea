//! Where blocks lead. A node is a block's position in layout order, or behind these the one that leads to each
//! code target.

ghost use Rattle.std.specs.Prelude.{◌≡◌, ◌++◌, ◌<◌, IfOk, OnOk, map, length, option_to_list};
ghost use Rattle.std.specs.List.{flat_map};
ghost use Rattle.sq_graph.specs.Parts.{names_of};
ghost use Rattle.sq_graph.specs.Rules.{IsGraph};
ghost use Rattle.sq_graph.specs.Terms.{links};
ghost use Rattle.sq_graph.specs.Walks.{word_name, lower_names, link_names, code_targets};
ghost use Rattle.sq_live.specs.Exits.{position_at, listed, term_exits, exits_of};
ghost use Rattle.sq_live.specs.Search.{list_at};

use crate::layout::position;
use sq_graph::{Graph, Item, Term};
use sq_num::Memory;
use std::alloc::Global;

/// The nodes that a block leads to, two at most.
#[derive(Clone, Copy, Debug)]
pub(crate) struct Exits {
    pub first: Option<u32>,
    pub second: Option<u32>,
}

/// Where the block at a position leads.
pub(crate) fn block_exits(g: &Graph, names: &[u32], positions: &[Option<u32>], k: usize) -> Exits
    requires rules { IsGraph g.now.graph }
    requires names { names.now ≡ names_of g.now.graph }
    requires within { k < length names.now }
    ensures { listed result.first result.second ≡ list_at (exits_of (position_at positions.now) (length names.now) g.now.graph) k }
{
    g.learn();
    let next = if k + 1 < names.len() {
        Some(k as u32 + 1)
    } else {
        None
    };
    term_exits(g.term(names[k]), next, names.len() as u32, positions)
}

// Where a term leads that has this node in the next slot.
fn term_exits(term: Term, next: Option<u32>, targets: u32, positions: &[Option<u32>]) -> Exits
    ensures { listed result.first result.second ≡ term_exits (position_at positions.now) targets next term }
{
    match term {
        Term::Fall => Exits {
            first: next,
            second: None,
        },
        Term::Jump { to } | Term::Call { to, .. } | Term::PartJump { to, .. } => Exits {
            first: position(positions, to),
            second: None,
        },
        Term::Branch { to, .. } => Exits {
            first: position(positions, to),
            second: next,
        },
        Term::Indirect { .. } => Exits {
            first: Some(targets),
            second: None,
        },
        Term::Stop { .. } => Exits {
            first: None,
            second: None,
        },
    }
}

// Appends what there is.
fn push_some<T: Drop>(items: &mut Vec<T>, item: Option<T>) -> Result<(), Memory>
    ensures { OnOk result (items.new.items ≡ items.old.items ++ option_to_list item) }
{
    if let Some(item) = item {
        items.push(item)?;
    }
    Ok(())
}

/// The names of the code targets: of code words, of Lo items in blocks and procedures, and of the slots behind
/// links.
pub(crate) fn code_targets(alloc: Global, g: &Graph, names: &[u32]) -> Result<Vec<u32>, Memory>
    requires rules { IsGraph g.now.graph }
    requires names { names.now ≡ names_of g.now.graph }
    ensures { IfOk result (λ targets. targets.items ≡ code_targets g.now.graph) }
{
    let mut targets = Vec::new(alloc);
    push_words(&mut targets, g)?;
    push_lower_names_of_blocks(&mut targets, g, names)?;
    push_lower_names_of_procedures(&mut targets, g)?;
    push_return_slots(&mut targets, g, names)?;
    Ok(targets)
}

fn push_words(targets: &mut Vec<u32>, g: &Graph) -> Result<(), Memory>
    ensures { OnOk result (targets.new.items ≡ targets.old.items ++ map word_name g.now.graph.code_words) }
{
    for word in g.code_words() {
        targets.push(word.block)?;
    }
    Ok(())
}

fn push_lower_names(targets: &mut Vec<u32>, items: &[Item]) -> Result<(), Memory>
    ensures { OnOk result (targets.new.items ≡ targets.old.items ++ flat_map lower_names items.now) }
{
    for item in items {
        if let Item::Lo { to, .. } = *item {
            targets.push(to)?;
        }
    }
    Ok(())
}

fn push_lower_names_of_blocks(
    targets: &mut Vec<u32>,
    g: &Graph,
    names: &[u32],
) -> Result<(), Memory>
    requires rules { IsGraph g.now.graph }
    requires names { names.now ≡ names_of g.now.graph }
    ensures { OnOk result (targets.new.items ≡ targets.old.items ++ flat_map (λ block. flat_map lower_names block.items) g.now.graph.blocks) }
{
    for name in names {
        push_lower_names(targets, g.items(*name))?;
    }
    Ok(())
}

fn push_lower_names_of_procedures(targets: &mut Vec<u32>, g: &Graph) -> Result<(), Memory>
    ensures { OnOk result (targets.new.items ≡ targets.old.items ++ flat_map (λ procedure. flat_map lower_names procedure.body) g.now.graph.procedures) }
{
    for procedure in 0..g.procedures() {
        push_lower_names(targets, g.body(procedure))?;
    }
    Ok(())
}

fn push_return_slots(targets: &mut Vec<u32>, g: &Graph, names: &[u32]) -> Result<(), Memory>
    requires rules { IsGraph g.now.graph }
    requires names { names.now ≡ names_of g.now.graph }
    ensures { OnOk result (targets.new.items ≡ targets.old.items ++ link_names g.now.graph.blocks) }
{
    for name in names {
        if links(g.term(*name)) {
            push_some(targets, g.next(*name))?;
        }
    }
    Ok(())
}

// Whether a term writes a link to the next slot.
fn links(term: Term) -> bool
    ensures { result ≡ links term }
{
    match term {
        Term::Call { link, .. } | Term::PartJump { link, .. } | Term::Indirect { link, .. } =>
            link.number() != 0,
        Term::Fall | Term::Jump { .. } | Term::Branch { .. } | Term::Stop { .. } => false,
    }
}
