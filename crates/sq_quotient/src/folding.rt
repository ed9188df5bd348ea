//! The graph in which of each class one block stays, made of its parts.

ghost use Rattle.std.specs.Prelude.{◌≡◌, ◌≤◌, ◌++◌, length, map, nat_eq, IfOk, OnOk};
ghost use Rattle.std.specs.HashMap.{get};
ghost use Rattle.sq_graph.specs.Blocks.{HasBlock, items_of_bodies};
ghost use Rattle.sq_graph.specs.Parts.{names_of};
ghost use Rattle.sq_graph.specs.Renames.{retargeted_procedure, retargeted_words};
ghost use Rattle.sq_graph.specs.Words.{most_words};
ghost use Rattle.sq_quotient.specs.Staying.{stays_in, slots_of, place_in, ArePositions, parts_of, items_left, procedure_part, IsMerged};

use crate::staying::Staying;
use sq_graph::{BlockPart, CodeRef, Graph, Item, Parts, ProcedurePart, Term};
use sq_live::block_names;
use sq_num::Memory;
use std::alloc::Global;
use std::collections::HashMap;

/// Which blocks stay, and the positions of these among the blocks that are left.
#[derive(Drop)]
pub(crate) struct Folding {
    staying: Staying,
    positions: HashMap<u32, u32>,
}

/// How many blocks become of one that stays: a new lone Jump stands behind it where it goes on into a block that goes and
/// its term isn't Fall.
fn slots_of(graph: &Graph, staying: &Staying, block: u32) -> u32
    requires { HasBlock graph.now.graph block }
    ensures { result ≡ slots_of (stays_in staying.now) graph.now.graph block }
{
    if graph.term(block) != Term::Fall && staying.gone_next(graph, block).is_some() {
        2
    } else {
        1
    }
}

/// Where each block that stays stands among the blocks that are left.
fn positions(
    alloc: Global,
    graph: &Graph,
    names: &[u32],
    staying: &Staying,
) -> Result<HashMap<u32, u32>, Memory>
    requires { names.now ≡ names_of graph.now.graph }
    ensures { IfOk result (λ positions. ArePositions (stays_in staying.now) graph.now.graph (get nat_eq positions)) }
{
    graph.learn();
    let mut positions = HashMap::new(alloc);
    let mut position = 0;
    for name in names {
        if staying.stays(*name) {
            positions.insert(*name, position)?;
            position += slots_of(graph, staying, *name);
        }
    }
    Ok(positions)
}

impl Folding {
    ghost use Rattle.std.specs.Prelude.{◌≡◌, ◌++◌, OnOk};
    ghost use Rattle.sq_graph.specs.Renames.{retargeted_item, retargeted_items, retargeted_term};
    ghost use Rattle.sq_quotient.specs.Staying.{place_in, parts_by};

    /// The position of the block that stays for this one.
    fn place(&self, block: u32) -> u32
        ensures { result ≡ place_in self.now block }
    {
        self.positions
            .get(&self.staying.of(block))
            .copied()
            .unwrap_or(0)
    }

    fn item(&self, item: Item) -> Item
        ensures { result ≡ retargeted_item (place_in self.now) item }
    {
        match item {
            Item::Hi { rd, to } => Item::Hi {
                rd,
                to: self.place(to),
            },
            Item::Lo { rd, rs, to } => Item::Lo {
                rd,
                rs,
                to: self.place(to),
            },
            Item::Op(_) | Item::Out { .. } => item,
        }
    }

    fn term(&self, term: Term) -> Term
        ensures { result ≡ retargeted_term (place_in self.now) term }
    {
        match term {
            Term::Jump { to } => Term::Jump { to: self.place(to) },
            Term::Branch { cond, a, b, to } => Term::Branch {
                cond,
                a,
                b,
                to: self.place(to),
            },
            Term::Call { link, to } => Term::Call {
                link,
                to: self.place(to),
            },
            Term::PartJump { link, part, to } => Term::PartJump {
                link,
                part,
                to: self.place(to),
            },
            Term::Fall | Term::Indirect { .. } | Term::Stop { .. } => term,
        }
    }

    fn push_items(&self, items: &mut Vec<Item>, more: &[Item]) -> Result<(), Memory>
        ensures { OnOk result (items.new.items ≡ items.old.items ++ retargeted_items (place_in self.now) more.now) }
    {
        for item in more {
            items.push(self.item(*item))?;
        }
        Ok(())
    }

    /// The parts of a block with so many items, which goes on to a next slot that goes, or to none.
    fn push_parts(
        &self,
        parts: &mut Vec<BlockPart>,
        length: u32,
        term: Term,
        gone: Option<u32>,
    ) -> Result<(), Memory>
        ensures { OnOk result (parts.new.items ≡ parts.old.items ++ parts_by (place_in self.now) length term gone) }
    {
        let Some(next) = gone else {
            parts.push(BlockPart {
                length,
                term: self.term(term),
            })?;
            return Ok(());
        };
        let jump = Term::Jump {
            to: self.place(next),
        };
        if term == Term::Fall {
            parts.push(BlockPart { length, term: jump })?;
            return Ok(());
        }
        parts.push(BlockPart {
            length,
            term: self.term(term),
        })?;
        parts.push(BlockPart {
            length: 0,
            term: jump,
        })?;
        Ok(())
    }
}

/// The parts and the items of the blocks that are left.
fn blocks(
    alloc: Global,
    graph: &Graph,
    names: &[u32],
    folding: &Folding,
) -> Result<(Vec<BlockPart>, Vec<Item>), Memory>
    requires { names.now ≡ names_of graph.now.graph }
    ensures parts { IfOk result (λ made. made.0.items ≡ parts_of (place_in folding.now) (stays_in folding.now.staying) graph.now.graph.blocks) }
    ensures items { IfOk result (λ made. made.1.items ≡ items_left (place_in folding.now) (stays_in folding.now.staying) graph.now.graph.blocks) }
{
    graph.learn();
    let mut parts = Vec::new(alloc);
    let mut items = Vec::new(alloc);
    for name in names {
        if folding.staying.stays(*name) {
            let body = graph.items(*name);
            let gone = folding.staying.gone_next(graph, *name);
            folding.push_parts(&mut parts, body.len() as u32, graph.term(*name), gone)?;
            folding.push_items(&mut items, body)?;
        }
    }
    Ok((parts, items))
}

/// The parts of the procedures. Their bodies come behind the other items.
fn procedures(
    alloc: Global,
    graph: &Graph,
    folding: &Folding,
    items: &mut Vec<Item>,
) -> Result<Vec<ProcedurePart>, Memory>
    ensures parts { IfOk result (λ parts. parts.items ≡ map procedure_part graph.now.graph.procedures) }
    ensures items { OnOk result (items.new.items ≡ items.old.items ++ items_of_bodies (map (retargeted_procedure (place_in folding.now)) graph.now.graph.procedures)) }
{
    graph.learn();
    let mut parts = Vec::new(alloc);
    for procedure in 0..graph.procedures() {
        let body = graph.body(procedure);
        parts.push(ProcedurePart {
            link: graph.link(procedure),
            length: body.len() as u32,
        })?;
        folding.push_items(items, body)?;
    }
    Ok(parts)
}

fn code_words(alloc: Global, graph: &Graph, folding: &Folding) -> Result<Vec<CodeRef>, Memory>
    ensures { IfOk result (λ words. words.items ≡ retargeted_words (place_in folding.now) graph.now.graph.code_words) }
{
    let mut words = Vec::new(alloc);
    for word in graph.code_words() {
        words.push(CodeRef {
            at: word.at,
            block: folding.place(word.block),
        })?;
    }
    Ok(words)
}

/// The graph in which of each class of the coarsest stable partition the first block stays, and each block is named by its
/// position.
pub(crate) fn merged(alloc: Global, graph: &Graph) -> Result<Graph, Memory>
    requires { length graph.now.graph.blocks ≤ most_words }
    ensures { IfOk result (λ made. IsMerged graph.now.graph made.graph) }
{
    graph.learn();
    let names = block_names(alloc, graph)?;
    let staying = Staying::tell(alloc, graph, &names)?;
    let positions = positions(alloc, graph, &names, &staying)?;
    let folding = Folding { staying, positions };
    let (blocks, mut items) = blocks(alloc, graph, &names, &folding)?;
    let procedures = procedures(alloc, graph, &folding, &mut items)?;
    let code_words = code_words(alloc, graph, &folding)?;
    Graph::from_parts(
        alloc,
        &Parts {
            blocks: &blocks,
            items: &items,
            entry: folding.place(graph.entry()),
            code_words: &code_words,
            procedures: &procedures,
        },
    )
}
