//! How many words a graph takes.

ghost use Rattle.std.specs.Prelude.{◌≡◌, ◌+◌, ◌<◌, ◌^◌, Some, option_map, sum_by};
ghost use Rattle.sq_graph.specs.Blocks.{HasBlock, block_of};
ghost use Rattle.sq_graph.specs.Rules.{IsGraph};
ghost use Rattle.sq_graph.specs.Words.{term_words, block_words, procedure_words, words_of};

use sq_graph::{Graph, Term};

/// A Fall takes no word, and each other term one.
fn term_words(term: Term) -> u32
    ensures { result ≡ term_words term }
{
    match term {
        Term::Fall => 0,
        Term::Jump { .. }
        | Term::Branch { .. }
        | Term::Call { .. }
        | Term::PartJump { .. }
        | Term::Indirect { .. }
        | Term::Stop { .. } => 1,
    }
}

/// The words of a block: its items and its term.
pub fn block_words(g: &Graph, block: u32) -> u32
    requires { HasBlock g.now.graph block }
    ensures { option_map block_words (block_of g.now.graph block) ≡ Some result }
{
    g.learn();
    g.items(block).len() as u32 + term_words(g.term(block))
}

/// The words of all blocks.
pub(crate) fn words_of_blocks(g: &Graph) -> u32
    requires rules { IsGraph g.now.graph }
    requires few { sum_by block_words g.now.graph.blocks < 2 ^ 31 }
    ensures { result ≡ sum_by block_words g.now.graph.blocks }
{
    let mut words = 0;
    let mut place = Some(g.first());
    while let Some(name) = place {
        words += block_words(g, name);
        place = g.next(name);
    }
    words
}

/// The words of the procedures: their bodies, and one of each that returns.
fn words_of_procedures(g: &Graph) -> u32
    requires { sum_by procedure_words g.now.graph.procedures < 2 ^ 31 }
    ensures { result ≡ sum_by procedure_words g.now.graph.procedures }
{
    let mut words = 0;
    for procedure in 0..g.procedures() {
        words += g.body(procedure).len() as u32 + 1;
    }
    words
}

/// How many words the graph takes. A term other than Fall is a word, and a procedure is its body and one more.
pub fn words_of(g: &Graph) -> u32
    ensures { result ≡ words_of g.now.graph }
{
    g.learn();
    words_of_blocks(g) + words_of_procedures(g)
}
