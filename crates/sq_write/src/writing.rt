//! The file of a graph.

ghost use Rattle.std.specs.Prelude.{◌≡◌, ◌+◌, ◌*◌, ◌≤◌, ◌^◌, None, IsSome, IfOk};
ghost use Rattle.std.specs.List.{All};
ghost use Rattle.sq_elf.specs.Refusing.{file_refusal_of, largest_text};
ghost use Rattle.sq_elf.specs.Text.{text_of};
ghost use Rattle.sq_reloc.specs.Outside.{code_word_at};
ghost use Rattle.sq_reloc.specs.Refusing.{reloc_refusal_of};
ghost use Rattle.sq_graph.specs.Places.{IsInReach};
ghost use Rattle.sq_graph.specs.Words.{words_of};
ghost use Rattle.sq_layout.specs.Addresses.{ArePlaces};
ghost use Rattle.sq_write.specs.Written.{written};

use crate::code_words::set_words;
use crate::entries::text_and_entries;
use crate::file_parts::FileParts;
use crate::note::note_of;
use crate::output::output_file;
use crate::piece::Piece;
use crate::pieces::{pieces_before, pieces_behind};
use crate::placed::Placed;
use sq_elf::Elf;
use sq_graph::Graph;
use sq_layout::Places;
use sq_num::Memory;
use std::alloc::Global;

/// What is true of a file: text is at most one mebibyte.
#[tactic(auto, using(crate::proofs::SegmentFacts::few_text))]
fn facts(elf: &Elf<'_>)
    ensures accepted { file_refusal_of elf.now ≡ None }
    ensures text { (text_of elf.now).hi ≤ (text_of elf.now).lo + largest_text }
    ensures high { (text_of elf.now).hi ≤ 2 ^ 32 }
{
    elf.learn();
}

/// The file of the graph: the data of the file that was read, with the words of the graph as its text.
pub fn write_elf(
    alloc: Global,
    elf: &Elf<'_>,
    g: &Graph,
    places: &Places,
) -> Result<Vec<u8>, Memory>
    requires accepted { reloc_refusal_of elf.now ≡ None }
    requires code_words { All (λ word. IsSome (code_word_at elf.now word.at)) g.now.graph.code_words }
    requires reach { IsInReach g.now.graph }
    requires words { (text_of elf.now).lo + 4 * words_of g.now.graph ≤ (text_of elf.now).hi }
    requires places { ArePlaces g.now.graph (text_of elf.now).lo places.now }
    ensures { IfOk result (λ file. file.items ≡ written elf.now g.now.graph) }
{
    facts(elf);
    let lo = elf.text().lo;
    let placed = Placed { g, places, lo };
    let entry = placed.address(g.entry());
    let set = set_words(alloc, &placed)?;
    let text = text_and_entries(alloc, &placed)?;
    let parts = FileParts {
        entry,
        before: pieces_before(alloc, elf, &set)?,
        text: Piece::text(lo, text.text),
        behind: pieces_behind(alloc, elf, &set)?,
        entries: text.entries,
        note: note_of(alloc, &placed)?,
    };
    let file = output_file(alloc, &parts)?;
    Ok(file)
}
