//! From the bytes of a file to those of the folded file.

ghost use Rattle.std.specs.Prelude.{◌≡◌, ◌⊎◌, ◌+◌, ◌*◌, ◌<◌, ◌≤◌, true, false, Ok, Err, IfOk, OnOk};
ghost use Rattle.sq_num.specs.declared.refusal.Refusal.{Refusal};
ghost use Rattle.sq_elf.specs.Refusing.{text_size, largest_text};
ghost use Rattle.sq_elf.specs.Sizes.{loaded_of};
ghost use Rattle.sq_elf.specs.Text.{text_of};
ghost use Rattle.sq_graph.specs.Leaders.{IsCanonical};
ghost use Rattle.sq_graph.specs.Slotted.{IsSlotted};
ghost use Rattle.sq_graph.specs.Words.{words_of, most_words};
ghost use Rattle.law_program.specs.FilePrograms.{IsRefusalOf};
ghost use Rattle.sq_drive.specs.Replaying.{IsLess};
ghost use Rattle.sq_drive.specs.Rows.{IsLeftoverFree};
ghost use Rattle.sq_quotient.specs.Folded.{FoldSavesNothing};
ghost use Rattle.sq_top.specs.Folding.{Folds};

use crate::packing::write_graph;
use crate::reading::{FileGraph, read_graph};
use sq_drive::settle_slotted;
use sq_elf::Elf;
use sq_graph::Graph;
use sq_layout::words_of;
use sq_num::{Denied, Memory, bytes_fit};
use sq_quotient::fold;
use std::alloc::Global;

/// A folded file, and the bytes of text and of all that is loaded, before and after.
#[derive(Debug, Drop)]
pub struct FoldedFile {
    pub bytes: Vec<u8>,
    pub text_before: u32,
    pub text_after: u32,
    pub loaded_before: u32,
    pub loaded_after: u32,
}

/// Folds the file of these bytes: reads it as a graph of what is reached, rewrites that by the rows of the cost rule and folds
/// equal functions, loops and all, in turn, until neither saves a word, and writes it in the place of its text. Any step may
/// find no memory.
pub fn fold_bytes(alloc: Global, bytes: &[u8]) -> Result<FoldedFile, Denied>
    ensures folded { IfOk result (Folds bytes.now) }
    ensures refused { (refusal : Refusal) → result ≡ Err (Denied.Refused refusal) → IsRefusalOf bytes.now refusal }
    ensures exact { (refusal : Refusal) → IsRefusalOf bytes.now refusal → (result ≡ Err (Denied.Refused refusal)) ⊎ (result ≡ Err Denied.Memory) }
{
    bytes_fit(bytes);
    // The relocations go here.
    let FileGraph { elf, mut graph, .. } = read_graph(alloc, bytes)?;
    settle_and_fold(alloc, &mut graph)?;
    let file = write_graph(alloc, &elf, &graph)?;
    Ok(folded_of(&elf, &graph, file))
}

/// Settles the graph and folds it in turn, until folding saves no word.
fn settle_and_fold(alloc: Global, graph: &mut Graph) -> Result<(), Memory>
    requires canonical { IsCanonical graph.old.graph }
    requires words { words_of graph.old.graph ≤ most_words }
    requires slotted { IsSlotted graph.old.graph }
    ensures less { OnOk result (IsLess graph.old.graph graph.new.graph) }
    ensures slotted { OnOk result (IsSlotted graph.new.graph) }
    ensures left { OnOk result (IsLeftoverFree graph.new.graph) }
    ensures folded { OnOk result (FoldSavesNothing graph.new.graph) }
{
    loop {
        settle(alloc, graph)?;
        if !fold_once(alloc, graph)? {
            return Ok(());
        }
    }
}

/// Settles the graph: the savings are not told.
fn settle(alloc: Global, graph: &mut Graph) -> Result<(), Memory>
    requires canonical { IsCanonical graph.old.graph }
    requires words { words_of graph.old.graph ≤ most_words }
    requires slotted { IsSlotted graph.old.graph }
    ensures less { OnOk result (IsLess graph.old.graph graph.new.graph) }
    ensures slotted { OnOk result (IsSlotted graph.new.graph) }
    ensures left { OnOk result (IsLeftoverFree graph.new.graph) }
{
    let _savings = settle_slotted(alloc, graph)?;
    Ok(())
}

/// Folds the graph where that saves a word, and names its blocks by their positions then; else it stays as it was.
fn fold_once(alloc: Global, graph: &mut Graph) -> Result<bool, Memory>
    requires canonical { IsCanonical graph.old.graph }
    requires words { words_of graph.old.graph ≤ most_words }
    ensures less { result ≡ Ok true → IsLess graph.old.graph graph.new.graph }
    ensures fewer { result ≡ Ok true → words_of graph.new.graph < words_of graph.old.graph }
    ensures slotted { result ≡ Ok true → IsSlotted graph.new.graph }
    ensures left { result ≡ Ok false → FoldSavesNothing graph.old.graph }
    ensures same { result ≡ Ok false → graph.new ≡ graph.old }
{
    if !fold(alloc, graph)? {
        return Ok(false);
    }
    graph.learn();
    graph.name_by_slots(alloc)?;
    Ok(true)
}

/// What was written of the graph, with the bytes of text and the bytes that are loaded before and after.
fn folded_of(elf: &Elf<'_>, graph: &Graph, file: Vec<u8>) -> FoldedFile
    requires words { (text_of elf.now).lo + 4 * words_of graph.now.graph ≤ (text_of elf.now).hi }
    requires short { (text_of elf.now).hi ≤ (text_of elf.now).lo + largest_text }
    requires loads { text_size elf.now ≤ loaded_of elf.now + 4 * words_of graph.now.graph }
    ensures output { result.bytes.items ≡ file.items }
    ensures text_before { result.text_before ≡ text_size elf.now }
    ensures text_after { result.text_after ≡ 4 * words_of graph.now.graph }
    ensures loaded_before { result.loaded_before ≡ loaded_of elf.now }
    ensures loaded_after { result.loaded_after + text_size elf.now ≡ loaded_of elf.now + 4 * words_of graph.now.graph }
{
    let text = elf.text();
    let before = (text.hi - u64::from(text.lo)) as u32;
    let after = 4 * words_of(graph);
    FoldedFile {
        bytes: file,
        text_before: before,
        text_after: after,
        loaded_before: elf.loaded(),
        loaded_after: elf.loaded() - (before - after),
    }
}
