//! From the bytes of a file to those of the packed file.

ghost use Rattle.std.specs.Prelude.{◌≡◌, ◌⊎◌, ◌+◌, ◌*◌, ◌<◌, ◌≤◌, length, None, IfOk, OnOk};
ghost use Rattle.sq_num.specs.declared.refusal.Refusal.{Refusal};
ghost use Rattle.sq_num.specs.Saved.{words_saved};
ghost use Rattle.sq_elf.specs.Refusing.{text_size, largest_text};
ghost use Rattle.sq_elf.specs.Sizes.{loaded_of};
ghost use Rattle.sq_elf.specs.Text.{text_of};
ghost use Rattle.sq_reloc.specs.Refusing.{reloc_refusal_of};
ghost use Rattle.sq_graph.specs.Rules.{IsGraph};
ghost use Rattle.sq_graph.specs.Words.{words_of};
ghost use Rattle.law_program.specs.FilePrograms.{IsRefusalOf};
ghost use Rattle.sq_write.specs.Written.{written};
ghost use Rattle.sq_top.specs.Packing.{Packs, GoodOutput, CanBeWritten};
ghost use Rattle.sq_top.specs.Settled.{IsSettledFile};

use crate::reading::{FileGraph, read_graph};
use sq_drive::settle_slotted;
use sq_elf::Elf;
use sq_graph::Graph;
use sq_layout::{place, words_of};
use sq_num::{Bytes, Denied, Memory, Packed, Savings, bytes_fit};
use sq_write::write_elf;
use std::alloc::Global;

/// Packs the file of these bytes: reads it as a graph of what is reached, rewrites that by the rows of the cost rule until
/// none saves a word, and writes it in the place of its text. Packed bytes that are packed again stay the same. Any step may
/// find no memory.
pub fn pack_bytes(alloc: Global, bytes: &[u8]) -> Result<Packed, Denied>
    ensures packed { IfOk result (Packs bytes.now) }
    ensures good { IfOk result (λ packed. GoodOutput bytes.now packed.bytes) }
    ensures settled { IfOk result (λ packed. IsSettledFile packed.bytes) }
    ensures again { IfOk result (λ packed. IsSettledFile bytes.now → packed.bytes ≡ bytes.now) }
    ensures refused { (refusal : Refusal) → result ≡ Err (Denied.Refused refusal) → IsRefusalOf bytes.now refusal }
    ensures exact { (refusal : Refusal) → IsRefusalOf bytes.now refusal → (result ≡ Err (Denied.Refused refusal)) ⊎ (result ≡ Err Denied.Memory) }
{
    bytes_fit(bytes);
    // The relocations go here.
    let FileGraph { elf, mut graph, .. } = read_graph(alloc, bytes)?;
    let reached = words_of(&graph);
    let savings = settle_slotted(alloc, &mut graph)?;
    let file = write_graph(alloc, &elf, &graph)?;
    Ok(packed_of(&elf, &graph, reached, savings, file))
}

/// Writes the graph of the file in the place of its text.
pub(crate) fn write_graph(alloc: Global, elf: &Elf<'_>, graph: &Graph) -> Result<Vec<u8>, Memory>
    requires accepted { reloc_refusal_of elf.now ≡ None }
    requires fits { CanBeWritten elf.now graph.now.graph }
    ensures file { IfOk result (λ file. file.items ≡ written elf.now graph.now.graph) }
    ensures rules { OnOk result (IsGraph graph.now.graph) }
{
    graph.learn();
    let places = place(alloc, graph, elf.text().lo)?;
    write_elf(alloc, elf, graph, &places)
}

/// The file of a graph, with the bytes of text and the bytes that are loaded before and after. `reached` is how many words
/// of text are reached.
pub(crate) fn packed_of(
    elf: &Elf<'_>,
    graph: &Graph,
    reached: u32,
    savings: Savings,
    file: Vec<u8>,
) -> Packed
    requires words { (text_of elf.now).lo + 4 * reached ≤ (text_of elf.now).hi }
    requires saved { words_of graph.now.graph + words_saved savings ≡ reached }
    requires short { (text_of elf.now).hi ≤ (text_of elf.now).lo + largest_text }
    requires loads { text_size elf.now ≤ loaded_of elf.now + 4 * words_of graph.now.graph }
    ensures output { result.bytes ≡ file.items }
    ensures text_before { result.text_before ≡ text_size elf.now }
    ensures text_after { result.text_after ≡ 4 * words_of graph.now.graph }
    ensures loaded_before { result.loaded_before ≡ loaded_of elf.now }
    ensures loaded_after { result.loaded_after + text_size elf.now ≡ loaded_of elf.now + 4 * words_of graph.now.graph }
    ensures balance { result.text_before ≡ result.text_after + 4 * (result.unreached + words_saved result.savings) }
    ensures procedures { result.procedures ≡ length graph.now.graph.procedures }
    ensures unreached { 4 * (result.unreached + reached) ≡ text_size elf.now }
    ensures savings { result.savings ≡ savings }
{
    let text = elf.text();
    let before = (text.hi - u64::from(text.lo)) as u32;
    let after = 4 * words_of(graph);
    Packed {
        bytes: Bytes::from_vec(file),
        text_before: before,
        text_after: after,
        loaded_before: elf.loaded(),
        loaded_after: elf.loaded() - (before - after),
        unreached: before / 4 - reached,
        procedures: graph.procedures(),
        savings,
    }
}
