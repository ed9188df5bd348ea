//! What stands in memory where a watched run of a file starts.

ghost use Rattle.std.specs.Prelude.{◌≡◌, ℕ, ◌+◌, ◌≤◌, ◌-◌, ◌^◌, ◌++◌, nat_eq, length, map, replicate, Some, None, IfOk, OnOk, if◌then◌else◌};
ghost use Rattle.std.specs.Option.{option_or};
ghost use Rattle.std.specs.Ordering.{nat_cmp};
ghost use Rattle.std.specs.BTreeMap as tree;
ghost use Rattle.sq_reloc.specs.CodeWords.{listed_at};
ghost use Rattle.sq_reloc.specs.Outside.{code_word_at};
ghost use Rattle.sq_tagged.specs.Views.{cell_of};
ghost use Rattle.sq_monitor.specs.FileCells.{stale_or, file_cell, file_cells};

use sq_num::Memory;
use sq_reloc::{CodeWord, Relocs};
use sq_tagged::{Cell, Tag};
use std::alloc::Global;
use std::collections::BTreeMap;

/// Gives the target of a code word to its address, where that has none.
fn put_first(targets: &mut BTreeMap<u32, u32>, word: &CodeWord) -> Result<(), Memory>
    ensures { OnOk result ((address : ℕ) → tree.get nat_cmp targets.new address ≡ option_or (tree.get nat_cmp targets.old address) (if nat_eq word.now.at address then Some word.now.to else None)) }
{
    if !targets.contains_key(&word.at) {
        targets.insert(word.at, word.to)?;
    }
    Ok(())
}

/// The targets of these code words, by their addresses.
fn listed(alloc: Global, words: &[CodeWord]) -> Result<BTreeMap<u32, u32>, Memory>
    ensures { IfOk result (λ targets. (address : ℕ) → tree.get nat_cmp targets address ≡ listed_at words.now address) }
{
    let mut targets = BTreeMap::new(alloc);
    for word in words {
        put_first(&mut targets, word)?;
    }
    Ok(targets)
}

/// The targets of the code words of a file, by their addresses.
pub fn targets_of(alloc: Global, relocs: &Relocs<'_>) -> Result<BTreeMap<u32, u32>, Memory>
    ensures { IfOk result (λ targets. (address : ℕ) → tree.get nat_cmp targets address ≡ code_word_at relocs.now address) }
{
    listed(alloc, relocs.code_words())
}

/// The cell of a byte that is no part of a code word.
fn stale_or(relocs: &Relocs<'_>, x: u32, byte: u8) -> Cell
    ensures { cell_of result ≡ stale_or relocs.now x byte }
{
    if relocs.stale(x) {
        Cell::Stale
    } else {
        Cell::Byte(byte)
    }
}

/// The cell of the byte at a virtual address.
pub fn file_cell(relocs: &Relocs<'_>, targets: &BTreeMap<u32, u32>, x: u32, byte: u8) -> Cell
    requires { (address : ℕ) → tree.get nat_cmp targets.now address ≡ code_word_at relocs.now address }
    ensures { cell_of result ≡ file_cell relocs.now x byte }
{
    match targets.get(&(x - x % 4)) {
        Some(to) => Cell::Frag(Tag::Code(*to), (x % 4) as u8),
        None => stale_or(relocs, x, byte),
    }
}

/// The cells of bytes that stand from a virtual address on.
pub fn file_cells(
    alloc: Global,
    relocs: &Relocs<'_>,
    targets: &BTreeMap<u32, u32>,
    x: u32,
    bytes: &[u8],
) -> Result<Vec<Cell>, Memory>
    requires targets { (address : ℕ) → tree.get nat_cmp targets.now address ≡ code_word_at relocs.now address }
    requires end { x + length bytes.now ≤ 2 ^ 32 }
    ensures { IfOk result (λ cells. map cell_of cells.items ≡ file_cells relocs.now x bytes.now) }
{
    let mut cells = Vec::with_capacity(alloc, bytes.len())?;
    for (i, byte) in bytes.iter().enumerate() {
        cells.push(file_cell(relocs, targets, x + i as u32, *byte))?;
    }
    Ok(cells)
}

/// These bytes, and zeros up to a length.
pub fn filled(alloc: Global, bytes: &[u8], size: u32) -> Result<Vec<u8>, Memory>
    ensures { IfOk result (λ all. all.items ≡ bytes.now ++ replicate (size - length bytes.now) 0) }
{
    let mut all = Vec::from_slice(alloc, bytes)?;
    let count = (size as usize).saturating_sub(bytes.len());
    let zeros = vec![in alloc; 0u8; count]?;
    all.extend_from_slice(zeros.as_slice())?;
    Ok(all)
}
