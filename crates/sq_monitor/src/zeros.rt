//! Zeros where a watched run of a file starts.
//!
//! A whole page of zeros of which relocations say nothing is laid as one, and takes no memory for its cells. Relocations
//! say something only of file bytes, or the file is refused; that isn't proved here, so the pages are looked up.

ghost use Rattle.std.specs.Prelude.{◌≡◌, ℕ, ◌+◌, ◌*◌, ◌≤◌, ◌^◌, ◌/◌, ◌||◌, nat_eq, true, OnOk, IfOk};
ghost use Rattle.std.specs.HashSet as set;
ghost use Rattle.std.specs.Ordering.{nat_cmp};
ghost use Rattle.std.specs.BTreeMap as tree;
ghost use Rattle.sq_memory.specs.Cells.{map_cells};
ghost use Rattle.sq_pages.specs.Pages.{cells_of, over};
ghost use Rattle.sq_reloc.specs.Outside.{code_word_at};
ghost use Rattle.sq_tagged.specs.Views.{cell_of};
ghost use Rattle.sq_monitor.specs.Zeros.{HasMarks, HasWords, zero_cells, marked_zeros};

use crate::cells::file_cell;
use sq_num::Memory;
use sq_pages::Pages;
use sq_reloc::{CodeWord, Relocs};
use sq_tagged::Cell;
use std::alloc::Global;
use std::collections::{BTreeMap, HashSet};

/// How many addresses a page has.
const PAGE: u64 = 4096;

/// Puts the page of a code word into a set.
fn insert_page(pages: &mut HashSet<u64>, word: &CodeWord) -> Result<(), Memory>
    ensures { OnOk result ((page : ℕ) → set.contains nat_eq pages.new page ≡ (set.contains nat_eq pages.old page || nat_eq (word.now.at / 4096) page)) }
{
    pages.insert(u64::from(word.at) / PAGE)?;
    Ok(())
}

/// Puts the pages of code words into a set.
fn insert_pages(pages: &mut HashSet<u64>, words: &[CodeWord]) -> Result<(), Memory>
    ensures words { OnOk result (HasWords pages.new words.now) }
    ensures kept { OnOk result ((page : ℕ) → set.contains nat_eq pages.old page ≡ true → set.contains nat_eq pages.new page ≡ true) }
{
    for word in words {
        insert_page(pages, word)?;
    }
    Ok(())
}

/// The pages of 4 KiB that have a stale byte or a code word.
pub fn marked_pages(alloc: Global, relocs: &Relocs<'_>) -> Result<HashSet<u64>, Memory>
    ensures { IfOk result (λ pages. HasMarks relocs.now pages) }
{
    let mut pages = relocs.stale_pages(alloc)?;
    insert_pages(&mut pages, relocs.code_words())?;
    Ok(pages)
}

/// Lays the cells of zeros from `low` up to `high`, where nothing stands.
fn lay_each(
    memory: &mut Pages<Cell>,
    relocs: &Relocs<'_>,
    targets: &BTreeMap<u32, u32>,
    low: u64,
    high: u64,
) -> Result<(), Memory>
    requires targets { (address : ℕ) → tree.get nat_cmp targets.now address ≡ code_word_at relocs.now address }
    requires high { high ≤ 2 ^ 32 }
    ensures { OnOk result (map_cells cell_of (cells_of memory.new) ≡ over (map_cells cell_of (cells_of memory.old)) (zero_cells relocs.now low high)) }
{
    for address in low..high {
        let x = address as u32;
        memory.lay(x, file_cell(relocs, targets, x, 0))?;
    }
    Ok(())
}

/// The same of one page, where that is marked.
fn lay_part(
    memory: &mut Pages<Cell>,
    relocs: &Relocs<'_>,
    targets: &BTreeMap<u32, u32>,
    pages: &HashSet<u64>,
    page: u64,
    low: u64,
    high: u64,
) -> Result<(), Memory>
    requires targets { (address : ℕ) → tree.get nat_cmp targets.now address ≡ code_word_at relocs.now address }
    requires low { 4096 * page ≤ low }
    requires most { high ≤ 4096 * page + 4096 }
    requires high { high ≤ 2 ^ 32 }
    ensures { OnOk result (map_cells cell_of (cells_of memory.new) ≡ over (map_cells cell_of (cells_of memory.old)) (marked_zeros relocs.now pages.now low high)) }
{
    if pages.contains(&page) {
        lay_each(memory, relocs, targets, low, high)
    } else {
        Ok(())
    }
}

/// The same of those on marked pages alone.
fn lay_marked(
    memory: &mut Pages<Cell>,
    relocs: &Relocs<'_>,
    targets: &BTreeMap<u32, u32>,
    pages: &HashSet<u64>,
    low: u64,
    high: u64,
) -> Result<(), Memory>
    requires targets { (address : ℕ) → tree.get nat_cmp targets.now address ≡ code_word_at relocs.now address }
    requires high { high ≤ 2 ^ 32 }
    ensures { OnOk result (map_cells cell_of (cells_of memory.new) ≡ over (map_cells cell_of (cells_of memory.old)) (marked_zeros relocs.now pages.now low high)) }
{
    for page in low / PAGE..high.div_ceil(PAGE) {
        let from = low.max(PAGE * page);
        let to = high.min(PAGE * page + PAGE);
        lay_part(memory, relocs, targets, pages, page, from, to)?;
    }
    Ok(())
}

/// Lays the cells of zeros from `low` up to `high`, where nothing stands. `pages` are the marked ones.
pub fn lay_zeros(
    memory: &mut Pages<Cell>,
    relocs: &Relocs<'_>,
    targets: &BTreeMap<u32, u32>,
    pages: &HashSet<u64>,
    low: u64,
    high: u64,
) -> Result<(), Memory>
    requires targets { (address : ℕ) → tree.get nat_cmp targets.now address ≡ code_word_at relocs.now address }
    requires marks { HasMarks relocs.now pages.now }
    requires high { high ≤ 2 ^ 32 }
    ensures { OnOk result (map_cells cell_of (cells_of memory.new) ≡ over (map_cells cell_of (cells_of memory.old)) (zero_cells relocs.now low high)) }
{
    lay_marked(memory, relocs, targets, pages, low, high)?;
    memory.lay_same(low, high, Cell::Byte(0))?;
    Ok(())
}
