//! Memory as a watched run of a file starts with it.

ghost use Rattle.std.specs.Prelude.{◌≡◌, ℕ, ◌+◌, ◌-◌, ◌≤◌, ◌^◌, ◌++◌, ◌∷◌, [], length, map, replicate, None, IfOk, OnOk};
ghost use Rattle.std.specs.List.{flat_map};
ghost use Rattle.std.specs.Ordering.{nat_cmp};
ghost use Rattle.std.specs.BTreeMap as tree;
ghost use Rattle.sq_memory.specs.Cells.{map_cells};
ghost use Rattle.sq_memory.specs.Regions.{get, region_cell};
ghost use Rattle.sq_pages.specs.Pages.{cells_of, over};
ghost use Rattle.sq_elf.specs.Memory.{segments_of};
ghost use Rattle.sq_elf.specs.Refusing.{file_refusal_of};
ghost use Rattle.sq_reloc.specs.Outside.{code_word_at};
ghost use Rattle.sq_tagged.specs.Views.{cell_of};
ghost use Rattle.sq_monitor.specs.FileCells.{region_at, file_cells, segment_regions, segment_layout};
ghost use Rattle.sq_monitor.specs.Zeros.{HasMarks};

use crate::cells::{file_cells, filled, targets_of};
use crate::segments::{copy_size, file_bytes, has_memory, header_count, segment_at};
use crate::zeros::{lay_zeros, marked_pages};
use sq_elf::Segment;
use sq_num::Memory;
use sq_pages::Pages;
use sq_reloc::Relocs;
use sq_system::{Extent, Piece};
use sq_tagged::Cell;
use std::alloc::Global;
use std::collections::{BTreeMap, HashSet};

/// A load copy can only be read: PF_R.
const READABLE: u32 = 4;

/// Where the pieces of a file stand, and what stands in memory.
#[derive(Drop)]
pub struct Laid {
    pub pieces: Vec<Piece>,
    pub memory: Pages<Cell>,
}

/// The piece of a segment.
fn own_piece(segment: &Segment) -> Piece
    ensures { result ≡ record { extent = record { address = segment.now.address; length = segment.now.memsz }; flags = segment.now.flags } }
{
    Piece {
        extent: Extent {
            address: segment.address,
            length: segment.memsz,
        },
        flags: segment.flags,
    }
}

/// The load copy of a segment.
fn copy_piece(segment: &Segment) -> Piece
    ensures { result ≡ record { extent = record { address = segment.now.load_address; length = segment.now.filesz }; flags = 4 } }
{
    Piece {
        extent: Extent {
            address: segment.load_address,
            length: segment.filesz,
        },
        flags: READABLE,
    }
}

/// Appends the piece of a segment: these bytes, and then zeros.
fn push_own(
    alloc: Global,
    laid: &mut Laid,
    relocs: &Relocs<'_>,
    targets: &BTreeMap<u32, u32>,
    pages: &HashSet<u64>,
    segment: &Segment,
    bytes: &[u8],
) -> Result<(), Memory>
    requires targets { (address : ℕ) → tree.get nat_cmp targets.now address ≡ code_word_at relocs.now address }
    requires marks { HasMarks relocs.now pages.now }
    requires most { length bytes.now ≤ segment.now.memsz }
    requires end { segment.now.address + segment.now.memsz ≤ 2 ^ 32 }
    ensures pieces { OnOk result (laid.new.pieces.items ≡ laid.old.pieces.items ++ record { extent = record { address = segment.now.address; length = segment.now.memsz }; flags = segment.now.flags } ∷ []) }
    ensures memory { OnOk result (map_cells cell_of (cells_of laid.new.memory) ≡ over (map_cells cell_of (cells_of laid.old.memory)) (region_cell (region_at segment.now.address (file_cells relocs.now segment.now.address (bytes.now ++ replicate (segment.now.memsz - length bytes.now) 0))))) }
{
    let cells = file_cells(alloc, relocs, targets, segment.address, bytes)?;
    laid.memory.lay_all(segment.address, &cells)?;
    let start = u64::from(segment.address);
    let low = start + bytes.len() as u64;
    let high = start + u64::from(segment.memsz);
    lay_zeros(&mut laid.memory, relocs, targets, pages, low, high)?;
    laid.pieces.push(own_piece(segment))?;
    Ok(())
}

/// Appends the load copy of a segment, which has what stands at the virtual addresses: these bytes, and then zeros.
fn push_copy(
    alloc: Global,
    laid: &mut Laid,
    relocs: &Relocs<'_>,
    targets: &BTreeMap<u32, u32>,
    segment: &Segment,
    bytes: &[u8],
) -> Result<(), Memory>
    requires targets { (address : ℕ) → tree.get nat_cmp targets.now address ≡ code_word_at relocs.now address }
    requires most { length bytes.now ≤ segment.now.filesz }
    requires end { segment.now.address + segment.now.filesz ≤ 2 ^ 32 }
    requires copy_end { segment.now.load_address + segment.now.filesz ≤ 2 ^ 32 }
    ensures pieces { OnOk result (laid.new.pieces.items ≡ laid.old.pieces.items ++ record { extent = record { address = segment.now.load_address; length = segment.now.filesz }; flags = 4 } ∷ []) }
    ensures memory { OnOk result (map_cells cell_of (cells_of laid.new.memory) ≡ over (map_cells cell_of (cells_of laid.old.memory)) (region_cell (region_at segment.now.load_address (file_cells relocs.now segment.now.address (bytes.now ++ replicate (segment.now.filesz - length bytes.now) 0))))) }
{
    let all = filled(alloc, bytes, segment.filesz)?;
    let cells = file_cells(alloc, relocs, targets, segment.address, &all)?;
    laid.memory.lay_all(segment.load_address, &cells)?;
    laid.pieces.push(copy_piece(segment))?;
    Ok(())
}

/// Appends the piece of a segment, and its load copy where it has one.
fn push_segment(
    alloc: Global,
    laid: &mut Laid,
    relocs: &Relocs<'_>,
    targets: &BTreeMap<u32, u32>,
    pages: &HashSet<u64>,
    bytes: &[u8],
    segment: &Segment,
) -> Result<(), Memory>
    requires targets { (address : ℕ) → tree.get nat_cmp targets.now address ≡ code_word_at relocs.now address }
    requires marks { HasMarks relocs.now pages.now }
    requires whole { segment.now.filesz ≤ segment.now.memsz }
    requires end { segment.now.address + segment.now.memsz ≤ 2 ^ 32 }
    requires copy_end { segment.now.load_address + segment.now.filesz ≤ 2 ^ 32 }
    ensures pieces { OnOk result (laid.new.pieces.items ≡ laid.old.pieces.items ++ segment_layout bytes.now segment.now) }
    ensures memory { OnOk result (map_cells cell_of (cells_of laid.new.memory) ≡ over (map_cells cell_of (cells_of laid.old.memory)) (get (segment_regions relocs.now bytes.now segment.now))) }
{
    let part = file_bytes(bytes, segment);
    push_own(alloc, laid, relocs, targets, pages, segment, part)?;
    if copy_size(segment) > 0 {
        push_copy(alloc, laid, relocs, targets, segment, part)?;
    }
    Ok(())
}

/// The pieces of a file that is not refused, with what stands in them.
pub fn lay_out(alloc: Global, relocs: &Relocs<'_>, bytes: &[u8]) -> Result<Laid, Memory>
    requires { file_refusal_of bytes.now ≡ None }
    ensures pieces { IfOk result (λ laid. laid.pieces.items ≡ flat_map (segment_layout bytes.now) (segments_of bytes.now)) }
    ensures memory { IfOk result (λ laid. map_cells cell_of (cells_of laid.memory) ≡ get (flat_map (segment_regions relocs.now bytes.now) (segments_of bytes.now))) }
{
    let targets = targets_of(alloc, relocs)?;
    let pages = marked_pages(alloc, relocs)?;
    let mut laid = Laid {
        pieces: Vec::new(alloc),
        memory: Pages::new(alloc),
    };
    for index in 0..header_count(bytes) {
        if has_memory(bytes, index) {
            let segment = segment_at(bytes, index);
            push_segment(alloc, &mut laid, relocs, &targets, &pages, bytes, &segment)?;
        }
    }
    Ok(laid)
}
