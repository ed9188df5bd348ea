//! How a watched run of a file starts.

ghost use Rattle.std.specs.Prelude.{◌≡◌, ℕ, ◌++◌, ◌∷◌, [], map, None, Err, IfOk, OnOk, false};
ghost use Rattle.std.specs.List.{flat_map};
ghost use Rattle.sq_isa.specs.Registers.{written};
ghost use Rattle.sq_memory.specs.Regions.{region_cell};
ghost use Rattle.sq_memory.specs.Cells.{map_cells};
ghost use Rattle.sq_pages.specs.Pages.{cells_of as contents, over};
ghost use Rattle.sq_elf.specs.Memory.{segments_of};
ghost use Rattle.sq_elf.specs.Headers.{entry_of};
ghost use Rattle.sq_system.specs.Starts.{start_of, StartFits, HasRoom, IsBadStart, stack_pointer};
ghost use Rattle.law_follow.specs.Values.{Num, Holds};
ghost use Rattle.law_follow.specs.Worlds.{ram_region, first_registers, extents};
ghost use Rattle.law_program.specs.Programs.{Program};
ghost use Rattle.law_program.specs.FilePrograms.{text_of, IsProgramOf};
ghost use Rattle.law_program.specs.FileRuns.{world_of, watched_start, watched_layout};
ghost use Rattle.sq_tagged.specs.Views.{cell_of, registers_of, layout_of};
ghost use Rattle.sq_monitor.specs.FileCells.{segment_regions, segment_layout};
ghost use Rattle.sq_monitor.specs.Starts.{extent_of, state_at};
ghost use Rattle.sq_monitor.specs.Views.{watch_layout, watch_text, watch_state, watched_of};

use crate::fault::WatchFault;
use crate::hart::Hart;
use crate::laid::{Laid, lay_out};
use crate::scene::Scene;
use crate::watch::Watch;
use sq_elf::Elf;
use sq_isa::Reg;
use sq_lift::Text;
use sq_num::Memory;
use sq_pages::Pages;
use sq_reloc::Relocs;
use sq_system::{Extent, Piece, Start, argument_area, is_bad_start, start_pointer};
use sq_tagged::{Cell, Registers, Setting, Store, Value, cells_of};
use std::alloc::Global;

/// The number of sp.
const STACK_POINTER: u32 = 2;

/// Where the pieces stand.
fn extents(alloc: Global, pieces: &[Piece]) -> Result<Vec<Extent>, Memory>
    ensures { IfOk result (λ extents. extents.items ≡ map extent_of pieces.now) }
{
    let mut extents = Vec::with_capacity(alloc, pieces.len())?;
    for piece in pieces {
        extents.push(piece.extent)?;
    }
    Ok(extents)
}

/// Lays RAM behind the pieces: zeros up to the stack pointer, and the argument area.
fn lay_ram(
    alloc: Global,
    memory: &mut Pages<Cell>,
    start: &Start<'_>,
    pointer: u32,
) -> Result<(), Memory>
    requires fits { StartFits start.now.base start.now.size }
    requires room { HasRoom (start_of start.now) }
    requires pointer { pointer ≡ stack_pointer (start_of start.now) }
    ensures { OnOk result (map_cells cell_of (contents memory.new) ≡ over (map_cells cell_of (contents memory.old)) (region_cell (ram_region (start_of start.now)))) }
{
    let area = argument_area(alloc, start)?;
    let cells = cells_of(alloc, &area)?;
    memory.lay_same(u64::from(start.base), u64::from(pointer), Cell::Byte(0))?;
    memory.lay_all(pointer, &cells)?;
    Ok(())
}

/// All registers are the number 0, but for sp.
fn registers(pointer: u32) -> Registers
    ensures { registers_of result ≡ written 2 (Holds (Num pointer)) (λ r. Holds (Num 0)) }
{
    let mut registers = Registers::zeros();
    registers.set(Reg::from_low_bits(STACK_POINTER), Value::Num(pointer));
    registers
}

/// A hart at an entry.
#[tactic(auto, unfolding(crate::specs::Views::watched_of, sq_tagged::specs::Views::store_of))]
fn hart(memory: Pages<Cell>, entry: u32, pointer: u32, input: Vec<u8>) -> Hart
    ensures { watched_of result ≡ state_at entry pointer (map_cells cell_of (contents memory)) input.items }
{
    Hart {
        pc: u64::from(entry),
        registers: registers(pointer),
        store: Store {
            memory,
            input,
            read: 0,
            reservation: None,
        },
    }
}

/// The pieces with RAM, and the text.
#[tactic(auto, unfolding(sq_tagged::specs::Views::layout_of))]
fn scene(pieces: Vec<Piece>, text: Text, start: &Start<'_>) -> Scene
    ensures layout { layout_of result.setting ≡ record { pieces = pieces.items; base = start.now.base; size = start.now.size } }
    ensures text { result.text ≡ text }
{
    let setting = Setting {
        pieces,
        base: start.base,
        size: start.size,
        lo: text.lo(),
        hi: text.end(),
    };
    Scene { setting, text }
}

/// A watch of a file that is laid out, at a start that is not bad.
fn watch(
    alloc: Global,
    laid: Laid,
    text: Text,
    entry: u32,
    start: &Start<'_>,
) -> Result<Watch, Memory>
    requires fits { StartFits start.now.base start.now.size }
    requires room { HasRoom (start_of start.now) }
    ensures layout { IfOk result (λ watch. watch_layout watch ≡ record { pieces = laid.pieces.items; base = start.now.base; size = start.now.size }) }
    ensures text { IfOk result (λ watch. watch_text watch ≡ text) }
    ensures state { IfOk result (λ watch. watch_state watch ≡ state_at entry (stack_pointer (start_of start.now)) (over (map_cells cell_of (contents laid.memory)) (region_cell (ram_region (start_of start.now)))) (start_of start.now).input) }
{
    let pointer = start_pointer(start).unwrap();
    let mut memory = laid.memory;
    lay_ram(alloc, &mut memory, start, pointer)?;
    let input = Vec::from_slice(alloc, start.input)?;
    let hart = hart(memory, entry, pointer, input);
    Ok(Watch::from_parts(scene(laid.pieces, text, start), hart))
}

impl Watch {
    /// A watch of a file at its start. `text` is the text of the file.
    pub fn new(
        alloc: Global,
        elf: &Elf<'_>,
        relocs: &Relocs<'_>,
        text: Text,
        start: &Start<'_>,
    ) -> Result<Watch, WatchFault>
        requires fits { StartFits start.now.base start.now.size }
        requires same { relocs.now ≡ elf.now }
        requires text { text ≡ text_of elf.now }
        ensures layout { IfOk result (λ watch. (p : Program) → IsProgramOf elf.now p → watch_layout watch ≡ watched_layout elf.now p (start_of start.now)) }
        ensures text { IfOk result (λ watch. (p : Program) → IsProgramOf elf.now p → watch_text watch ≡ p.text) }
        ensures state { IfOk result (λ watch. (p : Program) → IsProgramOf elf.now p → watch_state watch ≡ watched_start (world_of elf.now p) p (start_of start.now)) }
        ensures valid { OnOk result ((p : Program) → IsProgramOf elf.now p → ¬ IsBadStart (extents (world_of elf.now p)) (start_of start.now)) }
        ensures bad { result ≡ Err WatchFault.BadStart → (p : Program) → IsProgramOf elf.now p → IsBadStart (extents (world_of elf.now p)) (start_of start.now) }
    {
        let laid = lay_out(alloc, relocs, elf.bytes())?;
        let extents = extents(alloc, &laid.pieces)?;
        if is_bad_start(start, &extents) {
            return Err(WatchFault::BadStart);
        }
        let watch = watch(alloc, laid, text, elf.entry(), start)?;
        Ok(watch)
    }
}
