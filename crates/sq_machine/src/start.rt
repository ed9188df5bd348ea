//! How a machine starts.

ghost use Rattle.std.specs.Prelude.{◌≡◌, ◌↔◌, ◌≤◌, map, false, Any, IsTrue, IfOk};
ghost use Rattle.std.specs.List.{list_any};
ghost use Rattle.sq_memory.specs.Contents.{region_of, regions_of};
ghost use Rattle.sq_system.specs.Starts.{start_of, StartFits, HasRoom, Meets, IsBadStart};
ghost use Rattle.sq_machine.specs.Starts.{seen, piece_of, extent_of, bytes_of, piece_region, regions_at_start, world_at_start, state_at, state_at_start};
ghost use Rattle.sq_machine.specs.Views.{state_of, world_of, machine_state, machine_world};

use crate::bare_ram::bare_ram;
use crate::hart::Hart;
use crate::machine::Machine;
use crate::world::{LoadedPiece, World};
use sq_isa::Reg;
use sq_memory::contents::{Contents, Region};
use sq_num::Memory;
use sq_system::{Piece, Start, ram_at_start, start_pointer};
use std::alloc::Global;

/// Why there is no new machine.
#[derive(Clone, Copy, Debug, PartialEq, Eq)]
pub enum NewFault {
    /// The stack pointer would be below the base, or a piece meets the argument area.
    BadStart,
    /// There is no memory for it.
    Memory,
}

/// The number of sp.
const STACK_POINTER: u32 = 2;

/// Whether the stack pointer would be below the base, or a piece meets the argument area.
fn is_bad(pieces: &[LoadedPiece], start: &Start) -> bool
    requires { StartFits start.now.base start.now.size }
    ensures bad { IsTrue result ↔ IsBadStart (map extent_of (map seen pieces.now)) (start_of start.now) }
    ensures room { result ≡ false → HasRoom (start_of start.now) }
{
    let end = u64::from(start.base) + u64::from(start.size);
    match start_pointer(start) {
        None => true,
        Some(pointer) => meets_any(pieces, pointer, end),
    }
}

/// Whether a byte from `from` up to, without, `end` is in a piece.
fn meets_any(pieces: &[LoadedPiece], from: u32, end: u64) -> bool
    ensures { IsTrue result ↔ Any (λ loaded. Meets from end (extent_of (seen loaded))) pieces.now }
{
    pieces
        .iter()
        .any(|loaded| loaded.piece.extent.meets(from, end))
}

/// The bytes of a piece.
fn piece_bytes(alloc: Global, loaded: &LoadedPiece) -> Result<Vec<u8>, Memory>
    ensures { IfOk result (λ bytes. bytes.items ≡ bytes_of (seen loaded.now)) }
{
    let length = loaded.piece.extent.length as usize;
    if length < loaded.bytes.len() {
        return Ok(Vec::from_slice(alloc, &loaded.bytes[..length])?);
    }
    let mut bytes = Vec::from_slice(alloc, loaded.bytes)?;
    let zeros = vec![in alloc; 0u8; length - loaded.bytes.len()]?;
    bytes.extend_from_slice(zeros.as_slice())?;
    Ok(bytes)
}

/// The region of a piece.
fn region(alloc: Global, loaded: &LoadedPiece) -> Result<Region<u8>, Memory>
    ensures { IfOk result (λ region. region_of region ≡ piece_region (seen loaded.now)) }
{
    let bytes = piece_bytes(alloc, loaded)?;
    Ok(Region::new(loaded.piece.extent.address, bytes))
}

/// The regions of the pieces.
fn piece_regions(alloc: Global, pieces: &[LoadedPiece]) -> Result<Vec<Region<u8>>, Memory>
    ensures { IfOk result (λ regions. regions_of regions.items ≡ map piece_region (map seen pieces.now)) }
{
    let mut regions = Vec::new(alloc);
    for loaded in pieces {
        let region = region(alloc, loaded)?;
        regions.push(region)?;
    }
    Ok(regions)
}

/// Memory as a run starts with it.
fn memory(alloc: Global, pieces: &[LoadedPiece], start: &Start) -> Result<Contents<u8>, Memory>
    requires fits { StartFits start.now.base start.now.size }
    requires room { HasRoom (start_of start.now) }
    ensures { IfOk result (λ memory. memory ≡ regions_at_start (map seen pieces.now) (start_of start.now)) }
{
    let mut regions = piece_regions(alloc, pieces)?;
    let ram = ram_at_start(alloc, start)?;
    regions.push(Region::new(start.base, ram))?;
    Ok(Contents::new(regions))
}

/// The pieces without their bytes.
fn kept_pieces(alloc: Global, pieces: &[LoadedPiece]) -> Result<Vec<Piece>, Memory>
    ensures { IfOk result (λ kept. kept.items ≡ map piece_of (map seen pieces.now)) }
{
    let mut kept = Vec::new(alloc);
    for loaded in pieces {
        kept.push(loaded.piece)?;
    }
    Ok(kept)
}

/// The pieces and RAM.
#[tactic(auto, unfolding(crate::specs::Views::world_of))]
fn world(alloc: Global, pieces: &[LoadedPiece], start: &Start) -> Result<World, Memory>
    ensures { IfOk result (λ world. world_of world ≡ world_at_start (map seen pieces.now) (start_of start.now)) }
{
    let kept = kept_pieces(alloc, pieces)?;
    let bare = bare_ram(&kept, start.base, start.size);
    Ok(World {
        pieces: kept,
        base: start.base,
        size: start.size,
        bare,
    })
}

/// A hart at an entry.
fn hart(memory: Contents<u8>, entry: u32, pointer: u32, input: Vec<u8>) -> Hart
    ensures { state_of result ≡ state_at entry memory pointer input.items }
{
    let mut hart = Hart {
        pc: entry,
        registers: [0; 32],
        memory,
        input,
        read: 0,
        reservation: None,
        code_piece: 0,
        data_piece: 0,
    };
    hart.set_register(Reg::from_low_bits(STACK_POINTER), pointer);
    hart
}

/// A machine at its start, which is not bad.
fn machine(
    alloc: Global,
    pieces: &[LoadedPiece],
    entry: u32,
    start: &Start,
) -> Result<Machine, Memory>
    requires fits { StartFits start.now.base start.now.size }
    requires room { HasRoom (start_of start.now) }
    ensures world { IfOk result (λ machine. machine_world machine ≡ world_at_start (map seen pieces.now) (start_of start.now)) }
    ensures state { IfOk result (λ machine. machine_state machine ≡ state_at_start entry (map seen pieces.now) (start_of start.now)) }
{
    let world = world(alloc, pieces, start)?;
    let memory = memory(alloc, pieces, start)?;
    let pointer = start_pointer(start).unwrap();
    let input = Vec::from_slice(alloc, start.input)?;
    Ok(Machine::from_parts(world, hart(memory, entry, pointer, input)))
}

impl Machine {
    /// A machine over the pieces of a file, at its entry.
    pub fn new(
        alloc: Global,
        pieces: &[LoadedPiece],
        entry: u32,
        start: &Start,
    ) -> Result<Machine, NewFault>
        requires { StartFits start.now.base start.now.size }
        ensures bad { (result ≡ Err NewFault.BadStart) ↔ IsBadStart (map extent_of (map seen pieces.now)) (start_of start.now) }
        ensures world { IfOk result (λ machine. machine_world machine ≡ world_at_start (map seen pieces.now) (start_of start.now)) }
        ensures state { IfOk result (λ machine. machine_state machine ≡ state_at_start entry (map seen pieces.now) (start_of start.now)) }
    {
        if is_bad(pieces, start) {
            return Err(NewFault::BadStart);
        }
        match machine(alloc, pieces, entry, start) {
            Ok(machine) => Ok(machine),
            Err(Memory) => Err(NewFault::Memory),
        }
    }
}
