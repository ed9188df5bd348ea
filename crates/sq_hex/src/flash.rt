//! What flash holds of a file.

ghost use Rattle.std.specs.Prelude.{◌≡◌, ◌+◌, ◌≤◌, ◌^◌, ◌↔◌, ◌++◌, ℕ, List, IfOk, IsTrue, true, false, length, flat_map};
ghost use Rattle.sq_elf.specs.Memory.{file_bytes_of};
ghost use Rattle.sq_hex.specs.Flash.{placed, AreLoads, ranges_of, bytes_of};
ghost use Rattle.sq_hex.specs.States.{AreBounded};

use sq_elf::{Elf, Segment};
use sq_num::Memory;
use std::alloc::Global;
use std::collections::BTreeMap;
use std::collections::btree_map::Iter;

/// The segments of a file, by load address.
pub fn loads_of(alloc: Global, elf: &Elf) -> Result<Vec<Segment>, Memory>
    ensures { IfOk result (λ loads. AreLoads elf.now loads.items) }
{
    let mut loads = Vec::from_slice(alloc, elf.segments())?;
    loads.sort_by_key(|segment| segment.load_address)?;
    Ok(loads)
}

/// The file bytes of a segment.
#[tactic(auto, unfolding(sq_elf::specs::Ranges::bytes_at))]
pub fn file_bytes(file: &[u8], segment: Segment) -> &[u8]
    ensures value { result.now ≡ file_bytes_of file.now segment }
    ensures short { length result.now ≤ segment.filesz }
{
    let start = segment.offset as usize;
    match file.get(start..start + segment.filesz as usize) {
        Some(part) => part,
        None => &[],
    }
}

/// Whether the next entries are these bytes, one after another from the address on. They are passed.
fn next_are(entries: &mut Iter<'_, u32, u8>, address: u32, bytes: &[u8]) -> bool
    requires { address + length bytes.now ≤ 2 ^ 32 }
    ensures same { result ≡ true → entries.old ≡ placed address bytes.now ++ entries.new }
    ensures other { result ≡ false → (rest : List (ℕ × ℕ)) → entries.old ≡ placed address bytes.now ++ rest → ⊥ }
{
    for (index, byte) in bytes.iter().enumerate() {
        match entries.next() {
            Some((at, found)) => {
                if *at != address + index as u32 || *found != *byte {
                    return false;
                }
            }
            None => return false,
        }
    }
    true
}

/// Whether the map is exactly what is loaded of these segments.
pub fn holds_exactly(map: &BTreeMap<u32, u8>, file: &[u8], loads: &[Segment]) -> bool
    requires { AreBounded loads.now }
    ensures { IsTrue result ↔ (map.now.entries ≡ bytes_of (ranges_of file.now loads.now)) }
{
    let mut entries = map.iter();
    for segment in loads {
        if !next_are(
            &mut entries,
            segment.load_address,
            file_bytes(file, *segment),
        ) {
            return false;
        }
    }
    entries.next().is_none()
}
