//! What a text of Intel HEX means.

ghost use Rattle.std.specs.Prelude.{◌≡◌, ◌<◌, ◌^◌, ◌↔◌, length, IfOk, IsTrue};
ghost use Rattle.std.specs.BTreeMap.{btree_map_len};
ghost use Rattle.sq_hex.specs.Flash.{IsFlashOf};
ghost use Rattle.sq_hex.specs.Meaning.{byte_at};
ghost use Rattle.sq_hex.specs.States.{meaning};

use crate::flash::{holds_exactly, loads_of};
use sq_elf::Elf;
use sq_num::Memory;
use std::alloc::Global;
use std::collections::BTreeMap;
use std::marker::Model;

/// A finite map from addresses to bytes, and a start. Contracts see it as a `HexMeaning`.
#[derive(Drop)]
pub struct HexImage {
    bytes: BTreeMap<u32, u8>,
    start: Option<u32>,
}

impl Model for HexImage {
    ghost use Rattle.std.specs.Prelude.{◌<◌, ◌^◌, length};
    ghost use Rattle.sq_hex.specs.Meaning.{HexMeaning};
    ghost use Rattle.sq_hex.specs.States.{meaning};

    ghost Value = { HexMeaning };

    ghost view = { λ image. meaning image.bytes.entries image.start };

    ghost invariant = { λ image. length image.bytes.entries < 2 ^ 32 };
}

impl HexImage {
    pub(crate) fn new(bytes: BTreeMap<u32, u8>, start: Option<u32>) -> HexImage
        requires { btree_map_len bytes < 2 ^ 32 }
        ensures { result ≡ meaning bytes.entries start }
    {
        HexImage { bytes, start }
    }

    /// The byte at the address, or None where it has none.
    pub fn byte(&self, address: u32) -> Option<u8>
        ensures { result ≡ byte_at self.now.bytes address }
    {
        self.bytes.get(&address).copied()
    }

    /// The start, where there is one.
    pub fn start(&self) -> Option<u32>
        ensures { result ≡ self.now.start }
    {
        self.start
    }

    /// How many addresses have a byte.
    pub fn len(&self) -> u32
        ensures { result ≡ length self.now.bytes }
    {
        self.bytes.len() as u32
    }

    /// Whether this is exactly the flash and the entry of the file.
    pub fn is_flash_of(&self, alloc: Global, elf: &Elf) -> Result<bool, Memory>
        ensures { IfOk result (λ same. IsTrue same ↔ IsFlashOf elf.now self.now) }
    {
        let file = elf.bytes();
        let loads = loads_of(alloc, elf)?;
        let same = holds_exactly(&self.bytes, file, &loads);
        Ok(same && starts_at(self.start, elf.entry()))
    }
}

fn starts_at(start: Option<u32>, entry: u32) -> bool
    ensures { IsTrue result ↔ (start ≡ Some entry) }
{
    match start {
        Some(address) => address == entry,
        None => false,
    }
}
