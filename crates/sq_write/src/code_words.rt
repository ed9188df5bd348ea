//! The code words, which hold the new addresses of blocks.

ghost use Rattle.std.specs.Prelude.{◌≡◌, ℕ, ◌+◌, ◌≤◌, ◌%◌, ◌^◌, length, nat_eq, IfOk};
ghost use Rattle.std.specs.HashMap.{get};
ghost use Rattle.sq_reloc.specs.Outside.{word_start};
ghost use Rattle.sq_write.specs.Pieces.{set_word_at, set_byte, with_words};
ghost use Rattle.sq_write.specs.Standing.{IsPlaced};

use crate::placed::Placed;
use sq_num::Memory;
use std::alloc::Global;
use std::collections::HashMap;

/// What each code word is set to, under its address.
pub(crate) fn set_words(alloc: Global, placed: &Placed<'_>) -> Result<HashMap<u32, u32>, Memory>
    requires { IsPlaced placed.now }
    ensures { IfOk result (λ set. (x : ℕ) → get nat_eq set x ≡ set_word_at placed.now.g.now.graph placed.now.lo x) }
{
    let words = placed.g.code_words();
    let mut set = HashMap::new(alloc);
    // Of words at one address, which a graph doesn't have, the first would count.
    for k in (0..words.len()).rev() {
        set.insert(words[k].at, placed.address(words[k].block))?;
    }
    Ok(set)
}

/// The byte at an address, where these words are set.
fn set_byte(set: &HashMap<u32, u32>, at: u32, byte: u8) -> u8
    ensures { result ≡ set_byte (get nat_eq set.now (word_start at)) (at % 4) byte }
{
    match set.get(&(at - at % 4)) {
        Some(word) => word.to_le_bytes()[at as usize % 4],
        None => byte,
    }
}

/// Bytes that stand from an address on, with these words set.
pub(crate) fn with_words(
    alloc: Global,
    set: &HashMap<u32, u32>,
    address: u32,
    bytes: &[u8],
) -> Result<Vec<u8>, Memory>
    requires { address + length bytes.now ≤ 2 ^ 32 }
    ensures { IfOk result (λ new. new.items ≡ with_words (get nat_eq set.now) address bytes.now) }
{
    let mut new = Vec::with_capacity(alloc, bytes.len())?;
    for (place, byte) in bytes.iter().enumerate() {
        new.push(set_byte(set, address + place as u32, *byte))?;
    }
    Ok(new)
}
