//! Vectors with room, which is what of their capacity a graph counts on.

ghost use Rattle.std.specs.Prelude.{◌≡◌, ◌+◌, ◌≤◌, ◌<◌, ◌^◌, IfOk, IfErr, vec_len, vec_capacity, max, length};

use std::alloc::{AllocError, Global};

/// Makes the vector's room at least `more` than its length, and returns the room.
pub(crate) fn reserve<T>(items: &mut Vec<T>, room: u32, more: u32) -> Result<u32, AllocError>
    requires { vec_len items.old + more < 2 ^ 32 }
    ensures items { items.new.items ≡ items.old.items }
    ensures ok { IfOk result (λ r. r ≡ max room (vec_len items.old + more)) }
    ensures capacity { vec_capacity items.old ≤ vec_capacity items.new }
    ensures room { IfOk result (λ r. room ≤ vec_capacity items.old → r ≤ vec_capacity items.new) }
{
    let wanted = items.len() as u32 + more;
    if wanted <= room {
        return Ok(room);
    }
    items.reserve(more as usize)?;
    Ok(wanted)
}

/// A copy of the items in a vector with so much room.
pub(crate) fn copy<T: Copy>(alloc: Global, items: &[T], room: u32) -> Result<Vec<T>, AllocError>
    ensures items { IfOk result (λ copy. copy.items ≡ items.now) }
    ensures room { IfOk result (λ copy. room ≤ vec_capacity copy) }
{
    let mut copy = Vec::with_capacity(alloc, room as usize)?;
    copy.extend_from_slice(items)?;
    Ok(copy)
}
