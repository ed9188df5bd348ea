//! Ranges: `size` bytes from a place on. They do not wrap.

ghost use Rattle.std.specs.Prelude.{◌≡◌};
ghost use Rattle.std.specs.Option.{option_map};
ghost use Rattle.sq_elf.specs.Ranges.{leaves, meets, lies_in, bytes_at};

/// Whether the range leaves the file. An empty one never does, whatever its offset.
pub fn leaves(bytes: &[u8], offset: u32, size: u32) -> bool
    ensures { result ≡ leaves bytes.now offset size }
{
    size > 0 && (bytes.len() as u64) < u64::from(offset) + u64::from(size)
}

/// Whether two ranges have a byte in common.
pub fn meets(a: u64, size: u64, b: u64, other: u64) -> bool
    ensures { result ≡ meets a size b other }
{
    if a < b {
        other > 0 && b - a < size
    } else {
        size > 0 && a - b < other
    }
}

/// Whether the first range lies wholly in the second.
pub fn lies_in(a: u32, size: u32, b: u32, other: u32) -> bool
    ensures { result ≡ lies_in a size b other }
{
    b <= a && u64::from(a) + u64::from(size) <= u64::from(b) + u64::from(other)
}

/// The bytes of the range, or None where it leaves the file.
#[tactic(auto, unfolding(crate::specs::Ranges::bytes_at))]
pub fn bytes_at(bytes: &[u8], offset: u32, size: u32) -> Option<&[u8]>
    ensures { option_map (λ part. part.now) result ≡ bytes_at bytes.now offset size }
{
    if leaves(bytes, offset, size) {
        return None;
    }
    if size == 0 {
        return Some(&[]);
    }
    let start = offset as usize;
    Some(&bytes[start..start + size as usize])
}
