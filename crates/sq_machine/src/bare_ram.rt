//! The part of RAM to which most stores go.

ghost use Rattle.std.specs.Prelude.{◌≡◌, ◌≤◌};
ghost use Rattle.std.specs.List.{list_any};
ghost use Rattle.sq_machine.specs.Ranges.{meets_ram, IsBareRam};

use sq_system::Piece;

/// `size` bytes of RAM from `base` on, of which none is in a piece.
#[derive(Clone, Copy, Debug)]
pub struct BareRam {
    pub base: u32,
    pub size: u32,
}

/// Whether one of the `size` bytes from `base` on is in a piece.
fn meets_ram(pieces: &[Piece], base: u32, size: u32) -> bool
    ensures { result ≡ list_any (meets_ram base size) pieces.now }
{
    let end = u64::from(base) + u64::from(size);
    pieces.iter().any(|piece| piece.extent.meets(base, end))
}

/// The least start of a piece that isn't below `low`, or `end`.
fn next_start(pieces: &[Piece], low: u32, end: u64) -> u64
    ensures { result ≤ end }
{
    let mut next = end;
    for piece in pieces {
        let start = u64::from(piece.extent.address);
        if u64::from(low) <= start && start < next {
            next = start;
        }
    }
    next
}

/// The bytes of RAM from `low` up to the next piece, or none.
fn bare_from(pieces: &[Piece], low: u32, base: u32, size: u32) -> BareRam
    ensures { IsBareRam pieces.now base size result }
{
    let end = u64::from(base) + u64::from(size);
    let next = next_start(pieces, low, end);
    if low < base || next <= u64::from(low) {
        return BareRam { base, size: 0 };
    }
    let length = (next - u64::from(low)) as u32;
    if meets_ram(pieces, low, length) {
        return BareRam { base, size: 0 };
    }
    BareRam {
        base: low,
        size: length,
    }
}

/// The largest part of RAM that lies between pieces.
pub fn bare_ram(pieces: &[Piece], base: u32, size: u32) -> BareRam
    ensures { IsBareRam pieces.now base size result }
{
    let mut bare = bare_from(pieces, base, base, size);
    for piece in pieces {
        let low = piece.extent.address.saturating_add(piece.extent.length);
        let part = bare_from(pieces, low, base, size);
        if part.size > bare.size {
            bare = part;
        }
    }
    bare
}
