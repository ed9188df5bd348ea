//! What a run never changes.

ghost use Rattle.sq_machine.specs.Ranges.{IsBareRam};

use crate::bare_ram::BareRam;
use sq_system::Piece;

/// The pieces of a file, and RAM: `size` bytes from `base` on.
#[derive(Debug, Drop)]
pub struct World {
    pub pieces: Vec<Piece>,
    pub base: u32,
    pub size: u32,
    /// A part of RAM that no piece meets: a store to it needs no look at the pieces.
    pub bare: BareRam,
    ghost is_bare: { IsBareRam pieces.items base size bare },
}

/// A piece with the bytes that a file has for it, behind which zeros stand.
#[derive(Clone, Copy, Debug)]
pub struct LoadedPiece<'a> {
    pub piece: Piece,
    pub bytes: &'a [u8],
}
