//! Pieces of memory with their permissions.

ghost use Rattle.std.specs.Prelude.{◌≡◌};
ghost use Rattle.sq_system.specs.World.{is_in, is_in_with};

use crate::start::Extent;

/// A piece of a file in memory, with its permissions (p_flags of the System V gABI).
#[derive(Clone, Copy, Debug, PartialEq, Eq)]
pub struct Piece {
    pub extent: Extent,
    pub flags: u32,
}

impl Piece {
    /// Whether the byte at `x` is in the piece.
    pub fn contains(&self, x: u32) -> bool
        ensures { result ≡ is_in x self.now }
    {
        let end = u64::from(self.extent.address) + u64::from(self.extent.length);
        self.extent.address <= x && u64::from(x) < end
    }

    /// Whether it is, and the piece has the permission.
    pub fn allows(&self, permission: u32, x: u32) -> bool
        ensures { result ≡ is_in_with permission x self.now }
    {
        self.contains(x) && self.flags & permission != 0
    }
}
