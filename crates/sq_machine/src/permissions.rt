//! Which bytes may be executed and written.

ghost use Rattle.std.specs.Prelude.{◌≡◌, ◌↔◌, ◌+◌, ◌<◌, ◌≤◌, ◌^◌, true, position, IsTrue};
ghost use Rattle.std.specs.List.{list_any};
ghost use Rattle.sq_system.specs.World.{PF_X, PF_W, is_in, is_in_with, is_in_ram, is_executable, is_writable, are_all, is_range};
ghost use Rattle.sq_machine.specs.Ranges.{allows_all};
ghost use Rattle.sq_machine.specs.Views.{world_of};

use crate::world::World;
use sq_system::Piece;

const PF_EXECUTE: u32 = 1;

const PF_WRITE: u32 = 2;

/// Whether a range passes the last address.
pub fn passes_end(x: u32, n: u32) -> bool
    ensures { IsTrue result ↔ (2 ^ 32 < x + n) }
{
    u64::from(x) + u64::from(n) > 1 << 32
}

/// Whether a piece has the permission and holds the n bytes from `x` on.
fn allows_all(piece: &Piece, permission: u32, x: u32, n: u32) -> bool
    ensures { result ≡ allows_all permission x n piece.now }
{
    let end = u64::from(piece.extent.address) + u64::from(piece.extent.length);
    piece.extent.address <= x && u64::from(x) + u64::from(n) <= end && piece.flags & permission != 0
}

/// The place of the first piece that does.
fn first_that_allows(pieces: &[Piece], permission: u32, x: u32, n: u32) -> Option<usize>
    ensures { result ≡ position (allows_all permission x n) pieces.now }
{
    pieces
        .iter()
        .position(|piece| allows_all(piece, permission, x, n))
}

impl World {
    /// Whether the byte at `x` is in RAM.
    #[tactic(auto, unfolding(crate::specs::Views::world_of))]
    fn is_in_ram(&self, x: u32) -> bool
        ensures { result ≡ is_in_ram (world_of self.now) x }
    {
        self.base <= x && u64::from(x) < u64::from(self.base) + u64::from(self.size)
    }

    /// Whether the byte at `x` is in a piece.
    #[tactic(auto, unfolding(crate::specs::Views::world_of))]
    fn is_in_piece(&self, x: u32) -> bool
        ensures { result ≡ list_any (is_in x) (world_of self.now).pieces }
    {
        self.pieces.iter().any(|piece| piece.contains(x))
    }

    /// Whether it is in a piece with the permission.
    #[tactic(auto, unfolding(crate::specs::Views::world_of))]
    fn is_allowed(&self, permission: u32, x: u32) -> bool
        ensures { result ≡ list_any (is_in_with permission x) (world_of self.now).pieces }
    {
        self.pieces.iter().any(|piece| piece.allows(permission, x))
    }

    /// Whether the byte at `x` is executable.
    #[tactic(auto, unfolding(sq_system::specs::World::is_executable))]
    fn is_executable(&self, x: u32) -> bool
        ensures { result ≡ is_executable (world_of self.now) x }
    {
        self.is_allowed(PF_EXECUTE, x)
    }

    /// Whether the byte at `x` is writable.
    #[tactic(auto, unfolding(sq_system::specs::World::is_writable))]
    fn is_writable(&self, x: u32) -> bool
        ensures { result ≡ is_writable (world_of self.now) x }
    {
        if self.is_in_piece(x) {
            self.is_allowed(PF_WRITE, x)
        } else {
            self.is_in_ram(x)
        }
    }

    /// Whether the piece at a place has the permission and holds the n bytes from `x` on.
    #[tactic(auto, unfolding(crate::specs::Views::world_of))]
    fn piece_allows(&self, place: usize, permission: u32, x: u32, n: u32) -> bool
        ensures { result ≡ true → list_any (allows_all permission x n) (world_of self.now).pieces ≡ true }
    {
        match self.pieces.get(place) {
            Some(piece) => allows_all(piece, permission, x, n),
            None => false,
        }
    }

    /// Whether some piece does. The one at `last` is looked at first; `last` becomes the place of the one
    /// that serves.
    #[tactic(auto, unfolding(crate::specs::Views::world_of))]
    fn some_piece_allows(&self, permission: u32, x: u32, n: u32, last: &mut usize) -> bool
        ensures { result ≡ list_any (allows_all permission x n) (world_of self.now).pieces }
    {
        if self.piece_allows(*last, permission, x, n) {
            return true;
        }
        match first_that_allows(&self.pieces, permission, x, n) {
            Some(place) => {
                *last = place;
                true
            }
            None => false,
        }
    }

    /// Whether the n bytes from `x` on are in the part of RAM that is known to be bare.
    fn are_in_bare_ram(&self, x: u32, n: u32) -> bool
        ensures { result ≡ true → are_all (is_writable (world_of self.now)) x n ≡ true }
    {
        self.bare.base <= x
            && u64::from(x) + u64::from(n) <= u64::from(self.bare.base) + u64::from(self.bare.size)
    }

    /// Whether each of the n bytes from `x` on is executable.
    fn is_each_executable(&self, x: u32, n: u32) -> bool
        requires { x + n ≤ 2 ^ 32 }
        ensures { result ≡ are_all (is_executable (world_of self.now)) x n }
    {
        for i in 0..n {
            if !self.is_executable(x + i) {
                return false;
            }
        }
        true
    }

    /// Whether each of the n bytes from `x` on is writable.
    fn is_each_writable(&self, x: u32, n: u32) -> bool
        requires { x + n ≤ 2 ^ 32 }
        ensures { result ≡ are_all (is_writable (world_of self.now)) x n }
    {
        for i in 0..n {
            if !self.is_writable(x + i) {
                return false;
            }
        }
        true
    }

    /// Whether the n bytes from `x` on are executable. `last` is the place of the piece that served last.
    #[tactic(auto, using(crate::proofs::Pieces::executable_in_one))]
    pub fn are_executable(&self, x: u32, n: u32, last: &mut usize) -> bool
        ensures value { result ≡ is_range (is_executable (world_of self.now)) x n }
        ensures end { IsTrue result → x + n ≤ 2 ^ 32 }
    {
        if passes_end(x, n) {
            return false;
        }
        self.some_piece_allows(PF_EXECUTE, x, n, last) || self.is_each_executable(x, n)
    }

    /// Whether the n bytes from `x` on are writable. `last` is the place of the piece that served last.
    #[tactic(auto, using(crate::proofs::Pieces::writable_in_one))]
    pub fn are_writable(&self, x: u32, n: u32, last: &mut usize) -> bool
        ensures value { result ≡ is_range (is_writable (world_of self.now)) x n }
        ensures end { IsTrue result → x + n ≤ 2 ^ 32 }
    {
        if passes_end(x, n) {
            return false;
        }
        self.are_in_bare_ram(x, n)
            || self.some_piece_allows(PF_WRITE, x, n, last)
            || self.is_each_writable(x, n)
    }
}
