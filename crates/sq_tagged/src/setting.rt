//! What a run never changes.

ghost use Rattle.std.specs.Prelude.{◌≡◌, ◌+◌, ◌<◌, ◌≤◌, ◌^◌, true, IsTrue};
ghost use Rattle.std.specs.List.{list_any};
ghost use Rattle.sq_system.specs.World.{PF_X, is_in, is_in_with, is_in_ram, is_executable, is_writable, are_all, is_range};
ghost use Rattle.sq_machine.specs.Ranges.{meets_ram};
ghost use Rattle.law_follow.specs.Settings.{is_in_text, meets_text, may_store};
ghost use Rattle.sq_tagged.specs.Views.{layout_of, setting_of};

use sq_system::Piece;

const PF_EXECUTE: u32 = 1;

const PF_WRITE: u32 = 2;

/// The first number that is no address.
const END: u64 = 1 << 32;

/// The pieces of a file, RAM (`size` bytes from `base` on), and the text from `lo` up to, without, `hi`.
#[derive(Debug, Drop)]
pub struct Setting {
    pub pieces: Vec<Piece>,
    pub base: u32,
    pub size: u32,
    pub lo: u32,
    pub hi: u64,
}

impl Setting {
    /// Whether the byte at `x` is in text.
    #[tactic(auto, unfolding(crate::specs::Views::setting_of))]
    pub fn is_in_text(&self, x: u32) -> bool
        ensures text { result ≡ is_in_text (setting_of self.now) x }
        ensures code { result ≡ (setting_of self.now).is_code x }
    {
        self.lo <= x && u64::from(x) < self.hi
    }

    /// Whether one of the n bytes from `x` on is in text. A range that passes the last address meets nothing.
    #[tactic(auto, unfolding(crate::specs::Views::setting_of))]
    pub fn meets_text(&self, x: u32, n: u32) -> bool
        ensures { result ≡ meets_text (setting_of self.now) x n }
    {
        let end = u64::from(x) + u64::from(n);
        end <= END && u64::from(self.lo.max(x)) < self.hi.min(end)
    }

    /// Whether the byte at `x` is in RAM.
    #[tactic(auto, unfolding(crate::specs::Views::layout_of))]
    fn is_in_ram(&self, x: u32) -> bool
        ensures { result ≡ is_in_ram (layout_of self.now) x }
    {
        self.base <= x && u64::from(x) < u64::from(self.base) + u64::from(self.size)
    }

    /// Whether the byte at `x` is in a piece.
    #[tactic(auto, unfolding(crate::specs::Views::layout_of))]
    fn is_in_piece(&self, x: u32) -> bool
        ensures { result ≡ list_any (is_in x) (layout_of self.now).pieces }
    {
        self.pieces.iter().any(|piece| piece.contains(x))
    }

    /// Whether it is in a piece with the permission.
    #[tactic(auto, unfolding(crate::specs::Views::layout_of))]
    fn is_allowed(&self, permission: u32, x: u32) -> bool
        ensures { result ≡ list_any (is_in_with permission x) (layout_of self.now).pieces }
    {
        self.pieces.iter().any(|piece| piece.allows(permission, x))
    }

    /// Whether the byte at `x` is executable.
    #[tactic(auto, unfolding(sq_system::specs::World::is_executable))]
    pub fn is_executable(&self, x: u32) -> bool
        ensures { result ≡ is_executable (layout_of self.now) x }
    {
        self.is_allowed(PF_EXECUTE, x)
    }

    /// Whether the byte at `x` is writable.
    #[tactic(auto, unfolding(sq_system::specs::World::is_writable))]
    fn is_writable(&self, x: u32) -> bool
        ensures { result ≡ is_writable (layout_of self.now) x }
    {
        if self.is_in_piece(x) {
            self.is_allowed(PF_WRITE, x)
        } else {
            self.is_in_ram(x)
        }
    }

    /// Whether one of the n bytes from `x` on is in a piece.
    #[tactic(auto, unfolding(crate::specs::Views::layout_of))]
    fn meets_piece(&self, x: u32, n: u32) -> bool
        ensures { result ≡ list_any (meets_ram x n) (layout_of self.now).pieces }
    {
        let end = u64::from(x) + u64::from(n);
        self.pieces.iter().any(|piece| piece.extent.meets(x, end))
    }

    /// Whether the n bytes from `x` on are in RAM and in no piece: then they are writable, and most stores go there.
    #[tactic(auto, using(crate::proofs::BareRam::bare_writable), unfolding(crate::specs::Views::layout_of))]
    fn are_in_bare_ram(&self, x: u32, n: u32) -> bool
        ensures { result ≡ true → are_all (is_writable (layout_of self.now)) x n ≡ true }
    {
        self.base <= x
            && u64::from(x) + u64::from(n) <= u64::from(self.base) + u64::from(self.size)
            && !self.meets_piece(x, n)
    }

    /// Whether each of the n bytes from `x` on is writable.
    fn is_each_writable(&self, x: u32, n: u32) -> bool
        requires { x + n ≤ 2 ^ 32 }
        ensures { result ≡ are_all (is_writable (layout_of self.now)) x n }
    {
        for i in 0..n {
            if !self.is_writable(x + i) {
                return false;
            }
        }
        true
    }

    /// Whether the n bytes from `x` on are writable.
    pub fn are_writable(&self, x: u32, n: u32) -> bool
        ensures value { result ≡ is_range (is_writable (layout_of self.now)) x n }
        ensures end { IsTrue result → x + n ≤ 2 ^ 32 }
    {
        if u64::from(x) + u64::from(n) > END {
            return false;
        }
        self.are_in_bare_ram(x, n) || self.is_each_writable(x, n)
    }

    /// Whether a store of so many bytes may be made at an address.
    #[tactic(auto, unfolding(crate::specs::Views::setting_of))]
    pub fn may_store(&self, x: u32, width: u32) -> bool
        requires { 0 < width }
        ensures value { result ≡ may_store (setting_of self.now) x width }
        ensures end { IsTrue result → x + width ≤ 2 ^ 32 }
    {
        x % width == 0 && self.are_writable(x, width)
    }
}
