//! Numbers in memory.

ghost use Rattle.std.specs.Prelude.{◌≡◌, ◌+◌, ◌*◌, ◌<◌, ◌≤◌, ◌^◌, length, IfSome, IfOk, IsTrue};
ghost use Rattle.sq_memory.specs.Cells.{is_in_memory};
ghost use Rattle.sq_machine.specs.State.{aligned_number, number_at, bytes_at, with_bytes};
ghost use Rattle.sq_system.specs.World.{is_range};
ghost use Rattle.sq_isa.specs.Accesses.{sign_extended, extended, is_aligned};
ghost use Rattle.sq_machine.specs.Rows.{loaded};
ghost use Rattle.sq_machine.specs.Views.{state_of};

use crate::hart::Hart;
use crate::permissions::passes_end;
use sq_isa::LoadKind;
use sq_num::{Bytes, Memory};

impl Hart {
    /// The byte at an address, where one is in memory.
    #[tactic(auto, unfolding(crate::specs::Views::state_of))]
    fn cell(&mut self, x: u32) -> Option<u8>
        ensures value { result ≡ (state_of self.old).memory x }
        ensures state { state_of self.new ≡ state_of self.old }
    {
        self.memory.get(x)
    }

    /// The byte at an address.
    #[tactic(auto, unfolding(crate::specs::State::number_at))]
    fn byte(&mut self, x: u32) -> Option<u32>
        ensures value { result ≡ aligned_number (state_of self.old).memory x 1 }
        ensures range { IfSome result (λ v. v < 256) }
        ensures state { state_of self.new ≡ state_of self.old }
    {
        let byte = self.cell(x)?;
        Some(u32::from(byte))
    }

    /// The number of two bytes at an address that is a multiple of 2.
    #[tactic(auto, unfolding(crate::specs::State::number_at))]
    fn half(&mut self, x: u32) -> Option<u32>
        ensures value { result ≡ aligned_number (state_of self.old).memory x 2 }
        ensures range { IfSome result (λ v. v < 65536) }
        ensures state { state_of self.new ≡ state_of self.old }
    {
        if x % 2 != 0 {
            return None;
        }
        let low = self.cell(x)?;
        let high = self.cell(x + 1)?;
        Some(u32::from(low) + 256 * u32::from(high))
    }

    /// The number of four bytes at an address that is a multiple of 4.
    #[tactic(auto, unfolding(crate::specs::State::number_at))]
    pub fn word(&mut self, x: u32) -> Option<u32>
        ensures value { result ≡ aligned_number (state_of self.old).memory x 4 }
        ensures state { state_of self.new ≡ state_of self.old }
    {
        if x % 4 != 0 {
            return None;
        }
        let first = self.cell(x)?;
        let second = self.cell(x + 1)?;
        let third = self.cell(x + 2)?;
        let fourth = self.cell(x + 3)?;
        Some(joined(first, second, third, fourth))
    }

    /// What a load at an address gives.
    pub fn loaded(&mut self, kind: LoadKind, x: u32) -> Option<u32>
        ensures value { result ≡ loaded kind (state_of self.old).memory x }
        ensures state { state_of self.new ≡ state_of self.old }
    {
        match kind {
            LoadKind::Lb => self.byte(x).map(extend_byte),
            LoadKind::Lh => self.half(x).map(extend_half),
            LoadKind::Lw => self.word(x),
            LoadKind::Lbu => self.byte(x),
            LoadKind::Lhu => self.half(x),
        }
    }

    /// Whether a byte is in memory.
    fn is_in_memory(&mut self, x: u32) -> bool
        ensures value { result ≡ is_in_memory (state_of self.old).memory x }
        ensures state { state_of self.new ≡ state_of self.old }
    {
        self.cell(x).is_some()
    }

    /// Whether the n bytes from `x` on are in memory.
    pub fn are_in_memory(&mut self, x: u32, n: u32) -> bool
        ensures value { result ≡ is_range (is_in_memory (state_of self.old).memory) x n }
        ensures end { IsTrue result → x + n ≤ 2 ^ 32 }
        ensures state { state_of self.new ≡ state_of self.old }
    {
        if passes_end(x, n) {
            return false;
        }
        for i in 0..n {
            if !self.is_in_memory(x + i) {
                return false;
            }
        }
        true
    }

    /// The n bytes from `x` on, or none where they are not all in memory.
    #[tactic(auto, unfolding(crate::specs::Views::state_of))]
    pub fn bytes(&mut self, x: u32, n: u32) -> Result<Bytes, Memory>
        requires { x + n ≤ 2 ^ 32 }
        ensures value { IfOk result (λ bytes. bytes ≡ bytes_at (state_of self.old).memory x n) }
        ensures state { state_of self.new ≡ state_of self.old }
    {
        let alloc = *self.input.allocator();
        match self.memory.get_all(alloc, x, n)? {
            Some(bytes) => Ok(Bytes::from_vec(bytes)),
            None => Ok(Bytes::new(alloc)),
        }
    }

    /// Writes bytes from an address on.
    pub fn put_bytes(&mut self, x: u32, bytes: &[u8])
        requires { x + length bytes.now ≤ 2 ^ 32 }
        ensures { state_of self.new ≡ with_bytes x bytes.now (state_of self.old) }
    {
        self.memory.put_all(x, bytes);
    }
}

/// The number of four bytes, the least first.
fn joined(first: u8, second: u8, third: u8, fourth: u8) -> u32
    ensures { result ≡ first + 256 * (second + 256 * (third + 256 * fourth)) }
{
    let upper = 256 * u32::from(fourth) + u32::from(third);
    (upper * 256 + u32::from(second)) * 256 + u32::from(first)
}

/// The sign extension of a byte.
fn extend_byte(v: u32) -> u32
    requires { v < 256 }
    ensures { result ≡ sign_extended 8 v }
{
    if v < 0x80 { v } else { v + 0xffff_ff00 }
}

/// The sign extension of two bytes.
fn extend_half(v: u32) -> u32
    requires { v < 65536 }
    ensures { result ≡ sign_extended 16 v }
{
    if v < 0x8000 { v } else { v + 0xffff_0000 }
}
