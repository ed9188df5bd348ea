//! What instructions change beside registers: memory, the input and the reservation.

ghost use Rattle.std.specs.Prelude.{◌≡◌, ◌+◌, ◌≤◌, ◌^◌, ◌∷◌, [], length, map, option_map, IsTrue, OnOk};
ghost use Rattle.sq_isa.specs.Accesses.{is_reserved};
ghost use Rattle.sq_memory.specs.Cells.{is_in_memory, with_cells};
ghost use Rattle.sq_pages.specs.Pages.{AreReady};
ghost use Rattle.sq_system.specs.World.{is_range};
ghost use Rattle.law_follow.specs.Accesses.{aligned_cells, reserved, stored};
ghost use Rattle.law_follow.specs.Values.{Num};
ghost use Rattle.sq_tagged.specs.Views.{value_of, cell_of, cells_in, store_of};

use crate::values::{Cell, Value, WordCells};
use sq_num::Memory;
use sq_pages::Pages;

/// The first number that is no address.
const END: u64 = 1 << 32;

/// Memory, the whole input, of which the first `read` bytes were read, and the address that LR reserved.
#[derive(Drop)]
pub struct Store {
    pub memory: Pages<Cell>,
    pub input: Vec<u8>,
    pub read: usize,
    pub reservation: Option<u32>,
}

impl Store {
    /// The byte at an address, where one is in memory.
    #[tactic(auto, unfolding(crate::specs::Views::store_of))]
    fn cell(&self, x: u32) -> Option<Cell>
        ensures { option_map cell_of result ≡ (store_of self.now).memory x }
    {
        self.memory.get(x)
    }

    /// The byte that a load takes.
    pub fn byte_cell(&self, x: u32) -> Option<Cell>
        ensures { option_map (λ c. cell_of c ∷ []) result ≡ aligned_cells (store_of self.now) x 1 }
    {
        self.cell(x)
    }

    /// The two bytes that a load takes, at a multiple of 2.
    pub fn half_cells(&self, x: u32) -> Option<(Cell, Cell)>
        ensures { option_map (λ h. cell_of h.0 ∷ cell_of h.1 ∷ []) result ≡ aligned_cells (store_of self.now) x 2 }
    {
        if x % 2 != 0 {
            return None;
        }
        let first = self.cell(x)?;
        let second = self.cell(x + 1)?;
        Some((first, second))
    }

    /// The four bytes that a load takes, at a multiple of 4.
    pub fn word_cells(&self, x: u32) -> Option<WordCells>
        ensures { option_map cells_in result ≡ aligned_cells (store_of self.now) x 4 }
    {
        if x % 4 != 0 {
            return None;
        }
        let first = self.cell(x)?;
        let second = self.cell(x + 1)?;
        let third = self.cell(x + 2)?;
        let fourth = self.cell(x + 3)?;
        Some(WordCells {
            first,
            second,
            third,
            fourth,
        })
    }

    /// Takes the memory that a write of n bytes from `x` on needs.
    #[tactic(auto, unfolding(crate::specs::Views::store_of))]
    pub fn make_ready(&mut self, x: u32, n: u32) -> Result<(), Memory>
        requires { x + n ≤ 2 ^ 32 }
        ensures ready { OnOk result (AreReady self.new.memory x n) }
        ensures state { store_of self.new ≡ store_of self.old }
    {
        self.memory.make_ready(x, n)?;
        Ok(())
    }

    /// Writes cells from an address on.
    #[tactic(auto, unfolding(crate::specs::Views::store_of))]
    pub fn put(&mut self, x: u32, cells: &[Cell])
        requires end { x + length cells.now ≤ 2 ^ 32 }
        requires ready { AreReady self.old.memory x (length cells.now) }
        ensures { store_of self.new ≡ record (store_of self.old) { memory = with_cells (store_of self.old).memory x (map cell_of cells.now) } }
    {
        self.memory.put_all(x, cells);
    }

    /// Writes the lowest byte of a number.
    pub fn put_byte(&mut self, x: u32, number: u32)
        requires end { x + 1 ≤ 2 ^ 32 }
        requires ready { AreReady self.old.memory x 1 }
        ensures { store_of self.new ≡ stored x 1 (Num number) (store_of self.old) }
    {
        let [first, _, _, _] = number.to_le_bytes();
        self.put(x, &[Cell::Byte(first)]);
    }

    /// Writes the lower half of a number.
    pub fn put_half(&mut self, x: u32, number: u32)
        requires end { x + 2 ≤ 2 ^ 32 }
        requires ready { AreReady self.old.memory x 2 }
        ensures { store_of self.new ≡ stored x 2 (Num number) (store_of self.old) }
    {
        let [first, second, _, _] = number.to_le_bytes();
        self.put(x, &[Cell::Byte(first), Cell::Byte(second)]);
    }

    /// Writes a value as a word.
    pub fn put_word(&mut self, x: u32, value: Value)
        requires end { x + 4 ≤ 2 ^ 32 }
        requires ready { AreReady self.old.memory x 4 }
        ensures { store_of self.new ≡ stored x 4 (value_of value) (store_of self.old) }
    {
        match value {
            Value::Num(number) => {
                let [first, second, third, fourth] = number.to_le_bytes();
                self.put(
                    x,
                    &[
                        Cell::Byte(first),
                        Cell::Byte(second),
                        Cell::Byte(third),
                        Cell::Byte(fourth),
                    ],
                );
            }
            Value::Tagged(tag) => self.put(
                x,
                &[
                    Cell::Frag(tag, 0),
                    Cell::Frag(tag, 1),
                    Cell::Frag(tag, 2),
                    Cell::Frag(tag, 3),
                ],
            ),
        }
    }

    /// Reserves an address, or none.
    #[tactic(auto, unfolding(crate::specs::Views::store_of))]
    pub fn reserve(&mut self, reservation: Option<u32>)
        ensures { store_of self.new ≡ reserved reservation (store_of self.old) }
    {
        self.reservation = reservation;
    }

    /// Whether an address is reserved.
    #[tactic(auto, unfolding(crate::specs::Views::store_of))]
    pub fn is_reserved(&self, x: u32) -> bool
        ensures { result ≡ is_reserved x (store_of self.now).reservation }
    {
        match self.reservation {
            Some(reserved) => x == reserved,
            None => false,
        }
    }

    /// Whether a byte is in memory.
    fn is_in_memory(&self, x: u32) -> bool
        ensures { result ≡ is_in_memory (store_of self.now).memory x }
    {
        self.cell(x).is_some()
    }

    /// Whether the n bytes from `x` on are in memory.
    pub fn are_in_memory(&self, x: u32, n: u32) -> bool
        ensures value { result ≡ is_range (is_in_memory (store_of self.now).memory) x n }
        ensures end { IsTrue result → x + n ≤ 2 ^ 32 }
    {
        if u64::from(x) + u64::from(n) > END {
            return false;
        }
        for i in 0..n {
            if !self.is_in_memory(x + i) {
                return false;
            }
        }
        true
    }
}
