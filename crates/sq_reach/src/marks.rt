//! Marks on numbers.

ghost use Rattle.std.specs.Prelude.{◌≡◌, ◌<◌, ℕ, length, OnOk};
ghost use Rattle.sq_reach.specs.Marks.{flag_at};

use sq_num::Memory;
use std::alloc::Global;
use std::marker::Model;

/// A set of numbers, such as the names of blocks: a byte for each number up to the greatest one.
#[derive(Drop)]
pub struct Marks {
    flags: Vec<bool>,
}

impl Model for Marks {
    ghost use Rattle.std.specs.Prelude.{ℕ, List};

    ghost Value = { List ℕ };

    ghost use Rattle.sq_reach.specs.Marks.{numbers_from};

    ghost view = { λ m. numbers_from 0 m.flags.items };
}

/// Makes room for a number, and for as many again, so that numbers in a row take few calls.
fn grow(flags: &mut Vec<bool>, number: u32) -> Result<(), Memory>
    ensures room { OnOk result (number < length flags.new.items) }
    ensures same { (n : ℕ) → flag_at flags.new.items n ≡ flag_at flags.old.items n }
{
    let len = flags.len();
    if len <= number as usize {
        let room = len.saturating_mul(2).max(number as usize + 1);
        flags.resize(room, false)?;
    }
    Ok(())
}

impl Marks {
    ghost use Rattle.std.specs.Prelude.{◌≡◌, ℕ, ◌+◌, ◌==◌, ◌||◌, [], not, length, nat_eq, IfOk, OnOk, if◌then◌else◌};
    ghost use Rattle.std.specs.List.{IsDistinct};
    ghost use Rattle.sq_reach.specs.Marks.{is_marked};

    pub(crate) fn new(alloc: Global) -> Marks
        ensures { result ≡ [] }
    {
        Marks {
            flags: Vec::new(alloc),
        }
    }

    /// Marks a number, and tells whether it is new.
    pub(crate) fn insert(&mut self, number: u32) -> Result<bool, Memory>
        ensures added { IfOk result (λ added. added ≡ not (is_marked self.old number)) }
        ensures members { OnOk result ((n : ℕ) → is_marked self.new n ≡ (is_marked self.old n || (n == number))) }
        ensures count { IfOk result (λ added. length self.new ≡ length self.old + (if added then 1 else 0)) }
        ensures distinct { IsDistinct nat_eq self.new }
    {
        let added = !self.has(number);
        grow(&mut self.flags, number)?;
        self.flags[number as usize] = true;
        Ok(added)
    }

    /// Whether a block is marked.
    pub fn has(&self, block: u32) -> bool
        ensures { result ≡ is_marked self.now block }
    {
        let block = block as usize;
        block < self.flags.len() && self.flags[block]
    }
}
