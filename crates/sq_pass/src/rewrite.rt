//! Rewrites that were made, and what they save.

ghost use Rattle.std.specs.Prelude.{◌≡◌, ◌+◌, ◌<◌, ◌^◌};
ghost use Rattle.sq_num.specs.Saved.{words_saved};
ghost use Rattle.sq_pass.specs.Counted.{counted};

use crate::cut::Row;
use sq_num::Savings;

/// A rewrite that was made: its row, and how many words it saved.
#[derive(Clone, Copy, Debug, PartialEq, Eq)]
pub struct Rewrite {
    pub row: Row,
    pub saving: u32,
}

impl Rewrite {
    /// The savings with those of this rewrite. The windows of row W count with O1, and those of V with O2.
    pub fn count(&self, savings: Savings) -> Savings
        requires { words_saved savings + self.now.saving < 2 ^ 32 }
        ensures value { result ≡ counted savings self.now.row self.now.saving }
        ensures total { words_saved result ≡ words_saved savings + self.now.saving }
    {
        let mut next = savings;
        match self.row {
            Row::U => next.u += self.saving,
            Row::J1 => next.j1 += self.saving,
            Row::J2 => next.j2 += self.saving,
            Row::J3 => next.j3 += self.saving,
            Row::C => next.c += self.saving,
            Row::T => next.t += self.saving,
            Row::O1 | Row::W => next.o1 += self.saving,
            Row::O2 | Row::V => next.o2 += self.saving,
            Row::O3 => next.o3 += self.saving,
            Row::O4 => next.o4 += self.saving,
            Row::L => next.moved += self.saving,
        }
        next
    }
}
