//! Renamings of registers.

ghost use Rattle.std.specs.Prelude.{◌≡◌, ◌≢◌, ℕ, ◌<◌, List, Some, length, slice_get, slice_index};
ghost use Rattle.sq_isa.specs.Forms.{renamed};
ghost use Rattle.sq_rename.specs.Renamings.{IsPermutation};
ghost use Rattle.sq_rename.specs.Inverses.{AreInverse};

use crate::shapes::replaced;
use sq_isa::{Insn, Reg};
use std::marker::Model;

/// A permutation of the registers, which contracts see as the list of 32 that has for each register its new one.
#[derive(Clone, Copy)]
pub struct Renaming {
    to: [Reg; 32],
}

impl Model for Renaming {
    ghost use Rattle.std.specs.Prelude.{ℕ, List};

    ghost Value = { List ℕ };

    ghost use Rattle.sq_rename.specs.Renamings.{IsPermutation};

    ghost view = { λ r. r.to };

    ghost invariant = { λ r. IsPermutation r.to };

    ghost inverse = { λ to. record { to = to } };
}

impl Renaming {
    /// A permutation that gives each register the one that it goes with, where no two go with one. It is made from the
    /// identity by exchanges, each of which gives one register its own.
    pub(crate) fn from_pairs(there: &[Option<Reg>; 32]) -> Renaming
        requires count { length there.now ≡ 32 }
        requires one_way { (q r s : ℕ) → slice_get there.now q ≡ Some (Some s) → slice_get there.now r ≡ Some (Some s) → q ≡ r }
        ensures permutation { IsPermutation result }
        ensures pairs { (r s : ℕ) → slice_get there.now r ≡ Some (Some s) → slice_get result r ≡ Some s }
    {
        let mut to = identity();
        let mut from = identity();
        for number in 0..32 {
            exchange(
                &mut to,
                &mut from,
                Reg::from_low_bits(number),
                there[number as usize],
            );
        }
        Renaming { to }
    }

    /// The register that takes the place of r.
    pub fn of(&self, r: Reg) -> Reg
        ensures value { slice_get self.now r ≡ Some result }
        ensures permutation { IsPermutation self.now }
    {
        self.to[r.number() as usize]
    }
}

fn identity() -> [Reg; 32]
    ensures count { length result ≡ 32 }
    ensures value { (r : ℕ) → r < 32 → slice_index result r ≡ r }
{
    let mut registers = [Reg::from_low_bits(0); 32];
    for number in 0..32 {
        registers[number as usize] = Reg::from_low_bits(number);
    }
    registers
}

/// Gives r the register s, if there is one, and r's old one to the register that had s.
fn exchange(to: &mut [Reg; 32], from: &mut [Reg; 32], r: Reg, s: Option<Reg>)
    requires { AreInverse to.old from.old }
    ensures inverse { AreInverse to.new from.new }
    ensures given { (t : ℕ) → s ≡ Some t → slice_get to.new r ≡ Some t }
    ensures kept { (q t : ℕ) → q ≢ r → s ≢ Some t → slice_get to.old q ≡ Some t → slice_get to.new q ≡ Some t }
{
    let Some(s) = s else {
        return;
    };
    let old = to[r.number() as usize];
    let other = from[s.number() as usize];
    to[other.number() as usize] = old;
    from[old.number() as usize] = other;
    to[r.number() as usize] = s;
    from[s.number() as usize] = r;
}

/// The instruction with each register replaced by its new one. The registers of an ECALL are fixed.
pub fn rename(insn: &Insn, by: &Renaming) -> Insn
    ensures { result ≡ renamed (slice_index by.now) insn.now }
{
    replaced(insn, &by.to)
}
