// Registers, and sets of registers.

ghost use Rattle.std.specs.Prelude.{◌≡◌, ℕ, ◌%◌, ◌^◌, ◌<◌, ◌≤◌, ◌↔◌, ◌||◌, ◌&&◌, ◌==◌, not, false, true, IsNone, IfSome};
ghost use Rattle.sq_isa.specs.Registers.{is_member};

use std::marker::Model;

/// An integer register, x0 to x31, which contracts see as its number.
#[derive(Clone, Copy, Debug, PartialEq, Eq, PartialOrd, Ord, Hash)]
pub struct Reg {
    number: u8,
}

impl Model for Reg {
    ghost Value = { ℕ };

    ghost view = { λ r. r.number };

    ghost invariant = { λ r. r.number < 32 };

    ghost inverse = { λ n. record { number = n } };
}

impl Reg {
    /// The argument and result register a0, x10.
    pub const A0: Reg = Reg { number: 10 };

    /// The argument register a1, x11.
    pub const A1: Reg = Reg { number: 11 };

    /// The argument register a2, x12.
    pub const A2: Reg = Reg { number: 12 };

    /// The argument register a7, x17.
    pub const A7: Reg = Reg { number: 17 };

    /// The register of this number; None exactly for 32 and more.
    pub fn new(number: u32) -> Option<Reg>
        ensures none { IsNone result ↔ (32 ≤ number) }
        ensures value { IfSome result (λ r. r ≡ number) }
    {
        if number < 32 {
            Some(Reg {
                number: number as u8,
            })
        } else {
            None
        }
    }

    /// The register that the low five bits of a word name.
    pub fn from_low_bits(word: u32) -> Reg
        ensures { result ≡ word % 32 }
    {
        Reg {
            number: (word % 32) as u8,
        }
    }

    /// The register's number, 0 to 31.
    pub fn number(self) -> u32
        ensures value { result ≡ self }
        ensures range { result < 32 }
    {
        self.number as u32
    }
}

/// A set of registers without x0, which contracts see as the number whose bit r is 1 for each r in it.
#[derive(Clone, Copy, Debug, PartialEq, Eq)]
pub struct RegSet {
    members: u32,
}

impl Model for RegSet {
    ghost Value = { ℕ };

    ghost view = { λ s. s.members };

    ghost invariant = { λ s. s.members % 2 ≡ 0 };

    ghost inverse = { λ n. record { members = n } };
}

impl RegSet {
    /// The empty set.
    pub fn new() -> RegSet
        ensures { (r : ℕ) → is_member result r ≡ false }
    {
        RegSet { members: 0 }
    }

    /// The set with one more register, but for x0, which is in no set.
    pub fn with(self, r: Reg) -> RegSet
        ensures { (q : ℕ) → is_member result q ≡ (is_member self q || (not (q == 0) && r == q)) }
    {
        let number = r.number();
        if number == 0 {
            self
        } else {
            RegSet {
                members: self.members | 1 << number,
            }
        }
    }

    /// The registers of both sets.
    pub fn union(self, other: RegSet) -> RegSet
        ensures { (q : ℕ) → is_member result q ≡ (is_member self q || is_member other q) }
    {
        RegSet {
            members: self.members | other.members,
        }
    }

    /// The registers of this set that aren't in the other.
    pub fn without(self, other: RegSet) -> RegSet
        ensures { (q : ℕ) → is_member result q ≡ (is_member self q && not (is_member other q)) }
    {
        RegSet {
            members: self.members ^ (self.members & other.members),
        }
    }

    /// The registers of both sets, or None where this one has all of the other.
    pub fn grown_by(self, other: RegSet) -> Option<RegSet>
        ensures some { IfSome result (λ set. (q : ℕ) → is_member set q ≡ (is_member self q || is_member other q)) }
        ensures more { IfSome result (λ set. self < set) }
        ensures small { IfSome result (λ set. set < 2 ^ 32) }
        ensures none { IsNone result → (q : ℕ) → is_member other q ≡ true → is_member self q ≡ true }
    {
        let members = self.members | other.members;
        if members == self.members {
            return None;
        }
        Some(RegSet { members })
    }

    /// Every register but x0.
    pub fn all() -> RegSet
        ensures { (r : ℕ) → 0 < r → r < 32 → is_member result r ≡ true }
    {
        RegSet {
            members: 0xffff_fffe,
        }
    }

    /// Whether the register is in the set.
    pub fn has(self, r: Reg) -> bool
        ensures member { result ≡ is_member self r }
        ensures not_x0 { r ≡ 0 → result ≡ false }
    {
        (self.members >> r.number()) % 2 == 1
    }
}
