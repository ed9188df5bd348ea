//! Relocation entries (System V gABI, Elf32_Rela).

ghost use Rattle.std.specs.Prelude.{◌≡◌};

/// An entry, with the place where it stands and its symbol's value.
#[derive(Clone, Copy, Debug, PartialEq, Eq)]
pub struct Entry {
    /// The RELA section in which it stands.
    pub section: u32,
    /// Which of the section's entries it is, counted from 0.
    pub number: u32,
    /// Where it applies, a virtual address.
    pub offset: u32,
    /// The relocation type, 0 to 255.
    pub kind: u32,
    /// The number of its symbol.
    pub symbol: u32,
    /// S: the symbol's value.
    pub value: u32,
    /// A, modulo 2^32.
    pub addend: u32,
}

impl Entry {
    ghost use Rattle.sq_reloc.specs.Entries.{target_of};

    /// T = S + A modulo 2^32.
    pub fn target(&self) -> u32
        ensures { result ≡ target_of self.now }
    {
        self.value.wrapping_add(self.addend)
    }
}
