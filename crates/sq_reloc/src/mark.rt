//! What relocations say.

/// What the entries say of a word of text. Numbers are addresses, but those of `Unsupported` and
/// `Disagrees`, which are relocation types.
#[derive(Clone, Copy, Debug, PartialEq, Eq)]
pub enum Mark {
    /// No address of text stands in the word.
    Plain,
    /// The upper half of this address.
    Hi(u32),
    /// The lower half of this address.
    Lo(u32),
    /// An entry of a type that is not supported there.
    Unsupported(u32),
    /// An entry of this type whose word is not as the type asks.
    Disagrees(u32),
    /// Two entries of different types or targets.
    Conflict,
    /// A PCREL_LO12 without its upper half.
    Lone,
}

/// A word outside text that holds the address of a word of text.
#[derive(Clone, Copy, Debug, PartialEq, Eq)]
pub struct CodeWord {
    pub at: u32,
    pub to: u32,
}
