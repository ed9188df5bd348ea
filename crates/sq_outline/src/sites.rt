//! Places at which items become calls.

/// A place in a block: so many items stand before it.
#[derive(Clone, Copy, Debug, PartialEq, Eq)]
pub(crate) struct Site {
    pub(crate) block: u32,
    pub(crate) at: u32,
}
