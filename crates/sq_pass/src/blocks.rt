//! Lists of blocks.

ghost use Rattle.std.specs.Prelude.{◌≡◌, [], ◌∷◌, ◌++◌, OnOk, OnErr};

use sq_num::Memory;
use std::alloc::Global;
use std::marker::Model;

/// A list of names of blocks.
#[derive(Debug, Drop)]
pub struct Blocks {
    names: Vec<u32>,
}

impl Model for Blocks {
    ghost use Rattle.std.specs.Prelude.{List, ℕ};

    ghost Value = { List ℕ };

    ghost view = { λ b. b.names.items };
}

impl Blocks {
    /// No blocks. It takes no memory.
    pub fn new(alloc: Global) -> Blocks
        ensures { result ≡ [] }
    {
        Blocks {
            names: Vec::new(alloc),
        }
    }

    /// Appends the name of a block, or leaves the list as it was for want of memory.
    pub fn push(&mut self, name: u32) -> Result<(), Memory>
        ensures ok { OnOk result (self.new ≡ self.old ++ name ∷ []) }
        ensures err { OnErr result (self.new ≡ self.old) }
    {
        self.names.push(name)?;
        Ok(())
    }

    /// The names.
    pub fn as_slice(&self) -> &[u32]
        ensures { result.now ≡ self.now }
    {
        self.names.as_slice()
    }
}
