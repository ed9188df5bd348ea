//! Sets of names.

use crate::table::{put, value};
use sq_num::Memory;
use std::alloc::Global;
use std::marker::Model;

/// A set of names of blocks, or of procedures: a byte for each name up to the greatest one.
#[derive(Drop)]
pub struct Names {
    marks: Vec<Option<()>>,
}

impl Model for Names {
    ghost use Rattle.std.specs.Prelude.{ℕ, List};

    ghost Value = { List ℕ };

    ghost use Rattle.sq_lookup.specs.Tables.{names_from};

    ghost view = { λ s. names_from 0 s.marks.items };
}

impl Names {
    ghost use Rattle.std.specs.Prelude.{◌≡◌, [], ◌∷◌, option_to_list, OnOk};
    ghost use Rattle.sq_lookup.specs.Names.{is_listed, Adds};

    pub fn new(alloc: Global) -> Names
        ensures { result ≡ [] }
    {
        Names {
            marks: Vec::new(alloc),
        }
    }

    pub fn insert(&mut self, name: u32) -> Result<(), Memory>
        ensures { OnOk result (Adds (name ∷ []) self.old self.new) }
    {
        put(&mut self.marks, name, ())?;
        Ok(())
    }

    /// The same where there is a name.
    pub fn insert_some(&mut self, name: Option<u32>) -> Result<(), Memory>
        ensures { OnOk result (Adds (option_to_list name) self.old self.new) }
    {
        match name {
            Some(name) => self.insert(name),
            None => Ok(()),
        }
    }

    pub fn has(&self, name: u32) -> bool
        ensures { result ≡ is_listed self.now name }
    {
        value(&self.marks, name).is_some()
    }
}
