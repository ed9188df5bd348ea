//! Marks on names.

use sq_num::Memory;
use std::alloc::Global;
use std::marker::Model;

/// Marks on names below a number. All others count as marked.
#[derive(Drop)]
pub struct Marks {
    marks: Vec<bool>,
}

impl Model for Marks {
    ghost use Rattle.std.specs.Prelude.{Bool, List};

    ghost Value = { List Bool };

    ghost view = { λ s. s.marks.items };
}

impl Marks {
    ghost use Rattle.std.specs.Prelude.{◌≡◌, ◌<◌, ◌||◌, ◌==◌, ℕ, false, IfOk};
    ghost use Rattle.sq_lookup.specs.Marks.{is_marked};

    /// None of the names below this number is marked.
    pub fn new(alloc: Global, names: usize) -> Result<Marks, Memory>
        ensures { IfOk result (λ they. (n : ℕ) → n < names → is_marked they n ≡ false) }
    {
        let mut marks = Vec::new(alloc);
        marks.resize(names, false)?;
        Ok(Marks { marks })
    }

    pub fn put(&mut self, name: u32)
        ensures { (n : ℕ) → is_marked self.new n ≡ (name == n || is_marked self.old n) }
    {
        let name = name as usize;
        if name < self.marks.len() {
            self.marks[name] = true;
        }
    }

    pub fn has(&self, name: u32) -> bool
        ensures { result ≡ is_marked self.now name }
    {
        let name = name as usize;
        name >= self.marks.len() || self.marks[name]
    }
}
