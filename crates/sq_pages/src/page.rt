//! One page.

ghost use Rattle.std.specs.Prelude.{◌≡◌, ℕ, ◌<◌, true, replicate, Some, None, nat_eq, IfOk, OnOk, OnErr, if◌then◌else◌};
ghost use Rattle.sq_memory.specs.Cells.{replaced};
ghost use Rattle.sq_memory.specs.Regions.{or_else};
ghost use Rattle.sq_pages.specs.Pages.{Sheet, sheet_of, sheet_cell, is_ready_sheet, has_each, IsWhole};

use std::alloc::{AllocError, Global};

/// How many addresses a page has.
pub const PLACES: usize = 4096;

/// What stands at `PLACES` addresses.
#[derive(Drop)]
pub enum Page<C> {
    /// The same cell at each, or nothing at any.
    Same(Option<C>),
    /// An entry for each.
    Own(Vec<Option<C>>),
}

// The same entry for each place.
fn entries<C: Copy>(alloc: Global, entry: Option<C>) -> Result<Vec<Option<C>>, AllocError>
    ensures { IfOk result (λ entries. entries.items ≡ replicate 4096 entry) }
{
    let mut entries = Vec::with_capacity(alloc, PLACES)?;
    for _place in 0..PLACES {
        entries.push(entry)?;
    }
    Ok(entries)
}

impl<C: Copy> Page<C> {
    /// The cell at a place.
    pub fn cell(&self, place: usize) -> Option<C>
        ensures { result ≡ sheet_cell (sheet_of self.now) place }
    {
        match self {
            Page::Same(cell) => *cell,
            Page::Own(cells) => *cells.get(place)?,
        }
    }

    /// Writes a cell, where one is there.
    pub fn set(&mut self, place: usize, cell: C)
        requires { is_ready_sheet (sheet_of self.old) ≡ true }
        ensures cells { (i : ℕ) → sheet_cell (sheet_of self.new) i ≡ (if nat_eq i place then replaced (sheet_cell (sheet_of self.old) i) cell else sheet_cell (sheet_of self.old) i) }
        ensures ready { is_ready_sheet (sheet_of self.new) ≡ true }
        ensures whole { IsWhole (sheet_of self.old) → IsWhole (sheet_of self.new) }
    {
        if let Page::Own(cells) = self {
            if place < cells.len() && cells[place].is_some() {
                cells[place] = Some(cell);
            }
        }
    }

    /// Gives it cells of its own, where it has any.
    pub fn make_ready(&mut self, alloc: Global) -> Result<(), AllocError>
        ensures cells { (i : ℕ) → i < 4096 → sheet_cell (sheet_of self.new) i ≡ sheet_cell (sheet_of self.old) i }
        ensures ready { OnOk result (is_ready_sheet (sheet_of self.new) ≡ true) }
        ensures still { is_ready_sheet (sheet_of self.old) ≡ true → is_ready_sheet (sheet_of self.new) ≡ true }
        ensures whole { IsWhole (sheet_of self.old) → IsWhole (sheet_of self.new) }
    {
        if let Page::Same(cell) = *self {
            if cell.is_some() {
                *self = Page::Own(entries(alloc, cell)?);
            }
        }
        Ok(())
    }

    /// Gives it an entry for each place.
    pub fn own(&mut self, alloc: Global) -> Result<(), AllocError>
        ensures cells { (i : ℕ) → i < 4096 → sheet_cell (sheet_of self.new) i ≡ sheet_cell (sheet_of self.old) i }
        ensures own { OnOk result (has_each (sheet_of self.new) ≡ true) }
        ensures still { is_ready_sheet (sheet_of self.old) ≡ true → is_ready_sheet (sheet_of self.new) ≡ true }
        ensures whole { IsWhole (sheet_of self.old) → IsWhole (sheet_of self.new) }
    {
        if let Page::Same(cell) = *self {
            *self = Page::Own(entries(alloc, cell)?);
        }
        Ok(())
    }

    /// Lays a cell at a place of its own, where nothing is there.
    pub fn fill(&mut self, place: usize, cell: C)
        requires own { has_each (sheet_of self.old) ≡ true }
        requires whole { IsWhole (sheet_of self.old) }
        requires place { place < 4096 }
        ensures cells { (i : ℕ) → sheet_cell (sheet_of self.new) i ≡ (if nat_eq i place then or_else (sheet_cell (sheet_of self.old) i) (Some cell) else sheet_cell (sheet_of self.old) i) }
        ensures own { has_each (sheet_of self.new) ≡ true }
        ensures whole { IsWhole (sheet_of self.new) }
    {
        if let Page::Own(cells) = self {
            if cells[place].is_none() {
                cells[place] = Some(cell);
            }
        }
    }

    // The same at each place of its own.
    fn fill_each(&mut self, cell: C)
        requires own { has_each (sheet_of self.old) ≡ true }
        requires whole { IsWhole (sheet_of self.old) }
        ensures cells { (i : ℕ) → i < 4096 → sheet_cell (sheet_of self.new) i ≡ or_else (sheet_cell (sheet_of self.old) i) (Some cell) }
        ensures whole { IsWhole (sheet_of self.new) }
    {
        for place in 0..PLACES {
            self.fill(place, cell);
        }
    }

    /// Lays a cell at each place where nothing is.
    pub fn fill_all(&mut self, cell: C)
        requires { IsWhole (sheet_of self.old) }
        ensures cells { (i : ℕ) → i < 4096 → sheet_cell (sheet_of self.new) i ≡ or_else (sheet_cell (sheet_of self.old) i) (Some cell) }
        ensures whole { IsWhole (sheet_of self.new) }
    {
        match self {
            Page::Same(Some(_)) => {}
            Page::Same(None) => *self = Page::Same(Some(cell)),
            Page::Own(_) => self.fill_each(cell),
        }
    }
}
