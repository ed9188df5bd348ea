//! Memory in pages.

ghost use Rattle.std.specs.Prelude.{◌≡◌, ◌+◌, ◌<◌, ◌≤◌, ◌^◌, ◌/◌, ◌%◌, [], ◌*◌, ℕ, true, length, Some, None, IfOk, OnOk, OnErr, option_map, get_or};
ghost use Rattle.sq_memory.specs.Cells.{Cells, with_cell, with_cells, cells_from};

use crate::page::{PLACES, Page};
use std::alloc::{AllocError, Global};
use std::marker::Model;

/// How many addresses a page has.
const PAGE: u64 = PLACES as u64;

/// The number of the page of an address.
fn page_of(address: u32) -> usize
    ensures { result ≡ address / 4096 }
{
    address as usize / PLACES
}

/// The place of an address in its page.
fn place_of(address: u32) -> usize
    ensures value { result ≡ address % 4096 }
    ensures within { result < 4096 }
{
    address as usize % PLACES
}

/// What stands at addresses. Nothing stands behind the last page.
#[derive(Drop)]
pub struct Pages<C> {
    pages: Vec<Page<C>>,
}

impl<C> Model for Pages<C> {
    ghost use Rattle.std.specs.Prelude.{List, map};
    ghost use Rattle.std.specs.List.{All};
    ghost use Rattle.sq_pages.specs.Pages.{Sheet, sheet_of, IsWhole};

    ghost Value = { List (Sheet C) };

    ghost view = { λ m. map sheet_of m.pages.items };

    ghost invariant = { λ m. All (λ page. IsWhole (sheet_of page)) m.pages.items };
}

impl<C: Copy> Pages<C> {
    ghost use Rattle.sq_memory.specs.Regions.{region_cell};
    ghost use Rattle.sq_pages.specs.Pages.{Sheet, sheet_at, cells_of, is_ready, has_each, AreReady, over, one_cell, same_cell, Keeps};

    /// Memory in which nothing stands.
    pub fn new(alloc: Global) -> Pages<C>
        ensures { result ≡ [] }
    {
        Pages {
            pages: Vec::new(alloc),
        }
    }

    /// The cell at an address.
    pub fn get(&self, address: u32) -> Option<C>
        ensures { result ≡ cells_of self.now address }
    {
        self.pages.get(page_of(address))?.cell(place_of(address))
    }

    /// The cells of `count` addresses from an address on: none where one of them is missing.
    pub fn get_all(
        &self,
        alloc: Global,
        address: u32,
        count: u32,
    ) -> Result<Option<Vec<C>>, AllocError>
        requires { address + count ≤ 2 ^ 32 }
        ensures { IfOk result (λ found. option_map (λ cells. cells.items) found ≡ cells_from (cells_of self.now) address count) }
    {
        let mut cells = Vec::new(alloc);
        for i in 0..count {
            match self.get(address + i) {
                Some(cell) => cells.push(cell)?,
                None => return Ok(None),
            }
        }
        Ok(Some(cells))
    }

    /// Gives the page of an address cells of its own, if it has any.
    fn make_ready_at(&mut self, address: u32) -> Result<(), AllocError>
        ensures cells { cells_of self.new ≡ cells_of self.old }
        ensures ready { OnOk result (is_ready self.new address ≡ true) }
        ensures still { (x : ℕ) → is_ready self.old x ≡ true → is_ready self.new x ≡ true }
    {
        let alloc = *self.pages.allocator();
        let page = page_of(address);
        if page < self.pages.len() {
            self.pages[page].make_ready(alloc)?;
        }
        Ok(())
    }

    /// Takes the memory that writes at `count` addresses from an address on need. What stands is as before, whatever the
    /// answer is, and what was ready is ready still.
    pub fn make_ready(&mut self, address: u32, count: u32) -> Result<(), AllocError>
        requires { address + count ≤ 2 ^ 32 }
        ensures cells { cells_of self.new ≡ cells_of self.old }
        ensures ready { OnOk result (AreReady self.new address count) }
        ensures still { (x : ℕ) → is_ready self.old x ≡ true → is_ready self.new x ≡ true }
    {
        for i in 0..count {
            self.make_ready_at(address + i)?;
        }
        Ok(())
    }

    /// Writes a cell, where one is there.
    fn put(&mut self, address: u32, cell: C)
        requires { is_ready self.old address ≡ true }
        ensures cells { cells_of self.new ≡ with_cell (cells_of self.old) address cell }
        ensures still { (x : ℕ) → is_ready self.old x ≡ true → is_ready self.new x ≡ true }
    {
        let page = page_of(address);
        if page < self.pages.len() {
            self.pages[page].set(place_of(address), cell);
        }
    }

    /// Writes cells from an address on, where cells are there. It takes no memory.
    pub fn put_all(&mut self, address: u32, cells: &[C])
        requires end { address + length cells.now ≤ 2 ^ 32 }
        requires ready { AreReady self.old address (length cells.now) }
        ensures cells { cells_of self.new ≡ with_cells (cells_of self.old) address cells.now }
        ensures still { (x : ℕ) → is_ready self.old x ≡ true → is_ready self.new x ≡ true }
    {
        for (i, cell) in cells.iter().enumerate() {
            self.put(address + i as u32, *cell);
        }
    }

    // How many pages there are.
    fn count(&self) -> usize
        ensures { result ≡ length self.now }
    {
        self.pages.len()
    }

    // Takes one page more, in which nothing stands.
    fn push_page(&mut self) -> Result<(), AllocError>
        ensures cells { cells_of self.new ≡ cells_of self.old }
        ensures count { OnOk result (length self.new ≡ length self.old + 1) }
    {
        self.pages.push(Page::Same(None))?;
        Ok(())
    }

    // Has pages up to this one.
    fn reach(&mut self, page: usize) -> Result<(), AllocError>
        requires { page < 2 ^ 32 }
        ensures cells { cells_of self.new ≡ cells_of self.old }
        ensures there { OnOk result (page < length self.new) }
    {
        for _page in self.count()..page + 1 {
            self.push_page()?;
        }
        Ok(())
    }

    // Gives a page an entry for each place.
    fn own(&mut self, page: usize) -> Result<(), AllocError>
        requires { page < length self.old }
        ensures cells { cells_of self.new ≡ cells_of self.old }
        ensures there { OnOk result (page < length self.new) }
        ensures own { OnOk result (has_each (get_or self.new page (Sheet.Alike None)) ≡ true) }
    {
        let alloc = *self.pages.allocator();
        self.pages[page].own(alloc)
    }

    // Lays a cell in a page that has an entry for each place.
    fn fill(&mut self, address: u32, cell: C)
        requires there { address / 4096 < length self.old }
        requires own { has_each (sheet_at self.old address) ≡ true }
        ensures { cells_of self.new ≡ over (cells_of self.old) (one_cell address cell) }
    {
        let page = page_of(address);
        self.pages[page].fill(place_of(address), cell);
    }

    /// Lays a cell at an address, where nothing stands. Where it finds no memory, all is as before.
    pub fn lay(&mut self, address: u32, cell: C) -> Result<(), AllocError>
        ensures cells { OnOk result (cells_of self.new ≡ over (cells_of self.old) (one_cell address cell)) }
        ensures kept { OnErr result (cells_of self.new ≡ cells_of self.old) }
    {
        let page = page_of(address);
        self.reach(page)?;
        self.own(page)?;
        self.fill(address, cell);
        Ok(())
    }

    /// Lays cells from an address on, each where nothing stands. Where it finds no memory, what stood stays.
    pub fn lay_all(&mut self, address: u32, cells: &[C]) -> Result<(), AllocError>
        requires { address + length cells.now ≤ 2 ^ 32 }
        ensures cells { OnOk result (cells_of self.new ≡ over (cells_of self.old) (region_cell (record { start = address; cells = cells.now }))) }
        ensures kept { Keeps (cells_of self.old) (cells_of self.new) }
    {
        for (i, cell) in cells.iter().enumerate() {
            self.lay(address + i as u32, *cell)?;
        }
        Ok(())
    }

    // Lays a cell at each address of a page that is there, where nothing stands.
    fn fill_page(&mut self, page: usize, cell: C)
        requires { page < length self.old }
        ensures { cells_of self.new ≡ over (cells_of self.old) (same_cell (4096 * page) (4096 * page + 4096) cell) }
    {
        self.pages[page].fill_all(cell);
    }

    // The same, of a page that may not be there.
    fn lay_page(&mut self, page: usize, cell: C) -> Result<(), AllocError>
        requires { page < 2 ^ 20 }
        ensures cells { OnOk result (cells_of self.new ≡ over (cells_of self.old) (same_cell (4096 * page) (4096 * page + 4096) cell)) }
        ensures kept { OnErr result (cells_of self.new ≡ cells_of self.old) }
    {
        self.reach(page)?;
        self.fill_page(page, cell);
        Ok(())
    }

    // Lays a cell at each address from `low` up to `high`, where nothing stands.
    fn lay_each(&mut self, low: u64, high: u64, cell: C) -> Result<(), AllocError>
        requires { high ≤ 2 ^ 32 }
        ensures cells { OnOk result (cells_of self.new ≡ over (cells_of self.old) (same_cell low high cell)) }
        ensures kept { Keeps (cells_of self.old) (cells_of self.new) }
    {
        for address in low..high {
            self.lay(address as u32, cell)?;
        }
        Ok(())
    }

    // The same, of the addresses of one page.
    fn lay_part(&mut self, page: usize, low: u64, high: u64, cell: C) -> Result<(), AllocError>
        requires page { page < 2 ^ 20 }
        requires low { 4096 * page ≤ low }
        requires high { high ≤ 4096 * page + 4096 }
        ensures cells { OnOk result (cells_of self.new ≡ over (cells_of self.old) (same_cell low high cell)) }
        ensures kept { Keeps (cells_of self.old) (cells_of self.new) }
    {
        let start = PAGE * page as u64;
        if low == start && high == start + PAGE {
            self.lay_page(page, cell)
        } else {
            self.lay_each(low, high, cell)
        }
    }

    /// Lays the same cell at each address from `low` up to `high` where nothing stands. A page that is laid whole takes no
    /// memory for its cells. Where it finds no memory, what stood stays.
    pub fn lay_same(&mut self, low: u64, high: u64, cell: C) -> Result<(), AllocError>
        requires { high ≤ 2 ^ 32 }
        ensures cells { OnOk result (cells_of self.new ≡ over (cells_of self.old) (same_cell low high cell)) }
        ensures kept { Keeps (cells_of self.old) (cells_of self.new) }
    {
        for page in low / PAGE..high.div_ceil(PAGE) {
            let from = low.max(PAGE * page);
            let to = high.min(PAGE * page + PAGE);
            self.lay_part(page as usize, from, to, cell)?;
        }
        Ok(())
    }
}
