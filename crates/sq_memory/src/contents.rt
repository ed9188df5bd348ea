// Memory that a run reads and writes.

ghost use Rattle.std.specs.Prelude.{◌≡◌, ℕ, ◌<◌, ◌≤◌, ◌+◌, ◌-◌, ◌^◌, ◌↔◌, IsTrue, Some, None, length, min, position, is_some};
ghost use Rattle.sq_memory.specs.Regions.{region_cell};
ghost use Rattle.sq_memory.specs.Contents.{region_of, regions_of, HasAddress, Serves};

use std::alloc::{AllocError, Global};
use std::marker::Model;

/// Cells from an address on, one at each.
#[derive(Drop)]
pub struct Region<C> {
    start: u32,
    cells: Vec<C>,
}

impl<C: Copy> Region<C> {
    ghost use Rattle.std.specs.Prelude.{◌≡◌, ◌+◌, ◌-◌, ◌^◌, IsSome, is_some, length, min};
    ghost use Rattle.sq_memory.specs.Regions.{region_cell, region_with};
    ghost use Rattle.sq_memory.specs.Contents.{region_of};

    pub fn new(start: u32, cells: Vec<C>) -> Region<C>
        ensures { region_of result ≡ record { start = start; cells = cells.items } }
    {
        Region { start, cells }
    }

    fn cell(&self, address: u32) -> Option<C>
        ensures { result ≡ region_cell (region_of self.now) address }
    {
        if address < self.start {
            return None;
        }
        self.cells.get((address - self.start) as usize).copied()
    }

    /// Whether a cell stands at an address.
    fn has(&self, address: u32) -> bool
        ensures { result ≡ is_some (region_cell (region_of self.now) address) }
    {
        self.cell(address).is_some()
    }

    /// The first address behind the cells, or a number above all addresses.
    fn end(&self) -> usize
        ensures { result ≡ min (self.now.start + length self.now.cells.items) (2 ^ 64 - 1) }
    {
        (self.start as usize).saturating_add(self.cells.len())
    }

    /// Its addresses, as those that the region at a place serves.
    fn near(&self, place: usize) -> Near
        ensures place { result.place ≡ place }
        ensures there { (x : ℕ) → HasAddress result x → IsSome (region_cell (region_of self.now) x) }
        ensures all { (x : ℕ) → x < 2 ^ 32 → IsSome (region_cell (region_of self.now) x) → HasAddress result x }
    {
        Near {
            low: self.start as usize,
            high: self.end(),
            place,
        }
    }

    fn set(&mut self, address: u32, cell: C)
        requires { IsSome (region_cell (region_of self.old) address) }
        ensures { region_of self.new ≡ region_with (region_of self.old) address cell }
    {
        self.cells[(address - self.start) as usize] = cell;
    }
}

// The first region that has a cell at an address.
fn place<C: Copy>(regions: &[Region<C>], address: u32) -> Option<usize>
    ensures { result ≡ position (λ r. is_some (region_cell (region_of r) address)) regions.now }
{
    regions.iter().position(|region| region.has(address))
}

/// Addresses from `low` up to `high`, and the place of the first region that has a cell there.
#[derive(Clone, Copy)]
struct Near {
    low: usize,
    high: usize,
    place: usize,
}

impl Near {
    fn nowhere() -> Near
        ensures { (x : ℕ) → HasAddress result x → ⊥ }
    {
        Near {
            low: 0,
            high: 0,
            place: 0,
        }
    }

    fn has(&self, address: u32) -> bool
        ensures { IsTrue result ↔ HasAddress self.now address }
    {
        let address = address as usize;
        self.low <= address && address < self.high
    }

    // Cut where a region begins or ends, so that it has no cell in what is left.
    fn beside<C: Copy>(&self, region: &Region<C>, address: u32) -> Near
        requires inside { HasAddress self.now address }
        requires absent { region_cell (region_of region.now) address ≡ None }
        ensures inside { HasAddress result address }
        ensures place { result.place ≡ self.now.place }
        ensures cut { (x : ℕ) → HasAddress result x → HasAddress self.now x × (region_cell (region_of region.now) x ≡ None) }
    {
        let mut near = *self;
        if address < region.start {
            near.high = near.high.min(region.start as usize);
        } else {
            near.low = near.low.max(region.end());
        }
        near
    }
}

// The addresses round one that the same region serves.
fn near_at<C: Copy>(regions: &[Region<C>], place: usize, address: u32) -> Near
    requires { position (λ r. is_some (region_cell (region_of r) address)) regions.now ≡ Some place }
    ensures inside { HasAddress result address }
    ensures serves { Serves (regions_of regions.now) result }
{
    let mut near = regions[place].near(place);
    for region in &regions[..place] {
        near = near.beside(region, address);
    }
    near
}

// For how many pages of 4 KiB it is remembered which region served: pages whose numbers are equal modulo this share.
const PAGES: usize = 64;

fn page_of(address: u32) -> usize
    ensures { result < 64 }
{
    (address / 4096) as usize % PAGES
}

/// Cells at addresses. The first region that has one at an address holds it.
#[derive(Drop)]
pub struct Contents<C> {
    regions: Vec<Region<C>>,
    /// What served last, by the page of the address. It only saves time.
    near: [Near; PAGES],
}

impl<C> Model for Contents<C> {
    ghost use Rattle.std.specs.Prelude.{List};
    ghost use Rattle.std.specs.List.{All};
    ghost use Rattle.sq_memory.specs.Regions.{Region as Cells};
    ghost use Rattle.sq_memory.specs.Contents.{regions_of, Serves};

    ghost Value = { List (Cells C) };

    ghost view = { λ m. regions_of m.regions.items };

    ghost invariant = { λ m. All (Serves (regions_of m.regions.items)) m.near };
}

impl<C: Copy> Contents<C> {
    ghost use Rattle.std.specs.Prelude.{◌≡◌, ◌+◌, ◌≤◌, ◌^◌, length, is_some, position, option_map, IfOk};
    ghost use Rattle.sq_memory.specs.Cells.{cells_from};
    ghost use Rattle.sq_memory.specs.Regions.{region_cell, get, put, put_all};
    ghost use Rattle.sq_memory.specs.Contents.{regions_of};

    pub fn new(regions: Vec<Region<C>>) -> Contents<C>
        ensures { result ≡ regions_of regions.items }
    {
        Contents {
            regions,
            near: [Near::nowhere(); PAGES],
        }
    }

    // The first region that has a cell at an address. Where one served near it on its page, no other is asked.
    fn place_of(&mut self, address: u32) -> Option<usize>
        ensures value { result ≡ position (λ r. is_some (region_cell r address)) self.old }
        ensures kept { self.new ≡ self.old }
    {
        let page = page_of(address);
        let last = self.near[page];
        if last.has(address) {
            return Some(last.place);
        }
        let place = place(&self.regions, address)?;
        self.near[page] = near_at(&self.regions, place, address);
        Some(place)
    }

    /// The cell at an address.
    pub fn get(&mut self, address: u32) -> Option<C>
        ensures value { result ≡ get self.old address }
        ensures kept { self.new ≡ self.old }
    {
        let place = self.place_of(address)?;
        self.regions[place].cell(address)
    }

    /// Writes a cell at an address, where one is there.
    pub fn put(&mut self, address: u32, cell: C)
        ensures { self.new ≡ put self.old address cell }
    {
        if let Some(place) = self.place_of(address) {
            self.regions[place].set(address, cell);
        }
    }

    /// Writes cells from an address on, where cells are there.
    pub fn put_all(&mut self, address: u32, cells: &[C])
        requires { address + length cells.now ≤ 2 ^ 32 }
        ensures { self.new ≡ put_all self.old address cells.now }
    {
        for (i, cell) in cells.iter().enumerate() {
            self.put(address + i as u32, *cell);
        }
    }

    /// The cells from an address on, where all of them are there.
    pub fn get_all(
        &mut self,
        alloc: Global,
        address: u32,
        count: u32,
    ) -> Result<Option<Vec<C>>, AllocError>
        requires { address + count ≤ 2 ^ 32 }
        ensures value { IfOk result (λ found. option_map (λ cells. cells.items) found ≡ cells_from (get self.old) address count) }
        ensures kept { self.new ≡ self.old }
    {
        let mut cells = Vec::new(alloc);
        for i in 0..count {
            match self.get(address + i) {
                Some(cell) => cells.push(cell)?,
                None => return Ok(None),
            }
        }
        Ok(Some(cells))
    }
}
