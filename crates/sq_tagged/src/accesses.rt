//! Loads and stores of tagged values, once their address is known.

ghost use Rattle.std.specs.Prelude.{◌≡◌, ◌+◌, ◌<◌, ◌≤◌, ◌^◌, ◌∷◌, [], ◌&&◌, not, false, None, IfOk, OnErr};
ghost use Rattle.sq_isa.specs.Accesses.{sign_extended, load_width, store_width};
ghost use Rattle.sq_isa.specs.declared.instructions.LoadKind.TheVariants.{Lb, Lh, Lw, Lbu, Lhu};
ghost use Rattle.sq_pages.specs.Pages.{AreReady};
ghost use Rattle.law_follow.specs.Accesses.{Step, with_tag_or_number, with_loaded, load_cells, aligned_cells, load_at, is_word, store_at, stored};
ghost use Rattle.law_follow.specs.Values.{Value as Watched, is_tagged};
ghost use Rattle.sq_tagged.specs.Rows.{go_with, number_in, IsQuiet};
ghost use Rattle.sq_tagged.specs.Views.{setting_of, store_of, value_of, cell_of, cells_in};

use crate::made::Made;
use crate::setting::Setting;
use crate::store::Store;
use crate::values::{Cell, Value, WordCells};
use law_follow::Kind;
use sq_isa::{LoadKind, StoreKind};
use sq_num::Memory;
use sq_system::Halt;

/// The number of a byte, or why it can't be read.
fn byte_number(cell: Cell) -> Result<u32, Kind>
    ensures value { result ≡ number_in (cell_of cell ∷ []) }
    ensures range { IfOk result (λ number. number < 256) }
{
    match cell {
        Cell::Byte(byte) => Ok(u32::from(byte)),
        Cell::Frag(..) => Err(Kind::Fragment),
        Cell::Stale => Err(Kind::Stale),
    }
}

/// The number of two bytes, or why they can't be read.
fn half_number(first: Cell, second: Cell) -> Result<u32, Kind>
    ensures value { result ≡ number_in (cell_of first ∷ cell_of second ∷ []) }
    ensures range { IfOk result (λ number. number < 65536) }
{
    if first.is_stale() || second.is_stale() {
        return Err(Kind::Stale);
    }
    if first.is_fragment() || second.is_fragment() {
        return Err(Kind::Fragment);
    }
    Ok(u32::from(first.byte()) + 256 * u32::from(second.byte()))
}

/// The number of the four bytes of a word, of which none is stale and which are no whole value.
fn word_number(cells: &WordCells) -> Result<Value, Kind>
    ensures { (go : Watched → Step) → go_with result go ≡ with_tag_or_number Lw (cells_in cells.now) go None }
{
    if cells.has_fragment() {
        Err(Kind::Fragment)
    } else {
        Ok(Value::Num(cells.number()))
    }
}

/// What a load of a word finds, or why it can't be read.
pub fn word_value(cells: &WordCells) -> Result<Value, Kind>
    ensures { (go : Watched → Step) → go_with result go ≡ with_loaded Lw (cells_in cells.now) go }
{
    if cells.has_stale() {
        return Err(Kind::Stale);
    }
    match cells.whole() {
        Some(tag) => Ok(Value::Tagged(tag)),
        None => word_number(cells),
    }
}

/// The sign extension of a byte.
fn extend_byte(v: u32) -> u32
    requires { v < 256 }
    ensures { result ≡ sign_extended 8 v }
{
    if v < 0x80 { v } else { v + 0xffff_ff00 }
}

/// The sign extension of two bytes.
fn extend_half(v: u32) -> u32
    requires { v < 65536 }
    ensures { result ≡ sign_extended 16 v }
{
    if v < 0x8000 { v } else { v + 0xffff_0000 }
}

impl Store {
    /// LB.
    fn load_signed_byte(&self, x: u32) -> Made
        ensures { IsQuiet (load_cells Lb x (store_of self.now) (aligned_cells (store_of self.now) x 1)) result (store_of self.now) (store_of self.now) }
    {
        match self.byte_cell(x) {
            None => Made::Ends(Halt::Load(x)),
            Some(cell) => match byte_number(cell) {
                Ok(number) => Made::Gives(Value::Num(extend_byte(number))),
                Err(kind) => Made::Breaks(kind),
            },
        }
    }

    /// LBU.
    fn load_byte(&self, x: u32) -> Made
        ensures { IsQuiet (load_cells Lbu x (store_of self.now) (aligned_cells (store_of self.now) x 1)) result (store_of self.now) (store_of self.now) }
    {
        match self.byte_cell(x) {
            None => Made::Ends(Halt::Load(x)),
            Some(cell) => match byte_number(cell) {
                Ok(number) => Made::Gives(Value::Num(number)),
                Err(kind) => Made::Breaks(kind),
            },
        }
    }

    /// LH.
    fn load_signed_half(&self, x: u32) -> Made
        ensures { IsQuiet (load_cells Lh x (store_of self.now) (aligned_cells (store_of self.now) x 2)) result (store_of self.now) (store_of self.now) }
    {
        match self.half_cells(x) {
            None => Made::Ends(Halt::Load(x)),
            Some((first, second)) => match half_number(first, second) {
                Ok(number) => Made::Gives(Value::Num(extend_half(number))),
                Err(kind) => Made::Breaks(kind),
            },
        }
    }

    /// LHU.
    fn load_half(&self, x: u32) -> Made
        ensures { IsQuiet (load_cells Lhu x (store_of self.now) (aligned_cells (store_of self.now) x 2)) result (store_of self.now) (store_of self.now) }
    {
        match self.half_cells(x) {
            None => Made::Ends(Halt::Load(x)),
            Some((first, second)) => match half_number(first, second) {
                Ok(number) => Made::Gives(Value::Num(number)),
                Err(kind) => Made::Breaks(kind),
            },
        }
    }

    /// LW.
    fn load_word(&self, x: u32) -> Made
        ensures { IsQuiet (load_cells Lw x (store_of self.now) (aligned_cells (store_of self.now) x 4)) result (store_of self.now) (store_of self.now) }
    {
        match self.word_cells(x) {
            None => Made::Ends(Halt::Load(x)),
            Some(cells) => match word_value(&cells) {
                Ok(value) => Made::Gives(value),
                Err(kind) => Made::Breaks(kind),
            },
        }
    }

    /// A load outside text.
    fn load_outside(&self, kind: LoadKind, x: u32) -> Made
        ensures { IsQuiet (load_cells kind x (store_of self.now) (aligned_cells (store_of self.now) x (load_width kind))) result (store_of self.now) (store_of self.now) }
    {
        match kind {
            LoadKind::Lb => self.load_signed_byte(x),
            LoadKind::Lh => self.load_signed_half(x),
            LoadKind::Lw => self.load_word(x),
            LoadKind::Lbu => self.load_byte(x),
            LoadKind::Lhu => self.load_half(x),
        }
    }

    /// A load at an address.
    pub fn load(&self, setting: &Setting, kind: LoadKind, x: u32) -> Made
        ensures { IsQuiet (load_at (setting_of setting.now) kind x (store_of self.now)) result (store_of self.now) (store_of self.now) }
    {
        if setting.meets_text(x, load_width(kind)) {
            Made::Breaks(Kind::Text)
        } else {
            self.load_outside(kind, x)
        }
    }

    /// Writes a value; one that is tagged is written as a word.
    fn put_value(&mut self, kind: StoreKind, x: u32, value: Value)
        requires end { x + store_width kind ≤ 2 ^ 32 }
        requires ready { AreReady self.old.memory x (store_width kind) }
        requires whole { (is_tagged (value_of value) && not (is_word kind)) ≡ false }
        ensures { store_of self.new ≡ stored x (store_width kind) (value_of value) (store_of self.old) }
    {
        match (kind, value) {
            (StoreKind::Sb, Value::Num(number)) => self.put_byte(x, number),
            (StoreKind::Sh, Value::Num(number)) => self.put_half(x, number),
            (StoreKind::Sb | StoreKind::Sh, Value::Tagged(_)) => {}
            (StoreKind::Sw, _) => self.put_word(x, value),
        }
    }

    /// A store at an address.
    pub fn store(
        &mut self,
        setting: &Setting,
        kind: StoreKind,
        value: Value,
        x: u32,
    ) -> Result<Made, Memory>
        ensures ok { IfOk result (λ made. IsQuiet (store_at (setting_of setting.now) kind (value_of value) x (store_of self.old)) made (store_of self.old) (store_of self.new)) }
        ensures kept { OnErr result (store_of self.new ≡ store_of self.old) }
    {
        let width = store_width(kind);
        if value.is_tagged() && !is_word(kind) {
            return Ok(Made::Breaks(Kind::Fragment));
        }
        if setting.meets_text(x, width) {
            return Ok(Made::Breaks(Kind::Text));
        }
        if !setting.may_store(x, width) {
            return Ok(Made::Ends(Halt::Store(x)));
        }
        self.make_ready(x, width)?;
        self.put_value(kind, x, value);
        Ok(Made::Gives(Value::Num(0)))
    }
}

/// How many bytes a load takes.
fn load_width(kind: LoadKind) -> u32
    ensures { result ≡ load_width kind }
{
    match kind {
        LoadKind::Lb | LoadKind::Lbu => 1,
        LoadKind::Lh | LoadKind::Lhu => 2,
        LoadKind::Lw => 4,
    }
}

/// How many bytes a store takes.
fn store_width(kind: StoreKind) -> u32
    ensures value { result ≡ store_width kind }
    ensures least { 0 < result }
{
    match kind {
        StoreKind::Sb => 1,
        StoreKind::Sh => 2,
        StoreKind::Sw => 4,
    }
}

/// Whether a store is one of a whole word.
fn is_word(kind: StoreKind) -> bool
    ensures { result ≡ is_word kind }
{
    match kind {
        StoreKind::Sb | StoreKind::Sh => false,
        StoreKind::Sw => true,
    }
}
