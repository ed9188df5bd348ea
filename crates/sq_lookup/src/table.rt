//! Tables of values by names.

ghost use Rattle.std.specs.Prelude.{◌≡◌, ◌<◌, ℕ, Some, nat_eq, length, OnOk};
ghost use Rattle.std.specs.Map.{update};
ghost use Rattle.sq_lookup.specs.Tables.{value_at};

use sq_num::Memory;
use std::alloc::Global;
use std::marker::Model;

/// Makes room for a name, and for as many again, so that names in a row take few calls.
fn grow<T: Copy>(values: &mut Vec<Option<T>>, name: u32) -> Result<(), Memory>
    ensures room { OnOk result (name < length values.new.items) }
    ensures same { (n : ℕ) → value_at values.new.items n ≡ value_at values.old.items n }
{
    let len = values.len();
    if len <= name as usize {
        let room = len.saturating_mul(2).max(name as usize + 1);
        values.resize(room, None)?;
    }
    Ok(())
}

/// Puts a value under a name.
pub(crate) fn put<T: Copy>(values: &mut Vec<Option<T>>, name: u32, value: T) -> Result<(), Memory>
    ensures { OnOk result ((n : ℕ) → value_at values.new.items n ≡ update nat_eq (value_at values.old.items) name (Some value) n) }
{
    grow(values, name)?;
    values[name as usize] = Some(value);
    Ok(())
}

/// The value under a name.
pub(crate) fn value<T: Copy>(values: &[Option<T>], name: u32) -> Option<T>
    ensures { result ≡ value_at values.now name }
{
    let name = name as usize;
    if name < values.len() {
        values[name]
    } else {
        None
    }
}

/// Numbers under names of blocks or under procedures. It takes as much memory as the greatest of these says, which are
/// small numbers.
#[derive(Drop)]
pub struct Table {
    numbers: Vec<Option<u64>>,
}

impl Model for Table {
    ghost use Rattle.std.specs.Prelude.{ℕ, List, Option};

    ghost Value = { List (Option ℕ) };

    ghost view = { λ t. t.numbers.items };
}

impl Table {
    ghost use Rattle.std.specs.Prelude.{◌≡◌, ℕ, [], Some, nat_eq, OnOk};
    ghost use Rattle.std.specs.Map.{update};
    ghost use Rattle.sq_lookup.specs.Tables.{number_at};

    pub fn new(alloc: Global) -> Table
        ensures { result ≡ [] }
    {
        Table {
            numbers: Vec::new(alloc),
        }
    }

    pub fn insert(&mut self, name: u32, number: u64) -> Result<(), Memory>
        ensures { OnOk result ((n : ℕ) → number_at self.new n ≡ update nat_eq (number_at self.old) name (Some number) n) }
    {
        put(&mut self.numbers, name, number)
    }

    pub fn get(&self, name: u32) -> Option<u64>
        ensures { result ≡ number_at self.now name }
    {
        value(&self.numbers, name)
    }
}
