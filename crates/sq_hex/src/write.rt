//! Texts as they are written.

ghost use Rattle.std.specs.Prelude.{◌≡◌, ℕ, ◌+◌, ◌/◌, ◌%◌, ◌^◌, ◌<◌, ◌≤◌, ◌∷◌, ◌++◌, [], List, length, IfOk, OnOk, Some};
ghost use Rattle.std.specs.List.Sorted.{IsStrictlySortedBy};
ghost use Rattle.std.specs.Map.{keys_of};
ghost use Rattle.std.specs.Ordering.{nat_cmp};
ghost use Rattle.sq_hex.specs.Flash.{Range, ranges_of, bytes_of, IsFlashOf};
ghost use Rattle.sq_hex.specs.Meaning.{HexMeaning, hex_meaning};
ghost use Rattle.sq_hex.specs.States.{AreBounded, meaning};
ghost use Rattle.sq_hex.specs.Texts.{text_of_ranges, record_bytes, record_line, base_line, data_text, cut, last_lines, IsHexTextOf};

use crate::flash::{file_bytes, loads_of};
use crate::record::sum_of;
use sq_elf::{Elf, Segment};
use sq_num::Memory;
use std::alloc::Global;

/// Types of records.
const DATA: u8 = 0;

const END: u8 = 1;

const BASE: u8 = 4;

const START: u8 = 5;

/// The bytes of a record.
fn record_bytes(alloc: Global, kind: u8, offset: u32, contents: &[u8]) -> Result<Vec<u8>, Memory>
    requires offset { offset < 65536 }
    requires few { length contents.now < 256 }
    ensures { IfOk result (λ bytes. bytes.items ≡ record_bytes kind offset contents.now) }
{
    let mut bytes = Vec::with_capacity(alloc, contents.len() + 5)?;
    bytes.push(contents.len() as u8)?;
    bytes.push((offset / 256) as u8)?;
    bytes.push((offset % 256) as u8)?;
    bytes.push(kind)?;
    bytes.extend_from_slice(contents)?;
    let sum = u16::from(sum_of(&bytes));
    bytes.push(((256 - sum) % 256) as u8)?;
    Ok(bytes)
}

/// Appends the line of a record.
#[tactic(auto, unfolding(crate::specs::Texts::record_line))]
fn push_record(
    alloc: Global,
    text: &mut Vec<u8>,
    kind: u8,
    offset: u32,
    contents: &[u8],
) -> Result<(), Memory>
    requires offset { offset < 65536 }
    requires few { length contents.now < 256 }
    ensures { OnOk result (text.new.items ≡ text.old.items ++ record_line kind offset contents.now) }
{
    let bytes = record_bytes(alloc, kind, offset, contents)?;
    let digits = hex::encode_upper(alloc, bytes.as_slice())?;
    text.push(b':')?;
    text.extend_from_slice(digits.as_bytes())?;
    text.push(b'\n')?;
    Ok(())
}

/// A text, and the base of its last record of one.
#[derive(Drop)]
struct Writer {
    text: Vec<u8>,
    base: Option<u32>,
}

impl Writer {
    /// Appends the record of a base, where the upper half of the address is not that of the last one.
    fn push_base(&mut self, alloc: Global, high: u32) -> Result<(), Memory>
        requires { high < 65536 }
        ensures text { OnOk result (self.new.text.items ≡ self.old.text.items ++ base_line self.old.base high) }
        ensures base { OnOk result (self.new.base ≡ Some high) }
    {
        if self.base == Some(high) {
            return Ok(());
        }
        self.base = Some(high);
        let bytes = [(high / 256) as u8, (high % 256) as u8];
        push_record(alloc, &mut self.text, BASE, 0, &bytes)
    }

    /// Appends the record of these bytes, and that of their base where it is needed.
    fn push_data(&mut self, alloc: Global, address: u32, bytes: &[u8]) -> Result<(), Memory>
        requires { length bytes.now < 256 }
        ensures text { OnOk result (self.new.text.items ≡ self.old.text.items ++ base_line self.old.base (address / 65536) ++ record_line 0 (address % 65536) bytes.now) }
        ensures base { OnOk result (self.new.base ≡ Some (address / 65536)) }
    {
        self.push_base(alloc, address / 65_536)?;
        push_record(alloc, &mut self.text, DATA, address % 65_536, bytes)
    }

    /// Appends the records of a range.
    fn push_range(&mut self, alloc: Global, address: u32, bytes: &[u8]) -> Result<(), Memory>
        requires { address + length bytes.now ≤ 2 ^ 32 }
        ensures { OnOk result ((later : List Range) → self.old.text.items ++ data_text self.old.base (cut address bytes.now ++ later)
            ≡ self.new.text.items ++ data_text self.new.base later) }
    {
        let mut done = 0;
        while done < bytes.len() {
            let at = address + done as u32;
            let size = ((16 - at % 16) as usize).min(bytes.len() - done);
            self.push_data(alloc, at, &bytes[done..done + size])?;
            done += size;
        }
        Ok(())
    }

    /// Appends the records of a start and of the end.
    fn push_last(&mut self, alloc: Global, entry: u32) -> Result<(), Memory>
        ensures { OnOk result (self.new.text.items ≡ self.old.text.items ++ last_lines entry) }
    {
        let high = entry / 65_536;
        let low = entry % 65_536;
        let bytes = [
            (high / 256) as u8,
            (high % 256) as u8,
            (low / 256) as u8,
            (low % 256) as u8,
        ];
        push_record(alloc, &mut self.text, START, 0, &bytes)?;
        push_record(alloc, &mut self.text, END, 0, &[])
    }
}

/// The text of what is loaded of these segments, and of an entry.
fn text_of(alloc: Global, file: &[u8], loads: &[Segment], entry: u32) -> Result<Vec<u8>, Memory>
    requires bounded { AreBounded loads.now }
    requires ascending { IsStrictlySortedBy nat_cmp (keys_of (bytes_of (ranges_of file.now loads.now))) }
    ensures text { IfOk result (λ text. text.items ≡ text_of_ranges (ranges_of file.now loads.now) entry) }
    ensures means { IfOk result (λ text. hex_meaning text.items ≡ Ok (meaning (bytes_of (ranges_of file.now loads.now)) (Some entry))) }
{
    let mut writer = Writer {
        text: Vec::new(alloc),
        base: None,
    };
    for segment in loads {
        writer.push_range(alloc, segment.load_address, file_bytes(file, *segment))?;
    }
    writer.push_last(alloc, entry)?;
    let Writer { text, base: _ } = writer;
    Ok(text)
}

/// The text of the file: its flash, its entry and the end.
pub fn hex_text(alloc: Global, elf: &Elf) -> Result<Vec<u8>, Memory>
    ensures text { IfOk result (λ text. IsHexTextOf elf.now text.items) }
    ensures means { IfOk result (λ text. (meaning : HexMeaning) × (hex_meaning text.items ≡ Ok meaning) × IsFlashOf elf.now meaning) }
{
    let file = elf.bytes();
    let loads = loads_of(alloc, elf)?;
    text_of(alloc, file, &loads, elf.entry())
}
