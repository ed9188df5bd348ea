//! Texts as they are read.

ghost use Rattle.std.specs.Prelude.{◌≡◌, ℕ, ◌+◌, ◌≤◌, ◌^◌, length, IfOk, OnOk, Some, None};
ghost use Rattle.std.specs.BTreeMap.{btree_map_len};
ghost use Rattle.std.specs.Bool.{MatchBool};
ghost use Rattle.sq_hex.specs.Records.{count_of, data_of};
ghost use Rattle.sq_hex.specs.Meaning.{with_bytes, after_record, after_line, hex_meaning, first_state};
ghost use Rattle.sq_hex.specs.States.{state_of, FitsMemory};

use crate::command::{Command, command_of, offset_of};
use crate::image::HexImage;
use crate::line::first_line;
use crate::record::record_of;
use sq_num::Memory;
use std::alloc::Global;
use std::collections::BTreeMap;

/// Why a text has no meaning.
#[derive(Clone, Copy, Debug, PartialEq, Eq)]
pub enum HexFault {
    /// The first line at fault, counted from 1: the one behind the last where the end is missing.
    Line(u32),
    Memory,
}

impl From<Memory> for HexFault {
    ghost use Rattle.sq_hex.specs.declared.read.HexFault.TheVariants.{Memory};

    ghost from_gives = { λ _ fault. fault ≡ Memory };

    fn from(_error: Memory) -> HexFault {
        HexFault::Memory
    }
}

/// What the records so far have said.
#[derive(Drop)]
struct Reader {
    bytes: BTreeMap<u32, u8>,
    start: Option<u32>,
    base: u32,
    ended: bool,
}

/// The data of a record.
fn data_of(bytes: &[u8]) -> &[u8]
    ensures value { result.now ≡ data_of bytes.now }
    ensures short { length result.now ≤ length bytes.now }
    ensures counted { length result.now ≤ count_of bytes.now }
{
    let count = usize::from(bytes.first().copied().unwrap_or(0));
    let behind = bytes.get(4..).unwrap_or(&[]);
    behind.get(..count).unwrap_or(behind)
}

/// Loads the bytes one after another from the address on. Answers whether none of the addresses had one.
fn load(map: &mut BTreeMap<u32, u8>, address: u32, bytes: &[u8]) -> Result<bool, Memory>
    requires { address + length bytes.now ≤ 2 ^ 32 }
    ensures value { IfOk result (λ free. MatchBool free
        (with_bytes map.old.entries address bytes.now ≡ Some map.new.entries)
        (with_bytes map.old.entries address bytes.now ≡ None)) }
    ensures few { OnOk result (btree_map_len map.new ≤ btree_map_len map.old + length bytes.now) }
{
    for (index, byte) in bytes.iter().enumerate() {
        if map.insert(address + index as u32, *byte)?.is_some() {
            return Ok(false);
        }
    }
    Ok(true)
}

impl Reader {
    fn new(alloc: Global) -> Reader
        ensures value { state_of result ≡ first_state }
        ensures fits { FitsMemory result }
    {
        Reader {
            bytes: BTreeMap::new(alloc),
            start: None,
            base: 0,
            ended: false,
        }
    }

    /// Takes the record with these bytes. Answers whether it is not at fault.
    fn take_record(&mut self, bytes: &[u8]) -> Result<bool, Memory>
        requires { FitsMemory self.old }
        ensures value { IfOk result (λ good. MatchBool good
            (after_record (state_of self.old) (Some bytes.now) ≡ Some (state_of self.new))
            (after_record (state_of self.old) (Some bytes.now) ≡ None)) }
        ensures fits { OnOk result (FitsMemory self.new) }
        ensures few { OnOk result (btree_map_len self.new.bytes ≤ btree_map_len self.old.bytes + length bytes.now) }
    {
        match command_of(bytes) {
            None => Ok(false),
            Some(Command::Data) => {
                let address = self.base + offset_of(bytes);
                load(&mut self.bytes, address, data_of(bytes))
            }
            Some(Command::End) => {
                self.ended = true;
                Ok(true)
            }
            Some(Command::Base(base)) => {
                self.base = base;
                Ok(true)
            }
            Some(Command::Start(start)) => {
                let first = self.start.is_none();
                self.start = Some(start);
                Ok(first)
            }
        }
    }

    /// Takes the next line. Answers whether it is not at fault.
    fn take_line(&mut self, alloc: Global, line: &[u8]) -> Result<bool, Memory>
        requires { FitsMemory self.old }
        ensures value { IfOk result (λ good. MatchBool good
            (after_line (state_of self.old) line.now ≡ Some (state_of self.new))
            (after_line (state_of self.old) line.now ≡ None)) }
        ensures fits { OnOk result (FitsMemory self.new) }
        ensures few { OnOk result (btree_map_len self.new.bytes ≤ btree_map_len self.old.bytes + length line.now) }
    {
        if self.ended {
            return Ok(false);
        }
        match record_of(alloc, line)? {
            Some(bytes) => self.take_record(&bytes),
            None => Ok(false),
        }
    }
}

/// What the text means, or its first line at fault.
pub fn read_hex(alloc: Global, text: &[u8]) -> Result<HexImage, HexFault>
    requires { length text.now ≤ 134217728 }
    ensures read { IfOk result (λ image. hex_meaning text.now ≡ Ok image) }
    ensures fault { (line : ℕ) → result ≡ Err (HexFault.Line line) → hex_meaning text.now ≡ Err line }
{
    let mut reader = Reader::new(alloc);
    let mut rest = text;
    let mut number = 1u32;
    while !rest.is_empty() {
        let (line, behind) = first_line(rest);
        if !reader.take_line(alloc, line)? {
            return Err(HexFault::Line(number));
        }
        rest = behind;
        number += 1;
    }
    let Reader {
        bytes,
        start,
        base: _,
        ended,
    } = reader;
    if ended {
        Ok(HexImage::new(bytes, start))
    } else {
        Err(HexFault::Line(number))
    }
}
