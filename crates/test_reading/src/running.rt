//! Memory, plain machines, and instructions on tagged values.

ghost use Rattle.std.specs.Prelude.{◌≡◌, ◌+◌, ◌^◌};

use crate::numbers::bytes_of;
use crate::texts::register;
use crate::words::{joined, shown, sure};
use anyhow::{Result, anyhow};
use sq_cases::{decimal, hexadecimal, numbers_of, push_words, size_of};
use sq_decode::decode;
use sq_machine::{LoadedPiece, Machine, NewFault};
use sq_memory::contents::{Contents, Region};
use sq_num::WordList;
use sq_pages::Pages;
use sq_system::{Extent, Log, Piece, Start, start_fits};
use sq_tagged::{AddressHalf, Registers, Setting, Store, Tag, Value, cells_of, row};
use std::alloc::Global;

/// Where the words of a program stand.
const TEXT: u32 = 0x0001_0000;

/// Memory of regions, which are apart by ` | `: where each begins, and its cells.
pub fn memory_of(alloc: Global, regions: &str) -> Result<Contents<u32>> {
    let mut found = Vec::new(alloc);
    for region in regions.split(" | ") {
        let (start, cells) = region.split_once(" ").ok_or(anyhow!("cells are wanted"))?;
        found.push(Region::new(hexadecimal(start)?, numbers_of(alloc, cells)?))?;
    }
    Ok(Contents::new(found))
}

/// What a verb on memory finds, or None for another verb.
pub fn memory_told(
    alloc: Global,
    memory: &mut Contents<u32>,
    verb: &str,
    words: &str,
) -> Result<Option<String>> {
    let (first, rest) = words.split_once(" ").unwrap_or((words, "0"));
    let (Ok(address), Ok(rest)) = (hexadecimal(first), numbers_of(alloc, rest)) else {
        return Ok(None);
    };
    let rest = rest.as_slice();
    let count = rest.first().copied().unwrap_or(0);
    Ok(Some(match verb {
        "cell" => shown(alloc, memory.get(address))?,
        "cells" => cells_told(alloc, memory, address, count)?,
        "put" => put(alloc, memory, address, count),
        "fill" => fill(alloc, memory, address, rest)?,
        _ => return Ok(None),
    }))
}

/// Writes a cell.
fn put(alloc: Global, memory: &mut Contents<u32>, address: u32, cell: u32) -> String {
    memory.put(address, cell);
    String::new(alloc)
}

/// How many addresses there are from one on.
fn addresses_from(address: u32) -> u64
    ensures { address + result ≡ 2 ^ 32 }
{
    (1 << 32) - u64::from(address)
}

/// The cells from an address on, or `none`.
fn cells_told(
    alloc: Global,
    memory: &mut Contents<u32>,
    address: u32,
    count: u32,
) -> Result<String> {
    if addresses_from(address) < u64::from(count) {
        return Err(anyhow!("too many cells"));
    }
    match memory.get_all(alloc, address, count)? {
        Some(cells) => joined(alloc, &cells),
        None => Ok(String::from_str(alloc, "none")?),
    }
}

/// Writes cells from an address on.
fn fill(alloc: Global, memory: &mut Contents<u32>, address: u32, cells: &[u32]) -> Result<String> {
    if addresses_from(address) < cells.len() as u64 {
        return Err(anyhow!("too many cells"));
    }
    memory.put_all(address, cells);
    Ok(String::new(alloc))
}

/// A machine over a program at 0x10000, or why there is none. The words are where RAM is, its size, and the program.
pub fn machine_of(alloc: Global, words: &str) -> Result<Result<Machine, NewFault>> {
    let numbers = numbers_of(alloc, words)?;
    let &[base, size, ref text @ ..] = numbers.as_slice() else {
        return Err(anyhow!("RAM is wanted"));
    };
    let mut bytes = Vec::new(alloc);
    push_words(&mut bytes, text)?;
    let extent = Extent {
        address: TEXT,
        length: size_of(text),
    };
    let loaded = LoadedPiece {
        piece: Piece { extent, flags: 5 },
        bytes: &bytes,
    };
    let words = WordList::new(alloc);
    let start = Start {
        words: &words,
        skip: 0,
        input: b"",
        base,
        size,
    };
    if !start_fits(base, size) {
        return Err(anyhow!("a start that fits is wanted"));
    }
    Ok(Machine::new(alloc, &[loaded], TEXT, &start))
}

/// What a verb on a machine finds, or None for another verb.
pub fn machine_told(
    alloc: Global,
    machine: &mut Machine,
    log: &mut Log,
    verb: &str,
    words: &str,
) -> Result<Option<String>> {
    Ok(Some(match verb {
        "pc" => shown(alloc, Some(machine.pc()))?,
        "holds" => held(alloc, machine, words)?,
        "step" => stepped(alloc, machine, log)?,
        "run" => ran(alloc, machine, log, words)?,
        _ => return Ok(None),
    }))
}

/// The number in a register.
fn held(alloc: Global, machine: &Machine, name: &str) -> Result<String> {
    let register = register(name)?;
    shown(alloc, Some(machine.register(register)))
}

/// What a step does.
fn stepped(alloc: Global, machine: &mut Machine, log: &mut Log) -> Result<String> {
    let moved = sure(machine.step(log))?;
    Ok(format!(in alloc; "{moved:?}")?)
}

/// How a run of so many steps stands.
fn ran(alloc: Global, machine: &mut Machine, log: &mut Log, steps: &str) -> Result<String> {
    let steps = decimal(steps)?;
    let outcome = sure(machine.run(log, u64::from(steps)))?;
    Ok(format!(in alloc; "{outcome:?}")?)
}

/// What an instruction on tagged values meets.
#[derive(Drop)]
pub struct Tagged {
    setting: Setting,
    registers: Registers,
    store: Store,
}

impl Tagged {
    /// Registers of zeros, no memory and no input.
    pub fn new(alloc: Global) -> Tagged {
        Tagged {
            setting: Setting {
                pieces: Vec::new(alloc),
                base: 0,
                size: 0,
                lo: 0,
                hi: 0,
            },
            registers: Registers::zeros(),
            store: Store {
                memory: Pages::new(alloc),
                input: Vec::new(alloc),
                read: 0,
                reservation: None,
            },
        }
    }

    /// What a verb finds, or None for another verb.
    pub fn told(
        &mut self,
        alloc: Global,
        log: &mut Log,
        verb: &str,
        words: &str,
    ) -> Result<Option<String>> {
        let (first, rest) = words.split_once(" ").unwrap_or((words, ""));
        match verb {
            "hold" => self.registers.set(register(first)?, value_of(rest)?),
            "input" => self.store.input = bytes_of(alloc, words)?,
            "lay" => self.lay(alloc, hexadecimal(first)?, rest)?,
            "world" => self.set_world(alloc, words)?,
            "row" => return Ok(Some(self.row(alloc, log, first, rest)?)),
            _ => return Ok(None),
        }
        Ok(Some(String::new(alloc)))
    }

    /// Sets where RAM is and its size, and where text begins and ends.
    fn set_world(&mut self, alloc: Global, words: &str) -> Result<()> {
        let numbers = numbers_of(alloc, words)?;
        let &[base, size, lo, hi] = numbers.as_slice() else {
            return Err(anyhow!("four numbers are wanted"));
        };
        self.setting.base = base;
        self.setting.size = size;
        self.setting.lo = lo;
        self.setting.hi = u64::from(hi);
        Ok(())
    }

    /// Lays bytes from an address on.
    fn lay(&mut self, alloc: Global, address: u32, bytes: &str) -> Result<()> {
        let cells = sure(cells_of(alloc, &bytes_of(alloc, bytes)?))?;
        if addresses_from(address) < cells.len() as u64 {
            return Err(anyhow!("too many bytes"));
        }
        self.store.memory.lay_all(address, &cells)?;
        Ok(())
    }

    /// What the instruction of a word makes, with a half of an address where that is said.
    fn row(&mut self, alloc: Global, log: &mut Log, word: &str, half: &str) -> Result<String> {
        let insn = decode(hexadecimal(word)?).ok_or(anyhow!("no instruction"))?;
        let half = half_of(half)?;
        let made = row(
            &self.setting,
            &self.registers,
            &mut self.store,
            log,
            half,
            &insn,
        );
        let made = sure(made)?;
        Ok(format!(in alloc; "{made:?}")?)
    }
}

/// A number, the address of code, or the upper half of an address.
fn value_of(words: &str) -> Result<Value> {
    let (kind, number) = words.split_once(" ").unwrap_or(("number", words));
    let number = hexadecimal(number)?;
    Ok(match kind {
        "number" => Value::Num(number),
        "code" => Value::Tagged(Tag::Code(number)),
        "part" => Value::Tagged(Tag::Part {
            to: number,
            word: None,
        }),
        _ => return Err(anyhow!("no value {kind:?}")),
    })
}

/// An upper or a lower half of an address, or none.
fn half_of(words: &str) -> Result<AddressHalf> {
    let (kind, to) = words.split_once(" ").unwrap_or((words, "0"));
    let to = hexadecimal(to)?;
    Ok(match kind {
        "" => AddressHalf::Plain,
        "upper" => AddressHalf::Upper { to, word: None },
        "lower" => AddressHalf::Lower(to),
        _ => return Err(anyhow!("no half {kind:?}")),
    })
}
