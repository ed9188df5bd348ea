//! Starts, system calls, and the lines of events and ends.

use crate::numbers::{bytes_of, line_text};
use crate::reading::words_in;
use crate::words::{number, sure, two};
use anyhow::{Result, anyhow};
use sq_cases::{hexadecimal, numbers_of};
use sq_num::{Bytes, WordList};
use sq_system::{
    CallArgs, Event, Extent, Halt, Log, Start, argument_area, call_answer, call_effect, end_line,
    is_bad_start, ram_at_start, start_fits, start_pointer,
};
use std::alloc::Global;
use std::str;

/// What a verb on starts and calls finds, or None for another verb.
pub fn told(alloc: Global, verb: &str, words: &str) -> Result<Option<String>> {
    Ok(Some(match verb {
        "start" | "area" | "ram" => start_told(alloc, verb, words)?,
        "fit" => fit(alloc, words)?,
        "call" => call_told(alloc, words)?,
        "end" => end_told(alloc, words)?,
        _ => return Ok(None),
    }))
}

/// Whether a start can have RAM there.
fn fit(alloc: Global, words: &str) -> Result<String> {
    let (base, size) = two(words)?;
    let (base, size) = (hexadecimal(base)?, hexadecimal(size)?);
    Ok(format!(in alloc; "{}", start_fits(base, size))?)
}

/// The line of an end.
fn end_told(alloc: Global, words: &str) -> Result<String> {
    let halt = halt_of(words)?;
    line_text(alloc, &end_line(halt))
}

/// Of a start its stack pointer and whether it is bad over a piece of 16 bytes at 0x10000; its arguments as words; or how
/// much RAM it has, and the words from the stack pointer on. The words are where RAM is, its size, and the arguments.
fn start_told(alloc: Global, verb: &str, words: &str) -> Result<String> {
    let mut list = WordList::new(alloc);
    for word in words.split_whitespace() {
        sure(list.push(word))?;
    }
    let base = hexadecimal(list.get(0).unwrap_or(""))?;
    let size = hexadecimal(list.get(1).unwrap_or(""))?;
    let start = Start {
        words: &list,
        skip: 2,
        input: b"",
        base,
        size,
    };
    if !start_fits(base, size) {
        return Err(anyhow!("a start that fits is wanted"));
    }
    let piece = Extent {
        address: 0x0001_0000,
        length: 16,
    };
    let Some(pointer) = start_pointer(&start) else {
        return Ok(format!(in alloc; "none {}", is_bad_start(&start, &[piece]))?);
    };
    Ok(match verb {
        "start" => format!(in alloc; "{pointer:x} {}", is_bad_start(&start, &[piece]))?,
        "area" => words_in(alloc, &sure(argument_area(alloc, &start))?)?,
        _ => {
            let ram = sure(ram_at_start(alloc, &start))?;
            let from = pointer.wrapping_sub(base) as usize;
            let tail = ram.as_slice().get(from..).ok_or(anyhow!("too little RAM"))?;
            format!(in alloc; "{:x}: {}", ram.len(), words_in(alloc, tail)?)?
        }
    })
}

/// The effect of a call with this a7, a0 and a2, which finds 64 KiB of RAM at 0x100000, three bytes of input and a
/// buffer that may be read and written where that is said; and what a0 becomes.
fn call_told(alloc: Global, words: &str) -> Result<String> {
    let (words, allowed) = words.split_once(" | ").unwrap_or((words, ""));
    let numbers = numbers_of(alloc, words)?;
    let &[number, a0, a2] = numbers.as_slice() else {
        return Err(anyhow!("three numbers are wanted"));
    };
    let call = CallArgs {
        number,
        a0,
        a1: 0,
        a2,
        base: 0x0010_0000,
        size: 0x0001_0000,
        left: 3,
        readable: allowed.contains("read"),
        writable: allowed.contains("write"),
    };
    let effect = call_effect(&call);
    Ok(match call_answer(&call, &effect) {
        Some(a0) => format!(in alloc; "{effect:?} {a0:x}")?,
        None => format!(in alloc; "{effect:?}")?,
    })
}

/// The end of a name and a number.
fn halt_of(words: &str) -> Result<Option<Halt>> {
    let (name, place) = words.split_once(" ").unwrap_or((words, "0"));
    let place = number(place)?;
    Ok(Some(match name {
        "Exit" => Halt::Exit(place),
        "Illegal" => Halt::Illegal,
        "Breakpoint" => Halt::Breakpoint,
        "Fetch" => Halt::Fetch(place),
        "Load" => Halt::Load(place),
        "Store" => Halt::Store(place),
        "none" => return Ok(None),
        _ => return Err(anyhow!("no end {name:?}")),
    }))
}

/// Appends an event to a log.
pub fn push_event(alloc: Global, log: &mut Log, words: &str) -> Result<()> {
    let event = event_of(alloc, words)?;
    sure(log.push(event))
}

/// The event of a name, with numbers or bytes.
fn event_of(alloc: Global, words: &str) -> Result<Event> {
    let (name, rest) = words.split_once(" ").unwrap_or((words, ""));
    let (first, second) = rest.split_once(" ").unwrap_or((rest, "0"));
    Ok(match name {
        "Wrote" => Event::Wrote {
            fd: number(first)?,
            bytes: Bytes::from_vec(bytes_of(alloc, second)?),
        },
        "Read" => Event::Read {
            bytes: Bytes::from_vec(bytes_of(alloc, rest)?),
        },
        "Brk" => Event::Brk {
            answer: number(first)?,
        },
        "Failed" => Event::Failed {
            number: number(first)?,
            code: number(second)?,
        },
        "Asked" => Event::Asked {
            number: number(first)?,
        },
        _ => return Err(anyhow!("no event {name:?}")),
    })
}

/// The lines of a log.
pub fn lines_of(alloc: Global, log: &Log) -> Result<String> {
    let lines = sure(sq_system::event_lines(alloc, log))?;
    Ok(String::from_str(alloc, str::from_utf8(&lines)?)?)
}
