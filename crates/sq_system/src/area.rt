//! The argument area, and RAM as a run starts with it.

ghost use Rattle.std.specs.Prelude.{◌≡◌, ◌+◌, ◌≤◌, ◌^◌, ◌++◌, length, replicate, IfOk, OnOk};
ghost use Rattle.byteorder.specs.Endian.{little_bytes};
ghost use Rattle.sq_system.specs.Starts.{start_of, StartFits, HasRoom, area_room, argument_bytes, addresses_from, word_bytes, ram_end, stack_pointer, argument_area, ram_at_start};

use crate::start::{Start, room_left, word_at};
use byteorder::{ByteOrder, LittleEndian};
use sq_num::Memory;
use std::alloc::Global;

/// The bytes from the stack pointer up to the end of RAM: how many arguments there are, their
/// addresses, two zero words, and at the end of RAM the arguments.
pub fn argument_area(alloc: Global, start: &Start) -> Result<Vec<u8>, Memory>
    requires fits { StartFits start.now.base start.now.size }
    requires room { HasRoom (start_of start.now) }
    ensures bytes { IfOk result (λ area. area.items ≡ argument_area (start_of start.now)) }
    ensures length { IfOk result (λ area. stack_pointer (start_of start.now) + length area.items ≡ ram_end (start_of start.now)) }
{
    let room = room_left(start).unwrap();
    let mut area = Vec::new(alloc);
    push_area(&mut area, start, room)?;
    Ok(area)
}

/// RAM as a run starts with it: zeros up to the stack pointer, and then the argument area.
pub fn ram_at_start(alloc: Global, start: &Start) -> Result<Vec<u8>, Memory>
    requires fits { StartFits start.now.base start.now.size }
    requires room { HasRoom (start_of start.now) }
    ensures bytes { IfOk result (λ ram. ram.items ≡ ram_at_start (start_of start.now)) }
    ensures length { IfOk result (λ ram. length ram.items ≡ start.now.size) }
{
    let room = room_left(start).unwrap();
    let mut ram = vec![in alloc; 0; room - room % 16]?;
    push_area(&mut ram, start, room)?;
    Ok(ram)
}

/// Appends the argument area of a start whose arguments and their words leave `room` bytes of RAM.
fn push_area(area: &mut Vec<u8>, start: &Start, room: usize) -> Result<(), Memory>
    requires fits { StartFits start.now.base start.now.size }
    requires room { room + area_room (start_of start.now) ≡ start.now.size }
    ensures { OnOk result (area.new.items ≡ area.old.items ++ argument_area (start_of start.now)) }
{
    let count = start.words.len().saturating_sub(start.skip) as u32;
    let first = u64::from(start.base) + room as u64 + 4 * (u64::from(count) + 3);
    push_word(area, count)?;
    push_addresses(area, start, first)?;
    push_zeros(area, 8 + room % 16)?;
    push_arguments(area, start)
}

/// Appends four bytes, the least first.
fn push_word(area: &mut Vec<u8>, word: u32) -> Result<(), Memory>
    ensures { OnOk result (area.new.items ≡ area.old.items ++ little_bytes 4 word) }
{
    let mut field = [0; 4];
    LittleEndian::write_u32(&mut field, word);
    area.extend_from_slice(&field)?;
    Ok(())
}

/// Appends at most 24 zeros: two zero words, and what rounding leaves.
fn push_zeros(area: &mut Vec<u8>, count: usize) -> Result<(), Memory>
    requires { count ≤ 24 }
    ensures { OnOk result (area.new.items ≡ area.old.items ++ replicate count 0) }
{
    let zeros = [0; 24];
    area.extend_from_slice(&zeros[..count])?;
    Ok(())
}

/// Appends the addresses of the arguments, of which the first stands at `first`.
fn push_addresses(area: &mut Vec<u8>, start: &Start, first: u64) -> Result<(), Memory>
    requires { first + length (argument_bytes (start_of start.now).arguments) ≤ 2 ^ 32 }
    ensures { OnOk result (area.new.items ≡ area.old.items ++ word_bytes (addresses_from first (start_of start.now).arguments)) }
{
    let mut address = first;
    for index in start.skip..start.words.len() {
        let argument = word_at(start.words, index);
        push_word(area, address as u32)?;
        address += argument.len() as u64 + 1;
    }
    Ok(())
}

/// Appends the arguments, each with a zero byte.
fn push_arguments(area: &mut Vec<u8>, start: &Start) -> Result<(), Memory>
    ensures { OnOk result (area.new.items ≡ area.old.items ++ argument_bytes (start_of start.now).arguments) }
{
    for index in start.skip..start.words.len() {
        area.extend_from_slice(word_at(start.words, index).as_bytes())?;
        area.push(0)?;
    }
    Ok(())
}
