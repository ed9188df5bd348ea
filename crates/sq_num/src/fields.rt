//! Numbers in files, least byte first (the ELF data encoding ELFDATA2LSB of the System V gABI).

ghost use Rattle.std.specs.Prelude.{◌+◌, ◌≤◌, length, drop};
ghost use Rattle.std.specs.Option.{SomeIff};
ghost use Rattle.byteorder.specs.Endian.{little_number};

use byteorder::{ByteOrder, LittleEndian};

/// The number in the two bytes from `at` on, least byte first, or None where they are not all there.
pub fn u16_at(bytes: &[u8], at: usize) -> Option<u16>
    ensures { SomeIff result (at + 2 ≤ length bytes.now) (little_number 2 (drop at bytes.now)) }
{
    if bytes.len() < 2 || bytes.len() - 2 < at {
        return None;
    }
    Some(LittleEndian::read_u16(&bytes[at..]))
}

/// The number in the four bytes from `at` on, least byte first, or None where they are not all there.
pub fn u32_at(bytes: &[u8], at: usize) -> Option<u32>
    ensures { SomeIff result (at + 4 ≤ length bytes.now) (little_number 4 (drop at bytes.now)) }
{
    if bytes.len() < 4 || bytes.len() - 4 < at {
        return None;
    }
    Some(LittleEndian::read_u32(&bytes[at..]))
}
