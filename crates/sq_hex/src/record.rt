//! Records, each in a line.

ghost use Rattle.std.specs.Prelude.{◌≡◌, ◌≤◌, ◌%◌, length, sum, IfOk, IfSome, vec_len};
ghost use Rattle.std.specs.Option.{option_map};
ghost use Rattle.hex.specs.Hex.{decode_of};
ghost use Rattle.sq_hex.specs.Records.{is_record, checked, record_of};

use hex::FromHexError;
use sq_num::Memory;
use std::alloc::Global;

/// The sum of the bytes, modulo 256.
pub fn sum_of(bytes: &[u8]) -> u8
    ensures { result ≡ sum bytes.now % 256 }
{
    let mut sum = 0u8;
    for byte in bytes {
        sum = sum.wrapping_add(*byte);
    }
    sum
}

/// Whether the bytes are those of a record.
fn is_record(bytes: &[u8]) -> bool
    ensures { result ≡ is_record bytes.now }
{
    let count = bytes.first().copied().unwrap_or(0);
    bytes.len() == usize::from(count) + 5 && sum_of(bytes) == 0
}

/// The bytes that the digits spell, if they are those of a record.
fn decoded(alloc: Global, digits: &[u8]) -> Result<Option<Vec<u8>>, Memory>
    ensures value { IfOk result (λ found. option_map (λ bytes. bytes.items) found ≡ checked (decode_of digits.now)) }
    ensures short { IfOk result (λ found. IfSome found (λ bytes. vec_len bytes ≤ length digits.now)) }
{
    match hex::decode(alloc, digits) {
        Ok(bytes) => {
            let whole = is_record(&bytes);
            Ok(if whole { Some(bytes) } else { None })
        }
        Err(FromHexError::OutOfMemory) => Err(Memory),
        Err(_) => Ok(None),
    }
}

/// The bytes of the record in a line, or None where there is no record.
pub fn record_of(alloc: Global, line: &[u8]) -> Result<Option<Vec<u8>>, Memory>
    ensures value { IfOk result (λ found. option_map (λ bytes. bytes.items) found ≡ record_of line.now) }
    ensures short { IfOk result (λ found. IfSome found (λ bytes. vec_len bytes ≤ length line.now)) }
{
    match line.split_first() {
        Some((b':', digits)) => decoded(alloc, digits),
        _ => Ok(None),
    }
}
