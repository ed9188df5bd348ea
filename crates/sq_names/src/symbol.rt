//! Symbols (System V gABI, Elf32_Sym).

ghost use Rattle.std.specs.Prelude.{◌≡◌, option_map};
ghost use Rattle.std.specs.List.{position};
ghost use Rattle.sq_names.specs.Symbols.{symbol_at, is_zero, ended, string_at};

use sq_elf::{Section, u32_field};

/// What is read of a symbol.
#[derive(Clone, Copy, Debug, PartialEq, Eq)]
pub struct Symbol {
    /// st_name: where its name begins in the string table.
    pub name: u32,
    /// st_value.
    pub value: u32,
    /// st_info: the type in the low four bits, the binding in the others.
    pub info: u32,
}

/// The bytes of a symbol.
pub const SYMBOL: u32 = 16;

/// Symbol `number` of a table.
#[tactic(auto, unfolding(crate::specs::Symbols::symbol_at))]
pub fn symbol_at(bytes: &[u8], table: Section, number: u32) -> Symbol
    ensures { result ≡ symbol_at bytes.now table number }
{
    let at = table.offset as usize + SYMBOL as usize * number as usize;
    Symbol {
        name: u32_field(bytes, at),
        value: if number == 0 {
            0
        } else {
            u32_field(bytes, at + 4)
        },
        info: u32_field(bytes, at + 12) % 256,
    }
}

/// The place of the first zero.
fn first_zero(bytes: &[u8]) -> Option<usize>
    ensures { result ≡ position is_zero bytes.now }
{
    bytes.iter().position(|byte| *byte == 0)
}

/// The bytes before the first zero, or None where there is no zero.
fn ended(bytes: &[u8]) -> Option<&[u8]>
    ensures { option_map (λ part. part.now) result ≡ ended bytes.now }
{
    match first_zero(bytes) {
        Some(end) => Some(&bytes[..end]),
        None => None,
    }
}

/// The string that begins at a place of a string table, or None where it doesn't end there.
pub fn string_at(strings: &[u8], at: u32) -> Option<&[u8]>
    ensures { option_map (λ name. name.now) result ≡ string_at strings.now at }
{
    match strings.get(at as usize..) {
        Some(rest) => ended(rest),
        None => None,
    }
}
