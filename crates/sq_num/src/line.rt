//! A short text that is made without memory.

ghost use Rattle.std.specs.Prelude.{◌≡◌, [], ◌++◌, ◌+◌, ◌%◌, ◌≤◌, length, decimal};
ghost use Rattle.sq_num.specs.Texts.{hex_text, hex_digit};

use itoa::Buffer;
use std::marker::Model;

/// The most bytes that a line holds.
const SIZE: usize = 96;

/// A text of at most 96 bytes.
#[derive(Debug, Drop)]
pub struct Line {
    bytes: [u8; SIZE],
    used: usize,
}

impl Model for Line {
    ghost use Rattle.std.specs.Prelude.{List, ℕ, take, ◌≤◌};

    ghost Value = { List ℕ };

    ghost view = { λ l. take l.used l.bytes };

    ghost invariant = { λ l. l.used ≤ 96 };
}

/// The lower case hexadecimal digit of the low four bits of `v`.
fn low_hex_digit(v: u32) -> u8
    ensures { result ≡ hex_digit (v % 16) }
{
    let digit = (v % 16) as u8;
    if digit < 10 {
        b'0' + digit
    } else {
        b'a' + (digit - 10)
    }
}

impl Line {
    /// The empty line.
    pub fn new() -> Line
        ensures { result ≡ [] }
    {
        Line {
            bytes: [0; SIZE],
            used: 0,
        }
    }

    /// How many bytes still fit.
    pub fn room(&self) -> usize
        ensures { result + length self.now ≡ 96 }
    {
        SIZE - self.used
    }

    /// The bytes of the line.
    pub fn as_slice(&self) -> &[u8]
        ensures value { result.now ≡ self.now }
        ensures short { length self.now ≤ 96 }
    {
        &self.bytes[..self.used]
    }

    /// Appends `text`.
    pub fn push_text(&mut self, text: &str)
        requires { length self.old + length text.now ≤ 96 }
        ensures { self.new ≡ self.old ++ text.now }
    {
        let end = self.used + text.len();
        self.bytes[self.used..end].copy_from_slice(text.as_bytes());
        self.used = end;
    }

    /// Appends the ten bytes of `v` as `0x` and eight lower case digits.
    pub fn push_hex(&mut self, v: u32)
        requires { length self.old + 10 ≤ 96 }
        ensures { self.new ≡ self.old ++ hex_text v }
    {
        let end = self.used + 10;
        self.bytes[self.used..end].copy_from_slice(&[
            b'0',
            b'x',
            low_hex_digit(v / 0x1000_0000),
            low_hex_digit(v / 0x100_0000),
            low_hex_digit(v / 0x10_0000),
            low_hex_digit(v / 0x1_0000),
            low_hex_digit(v / 0x1000),
            low_hex_digit(v / 0x100),
            low_hex_digit(v / 0x10),
            low_hex_digit(v),
        ]);
        self.used = end;
    }

    /// Appends `v` in decimal, at most 20 bytes.
    pub fn push_number(&mut self, v: u64)
        requires { length self.old + length (decimal v) ≤ 96 }
        ensures { self.new ≡ self.old ++ decimal v }
    {
        let mut digits = Buffer::new();
        self.push_text(digits.format(v));
    }
}
