//! Registers, items and terms as texts.

use anyhow::{Context, Error};
use sq_cases::{CaseError, decimal, hexadecimal};
use sq_decode::decode;
use sq_graph::{Item, Term};
use sq_isa::{Cond, Reg};
use std::alloc::{AllocError, Global};

/// The names of the registers, by their numbers.
const REGISTERS: &str =
    "zero ra sp gp tp t0 t1 t2 s0 s1 a0 a1 a2 a3 a4 a5 a6 a7 s2 s3 s4 s5 s6 s7 s8 s9 s10 s11 t3 t4 t5 t6";

/// The words of a text, which are apart by spaces.
pub fn fields(alloc: Global, text: &str) -> Result<Vec<&str>, AllocError> {
    let mut fields = Vec::new(alloc);
    for word in text.split_whitespace() {
        fields.push(word)?;
    }
    Ok(fields)
}

/// The register of this name.
pub fn register_of(name: &str) -> Result<Reg, Error> {
    for (number, register) in (0..32).zip(REGISTERS.split_whitespace()) {
        if register == name {
            return Reg::new(number).context("a register");
        }
    }
    Err(Error::msg("no register of this name"))
}

/// The name of a register.
pub fn register_name(r: Reg) -> &'static str {
    for (number, name) in (0..32).zip(REGISTERS.split_whitespace()) {
        if number == r.number() {
            return name;
        }
    }
    ""
}

/// The condition of this name.
fn cond_of(name: &str) -> Result<Cond, Error> {
    Ok(match name {
        "beq" => Cond::Beq,
        "bne" => Cond::Bne,
        "blt" => Cond::Blt,
        "bge" => Cond::Bge,
        "bltu" => Cond::Bltu,
        "bgeu" => Cond::Bgeu,
        _ => return Err(Error::msg("no condition of this name")),
    })
}

/// The name of a condition.
pub fn cond_name(cond: Cond) -> &'static str {
    match cond {
        Cond::Beq => "beq",
        Cond::Bne => "bne",
        Cond::Blt => "blt",
        Cond::Bge => "bge",
        Cond::Bltu => "bltu",
        Cond::Bgeu => "bgeu",
    }
}

/// The instruction word of this text in the table `words`; of a text that isn't there, the number in hexadecimal digits.
fn word_of(words: &str, text: &str) -> Result<u32, CaseError> {
    for line in words.lines() {
        match line.split_once(" | ") {
            Some((word, named)) if named == text => return hexadecimal(word),
            _ => {}
        }
    }
    hexadecimal(text)
}

/// The item of a text: `hi RD BLOCK`, `lo RD RS BLOCK`, `out PROCEDURE` or an instruction word.
pub fn item_of(alloc: Global, words: &str, text: &str) -> Result<Item, Error> {
    let fields = fields(alloc, text)?;
    Ok(match fields.as_slice() {
        &["hi", rd, to] => Item::Hi {
            rd: register_of(rd)?,
            to: decimal(to)?,
        },
        &["lo", rd, rs, to] => Item::Lo {
            rd: register_of(rd)?,
            rs: register_of(rs)?,
            to: decimal(to)?,
        },
        &["out", procedure] => Item::Out {
            procedure: decimal(procedure)?,
        },
        _ => Item::Op(decode(word_of(words, text)?).context("no instruction")?),
    })
}

/// The term of a text: `fall`, `jump BLOCK`, `branch COND A B BLOCK`, `call LINK BLOCK`, `part-jump LINK PART BLOCK`,
/// `indirect LINK AT OFFSET` or `stop WORD`.
pub fn term_of(alloc: Global, text: &str) -> Result<Term, Error> {
    let fields = fields(alloc, text)?;
    Ok(match fields.as_slice() {
        &["fall"] => Term::Fall,
        &["jump", to] => Term::Jump { to: decimal(to)? },
        &["branch", cond, a, b, to] => Term::Branch {
            cond: cond_of(cond)?,
            a: register_of(a)?,
            b: register_of(b)?,
            to: decimal(to)?,
        },
        &["call", link, to] => Term::Call {
            link: register_of(link)?,
            to: decimal(to)?,
        },
        &["part-jump", link, part, to] => Term::PartJump {
            link: register_of(link)?,
            part: register_of(part)?,
            to: decimal(to)?,
        },
        &["indirect", link, at, offset] => Term::Indirect {
            link: register_of(link)?,
            at: register_of(at)?,
            offset: offset.parse::<i32>().map_err(|_| CaseError::Number)?,
        },
        &["stop", word] => Term::Stop {
            word: hexadecimal(word)?,
        },
        _ => return Err(Error::msg("no such term")),
    })
}
