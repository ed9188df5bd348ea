//! Cuts and savings as texts.

use crate::terms::{register_name, register_of};
use crate::texts::{memory, position};
use anyhow::Error;
use sq_cases::decimal;
use sq_isa::Reg;
use sq_num::{Memory, Savings};
use sq_pass::{Blocks, Cut, Row};
use std::alloc::Global;

/// The row of this name.
fn row_of(name: &str) -> Result<Row, Error> {
    Ok(match name {
        "U" => Row::U,
        "J1" => Row::J1,
        "J2" => Row::J2,
        "J3" => Row::J3,
        "C" => Row::C,
        "T" => Row::T,
        "O1" => Row::O1,
        "O2" => Row::O2,
        "O3" => Row::O3,
        "O4" => Row::O4,
        "W" => Row::W,
        "V" => Row::V,
        "L" => Row::L,
        _ => return Err(Error::msg("no row of this name")),
    })
}

/// Puts a word behind a key into a cut. Blocks are called by their positions among `names`.
fn set_field(cut: &mut Cut, names: &[u32], key: &str, word: &str) -> Result<(), Error> {
    match key {
        "blocks" => {
            let name = names.get(decimal(word)? as usize).copied();
            cut.blocks.push(name.unwrap_or(u32::MAX)).map_err(memory)?;
        }
        "procedure" => cut.procedure = decimal(word)?,
        "other" => cut.other = decimal(word)?,
        "length" => cut.length = decimal(word)?,
        "link" => cut.link = register_of(word)?,
        "saving" => cut.saving = decimal(word)?,
        _ => return Err(Error::msg("no such field of a cut")),
    }
    Ok(())
}

/// The cut of a text: its row, and then its fields, each a key and what stands behind it. A field that isn't there is 0,
/// x0 or empty.
pub fn cut_of(alloc: Global, names: &[u32], text: &str) -> Result<Cut, Error> {
    let (row, fields) = text.split_once(" ").unwrap_or((text, ""));
    let mut cut = Cut {
        row: row_of(row)?,
        blocks: Blocks::new(alloc),
        procedure: 0,
        other: 0,
        length: 0,
        link: Reg::from_low_bits(0),
        saving: 0,
    };
    let mut key = "";
    for word in fields.split_whitespace() {
        match word {
            "blocks" | "procedure" | "other" | "length" | "link" | "saving" => key = word,
            _ => set_field(&mut cut, names, key, word)?,
        }
    }
    Ok(cut)
}

/// Names and the numbers that aren't 0.
fn fields_text(alloc: Global, fields: &[(&str, u32)]) -> Result<String, Memory> {
    let mut text = String::new(alloc);
    for (name, number) in fields {
        if *number > 0 {
            text.push_str(&format!(in alloc; " {name} {number}")?)?;
        }
    }
    Ok(text)
}

/// The text of a cut, or `none`.
pub fn cut_text(alloc: Global, names: &[u32], cut: Option<&Cut>) -> Result<String, Memory> {
    let Some(cut) = cut else {
        return Ok(String::from_str(alloc, "none")?);
    };
    let mut text = format!(in alloc; "{:?}", cut.row)?;
    for (count, name) in cut.blocks.as_slice().iter().enumerate() {
        let key = if count == 0 { " blocks" } else { "" };
        text.push_str(&format!(in alloc; "{key} {}", position(names, *name))?)?;
    }
    let numbers = [
        ("procedure", cut.procedure),
        ("other", cut.other),
        ("length", cut.length),
    ];
    text.push_str(&fields_text(alloc, &numbers)?)?;
    if cut.link.number() > 0 {
        text.push_str(&format!(in alloc; " link {}", register_name(cut.link))?)?;
    }
    text.push_str(&fields_text(alloc, &[("saving", cut.saving)])?)?;
    Ok(text)
}

/// The rows that saved words, each with how many, or `none`.
pub fn savings_text(alloc: Global, savings: &Savings) -> Result<String, Memory> {
    let rows = [
        ("u", savings.u),
        ("j1", savings.j1),
        ("j2", savings.j2),
        ("j3", savings.j3),
        ("c", savings.c),
        ("t", savings.t),
        ("o1", savings.o1),
        ("o2", savings.o2),
        ("o3", savings.o3),
        ("o4", savings.o4),
        ("moved", savings.moved),
    ];
    let text = fields_text(alloc, &rows)?;
    let told = if text.is_empty() { "none" } else { text.trim() };
    Ok(String::from_str(alloc, told)?)
}
