//! What is told of equal keys and of bodies that may be equal: numbers, fingerprints, classes, windows and matches.

ghost use Rattle.std.specs.Prelude.{◌<◌, ◌^◌, length};

use crate::changes::is_block;
use crate::terms::register_name;
use crate::texts::{insn_text, memory, names_of, position};
use anyhow::{Context, Error};
use sq_cases::{decimal, expect};
use sq_finger::{classes, fingerprint, first_double, number_all, number_longer_runs, windows};
use sq_graph::{Graph, Item};
use sq_isa::Reg;
use sq_live::live;
use sq_num::Memory;
use sq_rename::{Renaming, matches, matches_body, rename};
use std::alloc::Global;

/// Numbers apart by spaces, with `-` where there is none.
fn options_of(alloc: Global, words: &str) -> Result<Vec<Option<u32>>, Error> {
    let mut options = Vec::new(alloc);
    for word in words.split_whitespace() {
        options.push(if word == "-" {
            None
        } else {
            Some(decimal(word)?)
        })?;
    }
    Ok(options)
}

/// The same as a text.
fn options_text(alloc: Global, options: &[Option<u32>]) -> Result<String, Memory> {
    let mut text = String::new(alloc);
    for option in options {
        match option {
            Some(number) => text.push_str(&format!(in alloc; " {number}")?)?,
            None => text.push_str(" -")?,
        }
    }
    Ok(text)
}

/// The numbers of keys, those of each key with the one behind it, or the first double among keys.
fn numbers_text(alloc: Global, verb: &str, keys: &[Option<u32>]) -> Result<String, Memory>
    requires { length keys.now < 2 ^ 32 }
{
    if verb == "double" {
        return Ok(match first_double(alloc, keys)? {
            Some((i, j)) => format!(in alloc; "{i} {j}")?,
            None => String::from_str(alloc, "none")?,
        });
    }
    let numbers = number_all(alloc, keys)?;
    if verb == "pairs" {
        let pairs = number_longer_runs(alloc, &numbers, &numbers)?;
        return options_text(alloc, &pairs);
    }
    options_text(alloc, &numbers)
}

/// Whether keys have what is wanted: `numbers KEYS gives NUMBERS`, `pairs KEYS gives NUMBERS` or `double KEYS gives
/// FIRST SECOND`.
pub fn expect_numbers(alloc: Global, verb: &str, words: &str) -> Result<bool, Error> {
    let (keys, wanted) = words.split_once(" gives ").context("nothing is wanted")?;
    let keys = options_of(alloc, keys)?;
    if keys.len() >= 1_000_000 {
        return Err(Error::msg("too many keys"));
    }
    let found = numbers_text(alloc, verb, &keys).map_err(memory)?;
    expect(wanted, found.trim())?;
    Ok(true)
}

/// The positions of the blocks in their classes, which are apart by ` | `.
pub fn classes_text(alloc: Global, graph: &Graph) -> Result<String, Memory> {
    let names = names_of(alloc, graph)?;
    let classes = classes(alloc, graph)?;
    let mut text = String::new(alloc);
    for class in 0..classes.len() {
        text.push_str(if class > 0 { " |" } else { "" })?;
        for name in classes.members(class) {
            text.push_str(&format!(in alloc; " {}", position(&names, *name))?)?;
        }
    }
    String::from_str(alloc, text.trim()).map_err(Memory::from)
}

/// The places of the windows of n items in their classes, each a position, a dot and the first item.
fn windows_text(alloc: Global, graph: &Graph, n: u32) -> Result<String, Memory> {
    if n < 3 || n > 16 {
        return Ok(String::from_str(alloc, "no windows")?);
    }
    let names = names_of(alloc, graph)?;
    let classes = windows(alloc, graph, n)?;
    let mut text = String::new(alloc);
    for class in 0..classes.len() {
        text.push_str(if class > 0 { " |" } else { "" })?;
        for place in classes.members(class) {
            let block = position(&names, place.block);
            text.push_str(&format!(in alloc; " {block}.{}", place.at)?)?;
        }
    }
    let told = if text.is_empty() { "none" } else { text.trim() };
    Ok(String::from_str(alloc, told)?)
}

/// The renaming by which the body of a block matches that of another block, or with `matches_body` of a procedure.
fn renaming(
    alloc: Global,
    graph: &Graph,
    verb: &str,
    block: u32,
    other: u32,
) -> Result<Option<Renaming>, Memory> {
    let names = names_of(alloc, graph)?;
    let live = live(alloc, graph)?;
    let block = names.get(block as usize).copied().unwrap_or(u32::MAX);
    if !is_block(graph, block) {
        return Ok(None);
    }
    if verb == "matches_body" {
        if graph.procedures() <= other {
            return Ok(None);
        }
        return Ok(matches_body(graph, &live, block, other));
    }
    let other = names.get(other as usize).copied().unwrap_or(u32::MAX);
    if !is_block(graph, other) {
        return Ok(None);
    }
    Ok(matches(graph, &live, block, other))
}

/// Each register that gets another, and that one, or `same`.
fn renaming_text(alloc: Global, by: &Renaming) -> Result<String, Memory> {
    let mut text = String::new(alloc);
    for number in 0..32 {
        let r = Reg::from_low_bits(number);
        let s = by.of(r);
        if s != r {
            let (r, s) = (register_name(r), register_name(s));
            text.push_str(&format!(in alloc; " {r} {s}")?)?;
        }
    }
    let told = if text.is_empty() { "same" } else { text.trim() };
    Ok(String::from_str(alloc, told)?)
}

/// The instructions among items with other registers, apart by ` ; `.
fn renamed_text(
    alloc: Global,
    words: &str,
    items: &[Item],
    by: &Renaming,
) -> Result<String, Memory> {
    let mut text = String::new(alloc);
    for item in items {
        if let Item::Op(insn) = item {
            let gap = if text.is_empty() { "" } else { " ; " };
            let renamed = insn_text(alloc, words, &rename(insn, by))?;
            text.push_str(&format!(in alloc; "{gap}{renamed}")?)?;
        }
    }
    Ok(text)
}

/// What a verb tells of blocks, which are called by their positions: `fingerprint BLOCK`, `window_classes N`,
/// `matches BLOCK BLOCK`, `matches_body BLOCK PROCEDURE` or `rename BLOCK BLOCK`.
pub fn body_text(
    alloc: Global,
    words: &str,
    graph: &Graph,
    verb: &str,
    operands: &[u32],
) -> Result<String, Memory> {
    let (first, second) = match operands {
        &[first] => (first, 0),
        &[first, second] => (first, second),
        _ => return Ok(String::from_str(alloc, "other operands are wanted")?),
    };
    if verb == "window_classes" {
        return windows_text(alloc, graph, first);
    }
    let names = names_of(alloc, graph)?;
    let block = names.get(first as usize).copied().unwrap_or(u32::MAX);
    if !is_block(graph, block) {
        return Ok(String::from_str(alloc, "no block")?);
    }
    if verb == "fingerprint" {
        return Ok(format!(in alloc; "{:x}", fingerprint(graph.items(block)))?);
    }
    match renaming(alloc, graph, verb, first, second)? {
        None => Ok(String::from_str(alloc, "none")?),
        Some(by) if verb == "rename" => renamed_text(alloc, words, graph.items(block), &by),
        Some(by) => renaming_text(alloc, &by),
    }
}
