//! Words and numbers of a text.

use anyhow::{Result, anyhow};
use sq_cases::{decimal, hexadecimal};
use std::alloc::Global;
use std::fmt::Debug;

/// Two words, apart by a space.
pub fn two(text: &str) -> Result<(&str, &str)> {
    text.split_once(" ").ok_or(anyhow!("two words are wanted"))
}

/// A number in hexadecimal digits, or in decimal ones behind `-`, which wraps.
pub fn operand(text: &str) -> Result<u32> {
    if text.starts_with("-") {
        return Ok(text.parse::<i32>()?.cast_unsigned());
    }
    Ok(hexadecimal(text)?)
}

/// A number in hexadecimal digits behind `0x`, or else in decimal ones, which may be negative and wrap.
pub fn number(text: &str) -> Result<u32> {
    match text.strip_prefix("0x") {
        Some(digits) => Ok(hexadecimal(digits)?),
        None if text.starts_with("-") => operand(text),
        None => Ok(decimal(text)?),
    }
}

/// Numbers in hexadecimal digits, or `-` for none.
pub fn joined(alloc: Global, numbers: &[u32]) -> Result<String> {
    let mut text = String::new(alloc);
    for number in numbers {
        let gap = if text.is_empty() { "" } else { " " };
        text.push_str(&format!(in alloc; "{gap}{number:x}")?)?;
    }
    text.push_str(if text.is_empty() { "-" } else { "" })?;
    Ok(text)
}

/// A number in hexadecimal digits, or `none`.
pub fn shown(alloc: Global, number: Option<u32>) -> Result<String> {
    Ok(match number {
        Some(number) => format!(in alloc; "{number:x}")?,
        None => String::from_str(alloc, "none")?,
    })
}

/// What a call answered, where it is no error.
pub fn sure<T, E: Debug + Drop>(answer: Result<T, E>) -> Result<T> {
    answer.map_err(|error| anyhow!("{error:?}"))
}
