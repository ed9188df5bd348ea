//! Numbers that are written in a text.

use crate::case_error::CaseError;
use std::alloc::Global;

/// A number in hexadecimal digits.
pub fn hexadecimal(text: &str) -> Result<u32, CaseError> {
    u32::from_str_radix(text, 16).map_err(|_| CaseError::Number)
}

/// A number in decimal digits.
pub fn decimal(text: &str) -> Result<u32, CaseError> {
    text.parse::<u32>().map_err(|_| CaseError::Number)
}

/// Numbers in hexadecimal digits, apart by spaces. `W*N` stands for N times W, and `-` for none.
pub fn numbers_of(alloc: Global, text: &str) -> Result<Vec<u32>, CaseError> {
    let mut numbers = Vec::new(alloc);
    for word in text.split_whitespace().filter(|word| *word != "-") {
        let (number, times) = word.split_once("*").unwrap_or((word, "1"));
        let number = hexadecimal(number)?;
        for _ in 0..hexadecimal(times)? {
            numbers.push(number)?;
        }
    }
    Ok(numbers)
}

/// Numbers in decimal digits, apart by spaces. `-` stands for none.
pub fn decimals_of(alloc: Global, text: &str) -> Result<Vec<u32>, CaseError> {
    let mut numbers = Vec::new(alloc);
    for word in text.split_whitespace().filter(|word| *word != "-") {
        numbers.push(decimal(word)?)?;
    }
    Ok(numbers)
}
