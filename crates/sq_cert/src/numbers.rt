//! The numbers of a line.

ghost use Rattle.std.specs.Prelude.{◌≡◌, [], nat_eq, IfOk};
ghost use Rattle.std.specs.Option.{option_map};
ghost use Rattle.std.specs.Set.{distinct_count};
ghost use Rattle.sq_command.specs.Numbers.{number_of};
ghost use Rattle.sq_cert.specs.Pieces.{pieces_behind, space};
ghost use Rattle.sq_cert.specs.Readings.{numbers_behind};
ghost use Rattle.sq_cert.specs.Steps.{is_set};

use crate::piece::first_piece;
use sq_command::number_of;
use sq_num::Memory;
use sq_pass::Blocks;
use std::alloc::Global;
use std::collections::HashSet;

/// The number that a word is.
fn number_in(word: &[u8]) -> Option<u32>
    ensures { result ≡ number_of word.now }
{
    match str::from_utf8(word) {
        Ok(text) => number_of(text),
        Err(_) => None,
    }
}

/// The numbers that the words are, or None where one of them is none.
pub(crate) fn numbers_in(alloc: Global, words: Option<&[u8]>) -> Result<Option<Blocks>, Memory>
    ensures { IfOk result (λ numbers. numbers ≡ numbers_behind [] (pieces_behind space (option_map (λ text. text.now) words.entry))) }
{
    let mut numbers = Blocks::new(alloc);
    let mut rest = words;
    while let Some(text) = rest {
        let (word, behind) = first_piece(text, b' ');
        let Some(number) = number_in(word) else {
            return Ok(None);
        };
        numbers.push(number)?;
        rest = behind;
    }
    Ok(Some(numbers))
}

/// How many there are, where those that are equal count once.
fn count_distinct(alloc: Global, numbers: &[u32]) -> Result<usize, Memory>
    ensures { IfOk result (λ count. count ≡ distinct_count nat_eq numbers.now) }
{
    let distinct: HashSet<u32> = numbers.iter().copied().collect(alloc)?;
    Ok(distinct.len())
}

/// Whether there are at least two, no two of which are equal.
pub(crate) fn is_set(alloc: Global, numbers: &[u32]) -> Result<bool, Memory>
    ensures { IfOk result (λ set. set ≡ is_set numbers.now) }
{
    let distinct = count_distinct(alloc, numbers)?;
    Ok(numbers.len() >= 2 && distinct == numbers.len())
}
