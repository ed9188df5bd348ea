//! Looking for two blocks with equal tails.

ghost use Rattle.std.specs.Prelude.{◌≡◌, ℕ, None, Ok, length, IfOk, IfSome};
ghost use Rattle.sq_graph.specs.Parts.{names_of};
ghost use Rattle.sq_lookup.specs.Tables.{number_at};
ghost use Rattle.sq_tail.specs.Ends.{IsTailPair};
ghost use Rattle.sq_tail.specs.Numbers.{AreWords, IsMeeting};

use crate::ends::end_words;
use crate::numbers::{number_longer, number_terms};
use sq_finger::first_double;
use sq_graph::Graph;
use sq_lookup::Table;
use sq_num::Memory;
use std::alloc::Global;

/// Under each number the last place of a block that has it and whose term takes a word.
fn word_places(
    alloc: Global,
    graph: &Graph,
    names: &[u32],
    numbers: &[Option<u32>],
) -> Result<Table, Memory>
    requires names { names.now ≡ names_of graph.now.graph }
    requires many { length numbers.now ≡ length names.now }
    ensures { IfOk result (λ places. AreWords graph.now.graph names.now numbers.now (length names.now) (number_at places)) }
{
    graph.learn();
    let mut places = Table::new(alloc);
    for (i, name) in names.iter().enumerate() {
        if let Some(number) = numbers[i] {
            if end_words(graph, *name) != 0 {
                places.insert(number, i as u64)?;
            }
        }
    }
    Ok(places)
}

/// A place, behind another that stands under its number.
fn meeting(numbers: &[Option<u32>], places: &Table) -> Option<(usize, usize)>
    ensures some { IfSome result (λ pair. IsMeeting numbers.now (number_at places.now) pair.0 pair.1) }
    ensures none { result ≡ None → (other place : ℕ) → ¬ IsMeeting numbers.now (number_at places.now) other place }
{
    for (j, number) in numbers.iter().enumerate() {
        let Some(number) = *number else { continue };
        if let Some(i) = places.get(number) {
            if i != j as u64 {
                return Some((i as usize, j));
            }
        }
    }
    None
}

/// Two blocks with equal tails: the one to be dropped and the one to be kept. It looks at each block a few times.
pub(crate) fn find_tails(
    alloc: Global,
    graph: &Graph,
    names: &[u32],
) -> Result<Option<(u32, u32)>, Memory>
    requires { names.now ≡ names_of graph.now.graph }
    ensures some { IfOk result (λ found. IfSome found (λ pair. IsTailPair graph.now.graph pair.0 pair.1)) }
    ensures none { result ≡ Ok None → (dropped kept : ℕ) → ¬ IsTailPair graph.now.graph dropped kept }
{
    graph.learn();
    let terms = number_terms(alloc, graph, names)?;
    let ones = number_longer(alloc, graph, names, &terms, 0)?;
    let twos = number_longer(alloc, graph, names, &ones, 1)?;
    if let Some((i, j)) = first_double(alloc, &twos)? {
        return Ok(Some((names[j], names[i])));
    }
    let places = word_places(alloc, graph, names, &ones)?;
    match meeting(&ones, &places) {
        Some((i, j)) => Ok(Some((names[i], names[j]))),
        None => Ok(None),
    }
}
