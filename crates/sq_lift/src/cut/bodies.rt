//! The bodies of noted procedures.

ghost use Rattle.std.specs.Prelude.{◌≡◌, ◌+◌, ◌++◌, [], length, map, IfOk, OnOk};
ghost use Rattle.std.specs.List.{flat_map};
ghost use Rattle.sq_graph.specs.Renames.{retargeted_items};
ghost use Rattle.law_program.specs.Readings.{reading_at};
ghost use Rattle.law_program.specs.Lifted.{with_item, body_from};
ghost use Rattle.sq_lift.specs.Cuts.{position_by, note_part, body_of};

use crate::cut::names::Positions;
use crate::cut::procedures::Procedures;
use crate::{Note, Reading, Text, reading_at};
use sq_graph::{Item, ProcedurePart};
use sq_isa::Reg;
use sq_num::Memory;
use std::alloc::Global;

/// Appends the item that the word at an address reads as, if it is one, and tells how many that is.
fn push_item(
    items: &mut Vec<Item>,
    text: &Text,
    positions: &Positions,
    at: u32,
) -> Result<u32, Memory>
    ensures items { OnOk result (items.new.items ≡ items.old.items ++ retargeted_items (position_by positions.now) (with_item (reading_at text.now at) [])) }
    ensures count { IfOk result (λ n. n ≡ length (with_item (reading_at text.now at) [])) }
{
    match reading_at(text, at) {
        Some(Reading::Item(item)) => {
            positions.push(items, &item)?;
            Ok(1)
        }
        Some(Reading::Term(_) | Reading::Links { .. }) | None => Ok(0),
    }
}

/// Appends the body of a procedure, and tells how many items that is.
fn push_body(
    items: &mut Vec<Item>,
    text: &Text,
    positions: &Positions,
    note: &Note,
) -> Result<u32, Memory>
    ensures items { OnOk result (items.new.items ≡ items.old.items ++ retargeted_items (position_by positions.now) (body_of text.now note.now)) }
    ensures count { IfOk result (λ n. n ≡ length (body_of text.now note.now)) }
{
    let mut at = note.address;
    let mut count = 0;
    for _index in 0..note.length {
        count += push_item(items, text, positions, at)?;
        match text.next(at) {
            Some(next) => at = next,
            None => return Ok(count),
        }
    }
    Ok(count)
}

/// Appends the bodies of the procedures, and lists their links and lengths.
pub(crate) fn push_bodies(
    alloc: Global,
    items: &mut Vec<Item>,
    text: &Text,
    procedures: &Procedures,
    positions: &Positions,
) -> Result<Vec<ProcedurePart>, Memory>
    ensures items { OnOk result (items.new.items ≡ items.old.items ++ retargeted_items (position_by positions.now) (flat_map (body_of text.now) procedures.now)) }
    ensures parts { IfOk result (λ parts. parts.items ≡ map (note_part text.now) procedures.now) }
{
    let mut parts = Vec::new(alloc);
    for note in procedures.notes() {
        let length = push_body(items, text, positions, note)?;
        parts.push(ProcedurePart {
            link: Reg::from_low_bits(note.link),
            length,
        })?;
    }
    Ok(parts)
}
