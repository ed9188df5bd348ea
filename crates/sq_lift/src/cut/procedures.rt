//! The noted procedures of a program.

ghost use Rattle.std.specs.Prelude.{◌≡◌, ◌<◌, ◌≤◌, ◌^◌, ℕ, IfOk, length, nat_eq};
ghost use Rattle.std.specs.HashMap.{get};
ghost use Rattle.sq_lift.specs.Flags.{is_flagged};
ghost use Rattle.law_program.specs.Notes.{used_notes};
ghost use Rattle.law_program.specs.Lifted.{procedure_at};

use crate::{Note, WordSet};
use sq_num::Memory;
use std::alloc::Global;
use std::collections::HashMap;
use std::marker::Model;

/// The procedures whose addresses are reached, in the order of the note, with their numbers by address.
#[derive(Drop)]
pub(crate) struct Procedures {
    notes: Vec<Note>,
    numbers: HashMap<u32, u32>,
}

impl Model for Procedures {
    ghost use Rattle.std.specs.Prelude.{◌≡◌, ◌<◌, ◌^◌, ℕ, List, length, nat_eq};
    ghost use Rattle.std.specs.HashMap.{get};
    ghost use Rattle.law_program.specs.Programs.{Note as Entry};
    ghost use Rattle.law_program.specs.Lifted.{procedure_at};

    ghost Value = { List Entry };

    ghost view = { λ p. p.notes.items };

    ghost invariant = { λ p. (x : ℕ) → get nat_eq p.numbers x ≡ procedure_at p.notes.items x };
}

impl Procedures {
    ghost use Rattle.std.specs.Prelude.{◌≡◌};
    ghost use Rattle.law_program.specs.Lifted.{procedure_at};

    /// The procedures.
    pub(crate) fn notes(&self) -> &[Note]
        ensures { result.now ≡ self.now }
    {
        self.notes.as_slice()
    }

    /// The number of the procedure at the address.
    pub(crate) fn number(&self, address: u32) -> Option<u32>
        ensures { result ≡ procedure_at self.now address }
    {
        self.numbers.get(&address).copied()
    }
}

/// The notes whose addresses are reached.
fn used_notes(alloc: Global, reached: &WordSet, notes: &[Note]) -> Result<Vec<Note>, Memory>
    ensures notes { IfOk result (λ used. used.items ≡ used_notes (is_flagged reached.now) notes.now) }
    ensures count { IfOk result (λ used. length used.items ≤ length notes.now) }
{
    let mut used = Vec::new(alloc);
    for note in notes {
        if reached.has(note.address) {
            used.push(*note)?;
        }
    }
    Ok(used)
}

/// The number of the note at each address: of several the first would count.
fn numbers(alloc: Global, notes: &[Note]) -> Result<HashMap<u32, u32>, Memory>
    requires { length notes.now < 2 ^ 32 }
    ensures { IfOk result (λ numbers. (x : ℕ) → get nat_eq numbers x ≡ procedure_at notes.now x) }
{
    let mut numbers = HashMap::new(alloc);
    for k in (0..notes.len()).rev() {
        let note = &notes[k];
        numbers.insert(note.address, k as u32)?;
    }
    Ok(numbers)
}

/// The procedures of these notes whose addresses are reached.
pub(crate) fn procedures_of(
    alloc: Global,
    reached: &WordSet,
    notes: &[Note],
) -> Result<Procedures, Memory>
    requires { length notes.now < 2 ^ 32 }
    ensures { IfOk result (λ procedures. procedures ≡ used_notes (is_flagged reached.now) notes.now) }
{
    let notes = used_notes(alloc, reached, notes)?;
    let numbers = numbers(alloc, &notes)?;
    Ok(Procedures { notes, numbers })
}
