//! The note of the output, which lists its procedures.

ghost use Rattle.std.specs.Prelude.{◌≡◌, ◌+◌, ◌*◌, ◌≤◌, ◌^◌, ◌++◌, IfOk, OnOk};
ghost use Rattle.sq_graph.specs.Words.{words_of};
ghost use Rattle.sq_write.specs.Points.{procedures_at};
ghost use Rattle.sq_write.specs.Written.{note_entries, note_of};
ghost use Rattle.sq_write.specs.Standing.{IsPlaced};

use crate::fields::push_words;
use crate::placed::Placed;
use sq_num::Memory;
use std::alloc::Global;

/// Appends the entry of each procedure: its address, its link and the number of its items.
fn push_note_entries(note: &mut Vec<u8>, placed: &Placed<'_>) -> Result<(), Memory>
    requires placed { IsPlaced placed.now }
    requires fits { placed.now.lo + 4 * words_of placed.now.g.now.graph ≤ 2 ^ 32 }
    ensures { OnOk result (note.new.items ≡ note.old.items ++ note_entries (procedures_at placed.now.g.now.graph placed.now.lo) placed.now.g.now.graph.procedures) }
{
    let g = placed.g;
    for procedure in 0..g.procedures() {
        let length = g.body(procedure).len() as u32;
        push_words(
            note,
            &[placed.start(procedure), g.link(procedure).number(), length],
        )?;
    }
    Ok(())
}

/// The note. Without procedures it has the name of its first version.
pub(crate) fn note_of(alloc: Global, placed: &Placed<'_>) -> Result<Vec<u8>, Memory>
    requires placed { IsPlaced placed.now }
    requires fits { placed.now.lo + 4 * words_of placed.now.g.now.graph ≤ 2 ^ 32 }
    ensures { IfOk result (λ note. note.items ≡ note_of placed.now.g.now.graph placed.now.lo) }
{
    let count = placed.g.procedures();
    let mut note = Vec::new(alloc);
    note.extend_from_slice(if count == 0 { b"SQZ1" } else { b"SQZ2" })?;
    push_words(&mut note, &[count])?;
    push_note_entries(&mut note, placed)?;
    Ok(note)
}
