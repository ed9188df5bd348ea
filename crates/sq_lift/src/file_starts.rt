//! Where the blocks of a file begin.

ghost use Rattle.std.specs.Prelude.{◌≡◌, ◌<◌, ◌^◌, length, IfOk};
ghost use Rattle.sq_num.specs.declared.refusal.Refusal.{Refusal as Cause};
ghost use Rattle.law_program.specs.Programs.{Program as FileProgram};
ghost use Rattle.law_program.specs.FilePrograms.{IsProgramOf};
ghost use Rattle.sq_lift.specs.Refused.{IsReadNoted, IsEarlyRefusal};
ghost use Rattle.sq_lift.specs.Starts.{AreStarts};

use crate::cut::frame::frame_of;
use crate::cut::names::Positions;
use crate::cut::procedures::procedures_of;
use crate::program::{NotedProgram, read_noted};
use crate::word_set::WordSet;
use sq_elf::Elf;
use sq_num::Memory;
use sq_reloc::Relocs;
use std::alloc::Global;
use std::marker::Model;

/// Which words of text are reached, and at which of them blocks begin.
#[derive(Drop)]
pub struct BlockStarts {
    reached: WordSet,
    positions: Positions,
}

impl Model for BlockStarts {
    ghost use Rattle.sq_lift.specs.Starts.{Starts};

    ghost Value = { Starts };

    ghost view = { λ s. record { reached = s.reached; numbers = s.positions } };
}

impl BlockStarts {
    ghost use Rattle.std.specs.Prelude.{◌≡◌};
    ghost use Rattle.sq_lift.specs.Flags.{is_flagged};
    ghost use Rattle.sq_lift.specs.Starts.{slot_at};

    /// Whether the word at the address is reached.
    pub fn reached(&self, address: u32) -> bool
        ensures { result ≡ is_flagged self.now.reached address }
    {
        self.reached.has(address)
    }

    /// The number, in layout order from 0, of the block that begins at the address, or None where none does.
    pub fn slot(&self, address: u32) -> Option<u32>
        ensures { result ≡ slot_at self.now address }
    {
        self.positions.get(address)
    }
}

/// The starts of a program that is read.
fn starts_of(
    alloc: Global,
    elf: &Elf<'_>,
    relocs: &Relocs<'_>,
    noted: NotedProgram,
) -> Result<BlockStarts, Memory>
    requires same { relocs.now ≡ elf.now }
    requires noted { IsReadNoted elf.now noted.program.text noted.program.reached noted.notes.items }
    requires count { length noted.notes.items < 2 ^ 32 }
    ensures { IfOk result (λ starts. (p : FileProgram) → IsProgramOf elf.now p → AreStarts p starts) }
{
    let NotedProgram { program, notes } = noted;
    let reached = program.reached;
    let procedures = procedures_of(alloc, &reached, &notes)?;
    let frame = frame_of(
        alloc,
        &program.text,
        &reached,
        &procedures,
        elf.entry(),
        relocs.code_words(),
    )?;
    let positions = Positions::new(alloc, &frame.starts)?;
    Ok(BlockStarts { reached, positions })
}

/// Which words of the file's text are reached, and at which of them the blocks of its graph begin.
pub fn starts(alloc: Global, elf: &Elf<'_>, relocs: &Relocs<'_>) -> Result<BlockStarts, Memory>
    requires same { relocs.now ≡ elf.now }
    requires accepted { (refusal : Cause) → ¬ IsEarlyRefusal elf.now refusal }
    ensures { IfOk result (λ starts. (p : FileProgram) → IsProgramOf elf.now p → AreStarts p starts) }
{
    match read_noted(alloc, elf, relocs) {
        Ok(noted) => starts_of(alloc, elf, relocs, noted),
        // Nothing of the file is refused, so this is want of memory.
        Err(_) => Err(Memory),
    }
}
