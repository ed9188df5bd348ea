//! The program of a file.

ghost use Rattle.std.specs.Prelude.{◌≡◌, ◌<◌, ◌^◌, ◌⊎◌, length, IfOk, Err};
ghost use Rattle.std.specs.List.{AllByRecursion};
ghost use Rattle.sq_num.specs.declared.refusal.Refusal.{Refusal};
ghost use Rattle.sq_lift.specs.Refused.{IsReadText, IsTextRefusal, IsReadNoted, IsEarlyRefusal};

use crate::faults::text_fault;
use crate::notes::{Note, notes_of};
use crate::procedures::bad_note;
use crate::search::reached_words;
use crate::text::{Text, read_text};
use crate::word_set::WordSet;
use sq_elf::Elf;
use sq_num::{Denied, Refusal};
use sq_reloc::Relocs;
use std::alloc::Global;

/// The text of a program, and which of its words are reached.
#[derive(Drop)]
pub struct Program {
    pub text: Text,
    pub reached: WordSet,
}

/// Reads the program of the file, or refuses it by its text: by the first reached word that has a fault, and of
/// its faults by the one of the least number.
pub fn read_program(alloc: Global, elf: &Elf<'_>, relocs: &Relocs<'_>) -> Result<Program, Denied>
    requires { relocs.now ≡ elf.now }
    ensures read { IfOk result (λ program. IsReadText elf.now program.text program.reached) }
    ensures refused { (refusal : Refusal) → result ≡ Err (Denied.Refused refusal) → IsTextRefusal elf.now refusal }
    ensures exact { (refusal : Refusal) → IsTextRefusal elf.now refusal → (result ≡ Err (Denied.Refused refusal)) ⊎ (result ≡ Err Denied.Memory) }
{
    // Whoever holds an `Elf` knows that nothing before text refuses the file: this call's contract says so.
    elf.learn();
    let text = read_text(alloc, elf, relocs)?;
    let reached = reached_words(alloc, &text, elf.entry(), relocs.code_words())?;
    match text_fault(&text, &reached) {
        Some(refusal) => Err(Denied::Refused(refusal)),
        None => Ok(Program { text, reached }),
    }
}

/// A program and the procedures that its note lists.
#[derive(Drop)]
pub struct NotedProgram {
    pub program: Program,
    pub notes: Vec<Note>,
}

/// Reads the program of the file and its note, or refuses it: by its text, or by a note that can't be read, or by the
/// first entry that is not as it is to be.
pub fn read_noted(alloc: Global, elf: &Elf<'_>, relocs: &Relocs<'_>) -> Result<NotedProgram, Denied>
    requires { relocs.now ≡ elf.now }
    ensures read { IfOk result (λ noted. IsReadNoted elf.now noted.program.text noted.program.reached noted.notes.items) }
    ensures count { IfOk result (λ noted. length noted.notes.items < 2 ^ 32) }
    ensures links { IfOk result (λ noted. AllByRecursion (λ note. note.link < 32) noted.notes.items) }
    ensures refused { (refusal : Refusal) → result ≡ Err (Denied.Refused refusal) → IsEarlyRefusal elf.now refusal }
    ensures exact { (refusal : Refusal) → IsEarlyRefusal elf.now refusal → (result ≡ Err (Denied.Refused refusal)) ⊎ (result ≡ Err Denied.Memory) }
{
    elf.learn();
    let code_words = relocs.code_words();
    let program = read_program(alloc, elf, relocs)?;
    let Some(notes) = notes_of(alloc, elf, &program.text)? else {
        return Err(Denied::Refused(Refusal::BadNote { entry: 0 }));
    };
    let reached = &program.reached;
    match bad_note(
        alloc,
        &program.text,
        reached,
        elf.entry(),
        code_words,
        &notes,
    )? {
        Some(entry) => Err(Denied::Refused(Refusal::BadNote { entry })),
        None => Ok(NotedProgram { program, notes }),
    }
}
