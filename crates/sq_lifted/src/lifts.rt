//! The graph of a file.

ghost use Rattle.std.specs.Prelude.{◌≡◌, ◌⊎◌, ◌<◌, ◌^◌, length, IfOk, Err};
ghost use Rattle.std.specs.List.{AllByRecursion};
ghost use Rattle.law_program.specs.Programs.{Program as FileProgram};
ghost use Rattle.law_program.specs.Lifted.{lifted};
ghost use Rattle.sq_graph.specs.Slotted.{slotted, IsSlotted};
ghost use Rattle.law_program.specs.FilePrograms.{IsProgramOf};
ghost use Rattle.sq_lift.specs.Flags.{is_flagged};
ghost use Rattle.sq_lift.specs.Refused.{IsReadNoted};
ghost use Rattle.sq_lifted.specs.LiftedFiles.{IsLiftedFile, IsRefusedFile, FitsFile, KeepsRunsOf, ShowsFile};

use crate::live_links::first_live;
use sq_elf::Elf;
use sq_graph::Graph;
use sq_lift::{NotedProgram, parts_of, read_noted};
use sq_num::{Denied, Memory, Refusal, bytes_fit};
use sq_reloc::Relocs;
use std::alloc::Global;

/// The graph of a file that its text doesn't refuse, nor its note but for what is asked of the graph.
fn early_graph(
    alloc: Global,
    elf: &Elf<'_>,
    relocs: &Relocs<'_>,
    noted: &NotedProgram,
) -> Result<Graph, Memory>
    requires same { relocs.now ≡ elf.now }
    requires noted { IsReadNoted elf.now noted.now.program.text noted.now.program.reached noted.now.notes.items }
    requires count { length noted.now.notes.items < 2 ^ 32 }
    requires links { AllByRecursion (λ note. note.link < 32) noted.now.notes.items }
    ensures graph { IfOk result (λ graph. (p : FileProgram) → IsProgramOf elf.now p → graph.graph ≡ slotted (lifted (is_flagged noted.now.program.reached) p)) }
    ensures slotted { IfOk result (λ graph. IsSlotted graph.graph) }
{
    bytes_fit(elf.bytes());
    let code_words = relocs.code_words();
    let text = &noted.program.text;
    let reached = &noted.program.reached;
    let parts = parts_of(alloc, text, reached, elf.entry(), code_words, &noted.notes)?;
    let graph = Graph::from_parts(alloc, &parts.parts())?;
    Ok(graph)
}

/// The graph of the file, whose blocks are named by their positions, or its refusal: by its text, or by the first entry of
/// its note that is not as it is to be.
pub fn lift(alloc: Global, elf: &Elf<'_>, relocs: &Relocs<'_>) -> Result<Graph, Denied>
    requires { relocs.now ≡ elf.now }
    ensures lifted { IfOk result (λ graph. IsLiftedFile elf.now graph.graph) }
    ensures slotted { IfOk result (λ graph. IsSlotted graph.graph) }
    ensures runs { IfOk result (λ graph. KeepsRunsOf elf.now graph.graph) }
    ensures shows { IfOk result (λ graph. ShowsFile elf.now graph.graph) }
    ensures fits { IfOk result (λ graph. FitsFile elf.now graph.graph) }
    ensures refused { (refusal : Refusal) → result ≡ Err (Denied.Refused refusal) → IsRefusedFile elf.now refusal }
    ensures exact { (refusal : Refusal) → IsRefusedFile elf.now refusal → (result ≡ Err (Denied.Refused refusal)) ⊎ (result ≡ Err Denied.Memory) }
{
    // Their contracts have that nothing before text refuses the file.
    bytes_fit(elf.bytes());
    let _code_words = relocs.code_words();
    let noted = read_noted(alloc, elf, relocs)?;
    let graph = early_graph(alloc, elf, relocs, &noted)?;
    match first_live(alloc, &graph, &noted.notes, &noted.program.reached)? {
        Some(number) => Err(Denied::Refused(Refusal::BadNote { entry: number + 1 })),
        None => Ok(graph),
    }
}
