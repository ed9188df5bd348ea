//! Files with their graphs.

ghost use Rattle.std.specs.Prelude.{◌≡◌, ◌⊎◌, None, IfOk, OnOk, Err};
ghost use Rattle.sq_num.specs.declared.refusal.Refusal.{Refusal};
ghost use Rattle.sq_reloc.specs.Refusing.{reloc_refusal_of};
ghost use Rattle.sq_graph.specs.Slotted.{IsSlotted};
ghost use Rattle.law_program.specs.FilePrograms.{IsRefusalOf};
ghost use Rattle.sq_lifted.specs.LiftedFiles.{IsLiftedFile, FitsFile};

use sq_elf::{Elf, read_elf};
use sq_graph::Graph;
use sq_lifted::lift;
use sq_num::Denied;
use sq_reloc::{Relocs, read_relocs};
use std::alloc::Global;

/// A file of which nothing is refused, with its graph.
#[derive(Drop)]
pub(crate) struct FileGraph<'a> {
    pub elf: Elf<'a>,
    pub relocs: Relocs<'a>,
    pub graph: Graph,
}

/// The file of these bytes with its graph, whose blocks are named by their places, or its refusal.
pub(crate) fn read_graph<'a>(alloc: Global, bytes: &'a [u8]) -> Result<FileGraph<'a>, Denied>
    ensures read { IfOk result (λ file. file.elf ≡ bytes.now) }
    ensures relocs { IfOk result (λ file. file.relocs ≡ file.elf) }
    ensures accepted { IfOk result (λ file. reloc_refusal_of file.elf ≡ None) }
    ensures lifted { IfOk result (λ file. IsLiftedFile bytes.now file.graph.graph) }
    ensures slotted { IfOk result (λ file. IsSlotted file.graph.graph) }
    ensures fits { IfOk result (λ file. FitsFile bytes.now file.graph.graph) }
    ensures refused { (refusal : Refusal) → result ≡ Err (Denied.Refused refusal) → IsRefusalOf bytes.now refusal }
    ensures exact { (refusal : Refusal) → IsRefusalOf bytes.now refusal → (result ≡ Err (Denied.Refused refusal)) ⊎ (result ≡ Err Denied.Memory) }
{
    let elf = read_elf(alloc, bytes)?;
    let relocs = read_relocs(alloc, &elf)?;
    let graph = lift(alloc, &elf, &relocs)?;
    Ok(FileGraph { elf, relocs, graph })
}
