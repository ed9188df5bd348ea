//! Whether a certificate proves one file of another.

ghost use Rattle.std.specs.Prelude.{◌≡◌, ◌≢◌, ℕ, ◌⊎◌, ◌≤◌, true, false, length, None, Ok, Err, OnOk};
ghost use Rattle.sq_num.specs.declared.refusal.Refusal.{Refusal};
ghost use Rattle.sq_reloc.specs.Refusing.{reloc_refusal_of};
ghost use Rattle.sq_graph.specs.Rules.{IsGraph};
ghost use Rattle.law_program.specs.FilePrograms.{IsAcceptedFile};
ghost use Rattle.sq_write.specs.Written.{written};
ghost use Rattle.sq_top.specs.Packing.{CanBeWritten};
ghost use Rattle.sq_top.specs.Proving.{Proves, FailsToProve, IsProved, IsRefusalOfEither};

use crate::packing::write_graph;
use crate::reading::{FileGraph, read_graph};
use sq_cert::Verdict;
use sq_drive::check_graph;
use sq_elf::Elf;
use sq_graph::Graph;
use sq_num::{Denied, Memory, bytes_fit};
use std::alloc::Global;

/// Replays the steps of the certificate from the graph of the input, and compares what they lead to with the output: yes
/// where it proves the output, else the first line that has no form or is no candidate, or 0 where all pass and the file
/// differs. It needs no trust in who made the certificate. Where it says yes, the output does what the input does.
pub fn check_files(
    alloc: Global,
    input: &[u8],
    output: &[u8],
    cert: &[u8],
) -> Result<Verdict, Denied>
    requires text { length cert.now ≤ 134217728 }
    ensures yes { (count : ℕ) → result ≡ Ok (Verdict.Yes count) → Proves input.now output.now cert.now count }
    ensures proved { (count : ℕ) → result ≡ Ok (Verdict.Yes count) → IsProved input.now output.now }
    ensures no { (line : ℕ) → result ≡ Ok (Verdict.No line) → FailsToProve input.now output.now cert.now line }
    ensures only { (line : ℕ) → result ≡ Ok (Verdict.No line) → (count : ℕ) → ¬ Proves input.now output.now cert.now count }
    ensures accepted { OnOk result (IsAcceptedFile input.now × IsAcceptedFile output.now) }
    ensures refused { (refusal : Refusal) → result ≡ Err (Denied.Refused refusal) → IsRefusalOfEither input.now output.now refusal }
    ensures exact { (refusal : Refusal) → IsRefusalOfEither input.now output.now refusal → (result ≡ Err (Denied.Refused refusal)) ⊎ (result ≡ Err Denied.Memory) }
{
    bytes_fit(input);
    // The relocations go here.
    let FileGraph { elf, mut graph, .. } = read_graph(alloc, input)?;
    let _accepted = read_graph(alloc, output)?;
    let verdict = check_graph(alloc, &mut graph, cert)?;
    let steps = match verdict {
        Verdict::Yes { steps } => steps,
        Verdict::No { line } => return Ok(Verdict::No { line }),
    };
    if !is_written(alloc, &elf, &graph, output)? {
        return Ok(Verdict::No { line: 0 });
    }
    Ok(Verdict::Yes { steps })
}

/// Whether the output is what is written of the graph in the place of the file's text.
fn is_written(alloc: Global, elf: &Elf<'_>, graph: &Graph, output: &[u8]) -> Result<bool, Memory>
    requires accepted { reloc_refusal_of elf.now ≡ None }
    requires fits { CanBeWritten elf.now graph.now.graph }
    ensures yes { result ≡ Ok true → output.now ≡ written elf.now graph.now.graph }
    ensures no { result ≡ Ok false → output.now ≢ written elf.now graph.now.graph }
    ensures rules { OnOk result (IsGraph graph.now.graph) }
{
    let file = write_graph(alloc, elf, graph)?;
    Ok(output == file.as_slice())
}
