//! From the bytes of a file to those of the packed file, with the certificate that leads there.

ghost use Rattle.std.specs.Prelude.{◌≡◌, ◌⊎◌, IfOk};
ghost use Rattle.sq_num.specs.declared.refusal.Refusal.{Refusal};
ghost use Rattle.law_program.specs.FilePrograms.{IsRefusalOf};
ghost use Rattle.sq_top.specs.Proving.{PacksProved};

use crate::packing::{packed_of, write_graph};
use crate::reading::{FileGraph, read_graph};
use sq_drive::settle_noting;
use sq_layout::words_of;
use sq_num::{Denied, Packed, bytes_fit};
use std::alloc::Global;

/// A packing, and the text of the certificate that proves it.
#[derive(Debug, Drop)]
pub struct ProvedPacking {
    pub packed: Packed,
    pub text: Vec<u8>,
}

/// Packs the file of these bytes, and notes each rewrite. The order of rewrites is another one than that of `pack_bytes`, so
/// the packed file may be another one: it is as good, and no row has a candidate in it. Any step may find no memory.
pub fn prove_bytes(alloc: Global, bytes: &[u8]) -> Result<ProvedPacking, Denied>
    ensures packed { IfOk result (λ proved. PacksProved bytes.now proved.packed proved.text.items) }
    ensures refused { (refusal : Refusal) → result ≡ Err (Denied.Refused refusal) → IsRefusalOf bytes.now refusal }
    ensures exact { (refusal : Refusal) → IsRefusalOf bytes.now refusal → (result ≡ Err (Denied.Refused refusal)) ⊎ (result ≡ Err Denied.Memory) }
{
    bytes_fit(bytes);
    // The relocations go here.
    let FileGraph { elf, mut graph, .. } = read_graph(alloc, bytes)?;
    let reached = words_of(&graph);
    let noted = settle_noting(alloc, &mut graph)?;
    let text = noted.cert.text()?;
    let file = write_graph(alloc, &elf, &graph)?;
    let packed = packed_of(&elf, &graph, reached, noted.savings, file);
    Ok(ProvedPacking { packed, text })
}
