//! `prove IN OUT CERT`: loads IN, packs it, stores OUT, stores the certificate that proves it, and prints the sizes.

ghost use Rattle.std.specs.Prelude.{IfOk, IfErr};
ghost use Rattle.sq_desk.specs.Outside.{KeepsFiles, KeepsPrinted, KeepsComplained, NoneFall};
ghost use Rattle.sq_top.specs.Endings.{LeavesUnpacked};
ghost use Rattle.sq_top.specs.ProveEndings.{ProvesFile, LeavesBoth, LeavesProve};

use crate::certifying::{ProvedPacking, prove_bytes};
use crate::delivery::deliver;
use crate::ending::{DeskCall, Ending};
use crate::lines::packed_line;
use crate::loading::load;
use sq_desk::{Desk, DeskFault};
use sq_elf::LONGEST_FILE;
use std::alloc::Global;

/// Packs the file of `input` into that of `output`, and stores the certificate of that as the file of `cert`.
pub fn prove<D: Desk>(alloc: Global, desk: &mut D, input: &str, output: &str, cert: &str) -> Ending
    ensures leaves { LeavesProve input.now output.now cert.now result (D.outside desk.old) (D.outside desk.new) }
    ensures complained { KeepsComplained (D.outside desk.old) (D.outside desk.new) }
    ensures faults { NoneFall (D.outside desk.old) (D.outside desk.new) }
{
    match load_and_prove(alloc, desk, input) {
        Ok(proved) => {
            let line = packed_line(&proved.packed);
            deliver_both(
                alloc,
                desk,
                output,
                proved.packed.bytes.as_slice(),
                cert,
                proved.text.as_slice(),
                line.as_slice(),
            )
        }
        Err(ending) => ending,
    }
}

/// The proved packing of the file of `input`, or how the command ends without one.
fn load_and_prove<D: Desk>(
    alloc: Global,
    desk: &mut D,
    input: &str,
) -> Result<ProvedPacking, Ending>
    ensures proves { IfOk result (λ proved. ProvesFile input.now proved.packed proved.text.items (D.outside desk.old)) }
    ensures fails { IfErr result (λ ending. LeavesUnpacked input.now ending (D.outside desk.old) (D.outside desk.new)) }
    ensures files { KeepsFiles (D.outside desk.old) (D.outside desk.new) }
    ensures printed { KeepsPrinted (D.outside desk.old) (D.outside desk.new) }
    ensures complained { KeepsComplained (D.outside desk.old) (D.outside desk.new) }
    ensures faults { NoneFall (D.outside desk.old) (D.outside desk.new) }
{
    let bytes = load(alloc, desk, input, LONGEST_FILE)?;
    Ok(prove_bytes(alloc, bytes.as_slice())?)
}

/// Stores the bytes as the file of `output`, then the text as that of `cert`, and prints a line. Both and the line are made
/// before, so that after the first store only the desk can fail.
fn deliver_both<D: Desk>(
    alloc: Global,
    desk: &mut D,
    output: &str,
    bytes: &[u8],
    cert: &str,
    text: &[u8],
    line: &[u8],
) -> Ending
    ensures leaves { LeavesBoth output.now bytes.now cert.now text.now line.now result (D.outside desk.old) (D.outside desk.new) }
    ensures complained { KeepsComplained (D.outside desk.old) (D.outside desk.new) }
    ensures faults { NoneFall (D.outside desk.old) (D.outside desk.new) }
{
    match desk.store(alloc, output, bytes) {
        Ok(()) => deliver(alloc, desk, cert, text, line),
        Err(DeskFault::Failed) => Ending::Desk(DeskCall::Store),
        Err(DeskFault::Memory) => Ending::Memory,
    }
}
