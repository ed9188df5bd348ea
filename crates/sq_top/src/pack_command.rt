//! `pack IN OUT`: loads IN, packs it, stores OUT, and prints the sizes.

ghost use Rattle.std.specs.Prelude.{IfOk, IfErr};
ghost use Rattle.sq_desk.specs.Outside.{KeepsFiles, KeepsPrinted, KeepsComplained, NoneFall};
ghost use Rattle.sq_top.specs.Endings.{PacksFile, LeavesUnpacked, LeavesPack};

use crate::delivery::deliver;
use crate::ending::Ending;
use crate::lines::packed_line;
use crate::loading::load;
use crate::packing::pack_bytes;
use sq_desk::Desk;
use sq_elf::LONGEST_FILE;
use sq_num::Packed;
use std::alloc::Global;

/// Packs the file of `input` into that of `output`.
pub fn pack<D: Desk>(alloc: Global, desk: &mut D, input: &str, output: &str) -> Ending
    ensures leaves { LeavesPack input.now output.now result (D.outside desk.old) (D.outside desk.new) }
    ensures complained { KeepsComplained (D.outside desk.old) (D.outside desk.new) }
    ensures faults { NoneFall (D.outside desk.old) (D.outside desk.new) }
{
    match load_and_pack(alloc, desk, input) {
        Ok(packed) => {
            let line = packed_line(&packed);
            deliver(
                alloc,
                desk,
                output,
                packed.bytes.as_slice(),
                line.as_slice(),
            )
        }
        Err(ending) => ending,
    }
}

/// The packing of the file of `input`, or how the command ends without one.
pub(crate) fn load_and_pack<D: Desk>(
    alloc: Global,
    desk: &mut D,
    input: &str,
) -> Result<Packed, Ending>
    ensures packs { IfOk result (λ packed. PacksFile input.now packed (D.outside desk.old)) }
    ensures fails { IfErr result (λ ending. LeavesUnpacked input.now ending (D.outside desk.old) (D.outside desk.new)) }
    ensures files { KeepsFiles (D.outside desk.old) (D.outside desk.new) }
    ensures printed { KeepsPrinted (D.outside desk.old) (D.outside desk.new) }
    ensures complained { KeepsComplained (D.outside desk.old) (D.outside desk.new) }
    ensures faults { NoneFall (D.outside desk.old) (D.outside desk.new) }
{
    let bytes = load(alloc, desk, input, LONGEST_FILE)?;
    Ok(pack_bytes(alloc, bytes.as_slice())?)
}
