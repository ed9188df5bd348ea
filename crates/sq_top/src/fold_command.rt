//! `fold IN OUT`: loads IN, packs and folds it, stores OUT, and prints the sizes.

ghost use Rattle.std.specs.Prelude.{IfOk, IfErr};
ghost use Rattle.sq_desk.specs.Outside.{KeepsFiles, KeepsPrinted, KeepsComplained, NoneFall};
ghost use Rattle.sq_top.specs.Endings.{LeavesUnpacked};
ghost use Rattle.sq_top.specs.FoldEndings.{FoldsFile, LeavesFold};

use crate::delivery::deliver;
use crate::ending::Ending;
use crate::folding::{FoldedFile, fold_bytes};
use crate::lines::folded_line;
use crate::loading::load;
use sq_desk::Desk;
use sq_elf::LONGEST_FILE;
use std::alloc::Global;

/// Folds the file of `input` into that of `output`.
pub fn fold<D: Desk>(alloc: Global, desk: &mut D, input: &str, output: &str) -> Ending
    ensures leaves { LeavesFold input.now output.now result (D.outside desk.old) (D.outside desk.new) }
    ensures complained { KeepsComplained (D.outside desk.old) (D.outside desk.new) }
    ensures faults { NoneFall (D.outside desk.old) (D.outside desk.new) }
{
    match load_and_fold(alloc, desk, input) {
        Ok(folded) => {
            let line = folded_line(&folded);
            deliver(
                alloc,
                desk,
                output,
                folded.bytes.as_slice(),
                line.as_slice(),
            )
        }
        Err(ending) => ending,
    }
}

/// The folding of the file of `input`, or how the command ends without one.
fn load_and_fold<D: Desk>(alloc: Global, desk: &mut D, input: &str) -> Result<FoldedFile, Ending>
    ensures folds { IfOk result (λ folded. FoldsFile input.now folded (D.outside desk.old)) }
    ensures fails { IfErr result (λ ending. LeavesUnpacked input.now ending (D.outside desk.old) (D.outside desk.new)) }
    ensures files { KeepsFiles (D.outside desk.old) (D.outside desk.new) }
    ensures printed { KeepsPrinted (D.outside desk.old) (D.outside desk.new) }
    ensures complained { KeepsComplained (D.outside desk.old) (D.outside desk.new) }
    ensures faults { NoneFall (D.outside desk.old) (D.outside desk.new) }
{
    let bytes = load(alloc, desk, input, LONGEST_FILE)?;
    Ok(fold_bytes(alloc, bytes.as_slice())?)
}
