//! What is stored and printed at the end of commands.

ghost use Rattle.sq_desk.specs.Outside.{KeepsFiles, KeepsComplained, NoneFall};
ghost use Rattle.sq_top.specs.Endings.{LeavesPrinted, LeavesDelivered};

use crate::ending::{DeskCall, Ending};
use sq_desk::{Desk, DeskFault};
use std::alloc::Global;

/// Stores the bytes as the file of `output`, and prints a line. The line is made before, so that after the
/// store only the printing can fail.
pub fn deliver<D: Desk>(
    alloc: Global,
    desk: &mut D,
    output: &str,
    bytes: &[u8],
    line: &[u8],
) -> Ending
    ensures leaves { LeavesDelivered output.now bytes.now line.now result (D.outside desk.old) (D.outside desk.new) }
    ensures complained { KeepsComplained (D.outside desk.old) (D.outside desk.new) }
    ensures faults { NoneFall (D.outside desk.old) (D.outside desk.new) }
{
    match desk.store(alloc, output, bytes) {
        Ok(()) => print_line(alloc, desk, line),
        Err(DeskFault::Failed) => Ending::Desk(DeskCall::Store),
        Err(DeskFault::Memory) => Ending::Memory,
    }
}

/// Prints a line, and ends with that.
pub fn print_line<D: Desk>(alloc: Global, desk: &mut D, line: &[u8]) -> Ending
    ensures leaves { LeavesPrinted line.now result (D.outside desk.old) (D.outside desk.new) }
    ensures files { KeepsFiles (D.outside desk.old) (D.outside desk.new) }
    ensures complained { KeepsComplained (D.outside desk.old) (D.outside desk.new) }
    ensures faults { NoneFall (D.outside desk.old) (D.outside desk.new) }
{
    match desk.print(alloc, line) {
        Ok(()) => Ending::Done,
        Err(DeskFault::Failed) => Ending::Desk(DeskCall::Print),
        Err(DeskFault::Memory) => Ending::Memory,
    }
}
