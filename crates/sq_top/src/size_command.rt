//! `size IN`: loads IN, packs it in memory, and prints the report. It stores nothing.

ghost use Rattle.std.specs.Prelude.{IfOk, IfErr};
ghost use Rattle.sq_desk.specs.Outside.{KeepsFiles, KeepsPrinted, KeepsComplained, NoneFall};
ghost use Rattle.sq_top.specs.Endings.{ReportsFile, LeavesUnpacked, LeavesSize};

use crate::delivery::print_line;
use crate::ending::Ending;
use crate::pack_command::load_and_pack;
use sq_desk::Desk;
use sq_report::report;
use std::alloc::Global;

/// Prints the report of a packing of the file of `input`.
pub fn size<D: Desk>(alloc: Global, desk: &mut D, input: &str) -> Ending
    ensures leaves { LeavesSize input.now result (D.outside desk.old) (D.outside desk.new) }
    ensures complained { KeepsComplained (D.outside desk.old) (D.outside desk.new) }
    ensures faults { NoneFall (D.outside desk.old) (D.outside desk.new) }
{
    match load_and_report(alloc, desk, input) {
        Ok(line) => print_line(alloc, desk, line.as_slice()),
        Err(ending) => ending,
    }
}

/// The report of a packing of the file of `input`, or how the command ends without one.
fn load_and_report<D: Desk>(alloc: Global, desk: &mut D, input: &str) -> Result<Vec<u8>, Ending>
    ensures reports { IfOk result (λ line. ReportsFile input.now line.items (D.outside desk.old)) }
    ensures fails { IfErr result (λ ending. LeavesUnpacked input.now ending (D.outside desk.old) (D.outside desk.new)) }
    ensures files { KeepsFiles (D.outside desk.old) (D.outside desk.new) }
    ensures printed { KeepsPrinted (D.outside desk.old) (D.outside desk.new) }
    ensures complained { KeepsComplained (D.outside desk.old) (D.outside desk.new) }
    ensures faults { NoneFall (D.outside desk.old) (D.outside desk.new) }
{
    let packed = load_and_pack(alloc, desk, input)?;
    Ok(report(alloc, &packed)?)
}
