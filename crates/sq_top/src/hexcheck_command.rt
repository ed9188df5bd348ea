//! `hexcheck IN HEX`: loads both, and prints `same` where HEX means exactly the flash and the entry of IN.

ghost use Rattle.std.specs.Prelude.{IfErr, OnOk};
ghost use Rattle.sq_desk.specs.Outside.{KeepsFiles, KeepsPrinted, KeepsComplained, NoneFall, ForFiles};
ghost use Rattle.sq_top.specs.Hexing.{IsSame};
ghost use Rattle.sq_top.specs.HexEndings.{LeavesUnchecked, LeavesCheck};

use crate::delivery::print_line;
use crate::ending::Ending;
use crate::loading::load;
use sq_desk::Desk;
use sq_elf::{LONGEST_FILE, read_elf};
use sq_hex::read_hex;
use std::alloc::Global;

/// The most bytes of a text.
const LONGEST_TEXT: u32 = 134_217_728;

/// Compares the text with the file of `input`.
pub fn hexcheck<D: Desk>(alloc: Global, desk: &mut D, input: &str, text: &str) -> Ending
    ensures leaves { LeavesCheck input.now text.now result (D.outside desk.old) (D.outside desk.new) }
    ensures complained { KeepsComplained (D.outside desk.old) (D.outside desk.new) }
    ensures faults { NoneFall (D.outside desk.old) (D.outside desk.new) }
{
    match load_and_compare(alloc, desk, input, text) {
        Ok(()) => print_line(alloc, desk, b"same\n"),
        Err(ending) => ending,
    }
}

/// Ok where the text is the same, or how the command ends without that. A refusal of IN comes before HEX is
/// loaded.
fn load_and_compare<D: Desk>(
    alloc: Global,
    desk: &mut D,
    input: &str,
    text: &str,
) -> Result<(), Ending>
    ensures same { OnOk result (ForFiles (D.outside desk.old) (IsSame input.now text.now)) }
    ensures fails { IfErr result (λ ending. LeavesUnchecked input.now text.now ending (D.outside desk.old) (D.outside desk.new)) }
    ensures files { KeepsFiles (D.outside desk.old) (D.outside desk.new) }
    ensures printed { KeepsPrinted (D.outside desk.old) (D.outside desk.new) }
    ensures complained { KeepsComplained (D.outside desk.old) (D.outside desk.new) }
    ensures faults { NoneFall (D.outside desk.old) (D.outside desk.new) }
{
    let bytes = load(alloc, desk, input, LONGEST_FILE)?;
    let elf = read_elf(alloc, bytes.as_slice())?;
    let text = load(alloc, desk, text, LONGEST_TEXT)?;
    let image = read_hex(alloc, text.as_slice())?;
    if image.is_flash_of(alloc, &elf)? {
        Ok(())
    } else {
        Err(Ending::Differs(0))
    }
}
