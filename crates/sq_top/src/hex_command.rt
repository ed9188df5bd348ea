//! `hex IN OUT`: loads IN, makes its text of Intel HEX, stores OUT, and prints the number of records.

ghost use Rattle.std.specs.Prelude.{IfOk, IfErr};
ghost use Rattle.sq_desk.specs.Outside.{KeepsFiles, KeepsPrinted, KeepsComplained, NoneFall};
ghost use Rattle.sq_top.specs.HexEndings.{WritesFile, LeavesUnwritten, LeavesHex};

use crate::delivery::deliver;
use crate::ending::Ending;
use crate::lines::hex_line;
use crate::loading::load;
use sq_desk::Desk;
use sq_elf::{LONGEST_FILE, read_elf};
use sq_hex::hex_text;
use std::alloc::Global;

/// Writes the text of the file of `input` into that of `output`.
pub fn hex<D: Desk>(alloc: Global, desk: &mut D, input: &str, output: &str) -> Ending
    ensures leaves { LeavesHex input.now output.now result (D.outside desk.old) (D.outside desk.new) }
    ensures complained { KeepsComplained (D.outside desk.old) (D.outside desk.new) }
    ensures faults { NoneFall (D.outside desk.old) (D.outside desk.new) }
{
    match load_and_write(alloc, desk, input) {
        Ok(text) => {
            let line = hex_line(&text);
            deliver(alloc, desk, output, text.as_slice(), line.as_slice())
        }
        Err(ending) => ending,
    }
}

/// The text of the file of `input`, or how the command ends without one.
fn load_and_write<D: Desk>(alloc: Global, desk: &mut D, input: &str) -> Result<Vec<u8>, Ending>
    ensures writes { IfOk result (λ text. WritesFile input.now text.items (D.outside desk.old)) }
    ensures fails { IfErr result (λ ending. LeavesUnwritten input.now ending (D.outside desk.old) (D.outside desk.new)) }
    ensures files { KeepsFiles (D.outside desk.old) (D.outside desk.new) }
    ensures printed { KeepsPrinted (D.outside desk.old) (D.outside desk.new) }
    ensures complained { KeepsComplained (D.outside desk.old) (D.outside desk.new) }
    ensures faults { NoneFall (D.outside desk.old) (D.outside desk.new) }
{
    let bytes = load(alloc, desk, input, LONGEST_FILE)?;
    let elf = read_elf(alloc, bytes.as_slice())?;
    Ok(hex_text(alloc, &elf)?)
}
