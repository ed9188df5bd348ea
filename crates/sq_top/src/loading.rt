//! Loads, as parts of commands.

ghost use Rattle.std.specs.Prelude.{◌≡◌, ◌≤◌, length, IfOk, IfErr};
ghost use Rattle.sq_desk.specs.Outside.{KeepsFiles, KeepsPrinted, KeepsComplained, NoneFall, ForFiles, content_of};
ghost use Rattle.sq_top.specs.RunEndings.{LeavesUnloaded};

use crate::ending::{DeskCall, Ending};
use sq_desk::{Desk, LoadFault};
use sq_num::Refusal;
use std::alloc::Global;

/// The file of `name`, which has at most `limit` bytes, or how the command ends without it.
pub fn load<D: Desk>(alloc: Global, desk: &mut D, name: &str, limit: u32) -> Result<Vec<u8>, Ending>
    ensures told { IfOk result (λ bytes. ForFiles (D.outside desk.old) (λ files. bytes.items ≡ content_of files name.now)) }
    ensures within { IfOk result (λ bytes. length bytes.items ≤ limit) }
    ensures fails { IfErr result (λ ending. LeavesUnloaded name.now limit ending (D.outside desk.old) (D.outside desk.new)) }
    ensures files { KeepsFiles (D.outside desk.old) (D.outside desk.new) }
    ensures printed { KeepsPrinted (D.outside desk.old) (D.outside desk.new) }
    ensures complained { KeepsComplained (D.outside desk.old) (D.outside desk.new) }
    ensures faults { NoneFall (D.outside desk.old) (D.outside desk.new) }
{
    match desk.load(alloc, name, limit) {
        Ok(bytes) => Ok(bytes),
        Err(LoadFault::Failed) => Err(Ending::Desk(DeskCall::Load)),
        Err(LoadFault::TooLong) => Err(Ending::Refused(Refusal::FileTooLong)),
        Err(LoadFault::Memory) => Err(Ending::Memory),
    }
}
