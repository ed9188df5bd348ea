//! `trial FIRST BLOCKS`: generates a file, packs it, packs the result, and prints how many bytes of text each has.

ghost use Rattle.std.specs.Prelude.{◌≡◌, IfOk, IfErr};
ghost use Rattle.sq_desk.specs.Outside.{KeepsComplained, NoneFall};
ghost use Rattle.sq_top.specs.Trials.{trial_text, TellsTrial, LeavesTrial};

use crate::delivery::print_line;
use crate::ending::Ending;
use crate::lines::push_labelled;
use crate::packing::pack_bytes;
use sq_command::TrialWords;
use sq_desk::Desk;
use sq_gen::generate;
use sq_num::Line;
use std::alloc::Global;

/// Prints the line of a trial.
pub fn trial<D: Desk>(alloc: Global, desk: &mut D, asked: TrialWords) -> Ending
    ensures leaves { LeavesTrial asked.first asked.blocks result (D.outside desk.old) (D.outside desk.new) }
    ensures complained { KeepsComplained (D.outside desk.old) (D.outside desk.new) }
    ensures faults { NoneFall (D.outside desk.old) (D.outside desk.new) }
{
    match pack_twice(alloc, asked) {
        Ok(line) => print_line(alloc, desk, line.as_slice()),
        Err(ending) => ending,
    }
}

/// The line of a trial, or that memory ran out: neither a generated file nor a packed one is refused.
fn pack_twice(alloc: Global, asked: TrialWords) -> Result<Line, Ending>
    ensures tells { IfOk result (TellsTrial asked.first asked.blocks) }
    ensures fails { IfErr result (λ ending. ending ≡ Ending.Memory) }
{
    let file = generate(alloc, asked.first, asked.blocks)?;
    let packed = pack_bytes(alloc, file.as_slice())?;
    let again = pack_bytes(alloc, packed.bytes.as_slice())?;
    let line = trial_line(
        asked.first,
        asked.blocks,
        packed.text_before,
        packed.text_after,
        again.text_after,
    );
    Ok(line)
}

/// `trial FIRST BLOCKS: text A -> B, again C` and a newline: at most 77 bytes.
fn trial_line(first: u32, blocks: u32, before: u32, after: u32, again: u32) -> Line
    ensures { result ≡ trial_text first blocks before after again }
{
    let mut line = Line::new();
    push_labelled(&mut line, "trial ", first);
    push_labelled(&mut line, " ", blocks);
    push_labelled(&mut line, ": text ", before);
    push_labelled(&mut line, " -> ", after);
    push_labelled(&mut line, ", again ", again);
    line.push_text("\n");
    line
}
