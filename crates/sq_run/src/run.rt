//! The run of a file.

ghost use Rattle.std.specs.Prelude.{◌≡◌, ◌⊎◌, ◌++◌, codes, IfOk, OnOk};
ghost use Rattle.sq_system.specs.Starts.{start_of, StartFits};
ghost use Rattle.sq_system.specs.Lines.{events_text, end_text};
ghost use Rattle.sq_machine.specs.Steps.{status_of};
ghost use Rattle.sq_machine.specs.Views.{machine_state, machine_world};
ghost use Rattle.sq_run.specs.FileRuns.{file_world, file_state, file_trace, IsBadFileStart};
ghost use Rattle.sq_run.specs.Transcripts.{halt_of, trace_text};

use crate::fault::RunFault;
use crate::pieces::loaded_pieces;
use sq_elf::Elf;
use sq_machine::{Machine, NewFault, Outcome};
use sq_num::{Bytes, Memory};
use sq_system::{Halt, Log, Start, end_line, event_lines};
use std::alloc::Global;

/// The lines that tell a run, and how it stands at their end.
#[derive(Debug, Drop)]
pub struct Transcript {
    pub text: Bytes,
    pub outcome: Outcome,
}

/// A machine over the image of a file, at its entry.
fn machine(alloc: Global, file: &Elf<'_>, start: &Start<'_>) -> Result<Machine, RunFault>
    requires { StartFits start.now.base start.now.size }
    ensures world { IfOk result (λ machine. machine_world machine ≡ file_world file.now (start_of start.now)) }
    ensures state { IfOk result (λ machine. machine_state machine ≡ file_state file.now (start_of start.now)) }
    ensures valid { OnOk result (¬ IsBadFileStart file.now (start_of start.now)) }
    ensures bad { result ≡ Err RunFault.BadStart → IsBadFileStart file.now (start_of start.now) }
{
    let image = file.image(alloc)?;
    let pieces = loaded_pieces(alloc, &image)?;
    match Machine::new(alloc, pieces.as_slice(), file.entry(), start) {
        Ok(machine) => Ok(machine),
        Err(NewFault::BadStart) => Err(RunFault::BadStart),
        Err(NewFault::Memory) => Err(RunFault::Memory),
    }
}

/// The halt of a run, or None where it came to its limit.
fn halt_of(outcome: Outcome) -> Option<Halt>
    ensures { result ≡ halt_of (status_of outcome) }
{
    match outcome {
        Outcome::Ended(halt) => Some(halt),
        Outcome::Limit => None,
    }
}

/// The lines of the events, and the line of the end.
fn lines(alloc: Global, log: &Log, end: Option<Halt>) -> Result<Vec<u8>, Memory>
    ensures { IfOk result (λ lines. lines.items ≡ events_text log.now ++ (end_text end ++ codes "\n")) }
{
    let mut lines = event_lines(alloc, log)?;
    lines.extend_from_slice(end_line(end).as_slice())?;
    Ok(lines)
}

/// Runs an accepted file from its start for at most `limit` steps, and answers the lines of its
/// events and its end. `BadStart` comes where the start is bad, and never else; any step may find no
/// memory.
pub fn run_file(
    alloc: Global,
    file: &Elf<'_>,
    start: &Start<'_>,
    limit: u64,
) -> Result<Transcript, RunFault>
    requires { StartFits start.now.base start.now.size }
    ensures text { IfOk result (λ transcript. transcript.text ≡ trace_text (file_trace file.now (start_of start.now) limit)) }
    ensures outcome { IfOk result (λ transcript. (file_trace file.now (start_of start.now) limit).status ≡ status_of transcript.outcome) }
    ensures valid { OnOk result (¬ IsBadFileStart file.now (start_of start.now)) }
    ensures bad { result ≡ Err RunFault.BadStart → IsBadFileStart file.now (start_of start.now) }
{
    let mut machine = machine(alloc, file, start)?;
    let mut log = Log::new(alloc);
    let outcome = machine.run(&mut log, limit)?;
    let text = lines(alloc, &log, halt_of(outcome))?;
    Ok(Transcript {
        text: Bytes::from_vec(text),
        outcome,
    })
}
