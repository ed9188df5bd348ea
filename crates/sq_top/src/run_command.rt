//! `run FILE INPUT LIMIT BASE SIZE ARG*`: loads both, runs the plain machine over FILE from the start
//! that the words and INPUT give, and prints the events and the end.

ghost use Rattle.std.specs.Prelude.{◌≡◌, IfOk, IfErr};
ghost use Rattle.sq_command.specs.Commands.{request_of};
ghost use Rattle.sq_desk.specs.Outside.{KeepsFiles, KeepsPrinted, KeepsComplained, NoneFall};
ghost use Rattle.sq_top.specs.RunEndings.{IsTranscript, LeavesUnrun, LeavesRun, LeavesShown, outcome_ending};

use crate::ending::{DeskCall, Ending};
use crate::loading::load;
use sq_command::RunWords;
use sq_desk::{Desk, DeskFault};
use sq_elf::{LONGEST_FILE, read_elf};
use sq_machine::Outcome;
use sq_num::WordList;
use sq_run::{Transcript, run_file};
use sq_system::Start;
use std::alloc::Global;

/// The most bytes of an input.
pub(crate) const LONGEST_INPUT: u32 = 16_777_216;

/// The number of the first argument among the words.
pub(crate) const FIRST_ARGUMENT: usize = 6;

/// Runs FILE over INPUT, and prints what tells the run.
pub fn run<D: Desk>(alloc: Global, desk: &mut D, words: &WordList, asked: &RunWords<'_>) -> Ending
    ensures leaves { LeavesRun (request_of words.now asked.now) result (D.outside desk.old) (D.outside desk.new) }
    ensures complained { KeepsComplained (D.outside desk.old) (D.outside desk.new) }
    ensures faults { NoneFall (D.outside desk.old) (D.outside desk.new) }
{
    match load_and_run(alloc, desk, words, asked) {
        Ok(transcript) => show(alloc, desk, &transcript),
        Err(ending) => ending,
    }
}

/// What tells the run, or how the command ends without it. A refusal of FILE comes before INPUT is
/// loaded.
fn load_and_run<D: Desk>(
    alloc: Global,
    desk: &mut D,
    words: &WordList,
    asked: &RunWords<'_>,
) -> Result<Transcript, Ending>
    ensures runs { IfOk result (λ transcript. IsTranscript (request_of words.now asked.now) transcript (D.outside desk.old)) }
    ensures fails { IfErr result (λ ending. LeavesUnrun (request_of words.now asked.now) ending (D.outside desk.old) (D.outside desk.new)) }
    ensures files { KeepsFiles (D.outside desk.old) (D.outside desk.new) }
    ensures printed { KeepsPrinted (D.outside desk.old) (D.outside desk.new) }
    ensures complained { KeepsComplained (D.outside desk.old) (D.outside desk.new) }
    ensures faults { NoneFall (D.outside desk.old) (D.outside desk.new) }
{
    let bytes = load(alloc, desk, asked.file, LONGEST_FILE)?;
    let file = read_elf(alloc, bytes.as_slice())?;
    let input = load(alloc, desk, asked.input, LONGEST_INPUT)?;
    let start = Start {
        words,
        skip: FIRST_ARGUMENT,
        input: input.as_slice(),
        base: asked.base,
        size: asked.size,
    };
    Ok(run_file(alloc, &file, &start, u64::from(asked.limit))?)
}

/// How a run ends whose lines are printed.
fn ending_of(outcome: Outcome) -> Ending
    ensures { result ≡ outcome_ending outcome }
{
    match outcome {
        Outcome::Ended(_) => Ending::Done,
        Outcome::Limit => Ending::Limit,
    }
}

/// Prints what tells a run, and ends with that.
fn show<D: Desk>(alloc: Global, desk: &mut D, transcript: &Transcript) -> Ending
    ensures leaves { LeavesShown transcript.now result (D.outside desk.old) (D.outside desk.new) }
    ensures files { KeepsFiles (D.outside desk.old) (D.outside desk.new) }
    ensures complained { KeepsComplained (D.outside desk.old) (D.outside desk.new) }
    ensures faults { NoneFall (D.outside desk.old) (D.outside desk.new) }
{
    match desk.print(alloc, transcript.text.as_slice()) {
        Ok(()) => ending_of(transcript.outcome),
        Err(DeskFault::Failed) => Ending::Desk(DeskCall::Print),
        Err(DeskFault::Memory) => Ending::Memory,
    }
}
