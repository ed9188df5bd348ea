//! `watch FILE INPUT LIMIT BASE SIZE ARG*`: loads both, runs FILE under the monitor from the start that the
//! words and INPUT give, and prints the events and the end, the first break or the limit.

ghost use Rattle.std.specs.Prelude.{◌≡◌, ◌<◌, IfOk, IfErr, OnOk, Err, List, ℕ};
ghost use Rattle.std.specs.List.{AllByRecursion};
ghost use Rattle.sq_num.specs.declared.refusal.Refusal.{Refusal};
ghost use Rattle.sq_command.specs.Commands.{request_of};
ghost use Rattle.sq_system.specs.Starts.{start_of, StartFits, IsBadStart};
ghost use Rattle.law_follow.specs.Worlds.{extents};
ghost use Rattle.law_program.specs.Programs.{Program};
ghost use Rattle.law_program.specs.FileRuns.{world_of};
ghost use Rattle.sq_monitor.specs.Transcripts.{file_outcome, transcript_text};
ghost use Rattle.sq_desk.specs.Outside.{KeepsFiles, KeepsPrinted, KeepsComplained, NoneFall};
ghost use Rattle.law_program.specs.FilePrograms.{IsProgramOf, IsRefusalOf, IsAcceptedFile};
ghost use Rattle.sq_top.specs.WatchEndings.{IsWatchTranscript, LeavesUnwatched, LeavesWatch, LeavesTold, watch_ending};

use crate::ending::{DeskCall, Ending};
use crate::loading::load;
use crate::run_command::{FIRST_ARGUMENT, LONGEST_INPUT};
use sq_command::RunWords;
use sq_desk::{Desk, DeskFault};
use sq_elf::{Elf, LONGEST_FILE, read_elf};
use sq_lift::read_text;
use sq_lifted::lift;
use sq_monitor::{WatchFault, WatchOutcome, WatchTranscript, watch_file};
use sq_num::{Denied, WordList, bytes_fit};
use sq_reloc::{Relocs, read_relocs};
use sq_system::Start;
use std::alloc::Global;

/// Watches FILE over INPUT, and prints what tells the watch.
pub fn watch<D: Desk>(alloc: Global, desk: &mut D, words: &WordList, asked: &RunWords<'_>) -> Ending
    ensures leaves { LeavesWatch (request_of words.now asked.now) result (D.outside desk.old) (D.outside desk.new) }
    ensures complained { KeepsComplained (D.outside desk.old) (D.outside desk.new) }
    ensures faults { NoneFall (D.outside desk.old) (D.outside desk.new) }
{
    match load_and_watch(alloc, desk, words, asked) {
        Ok(transcript) => show(alloc, desk, &transcript),
        Err(ending) => ending,
    }
}

/// What tells the watch, or how the command ends without it. A refusal of FILE comes before INPUT is
/// loaded.
fn load_and_watch<D: Desk>(
    alloc: Global,
    desk: &mut D,
    words: &WordList,
    asked: &RunWords<'_>,
) -> Result<WatchTranscript, Ending>
    ensures watches { IfOk result (λ transcript. IsWatchTranscript (request_of words.now asked.now) transcript (D.outside desk.old)) }
    ensures fails { IfErr result (λ ending. LeavesUnwatched (request_of words.now asked.now) ending (D.outside desk.old) (D.outside desk.new)) }
    ensures files { KeepsFiles (D.outside desk.old) (D.outside desk.new) }
    ensures printed { KeepsPrinted (D.outside desk.old) (D.outside desk.new) }
    ensures complained { KeepsComplained (D.outside desk.old) (D.outside desk.new) }
    ensures faults { NoneFall (D.outside desk.old) (D.outside desk.new) }
{
    let bytes = load(alloc, desk, asked.file, LONGEST_FILE)?;
    let elf = read_elf(alloc, bytes.as_slice())?;
    let relocs = accepted_relocs(alloc, &elf)?;
    let input = load(alloc, desk, asked.input, LONGEST_INPUT)?;
    let start = Start {
        words,
        skip: FIRST_ARGUMENT,
        input: input.as_slice(),
        base: asked.base,
        size: asked.size,
    };
    Ok(watch_text(alloc, &elf, &relocs, &start, u64::from(asked.limit))?)
}

/// The relocations of a file of which nothing is refused. Its graph is made to see that, and let go.
fn accepted_relocs<'a>(alloc: Global, elf: &Elf<'a>) -> Result<Relocs<'a>, Denied>
    ensures read { IfOk result (λ relocs. relocs ≡ elf.now) }
    ensures fit { OnOk result (AllByRecursion (λ b. b < 256) elf.now) }
    ensures accepted { OnOk result (IsAcceptedFile elf.now) }
    ensures refused { (refusal : Refusal) → result ≡ Err (Denied.Refused refusal) → IsRefusalOf elf.now refusal }
{
    // Their contracts have that nothing before the relocations refuses the file.
    bytes_fit(elf.bytes());
    let relocs = read_relocs(alloc, elf)?;
    let _graph = lift(alloc, elf, &relocs)?;
    Ok(relocs)
}

/// Reads the text of a file, and watches the file from its start.
fn watch_text(
    alloc: Global,
    elf: &Elf<'_>,
    relocs: &Relocs<'_>,
    start: &Start<'_>,
    limit: u64,
) -> Result<WatchTranscript, WatchFault>
    requires fits { StartFits start.now.base start.now.size }
    requires same { relocs.now ≡ elf.now }
    ensures text { IfOk result (λ transcript. (p : Program) → IsProgramOf elf.now p → transcript.text ≡ transcript_text elf.now p (start_of start.now) limit) }
    ensures outcome { IfOk result (λ transcript. (p : Program) → IsProgramOf elf.now p → transcript.outcome ≡ file_outcome elf.now p (start_of start.now) limit) }
    ensures valid { OnOk result ((p : Program) → IsProgramOf elf.now p → ¬ IsBadStart (extents (world_of elf.now p)) (start_of start.now)) }
    ensures bad { result ≡ Err WatchFault.BadStart → (p : Program) → IsProgramOf elf.now p → IsBadStart (extents (world_of elf.now p)) (start_of start.now) }
{
    let text = read_text(alloc, elf, relocs)?;
    watch_file(alloc, elf, relocs, text, start, limit)
}

/// How a watch ends whose lines are printed.
fn ending_of(outcome: WatchOutcome) -> Ending
    ensures { result ≡ watch_ending outcome }
{
    match outcome {
        WatchOutcome::Ended(_) => Ending::Done,
        WatchOutcome::Limit => Ending::Limit,
        WatchOutcome::Break { .. } => Ending::Break,
    }
}

/// Prints what tells a watch, and ends with that.
fn show<D: Desk>(alloc: Global, desk: &mut D, transcript: &WatchTranscript) -> Ending
    ensures leaves { LeavesTold transcript.now result (D.outside desk.old) (D.outside desk.new) }
    ensures files { KeepsFiles (D.outside desk.old) (D.outside desk.new) }
    ensures complained { KeepsComplained (D.outside desk.old) (D.outside desk.new) }
    ensures faults { NoneFall (D.outside desk.old) (D.outside desk.new) }
{
    match desk.print(alloc, transcript.text.as_slice()) {
        Ok(()) => ending_of(transcript.outcome),
        Err(DeskFault::Failed) => Ending::Desk(DeskCall::Print),
        Err(DeskFault::Memory) => Ending::Memory,
    }
}
