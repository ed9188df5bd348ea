//! The lines that tell the watched run of a file.

ghost use Rattle.std.specs.Prelude.{◌≡◌, ◌++◌, ◌≤◌, codes, length, Err, IfOk, OnOk};
ghost use Rattle.sq_system.specs.Starts.{start_of, StartFits, IsBadStart};
ghost use Rattle.sq_system.specs.Lines.{events_text};
ghost use Rattle.law_follow.specs.Worlds.{extents};
ghost use Rattle.law_program.specs.Programs.{Program};
ghost use Rattle.law_program.specs.FilePrograms.{text_of, IsProgramOf};
ghost use Rattle.law_program.specs.FileRuns.{world_of};
ghost use Rattle.sq_monitor.specs.Transcripts.{file_outcome, kind_text, outcome_text, transcript_text};

use crate::fault::WatchFault;
use crate::moved::WatchOutcome;
use crate::watch::Watch;
use law_follow::Kind;
use sq_elf::Elf;
use sq_lift::Text;
use sq_num::{Bytes, Line, Memory};
use sq_reloc::Relocs;
use sq_system::{Log, Start, end_line, event_lines};
use std::alloc::Global;

/// The lines that tell a watched run, and how it stands at their end.
#[derive(Debug, Drop)]
pub struct WatchTranscript {
    pub text: Bytes,
    pub outcome: WatchOutcome,
}

/// The kind of a break in lower case.
fn kind_name(kind: Kind) -> &'static str
    ensures text { result.now ≡ kind_text kind }
    ensures short { length result.now ≤ 10 }
{
    match kind {
        Kind::Arithmetic => "arithmetic",
        Kind::Half => "half",
        Kind::Call => "call",
        Kind::Fragment => "fragment",
        Kind::Stale => "stale",
        Kind::Text => "text",
        Kind::Jump => "jump",
        Kind::Address => "address",
    }
}

/// The line that tells a break.
fn break_line(pc: u32, kind: Kind) -> Line
    ensures { result ≡ outcome_text (WatchOutcome.Break pc kind) ++ codes "\n" }
{
    let mut line = Line::new();
    line.push_text("break ");
    line.push_text(kind_name(kind));
    line.push_text(" at ");
    line.push_hex(pc);
    line.push_text("\n");
    line
}

/// The line that tells how a watched run stands. It takes no memory.
pub fn outcome_line(outcome: WatchOutcome) -> Line
    ensures { result ≡ outcome_text outcome ++ codes "\n" }
{
    match outcome {
        WatchOutcome::Limit => end_line(None),
        WatchOutcome::Ended(halt) => end_line(Some(halt)),
        WatchOutcome::Break { pc, kind } => break_line(pc, kind),
    }
}

/// The lines of the events, and the line of the end.
fn lines(alloc: Global, log: &Log, outcome: WatchOutcome) -> Result<Vec<u8>, Memory>
    ensures { IfOk result (λ lines. lines.items ≡ events_text log.now ++ (outcome_text outcome ++ codes "\n")) }
{
    let mut lines = event_lines(alloc, log)?;
    lines.extend_from_slice(outcome_line(outcome).as_slice())?;
    Ok(lines)
}

/// Watches a file from its start for at most `limit` steps, and answers the lines of its events and of its
/// end, its first break or its limit. `text` is the text of the file. `BadStart` comes where the start is bad,
/// and never else; any step may find no memory.
pub fn watch_file(
    alloc: Global,
    elf: &Elf<'_>,
    relocs: &Relocs<'_>,
    text: Text,
    start: &Start<'_>,
    limit: u64,
) -> Result<WatchTranscript, WatchFault>
    requires fits { StartFits start.now.base start.now.size }
    requires same { relocs.now ≡ elf.now }
    requires text { text ≡ text_of elf.now }
    ensures text { IfOk result (λ transcript. (p : Program) → IsProgramOf elf.now p → transcript.text ≡ transcript_text elf.now p (start_of start.now) limit) }
    ensures outcome { IfOk result (λ transcript. (p : Program) → IsProgramOf elf.now p → transcript.outcome ≡ file_outcome elf.now p (start_of start.now) limit) }
    ensures valid { OnOk result ((p : Program) → IsProgramOf elf.now p → ¬ IsBadStart (extents (world_of elf.now p)) (start_of start.now)) }
    ensures bad { result ≡ Err WatchFault.BadStart → (p : Program) → IsProgramOf elf.now p → IsBadStart (extents (world_of elf.now p)) (start_of start.now) }
{
    let mut watch = Watch::new(alloc, elf, relocs, text, start)?;
    let mut log = Log::new(alloc);
    let outcome = watch.run(&mut log, limit)?;
    let text = lines(alloc, &log, outcome)?;
    Ok(WatchTranscript {
        text: Bytes::from_vec(text),
        outcome,
    })
}
