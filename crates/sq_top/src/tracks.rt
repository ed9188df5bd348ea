//! Where the functions of a file go by a certificate.

ghost use Rattle.std.specs.Prelude.{◌≡◌, ◌⊎◌, ℕ, ◌<◌, ◌≤◌, ◌^◌, List, ◌++◌, if◌then◌else◌, length, map, option_map, IfOk, OnOk, Err};
ghost use Rattle.std.specs.Option.{option_to_list};
ghost use Rattle.sq_num.specs.declared.refusal.Refusal.{Refusal as Cause};
ghost use Rattle.sq_num.specs.declared.refusal.Denied.{Denied as Lack};
ghost use Rattle.sq_graph.specs.Slotted.{IsSlotted};
ghost use Rattle.sq_lift.specs.Flags.{is_flagged};
ghost use Rattle.sq_lift.specs.Starts.{slot_at};
ghost use Rattle.sq_lifted.specs.LiftedFiles.{IsLiftedFile, FitsFile};
ghost use Rattle.sq_names.specs.Names.{seen};
ghost use Rattle.sq_names.specs.declared.track.Track.{Track as Place};
ghost use Rattle.sq_drive.specs.Tracking.{carried, standing};
ghost use Rattle.law_program.specs.FilePrograms.{IsRefusalOf};
ghost use Rattle.sq_top.specs.Tracking.{begun_by, placed_at};
ghost use Rattle.sq_top.specs.Tracks.{AreTracksOf, AgreeWithOutputs, FailsToTrack};

use crate::reading::{FileGraph, read_graph};
use sq_drive::track_graph;
use sq_elf::Elf;
use sq_graph::Graph;
use sq_layout::{Places, place};
use sq_lift::{BlockStarts, starts};
use sq_names::{Function, Names, Track, Tracks, function_names};
use sq_num::{Denied, Memory, bytes_fit};
use sq_reloc::Relocs;
use std::alloc::Global;

/// Why the functions of a file have no tracks.
#[derive(Clone, Copy, Debug, PartialEq, Eq)]
pub enum TrackFault {
    /// The file is refused, or memory ran out.
    Denied(Denied),
    /// The first line of the certificate that has no form or is no candidate, counted from 1.
    Line(u32),
}

impl From<Denied> for TrackFault {
    ghost use Rattle.std.specs.Prelude.{◌≡◌};
    ghost use Rattle.sq_top.specs.Denials.{denied_fault};

    ghost from_gives = { λ denied fault. fault ≡ denied_fault denied };

    fn from(denied: Denied) -> TrackFault {
        TrackFault::Denied(denied)
    }
}

impl From<Memory> for TrackFault {
    ghost use Rattle.std.specs.Prelude.{◌≡◌};
    ghost use Rattle.sq_top.specs.Denials.{memory_fault};

    ghost from_gives = { λ _ fault. fault ≡ memory_fault };

    fn from(_error: Memory) -> TrackFault {
        TrackFault::Denied(Denied::Memory)
    }
}

/// Where a function that begins at the address is in the given file.
fn begun(starts: &BlockStarts, address: u32) -> Track
    ensures { result ≡ (if is_flagged starts.now.reached address then standing (slot_at starts.now address) else Place.Gone) }
{
    if !starts.reached(address) {
        return Track::Gone;
    }
    match starts.slot(address) {
        Some(slot) => Track::At(slot),
        None => Track::Inside,
    }
}

/// Appends where the function is, where there is one.
fn push_begun(
    tracks: &mut Vec<Track>,
    starts: &BlockStarts,
    function: Option<Function<'_>>,
) -> Result<(), Memory>
    ensures { OnOk result (tracks.new.items ≡ tracks.old.items ++ option_to_list (option_map (begun_by starts.now) (option_map seen function.entry))) }
{
    if let Some(function) = function {
        tracks.push(begun(starts, function.value))?;
    }
    Ok(())
}

/// Where each function is in the given file.
fn all_begun(alloc: Global, starts: &BlockStarts, names: &Names<'_>) -> Result<Vec<Track>, Memory>
    ensures tracks { IfOk result (λ tracks. tracks.items ≡ map (begun_by starts.now) names.now) }
    ensures few { OnOk result (length names.now < 2 ^ 32) }
{
    let mut tracks = Vec::new(alloc);
    for index in 0..names.len() {
        push_begun(&mut tracks, starts, names.get(index))?;
    }
    Ok(tracks)
}

/// A block's address in place of its name.
fn at_address(places: &Places, track: Track) -> Track
    ensures { result ≡ carried (placed_at places.now) track }
{
    match track {
        Track::At(block) => Track::At(places.address(block).unwrap_or(0)),
        Track::Inside => Track::Inside,
        Track::Gone => Track::Gone,
    }
}

/// The addresses of blocks in place of their names.
fn at_addresses(alloc: Global, places: &Places, tracks: &[Track]) -> Result<Vec<Track>, Memory>
    ensures { IfOk result (λ after. after.items ≡ map (carried (placed_at places.now)) tracks.now) }
{
    let mut after = Vec::new(alloc);
    for track in tracks {
        after.push(at_address(places, *track))?;
    }
    Ok(after)
}

/// Where the functions of a file that is not refused go by the steps of the certificate.
fn track_file(
    alloc: Global,
    elf: &Elf<'_>,
    relocs: &Relocs<'_>,
    graph: &mut Graph,
    cert: &[u8],
) -> Result<Tracks, TrackFault>
    requires same { relocs.now ≡ elf.now }
    requires lifted { IsLiftedFile elf.now graph.old.graph }
    requires slotted { IsSlotted graph.old.graph }
    requires fits { FitsFile elf.now graph.old.graph }
    requires text { length cert.now ≤ 134217728 }
    ensures tracked { IfOk result (λ tracks. AreTracksOf elf.now cert.now tracks) }
    ensures one { IfOk result (λ tracks. (others : List Place) → AreTracksOf elf.now cert.now others → others ≡ tracks) }
    ensures agree { IfOk result (λ tracks. AgreeWithOutputs elf.now cert.now tracks) }
    ensures line { (line : ℕ) → result ≡ Err (TrackFault.Line line) → FailsToTrack elf.now cert.now line }
    ensures only { (line : ℕ) → result ≡ Err (TrackFault.Line line) → (tracks : List Place) → ¬ AreTracksOf elf.now cert.now tracks }
    ensures memory { (denied : Lack) → result ≡ Err (TrackFault.Denied denied) → denied ≡ Denied.Memory }
{
    bytes_fit(elf.bytes());
    let starts = starts(alloc, elf, relocs)?;
    let names = function_names(alloc, elf)?;
    let mut tracks = all_begun(alloc, &starts, &names)?;
    if let Some(line) = track_graph(alloc, graph, cert, &mut tracks)? {
        return Err(TrackFault::Line(line));
    }
    graph.learn();
    let places = place(alloc, graph, elf.text().lo)?;
    let tracks = at_addresses(alloc, &places, tracks.as_slice())?;
    Ok(Tracks::new(tracks))
}

/// Where the functions of the file go by the steps of the certificate, in the order of its symbols: to the address of a block
/// in what is written of the last graph, inside a block, or nowhere. Each step looks at the whole graph, and at each track.
pub fn track(alloc: Global, input: &[u8], cert: &[u8]) -> Result<Tracks, TrackFault>
    requires text { length cert.now ≤ 134217728 }
    ensures tracked { IfOk result (λ tracks. AreTracksOf input.now cert.now tracks) }
    ensures one { IfOk result (λ tracks. (others : List Place) → AreTracksOf input.now cert.now others → others ≡ tracks) }
    ensures agree { IfOk result (λ tracks. AgreeWithOutputs input.now cert.now tracks) }
    ensures line { (line : ℕ) → result ≡ Err (TrackFault.Line line) → FailsToTrack input.now cert.now line }
    ensures only { (line : ℕ) → result ≡ Err (TrackFault.Line line) → (tracks : List Place) → ¬ AreTracksOf input.now cert.now tracks }
    ensures refused { (refusal : Cause) → result ≡ Err (TrackFault.Denied (Denied.Refused refusal)) → IsRefusalOf input.now refusal }
    ensures exact { (refusal : Cause) → IsRefusalOf input.now refusal → (result ≡ Err (TrackFault.Denied (Denied.Refused refusal))) ⊎ (result ≡ Err (TrackFault.Denied Denied.Memory)) }
{
    let FileGraph {
        elf,
        relocs,
        mut graph,
    } = read_graph(alloc, input)?;
    track_file(alloc, &elf, &relocs, &mut graph, cert)
}
