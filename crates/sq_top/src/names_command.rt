//! `names IN CERT`: loads both, and prints where each function of IN goes by the steps of CERT.

ghost use Rattle.std.specs.Prelude.{◌≡◌, ℕ, ◌≤◌, List, length, IfOk, IfErr, Err};
ghost use Rattle.sq_num.specs.declared.refusal.Refusal.{Refusal};
ghost use Rattle.sq_names.specs.declared.track.Track.{Track as Place};
ghost use Rattle.law_program.specs.FilePrograms.{IsRefusalOf};
ghost use Rattle.sq_desk.specs.Outside.{KeepsFiles, KeepsPrinted, KeepsComplained, NoneFall};
ghost use Rattle.sq_top.specs.Tracks.{AreTracksOf, FailsToTrack, AreLinesOf};
ghost use Rattle.sq_top.specs.NamesEndings.{TellsNames, LeavesUnnamed, LeavesNames};

use crate::check_command::{LONGEST_CERT, load_accepted};
use crate::delivery::print_line;
use crate::ending::Ending;
use crate::loading::load;
use crate::tracks::{TrackFault, track};
use sq_desk::Desk;
use sq_elf::read_elf;
use sq_names::{function_names, names_text};
use sq_num::Denied;
use std::alloc::Global;

/// Tells where the functions of the file of `input` go by the certificate.
pub fn names<D: Desk>(alloc: Global, desk: &mut D, input: &str, cert: &str) -> Ending
    ensures leaves { LeavesNames input.now cert.now result (D.outside desk.old) (D.outside desk.new) }
    ensures complained { KeepsComplained (D.outside desk.old) (D.outside desk.new) }
    ensures faults { NoneFall (D.outside desk.old) (D.outside desk.new) }
{
    match load_and_name(alloc, desk, input, cert) {
        Ok(lines) => print_line(alloc, desk, lines.as_slice()),
        Err(ending) => ending,
    }
}

/// The lines of the functions, or how the command ends without. A refusal of IN comes before CERT is loaded.
fn load_and_name<D: Desk>(
    alloc: Global,
    desk: &mut D,
    input: &str,
    cert: &str,
) -> Result<Vec<u8>, Ending>
    ensures tells { IfOk result (λ lines. TellsNames input.now cert.now lines.items (D.outside desk.old)) }
    ensures fails { IfErr result (λ ending. LeavesUnnamed input.now cert.now ending (D.outside desk.old) (D.outside desk.new)) }
    ensures files { KeepsFiles (D.outside desk.old) (D.outside desk.new) }
    ensures printed { KeepsPrinted (D.outside desk.old) (D.outside desk.new) }
    ensures complained { KeepsComplained (D.outside desk.old) (D.outside desk.new) }
    ensures faults { NoneFall (D.outside desk.old) (D.outside desk.new) }
{
    let given = load_accepted(alloc, desk, input)?;
    let text = load(alloc, desk, cert, LONGEST_CERT)?;
    Ok(lines_of(alloc, given.as_slice(), text.as_slice())?)
}

/// The lines of the functions of a file, with the places to which the certificate leads them.
fn lines_of(alloc: Global, input: &[u8], cert: &[u8]) -> Result<Vec<u8>, TrackFault>
    requires text { length cert.now ≤ 134217728 }
    ensures lines { IfOk result (λ lines. AreLinesOf input.now cert.now lines.items) }
    ensures line { (line : ℕ) → result ≡ Err (TrackFault.Line line) → FailsToTrack input.now cert.now line }
    ensures only { (line : ℕ) → result ≡ Err (TrackFault.Line line) → (tracks : List Place) → ¬ AreTracksOf input.now cert.now tracks }
    ensures refused { (refusal : Refusal) → result ≡ Err (TrackFault.Denied (Denied.Refused refusal)) → IsRefusalOf input.now refusal }
{
    let tracks = track(alloc, input, cert)?;
    let elf = read_elf(alloc, input)?;
    let names = function_names(alloc, &elf)?;
    Ok(names_text(alloc, &names, &tracks)?)
}
