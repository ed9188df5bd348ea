//! `check IN OUT CERT`: loads the three files, and prints `proved N` where CERT proves OUT of IN by N steps.

ghost use Rattle.std.specs.Prelude.{◌≡◌, IfOk, IfErr, OnOk, Err};
ghost use Rattle.sq_num.specs.declared.refusal.Refusal.{Refusal};
ghost use Rattle.law_program.specs.FilePrograms.{IsRefusalOf, IsAcceptedFile};
ghost use Rattle.sq_desk.specs.Outside.{KeepsFiles, KeepsPrinted, KeepsComplained, NoneFall, ForFiles, content_of};
ghost use Rattle.sq_top.specs.Endings.{LeavesUnpacked};
ghost use Rattle.sq_top.specs.CertEndings.{Certifies, LeavesUncertified, LeavesCert};

use crate::delivery::print_line;
use crate::ending::Ending;
use crate::lines::proved_line;
use crate::loading::load;
use crate::proving::check_files;
use crate::reading::read_graph;
use sq_cert::Verdict;
use sq_desk::Desk;
use sq_elf::LONGEST_FILE;
use sq_num::Denied;
use std::alloc::Global;

/// The most bytes of a certificate.
pub(crate) const LONGEST_CERT: u32 = 134_217_728;

/// Checks whether the certificate proves the file of `output` of that of `input`.
pub fn check<D: Desk>(alloc: Global, desk: &mut D, input: &str, output: &str, cert: &str) -> Ending
    ensures leaves { LeavesCert input.now output.now cert.now result (D.outside desk.old) (D.outside desk.new) }
    ensures complained { KeepsComplained (D.outside desk.old) (D.outside desk.new) }
    ensures faults { NoneFall (D.outside desk.old) (D.outside desk.new) }
{
    match load_and_check(alloc, desk, input, output, cert) {
        Ok(steps) => {
            let line = proved_line(steps);
            print_line(alloc, desk, line.as_slice())
        }
        Err(ending) => ending,
    }
}

/// The number of steps by which the certificate proves the output, or how the command ends without. A refusal of IN comes
/// before OUT is loaded, and one of OUT before CERT is.
fn load_and_check<D: Desk>(
    alloc: Global,
    desk: &mut D,
    input: &str,
    output: &str,
    cert: &str,
) -> Result<u32, Ending>
    ensures proves { IfOk result (λ steps. Certifies input.now output.now cert.now steps (D.outside desk.old)) }
    ensures fails { IfErr result (λ ending. LeavesUncertified input.now output.now cert.now ending (D.outside desk.old) (D.outside desk.new)) }
    ensures files { KeepsFiles (D.outside desk.old) (D.outside desk.new) }
    ensures printed { KeepsPrinted (D.outside desk.old) (D.outside desk.new) }
    ensures complained { KeepsComplained (D.outside desk.old) (D.outside desk.new) }
    ensures faults { NoneFall (D.outside desk.old) (D.outside desk.new) }
{
    let given = load_accepted(alloc, desk, input)?;
    let packed = load_accepted(alloc, desk, output)?;
    let text = load(alloc, desk, cert, LONGEST_CERT)?;
    match check_files(alloc, given.as_slice(), packed.as_slice(), text.as_slice())? {
        Verdict::Yes { steps } => Ok(steps),
        Verdict::No { line } => Err(Ending::Differs(line)),
    }
}

/// The file of `name`, of which nothing is refused, or how the command ends without it.
pub(crate) fn load_accepted<D: Desk>(
    alloc: Global,
    desk: &mut D,
    name: &str,
) -> Result<Vec<u8>, Ending>
    ensures told { IfOk result (λ bytes. ForFiles (D.outside desk.old) (λ files. bytes.items ≡ content_of files name.now)) }
    ensures accepted { IfOk result (λ bytes. IsAcceptedFile bytes.items) }
    ensures fails { IfErr result (λ ending. LeavesUnpacked name.now ending (D.outside desk.old) (D.outside desk.new)) }
    ensures files { KeepsFiles (D.outside desk.old) (D.outside desk.new) }
    ensures printed { KeepsPrinted (D.outside desk.old) (D.outside desk.new) }
    ensures complained { KeepsComplained (D.outside desk.old) (D.outside desk.new) }
    ensures faults { NoneFall (D.outside desk.old) (D.outside desk.new) }
{
    let bytes = load(alloc, desk, name, LONGEST_FILE)?;
    accept(alloc, bytes.as_slice())?;
    Ok(bytes)
}

/// Ok where nothing of the file is refused.
fn accept(alloc: Global, bytes: &[u8]) -> Result<(), Denied>
    ensures accepted { OnOk result (IsAcceptedFile bytes.now) }
    ensures refused { (refusal : Refusal) → result ≡ Err (Denied.Refused refusal) → IsRefusalOf bytes.now refusal }
{
    let _accepted = read_graph(alloc, bytes)?;
    Ok(())
}
