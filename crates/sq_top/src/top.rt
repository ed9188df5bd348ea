//! The top call.

ghost use Rattle.std.specs.Prelude.{◌≡◌, ◌≢◌, ◌↔◌, ◌≤◌, None};
ghost use Rattle.law_runs.specs.Runs.{HasHalted};
ghost use Rattle.sq_desk.specs.Outside.{Place, KeepsFiles, KeepsComplained, NoneFall};
ghost use Rattle.sq_command.specs.Commands.{form_of};
ghost use Rattle.sq_top.specs.declared.ending.Ending.{Ending};
ghost use Rattle.sq_top.specs.Statuses.{status_of, IsStatusOf};
ghost use Rattle.sq_top.specs.Endings.{Leaves};
ghost use Rattle.sq_top.specs.Promises.{Ends, ForPack, IsDone, StayOrHold, PrintsAsSaid, HasFault, HasRefusal, RefusesExactly, IsComplete};
ghost use Rattle.sq_top.specs.Running.{IsAtLimit};
ghost use Rattle.sq_top.specs.Watching.{HasBroken};
ghost use Rattle.sq_top.specs.WatchEndings.{PrintsWatch};
ghost use Rattle.sq_top.specs.WatchPromises.{ForWatch, HasWatchRefusal, IsBadWatch, WatchesExactly, IsWatchComplete};
ghost use Rattle.sq_top.specs.HexPromises.{ForHex, ForHexcheck, IsHexDone, HasHexRefusal, HexRefusesExactly, IsHexComplete, IsCheckDone, HasDifference, HasCheckFault, HasCheckRefusal, ChecksExactly, IsCheckComplete};
ghost use Rattle.sq_top.specs.SizePromises.{ForSize, IsSizeDone, HasSizeFault, IsSizeComplete};
ghost use Rattle.sq_top.specs.TrialPromises.{ForTrial, IsTrialDone, HasTrialFault, IsTrialComplete};
ghost use Rattle.sq_top.specs.CertPromises.{ForCheck, IsCertDone, HasNoProof, HasCertFault, HasCertRefusal, CertifiesExactly, IsCertComplete};
ghost use Rattle.sq_top.specs.ProvePromises.{ForProve, IsProveDone, HasProveFault, IsProveComplete};
ghost use Rattle.sq_top.specs.NamesPromises.{ForNames, IsNamesDone, HasStepFault, HasNamesFault, HasNamesRefusal, NamesExactly, IsNamesComplete};
ghost use Rattle.sq_top.specs.FoldPromises.{ForFold, IsFoldDone};
ghost use Rattle.sq_top.specs.RunEndings.{PrintsRun};
ghost use Rattle.sq_top.specs.RunPromises.{ForRun, HasRunFault, HasRunRefusal, IsBadRun, RunsExactly, IsRunComplete};

use crate::complaint::complain;
use crate::ending::Ending;
use crate::{
    check_command, fold_command, hex_command, hexcheck_command, names_command, pack_command,
    prove_command, run_command, size_command, trial_command, watch_command,
};
use sq_command::{Command, command_of};
use sq_desk::Desk;
use sq_num::WordList;
use std::alloc::Global;

/// Does what the words of a command line ask for, over a desk, and answers the status: 0 done, 1
/// words without a form, 2 a fault of the desk, 3 refused, 4 out of memory, 5 a break of what is watched,
/// 6 a run at its limit, 7 a bad start, 8 a text that differs or a certificate that fails. The words are those behind the program's name: `pack IN OUT` loads IN, packs it, stores
/// OUT, and prints the sizes; `run FILE INPUT LIMIT BASE SIZE ARG*` loads FILE and INPUT, runs FILE
/// for at most LIMIT steps, and prints the events and the end; `watch` with the same words does so under the
/// monitor, which refuses all that `pack` refuses and ends at the first break too; `hex IN OUT` loads IN, stores its
/// text of Intel HEX, and prints the number of records; `hexcheck IN HEX` prints `same` where HEX means what IN has in flash;
/// `size IN` loads IN, packs it, stores nothing, and prints the report; `trial FIRST BLOCKS` generates a file, packs it,
/// packs the result, stores nothing, and prints how many bytes of text each has;
/// `check IN OUT CERT` prints `proved N` where the N steps of CERT lead from IN to OUT; `prove IN OUT CERT` loads IN, packs
/// it, stores OUT, stores CERT, which proves OUT of IN, and prints the sizes; `names IN CERT` prints where each function of IN
/// goes by the steps of CERT; `fold IN OUT` loads IN, packs it and folds equal functions in turn, stores OUT, and prints the
/// sizes.
pub fn squeeze<D: Desk>(alloc: Global, desk: &mut D, words: &WordList) -> u8
    // Status 0: the headline.
    ensures done { ForPack words.now (λ input output. result ≡ 0 → IsDone input output (D.outside desk.old) (D.outside desk.new)) }

    // Each other status of `pack` has its cause, and comes where it is there.
    ensures fault { ForPack words.now (λ input output. result ≡ 2 → HasFault input output (D.outside desk.old) (D.outside desk.new)) }
    ensures refused { ForPack words.now (λ input _. result ≡ 3 → HasRefusal input (D.outside desk.old) (D.outside desk.new)) }
    ensures exact { ForPack words.now (λ input _. RefusesExactly input result (D.outside desk.old) (D.outside desk.new)) }
    ensures complete { ForPack words.now (λ input output. IsComplete input output result (D.outside desk.old) (D.outside desk.new)) }

    // `run`: what was printed with 0 and 6, and the cause of each other status.
    ensures run_done { ForRun words.now (λ request. result ≡ 0 → PrintsRun request HasHalted (D.outside desk.old) (D.outside desk.new)) }
    ensures run_limit { ForRun words.now (λ request. result ≡ 6 → PrintsRun request IsAtLimit (D.outside desk.old) (D.outside desk.new)) }
    ensures run_bad { ForRun words.now (λ request. result ≡ 7 → IsBadRun request (D.outside desk.old) (D.outside desk.new)) }
    ensures run_fault { ForRun words.now (λ request. result ≡ 2 → HasRunFault request (D.outside desk.old) (D.outside desk.new)) }
    ensures run_refused { ForRun words.now (λ request. result ≡ 3 → HasRunRefusal request (D.outside desk.old) (D.outside desk.new)) }
    ensures run_exact { ForRun words.now (λ request. RunsExactly request result (D.outside desk.old) (D.outside desk.new)) }
    ensures run_complete { ForRun words.now (λ request. IsRunComplete request result (D.outside desk.old) (D.outside desk.new)) }
    ensures run_files { ForRun words.now (λ _. KeepsFiles (D.outside desk.old) (D.outside desk.new)) }

    // `watch`: what was printed with 0, 5 and 6, and the cause of each other status.
    ensures watch_done { ForWatch words.now (λ request. result ≡ 0 → PrintsWatch request HasHalted (D.outside desk.old) (D.outside desk.new)) }
    ensures watch_break { ForWatch words.now (λ request. result ≡ 5 → PrintsWatch request HasBroken (D.outside desk.old) (D.outside desk.new)) }
    ensures watch_limit { ForWatch words.now (λ request. result ≡ 6 → PrintsWatch request IsAtLimit (D.outside desk.old) (D.outside desk.new)) }
    ensures watch_bad { ForWatch words.now (λ request. result ≡ 7 → IsBadWatch request (D.outside desk.old) (D.outside desk.new)) }
    ensures watch_fault { ForWatch words.now (λ request. result ≡ 2 → HasRunFault request (D.outside desk.old) (D.outside desk.new)) }
    ensures watch_refused { ForWatch words.now (λ request. result ≡ 3 → HasWatchRefusal request (D.outside desk.old) (D.outside desk.new)) }
    ensures watch_exact { ForWatch words.now (λ request. WatchesExactly request result (D.outside desk.old) (D.outside desk.new)) }
    ensures watch_complete { ForWatch words.now (λ request. IsWatchComplete request result (D.outside desk.old) (D.outside desk.new)) }
    ensures watch_files { ForWatch words.now (λ _. KeepsFiles (D.outside desk.old) (D.outside desk.new)) }

    // `hex`: with 0 OUT holds the text of IN, which means its flash and its entry; each other status has its cause.
    ensures hex_done { ForHex words.now (λ input output. result ≡ 0 → IsHexDone input output (D.outside desk.old) (D.outside desk.new)) }
    ensures hex_fault { ForHex words.now (λ input output. result ≡ 2 → HasFault input output (D.outside desk.old) (D.outside desk.new)) }
    ensures hex_refused { ForHex words.now (λ input _. result ≡ 3 → HasHexRefusal input (D.outside desk.old) (D.outside desk.new)) }
    ensures hex_exact { ForHex words.now (λ input _. HexRefusesExactly input result (D.outside desk.old) (D.outside desk.new)) }
    ensures hex_complete { ForHex words.now (λ input output. IsHexComplete input output result (D.outside desk.old) (D.outside desk.new)) }

    // `hexcheck`: 0 where HEX means the flash and the entry of IN, 8 where it does not.
    ensures check_done { ForHexcheck words.now (λ input text. result ≡ 0 → IsCheckDone input text (D.outside desk.old) (D.outside desk.new)) }
    ensures check_differs { ForHexcheck words.now (λ input text. result ≡ 8 → HasDifference input text (D.outside desk.old) (D.outside desk.new)) }
    ensures check_fault { ForHexcheck words.now (λ input text. result ≡ 2 → HasCheckFault input text (D.outside desk.old) (D.outside desk.new)) }
    ensures check_refused { ForHexcheck words.now (λ input text. result ≡ 3 → HasCheckRefusal input text (D.outside desk.old) (D.outside desk.new)) }
    ensures check_exact { ForHexcheck words.now (λ input text. ChecksExactly input text result (D.outside desk.old) (D.outside desk.new)) }
    ensures check_complete { ForHexcheck words.now (λ input text. IsCheckComplete input text result (D.outside desk.old) (D.outside desk.new)) }
    ensures check_files { ForHexcheck words.now (λ _ _. KeepsFiles (D.outside desk.old) (D.outside desk.new)) }

    // `size`: with 0 the report of a packing of IN was printed; each other status has its cause.
    ensures size_done { ForSize words.now (λ input. result ≡ 0 → IsSizeDone input (D.outside desk.old) (D.outside desk.new)) }
    ensures size_fault { ForSize words.now (λ input. result ≡ 2 → HasSizeFault input (D.outside desk.old) (D.outside desk.new)) }
    ensures size_refused { ForSize words.now (λ input. result ≡ 3 → HasRefusal input (D.outside desk.old) (D.outside desk.new)) }
    ensures size_exact { ForSize words.now (λ input. RefusesExactly input result (D.outside desk.old) (D.outside desk.new)) }
    ensures size_complete { ForSize words.now (λ input. IsSizeComplete input result (D.outside desk.old) (D.outside desk.new)) }
    ensures size_files { ForSize words.now (λ _. KeepsFiles (D.outside desk.old) (D.outside desk.new)) }

    // `trial`: with 0 the line of a packing of the generated file was printed; it is never refused.
    ensures trial_done { ForTrial words.now (λ first blocks. result ≡ 0 → IsTrialDone first blocks (D.outside desk.old) (D.outside desk.new)) }
    ensures trial_fault { ForTrial words.now (λ _ _. result ≡ 2 → HasTrialFault (D.outside desk.old) (D.outside desk.new)) }
    ensures trial_complete { ForTrial words.now (λ _ _. IsTrialComplete result (D.outside desk.old) (D.outside desk.new)) }
    ensures trial_files { ForTrial words.now (λ _ _. KeepsFiles (D.outside desk.old) (D.outside desk.new)) }

    // `check`: 0 where CERT proves OUT of IN, 8 where it does not.
    ensures cert_done { ForCheck words.now (λ input output cert. result ≡ 0 → IsCertDone input output cert (D.outside desk.old) (D.outside desk.new)) }
    ensures cert_differs { ForCheck words.now (λ input output cert. result ≡ 8 → HasNoProof input output cert (D.outside desk.old) (D.outside desk.new)) }
    ensures cert_fault { ForCheck words.now (λ input output cert. result ≡ 2 → HasCertFault input output cert (D.outside desk.old) (D.outside desk.new)) }
    ensures cert_refused { ForCheck words.now (λ input output cert. result ≡ 3 → HasCertRefusal input output cert (D.outside desk.old) (D.outside desk.new)) }
    ensures cert_exact { ForCheck words.now (λ input output cert. CertifiesExactly input output cert result (D.outside desk.old) (D.outside desk.new)) }
    ensures cert_complete { ForCheck words.now (λ input output cert. IsCertComplete input output cert result (D.outside desk.old) (D.outside desk.new)) }
    ensures cert_files { ForCheck words.now (λ _ _ _. KeepsFiles (D.outside desk.old) (D.outside desk.new)) }

    // `prove`: with 0 the headline, and CERT proves OUT of IN; each other status has its cause.
    ensures prove_done { ForProve words.now (λ input output cert. result ≡ 0 → IsProveDone input output cert (D.outside desk.old) (D.outside desk.new)) }
    ensures prove_fault { ForProve words.now (λ input output cert. result ≡ 2 → HasProveFault input output cert (D.outside desk.old) (D.outside desk.new)) }
    ensures prove_refused { ForProve words.now (λ input _ _. result ≡ 3 → HasRefusal input (D.outside desk.old) (D.outside desk.new)) }
    ensures prove_exact { ForProve words.now (λ input _ _. RefusesExactly input result (D.outside desk.old) (D.outside desk.new)) }
    ensures prove_complete { ForProve words.now (λ input output cert. IsProveComplete input output cert result (D.outside desk.old) (D.outside desk.new)) }

    // `names`: with 0 the lines of the functions of IN were printed, 8 where CERT is at fault.
    ensures names_done { ForNames words.now (λ input cert. result ≡ 0 → IsNamesDone input cert (D.outside desk.old) (D.outside desk.new)) }
    ensures names_differs { ForNames words.now (λ input cert. result ≡ 8 → HasStepFault input cert (D.outside desk.old) (D.outside desk.new)) }
    ensures names_fault { ForNames words.now (λ input cert. result ≡ 2 → HasNamesFault input cert (D.outside desk.old) (D.outside desk.new)) }
    ensures names_refused { ForNames words.now (λ input cert. result ≡ 3 → HasNamesRefusal input cert (D.outside desk.old) (D.outside desk.new)) }
    ensures names_exact { ForNames words.now (λ input cert. NamesExactly input cert result (D.outside desk.old) (D.outside desk.new)) }
    ensures names_complete { ForNames words.now (λ input cert. IsNamesComplete input cert result (D.outside desk.old) (D.outside desk.new)) }
    ensures names_files { ForNames words.now (λ _ _. KeepsFiles (D.outside desk.old) (D.outside desk.new)) }

    // `fold`: with 0 the headline, and folding OUT again saves no word; each other status has its cause, as of `pack`.
    ensures fold_done { ForFold words.now (λ input output. result ≡ 0 → IsFoldDone input output (D.outside desk.old) (D.outside desk.new)) }
    ensures fold_fault { ForFold words.now (λ input output. result ≡ 2 → HasFault input output (D.outside desk.old) (D.outside desk.new)) }
    ensures fold_refused { ForFold words.now (λ input _. result ≡ 3 → HasRefusal input (D.outside desk.old) (D.outside desk.new)) }
    ensures fold_exact { ForFold words.now (λ input _. RefusesExactly input result (D.outside desk.old) (D.outside desk.new)) }
    ensures fold_complete { ForFold words.now (λ input output. IsComplete input output result (D.outside desk.old) (D.outside desk.new)) }

    // Words without a form, and statuses.
    ensures words { (result ≡ 1) ↔ (form_of words.now ≡ None) }
    ensures sound { ((place : Place) → (D.outside desk.new).faults place ≡ 0) → result ≢ 2 }
    ensures statuses { IsStatusOf (form_of words.now) result }

    // What is left outside, with every status.
    ensures files { StayOrHold words.now result (D.outside desk.old) (D.outside desk.new) }
    ensures printed { PrintsAsSaid words.now result (D.outside desk.old) (D.outside desk.new) }
    ensures ends { (ending : Ending) × (result ≡ status_of ending) × Ends words.now ending (D.outside desk.old) (D.outside desk.new) }
{
    let ending = run_and_complain(alloc, desk, words);
    ending.status()
}

/// Does the command of the words, and complains where it ends so.
fn run_and_complain<D: Desk>(alloc: Global, desk: &mut D, words: &WordList) -> Ending
    ensures { Ends words.now result (D.outside desk.old) (D.outside desk.new) }
{
    let ending = run(alloc, desk, words);
    complain(alloc, desk, &ending);
    ending
}

/// Does the command of the words. Where they have no form, the desk is as it was handed in.
fn run<D: Desk>(alloc: Global, desk: &mut D, words: &WordList) -> Ending
    ensures leaves { Leaves (form_of words.now) result (D.outside desk.old) (D.outside desk.new) }
    ensures complained { KeepsComplained (D.outside desk.old) (D.outside desk.new) }
    ensures faults { NoneFall (D.outside desk.old) (D.outside desk.new) }
    ensures unformed { form_of words.now ≡ None → desk.new ≡ desk.old }
{
    match command_of(words) {
        None => Ending::Words,
        Some(Command::Pack { input, output }) => pack_command::pack(alloc, desk, input, output),
        Some(Command::Run(asked)) => run_command::run(alloc, desk, words, &asked),
        Some(Command::Watch(asked)) => watch_command::watch(alloc, desk, words, &asked),
        Some(Command::Hex { input, output }) => hex_command::hex(alloc, desk, input, output),
        Some(Command::Hexcheck { input, text }) => {
            hexcheck_command::hexcheck(alloc, desk, input, text)
        }
        Some(Command::Size { input }) => size_command::size(alloc, desk, input),
        Some(Command::Trial(asked)) => trial_command::trial(alloc, desk, asked),
        Some(
            Command::Check {
                input,
                output,
                cert,
            },
        ) => check_command::check(alloc, desk, input, output, cert),
        Some(
            Command::Prove {
                input,
                output,
                cert,
            },
        ) => prove_command::prove(alloc, desk, input, output, cert),
        Some(Command::Names { input, cert }) => names_command::names(alloc, desk, input, cert),
        Some(Command::Fold { input, output }) => fold_command::fold(alloc, desk, input, output),
    }
}
