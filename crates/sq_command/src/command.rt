//! The forms of a command line.

ghost use Rattle.std.specs.Prelude.{◌≡◌, ◌↔◌, ℕ, List, drop};
ghost use Rattle.std.specs.Option.{option_map};
ghost use Rattle.sq_command.specs.Commands.{Form, PackForm, RunForm, WatchForm, HexForm, HexcheckForm, SizeForm, TrialForm, CheckForm, ProveForm, NamesForm, FoldForm, RunRequest, form, form_of, pair_form, single_form, triple_form, prove_form, trial_of, trial_form, trial_asked, run_request, run_of, request_of, IsPack, IsRun, IsWatch, IsHex, IsHexcheck, IsSize, IsTrial, IsCheck, IsProve, IsNames, IsFold};

use crate::number::number_of;
use crate::run_words::RunWords;
use crate::trial_words::TrialWords;
use sq_num::WordList;
use sq_system::start_fits;

/// What the words ask for.
#[derive(Clone, Copy, Debug)]
pub enum Command<'w> {
    /// `pack IN OUT`
    Pack {
        input: &'w str,
        output: &'w str,
    },
    /// `run FILE INPUT LIMIT BASE SIZE ARG*`
    Run(RunWords<'w>),
    /// `watch FILE INPUT LIMIT BASE SIZE ARG*`
    Watch(RunWords<'w>),
    /// `hex IN OUT`
    Hex {
        input: &'w str,
        output: &'w str,
    },
    /// `hexcheck IN HEX`
    Hexcheck {
        input: &'w str,
        text: &'w str,
    },
    /// `size IN`
    Size {
        input: &'w str,
    },
    /// `trial FIRST BLOCKS`
    Trial(TrialWords),
    /// `check IN OUT CERT`
    Check {
        input: &'w str,
        output: &'w str,
        cert: &'w str,
    },
    /// `prove IN OUT CERT`
    Prove {
        input: &'w str,
        output: &'w str,
        cert: &'w str,
    },
    /// `names IN CERT`
    Names {
        input: &'w str,
        cert: &'w str,
    },
    /// `fold IN OUT`
    Fold {
        input: &'w str,
        output: &'w str,
    },
}

/// The most steps that a run is allowed.
const MOST_STEPS: u32 = 10_000_000;

/// The most blocks of a generated file.
const MOST_BLOCKS: u32 = 4_000;

/// `pack` with the words behind it.
fn pack_words(words: &WordList) -> Option<Command<'_>>
    ensures { option_map (form words.now) result ≡ pair_form PackForm (drop 1 words.now) }
{
    if words.len() != 3 {
        return None;
    }
    let input = words.get(1)?;
    let output = words.get(2)?;
    Some(Command::Pack { input, output })
}

/// `hex` with the words behind it.
fn hex_words(words: &WordList) -> Option<Command<'_>>
    ensures { option_map (form words.now) result ≡ pair_form HexForm (drop 1 words.now) }
{
    if words.len() != 3 {
        return None;
    }
    let input = words.get(1)?;
    let output = words.get(2)?;
    Some(Command::Hex { input, output })
}

/// `hexcheck` with the words behind it.
fn hexcheck_words(words: &WordList) -> Option<Command<'_>>
    ensures { option_map (form words.now) result ≡ pair_form HexcheckForm (drop 1 words.now) }
{
    if words.len() != 3 {
        return None;
    }
    let input = words.get(1)?;
    let text = words.get(2)?;
    Some(Command::Hexcheck { input, text })
}

/// `size` with the word behind it.
fn size_words(words: &WordList) -> Option<Command<'_>>
    ensures { option_map (form words.now) result ≡ single_form SizeForm (drop 1 words.now) }
{
    if words.len() != 2 {
        return None;
    }
    let input = words.get(1)?;
    Some(Command::Size { input })
}

/// A trial of these numbers, where the words have them and the second is in its range.
fn trial_of(first: Option<u32>, blocks: Option<u32>) -> Option<TrialWords>
    ensures { option_map trial_asked result ≡ trial_of first blocks }
{
    let first = first?;
    let blocks = blocks?;
    if 1 <= blocks && blocks <= MOST_BLOCKS {
        Some(TrialWords { first, blocks })
    } else {
        None
    }
}

/// `trial` with the words behind it.
fn trial_words(words: &WordList) -> Option<Command<'_>>
    ensures { option_map (form words.now) result ≡ trial_form (drop 1 words.now) }
{
    if words.len() != 3 {
        return None;
    }
    let first = words.get(1)?;
    let blocks = words.get(2)?;
    Some(Command::Trial(trial_of(number_of(first), number_of(blocks))?))
}

/// `check` with the words behind it.
fn check_words(words: &WordList) -> Option<Command<'_>>
    ensures { option_map (form words.now) result ≡ triple_form CheckForm (drop 1 words.now) }
{
    if words.len() != 4 {
        return None;
    }
    let input = words.get(1)?;
    let output = words.get(2)?;
    let cert = words.get(3)?;
    Some(Command::Check {
        input,
        output,
        cert,
    })
}

/// `prove` with the words behind it. OUT and CERT are different names.
fn prove_words(words: &WordList) -> Option<Command<'_>>
    ensures { option_map (form words.now) result ≡ prove_form (drop 1 words.now) }
{
    if words.len() != 4 {
        return None;
    }
    let input = words.get(1)?;
    let output = words.get(2)?;
    let cert = words.get(3)?;
    if output == cert {
        return None;
    }
    Some(Command::Prove {
        input,
        output,
        cert,
    })
}

/// `names` with the words behind it.
fn names_words(words: &WordList) -> Option<Command<'_>>
    ensures { option_map (form words.now) result ≡ pair_form NamesForm (drop 1 words.now) }
{
    if words.len() != 3 {
        return None;
    }
    let input = words.get(1)?;
    let cert = words.get(2)?;
    Some(Command::Names { input, cert })
}

/// `fold` with the words behind it.
fn fold_words(words: &WordList) -> Option<Command<'_>>
    ensures { option_map (form words.now) result ≡ pair_form FoldForm (drop 1 words.now) }
{
    if words.len() != 3 {
        return None;
    }
    let input = words.get(1)?;
    let output = words.get(2)?;
    Some(Command::Fold { input, output })
}

/// A run with these numbers, where the words have them and they are in their ranges.
fn run_of<'w>(
    file: &'w str,
    input: &'w str,
    limit: Option<u32>,
    base: Option<u32>,
    size: Option<u32>,
) -> Option<RunWords<'w>>
    ensures { (words : List (List ℕ)) → option_map (request_of words) result ≡ run_of file.now input.now limit base size (drop 6 words) }
{
    let limit = limit?;
    let base = base?;
    let size = size?;
    if limit <= MOST_STEPS && start_fits(base, size) {
        Some(RunWords {
            file,
            input,
            limit,
            base,
            size,
        })
    } else {
        None
    }
}

/// The words behind `run` or `watch`.
fn run_words(words: &WordList) -> Option<RunWords<'_>>
    ensures { option_map (request_of words.now) result ≡ run_request (drop 1 words.now) }
{
    let file = words.get(1)?;
    let input = words.get(2)?;
    let limit = words.get(3)?;
    let base = words.get(4)?;
    let size = words.get(5)?;
    run_of(
        file,
        input,
        number_of(limit),
        number_of(base),
        number_of(size),
    )
}

/// `run` with the words behind it.
fn run_command(words: &WordList) -> Option<Command<'_>>
    ensures { option_map (form words.now) result ≡ option_map RunForm (run_request (drop 1 words.now)) }
{
    Some(Command::Run(run_words(words)?))
}

/// `watch` with the words behind it.
fn watch_command(words: &WordList) -> Option<Command<'_>>
    ensures { option_map (form words.now) result ≡ option_map WatchForm (run_request (drop 1 words.now)) }
{
    Some(Command::Watch(run_words(words)?))
}

/// The command that the first word names.
fn named_command(words: &WordList) -> Option<Command<'_>>
    ensures { option_map (form words.now) result ≡ form_of words.now }
{
    let verb = words.get(0)?;
    if verb == "pack" {
        pack_words(words)
    } else if verb == "run" {
        run_command(words)
    } else if verb == "watch" {
        watch_command(words)
    } else if verb == "hex" {
        hex_words(words)
    } else if verb == "hexcheck" {
        hexcheck_words(words)
    } else if verb == "size" {
        size_words(words)
    } else if verb == "trial" {
        trial_words(words)
    } else if verb == "check" {
        check_words(words)
    } else if verb == "prove" {
        prove_words(words)
    } else if verb == "names" {
        names_words(words)
    } else if verb == "fold" {
        fold_words(words)
    } else {
        None
    }
}

/// The command of the words, or None where they have no form. It takes no memory.
pub fn command_of(words: &WordList) -> Option<Command<'_>>
    ensures value { option_map (form words.now) result ≡ form_of words.now }
    ensures pack { (input output : List ℕ) → (form_of words.now ≡ Some (PackForm input output)) ↔ IsPack words.now input output }
    ensures run { (request : RunRequest) → (form_of words.now ≡ Some (RunForm request)) ↔ IsRun words.now request }
    ensures watch { (request : RunRequest) → (form_of words.now ≡ Some (WatchForm request)) ↔ IsWatch words.now request }
    ensures hex { (input output : List ℕ) → (form_of words.now ≡ Some (HexForm input output)) ↔ IsHex words.now input output }
    ensures hexcheck { (input text : List ℕ) → (form_of words.now ≡ Some (HexcheckForm input text)) ↔ IsHexcheck words.now input text }
    ensures size { (input : List ℕ) → (form_of words.now ≡ Some (SizeForm input)) ↔ IsSize words.now input }
    ensures trial { (first blocks : ℕ) → (form_of words.now ≡ Some (TrialForm first blocks)) ↔ IsTrial words.now first blocks }
    ensures check { (input output cert : List ℕ) → (form_of words.now ≡ Some (CheckForm input output cert)) ↔ IsCheck words.now input output cert }
    ensures prove { (input output cert : List ℕ) → (form_of words.now ≡ Some (ProveForm input output cert)) ↔ IsProve words.now input output cert }
    ensures names { (input cert : List ℕ) → (form_of words.now ≡ Some (NamesForm input cert)) ↔ IsNames words.now input cert }
    ensures fold { (input output : List ℕ) → (form_of words.now ≡ Some (FoldForm input output)) ↔ IsFold words.now input output }
{
    named_command(words)
}
