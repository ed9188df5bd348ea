//! The words at which blocks may begin, and those of procedures.

ghost use Rattle.std.specs.Prelude.{◌≡◌, ℕ, ◌+◌, ◌==◌, ◌&&◌, [], ◌∷◌, map, option_to_list, IfOk};
ghost use Rattle.sq_isa.specs.Registers.{is_among};
ghost use Rattle.law_program.specs.Programs.{is_word, target_of};
ghost use Rattle.law_program.specs.Readings.{reading_of};
ghost use Rattle.law_program.specs.Notes.{is_in_procedure, is_in_procedures};
ghost use Rattle.law_program.specs.Lifted.{form_leads, reading_leads, words_lead, is_leader};
ghost use Rattle.sq_lift.specs.Flags.{is_flagged};
ghost use Rattle.sq_lift.specs.Forms.{shaped};
ghost use Rattle.sq_lift.specs.Raised.{Raises};

use crate::cut::forms::{Form, form_of};
use crate::cut::procedures::Procedures;
use crate::{Note, Text, TextWord, WordSet, reading_of};
use sq_graph::Term;
use sq_num::Memory;
use sq_reloc::CodeWord;
use std::alloc::Global;

/// Adds the word at an address.
fn add(set: &mut WordSet, address: u32)
    ensures { Raises (λ x. address == x) set.old set.new }
{
    let _ = set.insert(address);
}

/// Adds the word at an address that is there.
fn add_some(set: &mut WordSet, address: Option<u32>)
    ensures { Raises (is_among (option_to_list address)) set.old set.new }
{
    match address {
        Some(address) => add(set, address),
        None => {}
    }
}

/// Adds the word behind an address.
fn add_next(set: &mut WordSet, at: u32)
    ensures { Raises (is_among ((at + 4) ∷ [])) set.old set.new }
{
    match set.next(at) {
        Some(next) => add(set, next),
        None => {}
    }
}

/// Adds the words that a term makes leaders.
fn add_term(set: &mut WordSet, at: u32, term: &Term)
    ensures { Raises (is_among (form_leads at (shaped (Form.Term term.now)))) set.old set.new }
{
    add_some(set, term.target());
    if term.goes_on() {
        add_next(set, at);
    }
}

/// Adds the words that an item or a term makes leaders.
fn add_form(set: &mut WordSet, at: u32, form: &Form)
    ensures { Raises (is_among (form_leads at (shaped form.now))) set.old set.new }
{
    match *form {
        Form::Item(item) => add_some(set, item.target()),
        Form::Term(term) => add_term(set, at, &term),
    }
}

/// Adds the words that a word makes leaders.
fn add_word(set: &mut WordSet, text: &Text, procedures: &Procedures, at: u32, word: &TextWord)
    ensures { Raises (is_among (reading_leads procedures.now at (reading_of text.now at word.now))) set.old set.new }
{
    match reading_of(text, at, word) {
        Some(reading) => add_form(set, at, &form_of(procedures, reading)),
        None => {}
    }
}

/// Adds the words that a word makes leaders, if it is reached.
fn add_reached(
    set: &mut WordSet,
    text: &Text,
    reached: &WordSet,
    procedures: &Procedures,
    at: u32,
    word: &TextWord,
)
    ensures { Raises (λ x. is_flagged reached.now at && is_among (reading_leads procedures.now at (reading_of text.now at word.now)) x) set.old set.new }
{
    if reached.has(at) {
        add_word(set, text, procedures, at, word);
    }
}

/// Adds the words that the reached words make leaders.
fn add_words(set: &mut WordSet, text: &Text, reached: &WordSet, procedures: &Procedures)
    ensures { Raises (words_lead (is_flagged reached.now) procedures.now text.now text.now.lo text.now.words) set.old set.new }
{
    let lo = text.lo();
    for (place, word) in text.words().iter().enumerate() {
        add_reached(set, text, reached, procedures, lo + 4 * place as u32, word);
    }
}

/// Adds the targets of code words.
fn add_targets(set: &mut WordSet, words: &[CodeWord])
    ensures { Raises (is_among (map target_of words.now)) set.old set.new }
{
    for word in words {
        add(set, word.to);
    }
}

/// The leaders.
pub(crate) fn leaders_of(
    alloc: Global,
    text: &Text,
    reached: &WordSet,
    procedures: &Procedures,
    entry: u32,
    code_words: &[CodeWord],
) -> Result<WordSet, Memory>
    ensures { IfOk result (λ leaders. (x : ℕ) → is_flagged leaders x ≡ (is_word text.now x && is_leader (is_flagged reached.now) procedures.now (record { text = text.now; entry = entry; code_words = code_words.now; notes = [] }) x)) }
{
    let mut leaders = WordSet::new(alloc, text)?;
    add(&mut leaders, entry);
    add_targets(&mut leaders, code_words);
    add_words(&mut leaders, text, reached, procedures);
    Ok(leaders)
}

/// Adds the words of a procedure.
fn add_procedure(set: &mut WordSet, note: &Note)
    ensures { Raises (is_in_procedure note.now) set.old set.new }
{
    let mut at = note.address;
    add(set, at);
    for _index in 0..note.length {
        match set.next(at) {
            Some(next) => at = next,
            None => return,
        }
        add(set, at);
    }
}

/// The words of procedures.
pub(crate) fn procedure_words(
    alloc: Global,
    text: &Text,
    procedures: &Procedures,
) -> Result<WordSet, Memory>
    ensures { IfOk result (λ set. (x : ℕ) → is_flagged set x ≡ (is_word text.now x && is_in_procedures procedures.now x)) }
{
    let mut set = WordSet::new(alloc, text)?;
    for note in procedures.notes() {
        add_procedure(&mut set, note);
    }
    Ok(set)
}
