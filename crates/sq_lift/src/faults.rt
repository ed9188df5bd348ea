//! Faults of words of text.

ghost use Rattle.std.specs.Prelude.{◌≡◌, ◌%◌, ◌==◌, ◌&&◌, not, if◌then◌else◌, None};
ghost use Rattle.std.specs.List.{list_any};
ghost use Rattle.law_program.specs.Programs.{is_word, is_in_text};
ghost use Rattle.law_program.specs.Reached.{jump_target, half_target};
ghost use Rattle.law_program.specs.Notes.{is_plain};
ghost use Rattle.law_program.specs.Faults.{mark_refusal, is_astray, falls_off, is_auipc, is_access, is_lower_in_text, is_conflict, is_lone, fault_of, fault_from};
ghost use Rattle.sq_lift.specs.Flags.{is_flagged};
ghost use Rattle.sq_lift.specs.Refused.{insn_fault};

use crate::leads::{goes_on, half_target, jump_target};
use crate::text::{Text, TextWord};
use crate::word_set::WordSet;
use sq_decode::decode;
use sq_isa::Insn;
use sq_num::Refusal;
use sq_reloc::Mark;

/// The fault of a mark that has a relocation type.
fn mark_refusal(at: u32, mark: &Mark) -> Option<Refusal>
    ensures { result ≡ mark_refusal at mark.now }
{
    match *mark {
        Mark::Unsupported(kind) => Some(Refusal::UnsupportedReloc { address: at, kind }),
        Mark::Disagrees(kind) => Some(Refusal::RelocDisagrees { address: at, kind }),
        Mark::Plain | Mark::Hi(_) | Mark::Lo(_) | Mark::Conflict | Mark::Lone => None,
    }
}

/// Whether a branch or a `jal` leads to no word of text.
fn jumps_astray(text: &Text, at: u32, insn: &Insn) -> bool
    ensures { result ≡ list_any (λ x. not (is_word text.now x)) (jump_target at insn.now) }
{
    match jump_target(at, insn) {
        Some(target) => !text.has(target),
        None => false,
    }
}

/// Whether a half is that of an address in text that is no multiple of 4.
fn has_odd_half(text: &Text, mark: &Mark) -> bool
    ensures { result ≡ list_any (λ x. is_in_text text.now x && not (x % 4 == 0)) (half_target mark.now) }
{
    match half_target(mark) {
        Some(target) => text.contains(target) && target % 4 != 0,
        None => false,
    }
}

/// Whether text ends behind an instruction that goes on, or calls.
fn falls_off(text: &Text, at: u32, insn: &Insn) -> bool
    ensures { result ≡ falls_off text.now at insn.now }
{
    goes_on(insn) && u64::from(at) + 4 == text.end()
}

fn is_auipc(insn: &Insn) -> bool
    ensures { result ≡ is_auipc insn.now }
{
    matches!(*insn, Insn::Auipc { .. })
}

/// Whether the instruction is a load or a store.
fn is_access(insn: &Insn) -> bool
    ensures { result ≡ is_access insn.now }
{
    matches!(*insn, Insn::Load { .. } | Insn::Store { .. })
}

pub(crate) fn is_plain(mark: &Mark) -> bool
    ensures { result ≡ is_plain mark.now }
{
    matches!(*mark, Mark::Plain)
}

/// Whether the mark is the lower half of an address in text.
fn is_lower_in_text(text: &Text, mark: &Mark) -> bool
    ensures { result ≡ is_lower_in_text text.now mark.now }
{
    matches!(*mark, Mark::Lo(target) if text.contains(target))
}

fn is_conflict(mark: &Mark) -> bool
    ensures { result ≡ is_conflict mark.now }
{
    matches!(*mark, Mark::Conflict)
}

fn is_lone(mark: &Mark) -> bool
    ensures { result ≡ is_lone mark.now }
{
    matches!(*mark, Mark::Lone)
}

/// The fault of an instruction: of several the one of the least number.
fn insn_fault(text: &Text, at: u32, mark: &Mark, insn: &Insn) -> Option<Refusal>
    ensures { result ≡ insn_fault text.now at mark.now insn.now }
{
    if jumps_astray(text, at, insn) || has_odd_half(text, mark) {
        Some(Refusal::BadTarget { address: at })
    } else if falls_off(text, at, insn) {
        Some(Refusal::FallsOffText { address: at })
    } else if is_auipc(insn) && is_plain(mark) {
        Some(Refusal::UnrelocatedAuipc { address: at })
    } else if is_access(insn) && is_lower_in_text(text, mark) {
        Some(Refusal::ReadsText { address: at })
    } else if is_conflict(mark) {
        Some(Refusal::ConflictingReloc { address: at })
    } else if is_lone(mark) {
        Some(Refusal::LoneHalf { address: at })
    } else {
        None
    }
}

/// The fault of a word at an address: of several the one of the least number.
fn fault_of(text: &Text, at: u32, word: &TextWord) -> Option<Refusal>
    ensures { result ≡ fault_of text.now at word.now }
{
    if let Some(refusal) = mark_refusal(at, &word.mark) {
        return Some(refusal);
    }
    match decode(word.number) {
        Some(insn) => insn_fault(text, at, &word.mark, &insn),
        None => Some(Refusal::UnsupportedInstruction {
            address: at,
            word: word.number,
        }),
    }
}

/// The same of a word that is reached; any other has none.
fn reached_fault(text: &Text, reached: &WordSet, at: u32, word: &TextWord) -> Option<Refusal>
    ensures { result ≡ (if is_flagged reached.now at then fault_of text.now at word.now else None) }
{
    if reached.has(at) {
        fault_of(text, at, word)
    } else {
        None
    }
}

/// The fault of the first reached word that has one.
pub fn text_fault(text: &Text, reached: &WordSet) -> Option<Refusal>
    ensures { result ≡ fault_from (is_flagged reached.now) text.now text.now.lo text.now.words }
{
    let lo = text.lo();
    for (place, word) in text.words().iter().enumerate() {
        let fault = reached_fault(text, reached, lo + 4 * place as u32, word);
        if fault.is_some() {
            return fault;
        }
    }
    None
}
