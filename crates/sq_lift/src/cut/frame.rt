//! What a program's blocks are cut by.

ghost use Rattle.std.specs.Prelude.{◌≡◌, ◌<◌, ◌^◌, ◌&&◌, [], ℕ, length, IfOk};
ghost use Rattle.law_program.specs.Programs.{is_word};
ghost use Rattle.law_program.specs.Notes.{is_in_procedures};
ghost use Rattle.law_program.specs.Lifted.{is_leader};
ghost use Rattle.sq_lift.specs.Flags.{is_flagged};
ghost use Rattle.sq_lift.specs.Cuts.{kept_by, starts};

use crate::cut::leaders::{leaders_of, procedure_words};
use crate::cut::names::{Kinds, starts_of};
use crate::cut::procedures::Procedures;
use crate::{Text, WordSet};
use sq_num::Memory;
use sq_reloc::CodeWord;
use std::alloc::Global;

/// The words of procedures, the leaders, and the addresses at which blocks begin.
#[derive(Drop)]
pub(crate) struct Frame {
    pub inside: WordSet,
    pub leaders: WordSet,
    pub starts: Vec<u32>,
}

/// The frame of a program.
pub(crate) fn frame_of(
    alloc: Global,
    text: &Text,
    reached: &WordSet,
    procedures: &Procedures,
    entry: u32,
    code_words: &[CodeWord],
) -> Result<Frame, Memory>
    ensures inside { IfOk result (λ frame. (x : ℕ) → is_flagged frame.inside x ≡ (is_word text.now x && is_in_procedures procedures.now x)) }
    ensures leaders { IfOk result (λ frame. (x : ℕ) → is_flagged frame.leaders x ≡ (is_word text.now x && is_leader (is_flagged reached.now) procedures.now (record { text = text.now; entry = entry; code_words = code_words.now; notes = [] }) x)) }
    ensures starts { IfOk result (λ frame. frame.starts.items ≡ starts (kept_by reached.now frame.inside) (is_flagged frame.leaders) text.now.lo text.now.words) }
    ensures count { IfOk result (λ frame. length frame.starts.items < 2 ^ 32) }
{
    let inside = procedure_words(alloc, text, procedures)?;
    let leaders = leaders_of(alloc, text, reached, procedures, entry, code_words)?;
    let kinds = Kinds {
        reached,
        inside: &inside,
        leaders: &leaders,
    };
    let starts = starts_of(alloc, text, &kinds)?;
    Ok(Frame {
        inside,
        leaders,
        starts,
    })
}
