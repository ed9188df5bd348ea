//! The relocation entries of the output.

ghost use Rattle.std.specs.Prelude.{◌≡◌, ◌+◌, ◌*◌, ◌≤◌, ◌^◌, ◌++◌, ◌∷◌, [], map, filter, nat_lt, nat_le, IfOk, OnOk};
ghost use Rattle.sq_graph.specs.Rules.{IsGraph};
ghost use Rattle.sq_graph.specs.Words.{words_of};
ghost use Rattle.sq_write.specs.Output.{words, relocation_table};
ghost use Rattle.sq_write.specs.Points.{point_word, text_points};
ghost use Rattle.sq_write.specs.Written.{word_entry, entries_of};
ghost use Rattle.sq_write.specs.Standing.{IsPlaced, TextStands};

use crate::fields::push_words;
use crate::placed::Placed;
use crate::text::push_text;
use crate::text_bytes::TextBytes;
use sq_graph::CodeRef;
use sq_num::Memory;
use std::alloc::Global;

/// R_RISCV_32
const WORD: u32 = 1;

/// Appends the entry of a code word: the new address of its block.
fn push_word_entry(entries: &mut Vec<u8>, placed: &Placed<'_>, word: CodeRef) -> Result<(), Memory>
    requires { IsPlaced placed.now }
    ensures { OnOk result (entries.new.items ≡ entries.old.items ++ relocation_table (word_entry placed.now.g.now.graph placed.now.lo word ∷ [])) }
{
    push_words(entries, &[word.at, WORD, placed.address(word.block)])
}

/// Appends the entries of the code words before text.
fn push_entries_before(entries: &mut Vec<u8>, placed: &Placed<'_>) -> Result<(), Memory>
    requires { IsPlaced placed.now }
    ensures { OnOk result (entries.new.items ≡ entries.old.items ++ relocation_table (map (word_entry placed.now.g.now.graph placed.now.lo) (filter (λ word. nat_lt word.at placed.now.lo) placed.now.g.now.graph.code_words))) }
{
    for word in placed.g.code_words() {
        if word.at < placed.lo {
            push_word_entry(entries, placed, *word)?;
        }
    }
    Ok(())
}

/// Appends the entries of the other code words.
fn push_entries_behind(entries: &mut Vec<u8>, placed: &Placed<'_>) -> Result<(), Memory>
    requires { IsPlaced placed.now }
    ensures { OnOk result (entries.new.items ≡ entries.old.items ++ relocation_table (map (word_entry placed.now.g.now.graph placed.now.lo) (filter (λ word. nat_le placed.now.lo word.at) placed.now.g.now.graph.code_words))) }
{
    for word in placed.g.code_words() {
        if placed.lo <= word.at {
            push_word_entry(entries, placed, *word)?;
        }
    }
    Ok(())
}

/// The text, and all relocation entries by ascending offset.
pub(crate) fn text_and_entries(alloc: Global, placed: &Placed<'_>) -> Result<TextBytes, Memory>
    requires placed { IsPlaced placed.now }
    requires rules { IsGraph placed.now.g.now.graph }
    requires fits { placed.now.lo + 4 * words_of placed.now.g.now.graph ≤ 2 ^ 32 }
    requires stands { TextStands placed.now.g.now.graph placed.now.lo }
    ensures text { IfOk result (λ out. out.text.items ≡ words (map point_word (text_points placed.now.g.now.graph placed.now.lo))) }
    ensures entries { IfOk result (λ out. out.entries.items ≡ relocation_table (entries_of placed.now.g.now.graph placed.now.lo)) }
{
    let mut out = TextBytes {
        text: Vec::new(alloc),
        entries: Vec::new(alloc),
    };
    push_entries_before(&mut out.entries, placed)?;
    push_text(&mut out, placed)?;
    push_entries_behind(&mut out.entries, placed)?;
    Ok(out)
}
