//! Words cut into blocks, from the last word back.

ghost use Rattle.std.specs.Prelude.{◌&&◌, not, IfOk};
ghost use Rattle.law_program.specs.Lifted.{cut};
ghost use Rattle.sq_lift.specs.Flags.{is_flagged};
ghost use Rattle.sq_lift.specs.Cuts.{ShowsBlocks, kept_by, position_by};

use crate::cut::forms::{Form, form_of};
use crate::cut::names::{Kinds, Positions};
use crate::cut::procedures::Procedures;
use crate::{Text, TextWord, reading_of};
use sq_graph::{BlockPart, Item, Term};
use sq_num::Memory;
use std::alloc::Global;
use std::marker::Model;

/// The blocks so far, and what stands before them: each list has its last element first.
#[derive(Drop)]
struct Cut {
    items: Vec<Item>,
    blocks: Vec<BlockPart>,
    // How many of the items stand before the blocks, and the term behind them.
    count: u32,
    term: Term,
}

impl Model for Cut {
    ghost use Rattle.sq_lift.specs.Cuts.{Cut as Parts};

    ghost Value = { Parts };

    ghost view = { λ c. record { items = c.items.items; blocks = c.blocks.items; count = c.count; term = c.term } };
}

impl Cut {
    ghost use Rattle.std.specs.Prelude.{◌≡◌, ◌+◌, ◌<◌, ◌^◌, ◌&&◌, not, if◌then◌else◌, ℕ, OnOk};
    ghost use Rattle.sq_lift.specs.Flags.{is_flagged};
    ghost use Rattle.law_program.specs.Readings.{reading_of};
    ghost use Rattle.law_program.specs.Lifted.{Rest};
    ghost use Rattle.sq_lift.specs.Forms.{shaped};
    ghost use Rattle.sq_lift.specs.Cuts.{Shows, ShowsBlocks, kept_by, position_by, no_cut, form_cut, reading_cut, begun_cut};

    /// No words.
    fn new(alloc: Global) -> Cut
        ensures { result ≡ no_cut }
    {
        Cut {
            items: Vec::new(alloc),
            blocks: Vec::new(alloc),
            count: 0,
            term: Term::Fall,
        }
    }

    /// A term before what there is: nothing stands between it and the blocks.
    fn term(&mut self, positions: &Positions, term: Term)
        ensures { self.new ≡ form_cut (position_by positions.now) (shaped (Form.Term term)) self.old }
    {
        let kept = self.items.len().saturating_sub(self.count as usize);
        self.items.truncate(kept);
        self.count = 0;
        self.term = positions.term(term);
    }

    /// An item before what there is.
    fn item(&mut self, positions: &Positions, item: &Item) -> Result<(), Memory>
        requires { self.old.count + 1 < 2 ^ 32 }
        ensures { OnOk result (self.new ≡ form_cut (position_by positions.now) (shaped (Form.Item item.now)) self.old) }
    {
        positions.push(&mut self.items, item)?;
        self.count += 1;
        Ok(())
    }

    /// An item or a term before what there is.
    fn form(&mut self, positions: &Positions, form: &Form) -> Result<(), Memory>
        requires { self.old.count + 1 < 2 ^ 32 }
        ensures { OnOk result (self.new ≡ form_cut (position_by positions.now) (shaped form.now) self.old) }
    {
        match *form {
            Form::Item(item) => self.item(positions, &item),
            Form::Term(term) => {
                self.term(positions, term);
                Ok(())
            }
        }
    }

    /// A word before what there is.
    fn word(
        &mut self,
        text: &Text,
        procedures: &Procedures,
        positions: &Positions,
        at: u32,
        word: &TextWord,
    ) -> Result<(), Memory>
        requires { self.old.count + 1 < 2 ^ 32 }
        ensures { OnOk result (self.new ≡ reading_cut (position_by positions.now) procedures.now (reading_of text.now at word.now) self.old) }
    {
        match reading_of(text, at, word) {
            Some(reading) => self.form(positions, &form_of(procedures, reading)),
            None => Ok(()),
        }
    }

    /// A block begins here, where a leader does.
    fn begin_if(&mut self, leads: bool) -> Result<(), Memory>
        ensures { OnOk result (self.new ≡ begun_cut leads self.old) }
    {
        if leads {
            self.blocks.push(BlockPart {
                length: self.count,
                term: self.term,
            })?;
            self.count = 0;
            self.term = Term::Fall;
        }
        Ok(())
    }

    /// The word at an address before what there is, where it is one of a block.
    fn step(
        &mut self,
        text: &Text,
        kinds: &Kinds<'_>,
        procedures: &Procedures,
        positions: &Positions,
        at: u32,
        word: &TextWord,
    ) -> Result<(), Memory>
        requires { self.old.count + 1 < 2 ^ 32 }
        ensures { OnOk result (self.new ≡ (if kept_by kinds.now.reached.now kinds.now.inside.now at then begun_cut (is_flagged kinds.now.leaders.now at) (reading_cut (position_by positions.now) procedures.now (reading_of text.now at word.now) self.old) else self.old)) }
    {
        if !kinds.is_kept(at) {
            return Ok(());
        }
        self.word(text, procedures, positions, at, word)?;
        self.begin_if(kinds.leads(at))
    }

    /// The blocks in order, and their items.
    fn into_blocks(mut self) -> (Vec<Item>, Vec<BlockPart>)
        ensures { (f : ℕ → ℕ) (rest : Rest) → Shows f rest self → ShowsBlocks f rest.blocks result.0.items result.1.items }
    {
        let kept = self.items.len().saturating_sub(self.count as usize);
        self.items.truncate(kept);
        self.items.reverse();
        self.blocks.reverse();
        (self.items, self.blocks)
    }
}

/// The items and the blocks of a program: the items have positions for addresses.
pub(crate) fn cut_words(
    alloc: Global,
    text: &Text,
    kinds: &Kinds<'_>,
    procedures: &Procedures,
    positions: &Positions,
) -> Result<(Vec<Item>, Vec<BlockPart>), Memory>
    ensures { IfOk result (λ made. ShowsBlocks (position_by positions.now) (cut (kept_by kinds.now.reached.now kinds.now.inside.now) (is_flagged kinds.now.leaders.now) procedures.now text.now text.now.lo text.now.words).blocks made.0.items made.1.items) }
{
    let words = text.words();
    let lo = text.lo();
    let mut cut = Cut::new(alloc);
    for place in (0..words.len()).rev() {
        let at = lo + 4 * place as u32;
        cut.step(text, kinds, procedures, positions, at, &words[place])?;
    }
    Ok(cut.into_blocks())
}
