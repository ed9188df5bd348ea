//! Uses of names and numbers, each made one of another.

ghost use Rattle.std.specs.Prelude.{◌≡◌, ℕ, ◌+◌, ◌-◌, ◌<◌, ◌^◌, length, vec_capacity};
ghost use Rattle.std.specs.List.{All};
ghost use Rattle.sq_graph.specs.Uses.{item_uses, items_uses, term_uses, code_word_uses};
ghost use Rattle.sq_graph.specs.Renames.{retargeted_item, retargeted_items, retargeted_term, retargeted_word, retargeted_words, recalled_item, recalled_items, swapped, lowered};

use crate::item::{Item, Term};
use crate::parts::CodeRef;

/// Another name for each name that it knows.
pub(crate) trait Rename {
    ghost name_of: { Self → ℕ → ℕ };

    ghost Knows: { Self → ℕ → Type 0 };

    fn name(&self, name: u32) -> u32
        requires { Knows self.now name }
        ensures { result ≡ name_of self.now name };
}

/// One name in place of another.
#[derive(Drop)]
pub(crate) struct Swap {
    pub from: u32,
    pub to: u32,
}

impl Rename for Swap {
    ghost name_of = { λ s. swapped s.from s.to };

    ghost Knows = { λ _ _. Unit {0} };

    fn name(&self, name: u32) -> u32 {
        if name == self.from { self.to } else { name }
    }
}

/// The numbers above `gone`, each lower by one.
#[derive(Drop)]
pub(crate) struct Lower {
    pub gone: u32,
}

impl Rename for Lower {
    ghost name_of = { λ l. lowered l.gone };

    ghost Knows = { λ _ _. Unit {0} };

    fn name(&self, number: u32) -> u32 {
        if self.gone < number {
            number - 1
        } else {
            number
        }
    }
}

pub(crate) fn retarget_term<R: Rename>(term: Term, by: &R) -> Term
    requires { All (R.Knows by.now) (term_uses term) }
    ensures { result ≡ retargeted_term (R.name_of by.now) term }
{
    match term {
        Term::Jump { to } => Term::Jump { to: by.name(to) },
        Term::Branch { cond, a, b, to } => Term::Branch {
            cond,
            a,
            b,
            to: by.name(to),
        },
        Term::Call { link, to } => Term::Call {
            link,
            to: by.name(to),
        },
        Term::PartJump { link, part, to } => Term::PartJump {
            link,
            part,
            to: by.name(to),
        },
        Term::Fall | Term::Indirect { .. } | Term::Stop { .. } => term,
    }
}

fn retarget_item<R: Rename>(item: Item, by: &R) -> Item
    requires { All (R.Knows by.now) (item_uses item) }
    ensures { result ≡ retargeted_item (R.name_of by.now) item }
{
    match item {
        Item::Hi { rd, to } => Item::Hi {
            rd,
            to: by.name(to),
        },
        Item::Lo { rd, rs, to } => Item::Lo {
            rd,
            rs,
            to: by.name(to),
        },
        Item::Op(_) | Item::Out { .. } => item,
    }
}

pub(crate) fn retarget_items<R: Rename>(items: &mut Vec<Item>, by: &R)
    requires { All (R.Knows by.now) (items_uses items.old.items) }
    ensures items { items.new.items ≡ retargeted_items (R.name_of by.now) items.old.items }
    ensures capacity { vec_capacity items.new ≡ vec_capacity items.old }
{
    for item in items.iter_mut() {
        *item = retarget_item(*item, by);
    }
}

fn retarget_word<R: Rename>(word: CodeRef, by: &R) -> CodeRef
    requires { R.Knows by.now word.block }
    ensures { result ≡ retargeted_word (R.name_of by.now) word }
{
    CodeRef {
        at: word.at,
        block: by.name(word.block),
    }
}

pub(crate) fn retarget_words<R: Rename>(words: &mut Vec<CodeRef>, by: &R)
    requires { All (R.Knows by.now) (code_word_uses words.old.items) }
    ensures { words.new.items ≡ retargeted_words (R.name_of by.now) words.old.items }
{
    for word in words.iter_mut() {
        *word = retarget_word(*word, by);
    }
}

fn recall_item<R: Rename>(item: Item, by: &R) -> Item
    requires { (number : ℕ) → R.Knows by.now number }
    ensures { result ≡ recalled_item (R.name_of by.now) item }
{
    match item {
        Item::Out { procedure } => Item::Out {
            procedure: by.name(procedure),
        },
        Item::Op(_) | Item::Hi { .. } | Item::Lo { .. } => item,
    }
}

pub(crate) fn recall_items<R: Rename>(items: &mut Vec<Item>, by: &R)
    requires { (number : ℕ) → R.Knows by.now number }
    ensures items { items.new.items ≡ recalled_items (R.name_of by.now) items.old.items }
    ensures capacity { vec_capacity items.new ≡ vec_capacity items.old }
{
    for item in items.iter_mut() {
        *item = recall_item(*item, by);
    }
}
