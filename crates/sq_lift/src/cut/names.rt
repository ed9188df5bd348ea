//! Blocks by their positions.

ghost use Rattle.std.specs.Prelude.{◌≡◌, ◌<◌, ◌^◌, ◌++◌, ◌∷◌, [], ◌&&◌, not, if◌then◌else◌, IfOk, OnOk, length};
ghost use Rattle.sq_lift.specs.Flags.{is_flagged};
ghost use Rattle.sq_lift.specs.Cuts.{kept_by, starts};

use crate::{Text, WordSet};
use sq_graph::{Item, Term};
use sq_num::Memory;
use std::alloc::Global;
use std::collections::HashMap;
use std::marker::Model;

/// The words that are reached, those of procedures, and the leaders.
#[derive(Clone, Copy)]
pub(crate) struct Kinds<'w> {
    pub reached: &'w WordSet,
    pub inside: &'w WordSet,
    pub leaders: &'w WordSet,
}

impl Kinds<'_> {
    /// Whether the word at an address is one of a block: it is reached and stands in no procedure.
    pub(crate) fn is_kept(&self, at: u32) -> bool
        ensures { result ≡ kept_by self.now.reached.now self.now.inside.now at }
    {
        self.reached.has(at) && !self.inside.has(at)
    }

    /// Whether a block that the word at an address is one of begins there.
    pub(crate) fn leads(&self, at: u32) -> bool
        ensures { result ≡ is_flagged self.now.leaders.now at }
    {
        self.leaders.has(at)
    }
}

/// Appends the address if a block begins there.
fn push_start(list: &mut Vec<u32>, kinds: &Kinds<'_>, at: u32) -> Result<(), Memory>
    ensures { OnOk result (list.new.items ≡ list.old.items ++ (if kept_by kinds.now.reached.now kinds.now.inside.now at && is_flagged kinds.now.leaders.now at then at ∷ [] else [])) }
{
    if kinds.is_kept(at) && kinds.leads(at) {
        list.push(at)?;
    }
    Ok(())
}

/// The addresses at which blocks begin.
pub(crate) fn starts_of(alloc: Global, text: &Text, kinds: &Kinds<'_>) -> Result<Vec<u32>, Memory>
    ensures starts { IfOk result (λ list. list.items ≡ starts (kept_by kinds.now.reached.now kinds.now.inside.now) (is_flagged kinds.now.leaders.now) text.now.lo text.now.words) }
    ensures count { IfOk result (λ list. length list.items < 2 ^ 32) }
{
    let lo = text.lo();
    let mut list = Vec::new(alloc);
    for place in 0..text.words().len() {
        push_start(&mut list, kinds, lo + 4 * place as u32)?;
    }
    Ok(list)
}

/// The position of the block that begins at each address.
#[derive(Drop)]
pub(crate) struct Positions {
    numbers: HashMap<u32, u32>,
}

impl Model for Positions {
    ghost use Rattle.std.specs.Prelude.{ℕ, List};

    ghost Value = { List (ℕ × ℕ) };

    ghost view = { λ p. p.numbers.entries };
}

impl Positions {
    ghost use Rattle.std.specs.Prelude.{◌≡◌, ◌<◌, ◌^◌, ◌++◌, ◌∷◌, [], ℕ, IfOk, OnOk, length, nat_eq};
    ghost use Rattle.std.specs.Map.{lookup};
    ghost use Rattle.sq_graph.specs.Renames.{retargeted_item, retargeted_term};
    ghost use Rattle.sq_graph.specs.Slotted.{number_in};
    ghost use Rattle.sq_lift.specs.Cuts.{position_by};

    /// The positions of blocks that begin at these addresses. Of equal ones the first would count.
    pub(crate) fn new(alloc: Global, starts: &[u32]) -> Result<Positions, Memory>
        requires { length starts.now < 2 ^ 32 }
        ensures { IfOk result (λ positions. (x : ℕ) → lookup (nat_eq x) positions ≡ number_in starts.now 0 x) }
    {
        let mut numbers = HashMap::new(alloc);
        for k in (0..starts.len()).rev() {
            numbers.insert(starts[k], k as u32)?;
        }
        Ok(Positions { numbers })
    }

    /// The position of the block that begins at an address.
    pub(crate) fn get(&self, address: u32) -> Option<u32>
        ensures { result ≡ lookup (nat_eq address) self.now }
    {
        self.numbers.get(&address).copied()
    }

    /// The position of the block that begins at an address, and 0 where none does.
    pub(crate) fn of(&self, address: u32) -> u32
        ensures { result ≡ position_by self.now address }
    {
        self.get(address).unwrap_or(0)
    }

    /// Appends the item with positions for addresses.
    pub(crate) fn push(&self, items: &mut Vec<Item>, item: &Item) -> Result<(), Memory>
        ensures { OnOk result (items.new.items ≡ items.old.items ++ retargeted_item (position_by self.now) item.now ∷ []) }
    {
        let renamed = match *item {
            Item::Hi { rd, to } => Item::Hi {
                rd,
                to: self.of(to),
            },
            Item::Lo { rd, rs, to } => Item::Lo {
                rd,
                rs,
                to: self.of(to),
            },
            Item::Op(insn) => Item::Op(insn),
            Item::Out { procedure } => Item::Out { procedure },
        };
        items.push(renamed)?;
        Ok(())
    }

    /// The term with positions for addresses.
    pub(crate) fn term(&self, term: Term) -> Term
        ensures { result ≡ retargeted_term (position_by self.now) term }
    {
        match term {
            Term::Jump { to } => Term::Jump { to: self.of(to) },
            Term::Branch { cond, a, b, to } => Term::Branch {
                cond,
                a,
                b,
                to: self.of(to),
            },
            Term::Call { link, to } => Term::Call {
                link,
                to: self.of(to),
            },
            Term::PartJump { link, part, to } => Term::PartJump {
                link,
                part,
                to: self.of(to),
            },
            Term::Fall | Term::Indirect { .. } | Term::Stop { .. } => term,
        }
    }
}
