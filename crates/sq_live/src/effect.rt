//! What code does to registers.

ghost use Rattle.std.specs.Prelude.{◌≡◌, ℕ, ◌<◌, ◌||◌, ◌&&◌, not, false, slice_get};
ghost use Rattle.sq_isa.specs.Registers.{is_member, is_among_but_x0};
ghost use Rattle.sq_isa.specs.Uses.{is_read, is_written};
ghost use Rattle.sq_graph.specs.Walks.{term_sources, term_link, is_register};
ghost use Rattle.sq_live.specs.Effects.{item_reads, item_writes, before_items, items_write};

use sq_graph::{Item, Term};
use sq_isa::{ImmOp, Insn, RegSet, reads, writes};

/// Which registers a piece of code reads before it writes them, and which it writes.
#[derive(Clone, Copy, Debug)]
pub(crate) struct Effect {
    pub reads: RegSet,
    pub writes: RegSet,
}

impl Effect {
    pub(crate) fn none() -> Effect
        ensures reads { (q : ℕ) → is_member result.reads q ≡ false }
        ensures writes { (q : ℕ) → is_member result.writes q ≡ false }
    {
        Effect {
            reads: RegSet::new(),
            writes: RegSet::new(),
        }
    }

    fn of(insn: &Insn) -> Effect
        ensures reads { (q : ℕ) → is_member result.reads q ≡ is_read insn.now q }
        ensures writes { (q : ℕ) → is_member result.writes q ≡ is_written insn.now q }
    {
        Effect {
            reads: reads(insn),
            writes: writes(insn),
        }
    }

    /// The registers that are live before the code, where these are live behind it.
    pub(crate) fn before(&self, behind: RegSet) -> RegSet
        ensures { (q : ℕ) → q < 32 → is_member result q ≡ (is_member self.now.reads q || (not (is_member self.now.writes q) && is_member behind q)) }
    {
        self.reads.union(behind.without(self.writes))
    }

    /// The effect of the code with more code behind it.
    pub(crate) fn then(&self, next: &Effect) -> Effect
        ensures reads { (q : ℕ) → q < 32 → is_member result.reads q ≡ (is_member self.now.reads q || (not (is_member self.now.writes q) && is_member next.now.reads q)) }
        ensures writes { (q : ℕ) → is_member result.writes q ≡ (is_member self.now.writes q || is_member next.now.writes q) }
    {
        Effect {
            reads: self.before(next.reads),
            writes: self.writes.union(next.writes),
        }
    }
}

/// The effect of an item, where the calls of procedures have these effects. A Hi does what `lui` does, and a Lo
/// what `addi` does.
pub(crate) fn item_effect(item: &Item, calls: &[Effect]) -> Effect
    ensures reads { (q : ℕ) → is_member result.reads q ≡ item_reads calls.now item.now q }
    ensures writes { (q : ℕ) → is_member result.writes q ≡ item_writes calls.now item.now q }
{
    match *item {
        Item::Op(insn) => Effect::of(&insn),
        Item::Hi { rd, .. } => Effect::of(&Insn::Lui { rd, upper: 0 }),
        Item::Lo { rd, rs, .. } => Effect::of(&Insn::OpImm {
            op: ImmOp::Addi,
            rd,
            rs,
            imm: 0,
        }),
        Item::Out { procedure } => match calls.get(procedure as usize) {
            Some(effect) => *effect,
            None => Effect::none(),
        },
    }
}

/// The effect of a term on its own: where it leads is no part of it.
pub(crate) fn term_effect(term: Term) -> Effect
    ensures reads { (q : ℕ) → is_member result.reads q ≡ is_among_but_x0 (term_sources term) q }
    ensures writes { (q : ℕ) → is_member result.writes q ≡ is_register (term_link term) q }
{
    let none = RegSet::new();
    match term {
        Term::Fall | Term::Jump { .. } | Term::Stop { .. } => Effect::none(),
        Term::Branch { a, b, .. } => Effect {
            reads: none.with(a).with(b),
            writes: none,
        },
        Term::Call { link, .. } => Effect {
            reads: none,
            writes: none.with(link),
        },
        Term::PartJump { link, part, .. } => Effect {
            reads: none.with(part),
            writes: none.with(link),
        },
        Term::Indirect { link, at, .. } => Effect {
            reads: none.with(at),
            writes: none.with(link),
        },
    }
}

/// The effect of items in order.
pub(crate) fn items_effect(items: &[Item], calls: &[Effect]) -> Effect
    ensures reads { (q : ℕ) → q < 32 → is_member result.reads q ≡ before_items calls.now items.now false q }
    ensures writes { (q : ℕ) → is_member result.writes q ≡ items_write calls.now items.now q }
{
    let mut effect = Effect::none();
    for item in items {
        effect = effect.then(&item_effect(item, calls));
    }
    effect
}
