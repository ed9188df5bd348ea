//! Runs of graphs that agree: what every proof that one graph follows another rests on.
//!
//! To the layers above it promises that two runs of one graph which agree on memory and on the registers
//! that are live go on to agree: what is dead may differ, and what the first run has lost may be anything; and
//! that the operations of which rewrites are made keep runs, and sound graphs sound: splits, shorter terms, blocks
//! and procedures that go, equal ends and matching bodies that become one, items that become calls and calls that become items, other
//! names, other orders, and the canonical form. It says how many words they save, and at which places registers that
//! are dead stay dead.
#![tactic(auto)]

mod liveness;

ghost use Rattle.law_patch.specs.LiveAgreement.{StepsAgree, PlacesMakeTargets};
ghost use Rattle.law_patch.specs.Restrictions.{UnreachedFollows, UnreachedIsSound, ReachedAreClosed};
ghost use Rattle.law_patch.specs.LoneJumps.{DetourFollows, DetourIsSound, InvertFollows, InvertIsSound, ExchangeFollows, ExchangeIsSound};
ghost use Rattle.law_patch.specs.Operations.{SplitFollows, SplitIsSound, FallFollows, FallIsSound, DropFollows, DropIsSound, HastenFollows, HastenIsSound, InlineFollows, InlineIsSound, CanonicalFollows, CanonicalIsSound, RenameFollows, RenameKeepsStep, OutlineFollows, OutlineIsSound, ShortenFollows, ShortenIsSound};
ghost use Rattle.law_patch.specs.Calls.{CallFollows, CallIsSound, MatchFollows, MatchIsSound};
ghost use Rattle.law_patch.specs.Merges.{MergeFollows, MergeIsSound, TailFollows, TailIsSound};
ghost use Rattle.law_patch.specs.Bodies.{BodyFollows, BodyIsSound};
ghost use Rattle.law_patch.specs.Recalls.{RecallFollows, RecallIsSound, UncalledGoesFollows, UncalledGoesIsSound};
ghost use Rattle.law_patch.specs.Savings.{SaveWords};
ghost use Rattle.law_patch.specs.Inserts.{InsertFollows, InsertIsSound, ReorderFollows, ReorderIsSound};

pub use liveness::operations_keep_dead;

/// From states that agree on what is live, a graph steps to such states again, with the same event or to the
/// same end.
pub fn live_steps_agree()
    ensures { StepsAgree }
{}

/// What stands from a place of a graph on makes addresses of code targets alone, as such states ask.
pub fn places_make_targets()
    ensures { PlacesMakeTargets }
{}

/// A graph in which a block is split in two follows it.
pub fn split_keeps_runs()
    ensures { SplitFollows }
{}

/// A graph in which a Jump to the next slot became Fall follows it.
pub fn fall_keeps_runs()
    ensures { FallFollows }
{}

/// A graph without an upper half whose register is dead behind it follows it.
pub fn drop_keeps_runs()
    ensures { DropFollows }
{}

/// A graph in which a jump by an upper half became a Call, or a Jump where its link is x0, follows it.
pub fn hasten_keeps_runs()
    ensures { HastenFollows }
{}

/// A graph in which the body of a procedure stands in place of a call of it follows it.
pub fn inline_keeps_runs()
    ensures { InlineFollows }
{}

/// The canonical graph of a graph follows it: without the blocks that are empty with Fall, and with each block
/// that is fallen into and is no leader joined to the one before.
pub fn canonical_keeps_runs()
    ensures { CanonicalFollows }
{}

/// The canonical graph of a graph is sound where the graph is.
pub fn canonical_keeps_soundness()
    ensures { CanonicalIsSound }
{}

/// A graph whose blocks have other names, different ones different names, follows it, and keeps step with it.
pub fn rename_keeps_runs()
    ensures follows { RenameFollows }
    ensures step { RenameKeepsStep }
{}

/// A graph with items of one of its blocks as the body of one more procedure follows it.
pub fn outline_keeps_runs()
    ensures { OutlineFollows }
{}

/// A graph in which a jump by an upper half became a Call or a Jump, and the upper half went, follows it, where its
/// register is the link or dead at the target.
pub fn shorten_keeps_runs()
    ensures { ShortenFollows }
{}

/// A graph in which a jump by an upper half became a shorter one without it is sound where the graph is.
pub fn shorten_keeps_soundness()
    ensures { ShortenIsSound }
{}

/// A graph with the blocks of a closed set alone, and the procedures that these call, follows it.
pub fn unreached_keeps_runs()
    ensures { UnreachedFollows }
{}

/// A graph with the blocks of a closed set alone is sound where the graph is.
pub fn unreached_keeps_soundness()
    ensures { UnreachedIsSound }
{}

/// The blocks that are reached are a closed set.
pub fn reached_are_closed()
    ensures { ReachedAreClosed }
{}

/// A graph in which a lone Jump block, into which nothing goes on, gave its name to its target and went follows it.
pub fn detour_keeps_runs()
    ensures { DetourFollows }
{}

/// A graph in which a lone Jump block gave its name to its target and went is sound where the graph is.
pub fn detour_keeps_soundness()
    ensures { DetourIsSound }
{}

/// A graph in which a Branch over a lone Jump became the inverted one, to the Jump's target, follows it.
pub fn invert_keeps_runs()
    ensures { InvertFollows }
{}

/// A graph in which a Branch over a lone Jump became the inverted one is sound where the graph is.
pub fn invert_keeps_soundness()
    ensures { InvertIsSound }
{}

/// A graph in which a Branch and the lone Jump behind it exchanged their targets, the Branch inverted, follows it.
pub fn exchange_keeps_runs()
    ensures { ExchangeFollows }
{}

/// A graph in which a Branch and the lone Jump behind it exchanged their targets is sound where the graph is.
pub fn exchange_keeps_soundness()
    ensures { ExchangeIsSound }
{}

/// A graph with a call in place of the items of a procedure's body, whose link is dead behind them, follows it.
pub fn call_keeps_runs()
    ensures { CallFollows }
{}

/// A graph with a call in place of the items of a procedure's body is sound where the graph is.
pub fn call_keeps_soundness()
    ensures { CallIsSound }
{}

/// A graph in which a block is split in two is sound where the graph is.
pub fn split_keeps_soundness()
    ensures { SplitIsSound }
{}

/// A graph in which a Jump to the next slot became Fall is sound where the graph is.
pub fn fall_keeps_soundness()
    ensures { FallIsSound }
{}

/// A graph without an upper half whose register is dead behind it is sound where the graph is.
pub fn drop_keeps_soundness()
    ensures { DropIsSound }
{}

/// A graph in which a jump by an upper half became a Call or a Jump is sound where the graph is.
pub fn hasten_keeps_soundness()
    ensures { HastenIsSound }
{}

/// A graph in which the body of a procedure stands in place of a call of it is sound where the graph is.
pub fn inline_keeps_soundness()
    ensures { InlineIsSound }
{}

/// A graph in which the end of a block became a Jump to another block, which is equal to that end, follows it.
pub fn merge_keeps_runs()
    ensures { MergeFollows }
{}

/// A graph in which the end of a block became a Jump to an equal block is sound where the graph is.
pub fn merge_keeps_soundness()
    ensures { MergeIsSound }
{}

/// A graph in which equal tails of two blocks became one follows it: the one is split, and the other jumps there.
pub fn tail_keeps_runs()
    ensures { TailFollows }
{}

/// A graph in which equal tails of two blocks became one is sound where the graph is.
pub fn tail_keeps_soundness()
    ensures { TailIsSound }
{}

/// A graph in which a block became a Jump to another, which its whole body matches, follows it, where the pairs of two
/// registers are dead behind the body and the two resolved terms are equal.
pub fn body_keeps_runs()
    ensures { BodyFollows }
{}

/// A graph in which a block became a Jump to another, which its whole body matches, is sound where the graph is.
pub fn body_keeps_soundness()
    ensures { BodyIsSound }
{}

/// A graph in which a procedure is called in place of an equal one follows it.
pub fn recall_keeps_runs()
    ensures { RecallFollows }
{}

/// A graph in which a procedure is called in place of an equal one is sound where the graph is.
pub fn recall_keeps_soundness()
    ensures { RecallIsSound }
{}

/// A graph without a procedure that nothing calls follows it.
pub fn uncalled_goes_keeps_runs()
    ensures { UncalledGoesFollows }
{}

/// A graph without a procedure that nothing calls is sound where the graph is.
pub fn uncalled_goes_keeps_soundness()
    ensures { UncalledGoesIsSound }
{}

/// A graph with a lone Jump to the next slot behind a block follows it.
pub fn insert_keeps_runs()
    ensures { InsertFollows }
{}

/// A graph with a lone Jump to the next slot behind a block is sound where the graph is.
pub fn insert_keeps_soundness()
    ensures { InsertIsSound }
{}

/// A graph with its blocks in an order in which each that goes on keeps its next slot follows it.
pub fn reorder_keeps_runs()
    ensures { ReorderFollows }
{}

/// A graph with its blocks in such an order is sound where the graph is.
pub fn reorder_keeps_soundness()
    ensures { ReorderIsSound }
{}

/// A graph with a call in place of items that match a procedure's body follows it, where the procedure's link and the
/// pairs of two registers are dead behind them.
pub fn match_keeps_runs()
    ensures { MatchFollows }
{}

/// A graph with a call in place of items that match a procedure's body is sound where the graph is.
pub fn match_keeps_soundness()
    ensures { MatchIsSound }
{}

/// A graph with a body of its own items as one more procedure is sound where the graph and the body are.
pub fn outline_keeps_soundness()
    ensures { OutlineIsSound }
{}

/// How many words each of these operations saves.
pub fn operations_save_words()
    ensures { SaveWords }
{}
