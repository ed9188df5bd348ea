// The theory of runs: what is seen of the steps of a deterministic machine, and when one run follows another.
// A step goes on with at most one event, ends, or breaks. Induction over runs is done here, once.
// Promised to the layers above: a trace is settled once it is over, and splits at each moment; following is
// reflexive and transitive; a simulation in which each side may skip silent steps gives following, one in
// lock step gives equal traces; and what is known of a watch, two graphs and two files gives the same runs.
#![tactic(auto)]

ghost use Rattle.law_runs.specs.Runs.{Next};
ghost use Rattle.law_runs.specs.Laws.{Stay, Prefix, Split, StateSplit, StepGoesOn, StepEnds, StepBreaks, UnbrokenBefore, UnbrokenAtHalt, NoBreak, FirstBreak, NeverBreaks, FollowsItself, FollowsThrough, LockFollows, Assemble};

pub mod countdowns;
pub mod simulation;

/// After an end or a break a trace stays the same, and each moment leads to the later ones.
pub fn stay<E, H, B, S>()
    ensures stays { (step : S → Next E H B S) → Stay step }
    ensures leads { (step : S → Next E H B S) → Prefix step }
{}

/// A run is its first steps, and then the steps from the state after them.
pub fn split<E, H, B, S>()
    ensures trace { (step : S → Next E H B S) → Split step }
    ensures state { (step : S → Next E H B S) → StateSplit step }
{}

/// What the step behind some steps adds to what is seen of them: all that a loop over steps needs.
pub fn next_step<E, H, B, S>()
    ensures goes_on { (step : S → Next E H B S) → StepGoesOn step }
    ensures ends { (step : S → Next E H B S) → StepEnds step }
    ensures breaks { (step : S → Next E H B S) → StepBreaks step }
{}

/// What is unbroken was so before, and stays so after a halt. A machine that has no break is unbroken.
pub fn unbroken<E, H, B, S>()
    ensures before { (step : S → Next E H B S) → UnbrokenBefore step }
    ensures halted { (step : S → Next E H B S) → UnbrokenAtHalt step }
    ensures never { (step : S → Next E H ⊥ S) → NeverBreaks step }
{}

/// The first break is the one that comes within the steps, and is none exactly where these are unbroken.
pub fn break_is_first<E, H, B, S>()
    ensures exact { (step : S → Next E H B S) → FirstBreak step }
    ensures none { (step : S → Next E H B S) → NoBreak step }
{}

/// Each run follows itself.
pub fn follows_itself<E, H, B, S>()
    ensures { (a : S → Next E H B S) → FollowsItself a }
{}

/// What follows a run that follows follows.
pub fn follows_through<E, H, B, C, D, S, T, U>()
    ensures { (a : S → Next E H B S) (b : T → Next E H C T) (c : U → Next E H D U) → FollowsThrough a b c }
{}

/// A run in lock step with another follows it.
pub fn lock_follows<E, H, B, C, S, T>()
    ensures { (a : S → Next E H B S) (b : T → Next E H C T) → LockFollows a b }
{}

/// The runs of two files are the same where a watch sees the first and locks with the run of a graph, the run
/// of another graph follows that, and locks with the run of the second file.
pub fn assemble<E, H, B, C, D, S, T, U, V, W>()
    ensures { (watch : U → Next E H B U) (a : S → Next E H ⊥ S) (g : V → Next E H C V) (h : W → Next E H D W) (b : T → Next E H ⊥ T) →
        Assemble watch a g h b }
{}
