// Little machines that show how the theory is used, and what it says: one counts aloud, one skips a silent step
// before each number, one skips and breaks where the others end, and one goes on silently for ever.

ghost use Rattle.std.specs.Prelude.{◌≢◌, ℕ, suc};
ghost use Rattle.law_runs.specs.Follows.{FollowsRuns, SameRuns};
ghost use Rattle.law_runs.specs.Countdowns.{counting, Tick, Rest, Ready, ticking, cracking, wary, idling};

use crate::simulation::follows_by_simulation;
use std::marker::Brand;

/// The second machine skips silent steps.
pub fn ticking_follows()
    ensures { (n : ℕ) → FollowsRuns counting n ticking (Rest n) }
{
    follows_by_simulation::<Brand>()
}

/// The first machine skips silent steps, and breaks at its end.
pub fn counting_follows()
    ensures { (n : ℕ) → FollowsRuns cracking (Rest n) counting n }
{
    follows_by_simulation::<Brand>()
}

/// Following tells runs apart: an end from a silent loop, both ways, and one event from another.
pub fn following_tells_apart()
    ensures end { (n : ℕ) → ¬ FollowsRuns counting n idling tt }
    ensures silence { (n : ℕ) → ¬ FollowsRuns idling tt counting n }
    ensures event { (n m : ℕ) → n ≢ m → ¬ FollowsRuns counting (suc n) counting (suc m) }
{}

/// Counting and ticking are the same under a watch that is wary of a number, and free after it breaks.
pub fn ticking_same()
    ensures { (n : ℕ) → SameRuns wary n counting n ticking (Rest n) }
{}
