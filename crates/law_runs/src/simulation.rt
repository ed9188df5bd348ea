// Relations between the states of two machines, and what they give for runs.

ghost use Rattle.law_runs.specs.Runs.{Next};
ghost use Rattle.law_runs.specs.Follows.{FollowsRuns, LocksWith};
ghost use Rattle.law_runs.specs.Simulation.{Simulates, SimulatesInStep};

use std::marker::Brand;

/// Two machines with the same kinds of events and halts, and a relation of their states.
pub trait Relation {
    ghost Event: { Type 0 };

    ghost Halt: { Type 0 };

    ghost FirstBreak: { Type 0 };

    ghost FirstState: { Type 0 };

    ghost SecondBreak: { Type 0 };

    ghost SecondState: { Type 0 };

    ghost first: { FirstState → Next Event Halt FirstBreak FirstState };

    ghost second: { SecondState → Next Event Halt SecondBreak SecondState };

    ghost related: { FirstState → SecondState → Type 0 };
}

// Where a caller passes `Brand`, its proof picks the machines and the relation; these stand where it picks none.
impl Relation for Brand {
    ghost Event = { ⊥ };

    ghost Halt = { ⊥ };

    ghost FirstBreak = { ⊥ };

    ghost FirstState = { ⊥ };

    ghost SecondBreak = { ⊥ };

    ghost SecondState = { ⊥ };

    ghost first = { λ s. absurd s };

    ghost second = { λ t. absurd t };

    ghost related = { λ s t. ⊥ };
}

/// A simulation in which each side may skip silent steps gives following.
pub fn follows_by_simulation<R: Relation>()
    requires { Simulates R.first R.second R.related }
    ensures { (s : R.FirstState) (t : R.SecondState) → R.related s t → FollowsRuns R.first s R.second t }
{}

/// A simulation in lock step gives equal traces.
pub fn locks_by_steps<R: Relation>()
    requires { SimulatesInStep R.first R.second R.related }
    ensures { (s : R.FirstState) (t : R.SecondState) → R.related s t → LocksWith R.first s R.second t }
{}
