//! The laws of a run's memory, for the layers above.

ghost use Rattle.sq_machine.specs.Presence.{MappedAtStart, KeptByStep, KeptByRun};

/// Which bytes are in memory: at a start those of the pieces and of RAM, and steps keep them.
#[tactic(auto, using(crate::proofs::Presence::mapped_at_start, crate::proofs::Presence::kept_by_step, crate::proofs::Presence::kept_by_run))]
pub fn presence()
    ensures start { MappedAtStart }
    ensures step { KeptByStep }
    ensures run { KeptByRun }
{}
