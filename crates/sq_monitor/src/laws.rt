//! The laws of what is told of a watched run, for the layers above.

ghost use Rattle.sq_monitor.specs.Outcomes.{BreaksAreTold, EndsAreTold, LimitsAreTold};

/// A break is told exactly where it is the first one, an end where the run has ended, and a limit where it still runs.
#[tactic(auto, using(crate::proofs::Outcomes::breaks_are_told, crate::proofs::Outcomes::ends_are_told, crate::proofs::Outcomes::limits_are_told))]
pub fn outcomes()
    ensures breaks { BreaksAreTold }
    ensures ends { EndsAreTold }
    ensures limits { LimitsAreTold }
{}
