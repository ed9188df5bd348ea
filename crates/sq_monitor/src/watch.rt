//! The watch of one run.

ghost use Rattle.std.specs.Prelude.{◌≡◌, ℕ, ◌<◌, IfOk, OnOk, OnErr};
ghost use Rattle.law_runs.specs.Runs.{RunsFor};
ghost use Rattle.law_program.specs.Monitored.{monitored_step};
ghost use Rattle.sq_monitor.specs.Steps.{outcome_at};
ghost use Rattle.sq_monitor.specs.Views.{watch_layout, watch_text, watch_state, watched_of};
ghost use Rattle.sq_tagged.specs.Views.{layout_of};

use crate::hart::Hart;
use crate::moved::WatchOutcome;
use crate::scene::Scene;
use sq_num::Memory;
use sq_system::Log;

/// A file on tagged values.
#[derive(Drop)]
pub struct Watch {
    scene: Scene,
    hart: Hart,
}

impl Watch {
    /// A watch that stands at a state.
    pub(crate) fn from_parts(scene: Scene, hart: Hart) -> Watch
        ensures layout { watch_layout result ≡ layout_of scene.setting }
        ensures text { watch_text result ≡ scene.text }
        ensures state { watch_state result ≡ watched_of hart }
    {
        Watch { scene, hart }
    }

    /// The first `n` steps, up to one that ends or breaks. Where there is no memory for one the watch stands
    /// after those that were made, and the log has grown by their events.
    pub fn run(&mut self, log: &mut Log, n: u64) -> Result<WatchOutcome, Memory>
        ensures made { OnOk result (RunsFor (monitored_step (watch_layout self.old) (watch_text self.old)) n (watch_state self.old) (watch_state self.new) log.old log.new) }
        ensures outcome { IfOk result (λ outcome. outcome ≡ outcome_at (monitored_step (watch_layout self.old) (watch_text self.old)) n (watch_state self.old)) }
        ensures stopped { OnErr result ((k : ℕ) × (k < n) × RunsFor (monitored_step (watch_layout self.old) (watch_text self.old)) k (watch_state self.old) (watch_state self.new) log.old log.new) }
        ensures layout { watch_layout self.new ≡ watch_layout self.old }
        ensures text { watch_text self.new ≡ watch_text self.old }
    {
        self.hart.run(&self.scene, log, n)
    }
}
