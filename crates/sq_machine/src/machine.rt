//! The machine of one run.

ghost use Rattle.std.specs.Prelude.{◌≡◌, ℕ, ◌<◌, IfOk, OnOk, OnErr};
ghost use Rattle.law_runs.specs.Runs.{RunsFor, trace};
ghost use Rattle.sq_machine.specs.Steps.{step_of, trace_of, IsStep, status_of};
ghost use Rattle.sq_machine.specs.Views.{machine_state, machine_world, state_of, world_of};

use crate::hart::Hart;
use crate::moved::{Moved, Outcome};
use crate::world::World;
use sq_isa::Reg;
use sq_num::Memory;
use sq_system::Log;

/// A hart over the pieces of a file and RAM.
#[derive(Drop)]
pub struct Machine {
    world: World,
    hart: Hart,
}

impl Machine {
    /// A machine that stands at a state.
    pub(crate) fn from_parts(world: World, hart: Hart) -> Machine
        ensures world { machine_world result ≡ world_of world }
        ensures state { machine_state result ≡ state_of hart }
    {
        Machine { world, hart }
    }

    /// The program counter.
    pub fn pc(&self) -> u32
        ensures { result ≡ (machine_state self.now).pc }
    {
        self.hart.pc()
    }

    /// The number in a register.
    pub fn register(&self, r: Reg) -> u32
        ensures { result ≡ (machine_state self.now).registers r }
    {
        self.hart.register(r)
    }

    /// One step, whose event the log gets. A step that ends changes nothing, and neither does one for
    /// which there is no memory.
    pub fn step(&mut self, log: &mut Log) -> Result<Moved, Memory>
        ensures ok { IfOk result (λ moved. IsStep (step_of (machine_world self.old) (machine_state self.old)) moved (machine_state self.old) (machine_state self.new) log.old log.new) }
        ensures state_kept { OnErr result (machine_state self.new ≡ machine_state self.old) }
        ensures log_kept { OnErr result (log.new ≡ log.old) }
        ensures world { machine_world self.new ≡ machine_world self.old }
    {
        self.hart.step(&self.world, log)
    }

    /// The first `n` steps, up to one that ends. Where there is no memory for one the machine stands after
    /// those that were made, and the log has grown by their events.
    pub fn run(&mut self, log: &mut Log, n: u64) -> Result<Outcome, Memory>
        ensures made { OnOk result (RunsFor (step_of (machine_world self.old)) n (machine_state self.old) (machine_state self.new) log.old log.new) }
        ensures status { IfOk result (λ outcome. (trace_of (machine_world self.old) n (machine_state self.old)).status ≡ status_of outcome) }
        ensures stopped { OnErr result ((k : ℕ) × (k < n) × RunsFor (step_of (machine_world self.old)) k (machine_state self.old) (machine_state self.new) log.old log.new) }
        ensures world { machine_world self.new ≡ machine_world self.old }
    {
        self.hart.run(&self.world, log, n)
    }
}
