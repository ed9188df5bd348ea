//! A step, and a run of steps.

ghost use Rattle.std.specs.Prelude.{◌≡◌, ℕ, ◌<◌, IfOk, OnOk, OnErr};
ghost use Rattle.law_runs.specs.Runs.{Went as Goes, RunsFor, trace};
ghost use Rattle.sq_isa.specs.Table.{insn_of};
ghost use Rattle.sq_system.specs.World.{is_executable, is_range};
ghost use Rattle.sq_machine.specs.State.{advance};
ghost use Rattle.sq_machine.specs.Rows.{row_of};
ghost use Rattle.sq_machine.specs.Steps.{fetched, insn_step, step_of, trace_of, IsQuietStep, IsStep, status_of};
ghost use Rattle.sq_machine.specs.Views.{state_of, world_of};

use crate::hart::Hart;
use crate::moved::{Moved, Outcome};
use crate::world::World;
use sq_decode::decode;
use sq_isa::Insn;
use sq_num::Memory;
use sq_system::{Halt, Log};

impl Hart {
    /// Whether a word may be fetched from an address.
    #[tactic(auto, unfolding(crate::specs::Views::state_of))]
    fn may_fetch(&mut self, world: &World, x: u32) -> bool
        ensures value { result ≡ is_range (is_executable (world_of world.now)) x 4 }
        ensures state { state_of self.new ≡ state_of self.old }
    {
        world.are_executable(x, 4, &mut self.code_piece)
    }

    /// The word at pc, where one can be fetched.
    fn fetch(&mut self, world: &World) -> Option<u32>
        ensures value { result ≡ fetched (world_of world.now) (state_of self.old) }
        ensures state { state_of self.new ≡ state_of self.old }
    {
        let pc = self.pc();
        if self.may_fetch(world, pc) {
            self.word(pc)
        } else {
            None
        }
    }

    /// FENCE does nothing.
    fn fence(&mut self) -> Moved
        ensures { IsQuietStep (Goes None (advance (state_of self.old))) result (state_of self.old) (state_of self.new) }
    {
        self.advance();
        Moved::Went
    }

    /// One instruction.
    #[tactic(auto, using(crate::proofs::Moves::quiet))]
    fn execute(&mut self, world: &World, log: &mut Log, insn: Insn) -> Result<Moved, Memory>
        ensures ok { IfOk result (λ moved. IsStep (row_of (world_of world.now) (state_of self.old) insn) moved (state_of self.old) (state_of self.new) log.old log.new) }
        ensures state_kept { OnErr result (state_of self.new ≡ state_of self.old) }
        ensures log_kept { OnErr result (log.new ≡ log.old) }
    {
        match insn {
            Insn::Lui { rd, upper } => Ok(self.lui(rd, upper)),
            Insn::Auipc { rd, upper } => Ok(self.auipc(rd, upper)),
            Insn::Jal { rd, offset } => Ok(self.jal(rd, offset)),
            Insn::Jalr { rd, rs, offset } => Ok(self.jalr(rd, rs, offset)),
            Insn::Branch { cond, a, b, offset } => Ok(self.branch(cond, a, b, offset)),
            Insn::Load {
                kind,
                rd,
                rs,
                offset,
            } => Ok(self.load(kind, rd, rs, offset)),
            Insn::Store {
                kind,
                rs,
                src,
                offset,
            } => Ok(self.store(world, kind, rs, src, offset)),
            Insn::OpImm { op, rd, rs, imm } => Ok(self.op_imm(op, rd, rs, imm)),
            Insn::Op { op, rd, a, b } => Ok(self.op(op, rd, a, b)),
            Insn::Fence { .. } => Ok(self.fence()),
            Insn::Ecall => self.call(world, log),
            Insn::Ebreak => Ok(Moved::Ended(Halt::Breakpoint)),
            Insn::Unimp { .. } => Ok(Moved::Ended(Halt::Illegal)),
            Insn::Atomic {
                op,
                rd,
                rs,
                src,
                ..
            } => Ok(self.atomic(world, op, rd, rs, src)),
        }
    }

    /// The instruction of a word; a word without one is illegal.
    fn execute_word(&mut self, world: &World, log: &mut Log, word: u32) -> Result<Moved, Memory>
        ensures ok { IfOk result (λ moved. IsStep (insn_step (world_of world.now) (state_of self.old) (insn_of word)) moved (state_of self.old) (state_of self.new) log.old log.new) }
        ensures state_kept { OnErr result (state_of self.new ≡ state_of self.old) }
        ensures log_kept { OnErr result (log.new ≡ log.old) }
    {
        match decode(word) {
            None => Ok(Moved::Ended(Halt::Illegal)),
            Some(insn) => self.execute(world, log, insn),
        }
    }

    /// One step. A step that ends changes nothing, and neither does one for which there is no memory.
    #[tactic(auto, unfolding(crate::specs::Steps::step_of))]
    pub fn step(&mut self, world: &World, log: &mut Log) -> Result<Moved, Memory>
        ensures ok { IfOk result (λ moved. IsStep (step_of (world_of world.now) (state_of self.old)) moved (state_of self.old) (state_of self.new) log.old log.new) }
        ensures state_kept { OnErr result (state_of self.new ≡ state_of self.old) }
        ensures log_kept { OnErr result (log.new ≡ log.old) }
    {
        match self.fetch(world) {
            None => Ok(Moved::Ended(Halt::Fetch(self.pc()))),
            Some(word) => self.execute_word(world, log, word),
        }
    }

    /// The first `n` steps, up to one that ends.
    pub fn run(&mut self, world: &World, log: &mut Log, n: u64) -> Result<Outcome, Memory>
        ensures made { OnOk result (RunsFor (step_of (world_of world.now)) n (state_of self.old) (state_of self.new) log.old log.new) }
        ensures status { IfOk result (λ outcome. (trace_of (world_of world.now) n (state_of self.old)).status ≡ status_of outcome) }
        ensures stopped { OnErr result ((k : ℕ) × (k < n) × RunsFor (step_of (world_of world.now)) k (state_of self.old) (state_of self.new) log.old log.new) }
    {
        for step in 0..n {
            match self.step(world, log)? {
                Moved::Went => {}
                Moved::Ended(halt) => return Ok(Outcome::Ended(halt)),
            }
        }
        Ok(Outcome::Limit)
    }
}
