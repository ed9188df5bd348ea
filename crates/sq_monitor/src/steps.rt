//! A step, and a run of steps.

ghost use Rattle.std.specs.Prelude.{◌≡◌, ℕ, ◌+◌, ◌<◌, ◌≤◌, ◌^◌, IfOk, OnOk, OnErr};
ghost use Rattle.law_runs.specs.Runs.{RunsFor};
ghost use Rattle.sq_isa.specs.Table.{insn_of};
ghost use Rattle.sq_isa.specs.Uses.{destination_of};
ghost use Rattle.law_follow.specs.Jumps.{stop};
ghost use Rattle.law_follow.specs.Rows.{row_of};
ghost use Rattle.law_follow.specs.GraphRuns.{operands};
ghost use Rattle.law_program.specs.Monitored.{upper_value, half_of, finished, insn_step, marked_step, monitored_step};
ghost use Rattle.sq_tagged.specs.Views.{setting_of, layout_of, half_in};
ghost use Rattle.sq_monitor.specs.Steps.{told, IsTold, IsStep, IsWatchedStep, BreaksBelow, outcome_at};
ghost use Rattle.sq_monitor.specs.Views.{watched_of};

use crate::hart::Hart;
use crate::jumps::target_from;
use crate::moved::{Moved, WatchOutcome};
use crate::scene::Scene;
use sq_decode::decode;
use sq_isa::{Insn, Reg};
use sq_lift::TextWord;
use sq_num::Memory;
use sq_reloc::Mark;
use sq_system::{Halt, Log};
use sq_tagged::{AddressHalf, Setting, row};

/// EBREAK.
const EBREAK: u32 = 0x0010_0073;

/// The word that an instruction makes with the upper half of an address.
fn upper_value(at: u32, insn: &Insn) -> Option<u32>
    ensures { result ≡ upper_value at insn.now }
{
    match *insn {
        Insn::Lui { upper, .. } => Some(upper << 12),
        Insn::Auipc { upper, .. } => Some(at.wrapping_add(upper << 12)),
        Insn::Jal { .. }
        | Insn::Jalr { .. }
        | Insn::Branch { .. }
        | Insn::Load { .. }
        | Insn::Store { .. }
        | Insn::OpImm { .. }
        | Insn::Op { .. }
        | Insn::Fence { .. }
        | Insn::Ecall
        | Insn::Ebreak
        | Insn::Unimp { .. }
        | Insn::Atomic { .. } => None,
    }
}

/// The half of an address that a mark says.
fn half_of(at: u32, mark: Mark, insn: &Insn) -> AddressHalf
    ensures { half_in result ≡ half_of at mark insn.now }
{
    match mark {
        Mark::Hi(to) => AddressHalf::Upper {
            to,
            word: upper_value(at, insn),
        },
        Mark::Lo(to) => AddressHalf::Lower(to),
        Mark::Plain | Mark::Unsupported(_) | Mark::Disagrees(_) | Mark::Conflict | Mark::Lone =>
            AddressHalf::Plain,
    }
}

/// The destination of an instruction, x0 where it has none.
fn destination(insn: &Insn) -> Reg
    ensures { result ≡ destination_of insn.now }
{
    match *insn {
        Insn::Lui { rd, .. }
        | Insn::Auipc { rd, .. }
        | Insn::Jal { rd, .. }
        | Insn::Jalr { rd, .. }
        | Insn::Load { rd, .. }
        | Insn::OpImm { rd, .. }
        | Insn::Op { rd, .. }
        | Insn::Atomic { rd, .. } => rd,
        Insn::Ecall => Reg::A0,
        Insn::Branch { .. }
        | Insn::Store { .. }
        | Insn::Fence { .. }
        | Insn::Ebreak
        | Insn::Unimp { .. } => Reg::from_low_bits(0),
    }
}

/// How a run ends at a word that stands for no instruction, or at EBREAK.
fn stop(word: u32) -> Halt
    ensures { result ≡ stop word }
{
    if word == EBREAK {
        Halt::Breakpoint
    } else {
        Halt::Illegal
    }
}

/// An end that a step can answer is told as it is: an address in it is below 2^32.
fn is_told(moved: Moved)
    ensures { IsTold moved }
{
    match moved {
        Moved::Ended(_) => {}
        Moved::Went | Moved::Broke(_) => {}
    }
}

impl Hart {
    /// An instruction that goes on to the next one.
    #[tactic(auto, unfolding(crate::specs::Views::watched_of))]
    fn item(
        &mut self,
        setting: &Setting,
        log: &mut Log,
        at: u32,
        half: AddressHalf,
        insn: &Insn,
    ) -> Result<Moved, Memory>
        ensures ok { IfOk result (λ moved. IsStep (finished at (destination_of insn.now) (watched_of self.old).core (row_of (setting_of setting.now) (half_in half) insn.now (operands insn.now (watched_of self.old).core.registers) (watched_of self.old).core.store)) moved (watched_of self.old) (watched_of self.new) log.old log.new) }
        ensures state_kept { OnErr result (watched_of self.new ≡ watched_of self.old) }
        ensures log_kept { OnErr result (log.new ≡ log.old) }
    {
        let made = row(setting, &self.registers, &mut self.store, log, half, insn)?;
        Ok(self.finish(at, destination(insn), made))
    }

    /// One instruction.
    #[tactic(auto, using(crate::proofs::QuietSteps::quiet))]
    fn execute(
        &mut self,
        setting: &Setting,
        log: &mut Log,
        at: u32,
        half: AddressHalf,
        insn: &Insn,
    ) -> Result<Moved, Memory>
        requires { at + 4 ≤ 2 ^ 32 }
        ensures ok { IfOk result (λ moved. IsStep (insn_step (setting_of setting.now) at (half_in half) insn.now (watched_of self.old).core) moved (watched_of self.old) (watched_of self.new) log.old log.new) }
        ensures state_kept { OnErr result (watched_of self.new ≡ watched_of self.old) }
        ensures log_kept { OnErr result (log.new ≡ log.old) }
    {
        match *insn {
            Insn::Jal { rd, offset } => Ok(self.jal(at, rd, target_from(at, offset))),
            Insn::Jalr { rd, rs, offset } => Ok(self.jalr(setting, at, half, rd, rs, offset)),
            Insn::Branch { cond, a, b, offset } => {
                let target = target_from(at, offset);
                Ok(self.branch(setting, at, cond, a, b, target))
            }
            Insn::Ebreak => Ok(Moved::Ended(Halt::Breakpoint)),
            Insn::Unimp { word } => Ok(Moved::Ended(stop(word))),
            Insn::Lui { .. }
            | Insn::Auipc { .. }
            | Insn::Load { .. }
            | Insn::Store { .. }
            | Insn::OpImm { .. }
            | Insn::Op { .. }
            | Insn::Fence { .. }
            | Insn::Ecall
            | Insn::Atomic { .. } => self.item(setting, log, at, half, insn),
        }
    }

    /// A word of text. One without an instruction is illegal.
    fn execute_word(
        &mut self,
        setting: &Setting,
        log: &mut Log,
        at: u32,
        word: TextWord,
    ) -> Result<Moved, Memory>
        requires { at + 4 ≤ 2 ^ 32 }
        ensures ok { IfOk result (λ moved. IsStep (marked_step (setting_of setting.now) at word.mark (insn_of word.number) (watched_of self.old).core) moved (watched_of self.old) (watched_of self.new) log.old log.new) }
        ensures state_kept { OnErr result (watched_of self.new ≡ watched_of self.old) }
        ensures log_kept { OnErr result (log.new ≡ log.old) }
    {
        match decode(word.number) {
            None => Ok(Moved::Ended(Halt::Illegal)),
            Some(insn) => {
                let half = half_of(at, word.mark, &insn);
                self.execute(setting, log, at, half, &insn)
            }
        }
    }

    /// One step. A step that ends or breaks changes nothing, and neither does one for which there is no memory.
    pub fn step(&mut self, scene: &Scene, log: &mut Log) -> Result<Moved, Memory>
        ensures ok { IfOk result (λ moved. IsWatchedStep (monitored_step (layout_of scene.now.setting) scene.now.text (watched_of self.old)) moved (watched_of self.old) (watched_of self.new) log.old log.new) }
        ensures broke { IfOk result (λ moved. BreaksBelow (2 ^ 32) moved (watched_of self.old)) }
        ensures state_kept { OnErr result (watched_of self.new ≡ watched_of self.old) }
        ensures log_kept { OnErr result (log.new ≡ log.old) }
    {
        match scene.word(self.pc) {
            None => Ok(Moved::Ended(Halt::Fetch((self.pc % (1 << 32)) as u32))),
            Some(placed) => {
                let moved = self.execute_word(&scene.setting, log, placed.at, placed.word)?;
                is_told(moved);
                Ok(moved)
            }
        }
    }

    /// The first `n` steps, up to one that ends or breaks.
    pub fn run(&mut self, scene: &Scene, log: &mut Log, n: u64) -> Result<WatchOutcome, Memory>
        ensures made { OnOk result (RunsFor (monitored_step (layout_of scene.now.setting) scene.now.text) n (watched_of self.old) (watched_of self.new) log.old log.new) }
        ensures outcome { IfOk result (λ outcome. outcome ≡ outcome_at (monitored_step (layout_of scene.now.setting) scene.now.text) n (watched_of self.old)) }
        ensures stopped { OnErr result ((k : ℕ) × (k < n) × RunsFor (monitored_step (layout_of scene.now.setting) scene.now.text) k (watched_of self.old) (watched_of self.new) log.old log.new) }
    {
        for step in 0..n {
            match self.step(scene, log)? {
                Moved::Went => {}
                Moved::Ended(halt) => return Ok(WatchOutcome::Ended(halt)),
                Moved::Broke(kind) => {
                    let pc = self.pc as u32;
                    return Ok(WatchOutcome::Break { pc, kind });
                }
            }
        }
        Ok(WatchOutcome::Limit)
    }
}
