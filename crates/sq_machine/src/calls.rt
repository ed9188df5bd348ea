//! ECALL.

ghost use Rattle.std.specs.Prelude.{◌≡◌, ◌+◌, ◌<◌, ◌≤◌, ◌^◌, ◌++◌, ◌∷◌, [], length, take, drop, true, IfOk, OnOk, OnErr};
ghost use Rattle.sq_system.specs.Calls.{effect_of, answer_of};
ghost use Rattle.sq_machine.specs.State.{with_register, with_bytes, without_input, bytes_at};
ghost use Rattle.sq_machine.specs.Calls.{left, call_of, narrowed, answered, called, call_row, IsAllowed};
ghost use Rattle.sq_machine.specs.Steps.{IsStep};
ghost use Rattle.sq_machine.specs.Views.{state_of, world_of};

use crate::hart::Hart;
use crate::moved::Moved;
use crate::world::World;
use sq_isa::Reg;
use sq_num::{Bytes, Memory};
use sq_system::{CallArgs, Effect, Event, Halt, Log, call_answer, call_effect};

/// The number of the call whose effect depends on whether its buffer is writable.
const READ: u32 = 63;

/// The number of the call whose effect depends on whether its buffer is in memory.
const WRITE: u32 = 64;

/// The effect of a call.
#[tactic(auto, using(crate::proofs::Effects::effect_allowed))]
fn effect(call: &CallArgs) -> Effect
    ensures value { result ≡ effect_of call.now }
    ensures allowed { IsAllowed call.now result }
{
    call_effect(call)
}

/// Where the next `count` bytes end.
fn end_of(input: &[u8], read: usize, count: usize) -> usize
    requires some { 0 < count }
    requires left { count ≤ length (drop read input.now) }
    ensures value { result ≡ read + count }
    ensures within { result ≤ length input.now }
{
    read + count
}

impl Hart {
    /// The input that is left.
    #[tactic(auto, unfolding(crate::specs::Views::state_of))]
    fn rest(&self) -> &[u8]
        ensures { result.now ≡ (state_of self.now).input }
    {
        if self.read < self.input.len() {
            &self.input[self.read..]
        } else {
            &[]
        }
    }

    /// How much of the input is left; no call asks for more than fits.
    fn left(&self) -> u32
        ensures { result ≡ left (state_of self.now) }
    {
        self.rest().len().min(u32::MAX as usize) as u32
    }

    /// What a call finds. Its buffer is looked at only where its effect depends on it.
    #[tactic(auto, unfolding(crate::specs::Calls::call_of, crate::specs::Views::world_of))]
    fn call_args(&mut self, world: &World) -> CallArgs
        ensures value { result ≡ narrowed (call_of (world_of world.now) (state_of self.old)) }
        ensures state { state_of self.new ≡ state_of self.old }
        ensures readable { result.readable ≡ true → result.a1 + result.a2 ≤ 2 ^ 32 }
        ensures writable { result.writable ≡ true → result.a1 + result.a2 ≤ 2 ^ 32 }
        ensures left { result.left ≤ length (state_of self.old).input }
    {
        let a1 = self.register(Reg::A1);
        let a2 = self.register(Reg::A2);
        let number = self.register(Reg::A7);
        let readable = number == WRITE && self.are_in_memory(a1, a2);
        let writable = number == READ && self.are_writable(world, a1, a2);
        CallArgs {
            number,
            a0: self.register(Reg::A0),
            a1,
            a2,
            base: world.base,
            size: world.size,
            left: self.left(),
            readable,
            writable,
        }
    }

    /// Writes the answer to a0, and goes to the next instruction.
    fn answer(&mut self, answer: Option<u32>)
        ensures { state_of self.new ≡ answered answer (state_of self.old) }
    {
        match answer {
            Some(number) => self.finish_call(number),
            None => self.advance(),
        }
    }

    /// The same for an answer that is there.
    fn finish_call(&mut self, number: u32)
        ensures { state_of self.new ≡ answered (Some number) (state_of self.old) }
    {
        self.set_register(Reg::A0, number);
        self.advance();
    }

    /// Logs an event and answers.
    fn note(&mut self, log: &mut Log, event: Event, answer: Option<u32>) -> Result<(), Memory>
        ensures state { OnOk result (state_of self.new ≡ answered answer (state_of self.old)) }
        ensures log { OnOk result (log.new ≡ log.old ++ event ∷ []) }
        ensures state_kept { OnErr result (state_of self.new ≡ state_of self.old) }
        ensures log_kept { OnErr result (log.new ≡ log.old) }
    {
        log.push(event)?;
        self.answer(answer);
        Ok(())
    }

    /// Moves the next bytes of the input to an address.
    #[tactic(auto, unfolding(crate::specs::Views::state_of))]
    fn take_input(&mut self, address: u32, count: u32)
        requires left { count ≤ length (state_of self.old).input }
        requires end { address + count ≤ 2 ^ 32 }
        ensures { state_of self.new ≡ without_input count (with_bytes address (take count (state_of self.old).input) (state_of self.old)) }
    {
        if count > 0 {
            let end = end_of(&self.input, self.read, count as usize);
            self.memory.put_all(address, &self.input[self.read..end]);
            self.read = end;
        }
    }

    /// `read`.
    fn read_call(&mut self, log: &mut Log, call: &CallArgs, count: u32) -> Result<(), Memory>
        requires left { count ≤ length (state_of self.old).input }
        requires end { call.now.a1 + count ≤ 2 ^ 32 }
        ensures state { OnOk result (state_of self.new ≡
            answered (answer_of call.now (Effect.Read count)) (without_input count (with_bytes call.now.a1 (take count (state_of self.old).input) (state_of self.old)))) }
        ensures log { OnOk result (log.new ≡ log.old ++ Event.Read (take count (state_of self.old).input) ∷ []) }
        ensures state_kept { OnErr result (state_of self.new ≡ state_of self.old) }
        ensures log_kept { OnErr result (log.new ≡ log.old) }
    {
        let alloc = *self.input.allocator();
        let bytes = Bytes::from_slice(alloc, &self.rest()[..count as usize])?;
        log.push(Event::Read { bytes })?;
        self.take_input(call.a1, count);
        self.answer(call_answer(call, &Effect::Read { count }));
        Ok(())
    }

    /// A call.
    #[tactic(auto, using(crate::proofs::Effects::row_narrowed))]
    pub fn call(&mut self, world: &World, log: &mut Log) -> Result<Moved, Memory>
        ensures ok { IfOk result (λ moved. IsStep (call_row (world_of world.now) (state_of self.old)) moved (state_of self.old) (state_of self.new) log.old log.new) }
        ensures state_kept { OnErr result (state_of self.new ≡ state_of self.old) }
        ensures log_kept { OnErr result (log.new ≡ log.old) }
    {
        let call = self.call_args(world);
        let effect = effect(&call);
        let answer = call_answer(&call, &effect);
        match effect {
            Effect::Exit { status } => Ok(Moved::Ended(Halt::Exit(status))),
            Effect::Write { fd } => {
                let bytes = self.bytes(call.a1, call.a2)?;
                self.note(log, Event::Wrote { fd, bytes }, answer)?;
                Ok(Moved::Went)
            }
            Effect::Read { count } => {
                self.read_call(log, &call, count)?;
                Ok(Moved::Went)
            }
            Effect::Brk { answer: end } => {
                self.note(log, Event::Brk { answer: end }, answer)?;
                Ok(Moved::Went)
            }
            Effect::Fail { code } => {
                let number = call.number;
                self.note(log, Event::Failed { number, code }, answer)?;
                Ok(Moved::Went)
            }
            Effect::Ask => {
                let number = call.number;
                self.note(log, Event::Asked { number }, answer)?;
                Ok(Moved::Went)
            }
        }
    }
}
