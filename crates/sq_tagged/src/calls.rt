//! ECALL on tagged values.

ghost use Rattle.std.specs.Prelude.{◌≡◌, ◌+◌, ◌<◌, ◌≤◌, ◌^◌, ◌++◌, ◌∷◌, [], length, take, drop, map, min, true, unwrap_or, ◌-◌, IfOk, OnOk, OnErr};
ghost use Rattle.std.specs.List.{list_any};
ghost use Rattle.sq_memory.specs.Cells.{cells_from};
ghost use Rattle.sq_pages.specs.Pages.{AreReady};
ghost use Rattle.sq_system.specs.Calls.{effect_of, answer_of};
ghost use Rattle.sq_machine.specs.Calls.{narrowed, IsAllowed};
ghost use Rattle.law_follow.specs.Values.{Byte, is_stale, is_fragment, byte_of};
ghost use Rattle.law_follow.specs.Calls.{has_tagged, number_in, call_of, takes_buffer, answer, with_input, effect_row, args_row, call_row};
ghost use Rattle.sq_tagged.specs.Rows.{IsMade};
ghost use Rattle.sq_tagged.specs.Views.{setting_of, store_of, value_of, cell_of, operands_of};

use crate::made::Made;
use crate::setting::Setting;
use crate::store::Store;
use crate::values::{Cell, Value};
use law_follow::Kind;
use sq_num::{Bytes, Memory};
use sq_system::{CallArgs, Effect, Event, Halt, Log, call_answer, call_effect};
use std::alloc::Global;

const READ: u32 = 63;

const WRITE: u32 = 64;

const EXIT: u32 = 93;

const EXIT_GROUP: u32 = 94;

const BRK: u32 = 214;

/// The values of the four registers that a call looks at.
#[derive(Clone, Copy, Debug)]
pub struct CallOperands {
    pub a0: Value,
    pub a1: Value,
    pub a2: Value,
    pub a7: Value,
}

impl CallOperands {
    /// Whether an argument that the call looks at is tagged.
    fn has_tagged(&self, number: u32) -> bool
        ensures { result ≡ has_tagged number (operands_of self.now) }
    {
        match number {
            EXIT | EXIT_GROUP | BRK => self.a0.is_tagged(),
            READ | WRITE => self.a0.is_tagged() || self.a1.is_tagged() || self.a2.is_tagged(),
            _ => false,
        }
    }
}

/// The number that a register holds, 0 where it holds none.
fn number_in(value: Value) -> u32
    ensures { result ≡ number_in (value_of value) }
{
    match value {
        Value::Num(number) => number,
        Value::Tagged(_) => 0,
    }
}

/// Whether a call looks at its buffer: a read from 0, or a write to 1 or 2.
fn takes_buffer(call: &CallArgs) -> bool
    ensures { result ≡ takes_buffer call.now }
{
    (call.number == READ && call.a0 == 0)
        || (call.number == WRITE && (call.a0 == 1 || call.a0 == 2))
}

/// The effect of a call.
#[tactic(auto, using(sq_machine::proofs::Effects::effect_allowed))]
fn effect(call: &CallArgs) -> Effect
    ensures value { result ≡ effect_of call.now }
    ensures allowed { IsAllowed call.now result }
{
    call_effect(call)
}

/// Whether one of the cells may not be read.
fn has_stale(cells: &[Cell]) -> bool
    ensures { result ≡ list_any (λ c. is_stale (cell_of c)) cells.now }
{
    cells.iter().any(|cell| cell.is_stale())
}

/// Whether one of the cells is a part of a tagged value.
fn has_fragment(cells: &[Cell]) -> bool
    ensures { result ≡ list_any (λ c. is_fragment (cell_of c)) cells.now }
{
    cells.iter().any(|cell| cell.is_fragment())
}

/// The numbers of the cells.
fn bytes_of(alloc: Global, cells: &[Cell]) -> Result<Bytes, Memory>
    ensures { IfOk result (λ bytes. bytes ≡ map byte_of (map cell_of cells.now)) }
{
    let mut bytes = Vec::with_capacity(alloc, cells.len())?;
    for cell in cells {
        bytes.push(cell.byte())?;
    }
    Ok(Bytes::from_vec(bytes))
}

/// Cells that hold these numbers.
pub fn cells_of(alloc: Global, bytes: &[u8]) -> Result<Vec<Cell>, Memory>
    ensures { IfOk result (λ cells. map cell_of cells.items ≡ map Byte bytes.now) }
{
    let mut cells = Vec::with_capacity(alloc, bytes.len())?;
    for byte in bytes {
        cells.push(Cell::Byte(*byte))?;
    }
    Ok(cells)
}

/// What a0 becomes.
fn answer(call: &CallArgs, effect: &Effect) -> Value
    ensures { value_of result ≡ answer call.now effect.now }
{
    Value::Num(call_answer(call, effect).unwrap_or(0))
}

/// Logs an event, and gives a value.
fn noted(log: &mut Log, event: Event, value: Value) -> Result<Made, Memory>
    ensures made { IfOk result (λ made. made ≡ Made.Gives value) }
    ensures log { OnOk result (log.new ≡ log.old ++ event ∷ []) }
    ensures log_kept { OnErr result (log.new ≡ log.old) }
{
    log.push(event)?;
    Ok(Made::Gives(value))
}

/// Where the next `count` bytes end.
fn end_of(input: &[u8], read: usize, count: usize) -> usize
    requires some { 0 < count }
    requires left { count ≤ length (drop read input.now) }
    ensures value { result ≡ read + count }
    ensures within { result ≤ length input.now }
{
    read + count
}

impl Store {
    /// The input that is left.
    #[tactic(auto, unfolding(crate::specs::Views::store_of))]
    fn rest(&self) -> &[u8]
        ensures { result.now ≡ (store_of self.now).input }
    {
        if self.read < self.input.len() {
            &self.input[self.read..]
        } else {
            &[]
        }
    }

    /// How much of the input is left; no call asks for more than fits.
    fn left(&self) -> u32
        ensures value { result ≡ min (length (store_of self.now).input) (2 ^ 32 - 1) }
    {
        self.rest().len().min(u32::MAX as usize) as u32
    }

    /// What a call finds. Its buffer is looked at only where its effect depends on it.
    #[tactic(auto, unfolding(crate::specs::Views::setting_of, crate::specs::Views::layout_of))]
    fn call_args(&self, setting: &Setting, number: u32, r: &CallOperands) -> CallArgs
        ensures value { result ≡ narrowed (call_of (setting_of setting.now) number (operands_of r.now) (store_of self.now)) }
        ensures readable { result.readable ≡ true → result.a1 + result.a2 ≤ 2 ^ 32 }
        ensures writable { result.writable ≡ true → result.a1 + result.a2 ≤ 2 ^ 32 }
        ensures left { result.left ≤ length (store_of self.now).input }
    {
        let a1 = number_in(r.a1);
        let a2 = number_in(r.a2);
        let readable = number == WRITE && self.are_in_memory(a1, a2);
        let writable = number == READ && setting.are_writable(a1, a2);
        CallArgs {
            number,
            a0: number_in(r.a0),
            a1,
            a2,
            base: setting.base,
            size: setting.size,
            left: self.left(),
            readable,
            writable,
        }
    }

    /// The n cells from `x` on, or none where they are not all in memory.
    #[tactic(auto, unfolding(crate::specs::Views::store_of))]
    fn buffer(&self, x: u32, n: u32) -> Result<Vec<Cell>, Memory>
        requires { x + n ≤ 2 ^ 32 }
        ensures { IfOk result (λ cells. map cell_of cells.items ≡ unwrap_or (cells_from (store_of self.now).memory x n) []) }
    {
        let alloc = *self.input.allocator();
        match self.memory.get_all(alloc, x, n)? {
            Some(cells) => Ok(cells),
            None => Ok(Vec::new(alloc)),
        }
    }

    /// `write`.
    #[tactic(auto, using(crate::proofs::CellLists::any_mapped))]
    fn write_call(&self, log: &mut Log, call: &CallArgs, fd: u32) -> Result<Made, Memory>
        requires { call.now.a1 + call.now.a2 ≤ 2 ^ 32 }
        ensures ok { IfOk result (λ made. IsMade (effect_row call.now (store_of self.now) (Effect.Write fd)) made (store_of self.now) (store_of self.now) log.old log.new) }
        ensures log_kept { OnErr result (log.new ≡ log.old) }
    {
        let alloc = *self.input.allocator();
        let cells = self.buffer(call.a1, call.a2)?;
        if has_stale(&cells) {
            return Ok(Made::Breaks(Kind::Stale));
        }
        if has_fragment(&cells) {
            return Ok(Made::Breaks(Kind::Fragment));
        }
        let bytes = bytes_of(alloc, &cells)?;
        noted(
            log,
            Event::Wrote { fd, bytes },
            answer(call, &Effect::Write { fd }),
        )
    }

    /// Moves the next bytes of the input, as cells, to an address.
    #[tactic(auto, unfolding(crate::specs::Views::store_of))]
    fn take_input(&mut self, x: u32, count: u32, cells: &[Cell])
        requires cells { map cell_of cells.now ≡ map Byte (take count (store_of self.old).input) }
        requires left { count ≤ length (store_of self.old).input }
        requires end { x + count ≤ 2 ^ 32 }
        requires ready { AreReady self.old.memory x (length cells.now) }
        ensures { store_of self.new ≡ with_input x count (store_of self.old) }
    {
        if count > 0 {
            self.read = end_of(&self.input, self.read, count as usize);
            self.put(x, cells);
        }
    }

    /// `read`.
    fn read_call(&mut self, log: &mut Log, call: &CallArgs, count: u32) -> Result<Made, Memory>
        requires left { count ≤ length (store_of self.old).input }
        requires end { call.now.a1 + count ≤ 2 ^ 32 }
        ensures ok { IfOk result (λ made. IsMade (effect_row call.now (store_of self.old) (Effect.Read count)) made (store_of self.old) (store_of self.new) log.old log.new) }
        ensures state_kept { OnErr result (store_of self.new ≡ store_of self.old) }
        ensures log_kept { OnErr result (log.new ≡ log.old) }
    {
        let alloc = *self.input.allocator();
        let input = &self.rest()[..count as usize];
        let bytes = Bytes::from_slice(alloc, input)?;
        let cells = cells_of(alloc, input)?;
        self.make_ready(call.a1, count)?;
        log.push(Event::Read { bytes })?;
        self.take_input(call.a1, count, &cells);
        Ok(Made::Gives(answer(call, &Effect::Read { count })))
    }

    /// A call of this effect.
    fn effect_row(
        &mut self,
        log: &mut Log,
        call: &CallArgs,
        effect: &Effect,
    ) -> Result<Made, Memory>
        requires allowed { IsAllowed call.now effect.now }
        requires readable { call.now.readable ≡ true → call.now.a1 + call.now.a2 ≤ 2 ^ 32 }
        requires writable { call.now.writable ≡ true → call.now.a1 + call.now.a2 ≤ 2 ^ 32 }
        requires left { call.now.left ≤ length (store_of self.old).input }
        ensures ok { IfOk result (λ made. IsMade (effect_row call.now (store_of self.old) effect.now) made (store_of self.old) (store_of self.new) log.old log.new) }
        ensures state_kept { OnErr result (store_of self.new ≡ store_of self.old) }
        ensures log_kept { OnErr result (log.new ≡ log.old) }
    {
        let value = answer(call, effect);
        match *effect {
            Effect::Exit { status } => Ok(Made::Ends(Halt::Exit(status))),
            Effect::Write { fd } => self.write_call(log, call, fd),
            Effect::Read { count } => self.read_call(log, call, count),
            Effect::Brk { answer: end } => noted(log, Event::Brk { answer: end }, value),
            Effect::Fail { code } => {
                let number = call.number;
                noted(log, Event::Failed { number, code }, value)
            }
            Effect::Ask => {
                let number = call.number;
                noted(log, Event::Asked { number }, value)
            }
        }
    }

    /// A call of this number, whose arguments are numbers. A buffer that meets text breaks.
    #[tactic(auto, using(crate::proofs::Effects::args_narrowed))]
    fn number_call(
        &mut self,
        setting: &Setting,
        log: &mut Log,
        number: u32,
        r: &CallOperands,
    ) -> Result<Made, Memory>
        ensures ok { IfOk result (λ made. IsMade (args_row (setting_of setting.now) (call_of (setting_of setting.now) number (operands_of r.now) (store_of self.old)) (store_of self.old)) made (store_of self.old) (store_of self.new) log.old log.new) }
        ensures state_kept { OnErr result (store_of self.new ≡ store_of self.old) }
        ensures log_kept { OnErr result (log.new ≡ log.old) }
    {
        let call = self.call_args(setting, number, r);
        if takes_buffer(&call) && setting.meets_text(call.a1, call.a2) {
            return Ok(Made::Breaks(Kind::Text));
        }
        let effect = effect(&call);
        self.effect_row(log, &call, &effect)
    }

    /// A call.
    pub fn call(
        &mut self,
        setting: &Setting,
        log: &mut Log,
        r: &CallOperands,
    ) -> Result<Made, Memory>
        ensures ok { IfOk result (λ made. IsMade (call_row (setting_of setting.now) (operands_of r.now) (store_of self.old)) made (store_of self.old) (store_of self.new) log.old log.new) }
        ensures state_kept { OnErr result (store_of self.new ≡ store_of self.old) }
        ensures log_kept { OnErr result (log.new ≡ log.old) }
    {
        match r.a7 {
            Value::Tagged(_) => Ok(Made::Breaks(Kind::Call)),
            Value::Num(number) => {
                if r.has_tagged(number) {
                    Ok(Made::Breaks(Kind::Call))
                } else {
                    self.number_call(setting, log, number, r)
                }
            }
        }
    }
}
