//! What each instruction does on tagged values, by its row in the table.

ghost use Rattle.std.specs.Prelude.{◌≡◌, ◌+◌, ℕ, option_map, true, IfOk, OnErr};
ghost use Rattle.sq_isa.specs.Words.{wrapped, unsigned};
ghost use Rattle.law_follow.specs.Settings.{Store as Stored};
ghost use Rattle.law_follow.specs.Accesses.{gives_or_breaks, load_at, store_at, atomic_at};
ghost use Rattle.law_follow.specs.Rows.{Operands, address_value, at_number, at_upper_half, lower_row, plain_row, row_of};
ghost use Rattle.law_follow.specs.GraphRuns.{operands};
ghost use Rattle.sq_tagged.specs.Rows.{is_access, IsQuiet, IsMade};
ghost use Rattle.sq_tagged.specs.Views.{setting_of, store_of, registers_of, value_of, half_in};

use crate::arithmetic::{imm_value, is_upper_half, op_value};
use crate::calls::CallOperands;
use crate::made::Made;
use crate::registers::Registers;
use crate::setting::Setting;
use crate::store::Store;
use crate::values::{Tag, Value};
use law_follow::Kind;
use sq_isa::{AtomicOp, ImmOp, Insn, LoadKind, Reg, StoreKind};
use sq_num::Memory;
use sq_system::Log;

/// Which half of an address an instruction has in place of its immediate.
#[derive(Clone, Copy, Debug, PartialEq, Eq)]
pub enum AddressHalf {
    Plain,
    /// The upper half, and the word that the instruction makes, if it makes one.
    Upper { to: u32, word: Option<u32> },
    Lower(u32),
}

/// The address `to`: a number where it isn't in text.
fn address_value(setting: &Setting, to: u32) -> Value
    ensures { value_of result ≡ address_value (setting_of setting.now) to }
{
    if setting.is_in_text(to) {
        Value::Tagged(Tag::Code(to))
    } else {
        Value::Num(to)
    }
}

/// The value, or a break where there is none.
fn gives_or_breaks(kind: Kind, value: Option<Value>) -> Made
    ensures { (store : Stored) → IsQuiet (gives_or_breaks kind (option_map value_of value) store) result store store }
{
    match value {
        Some(value) => Made::Gives(value),
        None => Made::Breaks(kind),
    }
}

/// A load at what a register holds plus an offset.
fn load_row(setting: &Setting, store: &Store, kind: LoadKind, base: Value, offset: i32) -> Made
    ensures { IsQuiet (at_number (value_of base) (λ x. load_at (setting_of setting.now) kind (wrapped (x + unsigned offset)) (store_of store.now))) result (store_of store.now) (store_of store.now) }
{
    match base {
        Value::Num(x) => store.load(setting, kind, x.wrapping_add(offset.cast_unsigned())),
        Value::Tagged(_) => Made::Breaks(Kind::Address),
    }
}

/// A store at what a register holds plus an offset.
fn store_row(
    setting: &Setting,
    store: &mut Store,
    kind: StoreKind,
    base: Value,
    src: Value,
    offset: i32,
) -> Result<Made, Memory>
    ensures ok { IfOk result (λ made. IsQuiet (at_number (value_of base) (λ x. store_at (setting_of setting.now) kind (value_of src) (wrapped (x + unsigned offset)) (store_of store.old))) made (store_of store.old) (store_of store.new)) }
    ensures kept { OnErr result (store_of store.new ≡ store_of store.old) }
{
    match base {
        Value::Num(x) => store.store(setting, kind, src, x.wrapping_add(offset.cast_unsigned())),
        Value::Tagged(_) => Ok(Made::Breaks(Kind::Address)),
    }
}

/// An atomic operation at what a register holds.
fn atomic_row(
    setting: &Setting,
    store: &mut Store,
    op: AtomicOp,
    at: Value,
    src: Value,
) -> Result<Made, Memory>
    ensures ok { IfOk result (λ made. IsQuiet (at_number (value_of at) (λ x. atomic_at (setting_of setting.now) op x (value_of src) (store_of store.old))) made (store_of store.old) (store_of store.new)) }
    ensures kept { OnErr result (store_of store.new ≡ store_of store.old) }
{
    match at {
        Value::Num(x) => store.atomic(setting, op, x, src),
        Value::Tagged(_) => Ok(Made::Breaks(Kind::Address)),
    }
}

/// The lower half of an address in an operation on an immediate: only `addi` holds one.
fn lower_operation(setting: &Setting, to: u32, op: ImmOp, imm: i32, operand: Value) -> Made
    ensures { (rd rs : ℕ) (rest : Operands) (store : Stored) → rest 0 ≡ value_of operand → IsQuiet (lower_row (setting_of setting.now) to (Insn.OpImm op rd rs imm) rest store) result store store }
{
    match op {
        ImmOp::Addi => {
            if is_upper_half(to, imm, operand) {
                Made::Gives(address_value(setting, to))
            } else {
                Made::Breaks(Kind::Half)
            }
        }
        ImmOp::Slti
        | ImmOp::Sltiu
        | ImmOp::Xori
        | ImmOp::Ori
        | ImmOp::Andi
        | ImmOp::Slli
        | ImmOp::Srli
        | ImmOp::Srai => Made::Breaks(Kind::Half),
    }
}

/// A load whose immediate is the lower half of an address.
fn lower_load(
    setting: &Setting,
    store: &Store,
    to: u32,
    kind: LoadKind,
    base: Value,
    imm: i32,
) -> Made
    ensures { IsQuiet (at_upper_half to imm (value_of base) (load_at (setting_of setting.now) kind to (store_of store.now))) result (store_of store.now) (store_of store.now) }
{
    if is_upper_half(to, imm, base) {
        store.load(setting, kind, to)
    } else {
        Made::Breaks(Kind::Half)
    }
}

/// A store whose immediate is the lower half of an address.
fn lower_store(
    setting: &Setting,
    store: &mut Store,
    to: u32,
    kind: StoreKind,
    base: Value,
    src: Value,
    imm: i32,
) -> Result<Made, Memory>
    ensures ok { IfOk result (λ made. IsQuiet (at_upper_half to imm (value_of base) (store_at (setting_of setting.now) kind (value_of src) to (store_of store.old))) made (store_of store.old) (store_of store.new)) }
    ensures kept { OnErr result (store_of store.new ≡ store_of store.old) }
{
    if is_upper_half(to, imm, base) {
        store.store(setting, kind, src, to)
    } else {
        Ok(Made::Breaks(Kind::Half))
    }
}

/// An instruction whose immediate is the lower half of an address.
fn lower_row(
    setting: &Setting,
    registers: &Registers,
    store: &mut Store,
    to: u32,
    insn: &Insn,
) -> Result<Made, Memory>
    ensures ok { IfOk result (λ made. IsQuiet (lower_row (setting_of setting.now) to insn.now (operands insn.now (registers_of registers.now)) (store_of store.old)) made (store_of store.old) (store_of store.new)) }
    ensures kept { OnErr result (store_of store.new ≡ store_of store.old) }
{
    match *insn {
        Insn::OpImm { op, rs, imm, .. } => Ok(lower_operation(
            setting,
            to,
            op,
            imm,
            registers.get(rs),
        )),
        Insn::Load {
            kind,
            rs,
            offset,
            ..
        } => Ok(lower_load(setting, store, to, kind, registers.get(rs), offset)),
        Insn::Store {
            kind,
            rs,
            src,
            offset,
        } => lower_store(
            setting,
            store,
            to,
            kind,
            registers.get(rs),
            registers.get(src),
            offset,
        ),
        Insn::Lui { .. }
        | Insn::Auipc { .. }
        | Insn::Jal { .. }
        | Insn::Jalr { .. }
        | Insn::Branch { .. }
        | Insn::Op { .. }
        | Insn::Fence { .. }
        | Insn::Ecall
        | Insn::Ebreak
        | Insn::Unimp { .. }
        | Insn::Atomic { .. } => Ok(Made::Breaks(Kind::Half)),
    }
}

/// A system call.
fn call_row(
    setting: &Setting,
    registers: &Registers,
    store: &mut Store,
    log: &mut Log,
) -> Result<Made, Memory>
    ensures ok { IfOk result (λ made. IsMade (plain_row (setting_of setting.now) Insn.Ecall (operands Insn.Ecall (registers_of registers.now)) (store_of store.old)) made (store_of store.old) (store_of store.new) log.old log.new) }
    ensures store_kept { OnErr result (store_of store.new ≡ store_of store.old) }
    ensures log_kept { OnErr result (log.new ≡ log.old) }
{
    let operands = CallOperands {
        a0: registers.get(Reg::A0),
        a1: registers.get(Reg::A1),
        a2: registers.get(Reg::A2),
        a7: registers.get(Reg::A7),
    };
    store.call(setting, log, &operands)
}

/// A load, a store or an atomic operation without a half of an address.
fn access_row(
    setting: &Setting,
    registers: &Registers,
    store: &mut Store,
    insn: &Insn,
) -> Result<Made, Memory>
    requires { is_access insn.now ≡ true }
    ensures ok { IfOk result (λ made. IsQuiet (plain_row (setting_of setting.now) insn.now (operands insn.now (registers_of registers.now)) (store_of store.old)) made (store_of store.old) (store_of store.new)) }
    ensures kept { OnErr result (store_of store.new ≡ store_of store.old) }
{
    match *insn {
        Insn::Load {
            kind,
            rs,
            offset,
            ..
        } => Ok(load_row(setting, store, kind, registers.get(rs), offset)),
        Insn::Store {
            kind,
            rs,
            src,
            offset,
        } => store_row(
            setting,
            store,
            kind,
            registers.get(rs),
            registers.get(src),
            offset,
        ),
        Insn::Atomic { op, rs, src, .. } => atomic_row(
            setting,
            store,
            op,
            registers.get(rs),
            registers.get(src),
        ),
        Insn::Lui { .. }
        | Insn::Auipc { .. }
        | Insn::Jal { .. }
        | Insn::Jalr { .. }
        | Insn::Branch { .. }
        | Insn::OpImm { .. }
        | Insn::Op { .. }
        | Insn::Fence { .. }
        | Insn::Ecall
        | Insn::Ebreak
        | Insn::Unimp { .. } => Ok(Made::Breaks(Kind::Half)),
    }
}

/// An instruction without a half of an address.
#[tactic(auto, using(crate::proofs::QuietRows::quiet))]
fn plain_row(
    setting: &Setting,
    registers: &Registers,
    store: &mut Store,
    log: &mut Log,
    insn: &Insn,
) -> Result<Made, Memory>
    ensures ok { IfOk result (λ made. IsMade (plain_row (setting_of setting.now) insn.now (operands insn.now (registers_of registers.now)) (store_of store.old)) made (store_of store.old) (store_of store.new) log.old log.new) }
    ensures store_kept { OnErr result (store_of store.new ≡ store_of store.old) }
    ensures log_kept { OnErr result (log.new ≡ log.old) }
{
    match *insn {
        Insn::Lui { upper, .. } => Ok(Made::Gives(Value::Num(upper << 12))),
        Insn::OpImm { op, rs, imm, .. } => Ok(gives_or_breaks(
            Kind::Arithmetic,
            imm_value(setting, op, imm, registers.get(rs)),
        )),
        Insn::Op { op, a, b, .. } => Ok(gives_or_breaks(
            Kind::Arithmetic,
            op_value(setting, op, a, registers.get(a), registers.get(b)),
        )),
        Insn::Load { .. } | Insn::Store { .. } | Insn::Atomic { .. } => {
            let made = access_row(setting, registers, store, insn)?;
            Ok(made)
        }
        Insn::Fence { .. } => Ok(Made::Gives(Value::Num(0))),
        Insn::Ecall => call_row(setting, registers, store, log),
        Insn::Auipc { .. }
        | Insn::Jal { .. }
        | Insn::Jalr { .. }
        | Insn::Branch { .. }
        | Insn::Ebreak
        | Insn::Unimp { .. } => Ok(Made::Breaks(Kind::Half)),
    }
}

/// What an instruction that goes on to the next one makes: a value for its destination, an end or a break. An end, a
/// break and want of memory change nothing; an event goes to the log.
#[tactic(auto, using(crate::proofs::QuietRows::quiet))]
pub fn row(
    setting: &Setting,
    registers: &Registers,
    store: &mut Store,
    log: &mut Log,
    half: AddressHalf,
    insn: &Insn,
) -> Result<Made, Memory>
    ensures ok { IfOk result (λ made. IsMade (row_of (setting_of setting.now) (half_in half) insn.now (operands insn.now (registers_of registers.now)) (store_of store.old)) made (store_of store.old) (store_of store.new) log.old log.new) }
    ensures store_kept { OnErr result (store_of store.new ≡ store_of store.old) }
    ensures log_kept { OnErr result (log.new ≡ log.old) }
{
    match half {
        AddressHalf::Plain => plain_row(setting, registers, store, log, insn),
        AddressHalf::Upper { to, word } => {
            Ok(Made::Gives(Value::Tagged(Tag::Part { to, word })))
        }
        AddressHalf::Lower(to) => {
            let made = lower_row(setting, registers, store, to, insn)?;
            Ok(made)
        }
    }
}
