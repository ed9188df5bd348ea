//! Operations and comparisons on tagged values. Where there is no answer, the run breaks.

ghost use Rattle.std.specs.Prelude.{◌≡◌, pos, option_map, Some, None, if◌then◌else◌};
ghost use Rattle.std.specs.Ordering.{int_eq};
ghost use Rattle.law_follow.specs.Arithmetic.{zero_is_outside_text, tagged_imm, imm_value, tagged_op, op_value, atomic_result, taken_against_code, is_taken, word_fits, is_upper_half};
ghost use Rattle.law_follow.specs.Values.{Num, Tagged};
ghost use Rattle.sq_tagged.specs.Views.{setting_of, tag_of, value_of};

use crate::setting::Setting;
use crate::values::{Tag, Value};
use sq_isa::{AtomicOp, Cond, ImmOp, Reg, RegOp, atomic_value, taken, value, value_imm};

/// Whether no address of code is 0.
fn zero_is_outside_text(setting: &Setting) -> bool
    ensures { result ≡ zero_is_outside_text (setting_of setting.now) }
{
    !setting.is_in_text(0)
}

/// A number where the test holds.
fn number_if(test: bool, number: u32) -> Option<Value>
    ensures { option_map value_of result ≡ (if test then Some (Num number) else None) }
{
    if test { Some(Value::Num(number)) } else { None }
}

/// `addi rd,rs,0` copies a tagged value.
fn copied(imm: i32, tag: Tag) -> Option<Value>
    ensures { option_map value_of result ≡ (if int_eq imm (pos 0) then Some (Tagged (tag_of tag)) else None) }
{
    if imm == 0 {
        Some(Value::Tagged(tag))
    } else {
        None
    }
}

/// An operation on a tagged value and an immediate: a copy, or `sltiu rd,rs,1`, which tells that an
/// address isn't 0.
fn tagged_imm(setting: &Setting, op: ImmOp, imm: i32, tag: Tag) -> Option<Value>
    ensures { option_map value_of result ≡ tagged_imm (setting_of setting.now) op imm (tag_of tag) }
{
    match op {
        ImmOp::Addi => copied(imm, tag),
        ImmOp::Sltiu => match tag {
            Tag::Code(_) | Tag::End => number_if(imm == 1 && zero_is_outside_text(setting), 0),
            Tag::Part { .. } => None,
        },
        ImmOp::Slti
        | ImmOp::Xori
        | ImmOp::Ori
        | ImmOp::Andi
        | ImmOp::Slli
        | ImmOp::Srli
        | ImmOp::Srai => None,
    }
}

/// An operation on a value and an immediate.
pub fn imm_value(setting: &Setting, op: ImmOp, imm: i32, operand: Value) -> Option<Value>
    ensures { option_map value_of result ≡ imm_value (setting_of setting.now) op imm (value_of operand) }
{
    match operand {
        Value::Num(x) => Some(Value::Num(value_imm(op, x, imm))),
        Value::Tagged(tag) => tagged_imm(setting, op, imm, tag),
    }
}

/// `sltu rd,x0,rs` tells that an address isn't 0. `a` is the first source register.
fn tagged_op(setting: &Setting, op: RegOp, a: Reg, tag: Tag) -> Option<Value>
    ensures { option_map value_of result ≡ tagged_op (setting_of setting.now) op a (tag_of tag) }
{
    match op {
        RegOp::Sltu => match tag {
            Tag::Code(_) | Tag::End => {
                number_if(a.number() == 0 && zero_is_outside_text(setting), 1)
            }
            Tag::Part { .. } => None,
        },
        RegOp::Add
        | RegOp::Sub
        | RegOp::Sll
        | RegOp::Slt
        | RegOp::Xor
        | RegOp::Srl
        | RegOp::Sra
        | RegOp::Or
        | RegOp::And
        | RegOp::Mul
        | RegOp::Mulh
        | RegOp::Mulhsu
        | RegOp::Mulhu
        | RegOp::Div
        | RegOp::Divu
        | RegOp::Rem
        | RegOp::Remu => None,
    }
}

/// An operation on two values. `a` is the first source register.
pub fn op_value(setting: &Setting, op: RegOp, a: Reg, first: Value, second: Value) -> Option<Value>
    ensures { option_map value_of result ≡ op_value (setting_of setting.now) op a (value_of first) (value_of second) }
{
    match first {
        Value::Num(x) => match second {
            Value::Num(y) => Some(Value::Num(value(op, x, y))),
            Value::Tagged(tag) => tagged_op(setting, op, a, tag),
        },
        Value::Tagged(_) => None,
    }
}

/// What an atomic operation that reads and writes leaves in memory.
pub fn atomic_result(op: AtomicOp, old: Value, src: Value) -> Option<Value>
    ensures { option_map value_of result ≡ atomic_result op (value_of old) (value_of src) }
{
    match op {
        AtomicOp::Swap => Some(src),
        AtomicOp::Lr
        | AtomicOp::Sc
        | AtomicOp::Add
        | AtomicOp::Xor
        | AtomicOp::And
        | AtomicOp::Or
        | AtomicOp::Min
        | AtomicOp::Max
        | AtomicOp::MinU
        | AtomicOp::MaxU => match (old, src) {
            (Value::Num(x), Value::Num(y)) => Some(Value::Num(atomic_value(op, x, y))),
            (Value::Num(_), Value::Tagged(_)) | (Value::Tagged(_), _) => None,
        },
    }
}

/// Whether a branch is taken that compares an address of code with a number: it isn't equal to 0.
fn taken_against_code(setting: &Setting, cond: Cond, x: u32) -> Option<bool>
    ensures { result ≡ taken_against_code (setting_of setting.now) cond x }
{
    let tells = x == 0 && zero_is_outside_text(setting);
    match cond {
        Cond::Beq if tells => Some(false),
        Cond::Bne if tells => Some(true),
        Cond::Beq | Cond::Bne | Cond::Blt | Cond::Bge | Cond::Bltu | Cond::Bgeu => None,
    }
}

/// Whether a branch is taken that compares a tagged value with a number.
fn taken_against(setting: &Setting, cond: Cond, tag: Tag, x: u32) -> Option<bool>
    ensures tagged { result ≡ is_taken (setting_of setting.now) cond (Tagged (tag_of tag)) (Num x) }
    ensures number { result ≡ is_taken (setting_of setting.now) cond (Num x) (Tagged (tag_of tag)) }
{
    match tag {
        Tag::Code(_) | Tag::End => taken_against_code(setting, cond, x),
        Tag::Part { .. } => None,
    }
}

/// Whether a branch is taken.
pub fn is_taken(setting: &Setting, cond: Cond, a: Value, b: Value) -> Option<bool>
    ensures { result ≡ is_taken (setting_of setting.now) cond (value_of a) (value_of b) }
{
    match (a, b) {
        (Value::Num(x), Value::Num(y)) => Some(taken(cond, x, y)),
        (Value::Num(x), Value::Tagged(tag)) | (Value::Tagged(tag), Value::Num(x)) => {
            taken_against(setting, cond, tag, x)
        }
        (Value::Tagged(_), Value::Tagged(_)) => None,
    }
}

/// Whether the word of an upper half and an immediate add up to the address.
fn word_fits(word: Option<u32>, to: u32, imm: i32) -> bool
    ensures { result ≡ word_fits word to imm }
{
    match word {
        None => true,
        Some(made) => made.wrapping_add(imm.cast_unsigned()) == to,
    }
}

/// Whether a value is the upper half that belongs to the lower half of this address in the immediate.
pub fn is_upper_half(to: u32, imm: i32, operand: Value) -> bool
    ensures { result ≡ is_upper_half to imm (value_of operand) }
{
    match operand {
        Value::Num(_) => false,
        Value::Tagged(tag) => match tag {
            Tag::Code(_) | Tag::End => false,
            Tag::Part { to: other, word } => other == to && word_fits(word, to, imm),
        },
    }
}
