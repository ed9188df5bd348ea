//! Instructions as words, and what they compute, read, write and hold.

use crate::texts::{instruction, name, named};
use crate::words::{number, operand, shown, two};
use anyhow::{Result, anyhow};
use sq_cases::hexadecimal;
use sq_decode::decode;
use sq_encode::encode;
use sq_isa::{
    AtomicOp, Cond, ImmOp, Insn, LoadKind, Reg, RegOp, RegSet, StoreKind, atomic_value, fits,
    inverse, mentions, reads, taken, value, value_imm, writes,
};
use std::alloc::Global;

const CONDS: [Cond; 6] = [
    Cond::Beq,
    Cond::Bne,
    Cond::Blt,
    Cond::Bge,
    Cond::Bltu,
    Cond::Bgeu,
];

const IMM_OPS: [ImmOp; 9] = [
    ImmOp::Addi,
    ImmOp::Slti,
    ImmOp::Sltiu,
    ImmOp::Xori,
    ImmOp::Ori,
    ImmOp::Andi,
    ImmOp::Slli,
    ImmOp::Srli,
    ImmOp::Srai,
];

const REG_OPS: [RegOp; 18] = [
    RegOp::Add,
    RegOp::Sub,
    RegOp::Sll,
    RegOp::Slt,
    RegOp::Sltu,
    RegOp::Xor,
    RegOp::Srl,
    RegOp::Sra,
    RegOp::Or,
    RegOp::And,
    RegOp::Mul,
    RegOp::Mulh,
    RegOp::Mulhsu,
    RegOp::Mulhu,
    RegOp::Div,
    RegOp::Divu,
    RegOp::Rem,
    RegOp::Remu,
];

const ATOMIC_OPS: [AtomicOp; 11] = [
    AtomicOp::Lr,
    AtomicOp::Sc,
    AtomicOp::Swap,
    AtomicOp::Add,
    AtomicOp::Xor,
    AtomicOp::And,
    AtomicOp::Or,
    AtomicOp::Min,
    AtomicOp::Max,
    AtomicOp::MinU,
    AtomicOp::MaxU,
];

/// What a verb on instructions finds, or None for another verb.
pub fn told(alloc: Global, verb: &str, words: &str) -> Result<Option<String>> {
    Ok(Some(match verb {
        "instruction" => decoded(alloc, words)?,
        "value" | "immediate" | "atomic" | "branch" => computed(alloc, verb, words)?,
        "reads" | "writes" | "mentions" => used(alloc, verb, words)?,
        "fits" => fits_told(alloc, words)?,
        "register" => register_told(alloc, words)?,
        _ => return Ok(None),
    }))
}

/// The instruction of a word, which must give the word back.
fn decoded(alloc: Global, word: &str) -> Result<String> {
    let word = hexadecimal(word)?;
    match decode(word) {
        None => Ok(String::from_str(alloc, "none")?),
        Some(insn) if fits(&insn) && encode(&insn) == word => instruction(alloc, &insn),
        Some(insn) => Err(anyhow!("{insn:?} has another word")),
    }
}

/// What an operation computes of two numbers. Of a branch: whether it is taken, and whether its inverse is.
fn computed(alloc: Global, verb: &str, words: &str) -> Result<String> {
    let (operation, words) = two(words)?;
    let (a, b) = two(words)?;
    let (a, b) = (hexadecimal(a)?, operand(b)?);
    match verb {
        "value" => {
            let op = named(alloc, &REG_OPS, operation)?;
            shown(alloc, Some(value(op, a, b)))
        }
        "immediate" => {
            let op = named(alloc, &IMM_OPS, operation)?;
            shown(alloc, Some(value_imm(op, a, b.cast_signed())))
        }
        "atomic" => {
            let op = named(alloc, &ATOMIC_OPS, operation)?;
            shown(alloc, Some(atomic_value(op, a, b)))
        }
        _ => {
            let cond = named(alloc, &CONDS, operation)?;
            let (taken, inverse) = (taken(cond, a, b), taken(inverse(cond), a, b));
            Ok(format!(in alloc; "{taken} {inverse}")?)
        }
    }
}

/// The register of a number.
fn register_told(alloc: Global, words: &str) -> Result<String> {
    let register = Reg::new(number(words)?);
    Ok(String::from_str(alloc, register.map_or("none", name))?)
}

/// Whether an instruction can have a number in a field.
fn fits_told(alloc: Global, words: &str) -> Result<String> {
    let (field, text) = two(words)?;
    let insn = with_field(field, number(text)?)?;
    Ok(format!(in alloc; "{}", fits(&insn))?)
}

/// The registers that the instruction of a word reads, writes or mentions.
fn used(alloc: Global, verb: &str, word: &str) -> Result<String> {
    let insn = decode(hexadecimal(word)?).ok_or(anyhow!("no instruction"))?;
    let registers = match verb {
        "reads" => reads(&insn),
        "writes" => writes(&insn),
        _ => mentions(&insn),
    };
    listed(alloc, registers)
}

/// The names of the registers of a set, or `-`.
fn listed(alloc: Global, registers: RegSet) -> Result<String> {
    let mut text = String::new(alloc);
    for number in 0..32 {
        let register = Reg::from_low_bits(number);
        if registers.has(register) {
            text.push_str(if text.is_empty() { "" } else { " " })?;
            text.push_str(name(register))?;
        }
    }
    text.push_str(if text.is_empty() { "-" } else { "" })?;
    Ok(text)
}

/// An instruction with a number in one of its fields.
fn with_field(field: &str, number: u32) -> Result<Insn> {
    let (rd, rs, offset) = (Reg::A0, Reg::A1, number.cast_signed());
    let x0 = Reg::from_low_bits(0);
    Ok(match field {
        "lui" => Insn::Lui { rd, upper: number },
        "auipc" => Insn::Auipc { rd, upper: number },
        "jal" => Insn::Jal { rd, offset },
        "jalr" => Insn::Jalr { rd, rs, offset },
        "branch" => Insn::Branch {
            cond: Cond::Beq,
            a: rd,
            b: rs,
            offset,
        },
        "load" => Insn::Load {
            kind: LoadKind::Lw,
            rd,
            rs,
            offset,
        },
        "store" => Insn::Store {
            kind: StoreKind::Sw,
            rs,
            src: rd,
            offset,
        },
        "addi" => Insn::OpImm {
            op: ImmOp::Addi,
            rd,
            rs,
            imm: offset,
        },
        "slli" => Insn::OpImm {
            op: ImmOp::Slli,
            rd,
            rs,
            imm: offset,
        },
        "fence" => Insn::Fence { word: number },
        "unimp" => Insn::Unimp { word: number },
        "order" => Insn::Atomic {
            op: AtomicOp::Lr,
            order: number,
            rd,
            rs,
            src: x0,
        },
        "lr" => Insn::Atomic {
            op: AtomicOp::Lr,
            order: 0,
            rd,
            rs,
            src: Reg::from_low_bits(number),
        },
        "sc" => Insn::Atomic {
            op: AtomicOp::Sc,
            order: 0,
            rd,
            rs,
            src: Reg::from_low_bits(number),
        },
        _ => return Err(anyhow!("no field {field:?}")),
    })
}
