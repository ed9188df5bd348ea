//! Registers, operations and instructions as texts.

use anyhow::{Result, anyhow};
use sq_isa::{AtomicOp, Insn, Reg};
use std::alloc::Global;
use std::fmt::Debug;

/// The names of the registers x0 to x31.
const NAMES: [&str; 32] = [
    "zero", "ra", "sp", "gp", "tp", "t0", "t1", "t2", "s0", "s1", "a0", "a1", "a2", "a3", "a4",
    "a5", "a6", "a7", "s2", "s3", "s4", "s5", "s6", "s7", "s8", "s9", "s10", "s11", "t3", "t4",
    "t5", "t6",
];

/// What stands behind the name of an atomic operation, by its order.
const ORDERS: [&str; 4] = ["", ".rl", ".aq", ".aqrl"];

/// The name of a register.
pub fn name(r: Reg) -> &'static str {
    NAMES.get(r.number() as usize).copied().unwrap_or("?")
}

/// The register of a name.
pub fn register(text: &str) -> Result<Reg> {
    let number = NAMES.iter().position(|name| *name == text);
    let number = number.ok_or(anyhow!("no register {text:?}"))?;
    Ok(Reg::from_low_bits(u32::try_from(number)?))
}

/// The name of an operation, which is that of its variant in small letters.
pub fn mnemonic<T: Debug>(alloc: Global, operation: &T) -> Result<String> {
    let mut text = format!(in alloc; "{operation:?}")?;
    text.make_ascii_lowercase();
    Ok(text)
}

/// The one of these operations that has this name.
pub fn named<T: Copy + Debug>(alloc: Global, all: &[T], text: &str) -> Result<T> {
    for operation in all {
        if mnemonic(alloc, operation)?.as_str() == text {
            return Ok(*operation);
        }
    }
    Err(anyhow!("no operation {text:?}"))
}

/// The name of an atomic operation and its order.
fn atomic_name(alloc: Global, op: AtomicOp, order: u32) -> Result<String> {
    let order = ORDERS.get(order as usize).copied().unwrap_or("?");
    let op = mnemonic(alloc, &op)?;
    Ok(match op.as_str() {
        "lr" | "sc" => format!(in alloc; "{op}.w{order}")?,
        _ => format!(in alloc; "amo{op}.w{order}")?,
    })
}

/// An instruction as an assembler reads it.
pub fn instruction(alloc: Global, insn: &Insn) -> Result<String> {
    Ok(match *insn {
        Insn::Lui { rd, upper } => format!(in alloc; "lui {},{upper:#x}", name(rd))?,
        Insn::Auipc { rd, upper } => format!(in alloc; "auipc {},{upper:#x}", name(rd))?,
        Insn::Jal { rd, offset } => format!(in alloc; "jal {},{offset}", name(rd))?,
        Insn::Jalr { rd, rs, offset } => {
            format!(in alloc; "jalr {},{offset}({})", name(rd), name(rs))?
        }
        Insn::Branch { cond, a, b, offset } => {
            format!(in alloc;
                "{} {},{},{offset}",
                mnemonic(alloc, &cond)?,
                name(a),
                name(b)
            )?
        }
        Insn::Load {
            kind,
            rd,
            rs,
            offset,
        } => {
            format!(in alloc;
                "{} {},{offset}({})",
                mnemonic(alloc, &kind)?,
                name(rd),
                name(rs)
            )?
        }
        Insn::Store {
            kind,
            rs,
            src,
            offset,
        } => {
            format!(in alloc;
                "{} {},{offset}({})",
                mnemonic(alloc, &kind)?,
                name(src),
                name(rs)
            )?
        }
        Insn::OpImm { op, rd, rs, imm } => {
            format!(in alloc; "{} {},{},{imm}", mnemonic(alloc, &op)?, name(rd), name(rs))?
        }
        Insn::Op { op, rd, a, b } => {
            format!(in alloc;
                "{} {},{},{}",
                mnemonic(alloc, &op)?,
                name(rd),
                name(a),
                name(b)
            )?
        }
        Insn::Fence { word } => format!(in alloc; "fence {word:#x}")?,
        Insn::Ecall => format!(in alloc; "ecall")?,
        Insn::Ebreak => format!(in alloc; "ebreak")?,
        Insn::Unimp { word } => format!(in alloc; "unimp {word:#x}")?,
        Insn::Atomic {
            op,
            order,
            rd,
            rs,
            src,
        } => {
            let op = atomic_name(alloc, op, order)?;
            format!(in alloc; "{op} {},{},({})", name(rd), name(src), name(rs))?
        }
    })
}
