// The instructions that share an opcode.

ghost use Rattle.std.specs.Prelude.{◌≡◌};
ghost use Rattle.sq_isa.specs.Table.{jalr_of, branch_of, load_of, store_of, shift_operation_of, op_imm_of, operation_of, op_of, fence_of, system_of, amo_of, zero_of};
ghost use Rattle.sq_isa.specs.Fields as field;
ghost use Rattle.sq_isa.specs.Codes.{coded_by, conditions, loads, stores, immediate_operations, shifts, arithmetic_shifts, operations, alternate_operations, multiplications};
ghost use Rattle.sq_isa.specs.AtomicCodes.{atomic_operations};

use crate::fields::{funct3, funct7, immediate_b, immediate_i, immediate_s, rd, rs1, rs2};
use sq_isa::{AtomicOp, Cond, ImmOp, Insn, LoadKind, RegOp, StoreKind};

pub(crate) fn jalr(word: u32) -> Option<Insn>
    ensures { result ≡ jalr_of word }
{
    if funct3(word) != 0 {
        return None;
    }
    Some(Insn::Jalr {
        rd: rd(word),
        rs: rs1(word),
        offset: immediate_i(word),
    })
}

pub(crate) fn branch(word: u32) -> Option<Insn>
    ensures { result ≡ branch_of word }
{
    Some(Insn::Branch {
        cond: condition(funct3(word))?,
        a: rs1(word),
        b: rs2(word),
        offset: immediate_b(word),
    })
}

fn condition(code: u32) -> Option<Cond>
    ensures { result ≡ coded_by conditions code }
{
    match code {
        0b000 => Some(Cond::Beq),
        0b001 => Some(Cond::Bne),
        0b100 => Some(Cond::Blt),
        0b101 => Some(Cond::Bge),
        0b110 => Some(Cond::Bltu),
        0b111 => Some(Cond::Bgeu),
        _ => None,
    }
}

pub(crate) fn load(word: u32) -> Option<Insn>
    ensures { result ≡ load_of word }
{
    let kind = match funct3(word) {
        0b000 => LoadKind::Lb,
        0b001 => LoadKind::Lh,
        0b010 => LoadKind::Lw,
        0b100 => LoadKind::Lbu,
        0b101 => LoadKind::Lhu,
        _ => return None,
    };
    Some(Insn::Load {
        kind,
        rd: rd(word),
        rs: rs1(word),
        offset: immediate_i(word),
    })
}

pub(crate) fn store(word: u32) -> Option<Insn>
    ensures { result ≡ store_of word }
{
    let kind = match funct3(word) {
        0b000 => StoreKind::Sb,
        0b001 => StoreKind::Sh,
        0b010 => StoreKind::Sw,
        _ => return None,
    };
    Some(Insn::Store {
        kind,
        rs: rs1(word),
        src: rs2(word),
        offset: immediate_s(word),
    })
}

pub(crate) fn op_imm(word: u32) -> Option<Insn>
    ensures { result ≡ op_imm_of word }
{
    match funct3(word) {
        0b001 | 0b101 => Some(Insn::OpImm {
            op: shift_operation(word)?,
            rd: rd(word),
            rs: rs1(word),
            imm: rs2(word).number() as i32,
        }),
        code => Some(Insn::OpImm {
            op: immediate_operation(code)?,
            rd: rd(word),
            rs: rs1(word),
            imm: immediate_i(word),
        }),
    }
}

fn immediate_operation(code: u32) -> Option<ImmOp>
    ensures { result ≡ coded_by immediate_operations code }
{
    match code {
        0b000 => Some(ImmOp::Addi),
        0b010 => Some(ImmOp::Slti),
        0b011 => Some(ImmOp::Sltiu),
        0b100 => Some(ImmOp::Xori),
        0b110 => Some(ImmOp::Ori),
        0b111 => Some(ImmOp::Andi),
        _ => None,
    }
}

fn shift_operation(word: u32) -> Option<ImmOp>
    ensures { result ≡ shift_operation_of word }
{
    match (funct7(word), funct3(word)) {
        (0b0000000, 0b001) => Some(ImmOp::Slli),
        (0b0000000, 0b101) => Some(ImmOp::Srli),
        (0b0100000, 0b101) => Some(ImmOp::Srai),
        _ => None,
    }
}

pub(crate) fn op(word: u32) -> Option<Insn>
    ensures { result ≡ op_of word }
{
    Some(Insn::Op {
        op: operation(word)?,
        rd: rd(word),
        a: rs1(word),
        b: rs2(word),
    })
}

fn operation(word: u32) -> Option<RegOp>
    ensures { result ≡ operation_of word }
{
    let code = funct3(word);
    match funct7(word) {
        0b0000000 => base_operation(code),
        0b0100000 => alternate_operation(code),
        0b0000001 => multiplication(code),
        _ => None,
    }
}

fn base_operation(code: u32) -> Option<RegOp>
    ensures { result ≡ coded_by operations code }
{
    match code {
        0b000 => Some(RegOp::Add),
        0b001 => Some(RegOp::Sll),
        0b010 => Some(RegOp::Slt),
        0b011 => Some(RegOp::Sltu),
        0b100 => Some(RegOp::Xor),
        0b101 => Some(RegOp::Srl),
        0b110 => Some(RegOp::Or),
        0b111 => Some(RegOp::And),
        _ => None,
    }
}

fn alternate_operation(code: u32) -> Option<RegOp>
    ensures { result ≡ coded_by alternate_operations code }
{
    match code {
        0b000 => Some(RegOp::Sub),
        0b101 => Some(RegOp::Sra),
        _ => None,
    }
}

fn multiplication(code: u32) -> Option<RegOp>
    ensures { result ≡ coded_by multiplications code }
{
    match code {
        0b000 => Some(RegOp::Mul),
        0b001 => Some(RegOp::Mulh),
        0b010 => Some(RegOp::Mulhsu),
        0b011 => Some(RegOp::Mulhu),
        0b100 => Some(RegOp::Div),
        0b101 => Some(RegOp::Divu),
        0b110 => Some(RegOp::Rem),
        0b111 => Some(RegOp::Remu),
        _ => None,
    }
}

pub(crate) fn fence(word: u32) -> Option<Insn>
    ensures { result ≡ fence_of word }
{
    if funct3(word) == 0 {
        Some(Insn::Fence { word })
    } else {
        None
    }
}

pub(crate) fn system(word: u32) -> Option<Insn>
    ensures { result ≡ system_of word }
{
    match word {
        0x00000073 => Some(Insn::Ecall),
        0x00100073 => Some(Insn::Ebreak),
        0xc0001073 => Some(Insn::Unimp { word }),
        _ => None,
    }
}

pub(crate) fn amo(word: u32) -> Option<Insn>
    ensures { result ≡ amo_of word }
{
    if funct3(word) != 0b010 {
        return None;
    }
    let code = word >> 27;
    let src = rs2(word);
    if code == 0b00010 && src.number() != 0 {
        return None;
    }
    Some(Insn::Atomic {
        op: atomic_operation(code)?,
        order: word >> 25 & 3,
        rd: rd(word),
        rs: rs1(word),
        src,
    })
}

fn atomic_operation(code: u32) -> Option<AtomicOp>
    ensures { result ≡ coded_by atomic_operations code }
{
    match code {
        0b00000 => Some(AtomicOp::Add),
        0b00001 => Some(AtomicOp::Swap),
        0b00010 => Some(AtomicOp::Lr),
        0b00011 => Some(AtomicOp::Sc),
        0b00100 => Some(AtomicOp::Xor),
        0b01000 => Some(AtomicOp::Or),
        0b01100 => Some(AtomicOp::And),
        0b10000 => Some(AtomicOp::Min),
        0b10100 => Some(AtomicOp::Max),
        0b11000 => Some(AtomicOp::MinU),
        0b11100 => Some(AtomicOp::MaxU),
        _ => None,
    }
}

pub(crate) fn zero(word: u32) -> Option<Insn>
    ensures { result ≡ zero_of word }
{
    if word == 0 {
        Some(Insn::Unimp { word })
    } else {
        None
    }
}
