// The word of an instruction, by its format and its codes.
#![tactic(auto, unfolding(sq_isa::specs::Encoding::word_of))]

ghost use Rattle.std.specs.Prelude.{◌≡◌, ◌^◌, ◌<◌};
ghost use Rattle.sq_isa.specs.Ranges.{FieldsFit, ImmediateFits};
ghost use Rattle.sq_isa.specs.Encoding as encoding;
ghost use Rattle.sq_isa.specs.AtomicEncoding as atomic;

use crate::formats::{b_type, i_type, j_type, join, r_type, s_type, u_type};
use sq_isa::{AtomicOp, Cond, ImmOp, Insn, LoadKind, Reg, RegOp, StoreKind};

const OP_IMM: u32 = 0b0010011;

/// The word of an instruction: its format, with its opcode and its codes.
pub(crate) fn assemble(insn: &Insn) -> u32
    requires { FieldsFit insn.now }
    ensures { result ≡ encoding.word_of insn.now }
{
    match *insn {
        Insn::Lui { rd, upper } => u_type(0b0110111, rd, upper),
        Insn::Auipc { rd, upper } => u_type(0b0010111, rd, upper),
        Insn::Jal { rd, offset } => j_type(0b1101111, rd, offset),
        Insn::Jalr { rd, rs, offset } => i_type(0b1100111, rd, 0b000, rs, offset),
        Insn::Branch { cond, a, b, offset } => b_type(
            0b1100011,
            condition_code(cond),
            a,
            b,
            offset,
        ),
        Insn::Load {
            kind,
            rd,
            rs,
            offset,
        } => i_type(0b0000011, rd, load_code(kind), rs, offset),
        Insn::Store {
            kind,
            rs,
            src,
            offset,
        } => s_type(0b0100011, store_code(kind), rs, src, offset),
        Insn::OpImm { op, rd, rs, imm } => immediate_operation(op, rd, rs, imm),
        Insn::Op { op, rd, a, b } => operation(op, rd, a, b),
        Insn::Fence { word } | Insn::Unimp { word } => word,
        Insn::Ecall => 0x00000073,
        Insn::Ebreak => 0x00100073,
        Insn::Atomic {
            op,
            order,
            rd,
            rs,
            src,
        } => amo(op, order, rd, rs, src),
    }
}

fn condition_code(cond: Cond) -> u32
    ensures code { result ≡ encoding.condition_code cond }
    ensures range { result < 8 }
{
    match cond {
        Cond::Beq => 0b000,
        Cond::Bne => 0b001,
        Cond::Blt => 0b100,
        Cond::Bge => 0b101,
        Cond::Bltu => 0b110,
        Cond::Bgeu => 0b111,
    }
}

fn load_code(kind: LoadKind) -> u32
    ensures code { result ≡ encoding.load_code kind }
    ensures range { result < 8 }
{
    match kind {
        LoadKind::Lb => 0b000,
        LoadKind::Lh => 0b001,
        LoadKind::Lw => 0b010,
        LoadKind::Lbu => 0b100,
        LoadKind::Lhu => 0b101,
    }
}

fn store_code(kind: StoreKind) -> u32
    ensures code { result ≡ encoding.store_code kind }
    ensures range { result < 8 }
{
    match kind {
        StoreKind::Sb => 0b000,
        StoreKind::Sh => 0b001,
        StoreKind::Sw => 0b010,
    }
}

fn immediate_operation(op: ImmOp, rd: Reg, rs: Reg, imm: i32) -> u32
    requires { ImmediateFits op imm }
    ensures { result ≡ encoding.word_of (Insn.OpImm op rd rs imm) }
{
    match op {
        ImmOp::Addi => i_type(OP_IMM, rd, 0b000, rs, imm),
        ImmOp::Slti => i_type(OP_IMM, rd, 0b010, rs, imm),
        ImmOp::Sltiu => i_type(OP_IMM, rd, 0b011, rs, imm),
        ImmOp::Xori => i_type(OP_IMM, rd, 0b100, rs, imm),
        ImmOp::Ori => i_type(OP_IMM, rd, 0b110, rs, imm),
        ImmOp::Andi => i_type(OP_IMM, rd, 0b111, rs, imm),
        ImmOp::Slli => join(OP_IMM, rd.number(), 0b001, rs, imm as u32, 0b0000000),
        ImmOp::Srli => join(OP_IMM, rd.number(), 0b101, rs, imm as u32, 0b0000000),
        ImmOp::Srai => join(OP_IMM, rd.number(), 0b101, rs, imm as u32, 0b0100000),
    }
}

fn operation(op: RegOp, rd: Reg, a: Reg, b: Reg) -> u32
    ensures { result ≡ encoding.word_of (Insn.Op op rd a b) }
{
    let (funct7, funct3) = operation_codes(op);
    r_type(0b0110011, rd, funct3, a, b, funct7)
}

/// funct7 and funct3.
fn operation_codes(op: RegOp) -> (u32, u32)
    ensures codes { result ≡ encoding.operation_codes op }
    ensures funct7 { result.0 < 128 }
    ensures funct3 { result.1 < 8 }
{
    match op {
        RegOp::Add => (0b0000000, 0b000),
        RegOp::Sub => (0b0100000, 0b000),
        RegOp::Sll => (0b0000000, 0b001),
        RegOp::Slt => (0b0000000, 0b010),
        RegOp::Sltu => (0b0000000, 0b011),
        RegOp::Xor => (0b0000000, 0b100),
        RegOp::Srl => (0b0000000, 0b101),
        RegOp::Sra => (0b0100000, 0b101),
        RegOp::Or => (0b0000000, 0b110),
        RegOp::And => (0b0000000, 0b111),
        RegOp::Mul => (0b0000001, 0b000),
        RegOp::Mulh => (0b0000001, 0b001),
        RegOp::Mulhsu => (0b0000001, 0b010),
        RegOp::Mulhu => (0b0000001, 0b011),
        RegOp::Div => (0b0000001, 0b100),
        RegOp::Divu => (0b0000001, 0b101),
        RegOp::Rem => (0b0000001, 0b110),
        RegOp::Remu => (0b0000001, 0b111),
    }
}

fn amo(op: AtomicOp, order: u32, rd: Reg, rs: Reg, src: Reg) -> u32
    requires { order < 4 }
    ensures { result ≡ encoding.word_of (Insn.Atomic op order rd rs src) }
{
    r_type(
        0b0101111,
        rd,
        0b010,
        rs,
        src,
        (atomic_code(op) << 2) + order,
    )
}

/// The upper five bits of an atomic operation.
fn atomic_code(op: AtomicOp) -> u32
    ensures code { result ≡ atomic.atomic_code op }
    ensures range { result < 32 }
{
    match op {
        AtomicOp::Add => 0b00000,
        AtomicOp::Swap => 0b00001,
        AtomicOp::Lr => 0b00010,
        AtomicOp::Sc => 0b00011,
        AtomicOp::Xor => 0b00100,
        AtomicOp::Or => 0b01000,
        AtomicOp::And => 0b01100,
        AtomicOp::Min => 0b10000,
        AtomicOp::Max => 0b10100,
        AtomicOp::MinU => 0b11000,
        AtomicOp::MaxU => 0b11100,
    }
}
