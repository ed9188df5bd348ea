// Instructions as plain data. Names of operations are the RISC-V manual's mnemonics.

use crate::registers::Reg;

/// One instruction of RV32IMA. `upper` has 20 bits; offsets and immediates are sign extended; a branch's
/// and a jump's offset is in bytes from the instruction itself.
#[derive(Clone, Copy, Debug, PartialEq, Eq)]
pub enum Insn {
    Lui {
        rd: Reg,
        upper: u32,
    },
    Auipc {
        rd: Reg,
        upper: u32,
    },
    Jal {
        rd: Reg,
        offset: i32,
    },
    Jalr {
        rd: Reg,
        rs: Reg,
        offset: i32,
    },
    Branch {
        cond: Cond,
        a: Reg,
        b: Reg,
        offset: i32,
    },
    Load {
        kind: LoadKind,
        rd: Reg,
        rs: Reg,
        offset: i32,
    },
    Store {
        kind: StoreKind,
        rs: Reg,
        src: Reg,
        offset: i32,
    },
    OpImm {
        op: ImmOp,
        rd: Reg,
        rs: Reg,
        imm: i32,
    },
    Op {
        op: RegOp,
        rd: Reg,
        a: Reg,
        b: Reg,
    },
    /// FENCE with its whole word, since its fields have no effect.
    Fence {
        word: u32,
    },
    Ecall,
    Ebreak,
    /// A word that stands for no instruction: 0 or 0xc0001073, which toolchains put where nothing may run.
    Unimp {
        word: u32,
    },
    /// `order` is 2 for acquire, 1 for release and 3 for both; it has no effect where one thread runs.
    Atomic {
        op: AtomicOp,
        order: u32,
        rd: Reg,
        rs: Reg,
        src: Reg,
    },
}

/// What a branch tests.
#[derive(Clone, Copy, Debug, PartialEq, Eq)]
pub enum Cond {
    Beq,
    Bne,
    Blt,
    Bge,
    Bltu,
    Bgeu,
}

/// The width of a load, and how it is extended.
#[derive(Clone, Copy, Debug, PartialEq, Eq)]
pub enum LoadKind {
    Lb,
    Lh,
    Lw,
    Lbu,
    Lhu,
}

/// The width of a store.
#[derive(Clone, Copy, Debug, PartialEq, Eq)]
pub enum StoreKind {
    Sb,
    Sh,
    Sw,
}

/// An operation on a register and an immediate.
#[derive(Clone, Copy, Debug, PartialEq, Eq)]
pub enum ImmOp {
    Addi,
    Slti,
    Sltiu,
    Xori,
    Ori,
    Andi,
    Slli,
    Srli,
    Srai,
}

/// An operation on two registers.
#[derive(Clone, Copy, Debug, PartialEq, Eq)]
pub enum RegOp {
    Add,
    Sub,
    Sll,
    Slt,
    Sltu,
    Xor,
    Srl,
    Sra,
    Or,
    And,
    Mul,
    Mulh,
    Mulhsu,
    Mulhu,
    Div,
    Divu,
    Rem,
    Remu,
}

/// An atomic operation on a word of memory.
#[derive(Clone, Copy, Debug, PartialEq, Eq)]
pub enum AtomicOp {
    Lr,
    Sc,
    Swap,
    Add,
    Xor,
    And,
    Or,
    Min,
    Max,
    MinU,
    MaxU,
}
