// The values of instructions: the registers and the instructions of RV32I with the extensions M and A.
// A register is its number, a set of registers tells what it has, and an instruction is plain data.
// What an instruction computes, compares, reads, writes and mentions is its row in the RISC-V manual's tables,
// which stand in `specs/`. There too is the table of words: `insn_of` from a word to its instruction and
// `word_of` back, which the decoder and the encoder meet; that each undoes the other is proved here.
#![tactic(auto)]

pub mod instructions;
pub mod ranges;
pub mod registers;
pub mod uses;
pub mod values;

pub use instructions::{AtomicOp, Cond, ImmOp, Insn, LoadKind, RegOp, StoreKind};
pub use ranges::fits;
pub use registers::{Reg, RegSet};
pub use uses::{mentions, reads, writes};
pub use values::{atomic_value, inverse, taken, value, value_imm};
