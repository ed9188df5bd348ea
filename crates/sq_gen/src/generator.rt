//! The file of a first number and a count of blocks.

ghost use Rattle.std.specs.Prelude.{◌≡◌, ◌+◌, ◌*◌, ◌%◌, ◌≤◌, ◌<◌, ◌^◌, ◌++◌, OnOk, IfOk};
ghost use Rattle.sq_gen.specs.Generated.{number_after, addition, call, block, last_words, words_from, generated};

use sq_encode::encode;
use sq_isa::{ImmOp, Insn, Reg};
use sq_num::Memory;
use sq_write::write_plain;
use std::alloc::Global;

/// The number behind x.
fn number_after(x: u32) -> u32
    ensures { result ≡ number_after x }
{
    x.wrapping_mul(1_664_525).wrapping_add(1_013_904_223)
}

/// The word that adds `n` to the register `from` into the register `to`.
fn addition(to: u32, from: u32, n: u32) -> u32
    requires { (to < 32) × (from < 32) × (n < 2 ^ 11) }
    ensures { result ≡ addition to from n }
{
    encode(&Insn::OpImm {
        op: ImmOp::Addi,
        rd: Reg::from_low_bits(to),
        rs: Reg::from_low_bits(from),
        imm: n as i32,
    })
}

/// The word that jumps `far` bytes on, and keeps the way back in a register.
fn call(link: u32, far: u32) -> u32
    requires { (link < 32) × (far < 2 ^ 20) × (far % 2 ≡ 0) }
    ensures { result ≡ call link far }
{
    encode(&Insn::Jal {
        rd: Reg::from_low_bits(link),
        offset: far as i32,
    })
}

/// Appends the block of a kind. F stands `far` bytes behind its call.
fn push_block(words: &mut Vec<u32>, kind: u32, far: u32) -> Result<(), Memory>
    requires { (kind < 16) × (far < 2 ^ 20) × (far % 2 ≡ 0) }
    ensures { OnOk result (words.new.items ≡ words.old.items ++ block kind far) }
{
    words.extend_from_slice(&[
        addition(10, 10, 16 * kind + 1),
        addition(11, 11, 16 * kind + 2),
        addition(12, 12, 16 * kind + 3),
        addition(13, 13, 16 * kind + 4),
        addition(14, 14, 16 * kind + 5),
        addition(15, 15, 16 * kind + 6),
        call(1, far),
    ])?;
    Ok(())
}

/// Appends what stands behind the blocks: the exit, and F.
fn push_last(words: &mut Vec<u32>) -> Result<(), Memory>
    ensures { OnOk result (words.new.items ≡ words.old.items ++ last_words) }
{
    let back = encode(&Insn::Jalr {
        rd: Reg::from_low_bits(0),
        rs: Reg::from_low_bits(1),
        offset: 0,
    });
    words.extend_from_slice(&[
        addition(17, 0, 93),
        addition(10, 0, 0),
        encode(&Insn::Ecall),
        call(0, 0),
        back,
    ])?;
    Ok(())
}

/// The words of the text.
fn words_from(alloc: Global, first: u32, blocks: u32) -> Result<Vec<u32>, Memory>
    requires { blocks ≤ 4000 }
    ensures { IfOk result (λ words. words.items ≡ words_from first blocks) }
{
    let mut words = Vec::with_capacity(alloc, 7 * blocks as usize + 5)?;
    let mut number = first;
    for left in (0..blocks).rev() {
        number = number_after(number);
        push_block(&mut words, number >> 28, 28 * left + 20)?;
    }
    push_last(&mut words)?;
    Ok(words)
}

/// The generated file of a first number and 1 to 4,000 blocks.
#[tactic(auto, using(crate::proofs::WordCounts::words_counted))]
pub fn generate(alloc: Global, first: u32, blocks: u32) -> Result<Vec<u8>, Memory>
    requires some { 1 ≤ blocks }
    requires few { blocks ≤ 4000 }
    ensures { IfOk result (λ file. file.items ≡ generated first blocks) }
{
    let words = words_from(alloc, first, blocks)?;
    write_plain(alloc, words.as_slice())
}
