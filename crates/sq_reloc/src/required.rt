//! What an entry in text asks of its instruction (RISC-V ELF psABI).

ghost use Rattle.std.specs.Prelude.{◌≡◌, ◌||◌};
ghost use Rattle.sq_reloc.specs.Required.{insn_at, reached_from, distance, is_branch_to, is_jal_to, is_lui, is_auipc, has_low_i, has_low_s, adds_pc, paired_target, paired_half, asked_half, meets_low_i, meets_low_s, is_upper_half, jumps_by, jumps_through_zero, is_pair, loads_upper, is_call_of_none, next_of, has_pair, has_call_of_none, agrees};

use crate::entry::Entry;
use crate::kinds::{BRANCH, HI20, JAL, LO12_I, LO12_S, PCREL_HI20, PCREL_LO12_I, PCREL_LO12_S};
use sq_decode::decode;
use sq_elf::Elf;
use sq_isa::{ImmOp, Insn, Reg};
use sq_num::{hi20, lo12};

/// The instruction at an address of the file.
fn insn_at(elf: &Elf<'_>, address: u32) -> Option<Insn>
    ensures { result ≡ insn_at elf.now address }
{
    match elf.word(address) {
        Some(word) => decode(word),
        None => None,
    }
}

/// The address that an offset from an instruction gives.
fn reached_from(address: u32, offset: i32) -> u32
    ensures { result ≡ reached_from address offset }
{
    address.wrapping_add_signed(offset)
}

/// How far the second address is from the first.
fn distance(from: u32, to: u32) -> u32
    ensures { result ≡ distance from to }
{
    to.wrapping_sub(from)
}

/// Whether it is a conditional branch from the address to the target.
fn is_branch_to(address: u32, target: u32, insn: Option<Insn>) -> bool
    ensures { result ≡ is_branch_to address target insn }
{
    match insn {
        Some(Insn::Branch { offset, .. }) => reached_from(address, offset) == target,
        _ => false,
    }
}

/// Whether it is a `jal` from the address to the target.
fn is_jal_to(address: u32, target: u32, insn: Option<Insn>) -> bool
    ensures { result ≡ is_jal_to address target insn }
{
    match insn {
        Some(Insn::Jal { offset, .. }) => reached_from(address, offset) == target,
        _ => false,
    }
}

/// Whether it is a `lui` with this upper half.
fn is_lui(half: u32, insn: Option<Insn>) -> bool
    ensures { result ≡ is_lui half insn }
{
    match insn {
        Some(Insn::Lui { upper, .. }) => upper == half,
        _ => false,
    }
}

/// Whether it is an `auipc` with this upper half.
fn is_auipc(half: u32, insn: Option<Insn>) -> bool
    ensures { result ≡ is_auipc half insn }
{
    match insn {
        Some(Insn::Auipc { upper, .. }) => upper == half,
        _ => false,
    }
}

/// Whether it is an `addi`, a load or a `jalr` with this lower half.
fn has_low_i(half: i32, insn: Option<Insn>) -> bool
    ensures { result ≡ has_low_i half insn }
{
    match insn {
        Some(
            Insn::OpImm {
                op: ImmOp::Addi,
                imm,
                ..
            },
        ) => imm == half,
        Some(Insn::Load { offset, .. }) => offset == half,
        Some(Insn::Jalr { offset, .. }) => offset == half,
        _ => false,
    }
}

/// Whether it is a store with this lower half.
fn has_low_s(half: i32, insn: Option<Insn>) -> bool
    ensures { result ≡ has_low_s half insn }
{
    match insn {
        Some(Insn::Store { offset, .. }) => offset == half,
        _ => false,
    }
}

/// Whether it is an `auipc`.
fn adds_pc(insn: Option<Insn>) -> bool
    ensures { result ≡ adds_pc insn }
{
    match insn {
        Some(Insn::Auipc { .. }) => true,
        _ => false,
    }
}

/// The target of a PCREL_LO12 from that of its upper half, or None where it is lone.
pub fn paired_target(entry: Entry, upper: Option<u32>) -> Option<u32>
    ensures { result ≡ paired_target entry upper }
{
    if entry.addend == 0 { upper } else { None }
}

/// The lower half that goes with the upper half at the address.
fn paired_half(elf: &Elf<'_>, address: u32, target: u32) -> i32
    ensures { result ≡ paired_half elf.now address target }
{
    if adds_pc(insn_at(elf, address)) {
        lo12(distance(address, target))
    } else {
        lo12(target)
    }
}

/// The lower half that a PCREL_LO12 asks for, or None where it is lone.
fn asked_half(elf: &Elf<'_>, entry: Entry, upper: Option<u32>) -> Option<i32>
    ensures { result ≡ asked_half elf.now entry upper }
{
    match paired_target(entry, upper) {
        Some(target) => Some(paired_half(elf, entry.value, target)),
        None => None,
    }
}

/// Whether the instruction is as a PCREL_LO12_I asks, which asks for nothing where it is lone.
fn meets_low_i(elf: &Elf<'_>, entry: Entry, upper: Option<u32>) -> bool
    ensures { result ≡ meets_low_i elf.now upper entry }
{
    match asked_half(elf, entry, upper) {
        Some(half) => has_low_i(half, insn_at(elf, entry.offset)),
        None => true,
    }
}

/// Whether the instruction is as a PCREL_LO12_S asks, which asks for nothing where it is lone.
fn meets_low_s(elf: &Elf<'_>, entry: Entry, upper: Option<u32>) -> bool
    ensures { result ≡ meets_low_s elf.now upper entry }
{
    match asked_half(elf, entry, upper) {
        Some(half) => has_low_s(half, insn_at(elf, entry.offset)),
        None => true,
    }
}

/// Whether it is a `jalr` through the register with this lower half.
fn jumps_by(register: Reg, half: i32, insn: Option<Insn>) -> bool
    ensures { result ≡ jumps_by register half insn }
{
    let Some(insn) = insn else {
        return false;
    };
    match insn {
        Insn::Jalr { rs, offset, .. } => rs == register && offset == half,
        _ => false,
    }
}

/// Whether it is a `jalr` through x0.
fn jumps_through_zero(insn: Option<Insn>) -> bool
    ensures { result ≡ jumps_through_zero insn }
{
    let Some(insn) = insn else {
        return false;
    };
    match insn {
        Insn::Jalr { rs, .. } => rs.number() == 0,
        _ => false,
    }
}

/// Whether the two instructions are a call of the target.
fn is_pair(address: u32, target: u32, first: Option<Insn>, second: Option<Insn>) -> bool
    ensures { result ≡ is_pair address target first second }
{
    let Some(first) = first else {
        return false;
    };
    match first {
        Insn::Auipc { rd, upper } => {
            let far = distance(address, target);
            upper == hi20(far) && jumps_by(rd, lo12(far), second)
        }
        Insn::Lui { rd, upper } => upper == hi20(target) && jumps_by(rd, lo12(target), second),
        _ => false,
    }
}

/// Whether it is an `auipc` or a `lui`.
fn loads_upper(insn: Option<Insn>) -> bool
    ensures { result ≡ loads_upper insn }
{
    match insn {
        Some(Insn::Auipc { .. }) | Some(Insn::Lui { .. }) => true,
        _ => false,
    }
}

/// Whether the two instructions are the call of an undefined weak symbol.
fn is_call_of_none(target: u32, first: Option<Insn>, second: Option<Insn>) -> bool
    ensures { result ≡ is_call_of_none target first second }
{
    target == 0 && loads_upper(first) && jumps_through_zero(second)
}

/// Whether a call's instructions are a pair for its target.
pub fn has_pair(elf: &Elf<'_>, entry: Entry) -> bool
    ensures { result ≡ has_pair elf.now entry }
{
    let first = insn_at(elf, entry.offset);
    let second = insn_at(elf, entry.offset.wrapping_add(4));
    is_pair(entry.offset, entry.target(), first, second)
}

/// Whether a call's instructions are those of the call of an undefined weak symbol.
fn has_call_of_none(elf: &Elf<'_>, entry: Entry) -> bool
    ensures { result ≡ has_call_of_none elf.now entry }
{
    let first = insn_at(elf, entry.offset);
    let second = insn_at(elf, entry.offset.wrapping_add(4));
    is_call_of_none(entry.target(), first, second)
}

/// Whether the instruction is as a PCREL_HI20 asks: an `auipc`, or a `lui` that a linker put in its place.
fn is_upper_half(elf: &Elf<'_>, address: u32, target: u32) -> bool
    ensures { result ≡ is_upper_half elf.now address target }
{
    is_auipc(hi20(distance(address, target)), insn_at(elf, address))
        || is_lui(hi20(target), insn_at(elf, address))
}

/// Whether a call's instructions are in one of their forms.
fn is_call_formed(elf: &Elf<'_>, entry: Entry) -> bool
    ensures { result ≡ (has_pair elf.now entry || has_call_of_none elf.now entry) }
{
    has_pair(elf, entry) || has_call_of_none(elf, entry)
}

/// Whether the word at an entry of a supported type is as the type asks. `upper` is the target of the
/// upper half of a PCREL_LO12.
#[tactic(auto, unfolding(crate::specs::Required::agrees))]
pub fn agrees(elf: &Elf<'_>, upper: Option<u32>, entry: Entry) -> bool
    ensures { result ≡ agrees elf.now upper entry }
{
    let address = entry.offset;
    let target = entry.target();
    let insn = insn_at(elf, address);
    match entry.kind {
        BRANCH => is_branch_to(address, target, insn),
        JAL => is_jal_to(address, target, insn),
        PCREL_HI20 => is_upper_half(elf, address, target),
        PCREL_LO12_I => meets_low_i(elf, entry, upper),
        PCREL_LO12_S => meets_low_s(elf, entry, upper),
        HI20 => is_lui(hi20(target), insn),
        LO12_I => has_low_i(lo12(target), insn),
        LO12_S => has_low_s(lo12(target), insn),
        _ => is_call_formed(elf, entry),
    }
}
