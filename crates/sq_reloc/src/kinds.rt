//! Relocation types (RISC-V ELF psABI), and the bytes that an entry touches.

ghost use Rattle.std.specs.Prelude.{◌≡◌, ◌≤◌, ◌+◌, ◌^◌};
ghost use Rattle.sq_reloc.specs.Kinds.{is_ignored, is_data_kind, is_call, is_paired, is_text_kind, width_of, touches, touches_word};

use crate::entry::Entry;

pub const NONE: u32 = 0;

pub const ABSOLUTE_32: u32 = 1;

pub const ABSOLUTE_64: u32 = 2;

pub const BRANCH: u32 = 16;

pub const JAL: u32 = 17;

pub const CALL: u32 = 18;

pub const CALL_PLT: u32 = 19;

pub const PCREL_HI20: u32 = 23;

pub const PCREL_LO12_I: u32 = 24;

pub const PCREL_LO12_S: u32 = 25;

pub const HI20: u32 = 26;

pub const LO12_I: u32 = 27;

pub const LO12_S: u32 = 28;

pub const ADD8: u32 = 33;

pub const ADD16: u32 = 34;

pub const ADD32: u32 = 35;

pub const ADD64: u32 = 36;

pub const SUB16: u32 = 38;

pub const SUB32: u32 = 39;

pub const SUB64: u32 = 40;

pub const ALIGN: u32 = 43;

pub const RELAX: u32 = 51;

pub const SUB6: u32 = 52;

pub const SET16: u32 = 55;

pub const SET32: u32 = 56;

pub const PCREL_32: u32 = 57;

/// Whether entries of the type are ignored.
pub fn is_ignored(kind: u32) -> bool
    ensures { result ≡ is_ignored kind }
{
    kind == NONE || kind == ALIGN || kind == RELAX
}

/// Whether the type is accepted outside text.
pub fn is_data_kind(kind: u32) -> bool
    ensures { result ≡ is_data_kind kind }
{
    kind == ABSOLUTE_32
        || kind == ABSOLUTE_64
        || ADD8 <= kind && kind <= SUB64
        || SUB6 <= kind && kind <= PCREL_32
}

/// Whether the type is that of a call.
pub fn is_call(kind: u32) -> bool
    ensures { result ≡ is_call kind }
{
    kind == CALL || kind == CALL_PLT
}

/// Whether the type is that of a lower half which goes with an upper half.
pub fn is_paired(kind: u32) -> bool
    ensures { result ≡ is_paired kind }
{
    kind == PCREL_LO12_I || kind == PCREL_LO12_S
}

/// Whether the type is supported in text.
pub fn is_text_kind(kind: u32) -> bool
    ensures { result ≡ is_text_kind kind }
{
    BRANCH <= kind && kind <= CALL_PLT || PCREL_HI20 <= kind && kind <= LO12_S
}

/// How many bytes an entry of the type touches.
#[tactic(auto, unfolding(crate::specs::Kinds::width_of))]
pub fn width(kind: u32) -> u32
    ensures value { result ≡ width_of kind }
    ensures some { 1 ≤ result }
    ensures few { result ≤ 8 }
{
    if is_call(kind) {
        return 8;
    }
    if is_text_kind(kind) {
        return 4;
    }
    match kind {
        ABSOLUTE_64 | ADD64 | SUB64 => 8,
        ABSOLUTE_32 | ADD32 | SUB32 | SET32 | PCREL_32 => 4,
        ADD16 | SUB16 | SET16 => 2,
        _ => 1,
    }
}
