// The formats R, I, S, B, U and J: a word put together from its fields.

ghost use Rattle.std.specs.Prelude.{◌≡◌, ◌^◌, ◌<◌};
ghost use Rattle.sq_isa.specs.Encoding.{r_word, i_word, s_word, b_word, u_word, j_word};

use sq_isa::Reg;

pub(crate) fn r_type(opcode: u32, rd: Reg, funct3: u32, rs1: Reg, rs2: Reg, funct7: u32) -> u32
    requires opcode_fits { opcode < 128 }
    requires funct3_fits { funct3 < 8 }
    requires funct7_fits { funct7 < 128 }
    ensures { result ≡ r_word opcode rd funct3 rs1 rs2 funct7 }
{
    join(opcode, rd.number(), funct3, rs1, rs2.number(), funct7)
}

/// A word of format R whose rd or rs2 is no register, but a part of an immediate.
pub(crate) fn join(opcode: u32, rd: u32, funct3: u32, rs1: Reg, rs2: u32, funct7: u32) -> u32
    requires opcode_fits { opcode < 128 }
    requires rd_fits { rd < 32 }
    requires funct3_fits { funct3 < 8 }
    requires rs2_fits { rs2 < 32 }
    requires funct7_fits { funct7 < 128 }
    ensures { result ≡ r_word opcode rd funct3 rs1 rs2 funct7 }
{
    let low = opcode + (rd << 7) + (funct3 << 12);
    low + (rs1.number() << 15) + (rs2 << 20) + (funct7 << 25)
}

pub(crate) fn i_type(opcode: u32, rd: Reg, funct3: u32, rs1: Reg, immediate: i32) -> u32
    requires opcode_fits { opcode < 128 }
    requires funct3_fits { funct3 < 8 }
    ensures { result ≡ i_word opcode rd funct3 rs1 immediate }
{
    let bits = immediate.cast_unsigned();
    let (low, high) = (bits & 0x1f, bits >> 5 & 0x7f);
    join(opcode, rd.number(), funct3, rs1, low, high)
}

pub(crate) fn s_type(opcode: u32, funct3: u32, rs1: Reg, rs2: Reg, immediate: i32) -> u32
    requires opcode_fits { opcode < 128 }
    requires funct3_fits { funct3 < 8 }
    ensures { result ≡ s_word opcode funct3 rs1 rs2 immediate }
{
    let bits = immediate.cast_unsigned();
    let (low, high) = (bits & 0x1f, bits >> 5 & 0x7f);
    join(opcode, low, funct3, rs1, rs2.number(), high)
}

pub(crate) fn b_type(opcode: u32, funct3: u32, rs1: Reg, rs2: Reg, immediate: i32) -> u32
    requires opcode_fits { opcode < 128 }
    requires funct3_fits { funct3 < 8 }
    ensures { result ≡ b_word opcode funct3 rs1 rs2 immediate }
{
    let bits = immediate.cast_unsigned();
    let in_rd = ((bits >> 1 & 0xf) << 1) + (bits >> 11 & 1);
    let in_funct7 = ((bits >> 12 & 1) << 6) + (bits >> 5 & 0x3f);
    join(opcode, in_rd, funct3, rs1, rs2.number(), in_funct7)
}

pub(crate) fn u_type(opcode: u32, rd: Reg, upper: u32) -> u32
    requires opcode_fits { opcode < 128 }
    requires upper_fits { upper < 2 ^ 20 }
    ensures { result ≡ u_word opcode rd upper }
{
    opcode + (rd.number() << 7) + (upper << 12)
}

pub(crate) fn j_type(opcode: u32, rd: Reg, immediate: i32) -> u32
    requires { opcode < 128 }
    ensures { result ≡ j_word opcode rd immediate }
{
    let bits = immediate.cast_unsigned();
    let high = ((bits >> 20 & 1) << 19) + ((bits >> 1 & 0x3ff) << 9);
    let low = ((bits >> 11 & 1) << 8) + (bits >> 12 & 0xff);
    u_type(opcode, rd, high + low)
}
