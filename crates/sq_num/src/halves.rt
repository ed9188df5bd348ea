//! The two halves in which RISC-V instructions hold an address (psABI: %hi and %lo).

ghost use Rattle.std.specs.Prelude.{◌≡◌};
ghost use Rattle.sq_num.specs.Halves.{high_half, low_half, ArePartsOf};

/// The upper 20 bits that `lui` loads for the address `t`, rounded so that the signed lower half
/// makes up the rest (psABI %hi).
pub fn hi20(t: u32) -> u32
    ensures { result ≡ high_half t }
{
    t.wrapping_add(0x800) >> 12
}

/// The low 12 bits of `t`, read as signed: -2048 to 2047 (psABI %lo).
pub fn lo12(t: u32) -> i32
    ensures value { result ≡ low_half t }
    ensures halves { ArePartsOf (high_half t) result t }
{
    let low = (t & 0xfff) as i32;
    if low < 0x800 { low } else { low - 0x1000 }
}
