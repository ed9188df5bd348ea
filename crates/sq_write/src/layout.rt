//! Where the parts of an output file stand.

ghost use Rattle.std.specs.Prelude.{◌≡◌, ◌+◌, ◌<◌, ◌^◌};
ghost use Rattle.sq_write.specs.Output.{gap};

/// The offsets of the bytes of text, of the five contents and of the section headers.
#[derive(Clone, Copy)]
pub(crate) struct Layout {
    pub text: u32,
    pub symbols: u32,
    pub symbol_names: u32,
    pub entries: u32,
    pub note: u32,
    pub section_names: u32,
    pub sections: u32,
}

/// The next multiple of 4.
pub(crate) fn aligned(offset: u32) -> u32
    requires { offset + 3 < 2 ^ 32 }
    ensures { result ≡ offset + gap offset }
{
    offset + (4 - offset % 4) % 4
}
