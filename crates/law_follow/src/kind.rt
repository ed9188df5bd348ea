//! Why a monitored run breaks.

/// What a program did that a compactor can't follow.
#[derive(Clone, Copy, Debug, PartialEq, Eq)]
pub enum Kind {
    /// It computed with an address of code or an upper half of an address, or compared one.
    Arithmetic,
    /// It used a lower half of an address with another upper half.
    Half,
    /// It gave an address of code or an upper half to a system call.
    Call,
    /// It took a part of an address of code or of an upper half.
    Fragment,
    /// It read a byte that a relocation made from an address of code and that is no part of a code word.
    Stale,
    /// It read or wrote text, or gave it to a system call.
    Text,
    /// It jumped into code by a number, beside an address or to an upper half.
    Jump,
    /// It used an address of code or an upper half as an address of data.
    Address,
}
