//! What a certificate is worth.

/// Whether a certificate proves one thing of another.
#[derive(Clone, Copy, Debug, PartialEq, Eq)]
pub enum Verdict {
    /// It does, by so many steps.
    Yes { steps: u32 },
    /// It doesn't: the number of the first line that has no form or is no candidate, counted from 1, or 0 where each line
    /// passes and what they lead to differs.
    No { line: u32 },
}
