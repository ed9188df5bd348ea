//! What an instruction makes.

use crate::values::Value;
use law_follow::Kind;
use sq_system::Halt;

/// What an instruction makes of its operands.
#[derive(Clone, Copy, Debug, PartialEq, Eq)]
pub enum Made {
    /// A value for its destination, if it has one.
    Gives(Value),
    /// The run ends.
    Ends(Halt),
    /// The run breaks.
    Breaks(Kind),
}
