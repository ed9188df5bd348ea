//! Why there is no run.

use sq_machine::NewFault;
use sq_num::Memory;

/// Why there is no run.
#[derive(Clone, Copy, Debug, PartialEq, Eq)]
pub enum RunFault {
    /// The stack pointer would be below the base, or a piece of the file meets the argument area.
    BadStart,
    /// Memory ran out.
    Memory,
}

impl From<Memory> for RunFault {
    ghost use Rattle.std.specs.Prelude.{◌≡◌};
    ghost use Rattle.sq_run.specs.declared.fault.RunFault.TheVariants.{Memory as OutOfMemory};

    ghost from_gives = { λ _ fault. fault ≡ OutOfMemory };

    fn from(_error: Memory) -> RunFault {
        RunFault::Memory
    }
}
