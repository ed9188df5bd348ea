//! Why there is no watched run.

use sq_num::Memory;

/// Why there is no watched run.
#[derive(Clone, Copy, Debug, PartialEq, Eq)]
pub enum WatchFault {
    /// The stack pointer would be below the base, or a piece of the file meets the argument area.
    BadStart,
    /// Memory ran out.
    Memory,
}

impl From<Memory> for WatchFault {
    ghost use Rattle.std.specs.Prelude.{◌≡◌};
    ghost use Rattle.sq_monitor.specs.declared.fault.WatchFault.TheVariants.{Memory as OutOfMemory};

    ghost from_gives = { λ _ fault. fault ≡ OutOfMemory };

    fn from(_error: Memory) -> WatchFault {
        WatchFault::Memory
    }
}
