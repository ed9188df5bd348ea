//! How a command ends.

ghost use Rattle.std.specs.Prelude.{◌≡◌};
ghost use Rattle.sq_top.specs.Statuses.{status_of};

use crate::tracks::TrackFault;
use sq_hex::HexFault;
use sq_monitor::WatchFault;
use sq_num::{Denied, Memory, Refusal};
use sq_run::RunFault;

/// A call on the desk.
#[derive(Clone, Copy, Debug, PartialEq, Eq)]
pub enum DeskCall {
    Load,
    Store,
    Print,
}

/// How a command ends.
#[derive(Clone, Copy, Debug, PartialEq, Eq)]
pub enum Ending {
    /// All was done; a program that was run ended.
    Done,
    /// The words have no form.
    Words,
    /// A call on the desk met a fault.
    Desk(DeskCall),
    /// The input is refused.
    Refused(Refusal),
    /// Memory ran out.
    Memory,
    /// The program that was watched met a break.
    Break,
    /// The program that was run came to its limit.
    Limit,
    /// The program cannot be started so.
    BadStart,
    /// A text of Intel HEX is at fault in this line, or (0) does not mean what is in flash; or a certificate is at fault in
    /// this line, or (0) leads to another file.
    Differs(u32),
}

impl Ending {
    /// The status with which the program ends.
    pub fn status(&self) -> u8
        ensures { result ≡ status_of self.now }
    {
        match self {
            Ending::Done => 0,
            Ending::Words => 1,
            Ending::Desk(_) => 2,
            Ending::Refused(_) => 3,
            Ending::Memory => 4,
            Ending::Break => 5,
            Ending::Limit => 6,
            Ending::BadStart => 7,
            Ending::Differs(_) => 8,
        }
    }
}

impl From<Denied> for Ending {
    ghost use Rattle.std.specs.Prelude.{◌≡◌};
    ghost use Rattle.sq_top.specs.Denials.{denied_ending};

    ghost from_gives = { λ denied ending. ending ≡ denied_ending denied };

    fn from(denied: Denied) -> Ending {
        match denied {
            Denied::Refused(refusal) => Ending::Refused(refusal),
            Denied::Memory => Ending::Memory,
        }
    }
}

impl From<RunFault> for Ending {
    ghost use Rattle.std.specs.Prelude.{◌≡◌};
    ghost use Rattle.sq_top.specs.Denials.{fault_ending};

    ghost from_gives = { λ fault ending. ending ≡ fault_ending fault };

    fn from(fault: RunFault) -> Ending {
        match fault {
            RunFault::BadStart => Ending::BadStart,
            RunFault::Memory => Ending::Memory,
        }
    }
}

impl From<WatchFault> for Ending {
    ghost use Rattle.std.specs.Prelude.{◌≡◌};
    ghost use Rattle.sq_top.specs.Denials.{watch_fault_ending};

    ghost from_gives = { λ fault ending. ending ≡ watch_fault_ending fault };

    fn from(fault: WatchFault) -> Ending {
        match fault {
            WatchFault::BadStart => Ending::BadStart,
            WatchFault::Memory => Ending::Memory,
        }
    }
}

impl From<Memory> for Ending {
    ghost use Rattle.std.specs.Prelude.{◌≡◌};
    ghost use Rattle.sq_top.specs.Denials.{memory_ending};

    ghost from_gives = { λ _ ending. ending ≡ memory_ending };

    fn from(_error: Memory) -> Ending {
        Ending::Memory
    }
}

impl From<HexFault> for Ending {
    ghost use Rattle.std.specs.Prelude.{◌≡◌};
    ghost use Rattle.sq_top.specs.Denials.{hex_fault_ending};

    ghost from_gives = { λ fault ending. ending ≡ hex_fault_ending fault };

    fn from(fault: HexFault) -> Ending {
        match fault {
            HexFault::Line(line) => Ending::Differs(line),
            HexFault::Memory => Ending::Memory,
        }
    }
}

impl From<TrackFault> for Ending {
    ghost use Rattle.std.specs.Prelude.{◌≡◌};
    ghost use Rattle.sq_top.specs.Denials.{track_fault_ending};

    ghost from_gives = { λ fault ending. ending ≡ track_fault_ending fault };

    fn from(fault: TrackFault) -> Ending {
        match fault {
            TrackFault::Denied(denied) => Ending::from(denied),
            TrackFault::Line(line) => Ending::Differs(line),
        }
    }
}
