//! The trait through which a program reaches the outside.

ghost use Rattle.std.specs.Prelude.{◌≡◌, ◌<◌, ◌≤◌, length, Some, OnOk, IfOk};
ghost use Rattle.sq_desk.specs.Outside.{Outside, content_of, Rose, NoneFall, Loading, Storing, Printing, Complaining, KeepsFiles, SetsFile, LosesFile, KeepsPrinted, KeepsComplained, Prints, PrintsPrefix, Complains, ComplainsPrefix, ForFiles};

use sq_num::Memory;
use std::alloc::{AllocError, Global};

/// Why nothing was loaded.
#[derive(Clone, Copy, Debug, PartialEq, Eq)]
pub enum LoadFault {
    /// The desk met a fault.
    Failed,
    /// The file is longer than the limit.
    TooLong,
    /// Memory ran out.
    Memory,
}

/// Why nothing was stored, or not all was printed or complained.
#[derive(Clone, Copy, Debug, PartialEq, Eq)]
pub enum DeskFault {
    /// The desk met a fault.
    Failed,
    /// Memory ran out.
    Memory,
}

impl From<AllocError> for LoadFault {
    ghost use Rattle.std.specs.Prelude.{◌≡◌};
    ghost use Rattle.sq_desk.specs.declared.desk.LoadFault.TheVariants as load;

    ghost from_gives = { λ _ fault. fault ≡ load.Memory };

    fn from(_error: AllocError) -> LoadFault {
        LoadFault::Memory
    }
}

impl From<AllocError> for DeskFault {
    ghost use Rattle.std.specs.Prelude.{◌≡◌};
    ghost use Rattle.sq_desk.specs.declared.desk.DeskFault.TheVariants as desk;

    ghost from_gives = { λ _ fault. fault ≡ desk.Memory };

    fn from(_error: AllocError) -> DeskFault {
        DeskFault::Memory
    }
}

impl From<Memory> for DeskFault {
    ghost use Rattle.std.specs.Prelude.{◌≡◌};
    ghost use Rattle.sq_desk.specs.declared.desk.DeskFault.TheVariants as desk;

    ghost from_gives = { λ _ fault. fault ≡ desk.Memory };

    fn from(_error: Memory) -> DeskFault {
        DeskFault::Memory
    }
}

/// All that a program has of the outside. A desk tells its files and texts, or tells nothing of
/// them, and counts the faults of each place: the loading of a name, the storing of a name,
/// printing, and complaining.
pub trait Desk {
    ghost outside: { Self → Outside };

    /// The file of `name`. A name without a file stands for the empty file. `TooLong` comes where
    /// it has more than `limit` bytes, `Failed` only where the faults of loading `name` rose. No
    /// file changes.
    fn load(&mut self, alloc: Global, name: &str, limit: u32) -> Result<Vec<u8>, LoadFault>
        ensures within { IfOk result (λ bytes. length bytes.items ≤ limit) }
        ensures told { IfOk result (λ bytes. ForFiles (outside self.old) (λ files. bytes.items ≡ content_of files name.now)) }
        ensures too_long { result ≡ Err LoadFault.TooLong → ForFiles (outside self.old) (λ files. limit < length (content_of files name.now)) }
        ensures failed { result ≡ Err LoadFault.Failed → Rose (Loading name.now) (outside self.old) (outside self.new) }
        ensures faults { NoneFall (outside self.old) (outside self.new) }
        ensures files { KeepsFiles (outside self.old) (outside self.new) }
        ensures printed { KeepsPrinted (outside self.old) (outside self.new) }
        ensures complained { KeepsComplained (outside self.old) (outside self.new) };

    /// Makes `bytes` the file of `name`. After `Failed` that file is not known, and after `Memory`
    /// it is as before.
    fn store(&mut self, alloc: Global, name: &str, bytes: &[u8]) -> Result<(), DeskFault>
        ensures stored { OnOk result (SetsFile name.now (Some bytes.now) (outside self.old) (outside self.new)) }
        ensures lost { result ≡ Err DeskFault.Failed → LosesFile name.now (outside self.old) (outside self.new) }
        ensures failed { result ≡ Err DeskFault.Failed → Rose (Storing name.now) (outside self.old) (outside self.new) }
        ensures memory { result ≡ Err DeskFault.Memory → KeepsFiles (outside self.old) (outside self.new) }
        ensures faults { NoneFall (outside self.old) (outside self.new) }
        ensures printed { KeepsPrinted (outside self.old) (outside self.new) }
        ensures complained { KeepsComplained (outside self.old) (outside self.new) };

    /// Appends `bytes` to what is printed. After `Failed` a prefix of them was appended, and after
    /// `Memory` nothing.
    fn print(&mut self, alloc: Global, bytes: &[u8]) -> Result<(), DeskFault>
        ensures all { OnOk result (Prints bytes.now (outside self.old) (outside self.new)) }
        ensures prefix { result ≡ Err DeskFault.Failed → PrintsPrefix bytes.now (outside self.old) (outside self.new) }
        ensures failed { result ≡ Err DeskFault.Failed → Rose Printing (outside self.old) (outside self.new) }
        ensures memory { result ≡ Err DeskFault.Memory → KeepsPrinted (outside self.old) (outside self.new) }
        ensures faults { NoneFall (outside self.old) (outside self.new) }
        ensures files { KeepsFiles (outside self.old) (outside self.new) }
        ensures complained { KeepsComplained (outside self.old) (outside self.new) };

    /// Appends `bytes` to what is complained. After `Failed` a prefix of them was appended, and
    /// after `Memory` nothing.
    fn complain(&mut self, alloc: Global, bytes: &[u8]) -> Result<(), DeskFault>
        ensures all { OnOk result (Complains bytes.now (outside self.old) (outside self.new)) }
        ensures prefix { result ≡ Err DeskFault.Failed → ComplainsPrefix bytes.now (outside self.old) (outside self.new) }
        ensures failed { result ≡ Err DeskFault.Failed → Rose Complaining (outside self.old) (outside self.new) }
        ensures memory { result ≡ Err DeskFault.Memory → KeepsComplained (outside self.old) (outside self.new) }
        ensures faults { NoneFall (outside self.old) (outside self.new) }
        ensures files { KeepsFiles (outside self.old) (outside self.new) }
        ensures printed { KeepsPrinted (outside self.old) (outside self.new) };
}
