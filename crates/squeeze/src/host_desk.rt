//! The desk of the host: its files and its standard streams. It is the trusted edge: no clause ties
//! what it reads and writes to what the host holds.

ghost use Rattle.std.specs.Prelude.{◌≡◌, ◌≢◌, ◌<◌, ◌≤◌, ◌⊎◌, ◌+◌, ◌-◌, ◌^◌, min, if◌then◌else◌, length, Some, OnOk, IfOk, IfSome};
ghost use Rattle.std.specs.Io.KnownBytes.{Appends};
ghost use Rattle.squeeze.specs.Streams.{ConsumesAtMost};

use sq_desk::{Desk, DeskFault, LoadFault};
use std::alloc::Global;
use std::io::{ErrorKind, Read, Write};
use std::{fs, io};

/// Bytes that are read at once.
const CHUNK: usize = 4096;

/// The desk over files and the standard streams. It prints to standard output and complains to
/// standard error. It tells no contents, and counts the calls that answered `Failed`, one count for
/// all places.
#[derive(Drop)]
pub struct HostDesk<'r> {
    rt: &'r HostRuntime,
    faults: u64,
}

impl<'r> HostDesk<'r> {
    /// A desk that has met no error.
    pub fn new(rt: &'r HostRuntime) -> HostDesk<'r>
        ensures { result.faults ≡ 0 }
    {
        HostDesk { rt, faults: 0 }
    }

    /// Counts a fault, where there was one.
    fn count_fault(&mut self, failed: bool)
        ensures counts { self.new.faults ≡ (if failed then min (self.old.faults + 1) (2 ^ 64 - 1) else self.old.faults) }
        ensures never_falls { self.old.faults ≤ self.new.faults }
    {
        let faults = self.faults;
        if failed {
            self.faults = faults.saturating_add(1);
        }
    }
}

impl<'r> Desk for HostDesk<'r> {
    ghost use Rattle.std.specs.Prelude.{◌≡◌, ◌<◌, ◌≤◌, ◌⊎◌, length, Some, OnOk, IfOk};
    ghost use Rattle.sq_desk.specs.Outside.{content_of, Rose, NoneFall, Loading, Storing, Printing, Complaining, KeepsFiles, SetsFile, LosesFile, KeepsPrinted, KeepsComplained, Prints, PrintsPrefix, Complains, ComplainsPrefix, ForFiles};
    ghost use Rattle.squeeze.specs.HostDesk.{host_outside};

    ghost outside = { host_outside };

    fn load(&mut self, alloc: Global, name: &str, limit: u32) -> Result<Vec<u8>, LoadFault>
        ensures within { IfOk result (λ bytes. length bytes.items ≤ limit) }
        ensures told { IfOk result (λ bytes. ForFiles (host_outside self.old) (λ files. bytes.items ≡ content_of files name.now)) }
        ensures too_long { result ≡ Err LoadFault.TooLong → ForFiles (host_outside self.old) (λ files. limit < length (content_of files name.now)) }
        ensures failed { result ≡ Err LoadFault.Failed → Rose (Loading name.now) (host_outside self.old) (host_outside self.new) }
        ensures faults { NoneFall (host_outside self.old) (host_outside self.new) }
        ensures files { KeepsFiles (host_outside self.old) (host_outside self.new) }
        ensures printed { KeepsPrinted (host_outside self.old) (host_outside self.new) }
        ensures complained { KeepsComplained (host_outside self.old) (host_outside self.new) }

        // The count rises only for `Failed`.
        ensures counts { (result ≡ Err LoadFault.Failed) ⊎ (self.new.faults ≡ self.old.faults) }
    {
        let loaded = match fs::open(self.rt, name) {
            Ok(mut file) => read_whole(alloc, &mut file, limit),
            Err(error) => Err(load_fault(&error)),
        };
        self.count_fault(matches!(&loaded, Err(LoadFault::Failed)));
        loaded
    }

    fn store(&mut self, _alloc: Global, name: &str, bytes: &[u8]) -> Result<(), DeskFault>
        ensures stored { OnOk result (SetsFile name.now (Some bytes.now) (host_outside self.old) (host_outside self.new)) }
        ensures lost { result ≡ Err DeskFault.Failed → LosesFile name.now (host_outside self.old) (host_outside self.new) }
        ensures failed { result ≡ Err DeskFault.Failed → Rose (Storing name.now) (host_outside self.old) (host_outside self.new) }
        ensures memory { result ≡ Err DeskFault.Memory → KeepsFiles (host_outside self.old) (host_outside self.new) }
        ensures faults { NoneFall (host_outside self.old) (host_outside self.new) }
        ensures printed { KeepsPrinted (host_outside self.old) (host_outside self.new) }
        ensures complained { KeepsComplained (host_outside self.old) (host_outside self.new) }

        // The count rises only for `Failed`.
        ensures counts { (result ≡ Err DeskFault.Failed) ⊎ (self.new.faults ≡ self.old.faults) }
    {
        let written = match fs::create(self.rt, name) {
            Ok(mut file) => write_whole(&mut file, bytes),
            Err(error) if error.kind() == ErrorKind::OutOfMemory => Err(DeskFault::Memory),
            Err(_) => Err(DeskFault::Failed),
        };
        self.count_fault(matches!(&written, Err(DeskFault::Failed)));
        written
    }

    fn print(&mut self, _alloc: Global, bytes: &[u8]) -> Result<(), DeskFault>
        ensures all { OnOk result (Prints bytes.now (host_outside self.old) (host_outside self.new)) }
        ensures prefix { result ≡ Err DeskFault.Failed → PrintsPrefix bytes.now (host_outside self.old) (host_outside self.new) }
        ensures failed { result ≡ Err DeskFault.Failed → Rose Printing (host_outside self.old) (host_outside self.new) }
        ensures memory { result ≡ Err DeskFault.Memory → KeepsPrinted (host_outside self.old) (host_outside self.new) }
        ensures faults { NoneFall (host_outside self.old) (host_outside self.new) }
        ensures files { KeepsFiles (host_outside self.old) (host_outside self.new) }
        ensures complained { KeepsComplained (host_outside self.old) (host_outside self.new) }

        // The count rises only for `Failed`.
        ensures counts { (result ≡ Err DeskFault.Failed) ⊎ (self.new.faults ≡ self.old.faults) }
    {
        let stream = self.rt.stdout();
        let written = write_whole(&mut io::writer(&stream), bytes);
        self.count_fault(matches!(&written, Err(DeskFault::Failed)));
        written
    }

    fn complain(&mut self, _alloc: Global, bytes: &[u8]) -> Result<(), DeskFault>
        ensures all { OnOk result (Complains bytes.now (host_outside self.old) (host_outside self.new)) }
        ensures prefix { result ≡ Err DeskFault.Failed → ComplainsPrefix bytes.now (host_outside self.old) (host_outside self.new) }
        ensures failed { result ≡ Err DeskFault.Failed → Rose Complaining (host_outside self.old) (host_outside self.new) }
        ensures memory { result ≡ Err DeskFault.Memory → KeepsComplained (host_outside self.old) (host_outside self.new) }
        ensures faults { NoneFall (host_outside self.old) (host_outside self.new) }
        ensures files { KeepsFiles (host_outside self.old) (host_outside self.new) }
        ensures printed { KeepsPrinted (host_outside self.old) (host_outside self.new) }

        // The count rises only for `Failed`.
        ensures counts { (result ≡ Err DeskFault.Failed) ⊎ (self.new.faults ≡ self.old.faults) }
    {
        let stream = self.rt.stderr();
        let written = write_whole(&mut io::writer(&stream), bytes);
        self.count_fault(matches!(&written, Err(DeskFault::Failed)));
        written
    }
}

/// Reads to the end, or to one byte more than the limit.
fn read_whole<R: Read>(alloc: Global, file: &mut R, limit: u32) -> Result<Vec<u8>, LoadFault>
    ensures within { IfOk result (λ bytes. length bytes.items ≤ limit) }
    ensures whole { IfOk result (λ bytes. IfSome (R.remaining file.old) (λ left. bytes.items ≡ left)) }
    ensures too_long { result ≡ Err LoadFault.TooLong → IfSome (R.remaining file.old) (λ left. limit < length left) }
    ensures stops { ConsumesAtMost (limit + 1) (R.remaining file.old) (R.remaining file.new) }
{
    let mut chunk = [0; CHUNK];
    let mut bytes = Vec::new(alloc);
    while bytes.len() <= limit as usize {
        let most = (limit as usize + 1 - bytes.len()).min(CHUNK);
        match file.read(&mut chunk[..most]) {
            Ok(0) => {
                bytes.shrink_to_fit();
                return Ok(bytes);
            }
            Ok(count) => bytes.extend_from_slice(&chunk[..count])?,
            Err(error) => return Err(load_fault(&error)),
        }
    }
    Err(LoadFault::TooLong)
}

/// Writes all of the bytes. A write that takes nothing is a fault. Any error is one too, want of
/// memory as well, since what was written before it stays.
fn write_whole<W: Write>(to: &mut W, bytes: &[u8]) -> Result<(), DeskFault>
    ensures all { OnOk result (Appends (W.contents to.old) (W.contents to.new) bytes.now) }
    ensures no_memory { result ≢ Err DeskFault.Memory }
{
    let mut rest = bytes;
    while !rest.is_empty() {
        match to.write(rest) {
            Ok(0) => return Err(DeskFault::Failed),
            Ok(count) => rest = &rest[count..],
            Err(_) => return Err(DeskFault::Failed),
        }
    }
    Ok(())
}

/// The fault of a load that met the error.
fn load_fault(error: &io::Error) -> LoadFault
    ensures { result ≢ LoadFault.TooLong }
{
    if error.kind() == ErrorKind::OutOfMemory {
        LoadFault::Memory
    } else {
        LoadFault::Failed
    }
}

#[cfg(test)]
mod tests;
