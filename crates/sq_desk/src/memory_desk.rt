//! A desk in memory that fails chosen calls.

ghost use Rattle.std.specs.Prelude.{◌≡◌, ◌<◌, ◌≤◌, ◌↔◌, ◌/◌, ℕ, [], length, take, Some, None, true, false, IsTrue, OnOk, OnErr, IfOk};
ghost use Rattle.std.specs.Option.{option_map};

use crate::desk::{Desk, DeskFault, LoadFault};
use crate::held::{Held, copy_within};
use sq_num::Memory;
use std::alloc::Global;

/// A desk in memory. It tells all. It numbers its calls from 0 and fails those of a list: a failed
/// store leaves no file, and a failed print or complaint appends the first half of the bytes. It
/// also fails the load of a name without a file.
#[derive(Drop)]
pub struct MemoryDesk {
    held: Held,
    failing: Vec<u64>,
    calls: u64,
    faults: u64,
}

impl MemoryDesk {
    ghost use Rattle.sq_desk.specs.Outside.{SetsFile, KeepsFiles, KeepsPrinted, KeepsComplained};
    ghost use Rattle.sq_desk.specs.MemoryDesk.{memory_outside, memory_files, call_number, fault_count, failing_calls, next_fails, CountsCall, CountsNothing};

    /// No files, nothing printed or complained, and no call yet. `failing` lists the numbers of the
    /// calls that fail.
    pub fn new(alloc: Global, failing: &[u64]) -> Result<MemoryDesk, Memory>
        ensures files { IfOk result (λ desk. (memory_outside desk).files ≡ Some (λ _. None)) }
        ensures printed { IfOk result (λ desk. (memory_outside desk).printed ≡ Some []) }
        ensures complained { IfOk result (λ desk. (memory_outside desk).complained ≡ Some []) }
        ensures calls { IfOk result (λ desk. call_number desk ≡ 0) }
        ensures faults { IfOk result (λ desk. fault_count desk ≡ 0) }
        ensures failing { IfOk result (λ desk. failing_calls desk ≡ failing.now) }
    {
        let failing = Vec::from_slice(alloc, failing)?;
        Ok(MemoryDesk {
            held: Held::new(alloc),
            failing,
            calls: 0,
            faults: 0,
        })
    }

    /// Makes `bytes` the file of `name`, or changes nothing for want of memory. It is no call of
    /// the trait.
    pub fn put(&mut self, name: &str, bytes: &[u8]) -> Result<(), Memory>
        ensures ok { OnOk result (SetsFile name.now (Some bytes.now) (memory_outside self.old) (memory_outside self.new)) }
        ensures err { OnErr result (KeepsFiles (memory_outside self.old) (memory_outside self.new)) }
        ensures printed { KeepsPrinted (memory_outside self.old) (memory_outside self.new) }
        ensures complained { KeepsComplained (memory_outside self.old) (memory_outside self.new) }
        ensures counts { CountsNothing self.old self.new }
    {
        let alloc = *self.held.printed.allocator();
        self.held.put(alloc, name, bytes)
    }

    /// The file of `name`, or None where there is none of this name.
    pub fn file(&self, name: &str) -> Option<&[u8]>
        ensures { option_map (λ file. file.now) result ≡ memory_files self.now name.now }
    {
        self.held.file(name)
    }

    /// All that was printed.
    pub fn printed(&self) -> &[u8]
        ensures { (memory_outside self.now).printed ≡ Some result.now }
    {
        self.held.printed.as_slice()
    }

    /// All that was complained.
    pub fn complained(&self) -> &[u8]
        ensures { (memory_outside self.now).complained ≡ Some result.now }
    {
        self.held.complained.as_slice()
    }

    /// Counts one call, and one fault where it is one that fails, and says whether it is.
    fn count_call(&mut self) -> bool
        ensures fails { result ≡ next_fails self.old }
        ensures counts { CountsCall self.old self.new result }
        ensures held { self.new.held ≡ self.old.held }
        ensures rises { self.old.faults ≤ self.new.faults }
    {
        // A read that lets the check know that the count fits.
        let _faults = self.faults;
        let fails = self.failing.contains(&self.calls);
        self.calls = self.calls.saturating_add(1);
        if fails {
            self.faults = self.faults.saturating_add(1);
        }
        fails
    }
}

impl Desk for MemoryDesk {
    ghost use Rattle.std.specs.Prelude.{◌≡◌, ◌<◌, ◌≤◌, ◌↔◌, length, Some, None, true, false, IsTrue, OnOk, IfOk};
    ghost use Rattle.sq_desk.specs.Outside.{content_of, Rose, NoneFall, Loading, Storing, Printing, Complaining, KeepsFiles, SetsFile, LosesFile, KeepsPrinted, KeepsComplained, Prints, PrintsPrefix, Complains, ComplainsPrefix, ForFiles};
    ghost use Rattle.sq_desk.specs.MemoryDesk.{memory_outside, memory_files, next_fails, load_fails, first_half, CountsCall};

    ghost outside = { memory_outside };

    fn load(&mut self, alloc: Global, name: &str, limit: u32) -> Result<Vec<u8>, LoadFault>
        ensures within { IfOk result (λ bytes. length bytes.items ≤ limit) }
        ensures told { IfOk result (λ bytes. ForFiles (memory_outside self.old) (λ files. bytes.items ≡ content_of files name.now)) }
        ensures too_long { result ≡ Err LoadFault.TooLong → ForFiles (memory_outside self.old) (λ files. limit < length (content_of files name.now)) }
        ensures failed { result ≡ Err LoadFault.Failed → Rose (Loading name.now) (memory_outside self.old) (memory_outside self.new) }
        ensures faults { NoneFall (memory_outside self.old) (memory_outside self.new) }
        ensures files { KeepsFiles (memory_outside self.old) (memory_outside self.new) }
        ensures printed { KeepsPrinted (memory_outside self.old) (memory_outside self.new) }
        ensures complained { KeepsComplained (memory_outside self.old) (memory_outside self.new) }

        // Which loads fail, and what is counted.
        ensures fails { (result ≡ Err LoadFault.Failed) ↔ IsTrue (load_fails self.old name.now) }
        ensures counts { CountsCall self.old self.new (load_fails self.old name.now) }
    {
        if self.count_call() {
            return Err(LoadFault::Failed);
        }
        match self.held.file(name) {
            None => {
                self.faults = self.faults.saturating_add(1);
                Err(LoadFault::Failed)
            }
            Some(file) => copy_within(alloc, file, limit),
        }
    }

    fn store(&mut self, alloc: Global, name: &str, bytes: &[u8]) -> Result<(), DeskFault>
        ensures stored { OnOk result (SetsFile name.now (Some bytes.now) (memory_outside self.old) (memory_outside self.new)) }
        ensures lost { result ≡ Err DeskFault.Failed → LosesFile name.now (memory_outside self.old) (memory_outside self.new) }
        ensures failed { result ≡ Err DeskFault.Failed → Rose (Storing name.now) (memory_outside self.old) (memory_outside self.new) }
        ensures memory { result ≡ Err DeskFault.Memory → KeepsFiles (memory_outside self.old) (memory_outside self.new) }
        ensures faults { NoneFall (memory_outside self.old) (memory_outside self.new) }
        ensures printed { KeepsPrinted (memory_outside self.old) (memory_outside self.new) }
        ensures complained { KeepsComplained (memory_outside self.old) (memory_outside self.new) }

        // Which stores fail, what they leave, and what is counted.
        ensures fails { (result ≡ Err DeskFault.Failed) ↔ IsTrue (next_fails self.old) }
        ensures removed { result ≡ Err DeskFault.Failed → SetsFile name.now None (memory_outside self.old) (memory_outside self.new) }
        ensures counts { CountsCall self.old self.new (next_fails self.old) }
    {
        if self.count_call() {
            self.held.remove(name);
            return Err(DeskFault::Failed);
        }
        self.held.put(alloc, name, bytes)?;
        Ok(())
    }

    fn print(&mut self, _alloc: Global, bytes: &[u8]) -> Result<(), DeskFault>
        ensures all { OnOk result (Prints bytes.now (memory_outside self.old) (memory_outside self.new)) }
        ensures prefix { result ≡ Err DeskFault.Failed → PrintsPrefix bytes.now (memory_outside self.old) (memory_outside self.new) }
        ensures failed { result ≡ Err DeskFault.Failed → Rose Printing (memory_outside self.old) (memory_outside self.new) }
        ensures memory { result ≡ Err DeskFault.Memory → KeepsPrinted (memory_outside self.old) (memory_outside self.new) }
        ensures faults { NoneFall (memory_outside self.old) (memory_outside self.new) }
        ensures files { KeepsFiles (memory_outside self.old) (memory_outside self.new) }
        ensures complained { KeepsComplained (memory_outside self.old) (memory_outside self.new) }

        // Which prints fail, what they leave, and what is counted.
        ensures fails { result ≡ Err DeskFault.Failed → next_fails self.old ≡ true }
        ensures succeeds { OnOk result (next_fails self.old ≡ false) }
        ensures half { result ≡ Err DeskFault.Failed → Prints (first_half bytes.now) (memory_outside self.old) (memory_outside self.new) }
        ensures counts { CountsCall self.old self.new (next_fails self.old) }
    {
        if self.count_call() {
            self.held.printed.extend_from_slice(first_half(bytes))?;
            return Err(DeskFault::Failed);
        }
        self.held.printed.extend_from_slice(bytes)?;
        Ok(())
    }

    fn complain(&mut self, _alloc: Global, bytes: &[u8]) -> Result<(), DeskFault>
        ensures all { OnOk result (Complains bytes.now (memory_outside self.old) (memory_outside self.new)) }
        ensures prefix { result ≡ Err DeskFault.Failed → ComplainsPrefix bytes.now (memory_outside self.old) (memory_outside self.new) }
        ensures failed { result ≡ Err DeskFault.Failed → Rose Complaining (memory_outside self.old) (memory_outside self.new) }
        ensures memory { result ≡ Err DeskFault.Memory → KeepsComplained (memory_outside self.old) (memory_outside self.new) }
        ensures faults { NoneFall (memory_outside self.old) (memory_outside self.new) }
        ensures files { KeepsFiles (memory_outside self.old) (memory_outside self.new) }
        ensures printed { KeepsPrinted (memory_outside self.old) (memory_outside self.new) }

        // Which complaints fail, what they leave, and what is counted.
        ensures fails { result ≡ Err DeskFault.Failed → next_fails self.old ≡ true }
        ensures succeeds { OnOk result (next_fails self.old ≡ false) }
        ensures half { result ≡ Err DeskFault.Failed → Complains (first_half bytes.now) (memory_outside self.old) (memory_outside self.new) }
        ensures counts { CountsCall self.old self.new (next_fails self.old) }
    {
        if self.count_call() {
            self.held.complained.extend_from_slice(first_half(bytes))?;
            return Err(DeskFault::Failed);
        }
        self.held.complained.extend_from_slice(bytes)?;
        Ok(())
    }
}

/// The first half of the bytes, the odd one left out.
fn first_half(bytes: &[u8]) -> &[u8]
    ensures { result.now ≡ take (length bytes.now / 2) bytes.now }
{
    &bytes[..bytes.len() / 2]
}
