//! A desk in memory that never fails.

ghost use Rattle.std.specs.Prelude.{◌≡◌, [], Some, None, OnOk, OnErr};
ghost use Rattle.std.specs.Option.{option_map};

use crate::desk::{Desk, DeskFault, LoadFault};
use crate::held::{Held, copy_within};
use sq_num::Memory;
use std::alloc::Global;

/// A desk in memory. It tells all, has no faults, and loads a name without a file as the empty
/// file.
#[derive(Drop)]
pub struct SoundDesk {
    held: Held,
}

impl SoundDesk {
    ghost use Rattle.sq_desk.specs.Held.{files_of};
    ghost use Rattle.sq_desk.specs.Outside.{SetsFile, KeepsFiles, KeepsPrinted, KeepsComplained};
    ghost use Rattle.sq_desk.specs.SoundDesk.{sound_outside};

    /// No files, and nothing printed or complained. It takes no memory.
    pub fn new(alloc: Global) -> SoundDesk
        ensures files { (sound_outside result).files ≡ Some (λ _. None) }
        ensures printed { (sound_outside result).printed ≡ Some [] }
        ensures complained { (sound_outside result).complained ≡ Some [] }
    {
        SoundDesk {
            held: Held::new(alloc),
        }
    }

    /// Makes `bytes` the file of `name`, or changes nothing for want of memory. It is no call of
    /// the trait.
    pub fn put(&mut self, name: &str, bytes: &[u8]) -> Result<(), Memory>
        ensures ok { OnOk result (SetsFile name.now (Some bytes.now) (sound_outside self.old) (sound_outside self.new)) }
        ensures err { OnErr result (KeepsFiles (sound_outside self.old) (sound_outside self.new)) }
        ensures printed { KeepsPrinted (sound_outside self.old) (sound_outside self.new) }
        ensures complained { KeepsComplained (sound_outside self.old) (sound_outside self.new) }
    {
        let alloc = *self.held.printed.allocator();
        self.held.put(alloc, name, bytes)
    }

    /// The file of `name`, or None where there is none of this name.
    pub fn file(&self, name: &str) -> Option<&[u8]>
        ensures { option_map (λ file. file.now) result ≡ files_of self.now.held name.now }
    {
        self.held.file(name)
    }

    /// All that was printed.
    pub fn printed(&self) -> &[u8]
        ensures { (sound_outside self.now).printed ≡ Some result.now }
    {
        self.held.printed.as_slice()
    }

    /// All that was complained.
    pub fn complained(&self) -> &[u8]
        ensures { (sound_outside self.now).complained ≡ Some result.now }
    {
        self.held.complained.as_slice()
    }
}

impl Desk for SoundDesk {
    ghost use Rattle.sq_desk.specs.SoundDesk.{sound_outside};

    ghost outside = { sound_outside };

    fn load(&mut self, alloc: Global, name: &str, limit: u32) -> Result<Vec<u8>, LoadFault> {
        match self.held.file(name) {
            None => Ok(Vec::new(alloc)),
            Some(file) => copy_within(alloc, file, limit),
        }
    }

    fn store(&mut self, alloc: Global, name: &str, bytes: &[u8]) -> Result<(), DeskFault> {
        self.held.put(alloc, name, bytes)?;
        Ok(())
    }

    fn print(&mut self, _alloc: Global, bytes: &[u8]) -> Result<(), DeskFault> {
        self.held.printed.extend_from_slice(bytes)?;
        Ok(())
    }

    fn complain(&mut self, _alloc: Global, bytes: &[u8]) -> Result<(), DeskFault> {
        self.held.complained.extend_from_slice(bytes)?;
        Ok(())
    }
}
