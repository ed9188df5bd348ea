//! What a desk in memory holds.

ghost use Rattle.std.specs.Prelude.{◌≡◌, ◌≤◌, ◌<◌, ◌++◌, [], length, take, Some, None, OnOk, OnErr, IfOk, ◌≢◌};
ghost use Rattle.std.specs.Option.{option_map};

use crate::desk::LoadFault;
use sq_num::Memory;
use std::alloc::Global;
use std::collections::BTreeMap;

/// Files under their names, and what was printed and complained.
#[derive(Drop)]
pub struct Held {
    pub files: BTreeMap<String, Vec<u8>>,
    pub printed: Vec<u8>,
    pub complained: Vec<u8>,
}

impl Held {
    ghost use Rattle.sq_desk.specs.Held.{files_of};
    ghost use Rattle.sq_desk.specs.Outside.{with_file};

    /// No files, and nothing printed or complained. It takes no memory.
    pub fn new(alloc: Global) -> Held
        ensures files { files_of result ≡ (λ _. None) }
        ensures printed { result.printed.items ≡ [] }
        ensures complained { result.complained.items ≡ [] }
    {
        Held {
            files: BTreeMap::new(alloc),
            printed: Vec::new(alloc),
            complained: Vec::new(alloc),
        }
    }

    /// The file of `name`, where there is one.
    pub fn file(&self, name: &str) -> Option<&[u8]>
        ensures { option_map (λ file. file.now) result ≡ files_of self.now name.now }
    {
        let file = self.files.get(name)?;
        Some(file.as_slice())
    }

    /// Makes `bytes` the file of `name`, or changes nothing for want of memory.
    pub fn put(&mut self, alloc: Global, name: &str, bytes: &[u8]) -> Result<(), Memory>
        ensures ok { OnOk result (files_of self.new ≡ with_file name.now (Some bytes.now) (files_of self.old)) }
        ensures err { OnErr result (files_of self.new ≡ files_of self.old) }
        ensures printed { self.new.printed ≡ self.old.printed }
        ensures complained { self.new.complained ≡ self.old.complained }
    {
        let name = String::from_str(alloc, name)?;
        let bytes = Vec::from_slice(alloc, bytes)?;
        self.files.insert(name, bytes)?;
        Ok(())
    }

    /// Removes the file of `name`, where there is one.
    pub fn remove(&mut self, name: &str)
        ensures file { files_of self.new ≡ with_file name.now None (files_of self.old) }
        ensures printed { self.new.printed ≡ self.old.printed }
        ensures complained { self.new.complained ≡ self.old.complained }
    {
        let _file = self.files.remove(name);
    }
}

/// A copy of `file`, where it has at most `limit` bytes.
pub fn copy_within(alloc: Global, file: &[u8], limit: u32) -> Result<Vec<u8>, LoadFault>
    ensures copy { IfOk result (λ bytes. bytes.items ≡ file.now) }
    ensures within { OnOk result (length file.now ≤ limit) }
    ensures too_long { result ≡ Err LoadFault.TooLong → limit < length file.now }
    ensures no_fault { result ≢ Err LoadFault.Failed }
{
    if file.len() > limit as usize {
        return Err(LoadFault::TooLong);
    }
    Ok(Vec::from_slice(alloc, file)?)
}
