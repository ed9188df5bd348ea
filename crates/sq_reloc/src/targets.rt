//! The first target of each address.

ghost use Rattle.std.specs.Prelude.{◌≡◌, ◌&&◌, ℕ, nat_eq, OnOk, if◌then◌else◌, Some, None};
ghost use Rattle.std.specs.Option.{option_or};
ghost use Rattle.std.specs.Ordering.{nat_cmp};
ghost use Rattle.std.specs.BTreeMap as tree;
ghost use Rattle.sq_reloc.specs.Entries.{target_of};

use crate::entry::Entry;
use sq_num::Memory;
use std::collections::BTreeMap;

/// Gives the entry's target to its address, where it passes a test and the address has none.
pub fn put_first(targets: &mut BTreeMap<u32, u32>, passes: bool, entry: Entry) -> Result<(), Memory>
    ensures { OnOk result ((address : ℕ) → tree.get nat_cmp targets.new address ≡ option_or (tree.get nat_cmp targets.old address) (if passes && nat_eq entry.offset address then Some (target_of entry) else None)) }
{
    if passes && !targets.contains_key(&entry.offset) {
        targets.insert(entry.offset, entry.target())?;
    }
    Ok(())
}
