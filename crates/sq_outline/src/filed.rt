//! Names filed under keys.

use sq_num::Memory;
use std::alloc::Global;
use std::collections::HashMap;
use std::hash::Hash;

/// Names of blocks or of procedures under keys.
pub(crate) type Filed<K> = HashMap<K, Vec<u32>>;

/// Files a name under a key, where it isn't the last one there.
pub(crate) fn file<K: Eq + Hash + Drop>(
    alloc: Global,
    names: &mut Filed<K>,
    key: K,
    name: u32,
) -> Result<(), Memory> {
    let under = names.entry(key)?.or_insert(Vec::new(alloc));
    if under.last() != Some(&name) {
        under.push(name)?;
    }
    Ok(())
}

/// The names under a key.
pub(crate) fn filed<'a, K: Eq + Hash>(names: &'a Filed<K>, key: &K) -> &'a [u32] {
    match names.get(key) {
        Some(under) => under.as_slice(),
        None => &[],
    }
}
