//! Numbers for keys.

ghost use Rattle.std.specs.Prelude.{◌≡◌, ◌<◌, ◌^◌, length, IfOk, OnOk, MatchOption};
ghost use Rattle.indexmap.specs.IndexSet.{index_set_len};
ghost use Rattle.sq_finger.specs.Numbers.{number_in, seen_with, numbers_of, AreNumbers, NoDouble, IsFirstDouble};

use indexmap::IndexSet;
use sq_num::Memory;
use std::alloc::Global;
use std::collections::HashMap;
use std::hash::Hash;

// The number of one more key.
fn number<K: Copy + Eq + Hash>(
    seen: &mut IndexSet<K>,
    key: Option<K>,
) -> Result<Option<u32>, Memory>
    requires few { index_set_len seen.old < 2 ^ 32 }
    ensures number { IfOk result (λ number. number ≡ number_in K.eq seen.old.keys key) }
    ensures seen { OnOk result (seen.new.keys ≡ seen_with K.eq seen.old.keys key) }
{
    let Some(key) = key else {
        return Ok(None);
    };
    let (number, _) = seen.insert_full(key)?;
    Ok(Some(number as u32))
}

/// Numbers for keys, from 0 on in the order in which keys are first seen: equal keys have one number.
pub fn number_all<K: Copy + Eq + Hash>(
    alloc: Global,
    keys: &[Option<K>],
) -> Result<Vec<Option<u32>>, Memory>
    requires few { length keys.now < 2 ^ 32 }
    ensures value { IfOk result (λ numbers. numbers.items ≡ numbers_of K.eq keys.now) }
    ensures numbers { IfOk result (λ numbers. AreNumbers K.eq keys.now numbers.items) }
{
    let mut seen = IndexSet::with_capacity(alloc, keys.len())?;
    let mut numbers = Vec::with_capacity(alloc, keys.len())?;
    for key in keys {
        let number = number(&mut seen, *key)?;
        numbers.push(number)?;
    }
    Ok(numbers)
}

/// The first place whose number stands at an earlier place too, behind that place; None where no number stands twice.
pub fn first_double(
    alloc: Global,
    numbers: &[Option<u32>],
) -> Result<Option<(usize, usize)>, Memory>
    ensures { IfOk result (λ places. MatchOption places (NoDouble numbers.now) (IsFirstDouble numbers.now)) }
{
    let mut places = HashMap::new(alloc);
    for (j, number) in numbers.iter().enumerate() {
        let Some(number) = *number else { continue };
        if let Some(i) = places.insert(number, j)? {
            return Ok(Some((i, j)));
        }
    }
    Ok(None)
}
