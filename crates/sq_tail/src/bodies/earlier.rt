//! Places of equal keys.

ghost use Rattle.std.specs.Prelude.{IfOk};
ghost use Rattle.sq_tail.specs.BodiesEarlier.{AreEarlier};

use sq_num::Memory;
use std::alloc::Global;
use std::collections::HashMap;

/// For each place the last one below it that has the same key.
pub(crate) fn earlier_places(alloc: Global, keys: &[u64]) -> Result<Vec<Option<usize>>, Memory>
    ensures { IfOk result (λ places. AreEarlier keys.now places.items) }
{
    let mut last = HashMap::new(alloc);
    let mut places = Vec::with_capacity(alloc, keys.len())?;
    for (i, key) in keys.iter().enumerate() {
        let earlier = last.insert(*key, i)?;
        places.push(earlier)?;
    }
    Ok(places)
}
