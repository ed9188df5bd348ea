//! Where each place of a graph stands in their line.

ghost use Rattle.std.specs.Prelude.{◌<◌, ◌^◌, length, IfOk};
ghost use Rattle.std.specs.HashMap.{get};
ghost use Rattle.sq_finger.specs.Classes.{is_same_kind};
ghost use Rattle.sq_fold.specs.Index.{IsIndex};

use sq_finger::WindowAt;
use sq_num::Memory;
use std::alloc::Global;
use std::collections::HashMap;

/// Where each place stands in a line, by its block and its number in it.
pub fn index_places(alloc: Global, line: &[WindowAt]) -> Result<HashMap<(u32, u32), u32>, Memory>
    requires { length line.now < 2 ^ 32 }
    ensures { IfOk result (λ index. IsIndex line.now (get is_same_kind index)) }
{
    let mut index = HashMap::new(alloc);
    for (i, place) in line.iter().enumerate() {
        index.insert((place.block, place.at), i as u32)?;
    }
    Ok(index)
}
