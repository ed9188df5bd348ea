//! Numbers for runs of members that stand one behind the other.

ghost use Rattle.std.specs.Prelude.{◌≡◌, ℕ, ◌+◌, ◌<◌, ◌^◌, length, IfOk};
ghost use Rattle.sq_finger.specs.Numbers.{member_at};
ghost use Rattle.sq_finger.specs.Runs.{AreRunNumbers};

use crate::numbers::number_all;
use sq_num::Memory;
use std::alloc::Global;

// The number at a place, where there is one.
fn number_at(numbers: &[Option<u32>], place: usize) -> Option<u32>
    ensures { result ≡ member_at numbers.now place }
{
    numbers.get(place).copied().flatten()
}

/// The numbers of the runs of one member more, from those of the members themselves and those of the runs. No run is
/// copied.
pub fn number_longer_runs(
    alloc: Global,
    firsts: &[Option<u32>],
    runs: &[Option<u32>],
) -> Result<Vec<Option<u32>>, Memory>
    requires { length firsts.now < 2 ^ 32 }
    ensures { IfOk result (λ longer. (n : ℕ) → AreRunNumbers n firsts.now runs.now → AreRunNumbers (n + 1) firsts.now longer.items) }
{
    let mut pairs = Vec::with_capacity(alloc, firsts.len())?;
    for i in 0..firsts.len() {
        pairs.push(number_at(firsts, i).zip(number_at(runs, i + 1)))?;
    }
    number_all(alloc, &pairs)
}
