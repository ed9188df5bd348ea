//! Places of addresses among words.

ghost use Rattle.std.specs.Prelude.{◌≡◌};
ghost use Rattle.sq_lift.specs.Places.{place_of};

/// The place of the word at an address, where words stand from `lo` on.
#[tactic(auto, unfolding(crate::specs::Places::place_of))]
pub(crate) fn place_of(lo: u32, address: u32) -> Option<usize>
    ensures { result ≡ place_of lo address }
{
    if lo <= address && (address - lo) % 4 == 0 {
        Some(((address - lo) / 4) as usize)
    } else {
        None
    }
}
