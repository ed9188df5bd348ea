//! How far a branch reaches.

ghost use Rattle.std.specs.Prelude.{◌≡◌, ◌<◌, ◌^◌, pos, ◌-ℤ◌, ◌↔◌, IsTrue};
ghost use Rattle.sq_graph.specs.Places.{Reaches};

/// Whether a branch reaches its target at this distance in bytes: exactly -4096 to 4094.
pub fn reaches(distance: i64) -> bool
    ensures { IsTrue result ↔ Reaches distance }
{
    -4096 <= distance && distance <= 4094
}

/// How far a place is behind another one.
pub fn distance(target: u64, at: u64) -> i64
    requires target { target < 2 ^ 40 }
    requires at { at < 2 ^ 40 }
    ensures { result ≡ pos target -ℤ pos at }
{
    target as i64 - at as i64
}
