//! The first place at which a test holds.

ghost use Rattle.std.specs.Prelude.{◌≡◌, ◌<◌, ◌^◌, ℕ, Bool};
ghost use Rattle.sq_num.specs.Refusals.{first_from};

/// The first of `count` places, from 0 on, at which the test holds.
pub fn first_where<F: Fn(u32) -> bool>(count: u32, test: F) -> Option<u32>
    requires { F.IsAlwaysCallable test }
    ensures { (holds : ℕ → Bool) → ((at : ℕ) (answer : Bool) → at < 2 ^ 32 → F.post test at answer → answer ≡ holds at) → result ≡ first_from holds 0 count }
{
    for place in 0..count {
        if test(place) {
            return Some(place);
        }
    }
    None
}
