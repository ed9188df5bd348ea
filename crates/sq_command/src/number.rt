//! Numbers in words.

ghost use Rattle.std.specs.Prelude.{◌≡◌, ◌↔◌, ℕ, ◌<◌, ◌^◌, decimal};
ghost use Rattle.sq_command.specs.Numbers.{number_of};

use itoa::Buffer;

/// The number below 2^32 of which the word is the decimal text, without a sign or leading zeros (`0`
/// alone is a number). It takes no memory.
pub fn number_of(word: &str) -> Option<u32>
    ensures value { result ≡ number_of word.now }
    ensures meaning { (n : ℕ) → n < 2 ^ 32 → (result ≡ Some n) ↔ (word.now ≡ decimal n) }
{
    let number = word.parse::<u32>().ok()?;
    let mut digits = Buffer::new();
    if digits.format(number) == word {
        Some(number)
    } else {
        None
    }
}
