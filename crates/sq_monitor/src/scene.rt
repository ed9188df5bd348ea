//! What a watched run never changes.

ghost use Rattle.std.specs.Prelude.{◌≡◌, ◌+◌, ◌≤◌, ◌^◌, option_map, IfSome};
ghost use Rattle.law_program.specs.Programs.{word_at, end_of};

use sq_lift::{Text, TextWord};
use sq_tagged::Setting;

/// Memory as it is laid out, with the range of text, and the words of text.
#[derive(Drop)]
pub struct Scene {
    pub setting: Setting,
    pub text: Text,
    ghost lo: { setting.lo ≡ text.lo },
    ghost hi: { setting.hi ≡ end_of text },
}

/// A word of text with its address.
#[derive(Clone, Copy, Debug)]
pub struct Placed {
    pub at: u32,
    pub word: TextWord,
}

impl Scene {
    /// The word of text at an address, where there is one.
    pub fn word(&self, pc: u64) -> Option<Placed>
        ensures word { option_map (λ p. p.word) result ≡ word_at self.now.text pc }
        ensures at { IfSome result (λ p. (p.at ≡ pc) × (pc + 4 ≤ 2 ^ 32)) }
    {
        if pc >= self.text.end() {
            return None;
        }
        let at = pc as u32;
        let word = self.text.word(at)?;
        Some(Placed { at, word })
    }
}
