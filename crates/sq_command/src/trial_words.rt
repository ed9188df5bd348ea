//! The words of `trial`.

ghost use Rattle.std.specs.Prelude.{◌≤◌};

/// `trial FIRST BLOCKS`.
#[derive(Clone, Copy, Debug)]
pub struct TrialWords {
    pub first: u32,
    pub blocks: u32,
    pub ghost some: { 1 ≤ blocks },
    pub ghost few: { blocks ≤ 4000 },
}
