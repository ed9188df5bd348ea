//! The functions of a file.

ghost use Rattle.std.specs.Prelude.{◌≡◌, ◌<◌, ◌^◌, length, map, option_map, slice_get};
ghost use Rattle.sq_names.specs.Names.{seen};

use std::marker::Model;

/// A function: the address of its first word, and the bytes of its name.
#[derive(Clone, Copy, Debug)]
pub struct Function<'a> {
    pub value: u32,
    pub name: &'a [u8],
}

/// The functions of a file, in the order of their symbols. Contracts see it as the list of them.
#[derive(Drop)]
pub struct Names<'a> {
    functions: Vec<Function<'a>>,
}

impl<'a> Model for Names<'a> {
    ghost use Rattle.std.specs.Prelude.{List, ◌<◌, ◌^◌, length, map};
    ghost use Rattle.sq_names.specs.Functions.{NamedFunction};
    ghost use Rattle.sq_names.specs.Names.{seen};

    ghost Value = { List NamedFunction };

    ghost view = { λ names. map seen names.functions.items };

    ghost invariant = { λ names. length names.functions.items < 2 ^ 32 };
}

impl<'a> Names<'a> {
    /// These functions.
    pub(crate) fn new(functions: Vec<Function<'a>>) -> Names<'a>
        requires { length functions.items < 2 ^ 32 }
        ensures { result ≡ map seen functions.entry.items }
    {
        Names { functions }
    }

    /// How many functions there are.
    pub fn len(&self) -> u32
        ensures { result ≡ length self.now }
    {
        self.functions.len() as u32
    }

    /// The function of this number, counted from 0, or None where there is none.
    pub fn get(&self, index: u32) -> Option<Function<'a>>
        ensures { option_map seen result ≡ slice_get self.now index }
    {
        self.functions.get(index as usize).copied()
    }
}
