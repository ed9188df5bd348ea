//! How a run starts.

ghost use Rattle.std.specs.Prelude.{◌≡◌, ◌↔◌, ◌+◌, ◌≤◌, ◌<◌, ◌-◌, ◌∷◌, length, drop, false, IsTrue};
ghost use Rattle.std.specs.Option.{SomeIff};
ghost use Rattle.sq_system.specs.Starts.{start_of, StartFits, HasRoom, area_room, stack_pointer, meets, Meets, IsBadStart, IsValidStart};

use sq_num::WordList;

/// What a run starts with. Its arguments are the words from number `skip` on, counted from 0, and RAM
/// is `size` bytes from `base` on.
#[derive(Clone, Copy, Debug)]
pub struct Start<'s> {
    pub words: &'s WordList,
    pub skip: usize,
    pub input: &'s [u8],
    pub base: u32,
    pub size: u32,
}

/// A piece of memory: `length` bytes from `address` on.
#[derive(Clone, Copy, Debug, PartialEq, Eq)]
pub struct Extent {
    pub address: u32,
    pub length: u32,
}

/// Whether RAM may be `size` bytes from `base` on: both multiples of 16, the size from 16 to
/// 16,777,216, and the end at most 2^32.
pub fn start_fits(base: u32, size: u32) -> bool
    ensures { IsTrue result ↔ StartFits base size }
{
    base % 16 == 0
        && size % 16 == 0
        && (16..=0x100_0000).contains(&size)
        && u64::from(base) + u64::from(size) <= 1 << 32
}

impl Extent {
    /// Whether a byte from `from` up to, without, `end` is in the piece.
    pub fn meets(&self, from: u32, end: u64) -> bool
        ensures test { result ≡ meets from end self.now }
        ensures meaning { IsTrue result ↔ Meets from end self.now }
    {
        let first = u64::from(self.address.max(from));
        first < end && first < u64::from(self.address) + u64::from(self.length)
    }
}

/// The word at `index`, behind which the others follow.
pub fn word_at(words: &WordList, index: usize) -> &str
    requires { index < length words.now }
    ensures { drop index words.now ≡ result.now ∷ drop (index + 1) words.now }
{
    words.get(index).unwrap()
}

/// How many bytes of RAM the arguments and their words leave, or None where they take more than RAM.
pub fn room_left(start: &Start) -> Option<usize>
    ensures { SomeIff result (area_room (start_of start.now) ≤ start.now.size) (start.now.size - area_room (start_of start.now)) }
{
    let mut room = (start.size as usize).checked_sub(12)?;
    for index in start.skip..start.words.len() {
        let argument = word_at(start.words, index);
        room = room.checked_sub(argument.len())?.checked_sub(5)?;
    }
    Some(room)
}

/// The stack pointer of a start, or None where it would be below the base. It takes no memory.
pub fn start_pointer(start: &Start) -> Option<u32>
    requires { StartFits start.now.base start.now.size }
    ensures { SomeIff result (HasRoom (start_of start.now)) (stack_pointer (start_of start.now)) }
{
    let room = room_left(start)?;
    Some(start.base + (room - room % 16) as u32)
}

/// Whether the stack pointer would be below the base, or a byte from it to the end of RAM is in a
/// piece. It takes no memory.
pub fn is_bad_start(start: &Start, pieces: &[Extent]) -> bool
    requires { StartFits start.now.base start.now.size }
    ensures bad { IsTrue result ↔ IsBadStart pieces.now (start_of start.now) }
    ensures valid { (result ≡ false) ↔ IsValidStart pieces.now (start_of start.now) }
    ensures room { result ≡ false → HasRoom (start_of start.now) }
{
    let end = u64::from(start.base) + u64::from(start.size);
    match start_pointer(start) {
        None => true,
        Some(pointer) => pieces.iter().any(|piece| piece.meets(pointer, end)),
    }
}
