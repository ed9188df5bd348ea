//! Values that tell where they came from.

ghost use Rattle.std.specs.Prelude.{◌≡◌, ◌<◌, map, option_map};
ghost use Rattle.std.specs.List.{list_any};
ghost use Rattle.sq_isa.specs.Accesses.{bytes_number};
ghost use Rattle.law_follow.specs.Values.{Code, Part, is_tagged, is_stale, is_fragment, byte_of, is_part_of, are_parts_of, same_word, same_tag, whole};
ghost use Rattle.sq_tagged.specs.Views.{tag_of, value_of, cell_of, cells_in};

/// The address behind the last one.
const END: u64 = 1 << 32;

/// An address of code, or an upper half of an address.
#[derive(Clone, Copy, Debug, PartialEq, Eq)]
pub enum Tag {
    /// The address of a word of text.
    Code(u32),
    /// The address behind the last one, where text ends there: the link of a call at its last word.
    End,
    /// The upper half of the address `to`, and the word that the instruction made, if it makes one.
    Part { to: u32, word: Option<u32> },
}

/// What a register holds.
#[derive(Clone, Copy, Debug, PartialEq, Eq)]
pub enum Value {
    Num(u32),
    Tagged(Tag),
}

/// What a byte of memory holds.
#[derive(Clone, Copy, Debug, PartialEq, Eq)]
pub enum Cell {
    Byte(u8),
    /// Part 0, 1, 2 or 3 of a tagged value.
    Frag(Tag, u8),
    /// A byte that a relocation made of an address of code, and that no load may read.
    Stale,
}

/// The four bytes of a word, the one of least address first.
#[derive(Clone, Copy, Debug)]
pub struct WordCells {
    pub first: Cell,
    pub second: Cell,
    pub third: Cell,
    pub fourth: Cell,
}

/// Whether two upper halves were made as the same word.
fn same_word(one: Option<u32>, other: Option<u32>) -> bool
    ensures { result ≡ same_word one other }
{
    match (one, other) {
        (None, None) => true,
        (Some(v), Some(w)) => v == w,
        (None, Some(_)) | (Some(_), None) => false,
    }
}

impl Tag {
    /// Whether it is the address of code of this name.
    fn is_code(&self, name: u64) -> bool
        ensures { result ≡ same_tag (Code name) (tag_of self.now) }
    {
        match *self {
            Tag::Code(address) => name == u64::from(address),
            Tag::End => name == END,
            Tag::Part { .. } => false,
        }
    }

    /// Whether it is this upper half.
    fn is_part(&self, to: u32, word: Option<u32>) -> bool
        ensures { result ≡ same_tag (Part to word) (tag_of self.now) }
    {
        match *self {
            Tag::Code(_) | Tag::End => false,
            Tag::Part {
                to: other,
                word: made,
            } => to == other && same_word(word, made),
        }
    }

    /// Whether the two are the same.
    pub fn is_same(&self, other: &Tag) -> bool
        ensures { result ≡ same_tag (tag_of self.now) (tag_of other.now) }
    {
        match *self {
            Tag::Code(address) => other.is_code(u64::from(address)),
            Tag::End => other.is_code(END),
            Tag::Part { to, word } => other.is_part(to, word),
        }
    }
}

impl Value {
    /// Whether it is no number.
    pub fn is_tagged(&self) -> bool
        ensures { result ≡ is_tagged (value_of self.now) }
    {
        match *self {
            Value::Num(_) => false,
            Value::Tagged(_) => true,
        }
    }
}

impl Cell {
    /// Whether no load may read it.
    pub fn is_stale(&self) -> bool
        ensures { result ≡ is_stale (cell_of self.now) }
    {
        match *self {
            Cell::Stale => true,
            Cell::Byte(_) | Cell::Frag(..) => false,
        }
    }

    /// Whether it is a part of a tagged value.
    pub fn is_fragment(&self) -> bool
        ensures { result ≡ is_fragment (cell_of self.now) }
    {
        match *self {
            Cell::Frag(..) => true,
            Cell::Byte(_) | Cell::Stale => false,
        }
    }

    /// Its number, 0 where it has none.
    pub fn byte(&self) -> u8
        ensures value { result ≡ byte_of (cell_of self.now) }
        ensures range { byte_of (cell_of self.now) < 256 }
    {
        match *self {
            Cell::Byte(byte) => byte,
            Cell::Frag(..) | Cell::Stale => 0,
        }
    }

    /// Whether it is this part of this value.
    fn is_part_of(&self, tag: &Tag, number: u8) -> bool
        ensures { result ≡ is_part_of (tag_of tag.now) number (cell_of self.now) }
    {
        match self {
            Cell::Frag(other, part) => tag.is_same(other) && *part == number,
            Cell::Byte(_) | Cell::Stale => false,
        }
    }
}

impl WordCells {
    /// The value whose parts 0 to 3 these are.
    pub fn whole(&self) -> Option<Tag>
        ensures { option_map tag_of result ≡ whole (cells_in self.now) }
    {
        match self.first {
            Cell::Frag(tag, _) => {
                if self.are_parts_of(&tag) {
                    Some(tag)
                } else {
                    None
                }
            }
            Cell::Byte(_) | Cell::Stale => None,
        }
    }

    /// Whether they are parts 0 to 3 of this value.
    fn are_parts_of(&self, tag: &Tag) -> bool
        ensures { result ≡ are_parts_of (tag_of tag.now) 0 (cells_in self.now) }
    {
        self.first.is_part_of(tag, 0)
            && self.second.is_part_of(tag, 1)
            && self.third.is_part_of(tag, 2)
            && self.fourth.is_part_of(tag, 3)
    }

    /// Whether one of them may not be read.
    pub fn has_stale(&self) -> bool
        ensures { result ≡ list_any is_stale (cells_in self.now) }
    {
        self.first.is_stale()
            || self.second.is_stale()
            || self.third.is_stale()
            || self.fourth.is_stale()
    }

    /// Whether one of them is a part of a tagged value.
    pub fn has_fragment(&self) -> bool
        ensures { result ≡ list_any is_fragment (cells_in self.now) }
    {
        self.first.is_fragment()
            || self.second.is_fragment()
            || self.third.is_fragment()
            || self.fourth.is_fragment()
    }

    /// The number of the word, where they are numbers.
    pub fn number(&self) -> u32
        ensures { result ≡ bytes_number (map byte_of (cells_in self.now)) }
    {
        let upper = 256 * u32::from(self.fourth.byte()) + u32::from(self.third.byte());
        (upper * 256 + u32::from(self.second.byte())) * 256 + u32::from(self.first.byte())
    }
}
