//! Why a file is refused.

ghost use Rattle.std.specs.Prelude.{◌≡◌, ◌≤◌, ◌+◌, ◌++◌, length, codes, decimal};
ghost use Rattle.sq_num.specs.RefusalTexts.{number_of, first_place, second_place, refusal_text, place_suffix};

use crate::line::Line;
use crate::memory::Memory;

/// Why a file is refused. Each variant has its number (the order in which they are listed here is
/// that of the numbers) and carries the places that its text names.
#[derive(Clone, Copy, Debug, PartialEq, Eq)]
pub enum Refusal {
    /// 1: more than 134,217,728 bytes.
    FileTooLong,
    /// 2: the first offset of the identification (magic number, 32 bits, least byte first, version
    /// 1) whose byte is missing or another one.
    NotElf { offset: u32 },
    /// 3: the length of a file shorter than the header, or the first offset whose field is refused.
    HeaderField { offset: u32 },
    /// 4: `e_flags` is not 0.
    Flags { value: u32 },
    /// 5: the program headers (table 1), the section headers (2) or the file bytes of a PT_LOAD (3)
    /// leave the file.
    TableOutside { table: u32, index: u32 },
    /// 6: a PT_LOAD with more bytes in the file than in memory, or one that ends past 2^32.
    BadSegment { index: u32 },
    /// 7: a program header for dynamic linking, an interpreter or thread-local storage (types 2, 3
    /// and 7).
    SegmentKind { index: u32, kind: u32 },
    /// 8: two ranges of memory of PT_LOADs meet.
    SegmentOverlap { index: u32 },
    /// 9: there is no executable section.
    NoText,
    /// 10: an executable section of another form.
    BadTextSection { section: u32 },
    /// 11: text in two segments, or with another section in it.
    TextSplit { section: u32 },
    /// 12: the text segment has a load address of its own.
    TextMoved { index: u32 },
    /// 13: more than 1,048,576 bytes of text.
    TextTooLarge { bytes: u64 },
    /// 14: relocations were not kept.
    NoRelocs,
    /// 15: a section of relocations of another form.
    BadRelocTable { section: u32 },
    /// 16: a symbol number that the table does not have.
    BadSymbol { section: u32, entry: u32 },
    /// 17: a relocation type that is not packed at its place.
    UnsupportedReloc { address: u32, kind: u32 },
    /// 18: a word that is not as its relocation requires.
    RelocDisagrees { address: u32, kind: u32 },
    /// 19: the entry is no word of text.
    BadEntry { address: u32 },
    /// 20: a reached word that is no instruction of RV32IMA.
    UnsupportedInstruction { address: u32, word: u32 },
    /// 21: a target that is no word of text.
    BadTarget { address: u32 },
    /// 22: an instruction that goes on, or calls, right before the end of text.
    FallsOffText { address: u32 },
    /// 23: an `auipc` without a relocation.
    UnrelocatedAuipc { address: u32 },
    /// 24: a load or store whose relocation names an address in text.
    ReadsText { address: u32 },
    /// 25: relocations at one word that differ.
    ConflictingReloc { address: u32 },
    /// 26: an entry of the note, counted from 1, that the file does not bear out; 0 for the section.
    BadNote { entry: u32 },
    /// 27: a lower half whose upper half is not there, or that has an addend of its own.
    LoneHalf { address: u32 },
    /// 28: more than 64 pieces (kind 1) or more than 16,777,216 loaded bytes (kind 2).
    TooLarge { kind: u32, count: u64 },
}

/// A place in the text of a refusal.
#[derive(Clone, Copy, Debug, PartialEq, Eq)]
enum Place {
    /// An address, an offset, a word or flags: `0x` and eight digits.
    Hex(u32),
    /// Any other number, in decimal.
    Number(u64),
}

/// Why there is no answer.
#[derive(Clone, Copy, Debug, PartialEq, Eq)]
pub enum Denied {
    /// The file is refused.
    Refused(Refusal),
    /// Memory ran out.
    Memory,
}

impl From<Memory> for Denied {
    ghost use Rattle.std.specs.Prelude.{◌≡◌};
    ghost use Rattle.sq_num.specs.declared.refusal.Denied.TheVariants.{Memory as OutOfMemory};

    ghost from_gives = { λ _ denied. denied ≡ OutOfMemory };

    fn from(_error: Memory) -> Denied {
        Denied::Memory
    }
}

impl Refusal {
    /// The number of the refusal, 1 to 28.
    fn number(&self) -> u32
        ensures value { result ≡ number_of self.now }
        ensures small { result ≤ 28 }
    {
        match self {
            Refusal::FileTooLong => 1,
            Refusal::NotElf { .. } => 2,
            Refusal::HeaderField { .. } => 3,
            Refusal::Flags { .. } => 4,
            Refusal::TableOutside { .. } => 5,
            Refusal::BadSegment { .. } => 6,
            Refusal::SegmentKind { .. } => 7,
            Refusal::SegmentOverlap { .. } => 8,
            Refusal::NoText => 9,
            Refusal::BadTextSection { .. } => 10,
            Refusal::TextSplit { .. } => 11,
            Refusal::TextMoved { .. } => 12,
            Refusal::TextTooLarge { .. } => 13,
            Refusal::NoRelocs => 14,
            Refusal::BadRelocTable { .. } => 15,
            Refusal::BadSymbol { .. } => 16,
            Refusal::UnsupportedReloc { .. } => 17,
            Refusal::RelocDisagrees { .. } => 18,
            Refusal::BadEntry { .. } => 19,
            Refusal::UnsupportedInstruction { .. } => 20,
            Refusal::BadTarget { .. } => 21,
            Refusal::FallsOffText { .. } => 22,
            Refusal::UnrelocatedAuipc { .. } => 23,
            Refusal::ReadsText { .. } => 24,
            Refusal::ConflictingReloc { .. } => 25,
            Refusal::BadNote { .. } => 26,
            Refusal::LoneHalf { .. } => 27,
            Refusal::TooLarge { .. } => 28,
        }
    }

    /// The first place that the refusal's text names.
    fn first_place(&self) -> Option<Place>
        ensures { result ≡ first_place self.now }
    {
        match self {
            Refusal::FileTooLong | Refusal::NoText | Refusal::NoRelocs => None,
            Refusal::NotElf { offset } | Refusal::HeaderField { offset } => Some(Place::Hex(
                *offset,
            )),
            Refusal::Flags { value } => Some(Place::Hex(*value)),
            Refusal::TableOutside { table, .. } => Some(Place::Number(u64::from(*table))),
            Refusal::BadSegment { index }
            | Refusal::SegmentKind { index, .. }
            | Refusal::SegmentOverlap { index }
            | Refusal::TextMoved { index } => Some(Place::Number(u64::from(*index))),
            Refusal::BadTextSection { section }
            | Refusal::TextSplit { section }
            | Refusal::BadRelocTable { section }
            | Refusal::BadSymbol { section, .. } => Some(Place::Number(u64::from(*section))),
            Refusal::TextTooLarge { bytes } => Some(Place::Number(*bytes)),
            Refusal::UnsupportedReloc { address, .. }
            | Refusal::RelocDisagrees { address, .. }
            | Refusal::BadEntry { address }
            | Refusal::UnsupportedInstruction { address, .. }
            | Refusal::BadTarget { address }
            | Refusal::FallsOffText { address }
            | Refusal::UnrelocatedAuipc { address }
            | Refusal::ReadsText { address }
            | Refusal::ConflictingReloc { address }
            | Refusal::LoneHalf { address } => Some(Place::Hex(*address)),
            Refusal::BadNote { entry } => Some(Place::Number(u64::from(*entry))),
            Refusal::TooLarge { kind, .. } => Some(Place::Number(u64::from(*kind))),
        }
    }

    /// The second place that the refusal's text names.
    fn second_place(&self) -> Option<Place>
        ensures { result ≡ second_place self.now }
    {
        match self {
            Refusal::TableOutside { index, .. } => Some(Place::Number(u64::from(*index))),
            Refusal::SegmentKind { kind, .. }
            | Refusal::UnsupportedReloc { kind, .. }
            | Refusal::RelocDisagrees { kind, .. } => Some(Place::Number(u64::from(*kind))),
            Refusal::BadSymbol { entry, .. } => Some(Place::Number(u64::from(*entry))),
            Refusal::UnsupportedInstruction { word, .. } => Some(Place::Hex(*word)),
            Refusal::TooLarge { count, .. } => Some(Place::Number(*count)),
            _ => None,
        }
    }

    /// The line that tells the refusal: `refused`, its number and its places, each after one space.
    #[tactic(auto, using(crate::proofs::Numbers::short_decimal), unfolding(crate::specs::RefusalTexts::refusal_text))]
    pub fn line(&self) -> Line
        ensures { result ≡ refusal_text self.now ++ codes "\n" }
    {
        let mut line = Line::new();
        line.push_text("refused ");
        line.push_number(u64::from(self.number()));
        push_place(&mut line, self.first_place());
        push_place(&mut line, self.second_place());
        line.push_text("\n");
        line
    }
}

/// Appends a space and the place, where there is one: at most 21 bytes.
fn push_place(line: &mut Line, place: Option<Place>)
    requires { length line.old + 21 ≤ 96 }
    ensures text { line.new ≡ line.old ++ place_suffix place }
    ensures short { length line.new ≤ length line.old + 21 }
{
    match place {
        None => {}
        Some(Place::Hex(v)) => {
            line.push_text(" ");
            line.push_hex(v);
        }
        Some(Place::Number(v)) => push_spaced_number(line, v),
    }
}

/// Appends a space and the number: at most 21 bytes.
#[tactic(auto, using(crate::proofs::Numbers::long_decimal))]
fn push_spaced_number(line: &mut Line, v: u64)
    requires { length line.old + 21 ≤ 96 }
    ensures text { line.new ≡ line.old ++ (codes " " ++ decimal v) }
    ensures short { length line.new ≤ length line.old + 21 }
{
    line.push_text(" ");
    line.push_number(v);
}
