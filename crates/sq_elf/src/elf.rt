//! An accepted file. Contracts see it as its bytes.

ghost use Rattle.std.specs.Prelude.{◌≡◌, ◌≤◌, ◌^◌, true, IfOk, IsSome, OnOk};
ghost use Rattle.std.specs.Option.{option_map};
ghost use Rattle.sq_num.specs.declared.refusal.Refusal.{Refusal};
ghost use Rattle.sq_elf.specs.Headers.{entry_of, shnum_of, segment_of};
ghost use Rattle.sq_elf.specs.Text.{text_of, text_segment_of, is_text_word, IsTextIn};
ghost use Rattle.sq_elf.specs.Memory.{image_of, AreApart, AreSegments};
ghost use Rattle.sq_elf.specs.Sizes.{loaded_of};
ghost use Rattle.sq_elf.specs.Refusing.{file_refusal_of};
ghost use Rattle.sq_elf.specs.Reading.{word_of, section_at, contents_of};

use crate::header::{shnum, u32_field};
use crate::image::{Image, image_of};
use crate::loads::sorted_segments;
use crate::ranges::bytes_at;
use crate::refusing::file_refusal;
use crate::section::{Section, section_at};
use crate::segment::Segment;
use crate::text::{Text, text_range};
use crate::totals::loaded;
use crate::word::word_at;
use sq_num::{Denied, Memory};
use std::alloc::Global;
use std::marker::Model;

/// A file that is not refused. It hands out slices of the bytes that it was read from.
#[derive(Drop)]
pub struct Elf<'a> {
    bytes: &'a [u8],
    text: Text,
    loaded: u32,
    segments: Vec<Segment>,
}

impl<'a> Model for Elf<'a> {
    ghost use Rattle.std.specs.Prelude.{List, ℕ};
    ghost use Rattle.sq_elf.specs.Reading.{Keeps};

    ghost Value = { List ℕ };

    ghost view = { λ e. e.bytes.now };

    ghost invariant = { λ e. Keeps e.bytes.now e.text e.loaded e.segments.items };
}

/// Reads the file, or refuses it by the first row of the table of refusals that fails.
#[tactic(auto, using(crate::proofs::Accepted::few_loaded))]
pub fn read_elf<'a>(alloc: Global, bytes: &'a [u8]) -> Result<Elf<'a>, Denied>
    ensures read { IfOk result (λ elf. elf ≡ bytes.now) }
    ensures accepted { OnOk result (file_refusal_of bytes.now ≡ None) }
    ensures refused { (refusal : Refusal) → result ≡ Err (Denied.Refused refusal) → file_refusal_of bytes.now ≡ Some refusal }
    ensures exact { (refusal : Refusal) → file_refusal_of bytes.now ≡ Some refusal → result ≡ Err (Denied.Refused refusal) }
{
    if let Some(refusal) = file_refusal(bytes) {
        return Err(Denied::Refused(refusal));
    }
    let segments = sorted_segments(alloc, bytes)?;
    Ok(Elf {
        bytes,
        text: text_range(bytes),
        loaded: loaded(bytes) as u32,
        segments,
    })
}

impl<'a> Elf<'a> {
    /// The bytes of the file, which is not refused.
    pub fn bytes(&self) -> &'a [u8]
        ensures value { result.now ≡ self.now }
        ensures accepted { file_refusal_of self.now ≡ None }
    {
        self.bytes
    }

    /// It does nothing. Nothing refuses the file by its headers, segments and sections, and its text ends within 2^32.
    pub fn learn(&self)
        ensures accepted { file_refusal_of self.now ≡ None }
        ensures high { (text_of self.now).hi ≤ 2 ^ 32 }
    {
        let _bytes = self.bytes();
        let _text = self.text();
    }

    /// The range of text. It lies in the file bytes of the text segment, in whole words.
    pub fn text(&self) -> Text
        ensures value { result ≡ text_of self.now }
        ensures inside { IsTextIn (segment_of self.now (text_segment_of self.now)) result }
        ensures high { result.hi ≤ 2 ^ 32 }
    {
        self.text
    }

    /// The address at which a run starts.
    pub fn entry(&self) -> u32
        ensures { result ≡ entry_of self.now }
    {
        u32_field(self.bytes, 24)
    }

    /// The file bytes of all PT_LOADs.
    pub fn loaded(&self) -> u32
        ensures { result ≡ loaded_of self.now }
    {
        self.loaded
    }

    /// The segments with bytes in memory, by address.
    pub fn segments(&self) -> &[Segment]
        ensures { AreSegments self.now result.now }
    {
        self.segments.as_slice()
    }

    /// The pieces of memory that the file loads, of which no two meet.
    #[tactic(auto, using(crate::proofs::Apart::pieces_are_apart))]
    pub fn image(&self, alloc: Global) -> Result<Image<'a>, Memory>
        ensures value { IfOk result (λ image. image ≡ image_of self.now) }
        ensures apart { AreApart (image_of self.now) }
    {
        image_of(alloc, self.bytes)
    }

    /// The word at the address, or None where its four bytes are not all file bytes of one segment at
    /// its virtual address.
    #[tactic(auto, using(crate::proofs::TextFacts::text_has_words))]
    pub fn word(&self, address: u32) -> Option<u32>
        ensures value { result ≡ word_of self.now address }
        ensures text { is_text_word (text_of self.now) address ≡ true → IsSome result }
    {
        word_at(self.bytes, address)
    }

    /// How many section headers there are.
    pub fn sections(&self) -> u32
        ensures { result ≡ shnum_of self.now }
    {
        shnum(self.bytes)
    }

    /// The section of this number, or None where there is none. Section 0 counts as zeros.
    pub fn section(&self, index: u32) -> Option<Section>
        ensures { result ≡ section_at self.now index }
    {
        if index < self.sections() {
            Some(section_at(self.bytes, index))
        } else {
            None
        }
    }

    /// The bytes of a section, or None where there is no such section or its bytes leave the file.
    pub fn contents(&self, index: u32) -> Option<&'a [u8]>
        ensures { option_map (λ part. part.now) result ≡ contents_of self.now index }
    {
        match self.section(index) {
            Some(section) => bytes_at(self.bytes, section.offset, section.size),
            None => None,
        }
    }
}
