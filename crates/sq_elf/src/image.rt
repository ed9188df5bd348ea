//! What a file loads: the pieces of its memory.

ghost use Rattle.std.specs.Prelude.{◌≡◌, ◌++◌, ◌∷◌, [], map, IfOk, OnOk, List};
ghost use Rattle.sq_elf.specs.Memory.{file_bytes_of, own_piece, copy_piece, segment_pieces, image_of};
ghost use Rattle.sq_elf.specs.Images.{seen};

use crate::header::phnum;
use crate::loads::has_memory;
use crate::ranges::bytes_at;
use crate::segment::{Segment, segment_at};
use crate::segment_rows::copy_size;
use sq_num::Memory;
use std::alloc::Global;
use std::marker::Model;

/// A piece of memory: `length` bytes from `address` on, first `bytes` and then zeros.
#[derive(Clone, Copy, Debug)]
pub struct Piece<'a> {
    pub address: u32,
    pub bytes: &'a [u8],
    pub length: u32,
    /// 1 can be executed (PF_X), 2 written (PF_W), 4 read (PF_R).
    pub flags: u32,
}

/// The pieces of a file, of which no two meet. Contracts see it as the list of them.
#[derive(Drop)]
pub struct Image<'a> {
    held: Vec<Piece<'a>>,
}

impl<'a> Model for Image<'a> {
    ghost use Rattle.std.specs.Prelude.{List, map};
    ghost use Rattle.sq_elf.specs.Memory.{MemoryPiece};
    ghost use Rattle.sq_elf.specs.Images.{seen};

    ghost Value = { List MemoryPiece };

    ghost view = { λ image. map seen image.held.items };
}

impl<'a> Image<'a> {
    /// The pieces, in the order of the program headers.
    pub fn pieces(&self) -> &[Piece<'a>]
        ensures { map seen result.now ≡ self.now }
    {
        self.held.as_slice()
    }
}

/// A piece that can only be read: PF_R.
const READABLE: u32 = 4;

/// The file bytes of a segment.
fn file_bytes<'a>(bytes: &'a [u8], segment: Segment) -> &'a [u8]
    ensures { result.now ≡ file_bytes_of bytes.now segment }
{
    match bytes_at(bytes, segment.offset, segment.filesz) {
        Some(part) => part,
        None => &[],
    }
}

fn own_piece<'a>(bytes: &'a [u8], segment: Segment) -> Piece<'a>
    ensures { seen result ≡ own_piece bytes.now segment }
{
    Piece {
        address: segment.address,
        bytes: file_bytes(bytes, segment),
        length: segment.memsz,
        flags: segment.flags,
    }
}

fn copy_piece<'a>(bytes: &'a [u8], segment: Segment) -> Piece<'a>
    ensures { seen result ≡ copy_piece bytes.now segment }
{
    Piece {
        address: segment.load_address,
        bytes: file_bytes(bytes, segment),
        length: segment.filesz,
        flags: READABLE,
    }
}

/// Appends the piece of a segment, and its load copy where it has one.
fn push_pieces<'a>(
    pieces: &mut Vec<Piece<'a>>,
    bytes: &'a [u8],
    segment: Segment,
) -> Result<(), Memory>
    ensures { OnOk result (map seen pieces.new.items ≡ map seen pieces.old.items ++ segment_pieces bytes.now segment) }
{
    pieces.push(own_piece(bytes, segment))?;
    if copy_size(segment) > 0 {
        pieces.push(copy_piece(bytes, segment))?;
    }
    Ok(())
}

/// The image of the file.
#[tactic(auto, unfolding(crate::specs::Memory::image_before))]
pub fn image_of<'a>(alloc: Global, bytes: &'a [u8]) -> Result<Image<'a>, Memory>
    ensures { IfOk result (λ image. image ≡ image_of bytes.now) }
{
    let mut held = Vec::new(alloc);
    for index in 0..phnum(bytes) {
        if has_memory(bytes, index) {
            push_pieces(&mut held, bytes, segment_at(bytes, index))?;
        }
    }
    Ok(Image { held })
}
