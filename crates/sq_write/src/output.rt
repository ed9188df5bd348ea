//! The output file: header, piece headers, the pieces' bytes, five contents, section headers.

ghost use Rattle.std.specs.Prelude.{◌≡◌, ◌+◌, ◌*◌, ◌<◌, ◌^◌, ◌++◌, length, IfOk, OnOk};
ghost use Rattle.sq_write.specs.Output.{piece_bytes, piece_header, piece_headers, pieces_at, layout};
ghost use Rattle.sq_write.specs.Laid.{IsLaid, IsFew, pieces_in, contents_from, text_from, contents_in, seen, section_headers, IsFile};

use crate::fields::{push_gap, push_part, push_words};
use crate::file_parts::FileParts;
use crate::layout::{Layout, aligned};
use crate::parts::{SECTION_NAMES, SYMBOL_NAMES, SYMBOL_TABLE, push_file_header};
use crate::piece::Piece;
use crate::sections::SectionHeader;
use sq_num::Memory;
use std::alloc::Global;

/// How many bytes of these pieces stand in the file.
fn stored(pieces: &[Piece]) -> u32
    requires { length (piece_bytes pieces.now) < 2 ^ 32 }
    ensures { result ≡ length (piece_bytes pieces.now) }
{
    let mut size = 0;
    for piece in pieces {
        size += piece.stored();
    }
    size
}

/// Appends the program header of a piece whose bytes stand at the offset.
fn push_piece_header(file: &mut Vec<u8>, offset: u32, piece: &Piece) -> Result<(), Memory>
    requires { length piece.now.bytes < 2 ^ 32 }
    ensures { OnOk result (file.new.items ≡ file.old.items ++ piece_header offset piece.now) }
{
    push_words(
        file,
        &[
            1,
            offset,
            piece.address,
            piece.load_address,
            piece.stored(),
            piece.size,
            piece.flags,
            1,
        ],
    )
}

/// Appends the program headers of pieces whose bytes follow each other from the offset on.
fn push_piece_headers(file: &mut Vec<u8>, offset: u32, pieces: &[Piece]) -> Result<(), Memory>
    requires { offset + length (piece_bytes pieces.now) < 2 ^ 32 }
    ensures { OnOk result (file.new.items ≡ file.old.items ++ piece_headers offset pieces.now) }
{
    let mut offset = offset;
    for piece in pieces {
        push_piece_header(file, offset, piece)?;
        offset += piece.stored();
    }
    Ok(())
}

/// Appends the bytes of the pieces, without gaps.
fn push_piece_bytes(file: &mut Vec<u8>, pieces: &[Piece]) -> Result<(), Memory>
    ensures { OnOk result (file.new.items ≡ file.old.items ++ piece_bytes pieces.now) }
{
    for piece in pieces {
        piece.push_bytes(file)?;
    }
    Ok(())
}

/// Appends the five contents, each at the next multiple of 4.
fn push_contents(file: &mut Vec<u8>, p: &FileParts) -> Result<(), Memory>
    ensures { OnOk result (file.new.items ≡ file.old.items ++ layout (length file.old.items) (contents_in (seen p.now))) }
{
    push_part(file, &SYMBOL_TABLE)?;
    push_part(file, &SYMBOL_NAMES)?;
    push_part(file, &p.entries)?;
    push_part(file, &p.note)?;
    push_part(file, &SECTION_NAMES)?;
    Ok(())
}

fn length_of(bytes: &[u8]) -> u32
    requires { length bytes.now < 2 ^ 32 }
    ensures { result ≡ length bytes.now }
{
    bytes.len() as u32
}

/// Appends the seven section headers.
fn push_sections(file: &mut Vec<u8>, p: &FileParts, l: &Layout) -> Result<(), Memory>
    requires { IsFew (seen p.now) }
    ensures { OnOk result (file.new.items ≡ file.old.items ++ section_headers (seen p.now) l.now) }
{
    let start = p.text.address();
    let size = p.text.stored();
    let entries = length_of(&p.entries);
    let note = length_of(&p.note);
    SectionHeader::null().push(file)?;
    SectionHeader::text(start, l.text, size).push(file)?;
    SectionHeader::symbol_table(l.symbols).push(file)?;
    SectionHeader::symbol_names(l.symbol_names).push(file)?;
    SectionHeader::relocations(l.entries, entries).push(file)?;
    SectionHeader::note(l.note, note).push(file)?;
    SectionHeader::section_names(l.section_names).push(file)?;
    Ok(())
}

/// Where the program headers of pieces end, and the bytes of the first piece stand.
fn pieces_end(p: &FileParts) -> u32
    requires { IsFew (seen p.now) }
    ensures { result ≡ pieces_at (length (pieces_in (seen p.now))) }
{
    52 + 32 * (p.before.len() + 1 + p.behind.len()) as u32
}

/// Where the bytes of text stand.
fn text_at(p: &FileParts) -> u32
    requires { IsFew (seen p.now) }
    ensures { result ≡ text_from (seen p.now) }
{
    pieces_end(p) + stored(&p.before)
}

/// Where the contents begin, behind the bytes of pieces.
fn contents_at(p: &FileParts) -> u32
    requires { IsFew (seen p.now) }
    ensures value { result ≡ contents_from (seen p.now) }
    ensures small { result + length p.now.entries.items + length p.now.note.items + 400 < 2 ^ 32 }
{
    text_at(p) + p.text.stored() + stored(&p.behind)
}

/// Where everything stands.
fn layout_of(p: &FileParts) -> Layout
    requires { IsFew (seen p.now) }
    ensures { IsLaid (seen p.now) result }
{
    let symbols = aligned(contents_at(p));
    let symbol_names = aligned(symbols + 16);
    let entries = aligned(symbol_names + 1);
    let note = aligned(entries + p.entries.len() as u32);
    let section_names = aligned(note + p.note.len() as u32);
    let sections = aligned(section_names + 53);
    Layout {
        text: text_at(p),
        symbols,
        symbol_names,
        entries,
        note,
        section_names,
        sections,
    }
}

/// Appends the program headers of all pieces.
fn push_headers(file: &mut Vec<u8>, p: &FileParts) -> Result<(), Memory>
    requires { IsFew (seen p.now) }
    ensures { OnOk result (file.new.items ≡ file.old.items ++ piece_headers (pieces_at (length (pieces_in (seen p.now)))) (pieces_in (seen p.now))) }
{
    let text = text_at(p);
    push_piece_headers(file, pieces_end(p), &p.before)?;
    push_piece_header(file, text, &p.text)?;
    push_piece_headers(file, text + p.text.stored(), &p.behind)?;
    Ok(())
}

/// Appends the bytes of all pieces.
fn push_bytes(file: &mut Vec<u8>, p: &FileParts) -> Result<(), Memory>
    ensures { OnOk result (file.new.items ≡ file.old.items ++ piece_bytes (pieces_in (seen p.now))) }
{
    push_piece_bytes(file, &p.before)?;
    p.text.push_bytes(file)?;
    push_piece_bytes(file, &p.behind)?;
    Ok(())
}

/// How many pieces there are.
fn count_of(p: &FileParts) -> u16
    requires { IsFew (seen p.now) }
    ensures { result ≡ length (pieces_in (seen p.now)) }
{
    (p.before.len() + 1 + p.behind.len()) as u16
}

/// The output file of these parts.
pub(crate) fn output_file(alloc: Global, p: &FileParts) -> Result<Vec<u8>, Memory>
    requires { IsFew (seen p.now) }
    ensures { IfOk result (λ file. IsFile (seen p.now) file.items) }
{
    let l = layout_of(p);
    let count = count_of(p);
    let mut file = Vec::with_capacity(alloc, l.sections as usize + 280)?;
    push_file_header(&mut file, p.entry, count, l.sections)?;
    push_headers(&mut file, p)?;
    push_bytes(&mut file, p)?;
    push_contents(&mut file, p)?;
    push_gap(&mut file)?;
    push_sections(&mut file, p, &l)?;
    Ok(file)
}
