//! The lines that tell where the functions of a file went.

ghost use Rattle.std.specs.Prelude.{◌≡◌, ◌++◌, map, flat_map, option_map, IfOk, OnOk};
ghost use Rattle.std.specs.Option.{option_to_list};
ghost use Rattle.sq_names.specs.Listing.{AreListed, entries_of, entry_line, place_text, printable};
ghost use Rattle.sq_names.specs.Placed.{entry_of, entry_at};

use crate::names::{Function, Names};
use crate::track::{Track, Tracks};
use sq_num::{Line, Memory};
use std::alloc::Global;

/// A function by its name, and where it went.
#[derive(Clone, Copy, Debug, PartialEq, Eq, PartialOrd, Ord)]
pub struct Placed<'a> {
    pub track: Track,
    pub name: &'a [u8],
}

/// The function of a number with its track.
fn entry_at<'a>(names: &Names<'a>, tracks: &Tracks, index: u32) -> Option<Placed<'a>>
    ensures { option_map entry_of result ≡ entry_at names.now tracks.now index }
{
    let Function { name, .. } = names.get(index)?;
    let track = tracks.get(index)?;
    Some(Placed { track, name })
}

/// Appends the entry, where there is one.
fn push<'a>(entries: &mut Vec<Placed<'a>>, entry: Option<Placed<'a>>) -> Result<(), Memory>
    ensures { OnOk result (map entry_of entries.new.items ≡ map entry_of entries.old.items ++ option_to_list (option_map entry_of entry.entry)) }
{
    if let Some(entry) = entry {
        entries.push(entry)?;
    }
    Ok(())
}

/// Each function with its track.
fn entries<'a>(alloc: Global, names: &Names<'a>, tracks: &Tracks) -> Result<Vec<Placed<'a>>, Memory>
    ensures { IfOk result (λ entries. map entry_of entries.items ≡ entries_of names.now tracks.now) }
{
    let mut entries = Vec::new(alloc);
    for index in 0..names.len() {
        push(&mut entries, entry_at(names, tracks, index))?;
    }
    Ok(entries)
}

/// Where a function went: its address, or one word.
fn place_text(track: Track) -> Line
    ensures { result ≡ place_text track }
{
    let mut line = Line::new();
    match track {
        Track::At(address) => line.push_hex(address),
        Track::Inside => line.push_text("inside"),
        Track::Gone => line.push_text("gone"),
    }
    line
}

/// A byte of a name as it is told.
fn printable(byte: u8) -> u8
    ensures { result ≡ printable byte }
{
    if 0x21 <= byte && byte <= 0x7e {
        byte
    } else {
        b'?'
    }
}

/// Appends a name as it is told.
fn push_name(text: &mut Vec<u8>, name: &[u8]) -> Result<(), Memory>
    ensures { OnOk result (text.new.items ≡ text.old.items ++ map printable name.now) }
{
    for byte in name {
        text.push(printable(*byte))?;
    }
    Ok(())
}

/// Appends the line of a function.
fn push_entry(text: &mut Vec<u8>, entry: &Placed<'_>) -> Result<(), Memory>
    ensures { OnOk result (text.new.items ≡ text.old.items ++ entry_line (entry_of entry.now)) }
{
    text.extend_from_slice(place_text(entry.track).as_slice())?;
    text.push(b' ')?;
    push_name(text, entry.name)?;
    text.push(b'\n')?;
    Ok(())
}

/// The lines of these functions.
fn lines(alloc: Global, entries: &[Placed<'_>]) -> Result<Vec<u8>, Memory>
    ensures { IfOk result (λ text. text.items ≡ flat_map (λ entry. entry_line (entry_of entry)) entries.now) }
{
    let mut text = Vec::new(alloc);
    for entry in entries {
        push_entry(&mut text, entry)?;
    }
    Ok(text)
}

/// The lines that tell where each function went: those at an address, ascending, then those inside a block, then those that
/// are gone, each of them by its name. A byte of a name that isn't printable, or is a space, is told as `?`.
pub fn names_text(alloc: Global, names: &Names<'_>, tracks: &Tracks) -> Result<Vec<u8>, Memory>
    ensures { IfOk result (λ text. AreListed names.now tracks.now text.items) }
{
    let mut entries = entries(alloc, names, tracks)?;
    entries.sort_unstable();
    lines(alloc, entries.as_slice())
}
