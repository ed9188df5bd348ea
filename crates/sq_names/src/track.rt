//! Where the functions of a file went.

ghost use Rattle.std.specs.Prelude.{◌≡◌, ◌<◌, ◌^◌, length, slice_get};

use std::marker::Model;

/// Where a function is once the code of its file was rewritten, in the order in which they are listed.
#[derive(Clone, Copy, Debug, PartialEq, Eq, PartialOrd, Ord)]
pub enum Track {
    /// A block is still there that does what it begins with, and this is its address.
    At(u32),
    /// It begins inside a block.
    Inside,
    /// It is no part of the code.
    Gone,
}

/// Where the functions of a file went, in the order of its symbols. Contracts see it as the list of them.
#[derive(Drop)]
pub struct Tracks {
    tracks: Vec<Track>,
}

impl Model for Tracks {
    ghost use Rattle.std.specs.Prelude.{List, ◌<◌, ◌^◌, length};
    ghost use Rattle.sq_names.specs.declared.track.Track.{Track as Place};

    ghost Value = { List Place };

    ghost view = { λ t. t.tracks.items };

    ghost invariant = { λ t. length t.tracks.items < 2 ^ 32 };
}

impl Tracks {
    /// These tracks.
    pub fn new(tracks: Vec<Track>) -> Tracks
        requires { length tracks.items < 2 ^ 32 }
        ensures { result ≡ tracks.items }
    {
        Tracks { tracks }
    }

    /// How many functions there are.
    pub fn len(&self) -> u32
        ensures { result ≡ length self.now }
    {
        self.tracks.len() as u32
    }

    /// The track of the function of this number, counted from 0, or None where there is none.
    pub fn get(&self, index: u32) -> Option<Track>
        ensures { result ≡ slice_get self.now index }
    {
        self.tracks.get(index as usize).copied()
    }
}
