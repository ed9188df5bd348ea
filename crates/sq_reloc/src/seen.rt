//! What the entries say of a word, kept entry by entry.

ghost use Rattle.std.specs.Prelude.{◌≡◌};
ghost use Rattle.sq_reloc.specs.Seen.{is_unlike, kind_if, seen_with, mark_seen};

use crate::entry::Entry;
use crate::mark::Mark;
use crate::verdict::Verdict;

/// The first entry that touches a word: its type and target, and the mark that it gives.
#[derive(Clone, Copy, Debug, PartialEq, Eq)]
pub struct First {
    pub kind: u32,
    pub target: u32,
    pub mark: Mark,
}

/// What the entries so far say of a word: the first of them, the type of the first at each fault, and
/// whether one differs from the first or is lone.
#[derive(Clone, Copy, Debug, PartialEq, Eq)]
pub struct Seen {
    pub first: Option<First>,
    pub unsupported: Option<u32>,
    pub disagrees: Option<u32>,
    pub differs: bool,
    pub lone: bool,
}

impl Seen {
    /// No entry.
    pub const NOTHING: Seen = Seen {
        first: None,
        unsupported: None,
        disagrees: None,
        differs: false,
        lone: false,
    };

    /// Whether the entry differs from the first in type or in target.
    fn is_unlike(&self, entry: Entry) -> bool
        ensures { result ≡ is_unlike self.now.first entry }
    {
        match self.first {
            Some(first) => first.kind != entry.kind || first.target != entry.target(),
            None => false,
        }
    }

    /// With one entry more, which gives this mark to the word.
    pub fn with(&self, entry: Entry, verdict: Verdict, mark: Mark) -> Seen
        ensures { result ≡ seen_with self.now entry verdict mark }
    {
        let first = First {
            kind: entry.kind,
            target: entry.target(),
            mark,
        };
        Seen {
            first: self.first.or(Some(first)),
            unsupported: self
                .unsupported
                .or(kind_if(verdict.unsupported, entry.kind)),
            disagrees: self.disagrees.or(kind_if(verdict.disagrees, entry.kind)),
            differs: self.differs || self.is_unlike(entry),
            lone: self.lone || verdict.lone,
        }
    }

    /// The mark of the word: the first of four faults, else that of the first entry.
    pub fn mark(&self) -> Mark
        ensures { result ≡ mark_seen self.now }
    {
        if let Some(kind) = self.unsupported {
            return Mark::Unsupported(kind);
        }
        if let Some(kind) = self.disagrees {
            return Mark::Disagrees(kind);
        }
        if self.differs {
            return Mark::Conflict;
        }
        if self.lone {
            return Mark::Lone;
        }
        match self.first {
            Some(first) => first.mark,
            None => Mark::Plain,
        }
    }
}

/// The type, where the test holds.
fn kind_if(test: bool, kind: u32) -> Option<u32>
    ensures { result ≡ kind_if test kind }
{
    if test { Some(kind) } else { None }
}
