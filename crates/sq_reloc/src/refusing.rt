//! The refusal of a file by its relocations: the first row of the table that fails, at its first place.

ghost use Rattle.std.specs.Prelude.{◌≡◌, ℕ, List};
ghost use Rattle.std.specs.List.{find};
ghost use Rattle.sq_num.specs.Refusals.{first_refusal};
ghost use Rattle.sq_reloc.specs.Entries.{entries_of};
ghost use Rattle.sq_reloc.specs.Refusing.{outside_refusal, table_rows, entry_rows};
ghost use Rattle.sq_reloc.specs.Tables.{is_bad_symbol};
ghost use Rattle.sq_reloc.specs.Outside.{is_refused_outside};

use crate::entry::Entry;
use crate::kinds::is_data_kind;
use crate::tables::{first_bad_table, first_rela};
use sq_elf::Elf;
use sq_num::Refusal;

/// The refusal by the relocation sections.
#[tactic(auto, unfolding(sq_num::specs::Refusals::first_from))]
pub fn table_refusal(elf: &Elf<'_>) -> Option<Refusal>
    ensures { result ≡ first_refusal (table_rows elf.now) }
{
    if first_rela(elf).is_none() {
        return Some(Refusal::NoRelocs);
    }
    match first_bad_table(elf) {
        Some(section) => Some(Refusal::BadRelocTable { section }),
        None => None,
    }
}

/// How an entry outside text is refused: by the word in the file, or by its type.
fn outside_refusal(entry: Entry) -> Refusal
    ensures { result ≡ outside_refusal entry }
{
    let address = entry.offset;
    let kind = entry.kind;
    if is_data_kind(kind) {
        Refusal::RelocDisagrees { address, kind }
    } else {
        Refusal::UnsupportedReloc { address, kind }
    }
}

/// The refusal by the entries: by the first that lacks its symbol, then by the first that is refused
/// outside text.
pub fn entry_refusal(lacking: Option<Entry>, refused: Option<Entry>) -> Option<Refusal>
    ensures { (bytes : List ℕ) → lacking ≡ find (is_bad_symbol bytes) (entries_of bytes) → refused ≡ find (is_refused_outside bytes) (entries_of bytes) → result ≡ first_refusal (entry_rows bytes) }
{
    if let Some(entry) = lacking {
        return Some(Refusal::BadSymbol {
            section: entry.section,
            entry: entry.number,
        });
    }
    match refused {
        Some(entry) => Some(outside_refusal(entry)),
        None => None,
    }
}
