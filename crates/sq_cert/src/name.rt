//! The words that name the rows of the cost rule.

ghost use Rattle.std.specs.Prelude.{◌≡◌};
ghost use Rattle.sq_cert.specs.Names.{name_of, row_named};

use sq_pass::Row;

/// The name of a row.
pub(crate) fn name_of(row: Row) -> &'static [u8]
    ensures { result.now ≡ name_of row }
{
    match row {
        Row::U => b"U",
        Row::J1 => b"J1",
        Row::J2 => b"J2",
        Row::J3 => b"J3",
        Row::C => b"C",
        Row::T => b"T",
        Row::O1 => b"O1",
        Row::O2 => b"O2",
        Row::O3 => b"O3",
        Row::O4 => b"O4",
        Row::W => b"W",
        Row::V => b"V",
        Row::L => b"L",
    }
}

/// The row of this name.
#[tactic(auto, unfolding(crate::specs::Names::row_named))]
pub(crate) fn row_named(name: &[u8]) -> Option<Row>
    ensures { result ≡ row_named name.now }
{
    match name {
        b"U" => Some(Row::U),
        b"J1" => Some(Row::J1),
        b"J2" => Some(Row::J2),
        b"J3" => Some(Row::J3),
        b"C" => Some(Row::C),
        b"T" => Some(Row::T),
        b"O1" => Some(Row::O1),
        b"O2" => Some(Row::O2),
        b"O3" => Some(Row::O3),
        b"O4" => Some(Row::O4),
        b"W" => Some(Row::W),
        b"V" => Some(Row::V),
        b"L" => Some(Row::L),
        _ => None,
    }
}
