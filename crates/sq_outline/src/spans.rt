//! Procedures among which all are that have a number.

ghost use Rattle.std.specs.Prelude.{◌+◌, ◌<◌, ◌^◌, ℕ, Some, nat_eq, OnOk};
ghost use Rattle.std.specs.HashMap.{get};
ghost use Rattle.sq_outline.specs.Spans.{IsIn, StillIn};

use sq_num::Memory;
use std::collections::HashMap;

/// Procedures from the first up to an end.
#[derive(Clone, Copy, Debug)]
pub(crate) struct Span {
    pub(crate) first: u32,
    pub(crate) end: u32,
}

/// The span of a procedure, and of those before.
fn widened(span: Option<Span>, procedure: u32) -> Span
    requires { procedure + 1 < 2 ^ 32 }
    ensures here { IsIn (Some result) procedure }
    ensures others { (p : ℕ) → IsIn span p → IsIn (Some result) p }
{
    let end = procedure + 1;
    match span {
        None => Span {
            first: procedure,
            end,
        },
        Some(span) => Span {
            first: span.first.min(procedure),
            end: span.end.max(end),
        },
    }
}

/// Notes that the procedure has the number.
pub(crate) fn note(
    spans: &mut HashMap<u64, Span>,
    number: u64,
    procedure: u32,
) -> Result<(), Memory>
    requires { procedure + 1 < 2 ^ 32 }
    ensures here { OnOk result (IsIn (get nat_eq spans.new number) procedure) }
    ensures others { OnOk result (StillIn (get nat_eq spans.old) (get nat_eq spans.new)) }
{
    let span = widened(spans.get(&number).copied(), procedure);
    spans.insert(number, span)?;
    Ok(())
}
