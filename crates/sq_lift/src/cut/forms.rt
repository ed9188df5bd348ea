//! Items and terms that words are read as.

ghost use Rattle.std.specs.Prelude.{◌≡◌};
ghost use Rattle.sq_lift.specs.Read.{seen};
ghost use Rattle.law_program.specs.Lifted.{form_of};
ghost use Rattle.sq_lift.specs.Forms.{shaped};

use crate::Reading;
use crate::cut::procedures::Procedures;
use sq_graph::{Item, Term};

/// An item, or a term. Names are addresses.
#[derive(Clone, Copy, Debug)]
pub(crate) enum Form {
    Item(Item),
    Term(Term),
}

/// What a reading is: a `jal` with a link is an Out where its target is noted, else a Call.
pub(crate) fn form_of(procedures: &Procedures, reading: Reading) -> Form
    ensures { shaped result ≡ form_of procedures.now (seen reading) }
{
    match reading {
        Reading::Item(item) => Form::Item(item),
        Reading::Term(term) => Form::Term(term),
        Reading::Links { link, to } => match procedures.number(to) {
            Some(procedure) => Form::Item(Item::Out { procedure }),
            None => Form::Term(Term::Call { link, to }),
        },
    }
}
