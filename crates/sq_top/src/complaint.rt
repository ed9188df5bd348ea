//! What is complained.

ghost use Rattle.std.specs.Prelude.{◌≡◌, ◌≤◌, ◌++◌, codes, decimal, length};
ghost use Rattle.sq_desk.specs.Outside.{KeepsFiles, KeepsPrinted, NoneFall};
ghost use Rattle.sq_top.specs.Endings.{ComplainsLine};
ghost use Rattle.sq_top.specs.Statuses.{complaint_of};

use crate::ending::{DeskCall, Ending};
use crate::lines::push_labelled;
use sq_desk::Desk;
use sq_num::Line;
use std::alloc::Global;

/// A line that holds just this text.
fn line_of(text: &str) -> Line
    requires { length text.now ≤ 96 }
    ensures { result ≡ text.now }
{
    let mut line = Line::new();
    line.push_text(text);
    line
}

/// `no LINE` and a newline.
fn difference_line(number: u32) -> Line
    ensures { result ≡ codes "no " ++ decimal number ++ codes "\n" }
{
    let mut line = Line::new();
    push_labelled(&mut line, "no ", number);
    line.push_text("\n");
    line
}

/// The line that is complained, or None where there is none. It takes no memory.
fn complaint_of(ending: &Ending) -> Option<Line>
    ensures { result ≡ complaint_of ending.now }
{
    match ending {
        Ending::Done | Ending::Break | Ending::Limit => None,
        Ending::Words => Some(line_of("words\n")),
        Ending::Desk(DeskCall::Load) => Some(line_of("desk load\n")),
        Ending::Desk(DeskCall::Store) => Some(line_of("desk store\n")),
        Ending::Desk(DeskCall::Print) => Some(line_of("desk print\n")),
        Ending::Refused(refusal) => Some(refusal.line()),
        Ending::Memory => Some(line_of("memory\n")),
        Ending::BadStart => Some(line_of("bad start\n")),
        Ending::Differs(line) => Some(difference_line(*line)),
    }
}

/// Complains the line of the ending, where it has one. A complaint that fails changes no status.
pub fn complain<D: Desk>(alloc: Global, desk: &mut D, ending: &Ending)
    ensures line { ComplainsLine (complaint_of ending.now) (D.outside desk.old) (D.outside desk.new) }
    ensures files { KeepsFiles (D.outside desk.old) (D.outside desk.new) }
    ensures printed { KeepsPrinted (D.outside desk.old) (D.outside desk.new) }
    ensures faults { NoneFall (D.outside desk.old) (D.outside desk.new) }
{
    if let Some(line) = complaint_of(ending) {
        let _ = desk.complain(alloc, line.as_slice());
    }
}
