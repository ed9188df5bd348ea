//! The lines that tell a run.

ghost use Rattle.std.specs.Prelude.{◌≡◌, ◌≤◌, ◌+◌, ◌++◌, length, codes, decimal, IfOk, OnOk};
ghost use Rattle.sq_num.specs.Texts.{hex_text};
ghost use Rattle.sq_system.specs.Lines.{bytes_text, event_text, events_text, end_text};

use crate::event::{Event, Halt};
use crate::log::Log;
use sq_num::{Line, Memory};
use std::alloc::Global;

/// The lines of the log's events in order.
pub fn event_lines(alloc: Global, log: &Log) -> Result<Vec<u8>, Memory>
    ensures { IfOk result (λ lines. lines.items ≡ events_text log.now) }
{
    let mut lines = Vec::new(alloc);
    for event in log.events() {
        push_event(&mut lines, event)?;
        lines.push(b'\n')?;
    }
    Ok(lines)
}

/// Appends the line of the event, without its newline.
fn push_event(lines: &mut Vec<u8>, event: &Event) -> Result<(), Memory>
    ensures { OnOk result (lines.new.items ≡ lines.old.items ++ event_text event.now) }
{
    match event {
        Event::Wrote { fd, bytes } => {
            push_line(lines, &numbered("write ", *fd))?;
            push_text(lines, " ")?;
            push_bytes(lines, bytes.as_slice())
        }
        Event::Read { bytes } => {
            push_text(lines, "read ")?;
            push_bytes(lines, bytes.as_slice())
        }
        Event::Brk { answer } => push_line(lines, &placed("brk ", *answer)),
        Event::Failed { number, code } => {
            push_line(lines, &numbered("failed ", *number))?;
            push_line(lines, &numbered(" ", *code))
        }
        Event::Asked { number } => push_line(lines, &numbered("asked ", *number)),
    }
}

/// Appends two lower case digits for each byte, or `-` for none.
fn push_bytes(lines: &mut Vec<u8>, bytes: &[u8]) -> Result<(), Memory>
    ensures { OnOk result (lines.new.items ≡ lines.old.items ++ bytes_text bytes.now) }
{
    if bytes.is_empty() {
        return push_text(lines, "-");
    }
    let digits = hex::encode(*lines.allocator(), bytes)?;
    push_text(lines, digits.as_str())
}

/// Appends a text.
fn push_text(lines: &mut Vec<u8>, text: &str) -> Result<(), Memory>
    ensures { OnOk result (lines.new.items ≡ lines.old.items ++ text.now) }
{
    lines.extend_from_slice(text.as_bytes())?;
    Ok(())
}

/// Appends the bytes of a line.
fn push_line(lines: &mut Vec<u8>, line: &Line) -> Result<(), Memory>
    ensures { OnOk result (lines.new.items ≡ lines.old.items ++ line.now) }
{
    lines.extend_from_slice(line.as_slice())?;
    Ok(())
}

/// A label and a number in decimal.
#[tactic(auto, using(sq_num::proofs::Numbers::word_decimal))]
fn numbered(label: &str, number: u32) -> Line
    requires { length label.now ≤ 16 }
    ensures text { result ≡ label.now ++ decimal number }
    ensures short { length result ≤ 26 }
{
    let mut line = Line::new();
    line.push_text(label);
    line.push_number(u64::from(number));
    line
}

/// A label and an address.
fn placed(label: &str, address: u32) -> Line
    requires { length label.now ≤ 16 }
    ensures text { result ≡ label.now ++ hex_text address }
    ensures short { length result ≤ 26 }
{
    let mut line = Line::new();
    line.push_text(label);
    line.push_hex(address);
    line
}

/// The line that tells how a run ended, or that it came to its limit. It takes no memory.
pub fn end_line(end: Option<Halt>) -> Line
    ensures { result ≡ end_text end ++ codes "\n" }
{
    let mut line = match end {
        Some(Halt::Exit(status)) => numbered("exit ", status),
        Some(Halt::Illegal) => text_line("illegal"),
        Some(Halt::Breakpoint) => text_line("breakpoint"),
        Some(Halt::Fetch(address)) => placed("fetch ", address),
        Some(Halt::Load(address)) => placed("load ", address),
        Some(Halt::Store(address)) => placed("store ", address),
        None => text_line("limit"),
    };
    line.push_text("\n");
    line
}

/// A line that is just this text.
fn text_line(text: &str) -> Line
    requires { length text.now ≤ 16 }
    ensures value { result ≡ text.now }
    ensures short { length result ≤ 26 }
{
    let mut line = Line::new();
    line.push_text(text);
    line
}
