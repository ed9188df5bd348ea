//! The program `squeeze`: the top call over the files and streams of the host.
//!
//! It takes the arguments of the program but for its name as the words of a command line, calls `squeeze` over a desk of
//! the host, and ends with the answer as its status. What it promises above that call is only that an argument which is
//! not UTF-8, and want of memory before the call, are complained and end with 1 and 4.
#![tactic(auto)]

ghost use Rattle.std.specs.Prelude.{◌≡◌, ◌⊎◌, List, ℕ, drop, map, codes, string_bytes, IfOk};
ghost use Rattle.sq_top.specs.declared.ending.Ending.{Ending};
ghost use Rattle.sq_top.specs.Statuses.{status_of};
ghost use Rattle.sq_top.specs.Promises.{Ends};
ghost use Rattle.squeeze.specs.Complaints.{OnlyComplains};

mod host_desk;

use host_desk::HostDesk;
use sq_desk::Desk;
use sq_num::{Memory, WordList};
use std::alloc::Global;
use std::env;
use std::io::ErrorKind;
use std::process::ExitCode;

/// Why the arguments of the program were not read.
#[derive(Clone, Copy, Debug, PartialEq, Eq)]
enum ArgumentsFault {
    NotUtf8,
    Memory,
}

/// The words of a command line: the arguments but for the first, which is the program's name.
fn words_of(alloc: Global, arguments: &[String]) -> Result<WordList, Memory>
    ensures { IfOk result (λ words. words ≡ map string_bytes (drop 1 arguments.now)) }
{
    let mut words = WordList::new(alloc);
    if let Some((_name, rest)) = arguments.split_first() {
        for argument in rest {
            words.push(argument.as_str())?;
        }
    }
    Ok(words)
}

/// Complains the line of a fault before the call, which touches nothing else.
fn complain<D: Desk>(alloc: Global, desk: &mut D, fault: ArgumentsFault) -> u8
    ensures not_utf8 { fault ≡ ArgumentsFault.NotUtf8 → (result ≡ 1) × OnlyComplains (codes "words\n") (D.outside desk.old) (D.outside desk.new) }
    ensures memory { fault ≡ ArgumentsFault.Memory → (result ≡ 4) × OnlyComplains (codes "memory\n") (D.outside desk.old) (D.outside desk.new) }
{
    match fault {
        ArgumentsFault::NotUtf8 => {
            let _ = desk.complain(alloc, b"words\n");
            1
        }
        ArgumentsFault::Memory => {
            let _ = desk.complain(alloc, b"memory\n");
            4
        }
    }
}

/// The status of the command line with these arguments: that of its words, or 4 where there was no memory for them.
fn status_of<D: Desk>(alloc: Global, desk: &mut D, arguments: &[String]) -> u8
    ensures { ((ending : Ending) × (result ≡ status_of ending) × Ends (map string_bytes (drop 1 arguments.now)) ending (D.outside desk.old) (D.outside desk.new)) ⊎ ((result ≡ 4) × OnlyComplains (codes "memory\n") (D.outside desk.old) (D.outside desk.new)) }
{
    match words_of(alloc, arguments) {
        Ok(words) => sq_top::squeeze(alloc, desk, &words),
        Err(Memory) => complain(alloc, desk, ArgumentsFault::Memory),
    }
}

/// The arguments of the program, its name first.
fn arguments_of(rt: &HostRuntime, alloc: Global) -> Result<Vec<String>, ArgumentsFault> {
    let arguments = match env::args(rt) {
        Ok(arguments) => arguments,
        Err(error) if error.kind() == ErrorKind::OutOfMemory => return Err(ArgumentsFault::Memory),
        Err(_) => return Err(ArgumentsFault::NotUtf8),
    };
    let mut all = Vec::new(alloc);
    for argument in arguments {
        all.push(argument).map_err(|_| ArgumentsFault::Memory)?;
    }
    Ok(all)
}

fn main(rt: HostRuntime) -> ExitCode {
    let alloc = rt.alloc();
    let mut desk = HostDesk::new(&rt);
    ExitCode::from(match arguments_of(&rt, alloc) {
        Ok(arguments) => status_of(alloc, &mut desk, &arguments),
        Err(fault) => complain(alloc, &mut desk, fault),
    })
}

#[cfg(test)]
mod tests;
