//! The desks of cases.

use crate::texts::text_of;
use anyhow::{Context, Error, bail};
use sq_cases::{CaseError, decimal};
use sq_desk::{Desk, MemoryDesk, SoundDesk};
use sq_num::WordList;
use std::alloc::Global;
use std::str;

/// A desk in memory.
#[derive(Drop)]
pub enum TestDesk {
    Memory(MemoryDesk),
    Sound(SoundDesk),
}

impl TestDesk {
    /// Puts a file under its name.
    pub fn put(&mut self, name: &str, bytes: &[u8]) -> Result<(), CaseError> {
        match self {
            TestDesk::Memory(desk) => desk.put(name, bytes)?,
            TestDesk::Sound(desk) => desk.put(name, bytes)?,
        }
        Ok(())
    }

    /// The file of this name.
    pub fn file(&self, name: &str) -> Option<&[u8]> {
        match self {
            TestDesk::Memory(desk) => desk.file(name),
            TestDesk::Sound(desk) => desk.file(name),
        }
    }

    /// All that was printed.
    pub fn printed(&self) -> &[u8] {
        match self {
            TestDesk::Memory(desk) => desk.printed(),
            TestDesk::Sound(desk) => desk.printed(),
        }
    }

    /// All that was complained.
    pub fn complained(&self) -> &[u8] {
        match self {
            TestDesk::Memory(desk) => desk.complained(),
            TestDesk::Sound(desk) => desk.complained(),
        }
    }

    /// The status of a command line.
    pub fn command(&mut self, alloc: Global, words: &WordList) -> u8 {
        match self {
            TestDesk::Memory(desk) => sq_top::squeeze(alloc, desk, words),
            TestDesk::Sound(desk) => sq_top::squeeze(alloc, desk, words),
        }
    }

    /// What a call of the desk answers.
    pub fn call(&mut self, alloc: Global, verb: &str, words: &str) -> Result<String, Error> {
        match self {
            TestDesk::Memory(desk) => call(alloc, desk, verb, words),
            TestDesk::Sound(desk) => call(alloc, desk, verb, words),
        }
    }
}

/// What a call of a desk answers: `load NAME LIMIT`, `store NAME TEXT`, `print TEXT` or `complain TEXT`.
fn call<D: Desk>(alloc: Global, desk: &mut D, verb: &str, words: &str) -> Result<String, Error> {
    let (name, rest) = words.split_once(" ").unwrap_or((words, ""));
    let outcome = match verb {
        "load" => return load(alloc, desk, name, decimal(rest)?),
        "store" => desk.store(alloc, name, text_of(alloc, rest)?.as_bytes()),
        "print" => desk.print(alloc, text_of(alloc, words)?.as_bytes()),
        "complain" => desk.complain(alloc, text_of(alloc, words)?.as_bytes()),
        _ => bail!("no verb {verb}"),
    };
    Ok(format!(in alloc; "{outcome:?}")?)
}

/// What a load answers, with its bytes as a text.
fn load<D: Desk>(alloc: Global, desk: &mut D, name: &str, limit: u32) -> Result<String, Error> {
    match desk.load(alloc, name, limit) {
        Ok(bytes) => {
            let text = str::from_utf8(&bytes).context("no text was loaded")?;
            Ok(format!(in alloc; "Ok({text:?})")?)
        }
        Err(fault) => Ok(format!(in alloc; "Err({fault:?})")?),
    }
}
