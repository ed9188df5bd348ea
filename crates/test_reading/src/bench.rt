//! What the steps of a case work on.

use crate::built::{append, crowd_file, set, set_text};
use crate::graphs::{graph_text, written};
use crate::reading::words_in;
use crate::running::{Tagged, machine_of, machine_told, memory_of, memory_told};
use crate::system::{lines_of, push_event};
use crate::words::{sure, two};
use crate::{numbers, reading, system, values};
use anyhow::{Result, anyhow};
use sq_cases::{decimal, file_of, file_of_form, numbers_of};
use sq_machine::Machine;
use sq_memory::contents::Contents;
use sq_system::Log;
use sq_write::write_plain;
use std::alloc::Global;

/// A file, a machine, memory and what instructions on tagged values meet, each as the steps before made it, and a text
/// that is shown line by line.
#[derive(Drop)]
pub struct Bench<'f> {
    files: &'f str,
    file: Vec<u8>,
    shown: String,
    line: usize,
    log: Log,
    machine: Option<Machine>,
    memory: Contents<u32>,
    tagged: Tagged,
}

impl<'f> Bench<'f> {
    /// Nothing yet, but the files that have a name.
    pub fn new(alloc: Global, files: &'f str) -> Bench<'f> {
        Bench {
            files,
            file: Vec::new(alloc),
            shown: String::new(alloc),
            line: 0,
            log: Log::new(alloc),
            machine: None,
            memory: Contents::new(Vec::new(alloc)),
            tagged: Tagged::new(alloc),
        }
    }

    /// What a verb finds. One that only changes something finds an empty text.
    pub fn told(&mut self, alloc: Global, verb: &str, words: &str) -> Result<String> {
        if self.makes_file(alloc, verb, words)? || self.shows(alloc, verb, words)? {
            return Ok(String::new(alloc));
        }
        if let Some(found) = values::told(alloc, verb, words)? {
            return Ok(found);
        }
        if let Some(found) = numbers::told(alloc, verb, words)? {
            return Ok(found);
        }
        if let Some(found) = system::told(alloc, verb, words)? {
            return Ok(found);
        }
        if let Some(found) = self.ran(alloc, verb, words)? {
            return Ok(found);
        }
        self.looked(alloc, verb, words)
    }

    /// Makes or changes the file, if the verb does so.
    fn makes_file(&mut self, alloc: Global, verb: &str, words: &str) -> Result<bool> {
        match verb {
            "file" => self.file = file_of(alloc, self.files, words)?,
            "linked" => self.file = linked_file(alloc, words)?,
            "plain" => self.file = plain_of(alloc, words)?,
            "crowd" => self.file = crowd_file(alloc, words)?,
            "written" => self.file = sure(written(alloc, &self.file))?,
            "set" => set(alloc, &mut self.file, words)?,
            "code" => set_text(alloc, &mut self.file, words)?,
            "entries" => append(alloc, &mut self.file, words)?,
            "cut" => self.file.truncate(decimal(words)? as usize),
            _ => return Ok(false),
        }
        Ok(true)
    }

    /// Makes a text of several lines, if the verb does so.
    fn shows(&mut self, alloc: Global, verb: &str, words: &str) -> Result<bool> {
        match verb {
            "graph" => self.shown = graph_text(alloc, &self.file)?,
            "event" => push_event(alloc, &mut self.log, words)?,
            "lines" => self.shown = lines_of(alloc, &self.log)?,
            _ => return Ok(false),
        }
        self.line = 0;
        Ok(true)
    }

    /// What a verb on memory, a machine or tagged values finds, or None for another verb.
    fn ran(&mut self, alloc: Global, verb: &str, words: &str) -> Result<Option<String>> {
        match verb {
            "memory" => self.memory = memory_of(alloc, words)?,
            "machine" => match machine_of(alloc, words)? {
                Ok(machine) => self.machine = Some(machine),
                Err(fault) => return Ok(Some(format!(in alloc; "{fault:?}")?)),
            },
            _ => {
                if let Some(machine) = &mut self.machine {
                    return machine_told(alloc, machine, &mut self.log, verb, words);
                }
                if let Some(found) = memory_told(alloc, &mut self.memory, verb, words)? {
                    return Ok(Some(found));
                }
                return self.tagged.told(alloc, &mut self.log, verb, words);
            }
        }
        Ok(Some(String::new(alloc)))
    }

    /// What a look at the file or at what is shown finds.
    fn looked(&mut self, alloc: Global, verb: &str, words: &str) -> Result<String> {
        Ok(match verb {
            "line" => self.next_line(alloc)?,
            "events" => format!(in alloc; "{}", self.log.events().len())?,
            "length" => format!(in alloc; "{}", self.file.len())?,
            "words" => words_between(alloc, &self.file, words)?,
            "same" => self.is_file(alloc, words)?,
            _ => reading::told(alloc, &self.file, verb, words)?,
        })
    }

    /// Whether the file is that of a name.
    fn is_file(&self, alloc: Global, name: &str) -> Result<String> {
        let other = file_of(alloc, self.files, name)?;
        let same = self.file.as_slice() == other.as_slice();
        Ok(format!(in alloc; "{same}")?)
    }

    /// The next line of the text that is shown, or `none` behind the last one.
    pub fn next_line(&mut self, alloc: Global) -> Result<String> {
        let line = self.shown.lines().nth(self.line).unwrap_or("none");
        self.line = self.line.saturating_add(1);
        Ok(String::from_str(alloc, line)?)
    }
}

/// The linked file of these parts.
fn linked_file(alloc: Global, parts: &str) -> Result<Vec<u8>> {
    let form = format!(in alloc; "linked {parts}")?;
    Ok(file_of_form(alloc, &form)?)
}

/// The words from one offset of a file up to another.
fn words_between(alloc: Global, file: &[u8], offsets: &str) -> Result<String> {
    let (from, to) = two(offsets)?;
    let (from, to) = (decimal(from)?, decimal(to)?);
    let bytes = file.get(from as usize..to as usize);
    words_in(alloc, bytes.ok_or(anyhow!("too short a file"))?)
}

/// The plain file of these words.
fn plain_of(alloc: Global, words: &str) -> Result<Vec<u8>> {
    let words = numbers_of(alloc, words)?;
    if words.is_empty() || words.len() > 262_144 {
        return Err(anyhow!("no plain file has so many words"));
    }
    sure(write_plain(alloc, &words))
}
