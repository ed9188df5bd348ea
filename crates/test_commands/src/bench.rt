//! What cases act on: a desk, and how the last command ended.

use crate::test_desk::TestDesk;
use crate::texts::{text_of, words_of};
use anyhow::{Context, Error, bail, ensure};
use sq_cases::{
    CaseError, Step, Subject, decimal, decimals_of, expect, expect_shown, file_of, file_of_form,
    numbers_of, put_word,
};
use sq_desk::{MemoryDesk, SoundDesk};
use std::alloc::Global;
use std::str;

/// A desk, the last status, and how many bytes were printed and complained before that command.
#[derive(Drop)]
pub struct Bench<'t> {
    files: &'t str,
    desk: TestDesk,
    status: Option<u8>,
    printed: usize,
    complained: usize,
}

impl<'t> Bench<'t> {
    /// An empty desk. `files` describes files by their names.
    pub fn new(alloc: Global, files: &'t str) -> Bench<'t> {
        Bench {
            files,
            desk: TestDesk::Sound(SoundDesk::new(alloc)),
            status: None,
            printed: 0,
            complained: 0,
        }
    }

    /// Takes an empty desk, nothing done.
    fn take(&mut self, desk: TestDesk) {
        self.desk = desk;
        self.status = None;
        self.printed = 0;
        self.complained = 0;
    }

    /// Takes an empty desk of which the calls of these numbers fail.
    fn take_failing(&mut self, alloc: Global, failing: &str) -> Result<(), CaseError> {
        let mut calls = Vec::new(alloc);
        for call in decimals_of(alloc, failing)? {
            calls.push(u64::from(call))?;
        }
        self.take(TestDesk::Memory(MemoryDesk::new(alloc, &calls)?));
        Ok(())
    }

    /// The file that is given by its name or its form, by `lines LINE; LINE ..` of a text, or by `changed NAME OFFSET WORD
    /// ..`: the file of the name with these words put into it.
    pub fn described(&self, alloc: Global, file: &str) -> Result<Vec<u8>, CaseError> {
        match file.split_once(" ") {
            None => file_of(alloc, self.files, file),
            Some(("lines", lines)) => {
                let text = text_of(alloc, lines)?;
                Ok(Vec::from_slice(alloc, text.as_bytes())?)
            }
            Some(("changed", words)) => {
                let (name, changes) = words.split_once(" ").ok_or(CaseError::Columns)?;
                let mut bytes = file_of(alloc, self.files, name)?;
                put_words(alloc, &mut bytes, changes)?;
                Ok(bytes)
            }
            Some(_) => file_of_form(alloc, file),
        }
    }

    /// Puts a file on the desk.
    pub fn put(&mut self, name: &str, bytes: &[u8]) -> Result<(), CaseError> {
        self.desk.put(name, bytes)
    }

    /// Does what is given before the expectations, and says whether the verb is one of these.
    fn give(&mut self, alloc: Global, step: Step<'_>) -> Result<bool, Error> {
        match step.verb {
            "failing" => self.take_failing(alloc, step.words)?,
            "sound" => self.take(TestDesk::Sound(SoundDesk::new(alloc))),
            "file" => self.give_file(alloc, step.words)?,
            "cut" => self.cut(alloc, step.words)?,
            "set" => self.set(alloc, step.words)?,
            "do" => self.command(alloc, step.words)?,
            _ => return Ok(false),
        }
        Ok(true)
    }

    /// `file NAME FILE`
    fn give_file(&mut self, alloc: Global, words: &str) -> Result<(), CaseError> {
        let (name, file) = words.split_once(" ").ok_or(CaseError::Columns)?;
        let bytes = self.described(alloc, file)?;
        self.put(name, &bytes)
    }

    /// A copy of a file of the desk.
    pub fn copied(&self, alloc: Global, name: &str) -> Result<Vec<u8>, CaseError> {
        let file = self.desk.file(name).ok_or(CaseError::NoFile)?;
        Ok(Vec::from_slice(alloc, file)?)
    }

    /// `cut NAME LENGTH`: keeps so many bytes of a file.
    fn cut(&mut self, alloc: Global, words: &str) -> Result<(), CaseError> {
        let (name, length) = words.split_once(" ").ok_or(CaseError::Columns)?;
        let mut bytes = self.copied(alloc, name)?;
        bytes.truncate(decimal(length)? as usize);
        self.put(name, &bytes)
    }

    /// `set NAME OFFSET WORD ..`: puts words into a file.
    fn set(&mut self, alloc: Global, words: &str) -> Result<(), CaseError> {
        let (name, changes) = words.split_once(" ").ok_or(CaseError::Columns)?;
        let mut bytes = self.copied(alloc, name)?;
        put_words(alloc, &mut bytes, changes)?;
        self.put(name, &bytes)
    }

    /// Does a command line.
    pub fn command(&mut self, alloc: Global, line: &str) -> Result<(), CaseError> {
        let words = words_of(alloc, line)?;
        self.printed = self.desk.printed().len();
        self.complained = self.desk.complained().len();
        self.status = Some(self.desk.command(alloc, &words));
        Ok(())
    }

    /// Tests what is expected of the desk or of the last command, or does the row of a table.
    fn expect(&mut self, alloc: Global, step: Step<'_>) -> Result<(), Error> {
        match step.verb {
            "status" => self.expect_status(alloc, step.words),
            "prints" => told(alloc, step.words, self.desk.printed(), self.printed),
            "complains" => told(alloc, step.words, self.desk.complained(), self.complained),
            "holds" => self.holds(alloc, step.words),
            "no" => self.lacks(step.words),
            "load" | "store" | "print" | "complain" => self.call(alloc, step),
            _ => self.row(alloc, step),
        }
    }

    /// The status of the last command.
    fn expect_status(&self, alloc: Global, wanted: &str) -> Result<(), Error> {
        let status = self.status.context("nothing was done")?;
        expect_shown(alloc, wanted, &status)
    }

    /// `holds NAME FILE`
    fn holds(&self, alloc: Global, words: &str) -> Result<(), Error> {
        let (name, file) = words
            .split_once(" ")
            .context("a name and a file are wanted")?;
        let wanted = self.described(alloc, file)?;
        self.expect_file(name, Some(&wanted))
    }

    /// `no file NAME`
    fn lacks(&self, words: &str) -> Result<(), Error> {
        let name = words.strip_prefix("file ").context("a name is wanted")?;
        self.expect_file(name, None)
    }

    /// The file of this name, or that there is none.
    pub fn expect_file(&self, name: &str, wanted: Option<&[u8]>) -> Result<(), Error> {
        let found = self.desk.file(name);
        let lengths = (wanted.map(|file| file.len()), found.map(|file| file.len()));
        ensure!(
            wanted == found,
            "wanted another file {name}, found this (bytes: {lengths:?})"
        );
        Ok(())
    }

    /// A call of the desk, and ` | ` and what it answers behind it.
    fn call(&mut self, alloc: Global, step: Step<'_>) -> Result<(), Error> {
        let (words, wanted) = step.words.split_once(" | ").context("an answer is wanted")?;
        let answer = self.desk.call(alloc, step.verb, words)?;
        expect(wanted, &answer)
    }

    /// Does a command line, which must end with this status and print these lines, or complain them where the status is
    /// one of a complaint.
    pub fn tells(
        &mut self,
        alloc: Global,
        line: &str,
        status: &str,
        lines: &str,
    ) -> Result<(), Error> {
        self.command(alloc, line)?;
        let (printed, complained) = match status {
            "0" | "5" | "6" => (lines, "\\"),
            _ => ("\\", lines),
        };
        told(alloc, complained, self.desk.complained(), self.complained)?;
        told(alloc, printed, self.desk.printed(), self.printed)?;
        self.expect_status(alloc, status)
    }
}

/// Puts words into a file: `OFFSET WORD ..`, all in hexadecimal digits.
fn put_words(alloc: Global, bytes: &mut Vec<u8>, changes: &str) -> Result<(), CaseError> {
    let numbers = numbers_of(alloc, changes)?;
    for change in numbers.chunks(2) {
        let &[offset, word] = change else {
            return Err(CaseError::Columns);
        };
        put_word(bytes, offset, word)?;
    }
    Ok(())
}

/// Tests that the bytes from this place on are the text of these lines.
pub fn told(alloc: Global, lines: &str, bytes: &[u8], from: usize) -> Result<(), Error> {
    let found = str::from_utf8(bytes.get(from..).unwrap_or(&[])).context("no text was told")?;
    let wanted = text_of(alloc, lines)?;
    ensure!(
        wanted.as_str() == found,
        "wanted {wanted:?}, found {found:?}"
    );
    Ok(())
}

impl Subject for Bench<'_> {
    fn run(&mut self, alloc: Global, steps: &[Step<'_>]) -> Result<usize, Error> {
        self.take_failing(alloc, "")?;
        let mut expected: usize = 0;
        for step in steps {
            if !self.give(alloc, *step)? {
                self.expect(alloc, *step)?;
                expected = expected.saturating_add(1);
            }
        }
        Ok(expected)
    }
}
