//! The rows of tables about commands.

use crate::bench::{Bench, told};
use crate::texts::text_of;
use anyhow::{Context, Error, bail, ensure};
use sq_cases::{CaseError, Step, columns, decimal, expect_shown};
use sq_command::number_of;
use sq_num::Denied;
use std::alloc::Global;

impl Bench<'_> {
    /// Does the row of a table.
    pub fn row(&mut self, alloc: Global, step: Step<'_>) -> Result<(), Error> {
        match step.verb {
            "tells" => self.line_tells(alloc, step.words),
            "runs" => self.runs(alloc, step.words),
            "packs" => self.packs(alloc, step.words),
            "proves" => self.proves(alloc, step.words),
            "cuts" => self.cuts(alloc, step.words),
            "leads" => self.leads(alloc, step.words),
            "watches" => self.watches(alloc, step.words),
            "watches linked" => self.watches_linked(alloc, step.words, 0x0001_0000),
            "watches linked at 0" => self.watches_linked(alloc, step.words, 0),
            "watches zeros" => self.watches_zeros(alloc, step.words),
            "number" => is_number(alloc, step.words),
            verb => bail!("no verb {verb}"),
        }
    }

    /// Puts the files that words name on the desk. Some words are no names.
    fn put_named(&mut self, alloc: Global, words: &str) -> Result<(), CaseError> {
        for word in words.split_whitespace() {
            match self.described(alloc, word) {
                Ok(file) => self.put(word, &file)?,
                Err(CaseError::NoFile) => {}
                Err(error) => return Err(error),
            }
        }
        Ok(())
    }

    /// `LINE | STATUS | LINES`: the command line over the files that it names. No file changes.
    fn line_tells(&mut self, alloc: Global, row: &str) -> Result<(), Error> {
        let columns = columns(alloc, row)?;
        let &[line, status, lines] = columns.as_slice() else {
            bail!("three columns are wanted");
        };
        self.put_named(alloc, line)?;
        self.tells(alloc, line, status, lines)?;
        for word in line.split_whitespace() {
            let file = self.described(alloc, word).ok();
            self.expect_file(word, file.as_deref())?;
        }
        Ok(())
    }

    /// `FILE INPUT LIMIT BASE SIZE ARG .. | STATUS | LINES | STATUS | LINES | OUTPUT`: `run` and `watch` with these words.
    /// Where OUTPUT is `same`, `pack` gives a file that runs so, too.
    fn runs(&mut self, alloc: Global, row: &str) -> Result<(), Error> {
        let columns = columns(alloc, row)?;
        let &[words, run_status, run, watch_status, watch, output] = columns.as_slice() else {
            bail!("six columns are wanted");
        };
        let (name, start) = words.split_once(" ").context("a start is wanted")?;
        self.put_named(alloc, words)?;
        let line = format!(in alloc; "run {words}")?;
        self.tells(alloc, &line, run_status, run)?;
        let line = format!(in alloc; "watch {words}")?;
        self.tells(alloc, &line, watch_status, watch)?;
        match output {
            "-" => return Ok(()),
            "same" => {}
            _ => bail!("no output {output}"),
        }
        let line = format!(in alloc; "pack {name} out")?;
        self.command(alloc, &line)?;
        let line = format!(in alloc; "run out {start}")?;
        self.tells(alloc, &line, run_status, run)
    }

    /// `FILE | STATUS | LINES | OUTPUT`: `pack`. Its output is packed to itself; `-` stands for none.
    fn packs(&mut self, alloc: Global, row: &str) -> Result<(), Error> {
        let columns = columns(alloc, row)?;
        let &[file, status, lines, output] = columns.as_slice() else {
            bail!("four columns are wanted");
        };
        let file = self.described(alloc, file)?;
        self.put("in", &file)?;
        self.tells(alloc, "pack in out", status, lines)?;
        if output == "-" {
            self.expect_file("out", None)?;
            return refuses_bytes(alloc, &file, lines);
        }
        let wanted = self.described(alloc, output)?;
        self.expect_file("out", Some(&wanted))?;
        self.command(alloc, "pack out again")?;
        self.expect_file("again", Some(&wanted))?;
        packs_bytes(alloc, &file, &wanted)
    }

    /// `FILE | FIRST LAST | LINE`: `pack` refuses the file that is cut to any length from the first to the last one. LENGTH
    /// in the line stands for that length.
    fn cuts(&mut self, alloc: Global, row: &str) -> Result<(), Error> {
        let columns = columns(alloc, row)?;
        let &[file, lengths, line] = columns.as_slice() else {
            bail!("three columns are wanted");
        };
        let (first, last) = lengths.split_once(" ").context("two lengths are wanted")?;
        let file = self.described(alloc, file)?;
        for length in decimal(first)?..=decimal(last)? {
            let cut = file.get(..length as usize).context("a shorter file")?;
            let length = format!(in alloc; "{length:#010x}")?;
            let line = line.replace(alloc, "LENGTH", &length)?;
            self.put("in", cut)?;
            self.tells(alloc, "pack in out", "3", &line)?;
            self.expect_file("out", None)?;
        }
        Ok(())
    }

    /// `IN | OUT | LINES | STATUS | LINES`: `check` of two files, and of the certificate of these lines.
    fn leads(&mut self, alloc: Global, row: &str) -> Result<(), Error> {
        let columns = columns(alloc, row)?;
        let &[input, output, certificate, status, lines] = columns.as_slice() else {
            bail!("five columns are wanted");
        };
        let input = self.described(alloc, input)?;
        self.put("in", &input)?;
        let output = self.described(alloc, output)?;
        self.put("out", &output)?;
        let certificate = text_of(alloc, certificate)?;
        self.put("cert", certificate.as_bytes())?;
        self.tells(alloc, "check in out cert", status, lines)
    }
}

/// Tests that the bytes are packed to these without a desk, too.
fn packs_bytes(alloc: Global, file: &[u8], wanted: &[u8]) -> Result<(), Error> {
    match sq_top::pack_bytes(alloc, file) {
        Ok(packed) => {
            ensure!(
                packed.bytes.as_slice() == wanted,
                "wanted other bytes, found these"
            );
            Ok(())
        }
        Err(denied) => bail!("wanted bytes, found {denied:?}"),
    }
}

/// Tests that the bytes are refused with this line without a desk, too.
fn refuses_bytes(alloc: Global, file: &[u8], line: &str) -> Result<(), Error> {
    match sq_top::pack_bytes(alloc, file) {
        Ok(_packed) => bail!("wanted {line}, found a file"),
        Err(Denied::Refused(refusal)) => {
            let found = refusal.line();
            told(alloc, line, found.as_slice(), 0)
        }
        Err(Denied::Memory) => bail!("wanted {line}, found want of memory"),
    }
}

/// `"WORD" | NUMBER`: the number that a word of a command line is.
fn is_number(alloc: Global, row: &str) -> Result<(), Error> {
    let columns = columns(alloc, row)?;
    let &[word, number] = columns.as_slice() else {
        bail!("two columns are wanted");
    };
    let word = word.strip_prefix("\"").context("quotes are wanted")?;
    let word = word.strip_suffix("\"").context("quotes are wanted")?;
    expect_shown(alloc, number, &number_of(word))
}
