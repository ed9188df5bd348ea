//! The rows of tables about watches.
//!
//! A row has its assembly, the words of that, the status, and what is told. `out: li a7,93; ecall; j .` stands behind
//! the words, so that a case which comes to its end exits with a0.

use crate::bench::Bench;
use crate::marked::{Marked, marked_file};
use anyhow::{Error, bail};
use sq_cases::{CaseError, columns, hexadecimal, numbers_of, plain_of, size_of};
use std::alloc::Global;

/// Where the data of a row stand.
const DATA: u32 = 0x0002_0000;

/// Where their load copy stands: it is moved by half a word, so that one load can meet a code word and a stale one.
const COPY: u32 = 0x0003_0002;

/// The words of a row, and the exit behind them.
fn text_of(alloc: Global, words: &str) -> Result<Vec<u32>, CaseError> {
    let mut text = numbers_of(alloc, words)?;
    text.extend_from_slice(&[0x05d0_0893, 0x0000_0073, 0x0000_006f])?;
    Ok(text)
}

impl Bench<'_> {
    /// What the watch of a file tells whose input is `hi` and a newline.
    fn watched(
        &mut self,
        alloc: Global,
        file: &[u8],
        line: &str,
        told: (&str, &str),
    ) -> Result<(), Error> {
        let (status, lines) = told;
        self.put("a", file)?;
        self.put("e", b"hi\n")?;
        self.tells(alloc, line, status, lines)
    }

    /// `ASSEMBLY | WORDS | STATUS | LINES`, in a plain file.
    pub fn watches(&mut self, alloc: Global, row: &str) -> Result<(), Error> {
        let columns = columns(alloc, row)?;
        let &[_assembly, words, status, lines] = columns.as_slice() else {
            bail!("four columns are wanted");
        };
        let text = text_of(alloc, words)?;
        let file = plain_of(alloc, &text)?;
        self.watched(alloc, &file, "watch a e 100 1048576 65536", (status, lines))
    }

    /// `ASSEMBLY | WORDS | DATA | ENTRIES | STATUS | LINES`, with text from `lo` on.
    pub fn watches_linked(&mut self, alloc: Global, row: &str, lo: u32) -> Result<(), Error> {
        let columns = columns(alloc, row)?;
        let &[_assembly, words, data, entries, status, lines] = columns.as_slice() else {
            bail!("six columns are wanted");
        };
        let data = numbers_of(alloc, data)?;
        let marked = Marked {
            lo,
            address: DATA,
            copy: COPY,
            memory: size_of(&data),
            text: text_of(alloc, words)?,
            data,
            entries: numbers_of(alloc, entries)?,
        };
        let file = marked_file(alloc, &marked)?;
        self.watched(alloc, &file, "watch a e 100 1048576 65536", (status, lines))
    }

    /// `ASSEMBLY | WORDS | ENTRIES | MEMORY | STATUS | LINES`: data of one word have so many bytes in memory. RAM stands
    /// above them. What ends under the monitor ends so when it is packed, too.
    pub fn watches_zeros(&mut self, alloc: Global, row: &str) -> Result<(), Error> {
        let columns = columns(alloc, row)?;
        let &[_assembly, words, entries, memory, status, lines] = columns.as_slice() else {
            bail!("six columns are wanted");
        };
        let marked = Marked {
            lo: 0x0001_0000,
            address: DATA,
            copy: DATA,
            memory: hexadecimal(memory)?,
            text: text_of(alloc, words)?,
            data: vec![in alloc; 0; 1]?,
            entries: numbers_of(alloc, entries)?,
        };
        let file = marked_file(alloc, &marked)?;
        self.watched(
            alloc,
            &file,
            "watch a e 100 2147483648 65536",
            (status, lines),
        )?;
        if status == "0" {
            self.command(alloc, "pack a b")?;
            self.tells(alloc, "watch b e 100 2147483648 65536", status, lines)?;
        }
        Ok(())
    }
}
