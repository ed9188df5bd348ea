//! The rows of tables about certificates.

use crate::bench::{Bench, told};
use crate::texts::text_of;
use anyhow::{Error, bail};
use sq_cases::columns;
use std::alloc::Global;

impl Bench<'_> {
    /// `FILE | STATUS | LINES | CERTIFICATE`: `prove`, and then `check` of what it stored. The output is packed to itself; `-`
    /// stands for no output and no certificate.
    pub fn proves(&mut self, alloc: Global, row: &str) -> Result<(), Error> {
        let columns = columns(alloc, row)?;
        let &[name, status, lines, cert] = columns.as_slice() else {
            bail!("four columns are wanted");
        };
        let file = self.described(alloc, name)?;
        self.put(name, &file)?;
        let line = format!(in alloc; "prove {name} out cert")?;
        self.tells(alloc, &line, status, lines)?;
        if cert == "-" {
            self.expect_file("out", None)?;
            return self.expect_file("cert", None);
        }
        let stored = self.copied(alloc, "cert")?;
        told(alloc, cert, &stored, 0)?;
        self.checks(alloc, name, &text_of(alloc, cert)?)
    }

    /// Tests that the certificate proves the output of the file, and that the output is packed to itself.
    fn checks(&mut self, alloc: Global, name: &str, text: &str) -> Result<(), Error> {
        let steps = text.lines().count().saturating_sub(2);
        let line = format!(in alloc; "check {name} out cert")?;
        let proved = format!(in alloc; "proved {steps}")?;
        self.tells(alloc, &line, "0", &proved)?;
        self.command(alloc, "pack out again")?;
        let packed = self.copied(alloc, "out")?;
        self.expect_file("again", Some(&packed))
    }
}
