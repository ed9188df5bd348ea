//! Columns, and what is expected.

use anyhow::{Error, ensure};
use std::alloc::{AllocError, Global};
use std::fmt::Debug;

/// The columns of a row, which are apart by ` | `.
pub fn columns(alloc: Global, row: &str) -> Result<Vec<&str>, AllocError> {
    row.split(" | ").collect(alloc)
}

/// Whether the text that was found is the one that is wanted.
pub fn expect(wanted: &str, found: &str) -> Result<(), Error> {
    ensure!(wanted == found, "wanted {wanted}, found {found}");
    Ok(())
}

/// Whether what was found is shown as the text that is wanted.
pub fn expect_shown<T: Debug>(alloc: Global, wanted: &str, found: &T) -> Result<(), Error> {
    let found = format!(in alloc; "{found:?}")?;
    expect(wanted, &found)
}
