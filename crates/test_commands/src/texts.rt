//! Texts of cases.

use sq_cases::CaseError;
use sq_num::WordList;
use std::alloc::Global;

/// The text of these lines: each has a newline behind it, but for one that ends with `\`.
pub fn text_of(alloc: Global, lines: &str) -> Result<String, CaseError> {
    let mut text = String::new(alloc);
    for line in lines.split("; ") {
        match line.strip_suffix("\\") {
            Some(cut) => text.push_str(cut)?,
            None => {
                text.push_str(line)?;
                text.push('\n')?;
            }
        }
    }
    Ok(text)
}

/// The words of a command line.
pub fn words_of(alloc: Global, line: &str) -> Result<WordList, CaseError> {
    let mut words = WordList::new(alloc);
    for word in line.split_whitespace() {
        words.push(word)?;
    }
    Ok(words)
}
