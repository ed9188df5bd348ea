//! Cases that are texts: what test programs share.
//!
//! A file of cases has paragraphs, with an empty line between them. The first line of a paragraph names a case, and
//! each further one is a step: a verb, and words behind it. A paragraph that begins with `table VERB: COLUMNS` has a
//! case in each further line, whose one step is the verb with that line as its words. Lines that begin with `#` are
//! comments.
//!
//! Also the files of cases, written as texts of hexadecimal words.
#![tactic(auto)]

mod case_error;
mod cases;
mod expected;
mod files;
mod linked;
mod numbers;
mod plain;
mod runs;

pub use case_error::CaseError;
pub use cases::{Case, Step, cases_of};
pub use expected::{columns, expect, expect_shown};
pub use files::{file_of, file_of_form, push_words, put_word, size_of};
pub use linked::{LINKED_TEXT, linked_of};
pub use numbers::{decimal, decimals_of, hexadecimal, numbers_of};
pub use plain::plain_of;
pub use runs::{Subject, run_files};
