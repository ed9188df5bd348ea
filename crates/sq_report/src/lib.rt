//! The report of a packing: its sizes and what each row saved, as one line of JSON.
//!
//! To the layers above it promises that the line is exactly the stated text.
#![tactic(auto)]

ghost use Rattle.std.specs.Prelude.{◌≡◌, ◌++◌, codes, IfOk};
ghost use Rattle.sq_report.specs.Report.{rows_data, report_data, report_text};
ghost use Rattle.serde_json.specs.View.{view};

use serde_json::{Value, json};
use sq_num::{Memory, Packed, Savings};
use std::alloc::Global;

/// The report: a compact JSON object (RFC 8259) with its keys in alphabetical order, and a newline. `rows` has the words
/// that each row saved, the windows of W with O1 and those of V with O2; `moved` what moves saved; `unreached` the words of
/// text that nothing reaches; the sizes are bytes.
#[tactic(auto, using(crate::proofs::Texts::text_of_data))]
pub fn report(alloc: Global, packed: &Packed) -> Result<Vec<u8>, Memory>
    ensures line { IfOk result (λ line. line.items ≡ report_text packed.now ++ codes "\n") }
{
    let value = report_value(alloc, packed)?;
    let mut line = value.to_string(alloc)?.into_bytes();
    line.push(b'\n')?;
    Ok(line)
}

fn report_value(alloc: Global, packed: &Packed) -> Result<Value, Memory>
    ensures value { IfOk result (λ value. view value ≡ report_data packed.now) }
{
    let rows = rows_value(alloc, &packed.savings)?;
    Ok(json!(in alloc; {
        "loaded_after": packed.loaded_after,
        "loaded_before": packed.loaded_before,
        "moved": packed.savings.moved,
        "procedures": packed.procedures,
        "rows": &rows,
        "text_after": packed.text_after,
        "text_before": packed.text_before,
        "unreached": packed.unreached
    })?)
}

fn rows_value(alloc: Global, savings: &Savings) -> Result<Value, Memory>
    ensures value { IfOk result (λ value. view value ≡ rows_data savings.now) }
{
    Ok(json!(in alloc; {
        "C": savings.c,
        "J1": savings.j1,
        "J2": savings.j2,
        "J3": savings.j3,
        "O1": savings.o1,
        "O2": savings.o2,
        "O3": savings.o3,
        "O4": savings.o4,
        "T": savings.t,
        "U": savings.u
    })?)
}
