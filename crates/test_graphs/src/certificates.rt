//! Certificates: the one that settling notes, and what a text is worth as one.

ghost use Rattle.std.specs.Prelude.{◌≤◌, IsTrue, IfOk, OnOk};
ghost use Rattle.sq_graph.specs.Leaders.{IsCanonical};
ghost use Rattle.sq_graph.specs.Slotted.{IsSlotted};
ghost use Rattle.sq_graph.specs.Words.{words_of, most_words};

use sq_cert::Verdict;
use sq_drive::{check_graph, settle_noting};
use sq_graph::Graph;
use sq_layout::words_of;
use sq_num::Memory;
use std::alloc::Global;

/// Makes the graph canonical, with its blocks named by their positions, and tells whether it has few enough words to be
/// settled.
fn is_tidy(alloc: Global, graph: &mut Graph) -> Result<bool, Memory>
    ensures canonical { OnOk result (IsCanonical graph.new.graph) }
    ensures slotted { OnOk result (IsSlotted graph.new.graph) }
    ensures words { IfOk result (λ few. IsTrue few → words_of graph.new.graph ≤ most_words) }
{
    graph.canonical();
    graph.name_by_slots(alloc)?;
    Ok(words_of(graph) <= 1_048_576)
}

/// The text of lines that have `; ` between them.
pub fn lines_of(alloc: Global, lines: &str) -> Result<String, Memory> {
    let mut text = lines.replace(alloc, "; ", "\n")?;
    text.push('\n')?;
    Ok(text)
}

/// Settles the graph by all rows, and answers the text of the certificate.
pub fn noted(alloc: Global, graph: &mut Graph) -> Result<Vec<u8>, Memory> {
    if !is_tidy(alloc, graph)? {
        return Ok(Vec::from_slice(alloc, b"too many words")?);
    }
    settle_noting(alloc, graph)?.cert.text()
}

/// What a text is worth as a certificate of the graph: `proved COUNT`, and the graph becomes that to which the steps lead, or
/// `no LINE`.
pub fn checked(alloc: Global, graph: &mut Graph, text: &str) -> Result<String, Memory> {
    if !is_tidy(alloc, graph)? || text.len() > 134_217_728 {
        return Ok(String::from_str(alloc, "too much")?);
    }
    Ok(match check_graph(alloc, graph, text.as_bytes())? {
        Verdict::Yes { steps } => format!(in alloc; "proved {steps}")?,
        Verdict::No { line } => format!(in alloc; "no {line}")?,
    })
}
