//! Certificates that are checked on a graph.

ghost use Rattle.std.specs.Prelude.{◌≡◌, ℕ, ◌≤◌, length, Ok};
ghost use Rattle.sq_graph.specs.Graph.{Graph as Parts};
ghost use Rattle.sq_graph.specs.Leaders.{IsCanonical};
ghost use Rattle.sq_graph.specs.Slotted.{IsSlotted};
ghost use Rattle.sq_graph.specs.Words.{words_of, most_words};
ghost use Rattle.law_follow.specs.Follows.{Follows};
ghost use Rattle.sq_drive.specs.Checking.{Leads, IsFirstFault};
ghost use Rattle.sq_drive.specs.Replaying.{IsLess};

use crate::replaying::replay;
use sq_cert::{Verdict, read_cert};
use sq_graph::Graph;
use sq_num::Memory;
use std::alloc::Global;

/// Takes the steps of the certificate with this text: yes where each line has its form and is a candidate, else the first
/// line that isn't. Where it says yes, the graph is that to which the steps lead. Each step looks at the whole graph.
pub fn check_graph(alloc: Global, graph: &mut Graph, text: &[u8]) -> Result<Verdict, Memory>
    requires canonical { IsCanonical graph.old.graph }
    requires slotted { IsSlotted graph.old.graph }
    requires words { words_of graph.old.graph ≤ most_words }
    requires text { length text.now ≤ 134217728 }
    ensures yes { (count : ℕ) → result ≡ Ok (Verdict.Yes count) → Leads text.now graph.old.graph graph.new.graph count }
    ensures lighter { (count : ℕ) → result ≡ Ok (Verdict.Yes count) → IsLess graph.old.graph graph.new.graph }
    ensures no { (line : ℕ) → result ≡ Ok (Verdict.No line) → IsFirstFault text.now graph.old.graph line }
    ensures only { (line : ℕ) → result ≡ Ok (Verdict.No line) → (new : Parts) (count : ℕ) → ¬ Leads text.now graph.old.graph new count }
    ensures follows { Follows graph.old.graph graph.new.graph }
{
    let said = read_cert(alloc, text)?;
    let steps = said.cert.steps();
    if let Some(number) = replay(alloc, graph, steps)? {
        let line = number as u32 + 2;
        return Ok(Verdict::No { line });
    }
    match said.fault {
        Some(line) => Ok(Verdict::No { line }),
        None => Ok(Verdict::Yes {
            steps: steps.len() as u32,
        }),
    }
}
