//! Runs of graphs: values that tell where they came from, what each instruction does on them, the run of a
//! graph over what a file has beside its code, and graphs that follow one another.
//!
//! To the layers above it promises that following is reflexive and transitive. The definitions of `specs/` are
//! shared: the monitor runs a file by the same rows, with addresses for names.
#![tactic(auto)]

ghost use Rattle.sq_graph.specs.Graph.{Graph};
ghost use Rattle.law_follow.specs.Follows.{Follows};

mod kind;

pub use kind::Kind;

/// Each graph follows itself.
pub fn follows_itself()
    ensures { (g : Graph) → Follows g g }
{}

/// What follows a graph that follows another follows that one too.
pub fn follows_through()
    ensures { (f g h : Graph) → Follows f g → Follows g h → Follows f h }
{}
