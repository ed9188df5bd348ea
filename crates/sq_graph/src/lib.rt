//! The graph of a program: blocks in layout order, the entry, the words of data that hold addresses of
//! blocks, and procedures.
//!
//! To the layer above a `Graph` is these four parts, which always meet the rules of a graph, and beside them
//! how much more fits with no memory. Each call changes the four parts by one plain function of its name in
//! `specs/`, and a call that has room takes no memory.
#![tactic(auto)]

mod blocks;
mod build;
mod calls;
mod canonical;
mod edits;
mod fates;
mod gaps;
mod graph;
mod holding;
mod item;
pub mod laws;
mod loose;
mod moves;
mod naming;
mod parts;
mod pieces;
mod redirect;
mod rename;
mod slot;
mod slots;
mod trim;
mod vectors;

pub use calls::ItemFate;
pub use fates::Fate;
pub use graph::Graph;
pub use item::{Item, Term};
pub use parts::{BlockPart, CodeRef, Parts, ProcedurePart, Room};
pub use slot::Slot;
