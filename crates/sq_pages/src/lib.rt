//! Memory in pages: large parts that hold the same cell take no memory until they are written.
//!
//! To the layers above it promises that memory is what was laid and then written: contents as those of `sq_memory`.
//! What a write needs is taken before it, by a call that changes nothing that stands; the write itself takes no memory.
#![tactic(auto)]

mod page;
mod pages;

pub use pages::Pages;
