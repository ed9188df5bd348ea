//! Cutting: the words of a program into the blocks and procedures of its graph.

mod bodies;
mod cuts;
mod forms;
pub mod frame;
mod leaders;
pub mod names;
pub mod parts;
pub mod procedures;
