// Memory: what stands at which address, for cells of any kind.
#![tactic(auto)]

pub mod contents;
pub mod laws;
