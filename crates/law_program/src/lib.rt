//! Linked programs: words of text with what relocations say of them, noted procedures, and the graph that is read
//! off them. Definitions alone.
#![tactic(auto)]
