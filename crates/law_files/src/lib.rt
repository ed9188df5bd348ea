//! What is known of the segments of a file that isn't refused: their bytes, the memory that they make, and that no two
//! of them meet.
#![tactic(auto)]
