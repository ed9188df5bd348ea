//! The erasure law: what a tagged run does is what the plain machine does, once its tags are taken away.
#![tactic(auto)]
