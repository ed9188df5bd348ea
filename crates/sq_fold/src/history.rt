//! The rounds that lead to the coarsest stable partition of nodes.

ghost use Rattle.std.specs.Prelude.{◌<◌, ◌^◌, length, IfOk};
ghost use Rattle.sq_fold.specs.Stable.{AreAllRounds};

use crate::rounds::{Node, refined};
use sq_num::Memory;
use std::alloc::Global;
use std::marker::Model;

/// The classes of nodes after each round.
#[derive(Drop)]
pub(crate) struct History {
    rounds: Vec<Vec<Option<u32>>>,
}

impl Model for History {
    ghost use Rattle.std.specs.Prelude.{ℕ, List, Option, map};

    ghost Value = { List (List (Option ℕ)) };

    ghost view = { λ h. map (λ round. round.items) h.rounds.items };
}

impl History {
    ghost use Rattle.std.specs.Prelude.{◌≡◌, ◌<◌, ◌++◌, [], ◌∷◌, Some, length, slice_get, OnOk};

    fn new(alloc: Global) -> History
        ensures { result ≡ [] }
    {
        History {
            rounds: Vec::new(alloc),
        }
    }

    /// How many rounds there are.
    pub(crate) fn len(&self) -> usize
        ensures { result ≡ length self.now }
    {
        self.rounds.len()
    }

    /// The classes after so many rounds.
    pub(crate) fn round(&self, number: usize) -> &[Option<u32>]
        requires { number < length self.now }
        ensures { slice_get self.now number ≡ Some result.now }
    {
        &self.rounds[number]
    }

    fn push(&mut self, classes: Vec<Option<u32>>) -> Result<(), Memory>
        ensures { OnOk result (self.new ≡ self.old ++ classes.items ∷ []) }
    {
        self.rounds.push(classes)?;
        Ok(())
    }
}

/// The classes after each round, from none on, up to those of the coarsest stable partition.
pub(crate) fn all_rounds(alloc: Global, nodes: &[Node]) -> Result<History, Memory>
    requires { length nodes.now < 2 ^ 32 }
    ensures { IfOk result (λ rounds. AreAllRounds nodes.now rounds) }
{
    let mut rounds = History::new(alloc);
    let mut classes = Vec::new(alloc);
    let mut finer = refined(alloc, nodes, &classes)?;
    while finer != classes {
        rounds.push(classes)?;
        classes = finer;
        finer = refined(alloc, nodes, &classes)?;
    }
    rounds.push(classes)?;
    Ok(rounds)
}
