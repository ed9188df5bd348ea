//! The coarsest stable partition of nodes, in rounds.

ghost use Rattle.std.specs.Prelude.{◌≡◌, ◌<◌, ◌^◌, ℕ, IsSome, length, IfOk};
ghost use Rattle.std.specs.Option.{option_map};
ghost use Rattle.sq_finger.specs.Numbers.{member_at, AreNumbersOf};
ghost use Rattle.sq_fold.specs.Stable.{seen_by, keys_by, IsFinerBy, IsCoarsest};

use crate::classes::class_of;
use crate::splitting::labelled_by_classes;
use sq_finger::number_all;
use sq_num::Memory;
use std::alloc::Global;

/// A node: what it is, and the places of the nodes that it goes on to.
#[derive(Clone, Copy, Debug, PartialEq, Eq)]
pub struct Node {
    pub label: Option<u32>,
    pub next: Option<u32>,
    pub target: Option<u32>,
}

// The class of a place, where there is one.
fn class_at(classes: &[Option<u32>], place: Option<u32>) -> Option<Option<u32>>
    ensures { result ≡ option_map (member_at classes.now) place }
{
    let Some(place) = place else { return None };
    Some(class_of(classes, place))
}

// What tells the nodes apart once their classes are known; one round more.
pub(crate) fn refined(
    alloc: Global,
    nodes: &[Node],
    classes: &[Option<u32>],
) -> Result<Vec<Option<u32>>, Memory>
    requires { length nodes.now < 2 ^ 32 }
    ensures { IfOk result (λ finer. IsFinerBy nodes.now classes.now finer.items) }
{
    let mut keys = Vec::new(alloc);
    for node in nodes {
        let next = class_at(classes, node.next);
        let target = class_at(classes, node.target);
        keys.push(Some((node.label, next, target)))?;
    }
    number_all(alloc, &keys)
}

// The classes of the coarsest stable partition, in rounds.
fn by_rounds(alloc: Global, nodes: &[Node]) -> Result<Vec<Option<u32>>, Memory>
    requires { length nodes.now < 2 ^ 32 }
    ensures many { IfOk result (λ classes. length classes.items ≡ length nodes.now) }
    ensures some { IfOk result (λ classes. (i : ℕ) → i < length nodes.now → IsSome (member_at classes.items i)) }
    ensures coarsest { IfOk result (λ classes. IsCoarsest nodes.now (member_at classes.items)) }
{
    let mut classes = Vec::new(alloc);
    let mut finer = refined(alloc, nodes, &classes)?;
    while finer != classes {
        classes = finer;
        finer = refined(alloc, nodes, &classes)?;
    }
    Ok(classes)
}

/// The classes of the coarsest stable partition: two nodes have one class exactly where none tells them apart. What comes on
/// long ways is told apart by labels first, so that there are few rounds.
pub fn coarsest(alloc: Global, nodes: &[Node]) -> Result<Vec<Option<u32>>, Memory>
    requires { length nodes.now < 2 ^ 32 }
    ensures many { IfOk result (λ classes. length classes.items ≡ length nodes.now) }
    ensures some { IfOk result (λ classes. (i : ℕ) → i < length nodes.now → IsSome (member_at classes.items i)) }
    ensures coarsest { IfOk result (λ classes. IsCoarsest nodes.now (member_at classes.items)) }
{
    let labelled = labelled_by_classes(alloc, nodes)?;
    by_rounds(alloc, &labelled)
}
