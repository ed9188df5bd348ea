//! The nodes of an arena in their slab, each with the keys of its neighbours.
//!
//! A place is a key, or `None`, the end that lies ahead of the first key and behind the last one.
ghost use Rattle.std.specs.Prelude.{◌≡◌, ℕ, None, [], IsSome, OnOk, OnErr, IfOk, option_copied, ◌^◌, ◌<◌};
ghost use Rattle.std.specs.Borrow.{sem};
ghost use Rattle.slab.specs.Slab.{HasRoomFor, get};
ghost use Rattle.sq_arena.specs.Links.{keys_from, node_value, IsLinked, HasNode, IsPlace, next_at, previous_at, value_at, SetsNext, SetsPrevious, Joins, Splices, Fills, Frees, AddsSpare, SameLinks};
ghost use Rattle.sq_arena.specs.Lends.{lends_content, lends_link_value};

use crate::ArenaMemory;
use slab::Slab;
use std::alloc::{AllocError, Global};

#[derive(Drop)]
pub(crate) struct Links<T> {
    // A key is given out once, here, and then is either in the list or to spare.
    nodes: Slab<Node<T>>,
    first: Option<u32>,
    last: Option<u32>,
    // The first key to spare. Each names the next one.
    vacant: Option<u32>,
}

#[derive(Drop)]
struct Node<T> {
    value: Option<T>,
    previous: Option<u32>,
    next: Option<u32>,
}

impl<T: Copy> Clone for Node<T> {
    ghost is_clone = { λ node copy. copy ≡ node };

    fn clone(&self) -> Result<Self, AllocError> {
        Ok(Node {
            value: self.value,
            previous: self.previous,
            next: self.next,
        })
    }
}

impl<T> Node<T> {
    fn value_mut(&mut self) -> &mut T
        requires { IsSome self.old.value }
        ensures* lends { sem 𝓛 (lends_content T.row self.entry result) }
        ensures value { self.old.value ≡ Some result.now }
    {
        match &mut self.value {
            Some(value) => value,
            None => unreachable!(),
        }
    }
}

// A slab with an empty node at each key below the count. It is full, and a full slab has a node at each key below its
// capacity, whatever order it gives them out in.
fn full_nodes<T: Drop>(alloc: Global, count: u32) -> Result<Slab<Node<T>>, AllocError>
    ensures nodes { IfOk result (λ nodes. (key : ℕ) → key < count → IsSome (get nodes key)) }
    ensures empty { IfOk result (λ nodes. (key : ℕ) → node_value (get nodes key) ≡ None) }
{
    let mut nodes = Slab::with_capacity(alloc, count as usize)?;
    for _ in 0..nodes.capacity() {
        nodes.insert_reserved(Node {
            value: None,
            previous: None,
            next: None,
        });
    }
    // Its contract has that no key is beyond the capacity.
    let _capacity = nodes.capacity();
    Ok(nodes)
}

impl<T> Links<T> {
    /// Links without values, with so many keys to spare: 0, 1, 2 and so on.
    pub(crate) fn with_keys(alloc: Global, count: u32) -> Result<Self, ArenaMemory>
    where
        T: Drop,
        ensures { IfOk result (λ made. IsLinked made [] (keys_from 0 count)) }
    {
        let mut made = Links {
            nodes: full_nodes(alloc, count)?,
            first: None,
            last: None,
            vacant: None,
        };
        for key in (0..count).rev() {
            let vacant = made.vacant;
            made.set_next(Some(key), vacant);
            made.vacant = Some(key);
        }
        Ok(made)
    }

    pub(crate) fn value(&self, key: u32) -> Option<&T>
        ensures { option_copied result ≡ value_at self.now key }
    {
        match self.nodes.get(key as usize) {
            Some(node) => node.value.as_ref(),
            None => None,
        }
    }

    pub(crate) fn value_mut(&mut self, key: u32) -> &mut T
        requires { IsSome (value_at self.old key) }
        ensures* lends { sem 𝓛 (lends_link_value T.row self.entry key result) }
        ensures value { value_at self.old key ≡ Some result.now }
    {
        self.nodes[key as usize].value_mut()
    }

    pub(crate) fn next(&self, place: Option<u32>) -> Option<u32>
        requires { IsPlace self.now place }
        ensures { result ≡ next_at self.now place }
    {
        match place {
            Some(key) => self.nodes[key as usize].next,
            None => self.first,
        }
    }

    pub(crate) fn previous(&self, place: Option<u32>) -> Option<u32>
        requires { IsPlace self.now place }
        ensures { result ≡ previous_at self.now place }
    {
        match place {
            Some(key) => self.nodes[key as usize].previous,
            None => self.last,
        }
    }

    fn set_next(&mut self, place: Option<u32>, next: Option<u32>)
        requires { IsPlace self.old place }
        ensures { SetsNext self.old self.new place next }
    {
        match place {
            Some(key) => self.nodes[key as usize].next = next,
            None => self.first = next,
        }
    }

    fn set_previous(&mut self, place: Option<u32>, previous: Option<u32>)
        requires { IsPlace self.old place }
        ensures { SetsPrevious self.old self.new place previous }
    {
        match place {
            Some(key) => self.nodes[key as usize].previous = previous,
            None => self.last = previous,
        }
    }

    // Makes the two places neighbours.
    fn join(&mut self, before: Option<u32>, behind: Option<u32>)
        requires before { IsPlace self.old before }
        requires behind { IsPlace self.old behind }
        ensures { Joins self.old self.new before behind }
    {
        self.set_next(before, behind);
        self.set_previous(behind, before);
    }

    /// Takes the run out of the ring. Its own links stay as they are.
    pub(crate) fn cut(&mut self, first: u32, last: u32)
        requires first { HasNode self.old first }
        requires last { HasNode self.old last }
        requires before { IsPlace self.old (previous_at self.old (Some first)) }
        requires behind { IsPlace self.old (next_at self.old (Some last)) }
        ensures { Joins self.old self.new
            (previous_at self.old (Some first)) (next_at self.old (Some last)) }
    {
        let before = self.previous(Some(first));
        let behind = self.next(Some(last));
        self.join(before, behind);
    }

    /// Puts a run that is outside the ring right behind the place.
    pub(crate) fn splice(&mut self, after: Option<u32>, first: u32, last: u32)
        requires after { IsPlace self.old after }
        requires first { HasNode self.old first }
        requires last { HasNode self.old last }
        requires behind { IsPlace self.old (next_at self.old after) }
        ensures { Splices self.old self.new after first last }
    {
        let behind = self.next(after);
        self.join(after, Some(first));
        self.join(Some(last), behind);
    }

    /// Puts the value under the first key to spare.
    pub(crate) fn fill(&mut self, value: T) -> u32
    where
        T: Drop,
        requires some { IsSome self.old.vacant }
        requires node { IsPlace self.old self.old.vacant }
        ensures { Fills self.old self.new result value }
    {
        let key = self.vacant.unwrap();
        let node = &mut self.nodes[key as usize];
        node.value = Some(value);
        self.vacant = node.next;
        key
    }

    /// Takes the value out, and keeps the key to spare.
    pub(crate) fn free(&mut self, key: u32) -> T
        requires { IsSome (value_at self.old key) }
        ensures { Frees self.old self.new key result }
    {
        let node = &mut self.nodes[key as usize];
        let value = node.value.take().unwrap();
        node.next = self.vacant;
        self.vacant = Some(key);
        value
    }

    /// Takes the memory for so many more keys at once.
    pub(crate) fn reserve(&mut self, more: u32) -> Result<(), ArenaMemory>
        ensures same { SameLinks self.old self.new }
        ensures room { OnOk result (HasRoomFor self.new.nodes more) }
    {
        self.nodes.reserve(more as usize)?;
        Ok(())
    }

    /// Makes one more key to spare.
    pub(crate) fn add_spare(&mut self) -> Result<(), ArenaMemory>
    where
        T: Drop,
        ensures ok { OnOk result ((key : ℕ) × AddsSpare self.old self.new key) }
        ensures err { OnErr result (SameLinks self.old self.new) }
    {
        let key = u32::try_from(self.nodes.vacant_key()).map_err(|_| ArenaMemory)?;
        let node = Node {
            value: None,
            previous: None,
            next: self.vacant,
        };
        self.nodes.insert(node).map_err(AllocError::from)?;
        self.vacant = Some(key);
        Ok(())
    }

    pub(crate) fn new(alloc: Global) -> Self
        ensures nodes { result.nodes.slots ≡ [] }
        ensures first { result.first ≡ None }
        ensures last { result.last ≡ None }
        ensures vacant { result.vacant ≡ None }
    {
        Links {
            nodes: Slab::new(alloc),
            first: None,
            last: None,
            vacant: None,
        }
    }

    pub(crate) fn copy(&self) -> Result<Links<T>, ArenaMemory>
    where
        T: Copy,
        ensures { IfOk result (SameLinks self.now) }
    {
        Ok(Links {
            nodes: self.nodes.clone()?,
            first: self.first,
            last: self.last,
            vacant: self.vacant,
        })
    }
}
