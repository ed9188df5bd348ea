//! Blocks in groups, such that all blocks whose bodies match are in one.

ghost use Rattle.std.specs.Prelude.{◌≡◌, ◌<◌, ◌^◌, nat_eq, Some, length, map, IfOk};
ghost use Rattle.std.specs.HashMap.{get};
ghost use Rattle.std.specs.List.{All};
ghost use Rattle.sq_graph.specs.Blocks.{HasBlock, HasProcedure, body_of};
ghost use Rattle.sq_graph.specs.Parts.{names_of};
ghost use Rattle.sq_graph.specs.Rules.{ItemFits};
ghost use Rattle.sq_finger.specs.Groups.{AreClasses};
ghost use Rattle.sq_outline.specs.Prints.{print_of_items, print_of, print_groups, HasPrints};

use crate::spans::{Span, note};
use sq_finger::number_all;
use sq_graph::{Graph, Item};
use sq_isa::RegSet;
use sq_live::block_names;
use sq_num::Memory;
use sq_rename::items_print;
use std::alloc::Global;
use std::collections::HashMap;
use std::marker::Model;

/// The print of items: items that match have one.
fn print(items: &[Item]) -> u64
    requires fit { All ItemFits items.now }
    requires few { length items.now < 2 ^ 31 }
    ensures { result ≡ print_of_items items.now }
{
    items_print(0, items, RegSet::new())
}

/// The print of a block: blocks whose bodies match have one.
pub(crate) fn block_print(graph: &Graph, block: u32) -> u64
    requires { HasBlock graph.now.graph block }
    ensures { result ≡ print_of graph.now.graph block }
{
    graph.learn();
    print(graph.items(block))
}

/// The print of a procedure's body.
pub(crate) fn body_print(graph: &Graph, procedure: u32) -> u64
    requires { HasProcedure graph.now.graph procedure }
    ensures { result ≡ print_of_items (body_of graph.now.graph procedure) }
{
    graph.learn();
    print(graph.body(procedure))
}

/// The spans of the prints that procedures' bodies have.
pub(crate) fn procedure_prints(alloc: Global, graph: &Graph) -> Result<HashMap<u64, Span>, Memory>
    ensures { IfOk result (λ prints. HasPrints graph.now.graph (get nat_eq prints)) }
{
    graph.learn();
    let mut prints = HashMap::new(alloc);
    for procedure in 0..graph.procedures() {
        note(&mut prints, body_print(graph, procedure), procedure)?;
    }
    Ok(prints)
}

/// The span of the block's print, where procedures have it.
pub(crate) fn span_of(graph: &Graph, prints: &HashMap<u64, Span>, block: u32) -> Option<Span>
    requires { HasBlock graph.now.graph block }
    ensures { result ≡ get nat_eq prints.now (print_of graph.now.graph block) }
{
    prints.get(&block_print(graph, block)).copied()
}

/// The prints of these blocks.
fn prints(alloc: Global, graph: &Graph, names: &[u32]) -> Result<Vec<Option<u64>>, Memory>
    requires { names.now ≡ names_of graph.now.graph }
    ensures { IfOk result (λ prints. prints.items ≡ map (λ name. Some (print_of graph.now.graph name)) names.now) }
{
    graph.learn();
    let mut prints = Vec::new(alloc);
    for name in names {
        prints.push(Some(block_print(graph, *name)))?;
    }
    Ok(prints)
}

/// Names of blocks in groups by their numbers.
#[derive(Drop)]
pub(crate) struct Groups {
    groups: Vec<Vec<u32>>,
}

impl Model for Groups {
    ghost use Rattle.std.specs.Prelude.{◌<◌, ◌^◌, ℕ, List, length, map};

    ghost Value = { List (List ℕ) };

    ghost view = { λ g. map (λ group. group.items) g.groups.items };

    ghost invariant = { λ g. length g.groups.items < 2 ^ 32 };
}

impl Groups {
    ghost use Rattle.std.specs.Prelude.{◌≡◌, ◌+◌, ◌<◌, ◌≤◌, ◌^◌, Some, length, slice_get, IfOk, OnOk};
    ghost use Rattle.sq_finger.specs.Groups.{group_count, groups_of, grown, with_member};

    /// How many groups there are.
    pub(crate) fn len(&self) -> u32
        ensures { result ≡ length self.now }
    {
        self.groups.len() as u32
    }

    /// The members of a group, in their order.
    pub(crate) fn members(&self, group: u32) -> &[u32]
        requires { group < length self.now }
        ensures { slice_get self.now group ≡ Some result.now }
    {
        &self.groups[group as usize]
    }

    // Makes room for a group.
    fn grow(&mut self, alloc: Global, group: u32) -> Result<(), Memory>
        requires { group + 1 < 2 ^ 32 }
        ensures { OnOk result (self.new ≡ grown group self.old) }
    {
        while self.groups.len() <= group as usize {
            self.groups.push(Vec::new(alloc))?;
        }
        Ok(())
    }

    // Puts a member into a group.
    fn push(&mut self, alloc: Global, group: u32, member: u32) -> Result<(), Memory>
        requires { group + 1 < 2 ^ 32 }
        ensures { OnOk result (self.new ≡ with_member group member self.old) }
    {
        self.grow(alloc, group)?;
        self.groups[group as usize].push(member)?;
        Ok(())
    }

    // Groups members by their numbers.
    fn by_number(alloc: Global, members: &[u32], numbers: &[Option<u32>]) -> Result<Groups, Memory>
        requires many { length numbers.now ≡ length members.now }
        requires few { group_count numbers.now < 2 ^ 32 }
        ensures { IfOk result (λ groups. groups ≡ groups_of numbers.now members.now) }
    {
        let mut groups = Groups {
            groups: Vec::new(alloc),
        };
        for (i, number) in numbers.iter().enumerate() {
            if let Some(number) = *number {
                groups.push(alloc, number, members[i])?;
            }
        }
        Ok(groups)
    }
}

/// The blocks of a graph in groups by their prints, in which each block is once, and two whose bodies match are in one group.
pub(crate) fn body_groups(alloc: Global, graph: &Graph) -> Result<Groups, Memory>
    ensures value { IfOk result (λ groups. groups ≡ print_groups graph.now.graph) }
    ensures classes { IfOk result (λ groups. AreClasses (print_of graph.now.graph) (HasBlock graph.now.graph) groups) }
{
    graph.learn();
    let names = block_names(alloc, graph)?;
    let prints = prints(alloc, graph, &names)?;
    let numbers = number_all(alloc, &prints)?;
    Groups::by_number(alloc, &names, &numbers)
}
