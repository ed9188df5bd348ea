//! Members in groups.

use sq_num::Memory;
use std::alloc::Global;
use std::marker::Model;

/// Members in groups by their numbers.
#[derive(Drop)]
pub struct Groups<M> {
    groups: Vec<Vec<M>>,
}

impl<M> Model for Groups<M> {
    ghost use Rattle.std.specs.Prelude.{◌<◌, ◌^◌, List, length, map};

    ghost Value = { List (List M) };

    ghost view = { λ g. map (λ group. group.items) g.groups.items };

    ghost invariant = { λ g. length g.groups.items < 2 ^ 32 };
}

impl<M: Copy> Groups<M> {
    ghost use Rattle.std.specs.Prelude.{◌≡◌, ◌+◌, ◌<◌, ◌≤◌, ◌^◌, Some, length, slice_get, IfOk, OnOk};
    ghost use Rattle.sq_finger.specs.Groups.{group_count, groups_of, grown, with_member};

    /// How many groups there are.
    pub fn len(&self) -> u32
        ensures { result ≡ length self.now }
    {
        self.groups.len() as u32
    }

    /// The members of a group, in their order.
    pub fn members(&self, group: u32) -> &[M]
        requires { group < length self.now }
        ensures { slice_get self.now group ≡ Some result.now }
    {
        &self.groups[group as usize]
    }

    // Makes room for a group.
    fn grow(&mut self, alloc: Global, group: u32) -> Result<(), Memory>
        requires { group + 1 < 2 ^ 32 }
        ensures { OnOk result (self.new ≡ grown group self.old) }
    {
        while self.groups.len() <= group as usize {
            self.groups.push(Vec::new(alloc))?;
        }
        Ok(())
    }

    // Puts a member into a group.
    fn push(&mut self, alloc: Global, group: u32, member: M) -> Result<(), Memory>
        requires { group + 1 < 2 ^ 32 }
        ensures { OnOk result (self.new ≡ with_member group member self.old) }
    {
        self.grow(alloc, group)?;
        self.groups[group as usize].push(member)?;
        Ok(())
    }

    /// Groups members by their numbers.
    pub fn by_number(
        alloc: Global,
        members: &[M],
        numbers: &[Option<u32>],
    ) -> Result<Groups<M>, Memory>
        requires many { length numbers.now ≡ length members.now }
        requires few { group_count numbers.now < 2 ^ 32 }
        ensures { IfOk result (λ groups. groups ≡ groups_of numbers.now members.now) }
    {
        let mut groups = Groups {
            groups: Vec::new(alloc),
        };
        for (i, number) in numbers.iter().enumerate() {
            if let Some(number) = *number {
                groups.push(alloc, number, members[i])?;
            }
        }
        Ok(groups)
    }
}
