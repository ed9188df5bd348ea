//! Classes of places that can be split.

ghost use Rattle.std.specs.Prelude.{◌≡◌, ◌<◌, ◌^◌, length, IfOk};
ghost use Rattle.std.specs.List.{range_with_len};
ghost use Rattle.sq_finger.specs.Groups.{group_count};
ghost use Rattle.sq_finger.specs.Numbers.{member_at};
ghost use Rattle.sq_fold.specs.Splitting.{AreLeft};

use sq_finger::Groups;
use sq_num::Memory;
use std::alloc::Global;
use std::marker::Model;

/// The class of each place; of each class its places, among which may be some that have left it; and how many it has.
#[derive(Drop)]
pub(crate) struct Classes {
    classes: Vec<Option<u32>>,
    lists: Vec<Vec<u32>>,
    sizes: Vec<usize>,
}

impl Model for Classes {
    ghost use Rattle.std.specs.Prelude.{ℕ, List, Option, map};
    ghost use Rattle.sq_fold.specs.Splitting.{AreListed};

    ghost Value = { List (Option ℕ) };

    ghost view = { λ c. c.classes.items };

    ghost invariant = { λ c. AreListed c.classes.items (map (λ list. list.items) c.lists.items) };
}

/// The class of a place, where there is one.
pub(crate) fn class_of(classes: &[Option<u32>], place: u32) -> Option<u32>
    ensures { result ≡ member_at classes.now place }
{
    classes.get(place as usize).copied().flatten()
}

// The places of a list that are of a class.
fn left(
    alloc: Global,
    list: &[u32],
    classes: &[Option<u32>],
    class: u32,
) -> Result<Vec<u32>, Memory>
    ensures { IfOk result (λ left. AreLeft list.now classes.now class left.items) }
{
    let mut left = Vec::new(alloc);
    for place in list {
        if class_of(classes, *place) == Some(class) {
            left.push(*place)?;
        }
    }
    Ok(left)
}

impl Classes {
    ghost use Rattle.std.specs.Prelude.{◌≡◌, ◌<◌, ◌^◌, length, IfOk, OnOk};
    ghost use Rattle.sq_fold.specs.Splitting.{HasWholeClasses, IsSplit};

    /// The places of each number are a class.
    pub(crate) fn new(
        alloc: Global,
        places: &[u32],
        numbers: Vec<Option<u32>>,
    ) -> Result<Classes, Memory>
        requires places { places.now ≡ range_with_len 0 (length numbers.items) }
        requires few { group_count numbers.items < 2 ^ 32 }
        ensures { IfOk result (λ classes. classes ≡ numbers.items) }
    {
        let groups = Groups::by_number(alloc, places, &numbers)?;
        let mut lists = Vec::new(alloc);
        let mut sizes = Vec::new(alloc);
        for class in 0..groups.len() {
            let list = Vec::from_slice(alloc, groups.members(class))?;
            sizes.push(list.len())?;
            lists.push(list)?;
        }
        Ok(Classes {
            classes: numbers,
            lists,
            sizes,
        })
    }

    /// The class of each place.
    pub(crate) fn classes(&self) -> &[Option<u32>]
        ensures { result.now ≡ self.now }
    {
        &self.classes
    }

    // The places of a class. Those that have left it leave its list too.
    fn places_of(&mut self, alloc: Global, class: u32) -> Result<Vec<u32>, Memory>
        ensures same { OnOk result (self.new ≡ self.old) }
        ensures whole { IfOk result (λ places. HasWholeClasses self.old places.items) }
    {
        if self.lists.len() <= class as usize {
            return Ok(Vec::new(alloc));
        }
        let left = left(alloc, &self.lists[class as usize], &self.classes, class)?;
        self.lists[class as usize] = Vec::from_slice(alloc, &left)?;
        Ok(left)
    }

    // The class of a part, and how many others are of it; None where there are none.
    fn rest_of(&self, part: &[u32]) -> Option<(u32, usize)> {
        let class = class_of(&self.classes, *part.first()?)?;
        let size = *self.sizes.get(class as usize)?;
        if part.len() < size {
            Some((class, size - part.len()))
        } else {
            None
        }
    }

    // Puts places into a new class, and gives that; None where there are too many.
    fn add(&mut self, alloc: Global, part: &[u32]) -> Result<Option<u32>, Memory>
        ensures { OnOk result (IsSplit part.now self.old self.new) }
    {
        let class = self.lists.len();
        if class > u32::MAX as usize {
            return Ok(None);
        }
        self.sizes.push(part.len())?;
        self.lists.push(Vec::from_slice(alloc, part)?)?;
        for place in part {
            if (*place as usize) < self.classes.len() {
                self.classes[*place as usize] = Some(class as u32);
            }
        }
        Ok(Some(class as u32))
    }

    // Notes how many places a class has.
    fn set_size(&mut self, class: u32, size: usize)
        ensures { self.new ≡ self.old }
    {
        if let Some(old) = self.sizes.get_mut(class as usize) {
            *old = size;
        }
    }

    /// Makes a part of a class a class of its own, and gives the places of the smaller of the two; none where the part is all
    /// of its class.
    pub(crate) fn split_off(&mut self, alloc: Global, part: &[u32]) -> Result<Vec<u32>, Memory>
        ensures split { OnOk result (IsSplit part.now self.old self.new) }
        ensures whole { IfOk result (λ places. HasWholeClasses self.new places.items) }
    {
        let Some((class, rest)) = self.rest_of(part) else {
            return Ok(Vec::new(alloc));
        };
        let Some(new) = self.add(alloc, part)? else {
            return Ok(Vec::new(alloc));
        };
        self.set_size(class, rest);
        let smaller = if part.len() <= rest { new } else { class };
        self.places_of(alloc, smaller)
    }
}
