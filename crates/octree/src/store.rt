//! The groups that an octree is lent: taking one that no region uses, freeing one, and writing down a region.

ghost use Rattle.std.specs.Prelude.{◌≡◌, ◌+◌, ◌-◌, ◌<◌, ◌≤◌, None, length, nat_le, slice_index_or};
ghost use Rattle.octree.specs.declared.cells.Child.TheVariants.{Empty, Split};
ghost use Rattle.octree.specs.Trees.{Counted, capacity, has_group, no_group};
ghost use Rattle.octree.specs.OnTheWay.{Apart, Freed, Settled, Taken, blend, kind_of, left, wants};

use crate::cells::{Change, Child, Group, GroupId, Kind};
use crate::tree::{blended, kinds};

/// The lent groups. Those that no region uses are those from a mark on, which were never used, and those that were freed, in a list
/// through themselves.
// Groups are named by index, as the table in docs/DECISIONS.md has it: the caller lends the memory, and nothing is got from the heap.
#[derive(Debug, Drop)]
pub struct Store<'a> {
    groups: &'a mut [Group],
    /// No group from here on was ever used.
    mark: u32,
    /// How many groups below the mark are free again. It is kept so that it is told without going through their list.
    freed: u32,
    /// The group that was freed last, if any is free again. The first child of each names the one freed before it, if there is one.
    last: Option<GroupId>,
}

impl<'a> Store<'a> {
    /// No region uses a group.
    pub(crate) fn new(groups: &'a mut [Group]) -> Store<'a>
        ensures loan { result.groups.ghost_name ≡ groups.entry.ghost_name }
        ensures untouched { result.groups.now ≡ groups.old }
        ensures mark { result.mark ≡ 0 }
        ensures freed { result.freed ≡ 0 }
        ensures last { result.last ≡ None }
    {
        Store {
            groups,
            mark: 0,
            freed: 0,
            last: None,
        }
    }

    /// A group, read whole.
    pub(crate) fn group(&self, id: GroupId) -> Group
        requires { id.index < length self.now.groups.now }
        ensures { result ≡ slice_index_or self.now.groups.now id.index no_group }
    {
        self.groups[id.index as usize]
    }

    /// How many groups can be named.
    fn capacity(&self) -> u32
        ensures { result ≡ capacity self.now.groups.now }
    {
        u32::try_from(self.groups.len()).unwrap_or(u32::MAX)
    }

    /// How many groups no region uses.
    fn left(&self) -> u32
        requires { Counted self.now }
        ensures { result ≡ left self.now }
    {
        self.freed + (self.capacity() - self.mark)
    }

    /// Whether the unused groups suffice for a change.
    pub(crate) fn cover(&self, change: Change) -> bool
        requires { Counted self.now }
        ensures { result ≡ nat_le (change.after - change.before) (left self.now) }
    {
        change.after.saturating_sub(change.before) <= self.left() as usize
    }

    // `Apart` is said of the store and a region together, so it is asked in each function of both, and is no invariant of the store.

    /// Takes an unused group: the one freed last, or else the first that was never used.
    #[tactic(auto, using(crate::proofs::Stock::last_within, crate::proofs::Stock::taken_freed, crate::proofs::Stock::taken_fresh))]
    fn take(&mut self) -> GroupId
        requires apart { Apart self.old Empty }
        requires some { 0 < left self.old }
        ensures { Taken self.old Empty result self.new }
    {
        match self.last {
            Some(id) => {
                self.freed -= 1;
                self.last = self.groups[id.index as usize].children[0].group();
                id
            }
            None => {
                let id = GroupId { index: self.mark };
                self.mark += 1;
                id
            }
        }
    }

    /// Frees a group: it serves again before any that was never used.
    fn free(&mut self, id: GroupId)
        requires { Apart self.old (Split id) }
        ensures { Freed self.old (Split id) self.new }
    {
        let mut group = self.group(id);
        group.children[0] = Child::from(self.last);
        self.groups[id.index as usize] = group;
        self.freed += 1;
        self.last = Some(id);
    }

    /// The group of a region, or else an unused one.
    fn group_for(&mut self, region: Child) -> GroupId
        requires apart { Apart self.old region }
        requires some { 0 < has_group region + left self.old }
        ensures { Taken self.old region result self.new }
    {
        // by the cases of the region: over `region.group()` the check finds no proof
        match region {
            Child::Empty | Child::Solid => self.take(),
            Child::Split(id) => id,
        }
    }

    /// Frees the group of a region, if it has one.
    fn release(&mut self, region: Child)
        requires { Apart self.old region }
        ensures { Freed self.old region self.new }
    {
        if let Some(id) = region.group() {
            self.free(id);
        }
    }

    /// Writes down a region that was `region`, and whose eight children are now `children`: it keeps its group, or takes or frees one.
    pub(crate) fn settle(&mut self, region: Child, children: [Child; 8]) -> Child
        requires apart { Apart self.old region }
        requires some { wants (blend (λ k. kind_of (slice_index_or children k Empty))) ≤ has_group region + left self.old }
        ensures { Settled self.old region children self.new result }
    {
        match blended(kinds(children)) {
            Kind::AllEmpty => {
                self.release(region);
                Child::Empty
            }
            Kind::AllSolid => {
                self.release(region);
                Child::Solid
            }
            Kind::Mixed => {
                let id = self.group_for(region);
                self.groups[id.index as usize] = Group { children };
                Child::Split(id)
            }
        }
    }
}
