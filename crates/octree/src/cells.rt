//! What an octree is made of.

ghost use Rattle.std.specs.Prelude.{◌≡◌, ◌<◌};
ghost use Rattle.octree.specs.Trees.{group_of};

use block::Run;

/// The name of a group: its place in the lent memory.
#[derive(Clone, Copy, Debug, PartialEq, Eq)]
pub struct GroupId {
    pub(crate) index: u32,
}

/// A region of the box: all empty, all solid, or split into the eight children that a group holds.
#[derive(Clone, Copy, Debug, PartialEq, Eq)]
pub enum Child {
    Empty,
    Solid,
    Split(GroupId),
}

impl Child {
    /// The group that the child names, if it names one.
    pub fn group(self) -> Option<GroupId>
        ensures { result ≡ group_of self }
    {
        match self {
            Child::Empty | Child::Solid => None,
            Child::Split(id) => Some(id),
        }
    }
}

/// The child that names a group, or an empty one where there is none.
impl From<Option<GroupId>> for Child {
    ghost from_gives = { λ group child. group_of child ≡ group };

    fn from(group: Option<GroupId>) -> Child {
        match group {
            Some(id) => Child::Split(id),
            None => Child::Empty,
        }
    }
}

/// The eight children of a region. Bit 0 of a child's place tells the upper half along x, bit 1 along y and bit 2 along z.
#[derive(Clone, Copy, Debug, PartialEq, Eq)]
pub struct Group {
    pub(crate) children: [Child; 8],
}

impl Group {
    /// A group to make memory of. An octree does not look at what a group holds before it has written it.
    pub const EMPTY: Group = Group {
        children: [Child::Empty; 8],
    };
}

/// What a region holds.
#[derive(Clone, Copy, Debug, PartialEq, Eq)]
pub enum Kind {
    AllEmpty,
    AllSolid,
    Mixed,
}

/// A child of a region, and the part of a run that lies in it, counted from where the child begins.
#[derive(Clone, Copy, Debug, PartialEq, Eq)]
pub struct Part {
    pub child: usize,
    pub run: Run,
    ghost within: { child < 8 },
}

/// What changing a run does to a region: what the region holds then, and how many of the regions that the run meets are mixed before and
/// after.
#[derive(Clone, Copy, Debug, PartialEq, Eq)]
pub struct Change {
    pub kind: Kind,
    pub before: usize,
    pub after: usize,
}
