//! What a region holds, by its groups: its children, its cells, and what changing a run would do to it.

ghost use Rattle.std.specs.Prelude.{◌≡◌, ℕ, suc, ◌<◌, ◌≤◌, slice_index_or};
ghost use Rattle.octree.specs.declared.cells.Child.TheVariants.{Empty};
ghost use Rattle.octree.specs.declared.cells.Kind.TheVariants.{AllEmpty};
ghost use Rattle.octree.specs.Trees.{children_of, solid_at};
ghost use Rattle.octree.specs.OnTheWay.{Lies, Ordered, Planned, Readable, There, blend, both, kind_of, turned_over, wants};

use crate::cells::{Change, Child, Kind, Part};
use crate::region::{Level, child_of, halves, inner};
use crate::store::Store;
use block::{Cell, Run};

impl Kind {
    /// What two regions hold together.
    fn both(self, other: Kind) -> Kind
        ensures { result ≡ both self other }
    {
        if self == other { self } else { Kind::Mixed }
    }

    /// How many groups a region of this kind has for itself.
    fn groups(self) -> usize
        ensures wants { result ≡ wants self }
        ensures most { result ≤ 1 }
    {
        match self {
            Kind::AllEmpty | Kind::AllSolid => 0,
            Kind::Mixed => 1,
        }
    }
}

impl Child {
    /// What the region holds, where no group is in excess.
    fn kind(self) -> Kind
        ensures { result ≡ kind_of self }
    {
        match self {
            Child::Empty => Kind::AllEmpty,
            Child::Solid => Kind::AllSolid,
            Child::Split(_) => Kind::Mixed,
        }
    }

    /// A single cell turned over.
    pub(crate) fn turned_over(self) -> Child
        ensures { result ≡ turned_over self }
    {
        match self {
            Child::Empty => Child::Solid,
            Child::Solid | Child::Split(_) => Child::Empty,
        }
    }

    /// The eight children of the region.
    pub(crate) fn children(self, store: &Store<'_>) -> [Child; 8]
        requires { There store.now.groups.now self }
        ensures { result ≡ children_of store.now.groups.now self }
    {
        match self {
            Child::Empty => [Child::Empty; 8],
            Child::Solid => [Child::Solid; 8],
            Child::Split(id) => store.group(id).children,
        }
    }
}

/// What eight children hold, each.
pub(crate) fn kinds(children: [Child; 8]) -> [Kind; 8]
    ensures { (k : ℕ) → k < 8 → slice_index_or result k AllEmpty ≡ kind_of (slice_index_or children k Empty) }
{
    children.map(|c| c.kind())
}

/// What eight children hold together.
// Spelled out: a fold over the eight would be no shorter, and its proof would turn on the order of the steps.
pub(crate) fn blended(kinds: [Kind; 8]) -> Kind
    ensures { result ≡ blend (λ k. slice_index_or kinds k AllEmpty) }
{
    let [a, b, c, d, e, f, g, h] = kinds;
    a.both(b.both(c.both(d.both(e.both(f.both(g.both(h)))))))
}

/// Whether a cell of a region is solid.
// `look`, `plan` and `turn` call themselves, the level falling, as the table in docs/DECISIONS.md names them. A region comes with its level
// beside it, and with the store that has its groups: children are stored without their levels. `Readable` is said of the three
// together, so it is no invariant of one.
#[tactic(auto, using(crate::proofs::Reading::readable_there, crate::proofs::Reading::readable_part, crate::proofs::Reading::split_above, crate::proofs::Trees::leaf_shows))]
pub(crate) fn look(store: &Store<'_>, region: Child, level: Level, cell: Cell) -> bool
    requires { Readable store.now.groups.now level.number region }
    ensures { result ≡ solid_at store.now.groups.now level.number region cell }
{
    match region {
        Child::Empty => false,
        Child::Solid => true,
        Child::Split(_) => {
            let children = region.children(store);
            let below = level.below();
            let half = below.width();
            let child = child_of(half, cell);
            look(store, children[child], below, inner(half, child, cell))
        }
    }
}

/// What changing a run would do to a region.
#[tactic(auto, using(crate::proofs::Places::width_low, crate::proofs::Reading::readable_there))]
pub(crate) fn plan(store: &Store<'_>, region: Child, level: Level, run: Run) -> Change
    requires readable { Readable store.now.groups.now level.number region }
    requires lies { Lies level.number run }
    ensures { Planned store.now.groups.now level.number region run result }
{
    if run.start >= run.end {
        return Change {
            kind: region.kind(),
            before: 0,
            after: 0,
        };
    }
    if level.is_cell() {
        return Change {
            kind: region.turned_over().kind(),
            before: 0,
            after: 0,
        };
    }
    let children = region.children(store);
    let below = level.below();
    let (low, high) = halves(below, run);
    let lower = plan(store, children[low.child], below, low.run);
    let higher = plan(store, children[high.child], below, high.run);
    let mut kinds = kinds(children);
    kinds[low.child] = lower.kind;
    kinds[high.child] = higher.kind;
    let kind = blended(kinds);
    Change {
        kind,
        before: lower.before + higher.before + region.kind().groups(),
        after: lower.after + higher.after + kind.groups(),
    }
}

/// The two parts of a run in the children of a region, in the order in which to change them: that whose need grows less comes first, so
/// that the groups which it frees are there for the other. The level is that of the children.
#[tactic(auto, using(crate::proofs::Places::width_low, crate::proofs::Planning::part_lies_in))]
pub(crate) fn in_order(
    store: &Store<'_>,
    children: [Child; 8],
    level: Level,
    run: Run,
) -> (Part, Part)
    requires readable { (k : ℕ) → k < 8 → Readable store.now.groups.now level.number (slice_index_or children k Empty) }
    requires lies { Lies (suc level.number) run }
    ensures { Ordered store.now.groups.now level.number children run result.0 result.1 }
{
    let (low, high) = halves(level, run);
    let lower = plan(store, children[low.child], level, low.run);
    let higher = plan(store, children[high.child], level, high.run);
    if lower.after + higher.before <= higher.after + lower.before {
        (low, high)
    } else {
        (high, low)
    }
}
