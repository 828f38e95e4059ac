//! Changing a run of cells.

ghost use Rattle.octree.specs.Trees.{solid_at};
ghost use Rattle.octree.specs.OnTheWay.{Moved, Ready, flipped};

use crate::cells::Child;
use crate::region::Level;
use crate::store::Store;
use crate::tree::in_order;
use block::Run;

/// Changes a run of cells in a region, and answers what the region is then. At no time are more groups in use than before or after.
#[tactic(auto, using(crate::proofs::Reading::readable_there, crate::proofs::Turning::ready_readable))]
pub(crate) fn turn(store: &mut Store<'_>, region: Child, level: Level, run: Run) -> Child
    requires { Ready store.old level.number region run }
    ensures { Moved store.old level.number region (flipped run (solid_at store.old.groups.now level.number region)) store.new result }
{
    if run.start >= run.end {
        return region;
    }
    if level.is_cell() {
        return region.turned_over();
    }
    let mut children = region.children(store);
    let below = level.below();
    let (first, second) = in_order(store, children, below, run);
    children[first.child] = turn(store, children[first.child], below, first.run);
    children[second.child] = turn(store, children[second.child], below, second.run);
    store.settle(region, children)
}
