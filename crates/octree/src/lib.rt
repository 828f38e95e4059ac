//! The octree: a block that keeps its cells as a tree of regions, in groups that it is lent. A region that is all empty or all solid takes
//! no group, and neither does a single cell; every other region takes one.
#![tactic(auto)]

ghost use Rattle.std.specs.Prelude.{◌≡◌, true, length};
ghost use Rattle.refusals.specs.BoxSides.{cells_of};
ghost use Rattle.block.specs.Drawing.{blank, changed, in_box, in_row, number};
ghost use Rattle.octree.specs.Laws.{blank_fits, shown_fits, shown_within, tied_on, tied_same};
ghost use Rattle.octree.specs.Meaning.{Kept, Sound, Tied, drawing_of, edge_of, fits_in, groups_of};
ghost use Rattle.octree.specs.Regions.{room};

use block::{Block, Cell, Run};
use refusals::{BoxSide, Refusal};

mod cells;
mod region;
mod store;
mod tree;
mod turn;

use cells::Child;
pub use cells::Group;
use region::Level;
use store::Store;
use tree::{look, plan};
use turn::turn;

/// A box of N × N × N cells over any number of lent groups. A drawing fits if no more of its regions of side 2 or more have both solid and
/// empty cells than there are groups.
#[derive(Debug, Drop)]
pub struct Octree<'a> {
    side: BoxSide,
    store: Store<'a>,
    root: Child,
}

impl<'a> Octree<'a> {
    /// A blank octree. Nothing is written into the groups, and what they hold does not matter.
    #[tactic(auto, using(crate::proofs::Wholes::fresh_blank))]
    pub fn new(side: BoxSide, groups: &'a mut [Group]) -> Octree<'a>
        ensures sound { Sound result }
        ensures edge { edge_of result ≡ cells_of side }
        ensures loan { result.store.groups.ghost_name ≡ groups.entry.ghost_name }
        ensures untouched { groups_of result ≡ groups.old }
        ensures blank { drawing_of result ≡ blank }
        ensures fits { fits_in result ≡ room (cells_of side) (length groups.old) }
    {
        Octree {
            side,
            store: Store::new(groups),
            root: Child::Empty,
        }
    }

    /// Whether a cell of the box is solid.
    #[tactic(auto, using(crate::proofs::Wholes::whole_readable, crate::proofs::Wholes::whole_look))]
    fn is_solid(&self, cell: Cell) -> bool
        requires sound { Sound self.now }
        requires inside { in_box (edge_of self.now) cell.x cell.y cell.z ≡ true }
        ensures { result ≡ drawing_of self.now (number (edge_of self.now) cell.x cell.y cell.z) }
    {
        look(&self.store, self.root, Level::of_box(self.side), cell)
    }

    /// Whether the drawing fits with the cells of a run changed.
    #[tactic(auto, using(crate::proofs::Wholes::whole_readable, crate::proofs::Wholes::whole_lies))]
    fn takes(&self, run: Run) -> bool
        requires sound { Sound self.now }
        requires inside { in_row (edge_of self.now) run ≡ true }
        ensures { result ≡ fits_in self.now (changed (edge_of self.now) (drawing_of self.now) run) }
    {
        let change = plan(&self.store, self.root, Level::of_box(self.side), run);
        self.store.cover(change)
    }

    /// Changes the cells of a run.
    #[tactic(auto, using(crate::proofs::Wholes::whole_drawn))]
    fn change(&mut self, run: Run)
        requires sound { Sound self.old }
        requires inside { in_row (edge_of self.old) run ≡ true }
        requires fits { fits_in self.old (changed (edge_of self.old) (drawing_of self.old) run) ≡ true }
        ensures kept { Kept self.old self.new }
        ensures drawn { drawing_of self.new ≡ changed (edge_of self.old) (drawing_of self.old) run }
    {
        self.root = turn(&mut self.store, self.root, Level::of_box(self.side), run);
    }
}

impl<'a> Block for Octree<'a> {
    ghost edge = { edge_of };

    ghost drawing = { drawing_of };

    ghost fits = { fits_in };

    ghost sound = { Sound };

    /// The lent groups are those of the same loan.
    ghost ties = { Tied };

    ghost ties_same = { tied_same };

    ghost ties_on = { tied_on };

    ghost blank_fits = { λ o. blank_fits (edge_of o) (length (groups_of o)) };

    ghost present_fits = { λ o. shown_fits (edge_of o) o.store o.root };

    ghost within = { λ o _. shown_within (edge_of o) (groups_of o) o.root };

    fn side(&self) -> BoxSide {
        self.side
    }

    fn look(&self, cell: Cell) -> Result<bool, Refusal> {
        if !cell.is_in_box(self.side.cells()) {
            return Err(Refusal::OffBox);
        }
        Ok(self.is_solid(cell))
    }

    fn flip(&mut self, run: Run) -> Result<(), Refusal> {
        if !run.is_in_row(self.side.cells()) {
            return Err(Refusal::OffBox);
        }
        if !self.takes(run) {
            return Err(Refusal::NoSand);
        }
        self.change(run);
        Ok(())
    }
}
