//! The regions of a box: how wide they are, where their children lie, and the runs in them.

ghost use Rattle.std.specs.Prelude.{◌≡◌, suc, ◌*◌, ◌%◌, ◌<◌, ◌≤◌, ◌↔◌, IsTrue};
ghost use Rattle.refusals.specs.BoxSides.{cells_of};
ghost use Rattle.octree.specs.Regions.{level_of, start_of, width};
ghost use Rattle.octree.specs.Trees.{minus, which_child};
ghost use Rattle.octree.specs.OnTheWay.{Halves, IsPartAt};

use crate::cells::Part;
use block::{Cell, Run};
use refusals::BoxSide;

/// The level of a region: it has 2^number cells along each axis. That of a whole box is 6 at most, and that of a single cell is 0.
#[derive(Clone, Copy, Debug, PartialEq, Eq)]
pub struct Level {
    number: usize,
    ghost low: { number ≤ 6 },
}

impl Level {
    /// The level of a whole box.
    pub(crate) fn of_box(side: BoxSide) -> Level
        ensures { result.number ≡ level_of (cells_of side) }
    {
        let number = match side {
            BoxSide::Two => 1,
            BoxSide::Four => 2,
            BoxSide::Eight => 3,
            BoxSide::Sixteen => 4,
            BoxSide::ThirtyTwo => 5,
            BoxSide::SixtyFour => 6,
        };
        Level { number }
    }

    /// Whether it is the level of a single cell.
    pub(crate) fn is_cell(self) -> bool
        ensures { IsTrue result ↔ (self.number ≡ 0) }
    {
        self.number == 0
    }

    /// The level of a region's children.
    pub(crate) fn below(self) -> Level
        requires { 0 < self.number }
        ensures { self.number ≡ suc result.number }
    {
        Level {
            number: self.number - 1,
        }
    }

    /// How many cells a region of this level has along each axis.
    pub(crate) fn width(self) -> usize
        ensures { result ≡ width self.number }
    {
        1 << self.number
    }
}

/// The child that a cell lies in, of a region whose children have `half` cells along each axis.
pub(crate) fn child_of(half: usize, cell: Cell) -> usize
    ensures child { result ≡ which_child half cell }
    ensures below { result < 8 }
{
    usize::from(cell.x >= half) + 2 * usize::from(cell.y >= half) + 4 * usize::from(cell.z >= half)
}

/// Where a half of an axis begins: the lower one for an even number, the upper one for an odd number.
fn half_start(half: usize, number: usize) -> usize
    ensures { result ≡ half * (number % 2) }
{
    if number % 2 == 0 { 0 } else { half }
}

/// Where a child begins in its region.
fn start_of(half: usize, child: usize) -> Cell
    ensures { result ≡ start_of half child }
{
    Cell {
        x: half_start(half, child),
        y: half_start(half, child / 2),
        z: half_start(half, child / 4),
    }
}

/// A cell, counted from where its child begins.
pub(crate) fn inner(half: usize, child: usize, cell: Cell) -> Cell
    requires { child ≡ which_child half cell }
    ensures { result ≡ minus cell (start_of half child) }
{
    let start = start_of(half, child);
    Cell {
        x: cell.x - start.x,
        y: cell.y - start.y,
        z: cell.z - start.z,
    }
}

/// The child that the cell `x` of a run's row lies in, with the part of the run in that child.
fn part_at(half: usize, run: Run, x: usize) -> Part
    ensures { IsPartAt half run x result }
{
    let child = child_of(
        half,
        Cell {
            x,
            y: run.y,
            z: run.z,
        },
    );
    let start = start_of(half, child);
    Part {
        child,
        run: Run {
            y: run.y - start.y,
            z: run.z - start.z,
            start: run.start.saturating_sub(start.x),
            end: run.end.saturating_sub(start.x).min(half),
        },
    }
}

/// The two parts of a run in the children of a region: the lower one along x and the higher one. The level is that of the children.
pub(crate) fn halves(level: Level, run: Run) -> (Part, Part)
    ensures { Halves (width level.number) run result.0 result.1 }
{
    let half = level.width();
    (part_at(half, run, 0), part_at(half, run, half))
}
