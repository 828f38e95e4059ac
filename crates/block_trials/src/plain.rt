//! A box of cells as a plain list of truth values, by cell number, and what its drawing needs in each kind of block. All of it is written
//! apart from the blocks, so that it tells where one of them differs.

ghost use Rattle.std.specs.Prelude.{◌<◌};

use block::{Cell, Run};
use refusals::{BoxSide, Refusal};
use std::alloc::{AllocError, Global};
use std::fmt;

/// A kind of block.
#[derive(Clone, Copy, Debug, PartialEq, Eq)]
pub enum Kind {
    Dense,
    Spans,
    Octree,
}

impl fmt::Display for Kind {
    fn fmt<W: fmt::Write>(&self, f: &mut fmt::Formatter<W>) -> fmt::Result {
        f.write_str(match self {
            Kind::Dense => "dense",
            Kind::Spans => "spans",
            Kind::Octree => "octree",
        })
    }
}

/// The cells of a box of this side.
#[derive(Debug, Drop)]
pub struct Plain {
    side: BoxSide,
    cells: Vec<bool>,
}

/// Whether the cell is one of the run.
fn is_met(run: Run, cell: Cell) -> bool {
    cell.y == run.y && cell.z == run.z && run.start <= cell.x && cell.x < run.end
}

/// The cell with the number `k`.
fn cell_of(n: usize, k: usize) -> Cell
    requires { 0 < n }
{
    Cell {
        x: k % n,
        y: k / n % n,
        z: k / n / n,
    }
}

/// Whether a region of `width` cells along each axis begins at the cell.
fn is_corner(width: usize, cell: Cell) -> bool
    requires { 0 < width }
{
    cell.x % width == 0 && cell.y % width == 0 && cell.z % width == 0
}

impl Plain {
    /// A box with no cell solid.
    pub fn new(heap: Global, side: BoxSide) -> Result<Plain, AllocError> {
        let n = side.cells();
        let cells = vec![in heap; false; n * n * n]?;
        Ok(Plain { side, cells })
    }

    /// Whether the block has every cell as it is here.
    pub fn is_same<B: block::Block>(&self, block: &B) -> bool
        requires { B.sound block.now }
    {
        // a `for`: of a closure over a block of any kind the check does not find that the block is sound at each call
        for (k, &solid) in self.cells.iter().enumerate() {
            if block.look(cell_of(self.side.cells(), k)) != Ok(solid) {
                return false;
            }
        }
        true
    }

    /// What a look at the cell should answer.
    pub fn look(&self, cell: Cell) -> Result<bool, Refusal> {
        let n = self.side.cells();
        if cell.x >= n || cell.y >= n || cell.z >= n {
            return Err(Refusal::OffBox);
        }
        Ok(self.cells.get(cell.x + n * cell.y + n * n * cell.z) == Some(&true))
    }

    /// What a flip of the run should answer, in a block of this kind with so much memory. The cells are changed if it is made.
    pub fn flip(&mut self, kind: Kind, memory: usize, run: Run) -> Result<(), Refusal> {
        let n = self.side.cells();
        if run.y >= n || run.z >= n || run.start >= run.end || run.end > n {
            return Err(Refusal::OffBox);
        }
        self.turn(run);
        if self.need(kind) > memory {
            self.turn(run);
            return Err(Refusal::NoSand);
        }
        Ok(())
    }

    /// Changes the cells of the run.
    fn turn(&mut self, run: Run) {
        let n = self.side.cells();
        for (k, solid) in self.cells.iter_mut().enumerate() {
            if is_met(run, cell_of(n, k)) {
                *solid = !*solid;
            }
        }
    }

    // a switch: the kinds are few, and what each needs is told here, apart from the blocks
    /// How many bytes, change places or groups the drawing needs.
    fn need(&self, kind: Kind) -> usize {
        match kind {
            Kind::Dense => self.bytes(),
            Kind::Spans => self.change_places(),
            Kind::Octree => self.mixed_regions(),
        }
    }

    /// A bit for each cell, or nothing where no cell is solid.
    fn bytes(&self) -> usize {
        if self.cells.contains(&true) {
            self.cells.len() / 8
        } else {
            0
        }
    }

    /// How many cells differ from the cell before them; the cell before the first counts as empty.
    fn change_places(&self) -> usize {
        let before = std::iter::once(&false).chain(self.cells.iter());
        self.cells
            .iter()
            .zip(before)
            .filter(|(solid, before)| solid != before)
            .count()
    }

    /// How many regions of 2 cells or more along each axis have both solid and empty cells.
    fn mixed_regions(&self) -> usize {
        let mut count = 0usize;
        for width in [
            BoxSide::Two,
            BoxSide::Four,
            BoxSide::Eight,
            BoxSide::Sixteen,
            BoxSide::ThirtyTwo,
            BoxSide::SixtyFour,
        ] {
            count = count.saturating_add(self.mixed_of_width(width));
        }
        count
    }

    /// How many regions of this width along each axis have both solid and empty cells.
    fn mixed_of_width(&self, width: BoxSide) -> usize {
        let n = self.side.cells();
        let w = width.cells();
        if w > n {
            return 0;
        }
        (0..self.cells.len())
            .map(|k| cell_of(n, k))
            .filter(|&corner| is_corner(w, corner) && self.is_mixed(width, corner))
            .count()
    }

    /// Whether the region of this width along each axis that begins at `corner` has both solid and empty cells.
    fn is_mixed(&self, width: BoxSide, corner: Cell) -> bool {
        let first = self.look(corner);
        let w = width.cells();
        (0..w * w * w).any(|k| {
            let step = cell_of(w, k);
            let cell = Cell {
                x: corner.x.saturating_add(step.x),
                y: corner.y.saturating_add(step.y),
                z: corner.z.saturating_add(step.z),
            };
            self.look(cell) != first
        })
    }
}
