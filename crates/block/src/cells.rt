//! The cells and the runs of a box of n cells along each axis.

ghost use Rattle.std.specs.Prelude.{◌≡◌};

use geometry::Span;

// Not geometry's `Cell`, whose numbers are bytes: a block is asked for any cell, and refuses those outside.

/// A cell, by how many cells lie before it on each axis. It may lie outside the box.
#[derive(Clone, Copy, Debug, Default, PartialEq, Eq)]
pub struct Cell {
    pub x: usize,
    pub y: usize,
    pub z: usize,
}

/// The cells from `start` up to, and without, `end` of the row (y, z). It may lie outside the box, or have no cell at all.
#[derive(Clone, Copy, Debug, Default, PartialEq, Eq)]
pub struct Run {
    pub y: usize,
    pub z: usize,
    pub start: usize,
    pub end: usize,
}

impl Cell {
    ghost use Rattle.block.specs.Drawing.{in_box};
    ghost use Rattle.block.specs.Places.{CellNumber};

    /// Whether the cell lies in the box.
    pub fn is_in_box(self, n: usize) -> bool
        ensures { result ≡ in_box n self.x self.y self.z }
    {
        self.x < n && self.y < n && self.z < n
    }

    /// The number of the cell, where it lies in the box and the box has at most 64 cells along each axis.
    pub fn number_in(self, n: usize) -> Option<usize>
        ensures { CellNumber n self result }
    {
        if n > 64 || !self.is_in_box(n) {
            return None;
        }
        Some(self.x + n * self.y + n * n * self.z)
    }
}

impl Run {
    ghost use Rattle.block.specs.Drawing.{in_row};
    ghost use Rattle.block.specs.Places.{RunNumbers};

    /// Whether the row lies in the box, and the run has a cell and ends in the box.
    pub fn is_in_row(self, n: usize) -> bool
        ensures { result ≡ in_row n self }
    {
        self.y < n && self.z < n && self.start < self.end && self.end <= n
    }

    /// The numbers of the cells of the run, where it lies in the box and the box has at most 64 cells along each axis.
    pub fn numbers_in(self, n: usize) -> Option<Span>
        ensures { RunNumbers n self result }
    {
        if n > 64 || !self.is_in_row(n) {
            return None;
        }
        let row = n * self.y + n * n * self.z;
        Some(Span {
            start: self.start + row,
            end: self.end + row,
        })
    }
}
