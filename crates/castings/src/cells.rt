//! The cells of a box of side 2, by their numbers.

use geometry::{Cell, Facet};
use rows::solid_rows;
use std::fmt;

/// How many cells the box has along each axis.
const SIDE: u8 = 2;

/// Some of the eight cells of the box, by cell number.
#[derive(Clone, Copy, Debug, PartialEq, Eq)]
pub(crate) struct Marks([bool; 8]);

impl Marks {
    /// The cells for which a test holds.
    pub(crate) fn of<F: Fn(Cell) -> bool>(holds: F) -> Marks
        requires { F.IsAlwaysCallable holds }
    {
        let mut marks = [false; 8];
        for (number, mark) in (0..8u8).zip(marks.iter_mut()) {
            *mark = holds(Cell {
                x: number % SIDE,
                y: number / SIDE % SIDE,
                z: number / SIDE / SIDE,
            });
        }
        Marks(marks)
    }
}

/// The numbers of the cells, or that there is none.
impl fmt::Display for Marks {
    fn fmt<W: fmt::Write>(&self, f: &mut fmt::Formatter<W>) -> fmt::Result {
        if !self.0.contains(&true) {
            return f.write_str(" none");
        }
        for (number, mark) in self.0.iter().enumerate() {
            if *mark {
                write!(f, " {number}")?;
            }
        }
        Ok(())
    }
}

/// Which cells the triangles make solid.
pub(crate) fn solid_cells(facets: &[Facet]) -> Marks {
    let mut cells = [false; 8];
    solid_rows(facets, SIDE, &mut cells);
    Marks(cells)
}
