//! The rows of a whole box.

ghost use Rattle.std.specs.Prelude.{◌*◌};
ghost use Rattle.rows.specs.Rows.{RowsOf, SameBehind};

use crate::solid_row;
use geometry::{Facet, Row};

/// Tells of each cell of a box with so many cells a side whether the triangles make it solid. The rows stand one after another, those with
/// the same z together; a row for which there is no place is left out, and the cells behind the rows stay.
pub fn solid_rows(facets: &[Facet], side: u8, cells: &mut [bool])
    ensures rows { RowsOf facets.now side (side * side) cells.new }
    ensures rest { SameBehind side (side * side) cells.old cells.new }
{
    // `as` and by places: with `from`, or over chunks of the cells, the proof of what each row holds did not close
    // the row of a number is told here and in flips: a function of both would owe for each why its numbers fit, and be no shorter
    let n = side as usize;
    for number in 0..n * n {
        let start = number * n;
        if start + n <= cells.len() {
            let row = Row {
                y: (number % n) as u8,
                z: (number / n) as u8,
            };
            solid_row(facets, row, &mut cells[start..start + n]);
        }
    }
}
