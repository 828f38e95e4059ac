//! The flips of one row of a source. Rows go by number: the row (y, z) has the number y + N z.

ghost use Rattle.std.specs.Prelude.{◌≡◌, ◌*◌, ◌/◌, ◌%◌, ◌<◌, ◌≤◌, false, map, length, slice_index_or};
ghost use Rattle.refusals.specs.BoxSides.{cells_of};
ghost use Rattle.rows.specs.Runs.{told_runs};
ghost use Rattle.flips.specs.Flips.{flip_at, row_flips};

use crate::RowSource;
use arrayvec::ArrayVec;
use block::Run;
use geometry::Row;
use refusals::BoxSide;
use rows::runs;

/// How many rows the box has.
pub fn row_count(side: BoxSide) -> usize
    ensures { result ≡ cells_of side * cells_of side }
{
    side.cells() * side.cells()
}

/// The row of a number.
fn row_at(side: BoxSide, number: usize) -> Row
    requires { number < cells_of side * cells_of side }
    ensures y { result.y ≡ number % cells_of side }
    ensures z { result.z ≡ number / cells_of side }
{
    let n = side.cells();
    // `as`: both are below 64, and `try_from` would answer an error that cannot come; rows has the same two
    // expressions, with another bound that makes them fit
    Row {
        y: (number % n) as u8,
        z: (number / n) as u8,
    }
}

/// Makes `flips` hold the longest runs of solid cells of a row, by rising x, and nothing else.
// The list is made once and filled again for each row: to make one takes time for all of its 64 places, and so does to hand one on.
fn cut_runs(cells: &[bool], row: Row, flips: &mut ArrayVec<Run, 64>)
    requires { length cells.now ≤ 64 }
    ensures { flips.new.items ≡ map (flip_at row.y row.z) (told_runs cells.now) }
{
    flips.clear();
    for run in runs(cells) {
        flips.push(Run {
            y: usize::from(row.y),
            z: usize::from(row.z),
            start: run.start,
            end: run.end,
        });
    }
}

/// Makes `flips` hold the flips of the row of a number, and nothing else.
pub fn row_flips<S: RowSource>(
    source: &S,
    side: BoxSide,
    number: usize,
    flips: &mut ArrayVec<Run, 64>,
)
    requires { number < cells_of side * cells_of side }
    ensures { flips.new.items ≡ row_flips (cells_of side) (S.solid source.now) (number % cells_of side) (number / cells_of side) }
{
    let row = row_at(side, number);
    let mut whole = [false; 64];
    let cells = &mut whole[0..side.cells()];
    source.row(row, cells);
    cut_runs(cells, row, flips);
}
