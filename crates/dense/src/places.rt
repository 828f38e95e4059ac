//! How many bytes the cells of a box take.

ghost use Rattle.std.specs.Prelude.{◌≡◌, nat_le};
ghost use Rattle.refusals.specs.BoxSides.{cells_of};
ghost use Rattle.dense.specs.Cells.{bytes_for};

use refusals::BoxSide;

/// How many bytes the cells of the box take.
pub(crate) fn byte_count(side: BoxSide) -> usize
    ensures { result ≡ bytes_for (cells_of side) }
{
    let n = side.cells();
    n * n * n / 8
}

/// Whether `len` bytes have a bit for each cell.
pub(crate) fn is_enough(side: BoxSide, len: usize) -> bool
    ensures { result ≡ nat_le (bytes_for (cells_of side)) len }
{
    byte_count(side) <= len
}
