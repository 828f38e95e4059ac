//! Cells in bytes: cell k is bit k mod 8, the lowest first, of byte k div 8.

ghost use Rattle.std.specs.Prelude.{◌≡◌, ℕ, ◌*◌, ◌<◌, ◌≤◌, length, drop};
ghost use Rattle.refusals.specs.BoxSides.{cells_of};
ghost use Rattle.block.specs.Drawing.{turned};
ghost use Rattle.dense.specs.Cells.{bit, cell_in, filled_at, turned_at, wiped};

use crate::places::{byte_count, is_enough};
use geometry::Span;
use refusals::BoxSide;

/// Whether bit `j` of a byte is set.
#[tactic(auto, using(crate::proofs::BitLaws::bit_read))]
fn bit_of(byte: u8, j: usize) -> bool
    requires { j < 8 }
    ensures { result ≡ bit byte j }
{
    (byte >> j) & 1 == 1
}

/// Whether cell `k` is solid.
pub(crate) fn is_set(cells: &[u8], k: usize) -> bool
    requires { k < 8 * length cells.now }
    ensures { result ≡ cell_in cells.now k }
{
    bit_of(cells[k / 8], k % 8)
}

// `fill_cell` and `turn_cell` differ in their operator: a function of both would take it and the word for it, and is no plainer.

/// Makes cell `k` solid.
pub(crate) fn fill_cell(cells: &mut [u8], k: usize)
    requires { k < 8 * length cells.old }
    ensures { cells.new ≡ filled_at cells.old k }
{
    cells[k / 8] |= 1u8 << (k % 8);
}

/// Changes cell `k`.
fn turn_cell(cells: &mut [u8], k: usize)
    requires { k < 8 * length cells.old }
    ensures { cells.new ≡ turned_at cells.old k }
{
    cells[k / 8] ^= 1u8 << (k % 8);
}

/// Changes the cells of a run, by their numbers. Only bytes that they lie in change.
pub(crate) fn turn_run(cells: &mut [u8], run: Span)
    requires { (run.start ≤ run.end) × (run.end ≤ 8 * length cells.old) }
    ensures cells { cell_in cells.new ≡ turned (cell_in cells.old) run.start run.end }
    ensures rest { (m : ℕ) → run.end ≤ 8 * m → drop m cells.new ≡ drop m cells.old }
{
    for k in run.start..run.end {
        turn_cell(cells, k);
    }
}

/// Writes 0 wherever the cells of a box lie, if they have room.
pub(crate) fn wipe(cells: &mut [u8], side: BoxSide)
    ensures { cells.new ≡ wiped (cells_of side) cells.old }
{
    let len = cells.len();
    if is_enough(side, len) {
        cells[..byte_count(side)].fill(0);
    }
}
