//! Flipping a whole drawing into a block, from a source of rows: all of its flips are made, or none.
#![tactic(auto)]

ghost use Rattle.std.specs.Prelude.{◌≡◌, ℕ, ◌*◌, ◌<◌, ◌≤◌, Bool, true, false, length, is_ok, if◌then◌else◌, slice_index_or};
ghost use Rattle.block.specs.Keeps.{Keeps};
ghost use Rattle.rows.specs.Runs.{LongestRuns};
ghost use Rattle.flips.specs.Flips.{row_runs, flips_of, first_rows};
ghost use Rattle.flips.specs.Drawn.{drawn, all_fit, flips_answer, ChangedWhere};

use crate::list::{make_flips, undo_flips};
use crate::row::{row_count, row_flips};
use arrayvec::ArrayVec;
use block::{Block, Run};
use geometry::Row;
use refusals::Refusal;

mod list;
mod row;

/// A source of rows of cells, some of which it makes solid.
pub trait RowSource {
    /// Whether the source makes the cell (x, y, z) solid.
    ghost solid: { Self → ℕ → ℕ → ℕ → Bool };

    /// Tells of each cell of the row, from x = 0 on, whether the source makes it solid.
    fn row(&self, row: Row, cells: &mut [bool])
        ensures { (x : ℕ) → x < length cells.old → slice_index_or cells.new x false ≡ solid self.now x row.y row.z };
}

/// Makes the flips of the first `count` rows again, the last first, from rows that are computed again: the drawing before them comes back.
/// In `flips` there is room for those of a row.
fn undo_rows<B: Block, S: RowSource>(
    block: &mut B,
    source: &S,
    count: usize,
    flips: &mut ArrayVec<Run, 64>,
)
    requires sound { B.sound block.old }
    requires within { count ≤ B.edge block.old * B.edge block.old }
    ensures kept { Keeps B.sound B.ties B.edge B.fits block.old block.new }
    ensures back { (d : ℕ → Bool) → B.fits block.old d ≡ true → all_fit (B.edge block.old) (B.fits block.old) d (first_rows (B.edge block.old) (S.solid source.now) count) ≡ true → B.drawing block.old ≡ drawn (B.edge block.old) d (first_rows (B.edge block.old) (S.solid source.now) count) → B.drawing block.new ≡ d }
{
    let side = block.side();
    for i in (0..count).rev() {
        row_flips(source, side, i, flips);
        undo_flips(block, flips.as_slice());
    }
}

/// Flips all cells that the source makes solid: by rising z, then y, in each row the longest runs of such cells by rising x. Answers the
/// number of flips, or refusal 12 where a drawing on the way does not fit: then the flips before it are made again, the last first, and the
/// drawing is as it was.
pub fn flip_rows<B: Block, S: RowSource>(block: &mut B, source: &S) -> Result<usize, Refusal>
    requires { B.sound block.old }
    ensures kept { Keeps B.sound B.ties B.edge B.fits block.old block.new }
    ensures answer { result ≡ flips_answer (B.edge block.old) (B.fits block.old) (B.drawing block.old) (flips_of (B.edge block.old) (S.solid source.now)) }
    ensures drawn { B.drawing block.new ≡ (if is_ok result then drawn (B.edge block.old) (B.drawing block.old) (flips_of (B.edge block.old) (S.solid source.now)) else B.drawing block.old) }
    ensures cells { is_ok result ≡ true → ChangedWhere (B.edge block.old) (S.solid source.now) (B.drawing block.old) (B.drawing block.new) }
    ensures longest { (y z : ℕ) → LongestRuns (B.edge block.old) (λ x. S.solid source.now x y z) (row_runs (B.edge block.old) (S.solid source.now) y z) }
{
    let side = block.side();
    let mut flips = ArrayVec::new();
    let mut count = 0;
    for i in 0..row_count(side) {
        row_flips(source, side, i, &mut flips);
        if let Err(why) = make_flips(block, flips.as_slice()) {
            undo_rows(block, source, i, &mut flips);
            return Err(why);
        }
        count += flips.len();
    }
    Ok(count)
}
