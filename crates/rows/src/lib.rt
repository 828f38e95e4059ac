//! Rows of cells: which cells of a row, or of all rows of a box, a list of triangles makes solid, and the runs of solid cells.
#![tactic(auto)]

ghost use Rattle.std.specs.Prelude.{◌≡◌, ℕ, ◌+◌, ◌<◌, ◌≤◌, Bool, true, false, not, List, length, nat_eq, slice_index_or, MatchOption};
ghost use Rattle.std.specs.Iterator.{YieldsFirst, item_count};
ghost use Rattle.algebra.specs.Parity.{◌⊻◌};
ghost use Rattle.geometry.specs.Read.{half, triangle_of};
ghost use Rattle.rows.specs.Rows.{AllAre, FirstRun, IsFirstPlace, RowOf, first_at, odd, odd_first};
ghost use Rattle.rows.specs.Runs.{LongestRuns, runs_left, told_runs};

use geometry::{Facet, Row, Span};

pub mod boxes;

pub use boxes::solid_rows;

/// Changes the cell at a place, if there is one.
fn change(cells: &mut [bool], place: usize)
    ensures { (x : ℕ) → x < length cells.old → slice_index_or cells.new x false ≡ (slice_index_or cells.old x false ⊻ nat_eq place x) }
{
    // not `get_mut`, of which std does not say what it leaves in the slice
    if place < cells.len() {
        cells[place] = !cells[place];
    }
}

/// Marks in each cell of the row whether an odd number of the triangles cross there first.
fn mark_first(facets: &[Facet], row: Row, cells: &mut [bool])
    ensures { (x : ℕ) → x < length cells.old → slice_index_or cells.new x false ≡ odd (λ f. nat_eq (first_at row.y row.z (length cells.old) f) x) facets.now }
{
    let n = cells.len();
    cells.fill(false);
    for facet in facets {
        change(cells, facet.first_crossed(row, n));
    }
}

/// Makes of each cell whether an odd number of the cells up to it are set.
fn sum_up(cells: &mut [bool])
    ensures { (x : ℕ) → x < length cells.old → slice_index_or cells.new x false ≡ odd_first (x + 1) cells.old }
{
    let mut odd = false;
    for cell in cells.iter_mut() {
        odd ^= *cell;
        *cell = odd;
    }
}

/// Tells of each cell of the row whether the triangles make it solid: whether an odd number of them cross at or before it.
pub fn solid_row(facets: &[Facet], row: Row, cells: &mut [bool])
    ensures { RowOf facets.now row.y row.z cells.new }
{
    mark_first(facets, row, cells);
    sum_up(cells);
}

/// The first place from `from` on whose cell is `solid`, if there is one.
fn next_place(cells: &[bool], from: usize, solid: bool) -> Option<usize>
    ensures { MatchOption result (AllAre cells.now (not solid) from (length cells.now)) (IsFirstPlace cells.now solid from) }
{
    (from..cells.len()).find(|&place| cells[place] == solid)
}

/// The first of the longest runs of solid cells that begin at `from` or later; none where no solid cell is left.
pub fn next_run(cells: &[bool], from: usize) -> Option<Span>
    ensures { FirstRun cells.now from result }
{
    let start = next_place(cells, from, true)?;
    let end = next_place(cells, start, false).unwrap_or(cells.len());
    Some(Span { start, end })
}

/// The longest runs of solid cells of a row, by rising x.
pub fn runs(cells: &[bool]) -> RowRuns<'_>
    ensures list { runs_left result ≡ told_runs cells.now }
    ensures longest { LongestRuns (length cells.now) (λ x. slice_index_or cells.now x false) (runs_left result) }
{
    RowRuns { cells, from: 0 }
}

/// The longest runs of solid cells of a row, from a place on.
#[derive(Debug, Drop)]
pub struct RowRuns<'a> {
    cells: &'a [bool],
    from: usize,
}

impl Iterator for RowRuns<'_> {
    type Item = Span;

    ghost next_gives = { YieldsFirst runs_left };

    ghost remaining = { item_count runs_left };

    #[tactic(auto, using(crate::proofs::RunLaws::told_none, crate::proofs::RunLaws::told_first))]
    fn next(&mut self) -> Option<Span> {
        let run = next_run(self.cells, self.from)?;
        self.from = run.end;
        Some(run)
    }
}
