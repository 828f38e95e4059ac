ghost use Rattle.std.specs.Prelude.{◌≡◌, pos, ◌+ℤ◌, ◌*ℤ◌, ◌<ℤ◌, int_le};
ghost use Rattle.geometry.specs.Geometry.{counts, covers, normal_of, plane};
ghost use Rattle.geometry.specs.Cells.{cell_at, centre, first_crossed, least, sign, size};
ghost use Rattle.geometry.specs.Points.{point_of};
ghost use Rattle.geometry.specs.Numbers.{Floor};
ghost use Rattle.geometry.specs.Read.{half, triangle_of};

use super::Facet;
use crate::axis::Axis;
use crate::bounded::Bounded;
use crate::bounded::make::WIDTH;
use crate::mesh::{Cell, Row};

/// Whether the side from `a` to `b` passes the height of `p`, at a y greater than that of `p`.
pub(crate) fn side_counts(a: Bounded, b: Bounded, p: Bounded) -> bool
    ensures { result ≡ counts (point_of p) (point_of a) (point_of b) }
{
    let z = p.z.value;
    if (a.z.value <= z) == (b.z.value <= z) {
        return false;
    }
    let ahead = Axis::X.edge(a, b, p);
    if a.z.value <= z { ahead > 0 } else { ahead < 0 }
}

/// The quotient rounded down.
fn floor_div(a: i64, d: i64) -> i64
    requires { pos 0 <ℤ d }
    ensures { Floor a d result }
{
    a.div_euclid(d)
}

/// The least k below `n` at which start + step k is not negative, or `n`: the quotient −start / step rounded up, clipped to 0..n.
pub(crate) fn first_at(start: i64, step: i64, n: usize) -> usize
    requires { pos 0 <ℤ step }
    ensures { result ≡ least (λ k. int_le (pos 0) (start +ℤ step *ℤ pos k)) n }
{
    let before = floor_div(start, step);
    if before >= 0 {
        return 0;
    }
    n.min(before.unsigned_abs() as usize)
}

/// The centre of the row's first cell.
fn first_centre(row: Row) -> Bounded
    ensures { point_of result ≡ centre half (cell_at 0 row.y row.z) }
{
    Bounded::centre(Cell {
        x: 0,
        y: row.y,
        z: row.z,
    })
}

impl Facet {
    /// Whether the triangle covers the row of `p`: an odd number of its sides count, and its normal has an x.
    fn covers_row_of(&self, p: Bounded) -> bool
        ensures { result ≡ covers (point_of p) (triangle_of self.now) }
    {
        // The sides are written out for the reason told at `is_met`.
        self.normal.x.value != 0
            && side_counts(self.v0, self.v1, p)
                ^ side_counts(self.v1, self.v2, p)
                ^ side_counts(self.v2, self.v0, p)
    }

    /// Whether the triangle covers the row.
    pub fn covers(&self, row: Row) -> bool
        ensures { result ≡ covers (centre half (cell_at 0 row.y row.z)) (triangle_of self.now) }
    {
        self.covers_row_of(first_centre(row))
    }

    /// Of the first `n` cells of the row, the first at or before whose centre the triangle crosses, or `n` if there is none.
    pub fn first_crossed(&self, row: Row, n: usize) -> usize
        ensures { result ≡ first_crossed half row.y row.z n (triangle_of self.now) }
    {
        let p = first_centre(row);
        if self.covers_row_of(p) {
            first_at(self.past_plane(p), self.step(), n)
        } else {
            n
        }
    }

    /// The plane's value at `p` with the sign of n.x: how far `p` lies past the plane along the row, times the size of n.x.
    fn past_plane(&self, p: Bounded) -> i64
        ensures { result ≡ sign (normal_of (triangle_of self.now)).x *ℤ plane (point_of p) (triangle_of self.now) }
    {
        let value = self.plane(p);
        let along = self.normal.x.value;
        if along >= 0 { value } else { -value }
    }

    /// By how much that grows from one cell of a row to the next.
    fn step(&self) -> i64
        ensures { result ≡ (half +ℤ half) *ℤ size (normal_of (triangle_of self.now)).x }
    {
        WIDTH * i64::from(self.normal.x.value.abs())
    }
}
