//! The cells that a triangle's closed spans meet.

ghost use Rattle.std.specs.Prelude.{◌≡◌, ℕ, ◌<◌, ◌≤◌, ℤ, pos, int_le, nat_le, nat_lt};
ghost use Rattle.geometry.specs.Cells.{at_tip, high, low};
ghost use Rattle.geometry.specs.Extents.{Extends, Spans};
ghost use Rattle.geometry.specs.Read.{along, half, triangle_of};

use super::Facet;
use super::crossing::first_at;
use crate::axis::Axis;
use crate::bounded::make::WIDTH;

/// The cells from `start` up to, and without, `end` on an axis.
#[derive(Clone, Copy, Debug, PartialEq, Eq)]
pub struct Span {
    pub start: usize,
    pub end: usize,
}

/// A box of cells, by its spans on the three axes.
#[derive(Clone, Copy, Debug, PartialEq, Eq)]
pub struct Extent {
    pub x: Span,
    pub y: Span,
    pub z: Span,
}

/// Of the first `n` cells on an axis, the first that ends at `least` or behind it, or `n`.
fn first_reaching(least: i32, n: usize) -> usize
    ensures { (k : ℕ) → k < n → nat_le result k ≡ int_le least (high half (pos k)) }
{
    first_at(WIDTH - i64::from(least), WIDTH, n)
}

/// Of the first `n` cells on an axis, the first that begins behind `greatest`, or `n`.
fn first_behind(greatest: i32, n: usize) -> usize
    ensures within { result ≤ n }
    ensures before { (k : ℕ) → k < n → nat_lt k result ≡ int_le (low half (pos k)) greatest }
{
    first_at(-i64::from(greatest) - 1, WIDTH, n)
}

impl Facet {
    /// The least and the greatest coordinate of the triangle on the axis.
    pub(crate) fn reach(&self, axis: Axis) -> (i32, i32)
        ensures least { (h : ℤ) → int_le result.0 h ≡ at_tip (λ v. int_le (along axis v) h) (triangle_of self.now) }
        ensures greatest { (h : ℤ) → int_le h result.1 ≡ at_tip (λ v. int_le h (along axis v)) (triangle_of self.now) }
    {
        let a = axis.along(self.v0.point());
        let b = axis.along(self.v1.point());
        let c = axis.along(self.v2.point());
        (a.min(b).min(c), a.max(b).max(c))
    }

    /// The cells, of the first `n` on an axis, that the triangle's closed span meets.
    fn span(&self, axis: Axis, n: usize) -> Span
        ensures { Spans (along axis) n (triangle_of self.now) result }
    {
        let (least, greatest) = self.reach(axis);
        Span {
            start: first_reaching(least, n),
            end: first_behind(greatest, n),
        }
    }

    /// The cells of a box of `n` cells along each axis that the triangle's closed span meets on every axis. It makes no other cell thick.
    pub fn extent(&self, n: usize) -> Extent
        ensures { Extends n (triangle_of self.now) result }
    {
        Extent {
            x: self.span(Axis::X, n),
            y: self.span(Axis::Y, n),
            z: self.span(Axis::Z, n),
        }
    }
}
