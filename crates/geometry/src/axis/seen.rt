ghost use Rattle.std.specs.Prelude.{◌≡◌, pos, ◌-ℤ◌, ◌*ℤ◌, int_le};
ghost use Rattle.geometry.specs.Cells.{cell_at, sign};
ghost use Rattle.geometry.specs.Geometry.{edge};
ghost use Rattle.geometry.specs.Points.{point_of};
ghost use Rattle.geometry.specs.Read.{along, end_of, first_of, flat_edge, half, second_of};

use super::{Axis, Flat, View};
use crate::arith::{det, diff};
use crate::bounded::{Bounded, Coordinate};
use crate::mesh::{Cell, Point};

impl Axis {
    /// The coordinate on the axis.
    pub(crate) fn along(self, p: Point) -> i32
        ensures { result ≡ along self p }
    {
        match self {
            Axis::X => p.x,
            Axis::Y => p.y,
            Axis::Z => p.z,
        }
    }

    /// The two coordinates across the axis.
    pub(crate) fn seen(self, p: Bounded) -> Flat
        ensures a { result.a.value ≡ first_of self (point_of p) }
        ensures b { result.b.value ≡ second_of self (point_of p) }
    {
        match self {
            Axis::X => Flat { a: p.y, b: p.z },
            Axis::Y => Flat { a: p.z, b: p.x },
            Axis::Z => Flat { a: p.x, b: p.y },
        }
    }

    /// Which side of the line from `u` to `v`, seen along the axis, the point `q` is on, and how far, times the length from `u` to `v`.
    pub(crate) fn edge(self, u: Bounded, v: Bounded, q: Bounded) -> i32
        ensures { result ≡ edge (first_of self) (second_of self) (point_of u) (point_of v) (point_of q) }
    {
        edge(self.seen(u), self.seen(v), self.seen(q))
    }

    /// A corner of the cell, seen along the axis, at the high ends that the flags name.
    pub(crate) fn corner(self, c: Cell, a_up: bool, b_up: bool) -> Flat
        ensures a { result.a.value ≡ end_of half a_up (first_of self (cell_at c.x c.y c.z)) }
        ensures b { result.b.value ≡ end_of half b_up (second_of self (cell_at c.x c.y c.z)) }
    {
        // As in `seen`: one generic reading of both would need a definition and lemmas by cases of its own, and is no plainer.
        match self {
            Axis::X => Flat {
                a: Coordinate::end(c.y, a_up),
                b: Coordinate::end(c.z, b_up),
            },
            Axis::Y => Flat {
                a: Coordinate::end(c.z, a_up),
                b: Coordinate::end(c.x, b_up),
            },
            Axis::Z => Flat {
                a: Coordinate::end(c.x, a_up),
                b: Coordinate::end(c.y, b_up),
            },
        }
    }
}

/// The same of points that are seen along an axis.
#[tactic(auto, using(crate::proofs::Casts::casts), unfolding(crate::specs::Read::flat_edge))]
pub(crate) fn edge(u: Flat, v: Flat, q: Flat) -> i32
    ensures { result ≡ flat_edge u.a.value u.b.value v.a.value v.b.value q.a.value q.b.value }
{
    let area = det(
        diff(v.a, u.a),
        diff(v.b, u.b),
        diff(q.a, u.a),
        diff(q.b, u.b),
    );
    area.value
}

impl View {
    /// Whether a line has this value at its inner side, or 0.
    pub(crate) fn is_inner(self, value: i32) -> bool
        ensures { result ≡ int_le (pos 0) (sign self.way *ℤ value) }
    {
        if self.way >= 0 {
            value >= 0
        } else {
            value <= 0
        }
    }

    /// Whether it goes up from `from` to `to`, or neither up nor down, where `way` tells which way is up.
    pub(crate) fn rises(self, from: Coordinate, to: Coordinate) -> bool
        ensures { result ≡ int_le (pos 0) (sign self.way *ℤ (to.value -ℤ from.value)) }
    {
        if self.way >= 0 {
            from.value <= to.value
        } else {
            to.value <= from.value
        }
    }
}
