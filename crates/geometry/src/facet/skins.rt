ghost use Rattle.std.specs.Prelude.{◌≡◌, pos};
ghost use Rattle.geometry.specs.Geometry.{normal_of};
ghost use Rattle.geometry.specs.Cells.{beside, beside_side, cell_at, close, cut_by_plane, met, near, reaches, thick, thin, within_side};
ghost use Rattle.geometry.specs.Points.{point_of};
ghost use Rattle.geometry.specs.Read.{along, first_of, half, second_of, triangle_of};

use super::Facet;
use crate::axis::seen::edge;
use crate::axis::{Axis, View};
use crate::bounded::make::HALF_WIDTH;
use crate::bounded::{Bounded, Coordinate};
use crate::mesh::Cell;

// A side is given by its two ends, here and in `side_counts`: each test wants the points themselves, and a type for a side would be taken
// apart in each.

impl View {
    /// Whether `q` is at the inner side of the line from `u` to `v`, or on it.
    fn is_within_side(self, u: Bounded, v: Bounded, q: Bounded) -> bool
        ensures { result ≡ within_side (first_of self.axis) (second_of self.axis) self.way
            (point_of u) (point_of v) (point_of q) }
    {
        self.is_inner(self.axis.edge(u, v, q))
    }

    /// Whether some corner of the cell is at the inner side of the line from `u` to `v`, or on it. The corner that is farthest to the
    /// inner side decides.
    fn is_beside_side(self, u: Bounded, v: Bounded, c: Cell) -> bool
        ensures { result ≡ beside_side (first_of self.axis) (second_of self.axis) self.way
            (point_of u) (point_of v) half (cell_at c.x c.y c.z) }
    {
        let axis = self.axis;
        let from = axis.seen(u);
        let to = axis.seen(v);
        let farthest = axis.corner(c, self.rises(to.b, from.b), self.rises(from.a, to.a));
        self.is_inner(edge(from, to, farthest))
    }
}

impl Facet {
    /// The triangle seen along the axis.
    fn view(&self, axis: Axis) -> View
        ensures { result ≡ record { axis = axis; way = along axis (normal_of (triangle_of self.now)) } }
    {
        View {
            axis,
            way: axis.along(self.normal()),
        }
    }

    /// Whether the line through `q` along the axis meets the closed triangle, and the triangle does not lie along it.
    #[tactic(auto, using(crate::proofs::Casts::casts, crate::proofs::Crossing::not_zero_bits))]
    fn is_met(&self, axis: Axis, q: Bounded) -> bool
        ensures { let t = triangle_of self.now in
            result ≡ met (first_of axis) (second_of axis) (along axis (normal_of t)) (point_of q) t }
    {
        // The sides are written out, here and below: over an array of them, with `all`, each test needs a long proof by hand.
        let view = self.view(axis);
        view.way != 0
            && view.is_within_side(self.v0, self.v1, q)
            && view.is_within_side(self.v1, self.v2, q)
            && view.is_within_side(self.v2, self.v0, q)
    }

    /// Whether the plane meets the line through `q` along the axis at most half a width from `q`.
    fn is_close(&self, axis: Axis, q: Bounded) -> bool
        ensures { let t = triangle_of self.now in
            result ≡ close (along axis (normal_of t)) half (point_of q) t }
    {
        let way = self.view(axis).way;
        self.plane(q).unsigned_abs() <= HALF_WIDTH as u64 * u64::from(way.unsigned_abs())
    }

    /// Whether the line through `q` along the axis meets the closed triangle at most half a width from `q`.
    fn is_near(&self, axis: Axis, q: Bounded) -> bool
        ensures { let t = triangle_of self.now in
            result ≡ near (first_of axis) (second_of axis) (along axis (normal_of t)) half (point_of q) t }
    {
        self.is_met(axis, q) && self.is_close(axis, q)
    }

    /// Whether the triangle makes the cell thin: on some axis that its plane does not lie along, the line through the cell's centre meets
    /// the closed triangle at most half a width from the centre.
    #[tactic(auto, using(crate::proofs::Casts::casts), unfolding(crate::specs::Cells::thin))]
    pub fn makes_thin(&self, c: Cell) -> bool
        ensures { result ≡ thin half (cell_at c.x c.y c.z) (triangle_of self.now) }
    {
        let q = Bounded::centre(c);
        self.is_near(Axis::X, q) || self.is_near(Axis::Y, q) || self.is_near(Axis::Z, q)
    }

    /// Whether the triangle's closed span on the axis meets that of cell `k`.
    fn reaches(&self, axis: Axis, k: u8) -> bool
        ensures { result ≡ reaches (along axis) half (pos k) (triangle_of self.now) }
    {
        let (least, greatest) = self.reach(axis);
        least <= Coordinate::end(k, true).value && Coordinate::end(k, false).value <= greatest
    }

    /// Whether the cell has corners on both sides of the triangle's plane, or on it. The two corners farthest from it decide.
    fn cuts(&self, c: Cell) -> bool
        ensures { result ≡ cut_by_plane half (cell_at c.x c.y c.z) (triangle_of self.now) }
    {
        let n = self.normal();
        let least = self.plane(Bounded::corner(c, n.x <= 0, n.y <= 0, n.z <= 0));
        let greatest = self.plane(Bounded::corner(c, n.x >= 0, n.y >= 0, n.z >= 0));
        least <= 0 && greatest >= 0
    }

    /// Whether no side of the triangle, seen along the axis, has the whole cell outside.
    fn is_beside(&self, axis: Axis, c: Cell) -> bool
        ensures { let t = triangle_of self.now in
            result ≡ beside (first_of axis) (second_of axis) (along axis (normal_of t)) half (cell_at c.x c.y c.z) t }
    {
        let view = self.view(axis);
        view.is_beside_side(self.v0, self.v1, c)
            && view.is_beside_side(self.v1, self.v2, c)
            && view.is_beside_side(self.v2, self.v0, c)
    }

    /// Whether the triangle makes the cell thick: it touches the closed cell by the tests of extent, plane and sides.
    #[tactic(auto, using(crate::proofs::Casts::casts), unfolding(crate::specs::Cells::thick))]
    pub fn makes_thick(&self, c: Cell) -> bool
        ensures { result ≡ thick half (cell_at c.x c.y c.z) (triangle_of self.now) }
    {
        self.reaches(Axis::X, c.x)
            && self.reaches(Axis::Y, c.y)
            && self.reaches(Axis::Z, c.z)
            && self.cuts(c)
            && self.is_beside(Axis::Z, c)
            && self.is_beside(Axis::X, c)
            && self.is_beside(Axis::Y, c)
    }
}
