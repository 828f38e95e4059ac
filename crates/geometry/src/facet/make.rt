ghost use Rattle.std.specs.Prelude.{◌≡◌, ◌^◌, ◌≤◌, ◌-ℤ◌, if◌then◌else◌, Some, None, unsigned_abs};
ghost use Rattle.std.specs.Option.{option_map};
ghost use Rattle.geometry.specs.Geometry.{normal_of, plane};
ghost use Rattle.geometry.specs.Points.{normal_point, point_of};
ghost use Rattle.geometry.specs.Range.{triangle_in_range};
ghost use Rattle.geometry.specs.Read.{triangle_of};

use super::Facet;
use crate::arith::{Gaps, Normal, det, diff, dot};
use crate::bounded::Bounded;
use crate::mesh::{Point, Triangle};

/// b − a
fn gaps(a: Bounded, b: Bounded) -> Gaps
    ensures x { result.x.value ≡ b.x.value -ℤ a.x.value }
    ensures y { result.y.value ≡ b.y.value -ℤ a.y.value }
    ensures z { result.z.value ≡ b.z.value -ℤ a.z.value }
{
    Gaps {
        x: diff(b.x, a.x),
        y: diff(b.y, a.y),
        z: diff(b.z, a.z),
    }
}

/// The cross product of the first two sides.
#[tactic(auto, using(crate::proofs::Casts::casts, crate::proofs::Bounds::product_is), unfolding(crate::specs::Geometry::normal_of))]
fn cross(v0: Bounded, v1: Bounded, v2: Bounded) -> Normal
    ensures { normal_point result ≡ normal_of (record { v0 = point_of v0; v1 = point_of v1; v2 = point_of v2 }) }
{
    let a = gaps(v0, v1);
    let b = gaps(v1, v2);
    Normal {
        x: det(a.y, a.z, b.y, b.z),
        y: det(a.z, a.x, b.z, b.x),
        z: det(a.x, a.y, b.x, b.y),
    }
}

impl Facet {
    /// The triangle, if all its coordinates are in range.
    #[tactic(auto, using(crate::proofs::Casts::casts, std::proofs::lemmas::Bool::and_right))]
    pub fn new(t: Triangle) -> Option<Facet>
        ensures { option_map triangle_of result ≡ (if triangle_in_range t then Some t else None) }
    {
        let v0 = Bounded::new(t.v0)?;
        let v1 = Bounded::new(t.v1)?;
        let v2 = Bounded::new(t.v2)?;
        Some(Facet {
            v0,
            v1,
            v2,
            normal: cross(v0, v1, v2),
        })
    }

    /// The triangle itself.
    pub fn triangle(&self) -> Triangle
        ensures { result ≡ triangle_of self.now }
    {
        Triangle {
            v0: self.v0.point(),
            v1: self.v1.point(),
            v2: self.v2.point(),
        }
    }

    /// The normal of the triangle.
    pub fn normal(&self) -> Point
        ensures { result ≡ normal_of (triangle_of self.now) }
    {
        Point {
            x: self.normal.x.value,
            y: self.normal.y.value,
            z: self.normal.z.value,
        }
    }

    /// The value of the triangle's plane at `p`: the product of the normal and p − v0.
    #[tactic(auto, using(crate::proofs::Casts::casts, crate::proofs::Bounds::product_is), unfolding(crate::specs::Geometry::plane))]
    pub(crate) fn plane(&self, p: Bounded) -> i64
        ensures value { result ≡ plane (point_of p) (triangle_of self.now) }
        ensures small { unsigned_abs result ≤ 2 ^ 45 }
    {
        dot(self.normal, gaps(self.v0, p))
    }
}
