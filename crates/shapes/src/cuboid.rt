//! A cuboid of twelve triangles, worked out from two corners.

ghost use Rattle.std.specs.Prelude.{◌≡◌, if◌then◌else◌};
ghost use Rattle.shapes.specs.Boxes.{cuboid_entries};

use crate::Shape;
use geometry::{Point, Triangle};

/// The cuboid between two corners, which may be any two points.
#[derive(Clone, Copy, Debug, PartialEq, Eq)]
pub struct Cuboid {
    pub first: Point,
    pub second: Point,
}

/// One of the two triangles of the wall from the free coordinates `p` to `q`, where `point` has the point of two of them, that of the
/// earlier axis first: the triangle goes over the corner that is at `q` on the earlier axis only, or on the later only.
fn half_wall<F: Fn(i32, i32) -> Point>(
    point: F,
    p: (i32, i32),
    q: (i32, i32),
    later: bool,
) -> Triangle
    requires { F.IsAlwaysCallable point }
    ensures v0 { F.post point p.0 p.1 result.v0 }
    ensures v1 { F.post point (if later then p.0 else q.0) (if later then q.1 else p.1) result.v1 }
    ensures v2 { F.post point q.0 q.1 result.v2 }
{
    Triangle {
        v0: point(p.0, p.1),
        v1: if later {
            point(p.0, q.1)
        } else {
            point(q.0, p.1)
        },
        v2: point(q.0, q.1),
    }
}

impl Shape for Cuboid {
    ghost entries = { λ s. cuboid_entries s.first s.second };

    fn count(&self) -> usize {
        12
    }

    fn entry(&self, i: usize) -> Option<Triangle> {
        let p = self.first;
        let q = self.second;
        let at = if i / 2 % 2 == 0 { p } else { q };
        let later = i % 2 == 1;
        match i / 4 {
            0 => Some(half_wall(
                |y, z| Point { x: at.x, y, z },
                (p.y, p.z),
                (q.y, q.z),
                later,
            )),
            1 => Some(half_wall(
                |x, z| Point { x, y: at.y, z },
                (p.x, p.z),
                (q.x, q.z),
                later,
            )),
            2 => Some(half_wall(
                |x, y| Point { x, y, z: at.z },
                (p.x, p.y),
                (q.x, q.y),
                later,
            )),
            _ => None,
        }
    }
}
