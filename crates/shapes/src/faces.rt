//! Points with faces that name them.

ghost use Rattle.std.specs.Prelude.{◌≡◌};
ghost use Rattle.shapes.specs.Named.{named_entries, point_named, triangle_named};

use crate::Shape;
use geometry::{Face, Point, Triangle};

/// A list of points, and faces that name three of them each, counted from 1. A face that names a missing point is a hole.
#[derive(Clone, Copy, Debug, PartialEq, Eq)]
pub struct FaceList<'a> {
    pub points: &'a [Point],
    pub faces: &'a [Face],
}

/// The point of a number, counted from 1.
fn point_named(points: &[Point], number: i32) -> Option<Point>
    ensures { result ≡ point_named points.now number }
{
    let place = usize::try_from(number).ok()?.checked_sub(1)?;
    points.get(place).copied()
}

/// The triangle that a face names, or none where it names a missing point.
pub fn triangle_named(points: &[Point], face: Face) -> Option<Triangle>
    ensures { result ≡ triangle_named points.now face }
{
    let v0 = point_named(points, face.a)?;
    let v1 = point_named(points, face.b)?;
    let v2 = point_named(points, face.c)?;
    Some(Triangle { v0, v1, v2 })
}

impl<'a> Shape for FaceList<'a> {
    ghost entries = { λ s. named_entries s.points.now s.faces.now };

    fn count(&self) -> usize {
        self.faces.len()
    }

    fn entry(&self, i: usize) -> Option<Triangle> {
        triangle_named(self.points, *self.faces.get(i)?)
    }
}
