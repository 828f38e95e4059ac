//! Nine numbers a triangle.

ghost use Rattle.std.specs.Prelude.{◌≡◌};
ghost use Rattle.shapes.specs.ByNine.{by_nine, nine};

use crate::Shape;
use geometry::{Point, Triangle};

/// Each nine numbers are a triangle: x, y and z of its three corners. Numbers left over are one last hole.
#[derive(Clone, Copy, Debug, PartialEq, Eq)]
pub struct Nines<'a> {
    pub numbers: &'a [i32],
}

/// The triangle of nine numbers.
fn triangle(numbers: &[i32; 9]) -> Triangle
    ensures { result ≡ nine numbers.now }
{
    let &[ax, ay, az, bx, by, bz, cx, cy, cz] = numbers;
    Triangle {
        v0: Point {
            x: ax,
            y: ay,
            z: az,
        },
        v1: Point {
            x: bx,
            y: by,
            z: bz,
        },
        v2: Point {
            x: cx,
            y: cy,
            z: cz,
        },
    }
}

impl<'a> Shape for Nines<'a> {
    ghost entries = { λ s. by_nine s.numbers.now };

    #[tactic(auto, using(crate::proofs::EntryLaws::length_by_nine))]
    fn count(&self) -> usize {
        self.numbers.len().div_ceil(9)
    }

    fn entry(&self, i: usize) -> Option<Triangle> {
        let (nines, _) = self.numbers.as_chunks::<9>();
        Some(triangle(nines.get(i)?))
    }
}
