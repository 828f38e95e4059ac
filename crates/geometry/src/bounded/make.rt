ghost use Rattle.std.specs.Prelude.{◌≡◌, pos, if◌then◌else◌, Some, None};
ghost use Rattle.std.specs.Option.{option_map};
ghost use Rattle.geometry.specs.Cells.{cell_at, centre, middle};
ghost use Rattle.geometry.specs.Range.{in_range, point_in_range};
ghost use Rattle.geometry.specs.Points.{coordinate_of, point_of};
ghost use Rattle.geometry.specs.Read.{corner_of, end_of, half};

use super::{Bounded, Coordinate, GREATEST, LEAST};
use crate::mesh::{Cell, Point};

/// Half the width of a cell. All that depends on the width depends on it by this constant.
pub const HALF_WIDTH: i32 = 8;

/// The width of a cell.
pub const WIDTH: i64 = 2 * HALF_WIDTH as i64;

impl Coordinate {
    /// The coordinate, if it is in range.
    fn new(value: i32) -> Option<Coordinate>
        ensures { option_map coordinate_of result ≡ (if in_range value then Some value else None) }
    {
        if (LEAST..=GREATEST).contains(&value) {
            Some(Coordinate { value })
        } else {
            None
        }
    }

    /// The middle of cell `k` on an axis.
    pub(crate) fn middle(k: u8) -> Coordinate
        ensures { result.value ≡ middle half (pos k) }
    {
        Coordinate {
            value: 2 * HALF_WIDTH * i32::from(k) + HALF_WIDTH,
        }
    }

    /// An end of cell `k` on an axis, the high one if `up`.
    pub(crate) fn end(k: u8, up: bool) -> Coordinate
        ensures { result.value ≡ end_of half up (pos k) }
    {
        let least = 2 * HALF_WIDTH * i32::from(k);
        Coordinate {
            value: if up { least + 2 * HALF_WIDTH } else { least },
        }
    }
}

impl Bounded {
    /// The point, if all its coordinates are in range.
    #[tactic(auto, using(crate::proofs::Casts::casts, std::proofs::lemmas::Bool::and_right))]
    pub fn new(p: Point) -> Option<Bounded>
        ensures { option_map point_of result ≡ (if point_in_range p then Some p else None) }
    {
        Some(Bounded {
            x: Coordinate::new(p.x)?,
            y: Coordinate::new(p.y)?,
            z: Coordinate::new(p.z)?,
        })
    }

    /// The point itself.
    pub fn point(&self) -> Point
        ensures { result ≡ point_of self.now }
    {
        Point {
            x: self.x.value,
            y: self.y.value,
            z: self.z.value,
        }
    }

    /// The centre of a cell.
    pub fn centre(c: Cell) -> Bounded
        ensures { point_of result ≡ centre half (cell_at c.x c.y c.z) }
    {
        Bounded {
            x: Coordinate::middle(c.x),
            y: Coordinate::middle(c.y),
            z: Coordinate::middle(c.z),
        }
    }

    /// The corner of a cell that is at the high end of the axes whose flag is set, and at the low end of the others.
    pub(crate) fn corner(c: Cell, x: bool, y: bool, z: bool) -> Bounded
        ensures { point_of result ≡ corner_of half (cell_at c.x c.y c.z) x y z }
    {
        Bounded {
            x: Coordinate::end(c.x, x),
            y: Coordinate::end(c.y, y),
            z: Coordinate::end(c.z, z),
        }
    }
}
