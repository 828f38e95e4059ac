//! Triangles in range.

ghost use Rattle.std.specs.Prelude.{◌≡◌};
ghost use Rattle.geometry.specs.Geometry.{normal_of};
ghost use Rattle.geometry.specs.Points.{point_of, normal_point};

use crate::arith::Normal;
use crate::bounded::Bounded;

mod crossing;
pub mod extent;
mod make;
mod skins;

/// A triangle whose coordinates are all in range, with its normal, which is worked out once.
#[derive(Clone, Copy, Debug, PartialEq, Eq)]
pub struct Facet {
    v0: Bounded,
    v1: Bounded,
    v2: Bounded,
    normal: Normal,
    ghost is_normal: { normal_point normal ≡ normal_of (record { v0 = point_of v0; v1 = point_of v1; v2 = point_of v2 }) },
}
