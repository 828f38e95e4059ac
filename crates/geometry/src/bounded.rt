//! Coordinates and points in range.

ghost use Rattle.std.specs.Prelude.{pos, negsuc, ◌≤ℤ◌};

pub(crate) mod make;

/// The least coordinate in range.
pub const LEAST: i32 = -8192;

/// The greatest coordinate in range.
pub const GREATEST: i32 = 8191;

/// A coordinate in range, from −8,192 to 8,191.
#[derive(Clone, Copy, Debug, PartialEq, Eq)]
pub(crate) struct Coordinate {
    pub(crate) value: i32,
    ghost in_range: { (negsuc 8191 ≤ℤ value) × (value ≤ℤ pos 8191) },
}

/// A point whose coordinates are all in range.
#[derive(Clone, Copy, Debug, PartialEq, Eq)]
pub struct Bounded {
    pub(crate) x: Coordinate,
    pub(crate) y: Coordinate,
    pub(crate) z: Coordinate,
}
