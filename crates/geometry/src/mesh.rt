//! Points, triangles and what they are counted by. These types hold any numbers.

/// A point with whole-number coordinates, whatever they are. Points are ordered by x, then y, then z.
#[derive(Clone, Copy, Debug, Default, PartialEq, Eq, PartialOrd, Ord)]
pub struct Point {
    pub x: i32,
    pub y: i32,
    pub z: i32,
}

/// Three corners, in the order in which the sides run: v0 to v1, v1 to v2, v2 to v0.
#[derive(Clone, Copy, Debug, PartialEq, Eq)]
pub struct Triangle {
    pub v0: Point,
    pub v1: Point,
    pub v2: Point,
}

/// Two points that a triangle joins. Sides are ordered by `low`, then `high`.
#[derive(Clone, Copy, Debug, Default, PartialEq, Eq, PartialOrd, Ord)]
pub struct Side {
    pub low: Point,
    pub high: Point,
}

/// A triangle by the numbers of its corners in a list of points, counted from 1.
#[derive(Clone, Copy, Debug, Default, PartialEq, Eq)]
pub struct Face {
    pub a: i32,
    pub b: i32,
    pub c: i32,
}

/// A cell of the grid: how many cells lie before it on each axis.
#[derive(Clone, Copy, Debug, PartialEq, Eq)]
pub struct Cell {
    pub x: u8,
    pub y: u8,
    pub z: u8,
}

/// The cells with this y and this z, in a line along x.
#[derive(Clone, Copy, Debug, PartialEq, Eq)]
pub struct Row {
    pub y: u8,
    pub z: u8,
}
