//! What is seen along an axis: the other two coordinates.

use crate::bounded::Coordinate;

pub(crate) mod seen;

/// An axis of the grid.
#[derive(Clone, Copy, Debug, PartialEq, Eq)]
pub enum Axis {
    X,
    Y,
    Z,
}

/// A point in range, seen along an axis: y and z along x, z and x along y, x and y along z.
#[derive(Clone, Copy, Debug, PartialEq, Eq)]
pub(crate) struct Flat {
    pub(crate) a: Coordinate,
    pub(crate) b: Coordinate,
}

/// A triangle seen along an axis. `way` is its normal's component along the axis; the sign tells which side of a line is the inner one.
#[derive(Clone, Copy, Debug, PartialEq, Eq)]
pub(crate) struct View {
    pub(crate) axis: Axis,
    pub(crate) way: i32,
}
