//! Whether the sides of a list of triangles close: whether no two different points are joined by an odd number of them.
#![tactic(auto)]

pub mod check;
pub mod sides;

pub use check::{Leak, check_sides};
pub use sides::toggle_sides;
