//! Triangles with whole-number corners against the cells of a box: exact, in integers, with nothing rounded.
//! Nothing here knows how a drawing is stored.
#![tactic(auto, using(crate::proofs::Casts::casts))]

mod arith;
mod axis;
pub mod bounded;
pub mod facet;
pub mod mesh;

pub use bounded::Bounded;
pub use facet::Facet;
pub use facet::extent::{Extent, Span};
pub use mesh::{Cell, Face, Point, Row, Side, Triangle};
