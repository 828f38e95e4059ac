//! Shapes: lists of triangles, given in some way. What a shape means is said once, here; the kinds of shape show that they mean it.
#![tactic(auto)]

ghost use Rattle.std.specs.Prelude.{◌≡◌, List, length, Option};
ghost use Rattle.geometry.specs.declared.mesh.Triangle.{Triangle as ATriangle};
ghost use Rattle.shapes.specs.Entries.{entry_at};

use geometry::Triangle;

pub mod cuboid;
pub mod faces;
pub mod nines;

pub use cuboid::Cuboid;
pub use faces::{FaceList, triangle_named};
pub use nines::Nines;

/// A list of entries, each a triangle or a hole, where there is none.
pub trait Shape {
    /// The list that the shape means.
    ghost entries: { Self → List (Option ATriangle) };

    /// How many entries there are.
    fn count(&self) -> usize
        ensures { result ≡ length (entries self.now) };

    /// The entry of the number `i`, counted from 0; past the end a hole.
    fn entry(&self, i: usize) -> Option<Triangle>
        ensures { result ≡ entry_at (entries self.now) i };
}
