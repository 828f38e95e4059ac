//! Whether the entries of a shape make a closed mesh.

ghost use Rattle.std.specs.Prelude.{◌≡◌, List, map, length, IfOk, OnErr, vec_items};
ghost use Rattle.geometry.specs.Read.{triangle_of};
ghost use Rattle.report.specs.Parts.{Collected, Closes, IsOutOfMemory, Means};
ghost use Rattle.report.specs.declared.part.NotKept.TheVariants.{Flawed, OutOfMemory};

use closing::check_sides;
use geometry::{Facet, Side, Triangle};
use shapes::Shape;
use std::alloc::{AllocError, AllocFailed, Global};
use std::error::Error;
use std::fmt;

/// What is wrong with a part.
#[derive(Clone, Copy, Debug, PartialEq, Eq)]
pub enum Flaw {
    /// Two different points are joined by an odd number of its sides.
    Open,
    /// The face of this number, counted from 1, names a missing point.
    Hole(usize),
    /// The face of this number has a coordinate out of range.
    Wild(usize),
}

impl fmt::Display for Flaw {
    fn fmt<W: fmt::Write>(&self, f: &mut fmt::Formatter<W>) -> fmt::Result {
        match self {
            Flaw::Open => write!(f, "open"),
            Flaw::Hole(face) => write!(f, "missing point in face {face}"),
            Flaw::Wild(face) => write!(f, "wild point in face {face}"),
        }
    }
}

impl Error for Flaw {}

/// Why no triangles were kept.
#[derive(Clone, Copy, Debug, PartialEq, Eq)]
pub enum NotKept {
    /// The part has a flaw.
    Flawed(Flaw),
    /// There was no memory to tell.
    OutOfMemory(AllocError),
}

impl fmt::Display for NotKept {
    fn fmt<W: fmt::Write>(&self, f: &mut fmt::Formatter<W>) -> fmt::Result {
        match self {
            NotKept::Flawed(flaw) => write!(f, "{flaw}"),
            NotKept::OutOfMemory(why) => write!(f, "{why}"),
        }
    }
}

impl Error for NotKept {}

impl From<Flaw> for NotKept {
    ghost from_gives = { λ flaw e. e ≡ Flawed flaw };

    fn from(flaw: Flaw) -> NotKept {
        NotKept::Flawed(flaw)
    }
}

impl From<AllocError> for NotKept {
    ghost from_gives = { λ why e. e ≡ OutOfMemory why };

    fn from(why: AllocError) -> NotKept {
        NotKept::OutOfMemory(why)
    }
}

impl<T: Drop> From<AllocFailed<T>> for NotKept {
    ghost from_gives = { λ _ e. IsOutOfMemory e };

    fn from(why: AllocFailed<T>) -> NotKept {
        NotKept::OutOfMemory(AllocError::from(why))
    }
}

/// The triangles of the entries, all in range; or the first entry that is none, or is out of range.
fn collect<S: Shape>(heap: Global, shape: &S) -> Result<Vec<Facet>, NotKept>
    ensures { Collected vec_items (S.entries shape.now) result }
{
    let mut facets = Vec::new(heap);
    // by number, since a shape answers an entry by its number, which a flaw names
    for i in 0..shape.count() {
        let triangle = shape.entry(i).ok_or(Flaw::Hole(i + 1))?;
        let facet = Facet::new(triangle).ok_or(Flaw::Wild(i + 1))?;
        facets.push(facet)?;
    }
    Ok(facets)
}

/// The triangles of a list of facets.
fn triangles_of(heap: Global, facets: &[Facet]) -> Result<Vec<Triangle>, AllocError>
    ensures { IfOk result (λ v. v.items ≡ map triangle_of facets.now) }
{
    facets.iter().map(|facet| facet.triangle()).collect(heap)
}

/// Checks that the sides of the triangles close.
fn check_closed(heap: Global, facets: &[Facet]) -> Result<(), NotKept>
    ensures { Closes (map triangle_of facets.now) result }
{
    let triangles = triangles_of(heap, facets)?;
    let mut shelf = vec![in heap; Side::default(); 3 * triangles.len()]?;
    check_sides(triangles.as_slice(), shelf.as_mut_slice()).map_err(|_| NotKept::Flawed(Flaw::Open))
}

/// Adds the triangles of a part to `kept` where its sides close; else says what is wrong with it. Where it fails, `kept` stays.
pub fn judge<S: Shape>(heap: Global, shape: &S, kept: &mut Vec<Facet>) -> Result<(), NotKept>
    ensures { Means (S.entries shape.now) kept.old.items kept.new.items result }
{
    let facets = collect(heap, shape)?;
    check_closed(heap, facets.as_slice())?;
    kept.extend_from_slice(facets.as_slice())?;
    Ok(())
}
