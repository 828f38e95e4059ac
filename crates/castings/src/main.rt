//! castings: prints which cells of a box of side 2 some small castings make solid, thin and thick. A cell is told by its number,
//! x + 2 y + 4 z.
#![tactic(auto)]

use anyhow::bail;
use cells::{Marks, solid_cells};
use geometry::{Face, Facet, Point};
use shapes::{Cuboid, FaceList, Nines, Shape};

mod cells;

/// The triangles of a shape.
fn facets_of<S: Shape>(rt: &HostRuntime, shape: &S) -> anyhow::Result<Vec<Facet>> {
    let mut facets = Vec::new(rt.alloc());
    // by number, as a shape answers its entries
    for i in 0..shape.count() {
        let Some(facet) = shape.entry(i).and_then(Facet::new) else {
            bail!("an entry is a hole, or a coordinate is out of range");
        };
        facets.push(facet)?;
    }
    Ok(facets)
}

/// Prints the line of a casting.
fn show<S: Shape>(rt: &HostRuntime, name: &str, casting: &S) -> anyhow::Result<()> {
    let facets = facets_of(rt, casting)?;
    let solid = solid_cells(facets.as_slice());
    let thin = Marks::of(|cell| facets.iter().any(|facet| facet.makes_thin(cell)));
    let thick = Marks::of(|cell| facets.iter().any(|facet| facet.makes_thick(cell)));
    println!(rt; "{name}: solid{solid}; thin{thin}; thick{thick}")?;
    Ok(())
}

// As in the tests of toggle lists: one helper for both would be a public function of a library, with a contract for a line.
fn point(x: i32, y: i32, z: i32) -> Point {
    Point { x, y, z }
}

/// Prints the line of the box between two corners.
fn show_cuboid(rt: &HostRuntime, name: &str, first: Point, second: Point) -> anyhow::Result<()> {
    show(rt, name, &Cuboid { first, second })
}

/// Prints the line of the tetrahedron with a corner at the origin and the others so far along the axes.
fn show_tetrahedron(rt: &HostRuntime, name: &str, leg: i32) -> anyhow::Result<()> {
    let points = [
        point(0, 0, 0),
        point(leg, 0, 0),
        point(0, leg, 0),
        point(0, 0, leg),
    ];
    let faces = [
        Face { a: 1, b: 2, c: 3 },
        Face { a: 1, b: 2, c: 4 },
        Face { a: 1, b: 3, c: 4 },
        Face { a: 2, b: 3, c: 4 },
    ];
    show(
        rt,
        name,
        &FaceList {
            points: &points,
            faces: &faces,
        },
    )
}

/// Castings whose walls stand about the centre of the first cell, which is at 8 on each axis.
fn show_about_the_centre(rt: &HostRuntime) -> anyhow::Result<()> {
    show_cuboid(rt, "cube 0 to 16", point(0, 0, 0), point(16, 16, 16))?;
    show_cuboid(rt, "cube 8 to 24", point(8, 8, 8), point(24, 24, 24))?;
    show_tetrahedron(rt, "tetrahedron of 40", 40)?;
    show_tetrahedron(rt, "tetrahedron of 41", 41)?;
    // one triangle, level with the centres of the lower cells, twice
    let numbers = [0, 0, 8, 32, 0, 8, 0, 32, 8, 0, 0, 8, 32, 0, 8, 0, 32, 8];
    show(rt, "triangle twice", &Nines { numbers: &numbers })
}

/// Boxes that begin before the first cell and reach a given x.
fn show_by_reach(rt: &HostRuntime) -> anyhow::Result<()> {
    let low = point(-32, 0, 0);
    show_cuboid(rt, "box to x 8", low, point(8, 16, 16))?;
    show_cuboid(rt, "box to x 9", low, point(9, 16, 16))?;
    show_cuboid(rt, "box to x 8191", low, point(8191, 16, 16))
}

/// Boxes with a wall that the rows of the first cells lie in. A side of a triangle counts for a row where one of its ends is above the
/// row and the other is not, and where its y is greater than the row's: so such a wall is inside a box that goes up from it, in y or in
/// z, and not inside one that ends there.
fn show_walls_along_a_row(rt: &HostRuntime) -> anyhow::Result<()> {
    show_cuboid(rt, "box y 8 to 9", point(0, 8, 0), point(32, 9, 32))?;
    show_cuboid(rt, "box y 7 to 8", point(0, 7, 0), point(32, 8, 32))?;
    show_cuboid(rt, "box y 8 to 8", point(0, 8, 0), point(32, 8, 32))?;
    show_cuboid(rt, "box z 8 to 9", point(0, 0, 8), point(32, 32, 9))?;
    show_cuboid(rt, "box z 7 to 8", point(0, 0, 7), point(32, 32, 8))
}

fn run(rt: &HostRuntime) -> anyhow::Result<()> {
    show_about_the_centre(rt)?;
    show_by_reach(rt)?;
    show_walls_along_a_row(rt)
}

fn main(rt: HostRuntime) -> anyhow::Result<()> {
    run(&rt)
}
