//! Boxes, and walls that lie along a row.

use crate::expect::{closed_gives, gives};
use std::alloc::{AllocError, Global};
use std::process::Abort;
use std::test::Fail;

/// The lines of a part: the box between two corners, in eight points and twelve triangles. The number of a point is 1 at the low corner,
/// and 1 more at the high x, 2 more at the high y and 4 more at the high z.
fn cuboid(heap: Global, low: [i32; 3], high: [i32; 3]) -> Result<String, AllocError> {
    let mut part = String::from_str(heap, "part\n")?;
    for z in [low[2], high[2]] {
        for y in [low[1], high[1]] {
            for x in [low[0], high[0]] {
                writeln!(part, "v {x} {y} {z}")?;
            }
        }
    }
    part.push_str("f 1 3 7\nf 1 5 7\nf 2 4 8\nf 2 6 8\n")?;
    part.push_str("f 1 2 6\nf 1 5 6\nf 3 4 8\nf 3 7 8\n")?;
    part.push_str("f 1 2 4\nf 1 3 4\nf 5 6 8\nf 5 7 8\n")?;
    Ok(part)
}

/// Checks what is reported of a box of this side with one closed cuboid: the lines that come after that of the part.
fn cuboid_gives(
    rt: &(impl AllocGlobal + Abort),
    side: u8,
    low: [i32; 3],
    high: [i32; 3],
    expected: &str,
) -> Result<(), Fail> {
    let part = cuboid(rt.alloc(), low, high)?;
    closed_gives(rt, side, part.as_str(), "8 points, 12 faces", expected)
}

#[test]
fn a_wall_through_a_centre_belongs_to_the_cube_behind_it(rt: HostRuntime) -> Result<(), Fail> {
    cuboid_gives(&rt, 2, [8, 8, 8], [24, 24, 24], "0 1\nsolid 1\n")?;
    cuboid_gives(&rt, 2, [-8, -8, -8], [8, 8, 8], "solid 0\n")
}

#[test]
fn a_box_ends_behind_a_centre_or_at_it(rt: HostRuntime) -> Result<(), Fail> {
    cuboid_gives(&rt, 2, [-32, 0, 0], [9, 16, 16], "0 1\nsolid 1\n")?;
    cuboid_gives(&rt, 2, [-32, 0, 0], [8, 16, 16], "solid 0\n")?;
    cuboid_gives(&rt, 2, [-32, 0, 0], [8191, 16, 16], "0 2\nsolid 2\n")
}

#[test]
fn a_run_goes_on_over_rows_and_layers(rt: HostRuntime) -> Result<(), Fail> {
    cuboid_gives(
        &rt,
        4,
        [16, 0, 0],
        [48, 32, 32],
        "1 2\n5 2\n17 2\n21 2\nsolid 8\n",
    )?;
    cuboid_gives(&rt, 4, [0, 0, 0], [64, 32, 16], "0 8\nsolid 8\n")?;
    cuboid_gives(&rt, 4, [0, 0, 16], [64, 64, 48], "16 32\nsolid 32\n")
}

#[test]
fn a_cube_fills_the_box(rt: HostRuntime) -> Result<(), Fail> {
    cuboid_gives(
        &rt,
        2,
        [-8192, -8192, -8192],
        [8191, 8191, 8191],
        "0 8\nsolid 8\n",
    )?;
    cuboid_gives(
        &rt,
        32,
        [0, 0, 0],
        [512, 512, 512],
        "0 32768\nsolid 32768\n",
    )
}

#[test]
fn a_smaller_part_hollows_a_larger_one(rt: HostRuntime) -> Result<(), Fail> {
    let large = cuboid(rt.alloc(), [0, 0, 0], [32, 32, 32])?;
    let small = cuboid(rt.alloc(), [0, 0, 0], [16, 16, 16])?;
    let text = format!(in rt.alloc(); "side 2\n{large}{small}")?;
    gives(
        &rt,
        text.as_bytes(),
        "side 2\npart 1: 8 points, 12 faces, closed\npart 2: 8 points, 12 faces, closed\n1 7\nsolid 7\n",
    )
}

#[test]
fn a_triangle_along_the_row_makes_nothing_solid(rt: HostRuntime) -> Result<(), Fail> {
    gives(
        &rt,
        b"side 2\npart\nv 0 8 0\nv 32 8 0\nv 0 8 32\nf 1 2 3\nf 1 2 3\n",
        "side 2\npart 1: 3 points, 2 faces, closed\nsolid 0\n",
    )?;
    gives(
        &rt,
        b"side 2\npart\nv 0 8 8\nv 16 8 8\nv 32 8 8\nf 1 2 3\nf 3 2 1\n",
        "side 2\npart 1: 3 points, 2 faces, closed\nsolid 0\n",
    )?;
    gives(
        &rt,
        b"side 2\npart\nv 0 8 8\nv 32 8 8\nf 1 1 2\n",
        "side 2\npart 1: 2 points, 1 faces, closed\nsolid 0\n",
    )
}
