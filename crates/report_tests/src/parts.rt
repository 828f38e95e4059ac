//! The lines of a part, what is found of its faces, and the faults that cut it off.

use crate::expect::gives;
use std::test::Fail;

#[test]
fn a_part_may_be_empty(rt: HostRuntime) -> Result<(), Fail> {
    gives(
        &rt,
        b"side 2\npart",
        "side 2\npart 1: 0 points, 0 faces, closed\nsolid 0\n",
    )?;
    gives(
        &rt,
        b"side 2\npart\npart\n",
        "side 2\npart 1: 0 points, 0 faces, closed\npart 2: 0 points, 0 faces, closed\nsolid 0\n",
    )
}

#[test]
fn the_last_line_needs_no_line_feed(rt: HostRuntime) -> Result<(), Fail> {
    gives(
        &rt,
        b"side 2\npart\nv 1 2 3",
        "side 2\npart 1: 1 points, 0 faces, closed\nsolid 0\n",
    )?;
    gives(
        &rt,
        b"side 2\npart\nv 1 2 3\nf 1 1 1",
        "side 2\npart 1: 1 points, 1 faces, closed\nsolid 0\n",
    )?;
    gives(
        &rt,
        b"side 2\npart\nv 1 2",
        "side 2\nsolid 0\ntext refused 13 line 3\n",
    )
}

#[test]
fn a_part_line_with_words_ends_the_part_before_it(rt: HostRuntime) -> Result<(), Fail> {
    gives(
        &rt,
        b"side 2\npart\nv 1 2 3\npart x\n",
        "side 2\npart 1: 1 points, 0 faces, closed\nsolid 0\ntext refused 13 line 4\n",
    )?;
    gives(
        &rt,
        b"side 2\npart x\n",
        "side 2\nsolid 0\ntext refused 13 line 2\n",
    )
}

#[test]
fn points_come_before_faces(rt: HostRuntime) -> Result<(), Fail> {
    gives(
        &rt,
        b"side 2\nv 1 2 3\n",
        "side 2\nsolid 0\ntext refused 13 line 2\n",
    )?;
    gives(
        &rt,
        b"side 2\nf 1 1 1\n",
        "side 2\nsolid 0\ntext refused 13 line 2\n",
    )?;
    gives(
        &rt,
        b"side 2\npart\nf 1 1 1\nv 1 2 3\n",
        "side 2\nsolid 0\ntext refused 13 line 4\n",
    )?;
    gives(
        &rt,
        b"side 2\npart\nf 1 1 1\nv 1 2 x\n",
        "side 2\nsolid 0\ntext refused 13 line 4\n",
    )
}

#[test]
fn points_and_faces_have_three_words(rt: HostRuntime) -> Result<(), Fail> {
    gives(
        &rt,
        b"side 2\npart\nv 1 2\n",
        "side 2\nsolid 0\ntext refused 13 line 3\n",
    )?;
    gives(
        &rt,
        b"side 2\npart\nv 1 2 3 4\n",
        "side 2\nsolid 0\ntext refused 13 line 3\n",
    )?;
    gives(
        &rt,
        b"side 2\npart\nf 1 2 x 4\n",
        "side 2\nsolid 0\ntext refused 13 line 3\n",
    )?;
    gives(
        &rt,
        b"side 2\npart\nv\n",
        "side 2\nsolid 0\ntext refused 13 line 3\n",
    )?;
    gives(
        &rt,
        b"side 2\npart\nw 1 2 3\n",
        "side 2\nsolid 0\ntext refused 13 line 3\n",
    )
}

#[test]
fn the_three_words_are_numbers(rt: HostRuntime) -> Result<(), Fail> {
    gives(
        &rt,
        b"side 2\npart\nv 1 2 x\n",
        "side 2\nsolid 0\ntext refused 14 line 3\n",
    )?;
    gives(
        &rt,
        b"side 2\npart\nv - 2 3\n",
        "side 2\nsolid 0\ntext refused 14 line 3\n",
    )?;
    gives(
        &rt,
        b"side 2\npart\nf 1 100000 3\n",
        "side 2\nsolid 0\ntext refused 14 line 3\n",
    )?;
    gives(
        &rt,
        b"side 2\npart\nv -99999 -0 00001\n",
        "side 2\npart 1: 1 points, 0 faces, closed\nsolid 0\n",
    )
}

#[test]
fn a_face_may_name_no_point(rt: HostRuntime) -> Result<(), Fail> {
    gives(
        &rt,
        b"side 2\npart\nf 0 1 2\n",
        "side 2\npart 1: 0 points, 1 faces, missing point in face 1\nsolid 0\n",
    )?;
    gives(
        &rt,
        b"side 2\npart\nf -1 2 3\n",
        "side 2\npart 1: 0 points, 1 faces, missing point in face 1\nsolid 0\n",
    )?;
    gives(
        &rt,
        b"side 2\npart\nv 1 2 3\nf 1 1 1\nf 1 1 2\nf 1 1 0\n",
        "side 2\npart 1: 1 points, 3 faces, missing point in face 2\nsolid 0\n",
    )
}

#[test]
fn a_point_out_of_range_is_wild_where_a_face_names_it(rt: HostRuntime) -> Result<(), Fail> {
    gives(
        &rt,
        b"side 2\npart\nv 8191 -8192 0\nv 0 8192 0\nf 1 1 1\nf 1 1 2\n",
        "side 2\npart 1: 2 points, 2 faces, wild point in face 2\nsolid 0\n",
    )?;
    gives(
        &rt,
        b"side 2\npart\nv 0 0 -8193\nf 1 2 1\n",
        "side 2\npart 1: 1 points, 1 faces, missing point in face 1\nsolid 0\n",
    )?;
    gives(
        &rt,
        b"side 2\npart\nv 0 0 0\nv 0 0 -8193\nf 1 1 1\n",
        "side 2\npart 1: 2 points, 1 faces, closed\nsolid 0\n",
    )
}

#[test]
fn a_triangle_alone_is_open(rt: HostRuntime) -> Result<(), Fail> {
    gives(
        &rt,
        b"side 2\npart\nv 0 0 0\nv 41 0 0\nv 0 41 0\nf 1 2 3\n",
        "side 2\npart 1: 3 points, 1 faces, open\nsolid 0\n",
    )
}
