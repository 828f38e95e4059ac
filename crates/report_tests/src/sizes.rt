//! The most points and faces of a part, and the most bytes of a text.

use crate::expect::gives;
use std::alloc::{AllocError, Global};
use std::test::Fail;

/// A text with a side line, a part line and then so many lines like this one.
fn part_of(heap: Global, count: usize, line: &str) -> Result<String, AllocError> {
    let mut text = String::from_str(heap, "side 2\npart\n")?;
    for _ in 0..count {
        text.push_str(line)?;
    }
    Ok(text)
}

#[test]
fn a_part_has_at_most_256_points(rt: HostRuntime) -> Result<(), Fail> {
    let mut text = part_of(rt.alloc(), 256, "v 1 2 3\n")?;
    gives(
        &rt,
        text.as_bytes(),
        "side 2\npart 1: 256 points, 0 faces, closed\nsolid 0\n",
    )?;
    text.push_str("v 1 2 3\n")?;
    gives(
        &rt,
        text.as_bytes(),
        "side 2\nsolid 0\ntext refused 15 line 259\n",
    )
}

#[test]
fn a_part_has_at_most_256_faces(rt: HostRuntime) -> Result<(), Fail> {
    let mut text = part_of(rt.alloc(), 256, "f 1 1 1\n")?;
    gives(
        &rt,
        text.as_bytes(),
        "side 2\npart 1: 0 points, 256 faces, missing point in face 1\nsolid 0\n",
    )?;
    text.push_str("f 1 1 1\n")?;
    gives(
        &rt,
        text.as_bytes(),
        "side 2\nsolid 0\ntext refused 15 line 259\n",
    )
}

#[test]
fn a_line_is_read_before_its_place_is_looked_for(rt: HostRuntime) -> Result<(), Fail> {
    let mut text = part_of(rt.alloc(), 256, "v 1 2 3\n")?;
    text.push_str("v 1 2 x\n")?;
    gives(
        &rt,
        text.as_bytes(),
        "side 2\nsolid 0\ntext refused 14 line 259\n",
    )
}

#[test]
fn every_part_has_the_trays_to_itself(rt: HostRuntime) -> Result<(), Fail> {
    let mut text = part_of(rt.alloc(), 256, "v 1 2 3\n")?;
    text.push_str("part\nv 1 2 3\n")?;
    gives(
        &rt,
        text.as_bytes(),
        "side 2\npart 1: 256 points, 0 faces, closed\npart 2: 1 points, 0 faces, closed\nsolid 0\n",
    )
}

#[test]
fn a_text_has_at_most_16_384_bytes(rt: HostRuntime) -> Result<(), Fail> {
    let mut text = [b'#'; 16_384];
    text[0..7].copy_from_slice(b"side 2\n");
    gives(&rt, &text, "side 2\nsolid 0\n")?;
    let mut longer = [b'#'; 16_385];
    longer[0..7].copy_from_slice(b"side 2\n");
    gives(&rt, &longer, "too big\n")
}

#[test]
fn its_last_line_may_be_far_down(rt: HostRuntime) -> Result<(), Fail> {
    let mut text = vec![in rt.alloc(); b'\n'; 16_378]?;
    text.extend_from_slice(b"side 3")?;
    gives(&rt, text.as_slice(), "text refused 2 line 16379\n")
}
