//! The side line.

use crate::expect::{TAKEN, gives};
use std::test::Fail;

#[test]
fn a_text_that_says_nothing_has_no_side(rt: HostRuntime) -> Result<(), Fail> {
    gives(&rt, b"", "text refused 13 line 0\n")?;
    gives(&rt, b"\n", "text refused 13 line 0\n")?;
    gives(&rt, b"# a\n\n   \n#side 2", "text refused 13 line 0\n")
}

#[test]
fn a_side_alone_is_a_text(rt: HostRuntime) -> Result<(), Fail> {
    gives(&rt, b"side 2\n", TAKEN)?;
    gives(&rt, b"side 2", TAKEN)?;
    gives(&rt, b"side 02", TAKEN)?;
    gives(&rt, b"side 00002", TAKEN)?;
    gives(&rt, b"side 4", "side 4\nsolid 0\n")?;
    gives(&rt, b"side 8", "side 8\nsolid 0\n")?;
    gives(&rt, b"side 16", "side 16\nsolid 0\n")?;
    gives(&rt, b"side 32", "side 32\nsolid 0\n")
}

#[test]
fn the_sixth_side_is_too_big_whatever_follows_it(rt: HostRuntime) -> Result<(), Fail> {
    gives(&rt, b"side 64", "too big\n")?;
    gives(&rt, b"side 64\nnonsense\n", "too big\n")
}

#[test]
fn another_number_is_an_odd_side(rt: HostRuntime) -> Result<(), Fail> {
    gives(&rt, b"side 3\n", "text refused 2 line 1\n")?;
    gives(&rt, b"side 48\n", "text refused 2 line 1\n")?;
    gives(&rt, b"side 99999\n", "text refused 2 line 1\n")?;
    gives(&rt, b"side 007\n", "text refused 2 line 1\n")?;
    gives(&rt, b"side 0\n", "text refused 2 line 1\n")?;
    gives(&rt, b"side -2\n", "text refused 2 line 1\n")
}

#[test]
fn another_word_is_no_number(rt: HostRuntime) -> Result<(), Fail> {
    gives(&rt, b"side -\n", "text refused 14 line 1\n")?;
    gives(&rt, b"side 000002\n", "text refused 14 line 1\n")?;
    gives(&rt, b"side -000002\n", "text refused 14 line 1\n")?;
    gives(&rt, b"side --2\n", "text refused 14 line 1\n")?;
    gives(&rt, b"side +2\n", "text refused 14 line 1\n")?;
    gives(&rt, b"side 2.\n", "text refused 14 line 1\n")?;
    gives(&rt, b"side two\n", "text refused 14 line 1\n")
}

#[test]
fn the_first_line_is_a_side_line_with_one_word(rt: HostRuntime) -> Result<(), Fail> {
    gives(&rt, b"side\n", "text refused 13 line 1\n")?;
    gives(&rt, b"side 2 2\n", "text refused 13 line 1\n")?;
    gives(&rt, b"Side 2\n", "text refused 13 line 1\n")?;
    gives(&rt, b"sides 2\n", "text refused 13 line 1\n")?;
    gives(&rt, b"part\nside 2\n", "text refused 13 line 1\n")?;
    gives(&rt, b"v 1 2 3\nside 2\n", "text refused 13 line 1\n")
}

#[test]
fn no_other_line_is_a_side_line(rt: HostRuntime) -> Result<(), Fail> {
    gives(
        &rt,
        b"side 2\nside 2\n",
        "side 2\nsolid 0\ntext refused 13 line 2\n",
    )?;
    gives(
        &rt,
        b"side 2\npart\nside 2\n",
        "side 2\nsolid 0\ntext refused 13 line 3\n",
    )
}
