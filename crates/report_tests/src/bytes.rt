//! Only the space splits words and only the line feed ends a line; any other byte belongs to a word.

use crate::expect::{TAKEN, gives};
use std::test::Fail;

#[test]
fn spaces_may_be_many_and_may_lead_or_trail(rt: HostRuntime) -> Result<(), Fail> {
    gives(&rt, b" side 2\n", TAKEN)?;
    gives(&rt, b"side   2  \n", TAKEN)?;
    gives(
        &rt,
        b"side 2\n  part \n",
        "side 2\npart 1: 0 points, 0 faces, closed\nsolid 0\n",
    )
}

#[test]
fn a_comment_begins_at_the_start_of_its_line(rt: HostRuntime) -> Result<(), Fail> {
    gives(&rt, b"# x\nside 2\n", TAKEN)?;
    gives(&rt, b"#\nside 2\n#", TAKEN)?;
    gives(&rt, b" # x\nside 2\n", "text refused 13 line 1\n")?;
    gives(&rt, b"side 2 # x\n", "text refused 13 line 1\n")?;
    gives(
        &rt,
        b"side 2\npart # x\n",
        "side 2\nsolid 0\ntext refused 13 line 2\n",
    )
}

#[test]
fn a_skipped_line_counts(rt: HostRuntime) -> Result<(), Fail> {
    gives(&rt, b"# x\n\n   \nside 3\n", "text refused 2 line 4\n")?;
    gives(
        &rt,
        b"\nside 2\n# y\n\nstray",
        "side 2\nsolid 0\ntext refused 13 line 5\n",
    )
}

#[test]
fn a_tab_splits_no_words(rt: HostRuntime) -> Result<(), Fail> {
    gives(&rt, b"side\t2\n", "text refused 13 line 1\n")?;
    gives(&rt, b"\tside 2\n", "text refused 13 line 1\n")?;
    gives(&rt, b"side \t2\n", "text refused 14 line 1\n")?;
    gives(&rt, b"side 2 \t\n", "text refused 13 line 1\n")?;
    gives(&rt, b"\t\nside 2\n", "text refused 13 line 1\n")
}

#[test]
fn a_carriage_return_is_part_of_a_word(rt: HostRuntime) -> Result<(), Fail> {
    gives(&rt, b"side 2\r\n", "text refused 14 line 1\n")?;
    gives(
        &rt,
        b"side 2\npart\r\n",
        "side 2\nsolid 0\ntext refused 13 line 2\n",
    )?;
    gives(
        &rt,
        b"side 2\n\r\n",
        "side 2\nsolid 0\ntext refused 13 line 2\n",
    )?;
    gives(&rt, b"side 2\rpart\n", "text refused 14 line 1\n")
}

#[test]
fn nul_and_high_bytes_are_parts_of_words(rt: HostRuntime) -> Result<(), Fail> {
    gives(&rt, b"\0", "text refused 13 line 1\n")?;
    gives(&rt, b"side 2\0\n", "text refused 14 line 1\n")?;
    gives(&rt, b"side\x002\n", "text refused 13 line 1\n")?;
    gives(&rt, b"side\xa02\n", "text refused 13 line 1\n")?;
    gives(&rt, b"side \xff\n", "text refused 14 line 1\n")?;
    gives(&rt, b"\xef\xbb\xbfside 2\n", "text refused 13 line 1\n")?;
    gives(
        &rt,
        b"side 2\n\xff\xfe\n",
        "side 2\nsolid 0\ntext refused 13 line 2\n",
    )
}
