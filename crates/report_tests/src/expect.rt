//! What a text gives.

use report::report;
use std::process::Abort;
use std::test::Fail;

/// What a box of side 2 with no part gives.
pub(crate) const TAKEN: &str = "side 2\nsolid 0\n";

/// Checks that the report on the text is this, byte for byte.
pub(crate) fn gives(
    rt: &(impl AllocGlobal + Abort),
    text: &[u8],
    expected: &str,
) -> Result<(), Fail> {
    let out = report(rt.alloc(), text)?;
    assert_eq!(rt; out.as_str(), expected);
    Ok(())
}

/// Checks what is reported of a box of this side with one closed part of so many points and faces: the lines that come after that of the
/// part.
pub(crate) fn closed_gives(
    rt: &(impl AllocGlobal + Abort),
    side: u8,
    part: &str,
    counts: &str,
    expected: &str,
) -> Result<(), Fail> {
    let text = format!(in rt.alloc(); "side {side}\n{part}")?;
    let all = format!(in rt.alloc(); "side {side}\npart 1: {counts}, closed\n{expected}")?;
    gives(rt, text.as_bytes(), all.as_str())
}
