//! The lines of a sheet.

ghost use Rattle.std.specs.Prelude.{◌≡◌, ◌≤◌, length};
ghost use Rattle.sheet.specs.declared.lines.TheConstants.{MOST_LINES};

use refusals::BoxSide;

mod edit;

/// How many lines a sheet has room for.
pub const MOST_LINES: usize = 16;

/// A part that was laid: how many triangles it has, and how many flips were made for it.
#[derive(Clone, Copy, Debug, Default, PartialEq, Eq)]
pub struct Line {
    pub triangles: u32,
    pub flips: u32,
}

/// The side of a box, and a line for each part that was laid, the first one first.
#[derive(Clone, Copy, Debug, PartialEq, Eq)]
pub struct Sheet {
    side: BoxSide,
    // an array of lines with how many are filled, not an `ArrayVec`: docs/DECISIONS.md names the form by place
    lines: [Line; MOST_LINES],
    used: usize,
    ghost long: { length lines ≡ MOST_LINES },
    ghost within: { used ≤ MOST_LINES },
}
