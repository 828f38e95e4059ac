//! A reader of pattern text.

ghost use Rattle.std.specs.Prelude.{◌+◌, ◌^◌, ◌<◌, length};

use crate::state::State;
use refusals::BoxSide;

mod cursor;
mod part;

// Counts beside the trays, and no vectors: the trays are the caller's memory, and stay in the caller's hands.

/// How many points and faces a part has.
#[derive(Clone, Copy, Debug, Default, PartialEq, Eq)]
pub struct Counts {
    pub points: usize,
    pub faces: usize,
}

/// Reads a pattern text from the front. It moves only when a call succeeds.
#[derive(Clone, Copy, Debug, PartialEq, Eq)]
pub struct Reader<'a> {
    rest: &'a [u8],
    line: usize,
    state: State,
    side: Option<BoxSide>,
    ghost counted: { line + length rest.now < 2 ^ 64 },
}
