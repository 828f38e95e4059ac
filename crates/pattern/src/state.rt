//! What a line may be depends on the lines before it.

ghost use Rattle.std.specs.Prelude.{◌≡◌, Some, None, MatchResult};
ghost use Rattle.pattern.specs.States.{next};

use std::error::Error;
use std::fmt;

/// Where in the text a reader stands.
#[derive(Clone, Copy, Debug, PartialEq, Eq)]
pub enum State {
    /// Before the side line.
    Start,
    /// Before a part, or at the end.
    Ready,
    /// In a part, among its points.
    Points,
    /// In a part, among its faces.
    Faces,
}

/// The kinds of line, by their names.
#[derive(Clone, Copy, Debug, PartialEq, Eq)]
pub enum Kind {
    Side,
    Part,
    Point,
    Face,
}

/// A line of this kind may not come now.
#[derive(Clone, Copy, Debug, PartialEq, Eq)]
pub struct OutOfTurn;

impl fmt::Display for OutOfTurn {
    fn fmt<W: fmt::Write>(&self, f: &mut fmt::Formatter<W>) -> fmt::Result {
        f.write_str("such a line may not come now")
    }
}

impl Error for OutOfTurn {}

impl State {
    /// Goes on by a line of this kind; the state stays where such a line may not come.
    pub fn step(&mut self, kind: Kind) -> Result<(), OutOfTurn>
        ensures { MatchResult result (λ _. next self.old kind ≡ Some self.new) (λ _. (next self.old kind ≡ None) × (self.new ≡ self.old)) }
    {
        *self = match (*self, kind) {
            (State::Start, Kind::Side) => State::Ready,
            (State::Ready, Kind::Part) => State::Points,
            (State::Points, Kind::Point) => State::Points,
            (State::Points | State::Faces, Kind::Face) => State::Faces,
            _ => return Err(OutOfTurn),
        };
        Ok(())
    }
}
