ghost use Rattle.std.specs.Prelude.{◌≡◌, drop};
ghost use Rattle.pattern.specs.Pattern.{settled, side_from, start};
ghost use Rattle.pattern.specs.Read.{Heard, SideRead, Sided, Taken, stand_of};

use super::Reader;
use crate::line::Line;
use crate::state::{Kind, State};
use crate::word::count_before;
use refusals::{BoxSide, Refusal};

/// What comes behind the first byte.
fn behind_first(text: &[u8]) -> &[u8]
    ensures { result.now ≡ drop 1 text.now }
{
    text.get(1..).unwrap_or(text)
}

impl<'a> Reader<'a> {
    /// A reader before the first line of the text.
    pub fn new(text: &'a [u8]) -> Reader<'a>
        ensures { stand_of result ≡ start text.now }
    {
        Reader {
            rest: text,
            line: 0,
            state: State::Start,
            side: None,
        }
    }

    /// The next line, without its line feed.
    fn take_line(&mut self) -> Option<&'a [u8]>
        ensures { Taken self.old self.new result }
    {
        let text = self.rest;
        if text.is_empty() {
            return None;
        }
        let end = count_before(text, b'\n');
        let (line, rest) = text.split_at(end);
        self.rest = behind_first(rest);
        self.line += 1;
        Some(line)
    }

    /// The next line that says something; the lines before it are skipped.
    pub(super) fn next_line(&mut self) -> Option<Line<'a>>
        ensures { Heard self.old self.new result }
    {
        while let Some(text) = self.take_line() {
            let line = Line::new(text);
            if !line.is_skip() {
                return Some(line);
            }
        }
        None
    }
}

impl<'a> Reader<'a> {
    /// Reads the side line. Where it is refused, this reader may stand anywhere.
    fn read_side(&mut self) -> Result<BoxSide, Refusal>
        ensures { SideRead (side_from self.old.state (stand_of self.old).left) self.new result }
    {
        let line = self.next_line().ok_or(Refusal::StrayLine { line: 0 })?;
        let at = self.line;
        let Line::Side(word) = line else {
            return Err(Refusal::StrayLine { line: at });
        };
        self.state
            .step(Kind::Side)
            .map_err(|_| Refusal::StrayLine { line: at })?;
        let n = word.number().ok_or(Refusal::BadNumber { line: at })?;
        let side = BoxSide::try_from(n).map_err(|_| Refusal::OddSide { line: Some(at) })?;
        self.side = Some(side);
        Ok(side)
    }

    /// The side of the box, which the first line tells. Once it is read, it is told again.
    pub fn side(&mut self) -> Result<BoxSide, Refusal>
        ensures { Sided (settled (stand_of self.old)) self.old self.new result }
    {
        if let Some(side) = self.side {
            return Ok(side);
        }
        let mut ahead = *self;
        let side = ahead.read_side()?;
        *self = ahead;
        Ok(side)
    }
}
