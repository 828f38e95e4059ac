ghost use Rattle.std.specs.Prelude.{◌≡◌, IfOk, IfSome};
ghost use Rattle.pattern.specs.Pattern.{FitsTrays, Stays, answer, written};
ghost use Rattle.pattern.specs.Read.{AllTold, Begun, BodyRead, EntryHeard, EntryRead, body_of, part_of, stand_of};

use super::{Counts, Reader};
use crate::line::Line;
use crate::state::{Kind, State};
use crate::word::Triple;
use geometry::{Face, Point};
use refusals::Refusal;

impl<'a> Reader<'a> {
    /// Reads the part line; false where the text ends. Where it is refused, this reader may stand anywhere.
    fn begin_part(&mut self) -> Result<bool, Refusal>
        ensures { Begun (stand_of self.old) (stand_of self.new) result }
    {
        let Some(line) = self.next_line() else {
            return Ok(false);
        };
        if line != Line::Part || self.state.step(Kind::Part).is_err() {
            return Err(Refusal::StrayLine { line: self.line });
        }
        Ok(true)
    }

    /// The next line of a part; none, and this reader stays, where the part ends before the next line or with the text.
    fn next_entry(&mut self) -> Option<Line<'a>>
        ensures { EntryHeard self.old self.new result }
    {
        let mut ahead = *self;
        match ahead.next_line() {
            None | Some(Line::Part | Line::PartAndMore) => None,
            Some(line) => {
                *self = ahead;
                Some(line)
            }
        }
    }

    /// The three numbers of the line of this kind that was just read, where there is room for so many more: 13 where such a line may not
    /// come, then 14 where a word is no number, then 15 where there is no room.
    fn read_entry(
        &mut self,
        kind: Kind,
        room: usize,
        words: Triple,
    ) -> Result<(i32, i32, i32), Refusal>
        requires { AllTold words }
        ensures { EntryRead self.old self.new kind room words.entry result }
    {
        let line = self.line;
        self.state
            .step(kind)
            .map_err(|_| Refusal::StrayLine { line })?;
        let (Some(x), Some(y), Some(z)) = (
            words.first.number(),
            words.second.number(),
            words.third.number(),
        ) else {
            return Err(Refusal::BadNumber { line });
        };
        if room == 0 {
            return Err(Refusal::FullTray { line });
        }
        Ok((x, y, z))
    }

    // Two trays, and not a struct of both: a caller lends each by itself, and the contract tells of each what it holds.

    /// Reads the points and faces of a part into the trays. Where it is refused, this reader may stand anywhere.
    fn read_body(&mut self, points: &mut [Point], faces: &mut [Face]) -> Result<Counts, Refusal>
        ensures read { BodyRead (body_of self.old points.old faces.old) (stand_of self.new) result }
        ensures points { points.new ≡ written (body_of self.old points.old faces.old).points points.old }
        ensures faces { faces.new ≡ written (body_of self.old points.old faces.old).faces faces.old }
        ensures room { IfOk result (FitsTrays points.new faces.new) }
    {
        let mut counts = Counts::default();
        while let Some(line) = self.next_entry() {
            match line {
                Line::Point(words) => {
                    let room = points.len() - counts.points;
                    let (x, y, z) = self.read_entry(Kind::Point, room, words)?;
                    points[counts.points] = Point { x, y, z };
                    counts.points += 1;
                }
                Line::Face(words) => {
                    let room = faces.len() - counts.faces;
                    let (a, b, c) = self.read_entry(Kind::Face, room, words)?;
                    faces[counts.faces] = Face { a, b, c };
                    counts.faces += 1;
                }
                _ => return Err(Refusal::StrayLine { line: self.line }),
            }
        }
        self.state = State::Ready;
        Ok(counts)
    }

    /// The next part: how many points and faces it has, which then stand at the front of the trays; or none where no part is left. The
    /// side line is read first, where that was not done. A reader that is refused stays where it is; the trays then hold what was read
    /// before the fault, and are else untouched.
    pub fn next_part(
        &mut self,
        points: &mut [Point],
        faces: &mut [Face],
    ) -> Result<Option<Counts>, Refusal>
        ensures answer { result ≡ answer (part_of self.old points.old faces.old) }
        ensures reader { Stays stand_of (part_of self.old points.old faces.old).end self.old self.new }
        ensures points { points.new ≡ written (part_of self.old points.old faces.old).points points.old }
        ensures faces { faces.new ≡ written (part_of self.old points.old faces.old).faces faces.old }
        ensures room { IfOk result (λ part. IfSome part (FitsTrays points.new faces.new)) }
    {
        let mut ahead = *self;
        ahead.side()?;
        let before_part = ahead;
        if !ahead.begin_part()? {
            *self = before_part;
            return Ok(None);
        }
        let counts = ahead.read_body(points, faces)?;
        *self = ahead;
        Ok(Some(counts))
    }
}
