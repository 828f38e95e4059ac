ghost use Rattle.std.specs.Prelude.{◌≡◌, ◌≤◌, ◌↔◌, [], length, IsTrue};
ghost use Rattle.std.specs.List.{slice_get};
ghost use Rattle.sheet.specs.Sheets.{Added, lines_of, side_of, total};

use super::{Line, MOST_LINES, Sheet};
use refusals::{BoxSide, Refusal};

impl Sheet {
    /// An empty sheet.
    pub fn new(side: BoxSide) -> Sheet
        ensures side { side_of result ≡ side }
        ensures empty { lines_of result ≡ [] }
    {
        Sheet {
            side,
            lines: [Line::default(); MOST_LINES],
            used: 0,
        }
    }

    /// The side of the box.
    pub fn side(&self) -> BoxSide
        ensures { result ≡ side_of self.now }
    {
        self.side
    }

    /// Whether sixteen lines stand, so that there is no room for another.
    pub fn is_full(&self) -> bool
        ensures { IsTrue result ↔ (16 ≤ length (lines_of self.now)) }
    {
        self.used == MOST_LINES
    }

    /// The line of a number, counted from 0, if there is one.
    pub fn line(&self, i: usize) -> Option<Line>
        ensures { result ≡ slice_get (lines_of self.now) i }
    {
        self.lines[..self.used].get(i).copied()
    }

    /// Fills one more line. Refusal 5 where sixteen stand: then nothing is changed.
    pub fn add(&mut self, triangles: u32, flips: u32) -> Result<(), Refusal>
        ensures { Added self.old triangles flips self.new result }
    {
        if self.is_full() {
            return Err(Refusal::FullSheet);
        }
        self.lines[self.used] = Line { triangles, flips };
        self.used += 1;
        Ok(())
    }

    /// The triangles of all lines added up.
    pub fn triangles(&self) -> u64
        ensures { result ≡ total (lines_of self.now) }
    {
        triangles_of(&self.lines[..self.used])
    }
}

/// The triangles of the lines added up.
fn triangles_of(lines: &[Line]) -> u64
    requires { length lines.now ≤ 16 }
    ensures { result ≡ total lines.now }
{
    // a `for`, not the sum of a chain: docs/DECISIONS.md names the form by place
    let mut sum = 0;
    for line in lines {
        sum += u64::from(line.triangles);
    }
    sum
}
