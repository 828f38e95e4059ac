//! The sixteen refusals, and the side of the box.
#![tactic(auto)]

ghost use Rattle.std.specs.Prelude.{◌≡◌};
ghost use Rattle.refusals.specs.Refusals.{number, layer, place, odd_side, word};

use geometry::Side;
use std::error::Error;
use std::fmt;

pub mod box_side;

pub use box_side::BoxSide;

/// The part of the program that a refusal comes from.
#[derive(Clone, Copy, Debug, PartialEq, Eq)]
pub enum Layer {
    /// The reader of pattern text.
    Text,
    /// An entry of a shape.
    Shape,
    /// A block of cells.
    Block,
    /// All else.
    Job,
}

/// Why a call did nothing. Each has a number and a word, the layer that it comes from, and the place that is at fault: the line of the
/// text or the entry of the shape, counted from 1, else 0.
#[derive(Clone, Copy, Debug, PartialEq, Eq)]
pub enum Refusal {
    /// 1: a cell or a run lies outside the box.
    OffBox,
    /// 2: a side is not one of 2, 4, 8, 16, 32 and 64; with the line where the text has it.
    OddSide { line: Option<usize> },
    /// 3: a skin board cannot hold all drawings.
    ShortBoard,
    /// 4: the block, the boards and the sheet differ in side.
    MixedSides,
    /// 5: 16 lines stand on the sheet.
    FullSheet,
    /// 6: the shape has no entries.
    Bare,
    /// 7: the shape has over 1,024 entries.
    Overlong,
    /// 8: the shelf for sides has fewer than three places for each entry.
    ShortShelf,
    /// 9: an entry is a hole.
    Hole { entry: usize },
    /// 10: an entry has a coordinate out of range.
    WildPoint { entry: usize },
    /// 11: two different points are joined by an odd number of sides; this is one such side, its lesser end first.
    Leaky { side: Side },
    /// 12: a drawing on the way does not fit in the block.
    NoSand,
    /// 13: a line is not allowed where it stands.
    StrayLine { line: usize },
    /// 14: a word is not a number.
    BadNumber { line: usize },
    /// 15: there is no place for a point or a face.
    FullTray { line: usize },
    /// 16: the output needs more bytes than it was given.
    ShortList,
}

impl Refusal {
    /// The number of the refusal, from 1 to 16.
    pub fn number(&self) -> u8
        ensures { result ≡ number self.now }
    {
        match self {
            Refusal::OffBox => 1,
            Refusal::OddSide { .. } => 2,
            Refusal::ShortBoard => 3,
            Refusal::MixedSides => 4,
            Refusal::FullSheet => 5,
            Refusal::Bare => 6,
            Refusal::Overlong => 7,
            Refusal::ShortShelf => 8,
            Refusal::Hole { .. } => 9,
            Refusal::WildPoint { .. } => 10,
            Refusal::Leaky { .. } => 11,
            Refusal::NoSand => 12,
            Refusal::StrayLine { .. } => 13,
            Refusal::BadNumber { .. } => 14,
            Refusal::FullTray { .. } => 15,
            Refusal::ShortList => 16,
        }
    }

    /// What the refusal is called.
    pub fn word(&self) -> &'static str
        ensures { result.now ≡ word self.now }
    {
        match self {
            Refusal::OffBox => "off the box",
            Refusal::OddSide { .. } => "odd side",
            Refusal::ShortBoard => "short board",
            Refusal::MixedSides => "mixed sides",
            Refusal::FullSheet => "full sheet",
            Refusal::Bare => "bare",
            Refusal::Overlong => "overlong",
            Refusal::ShortShelf => "short shelf",
            Refusal::Hole { .. } => "hole",
            Refusal::WildPoint { .. } => "wild point",
            Refusal::Leaky { .. } => "leaky",
            Refusal::NoSand => "no sand",
            Refusal::StrayLine { .. } => "stray line",
            Refusal::BadNumber { .. } => "bad number",
            Refusal::FullTray { .. } => "full tray",
            Refusal::ShortList => "short list",
        }
    }

    /// The layer that the refusal comes from.
    pub fn layer(&self) -> Layer
        ensures { result ≡ layer self.now }
    {
        match self {
            Refusal::StrayLine { .. }
            | Refusal::BadNumber { .. }
            | Refusal::FullTray { .. }
            | Refusal::OddSide { line: Some(_) } => Layer::Text,
            Refusal::Hole { .. } | Refusal::WildPoint { .. } => Layer::Shape,
            Refusal::OffBox | Refusal::NoSand => Layer::Block,
            _ => Layer::Job,
        }
    }

    /// The line or the entry at fault, counted from 1, else 0.
    pub fn place(&self) -> usize
        ensures { result ≡ place self.now }
    {
        match self {
            Refusal::OddSide { line: Some(line) } => *line,
            Refusal::StrayLine { line }
            | Refusal::BadNumber { line }
            | Refusal::FullTray { line } => *line,
            Refusal::Hole { entry } | Refusal::WildPoint { entry } => *entry,
            _ => 0,
        }
    }

    /// The odd side that a leaky part is refused with.
    pub fn odd_side(&self) -> Option<Side>
        ensures { result ≡ odd_side self.now }
    {
        match self {
            Refusal::Leaky { side } => Some(*side),
            _ => None,
        }
    }
}

/// The word of the refusal.
impl fmt::Display for Refusal {
    fn fmt<W: fmt::Write>(&self, f: &mut fmt::Formatter<W>) -> fmt::Result {
        f.write_str(self.word())
    }
}

impl Error for Refusal {}
