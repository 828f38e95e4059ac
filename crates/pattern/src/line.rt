//! What a line is, by its first word and by how many words it has.

ghost use Rattle.std.specs.Prelude.{◌≡◌};
ghost use Rattle.pattern.specs.Lines.{is_comment, is_nothing, kind_of, of_kind, said};
ghost use Rattle.pattern.specs.Text.{words};
ghost use Rattle.pattern.specs.Read.{Told, said_by};

use crate::state::Kind;
use crate::word::{Triple, Word, Words};

/// A line of the text. Its words borrow it.
#[derive(Clone, Copy, Debug, PartialEq, Eq)]
pub enum Line<'a> {
    /// It has no words, or it begins with #: it is skipped.
    Skip,
    /// `side` and one word.
    Side(Word<'a>),
    /// `part` alone.
    Part,
    /// `part` and more words.
    PartAndMore,
    /// `v` and three words.
    Point(Triple<'a>),
    /// `f` and three words.
    Face(Triple<'a>),
    /// Another name, or too few or too many words.
    Stray,
}

/// The kind of line that a name tells.
fn kind_of(name: &[u8]) -> Option<Kind>
    ensures { result ≡ kind_of name.now }
{
    match name {
        b"side" => Some(Kind::Side),
        b"part" => Some(Kind::Part),
        b"v" => Some(Kind::Point),
        b"f" => Some(Kind::Face),
        _ => None,
    }
}

/// Whether the line begins with #.
fn is_comment(text: &[u8]) -> bool
    ensures { result ≡ is_comment text.now }
{
    text.starts_with(b"#")
}

/// The line of a kind with these words after its name.
fn line_of<'a>(kind: Option<Kind>, mut args: Words<'a>) -> Line<'a>
    ensures said { said_by result ≡ of_kind kind (words args.entry.rest.now) }
    ensures told { Told result }
{
    match kind {
        Some(Kind::Side) => args.one().map_or(Line::Stray, Line::Side),
        Some(Kind::Part) => match args.next() {
            Some(_) => Line::PartAndMore,
            None => Line::Part,
        },
        Some(Kind::Point) => args.three().map_or(Line::Stray, Line::Point),
        Some(Kind::Face) => args.three().map_or(Line::Stray, Line::Face),
        None => Line::Stray,
    }
}

impl<'a> Line<'a> {
    /// What the line of these bytes, without its line feed, is.
    #[tactic(auto, unfolding(crate::specs::Lines::said))]
    pub fn new(text: &'a [u8]) -> Line<'a>
        ensures said { said_by result ≡ said text.now }
        ensures told { Told result }
    {
        if is_comment(text) {
            return Line::Skip;
        }
        let mut rest = Words::new(text);
        match rest.next() {
            None => Line::Skip,
            Some(name) => line_of(kind_of(name.bytes()), rest),
        }
    }

    /// Whether the line is skipped.
    pub fn is_skip(&self) -> bool
        ensures { result ≡ is_nothing (said_by self.now) }
    {
        matches!(self, Line::Skip)
    }
}
