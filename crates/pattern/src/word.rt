//! The words of a line. A word is that part of the text.

ghost use Rattle.std.specs.Prelude.{◌≡◌, ◌<◌, ◌≤◌, ◌==◌, true, false, length, MatchOption};
ghost use Rattle.std.specs.Iterator.{item_count};
ghost use Rattle.std.specs.List.{position_or_len, prefix_len};
ghost use Rattle.pattern.specs.Text.{is_number, is_plain, read_on, value, words};
ghost use Rattle.pattern.specs.Read.{First, One, Three, WellTold, bytes_of, number_in};

/// A word, which borrows the text that it stands in.
#[derive(Clone, Copy, Debug, PartialEq, Eq)]
pub enum Word<'a> {
    /// It has not the form of a number.
    Name(&'a [u8]),
    /// An optional minus and one to five digits.
    Number(&'a [u8]),
}

/// Three words, as a point and a face have them.
#[derive(Clone, Copy, Debug, PartialEq, Eq)]
pub struct Triple<'a> {
    pub first: Word<'a>,
    pub second: Word<'a>,
    pub third: Word<'a>,
}

/// How many bytes stand before the first `stop`.
pub(crate) fn count_before(text: &[u8], stop: u8) -> usize
    ensures within { result ≤ length text.now }
    ensures place { result ≡ position_or_len (λ b. b == stop) text.now }
{
    text.iter().take_while(|&&b| b != stop).count()
}

// Beside `count_before`, which is asked with two stops. One function for both would take the test as a closure, and be no shorter: each is
// a line, whose clause names the library's word for what it counts.

/// How many spaces stand in front.
fn count_spaces(text: &[u8]) -> usize
    ensures within { result ≤ length text.now }
    ensures place { result ≡ prefix_len (λ b. b == 32) text.now }
{
    text.iter().take_while(|&&b| b == b' ').count()
}

/// The number that one to five digits write.
fn plain_number(digits: &[u8]) -> Option<u32>
    ensures { MatchOption result (is_plain digits.now ≡ false) (λ n. (is_plain digits.now ≡ true) × (n ≡ read_on 0 digits.now) × (n < 100000)) }
{
    if digits.is_empty() || digits.len() > 5 {
        return None;
    }
    let mut value = 0;
    for d in digits {
        if !d.is_ascii_digit() {
            return None;
        }
        value = value * 10 + u32::from(*d - b'0');
    }
    Some(value)
}

/// The number that the bytes write, where they have the form of one.
fn parse_number(text: &[u8]) -> Option<i32>
    ensures { MatchOption result (is_number text.now ≡ false) (λ n. (is_number text.now ≡ true) × (n ≡ value text.now)) }
{
    if let [b'-', digits @ ..] = text {
        let n = plain_number(digits)?;
        return Some(-(n as i32));
    }
    let n = plain_number(text)?;
    Some(n as i32)
}

impl<'a> Word<'a> {
    /// A whole word: a number where it has the form of one, else a name.
    pub fn new(text: &'a [u8]) -> Word<'a>
        ensures bytes { bytes_of result ≡ text.now }
        ensures told { WellTold result }
    {
        match parse_number(text) {
            Some(_) => Word::Number(text),
            None => Word::Name(text),
        }
    }

    /// The number that the word tells, or none.
    pub fn number(&self) -> Option<i32>
        ensures { result ≡ number_in self.now }
    {
        match self {
            Word::Number(text) => parse_number(text),
            Word::Name(_) => None,
        }
    }

    /// That part of the text.
    pub fn bytes(&self) -> &'a [u8]
        ensures { result.now ≡ bytes_of self.now }
    {
        match self {
            Word::Number(text) => text,
            Word::Name(text) => text,
        }
    }
}

/// The words of a line, one after another.
#[derive(Clone, Copy, Debug, PartialEq, Eq)]
pub(crate) struct Words<'a> {
    rest: &'a [u8],
}

impl<'a> Words<'a> {
    pub(crate) fn new(rest: &'a [u8]) -> Words<'a>
        ensures { result.rest.now ≡ rest.now }
    {
        Words { rest }
    }

    /// The one word that is left, or none where there is no word or more than one.
    pub(crate) fn one(mut self) -> Option<Word<'a>>
        ensures { One (words self.entry.rest.now) result }
    {
        let word = self.next()?;
        match self.next() {
            None => Some(word),
            Some(_) => None,
        }
    }

    /// The three words that are left, or none where there are fewer or more.
    pub(crate) fn three(mut self) -> Option<Triple<'a>>
        ensures { Three (words self.entry.rest.now) result }
    {
        let first = self.next()?;
        let second = self.next()?;
        let third = self.next()?;
        match self.next() {
            None => Some(Triple {
                first,
                second,
                third,
            }),
            Some(_) => None,
        }
    }
}

impl<'a> Iterator for Words<'a> {
    type Item = Word<'a>;

    ghost next_gives = { λ s r t. First s.rest.now t.rest.now r };

    ghost remaining = { item_count (λ s. words s.rest.now) };

    fn next(&mut self) -> Option<Word<'a>> {
        let text = &self.rest[count_spaces(self.rest)..];
        if text.is_empty() {
            self.rest = text;
            return None;
        }
        let (first, rest) = text.split_at(count_before(text, b' '));
        self.rest = rest;
        Some(Word::new(first))
    }
}
