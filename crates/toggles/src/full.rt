//! The one refusal of a toggle list.
use std::error::Error;
use std::fmt;

/// A key is new, and every place of the list is taken.
#[derive(Clone, Copy, Debug, PartialEq, Eq)]
pub struct Full;

impl fmt::Display for Full {
    fn fmt<W: fmt::Write>(&self, f: &mut fmt::Formatter<W>) -> fmt::Result {
        f.write_str("the list is full")
    }
}

impl Error for Full {}
