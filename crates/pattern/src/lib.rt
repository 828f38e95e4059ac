//! The reader of pattern text: a box's side and the parts that are laid in it, each a list of points and a list of faces.
#![tactic(auto)]

pub mod line;
pub mod reader;
pub mod state;
pub mod word;

pub use line::Line;
pub use reader::{Counts, Reader};
pub use state::{Kind, OutOfTurn, State};
pub use word::{Triple, Word};
