//! The sheet of a job: a line for each part that was laid, at most sixteen.
#![tactic(auto)]

pub mod lines;

pub use lines::{Line, Sheet};
