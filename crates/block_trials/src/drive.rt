//! The same flips for a block of any kind and for a plain list of cells.

use crate::plain::{Kind, Plain};
use crate::random::Random;
use block::{Block, Cell, Run};
use refusals::{BoxSide, Refusal};
use std::fmt;

/// What is tried: a kind of block of a side, in so many bytes, places or groups, with so many flips.
#[derive(Clone, Copy, Debug, PartialEq, Eq)]
pub struct Trial {
    pub kind: Kind,
    pub side: BoxSide,
    pub memory: usize,
    pub flips: u32,
}

/// What came of it: how many flips were made, were refused with 1 and with 12, and how often the block and the plain cells differed.
#[derive(Clone, Copy, Debug, Default, PartialEq, Eq)]
pub struct Tally {
    made: u32,
    off_box: u32,
    no_sand: u32,
    mismatches: u32,
}

impl Tally {
    /// Counts a flip by its answer, and a mismatch if there was one.
    fn count(&mut self, answer: Result<(), Refusal>, matches: bool) {
        match answer {
            Ok(()) => self.made = self.made.saturating_add(1),
            Err(Refusal::OffBox) => self.off_box = self.off_box.saturating_add(1),
            Err(Refusal::NoSand) => self.no_sand = self.no_sand.saturating_add(1),
            Err(_) => self.mismatches = self.mismatches.saturating_add(1),
        }
        if !matches {
            self.mismatches = self.mismatches.saturating_add(1);
        }
    }
}

impl fmt::Display for Tally {
    fn fmt<W: fmt::Write>(&self, f: &mut fmt::Formatter<W>) -> fmt::Result {
        write!(
            f,
            "{} made, {} off the box, {} no sand, {} mismatches",
            self.made, self.off_box, self.no_sand, self.mismatches
        )
    }
}

/// A run that mostly lies in the box.
fn random_run(random: &mut Random, n: usize) -> Run {
    let y = random.near(n);
    let z = random.near(n);
    let a = random.near(n.saturating_add(1));
    let b = random.near(n.saturating_add(1));
    Run {
        y,
        z,
        start: a.min(b),
        end: a.max(b),
    }
}

/// A cell that mostly lies in the box.
fn random_cell(random: &mut Random, n: usize) -> Cell {
    let x = random.near(n);
    let y = random.near(n);
    let z = random.near(n);
    Cell { x, y, z }
}

/// One flip, a look at every cell, and a look that may lie outside.
fn step<B: Block>(
    block: &mut B,
    plain: &mut Plain,
    trial: Trial,
    random: &mut Random,
    tally: &mut Tally,
)
    requires { B.sound block.old }
    ensures { B.sound block.new }
{
    let n = trial.side.cells();
    let run = random_run(random, n);
    let cell = random_cell(random, n);
    let expected = plain.flip(trial.kind, trial.memory, run);
    let answer = block.flip(run);
    let matches = answer == expected
        && plain.is_same(block)
        && block.side() == trial.side
        && block.look(cell) == plain.look(cell);
    tally.count(answer, matches);
}

/// Drives a blank block and blank plain cells by the same flips.
pub fn drive<B: Block>(block: &mut B, plain: &mut Plain, trial: Trial) -> Tally
    requires { B.sound block.old }
{
    let mut random = Random::new(1);
    let mut tally = Tally::default();
    for _ in 0..trial.flips {
        step(block, plain, trial, &mut random, &mut tally);
    }
    tally
}
