//! Numbers that look random, the same ones in every run.

/// A linear congruential generator.
#[derive(Debug, Drop)]
pub struct Random {
    state: u64,
}

impl Random {
    /// The generator from a seed.
    pub fn new(seed: u64) -> Random {
        Random { state: seed }
    }

    /// The next number: from 0 up to, and without, `bound`, or 0 where `bound` is 0.
    pub fn below(&mut self, bound: usize) -> usize {
        self.state = self
            .state
            .wrapping_mul(6364136223846793005)
            .wrapping_add(1442695040888963407);
        if bound == 0 {
            return 0;
        }
        (self.state >> 33) as usize % bound
    }

    /// A number that mostly is below `bound`: one in 64 is a little larger, and one in 64 is large.
    pub fn near(&mut self, bound: usize) -> usize {
        let number = self.below(bound);
        match self.below(64) {
            0 => number.saturating_add(bound),
            1 => usize::MAX - number,
            _ => number,
        }
    }
}
