//! Tries every kind of block on the same flips against a plain list of cells: what each call answers, and every cell after each flip.
#![tactic(auto)]

use dense::Dense;
use octree::{Group, Octree};
use refusals::BoxSide;
use spans::Spans;
use std::alloc::{AllocError, Global};

mod drive;
mod plain;
mod random;

use drive::{Tally, Trial, drive};
use plain::{Kind, Plain};

/// Tries a kind of block against plain cells: a dense board and a span block in memory that was used before, an octree in fresh groups.
fn try_kind(heap: Global, trial: Trial) -> Result<Tally, AllocError> {
    let mut plain = Plain::new(heap, trial.side)?;
    // an arm for each kind: the memory of each is of another type, and a block borrows it
    match trial.kind {
        Kind::Dense => {
            let mut bytes = vec![in heap; 170u8; trial.memory]?;
            let mut block = Dense::new(trial.side, &mut bytes);
            Ok(drive(&mut block, &mut plain, trial))
        }
        Kind::Spans => {
            let mut places = vec![in heap; 3u32; trial.memory]?;
            let mut block = Spans::new(trial.side, &mut places);
            Ok(drive(&mut block, &mut plain, trial))
        }
        Kind::Octree => {
            let mut groups = vec![in heap; Group::EMPTY; trial.memory]?;
            let mut block = Octree::new(trial.side, &mut groups);
            Ok(drive(&mut block, &mut plain, trial))
        }
    }
}

/// Memories to try: for a dense board just too short, just enough and more; for the others very short, short and ample.
fn memories(kind: Kind, side: BoxSide) -> [usize; 3] {
    let n = side.cells();
    let volume = n * n * n;
    match kind {
        Kind::Dense => [(volume / 8).saturating_sub(1), volume / 8, volume],
        Kind::Spans | Kind::Octree => [n.saturating_sub(2), n * n / 2, volume],
    }
}

/// Tries every kind of block of one side, with each of its memories, and prints what came of it.
fn print_side(rt: &HostRuntime, side: BoxSide, flips: u32) -> anyhow::Result<()> {
    for kind in [Kind::Dense, Kind::Spans, Kind::Octree] {
        for memory in memories(kind, side) {
            let trial = Trial {
                kind,
                side,
                memory,
                flips,
            };
            let tally = try_kind(rt.alloc(), trial)?;
            println!(rt; "{kind} side {} memory {memory}: {tally}", side.cells())?;
        }
    }
    Ok(())
}

fn run(rt: &HostRuntime) -> anyhow::Result<()> {
    print_side(rt, BoxSide::Two, 1000)?;
    print_side(rt, BoxSide::Four, 1000)?;
    print_side(rt, BoxSide::Eight, 1000)?;
    print_side(rt, BoxSide::Sixteen, 200)
}

fn main(rt: HostRuntime) -> anyhow::Result<()> {
    run(&rt)
}
