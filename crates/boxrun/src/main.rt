//! boxrun: reads a pattern text from standard input and prints which cells of the box its parts make solid.
#![tactic(auto)]

use report::{MOST_BYTES, report};
use std::io::Read;

/// The input, or its first bytes where it is longer than a text may be.
fn read_input(rt: &HostRuntime) -> anyhow::Result<Vec<u8>> {
    let mut text = Vec::new(rt.alloc());
    let mut input = rt.stdin();
    // A chunk at a time, and not `read_to_end`, which makes room before it reads and tells want of memory in other words than the rest does.
    while text.len() <= MOST_BYTES {
        let mut chunk = [0u8; 4096];
        let count = input.read(&mut chunk)?;
        if count == 0 {
            break;
        }
        text.extend_from_slice(&chunk[0..count])?;
    }
    Ok(text)
}

fn run(rt: &HostRuntime) -> anyhow::Result<()> {
    let text = read_input(rt)?;
    let out = report(rt.alloc(), text.as_slice())?;
    print!(rt; "{out}")?;
    Ok(())
}

fn main(rt: HostRuntime) -> anyhow::Result<()> {
    run(&rt)
}
