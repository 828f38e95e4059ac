//! The toggle list.
ghost use Rattle.std.specs.Prelude.{◌≤◌, length};

mod edit;
mod read;

/// The keys that were toggled an odd number of times, rising, at the front of a slice that the caller lends.
#[derive(Debug, Drop)]
pub struct Toggles<'a, K> {
    // A slice with a length beside, and not a vector: the memory is the caller's, and stays in the caller's hands afterwards.
    keys: &'a mut [K],
    len: usize,
    ghost within: { len ≤ length keys.now },
}
