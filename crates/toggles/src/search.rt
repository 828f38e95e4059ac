//! The search for a key among keys that rise.
ghost use Rattle.std.specs.Cmp.{IsTotalOrder};
ghost use Rattle.std.specs.List.Sorted.{IsStrictlySortedBy};
ghost use Rattle.toggles.specs.Search.{Place, Stands};

use std::cmp::Ordering;

/// The place of `key` among `keys`, or else the place at which it belongs: after the lesser keys and before the greater ones.
// The slice's `binary_search` promises nothing of where a key belongs among keys that do not rise, and `place` holds of any keys.
pub fn find_place<K: Ord>(keys: &[K], key: &K) -> Result<usize, usize>
    ensures place { Place K.Ord.cmp keys.now key.now result }
    ensures stands { (o : IsTotalOrder K.Ord.cmp) → IsStrictlySortedBy K.Ord.cmp keys.now → Stands o keys.now key.now result }
{
    let mut low = 0;
    let mut high = keys.len();
    while low < high {
        let mid = low + (high - low) / 2;
        match key.cmp(&keys[mid]) {
            Ordering::Equal => return Ok(mid),
            Ordering::Less => high = mid,
            Ordering::Greater => low = mid + 1,
        }
    }
    Err(low)
}
