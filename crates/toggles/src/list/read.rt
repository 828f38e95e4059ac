//! What a toggle list can be asked.
ghost use Rattle.std.specs.Prelude.{◌≡◌, length, ◌==◌};
ghost use Rattle.std.specs.List.{slice_get};
ghost use Rattle.toggles.specs.Present.{present, room, size};
ghost use Rattle.toggles.specs.Search.{Place};
ghost use Rattle.toggles.specs.Toggled.{Tells};

use super::Toggles;
use crate::search::find_place;

impl<'a, K: Ord + Copy> Toggles<'a, K> {
    /// The keys present, which stand at the front of the lent slice.
    pub fn present(&self) -> &[K]
        ensures { result.now ≡ present self.now }
    {
        &self.keys[0..self.len]
    }

    /// How many keys are present.
    pub fn len(&self) -> usize
        ensures value { result ≡ size self.now }
        ensures count { result ≡ length (present self.now) }
    {
        self.len
    }

    /// How many keys there is room for.
    pub fn room(&self) -> usize
        ensures { result ≡ room self.now }
    {
        self.keys.len()
    }

    /// Whether no key is present.
    pub fn is_empty(&self) -> bool
        ensures { result ≡ (length (present self.now) == 0) }
    {
        self.present().is_empty()
    }

    /// The present key with `i` present keys below it, or none where there are not so many.
    pub fn get(&self, i: usize) -> Option<K>
        ensures { result ≡ slice_get (present self.now) i }
    {
        self.present().get(i).copied()
    }

    /// Whether `key` is present.
    #[tactic(auto, using(crate::proofs::Toggling::place_tells))]
    pub fn has(&self, key: &K) -> bool
        ensures { Tells K.Ord.cmp (present self.now) key.now result }
    {
        self.place(key).is_ok()
    }

    /// The place of `key` among the keys present, or else the place at which it belongs.
    pub(super) fn place(&self, key: &K) -> Result<usize, usize>
        ensures { Place K.Ord.cmp (present self.now) key.now result }
    {
        find_place(self.present(), key)
    }
}
