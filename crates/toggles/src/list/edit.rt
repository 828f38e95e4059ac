//! How a toggle list begins, and how a key is toggled there.
ghost use Rattle.std.specs.Prelude.{◌≡◌, ◌+◌, ◌<◌, ◌≤◌, List, [], ◌∷◌, length, is_ok, OnErr, OnOk};
ghost use Rattle.std.specs.List.{insert, remove};
ghost use Rattle.std.specs.Cmp.{IsTotalOrder};
ghost use Rattle.toggles.specs.Present.{SameShelf, lent, present, room, size};
ghost use Rattle.toggles.specs.Toggled.{Answered, Keeps};

use super::Toggles;
use crate::full::Full;

impl<'a, K: Ord + Copy> Toggles<'a, K> {
    /// A list with no key present, and room for as many keys as the slice has places. Nothing is written.
    pub fn new(keys: &'a mut [K]) -> Self
        ensures empty { present result ≡ [] }
        ensures size { size result ≡ 0 }
        ensures room { room result ≡ length keys.old }
        ensures loan { result.keys.ghost_name ≡ keys.entry.ghost_name }
        ensures untouched { lent result ≡ keys.old }
    {
        Toggles { keys, len: 0 }
    }

    /// Puts `key` at `at`, and moves the keys from there on up by one.
    #[tactic(auto, using(crate::proofs::Shifted::put_in))]
    fn insert_at(&mut self, at: usize, key: K)
        requires { (at ≤ size self.old) × (size self.old < room self.old) }
        ensures shelf { SameShelf self.old self.new }
        ensures size { size self.new ≡ size self.old + 1 }
        ensures keys { present self.new ≡ insert (present self.old) at key }
    {
        let len = self.len;
        self.keys.copy_within(at..len, at + 1);
        self.keys[at] = key;
        self.len = len + 1;
    }

    /// Takes the key at `at` out, and moves those after it down by one.
    #[tactic(auto, using(crate::proofs::Shifted::taken_out))]
    fn remove_at(&mut self, at: usize)
        requires { at < size self.old }
        ensures shelf { SameShelf self.old self.new }
        ensures size { size self.new + 1 ≡ size self.old }
        ensures keys { present self.new ≡ remove (present self.old) at }
    {
        let len = self.len;
        self.keys.copy_within(at + 1..len, at);
        self.len = len - 1;
    }

    /// Takes `key` out where it is present, and puts it in where it is new. An error, and nothing at all is changed, exactly where it is
    /// new and every place is taken.
    #[tactic(auto, using(crate::proofs::Toggling::cut_answers))]
    pub fn toggle(&mut self, key: K) -> Result<(), Full>
        ensures shelf { SameShelf self.old self.new }
        ensures grows { size self.new ≤ size self.old + 1 }
        ensures refused { OnErr result ((size self.old ≡ room self.old) × (self.new ≡ self.old)) }
        ensures answered { Answered K.Ord.cmp (present self.old) (present self.new) (room self.old) key (is_ok result) }
        ensures keeps { (o : IsTotalOrder K.Ord.cmp) (ts : List K) → Keeps o (present self.old) ts → OnOk result (Keeps o (present self.new) (key ∷ ts)) }
    {
        match self.place(&key) {
            Ok(at) => self.remove_at(at),
            Err(at) => {
                if self.len == self.keys.len() {
                    return Err(Full);
                }
                self.insert_at(at, key);
            }
        }
        Ok(())
    }
}
