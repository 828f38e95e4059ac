//! Change places, in a toggle list.

ghost use Rattle.std.specs.Prelude.{◌≡◌, ℕ, ◌+◌, ◌*◌, ◌<◌, ◌≤◌, false, is_ok, IsOk, length, nat_eq, nat_le, OnErr, OnOk};
ghost use Rattle.std.specs.List.Sorted.{IsStrictlyIncreasing};
ghost use Rattle.refusals.specs.BoxSides.{cells_of};
ghost use Rattle.block.specs.Drawing.{turned};
ghost use Rattle.toggles.specs.Present.{SameShelf, present, room};
ghost use Rattle.toggles.specs.Toggled.{has};
ghost use Rattle.spans.specs.Changes.{ChangePlaces, TogglesBoth, changes};
ghost use Rattle.spans.specs.Shown.{shown, upto};

use geometry::Span;
use refusals::BoxSide;
use toggles::{Full, Toggles, find_place};

/// How many cells a box of this side has.
pub(crate) fn cell_count(side: BoxSide) -> u32
    ensures { result ≡ cells_of side * cells_of side * cells_of side }
{
    let n = side.cells() as u32;
    n * n * n
}

/// How many of the places are at most `k`.
pub(crate) fn count_upto(places: &[u32], k: u32) -> usize
    ensures { IsStrictlyIncreasing places.now → result ≡ upto places.now k }
{
    match find_place(places, &k) {
        Ok(i) => i + 1,
        Err(i) => i,
    }
}

// That the places rise is asked in each contract: a toggle list is made for keys of any order, so its type cannot hold it.

/// Toggles `first` and then `second`, where that can be done: `first` makes room, or there is room for both.
// It answers what the list answers, and its clause says that this is never an error here: so callers can hand it on.
#[tactic(auto, using(toggles::proofs::Sizes::within_room))]
fn toggle_in_turn(list: &mut Toggles<u32>, first: u32, second: u32) -> Result<(), Full>
    requires rising { IsStrictlyIncreasing (present list.old) }
    requires fits { (has nat_eq (present list.old) first ≡ false) → length (present list.old) + 2 ≤ room list.old }
    ensures done { IsOk result }
    ensures shelf { SameShelf list.old list.new }
    ensures toggled { TogglesBoth (present list.old) (present list.new) first second }
{
    list.toggle(first)?;
    list.toggle(second)
}

/// Toggles two places, or neither: an error, and nothing at all is changed, just where both are new and there is no room for two.
#[tactic(auto, using(crate::proofs::StepLaws::tells_place))]
fn toggle_both(list: &mut Toggles<u32>, a: u32, b: u32) -> Result<(), Full>
    requires { IsStrictlyIncreasing (present list.old) }
    ensures shelf { SameShelf list.old list.new }
    ensures toggled { OnOk result (TogglesBoth (present list.old) (present list.new) a b) }
    ensures unchanged { OnErr result (list.new ≡ list.old) }
    ensures refused { OnErr result ((has nat_eq (present list.old) a ≡ false) × (has nat_eq (present list.old) b ≡ false) × (room list.old < length (present list.old) + 2)) }
{
    if list.has(&b) {
        return toggle_in_turn(list, b, a);
    }
    if !list.has(&a) && list.room() - list.len() < 2 {
        return Err(Full);
    }
    toggle_in_turn(list, a, b)
}

/// Changes the cells of a run, by their numbers in a box of `volume` cells, by its change places. An error, and nothing at all is changed,
/// exactly where there are too few places for those of the changed drawing.
pub(crate) fn turn_run(list: &mut Toggles<u32>, volume: u32, run: Span) -> Result<(), Full>
    requires listed { ChangePlaces volume (shown volume (present list.old)) (present list.old) }
    requires run { (run.start < run.end) × (run.end ≤ volume) }
    ensures shelf { SameShelf list.old list.new }
    ensures fits { is_ok result ≡ nat_le (changes volume (turned (shown volume (present list.old)) run.start run.end)) (room list.old) }
    ensures drawn { OnOk result (ChangePlaces volume (turned (shown volume (present list.old)) run.start run.end) (present list.new)) }
    ensures refused { OnErr result (list.new ≡ list.old) }
{
    let first = run.start as u32;
    let past = run.end as u32;
    if past < volume {
        return toggle_both(list, first, past);
    }
    list.toggle(first)
}
