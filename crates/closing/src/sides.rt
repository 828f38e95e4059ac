//! The sides of a triangle, toggled in a list of loose sides.
ghost use Rattle.std.specs.Prelude.{◌≡◌, ◌+◌, ◌<◌, ◌≤◌, Bool, List, [], ◌∷◌, ◌++◌, OnErr, OnOk};
ghost use Rattle.toggles.specs.Present.{SameShelf, present, room, size};
ghost use Rattle.closing.specs.Holds.{Holds, Lists, toggled_at};
ghost use Rattle.closing.specs.Order.{side_between};

use geometry::{Point, Side, Triangle};
use std::cmp::Ordering;
use toggles::{Full, Toggles};

/// The side between two points, the lesser end first, or none where they are one point.
fn side_between(p: Point, q: Point) -> Option<Side>
    ensures { result ≡ side_between p q }
{
    match p.cmp(&q) {
        Ordering::Less => Some(Side { low: p, high: q }),
        Ordering::Equal => None,
        Ordering::Greater => Some(Side { low: q, high: p }),
    }
}

/// Toggles the side between two points, if they are not one point.
fn toggle_side(loose: &mut Toggles<Side>, p: Point, q: Point) -> Result<(), Full>
    ensures shelf { SameShelf loose.old loose.new }
    ensures grows { size loose.new ≤ size loose.old + 1 }
    ensures refused { OnErr result (size loose.old ≡ room loose.old) }
    ensures lists { (f : Point → Point → Bool) → Lists (present loose.old) f → OnOk result (Lists (present loose.new) (toggled_at p q f)) }
{
    match side_between(p, q) {
        Some(side) => loose.toggle(side),
        None => Ok(()),
    }
}

/// Toggles the three sides of `t` among the loose sides, each with the lesser end first; one with equal ends does not count. An error
/// where there was no room for one of them.
pub fn toggle_sides(loose: &mut Toggles<Side>, t: Triangle) -> Result<(), Full>
    ensures shelf { SameShelf loose.old loose.new }
    ensures grows { size loose.new ≤ size loose.old + 3 }
    ensures refused { OnErr result (room loose.old < size loose.old + 3) }
    ensures holds { (ts : List Triangle) → Holds (present loose.old) ts → OnOk result (Holds (present loose.new) (ts ++ t ∷ [])) }
{
    toggle_side(loose, t.v0, t.v1)?;
    toggle_side(loose, t.v1, t.v2)?;
    toggle_side(loose, t.v2, t.v0)
}
