//! The check of a whole list of triangles.
ghost use Rattle.std.specs.Prelude.{◌≡◌, length};
ghost use Rattle.closing.specs.Means.{Means};
ghost use Rattle.closing.specs.declared.check.Leak.TheVariants.{ShortShelf};

use crate::sides::toggle_sides;
use geometry::{Side, Triangle};
use std::error::Error;
use std::fmt;
use toggles::{Full, Toggles};

/// Why the sides of a list of triangles are not known to close.
#[derive(Clone, Copy, Debug, PartialEq, Eq)]
pub enum Leak {
    /// They do not close: an odd number of sides join the two ends of this one, the lesser of which is `low`.
    Odd(Side),
    /// There is no telling: the shelf has fewer than three places for each triangle.
    ShortShelf,
}

impl fmt::Display for Leak {
    fn fmt<W: fmt::Write>(&self, f: &mut fmt::Formatter<W>) -> fmt::Result {
        f.write_str(match self {
            Leak::Odd(_) => "an odd number of sides join two points",
            Leak::ShortShelf => "the shelf is too short to tell",
        })
    }
}

impl Error for Leak {}

impl From<Full> for Leak {
    ghost from_gives = { λ _ leak. leak ≡ ShortShelf };

    fn from(_: Full) -> Leak {
        Leak::ShortShelf
    }
}

/// Whether the sides of the triangles close: no two different points are joined by an odd number of them. The shelf lends the places to
/// tell, three for each triangle; what it holds is written over.
pub fn check_sides(triangles: &[Triangle], shelf: &mut [Side]) -> Result<(), Leak>
    ensures { Means triangles.now (length shelf.old) result }
{
    if shelf.len() / 3 < triangles.len() {
        return Err(Leak::ShortShelf);
    }
    let mut loose = Toggles::new(shelf);
    for t in triangles {
        // never full, with three places for each triangle
        toggle_sides(&mut loose, *t)?;
    }
    match loose.get(0) {
        Some(side) => Err(Leak::Odd(side)),
        None => Ok(()),
    }
}
