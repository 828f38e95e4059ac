//! A block: a box of cells, each solid or empty, stored in some way. What a block means is said once, here; the kinds of block show that
//! they mean it, and everything above them is written for any block.
#![tactic(auto)]

ghost use Rattle.std.specs.Prelude.{◌≡◌, ℕ, ◌*◌, ◌≤◌, Bool, true, false, is_ok, if◌then◌else◌};
ghost use Rattle.refusals.specs.BoxSides.{cells_of};
ghost use Rattle.block.specs.Drawing.{blank, changed, flip_refusal, looked, refusal_of};
ghost use Rattle.block.specs.Keeps.{Keeps};

use refusals::{BoxSide, Refusal};

pub mod cells;

pub use cells::{Cell, Run};

/// A box of cells, each solid or empty.
pub trait Block {
    /// How many cells the box has along each axis.
    ghost edge: { Self → ℕ };

    /// Which cells are solid, by their number x + N y + N N z.
    ghost drawing: { Self → ℕ → Bool };

    /// Whether the block can hold a drawing. It and the side are settled when the block is made.
    ghost fits: { Self → (ℕ → Bool) → Bool };

    /// What making gives, and every call may count on and keeps.
    ghost sound: { Self → Type 0 };

    /// The second holds the same lent memory as the first, so that whoever lent it finds in it what the block last wrote.
    ghost ties: { Self → Self → Type 0 };

    /// So it is with a block and itself.
    ghost ties_same: { (b : Self) → ties b b };

    /// And so it is over several calls.
    ghost ties_on: { (a b c : Self) → ties a b → ties b c → ties a c };

    /// The blank drawing fits in every block.
    ghost blank_fits: { (b : Self) → fits b blank ≡ true };

    /// The present drawing fits at all times.
    ghost present_fits: { (b : Self) → sound b → fits b (drawing b) ≡ true };

    /// No cell outside the box is solid.
    ghost within: { (b : Self) → sound b → (k : ℕ) → edge b * edge b * edge b ≤ k → drawing b k ≡ false };

    /// The side of the box.
    fn side(&self) -> BoxSide
        requires { sound self.now }
        ensures { cells_of result ≡ edge self.now };

    /// Whether a cell is solid, or refusal 1 where it lies outside the box.
    fn look(&self, cell: Cell) -> Result<bool, Refusal>
        requires { sound self.now }
        ensures { result ≡ looked (edge self.now) (drawing self.now) cell };

    /// Changes the cells of a run: the empty ones become solid, and the solid ones empty. Refusal 1 where the row lies outside the box or
    /// start < end ≤ N does not hold, else 12 where the changed drawing does not fit; a refused flip changes nothing.
    fn flip(&mut self, run: Run) -> Result<(), Refusal>
        requires { sound self.old }
        ensures kept { Keeps sound ties edge fits self.old self.new }
        ensures refused { refusal_of result ≡ flip_refusal (edge self.old) (fits self.old) (drawing self.old) run }
        ensures drawn { drawing self.new ≡ (if is_ok result then changed (edge self.old) (drawing self.old) run else drawing self.old) };
}
