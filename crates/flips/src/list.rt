//! Lists of flips, made one after the other, and made again from the last to the first.

ghost use Rattle.std.specs.Prelude.{◌≡◌, ℕ, Bool, true, Some, None, is_ok, if◌then◌else◌};
ghost use Rattle.refusals.specs.declared.Refusal.TheVariants.{NoSand};
ghost use Rattle.block.specs.Drawing.{refusal_of};
ghost use Rattle.block.specs.Keeps.{Keeps};
ghost use Rattle.flips.specs.Drawn.{drawn, all_fit, InBox};

use block::{Block, Run};
use refusals::Refusal;

/// Makes the flips again, the last first: the drawing before them comes back.
pub fn undo_flips<B: Block>(block: &mut B, flips: &[Run])
    requires sound { B.sound block.old }
    requires in_box { InBox (B.edge block.old) flips.now }
    ensures kept { Keeps B.sound B.ties B.edge B.fits block.old block.new }
    ensures back { (d : ℕ → Bool) → B.fits block.old d ≡ true → all_fit (B.edge block.old) (B.fits block.old) d flips.now ≡ true → B.drawing block.old ≡ drawn (B.edge block.old) d flips.now → B.drawing block.new ≡ d }
{
    // by place, and not over `flips.iter().rev()`: the planted bugs of undoing change the places, and so meet the fact that fails
    for i in (0..flips.len()).rev() {
        let _ = block.flip(flips[i]);
    }
}

/// Makes the flips in order, where every drawing on the way fits. Where one does not, the refusal is 12, the flips before it are made again,
/// the last first, and the drawing is as it was.
pub fn make_flips<B: Block>(block: &mut B, flips: &[Run]) -> Result<(), Refusal>
    requires sound { B.sound block.old }
    requires in_box { InBox (B.edge block.old) flips.now }
    ensures kept { Keeps B.sound B.ties B.edge B.fits block.old block.new }
    ensures refused { refusal_of result ≡ (if all_fit (B.edge block.old) (B.fits block.old) (B.drawing block.old) flips.now then None else Some NoSand) }
    ensures drawn { B.drawing block.new ≡ (if is_ok result then drawn (B.edge block.old) (B.drawing block.old) flips.now else B.drawing block.old) }
{
    for (made, flip) in flips.iter().enumerate() {
        if let Err(why) = block.flip(*flip) {
            undo_flips(block, &flips[..made]);
            return Err(why);
        }
    }
    Ok(())
}
