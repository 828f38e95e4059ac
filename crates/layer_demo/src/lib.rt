//! A layer over any block, which is a block itself, and a function over any block that is used with and without it.
#![tactic(auto)]

ghost use Rattle.std.specs.Prelude.{◌≡◌, ◌+◌, ◌-◌, ◌^◌, min, is_ok, if◌then◌else◌};
ghost use Rattle.refusals.specs.BoxSides.{cells_of};
ghost use Rattle.block.specs.Drawing.{blank, changed, flip_refusal, refusal_of};
ghost use Rattle.block.specs.Keeps.{Keeps};
ghost use Rattle.dense.specs.Cells.{room, shown};
ghost use Rattle.layer_demo.specs.Turn.{turn_answer};

use block::{Block, Cell, Run};
use dense::Dense;
use refusals::{BoxSide, Refusal};

/// A layer that owns the block below, passes every call on to it, and counts the flips that were made.
#[derive(Debug, Drop)]
pub struct Counted<B> {
    below: B,
    flips: u64,
}

impl<B: Block> Counted<B> {
    /// The layer over a block, with no flip counted.
    pub fn new(below: B) -> Counted<B>
        ensures below { result.below ≡ below }
        ensures flips { result.flips ≡ 0 }
    {
        Counted { below, flips: 0 }
    }

    /// The block below, and how many flips were made through the layer; the count stays at the highest number.
    pub fn into_parts(self) -> (B, u64)
        ensures { result ≡ (self.below, self.flips) }
    {
        let Counted { below, flips } = self;
        (below, flips)
    }
}

impl<B: Block> Block for Counted<B> {
    ghost edge = { λ s. B.edge s.below };

    ghost drawing = { λ s. B.drawing s.below };

    ghost fits = { λ s. B.fits s.below };

    ghost sound = { λ s. B.sound s.below };

    ghost ties = { λ s t. B.ties s.below t.below };

    ghost ties_same = { λ s. B.ties_same s.below };

    ghost ties_on = { λ s t u. B.ties_on s.below t.below u.below };

    ghost blank_fits = { λ s. B.blank_fits s.below };

    ghost present_fits = { λ s. B.present_fits s.below };

    ghost within = { λ s. B.within s.below };

    fn side(&self) -> BoxSide {
        self.below.side()
    }

    fn look(&self, cell: Cell) -> Result<bool, Refusal> {
        self.below.look(cell)
    }

    fn flip(&mut self, run: Run) -> Result<(), Refusal>
        requires { B.sound self.old.below }
        ensures kept { Keeps B.sound B.ties B.edge B.fits self.old.below self.new.below }
        ensures refused { refusal_of result ≡ flip_refusal (B.edge self.old.below) (B.fits self.old.below) (B.drawing self.old.below) run }
        ensures drawn { B.drawing self.new.below ≡ (if is_ok result then changed (B.edge self.old.below) (B.drawing self.old.below) run else B.drawing self.old.below) }
        ensures counted { self.new.flips ≡ (if is_ok result then min (self.old.flips + 1) (2 ^ 64 - 1) else self.old.flips) }
    {
        self.below.flip(run)?;
        self.flips = self.flips.saturating_add(1);
        Ok(())
    }
}

/// Changes a run of a block, and answers whether its first cell is solid then. The refusals are those of `flip`.
pub fn turn<B: Block>(block: &mut B, run: Run) -> Result<bool, Refusal>
    requires { B.sound block.old }
    ensures kept { Keeps B.sound B.ties B.edge B.fits block.old block.new }
    ensures answer { result ≡ turn_answer (B.edge block.old) (B.fits block.old) (B.drawing block.old) run }
    ensures drawn { B.drawing block.new ≡ (if is_ok result then changed (B.edge block.old) (B.drawing block.old) run else B.drawing block.old) }
{
    block.flip(run)?;
    let Run { y, z, start, .. } = run;
    block.look(Cell { x: start, y, z })
}

/// Changes a run of a new dense board, straight. The lender finds the changed drawing in the bytes.
pub fn turn_dense(side: BoxSide, cells: &mut [u8], run: Run) -> Result<bool, Refusal>
    ensures answer { result ≡ turn_answer (cells_of side) (room (cells_of side) cells.old) blank run }
    ensures drawn { shown (cells_of side) cells.new ≡ (if is_ok result then changed (cells_of side) blank run else blank) }
{
    let mut board = Dense::new(side, cells);
    turn(&mut board, run)
}

/// Changes a run of a new dense board through two layers: the answer is the same.
pub fn turn_layers(side: BoxSide, cells: &mut [u8], run: Run) -> Result<bool, Refusal>
    ensures { result ≡ turn_answer (cells_of side) (room (cells_of side) cells.old) blank run }
{
    let mut layers = Counted::new(Counted::new(Dense::new(side, cells)));
    turn(&mut layers, run)
}

#[cfg(test)]
mod tests {
    use super::*;

    // The cells from `start` up to, and without, `end` of the row (y, z); as in the tests of the octree, for the reason told there.
    fn run(y: usize, z: usize, start: usize, end: usize) -> Run {
        Run { y, z, start, end }
    }

    #[test]
    fn answers_are_the_same(rt: HostRuntime) {
        let side = BoxSide::Four;
        let mut bytes = [255u8; 9];
        assert_eq!(rt; turn_dense(side, &mut bytes, run(1, 0, 2, 4)), Ok(true));
        assert_eq!(rt; bytes[0], 192);
        assert_eq!(rt; bytes[8], 255);
        assert_eq!(rt;
            turn_layers(side, &mut bytes, run(1, 0, 2, 5)),
            Err(Refusal::OffBox)
        );
        assert_eq!(rt;
            turn_layers(side, &mut bytes[0..7], run(1, 0, 2, 4)),
            Err(Refusal::NoSand)
        );
    }

    #[test]
    fn flips_are_counted(rt: HostRuntime) {
        let mut bytes = [0u8; 8];
        let mut layer = Counted::new(Dense::new(BoxSide::Four, &mut bytes));
        let _ = layer.flip(run(0, 0, 0, 4));
        let _ = layer.flip(run(0, 0, 0, 5));
        let _ = layer.flip(run(0, 0, 1, 2));
        let (mut board, flips) = layer.into_parts();
        let cell = Cell { x: 1, y: 0, z: 0 };
        assert_eq!(rt; flips, 2);
        assert_eq!(rt; board.look(cell), Ok(false));
        let _ = board.mark(cell);
        let _ = board.mark(cell);
        assert_eq!(rt; board.look(cell), Ok(true));
    }
}
