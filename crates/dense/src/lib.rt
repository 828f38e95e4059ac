//! The dense board: a block that keeps a bit for each cell, in bytes that it is lent.
#![tactic(auto)]

ghost use Rattle.std.specs.Prelude.{◌≡◌, ◌↔◌, ℕ, ◌<◌, ◌≤◌, ⊤, Bool, true, false, IsTrue, is_ok, if◌then◌else◌};
ghost use Rattle.refusals.specs.BoxSides.{cells_of};
ghost use Rattle.block.specs.Drawing.{blank, number, refusal_of, turned};
ghost use Rattle.dense.specs.Board.{HoldsAll, Kept, Tied, bytes_of, drawing_of, edge_of, fits_in, volume_of};
ghost use Rattle.dense.specs.Cells.{BlankIn, enough, room, wiped};
ghost use Rattle.dense.specs.Laws.{blank_fits, shown_fits, shown_within};
ghost use Rattle.dense.specs.Ties.{tied_on, tied_same};
ghost use Rattle.dense.specs.Marks.{mark_refusal, marked};

use block::{Block, Cell, Run};
use geometry::Span;
use refusals::{BoxSide, Refusal};

mod bits;
mod places;

use bits::{fill_cell, is_set, turn_run, wipe};
use places::is_enough;

/// A board of N × N × N cells over any number of lent bytes. Cell i is bit i mod 8, the lowest first, of byte i div 8. All drawings fit if
/// there are N × N × N / 8 bytes or more, else the blank drawing alone.
#[derive(Debug, Drop)]
pub struct Dense<'a> {
    side: BoxSide,
    cells: &'a mut [u8],
}

impl<'a> Dense<'a> {
    /// A blank board. Where the bytes are enough, 0 is written into the first N × N × N / 8; where they are fewer, none is touched.
    #[tactic(auto, using(crate::proofs::ShownLaws::room_same, crate::proofs::ShownLaws::wiped_blank))]
    pub fn new(side: BoxSide, cells: &'a mut [u8]) -> Dense<'a>
        ensures edge { edge_of result ≡ cells_of side }
        ensures loan { result.cells.ghost_name ≡ cells.entry.ghost_name }
        ensures bytes { bytes_of result ≡ wiped (cells_of side) cells.old }
        ensures blank { drawing_of result ≡ blank }
        ensures fits { fits_in result ≡ room (cells_of side) cells.old }
    {
        wipe(cells, side);
        Dense { side, cells }
    }

    /// Whether all drawings fit; where they do not, just the drawings fit that are blank in the box.
    #[tactic(auto, using(crate::proofs::ShownLaws::enough_decides, crate::proofs::ShownLaws::short_decides))]
    pub fn has_room(&self) -> bool
        ensures bytes { result ≡ enough (edge_of self.now) (bytes_of self.now) }
        ensures all { IsTrue result ↔ HoldsAll self.now }
        ensures blank { result ≡ false → (d : ℕ → Bool) → IsTrue (fits_in self.now d) ↔ BlankIn (edge_of self.now) d }
    {
        is_enough(self.side, self.cells.len())
    }

    /// Makes a cell solid, whatever it was. Refusal 1 where the cell lies outside the box, else 12 where the marked drawing does not fit;
    /// a refused mark changes nothing. The bytes that no cell lies in stay as they were.
    #[tactic(auto, using(crate::proofs::ShownLaws::tied_kept))]
    pub fn mark(&mut self, cell: Cell) -> Result<(), Refusal>
        ensures kept { Kept self.old self.new }
        ensures refused { refusal_of result ≡ mark_refusal (edge_of self.old) (fits_in self.old) (drawing_of self.old) cell }
        ensures drawn { drawing_of self.new ≡ (if is_ok result then marked (drawing_of self.old) (number (edge_of self.old) cell.x cell.y cell.z) else drawing_of self.old) }
        ensures unchanged { is_ok result ≡ false → bytes_of self.new ≡ bytes_of self.old }
    {
        let k = cell.number_in(self.side.cells()).ok_or(Refusal::OffBox)?;
        if !self.takes_mark(k) {
            return Err(Refusal::NoSand);
        }
        self.fill(k);
        Ok(())
    }

    // A mark and a flip have the same steps. They stay apart: a step is a line, and what it does to the drawing (`marked`, `turned`) is said
    // of each; one function for both would take the operation and both definitions as parameters. That a cell's number is below the volume,
    // and what room there is, is asked and told in each: it is said of the board and the number together, so no type of one can hold it.

    /// Whether the drawing fits with cell `k` marked.
    #[tactic(auto, using(crate::proofs::ShownLaws::fits_marked))]
    fn takes_mark(&self, k: usize) -> bool
        requires { k < volume_of self.now }
        ensures fits { result ≡ fits_in self.now (marked (drawing_of self.now) k) }
        ensures bytes { result ≡ enough (edge_of self.now) (bytes_of self.now) }
    {
        self.has_room()
    }

    /// Whether the drawing fits with the cells of a run changed, by their numbers.
    #[tactic(auto, using(crate::proofs::ShownLaws::fits_turned))]
    fn takes_run(&self, run: Span) -> bool
        requires { (run.start < run.end) × (run.end ≤ volume_of self.now) }
        ensures fits { result ≡ fits_in self.now (turned (drawing_of self.now) run.start run.end) }
        ensures bytes { result ≡ enough (edge_of self.now) (bytes_of self.now) }
    {
        self.has_room()
    }

    /// Makes cell `k` solid.
    #[tactic(auto, using(crate::proofs::BitLaws::cells_filled, crate::proofs::ShownLaws::shown_marked))]
    fn fill(&mut self, k: usize)
        requires room { enough (edge_of self.old) (bytes_of self.old) ≡ true }
        requires within { k < volume_of self.old }
        ensures same_loans { Tied self.old self.new }
        ensures drawn { drawing_of self.new ≡ marked (drawing_of self.old) k }
    {
        fill_cell(self.cells, k);
    }

    /// Changes the cells of a run, by their numbers.
    #[tactic(auto, using(crate::proofs::ShownLaws::shown_turned))]
    fn change(&mut self, run: Span)
        requires room { enough (edge_of self.old) (bytes_of self.old) ≡ true }
        requires within { (run.start ≤ run.end) × (run.end ≤ volume_of self.old) }
        ensures same_loans { Tied self.old self.new }
        ensures drawn { drawing_of self.new ≡ turned (drawing_of self.old) run.start run.end }
    {
        turn_run(self.cells, run);
    }

    /// Whether cell `k` is solid.
    #[tactic(auto, using(crate::specs::Laws::short_shown, crate::proofs::ShownLaws::shown_in))]
    fn is_solid(&self, k: usize) -> bool
        requires { k < volume_of self.now }
        ensures { result ≡ drawing_of self.now k }
    {
        self.has_room() && is_set(self.cells, k)
    }
}

impl<'a> Block for Dense<'a> {
    ghost edge = { edge_of };

    ghost drawing = { drawing_of };

    ghost fits = { fits_in };

    /// Nothing more: a board has one of the six sides by its type.
    ghost sound = { λ _. ⊤ };

    /// The lent bytes are the same ones, and those that no cell lies in are as they were.
    ghost ties = { Tied };

    ghost ties_same = { tied_same };

    ghost ties_on = { tied_on };

    ghost blank_fits = { λ b. blank_fits (edge_of b) (bytes_of b) };

    ghost present_fits = { λ b _. shown_fits (edge_of b) (bytes_of b) };

    ghost within = { λ b _. shown_within (edge_of b) (bytes_of b) };

    fn side(&self) -> BoxSide {
        self.side
    }

    fn look(&self, cell: Cell) -> Result<bool, Refusal> {
        let k = cell.number_in(self.side.cells()).ok_or(Refusal::OffBox)?;
        Ok(self.is_solid(k))
    }

    #[tactic(auto, using(crate::proofs::ShownLaws::tied_kept))]
    fn flip(&mut self, run: Run) -> Result<(), Refusal> {
        let numbers = run.numbers_in(self.side.cells()).ok_or(Refusal::OffBox)?;
        if !self.takes_run(numbers) {
            return Err(Refusal::NoSand);
        }
        self.change(numbers);
        Ok(())
    }
}
