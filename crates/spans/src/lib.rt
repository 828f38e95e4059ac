//! The span block: a block that keeps the change places of its drawing, the numbers of the cells that differ from the cell before them, in
//! places that it is lent.
#![tactic(auto)]

ghost use Rattle.std.specs.Prelude.{◌≡◌, ◌<◌, ◌≤◌, [], is_ok, length, if◌then◌else◌};
ghost use Rattle.refusals.specs.BoxSides.{cells_of};
ghost use Rattle.block.specs.Drawing.{blank, turned};
ghost use Rattle.spans.specs.Changes.{ChangePlaces, suffice};
ghost use Rattle.spans.specs.Laws.{blank_fits, kept_fits, shown_within, tied_on, tied_same};
ghost use Rattle.spans.specs.Meaning.{Kept, Sound, Tied, drawing_of, edge_of, fits_in, lent_to, places_of, volume_of};

use block::{Block, Cell, Run};
use geometry::Span;
use refusals::{BoxSide, Refusal};
use toggles::{Full, Toggles};

mod places;

use places::{cell_count, count_upto, turn_run};

/// A block of N × N × N cells over any number of lent places. It keeps the change places of its drawing: the numbers i < N × N × N whose
/// cell differs from cell i - 1, where the cell before 0 counts as empty. A drawing fits if it has at most as many as there are places lent.
#[derive(Debug, Drop)]
pub struct Spans<'a> {
    side: BoxSide,
    list: Toggles<'a, u32>,
}

impl<'a> Spans<'a> {
    /// A blank block. It keeps no place, and nothing is written.
    #[tactic(auto, using(crate::proofs::CallLaws::none_blank))]
    pub fn new(side: BoxSide, places: &'a mut [u32]) -> Spans<'a>
        ensures sound { Sound result }
        ensures edge { edge_of result ≡ cells_of side }
        ensures loan { result.list.keys.ghost_name ≡ places.entry.ghost_name }
        ensures untouched { lent_to result ≡ places.old }
        ensures none { places_of result ≡ [] }
        ensures blank { drawing_of result ≡ blank }
        ensures fits { fits_in result ≡ suffice (cells_of side) (length places.old) }
    {
        let list = Toggles::new(places);
        Spans { side, list }
    }

    /// The change places of the drawing, in rising order. They stand at the front of the lent slice; what stands behind them means nothing.
    pub fn places(&self) -> &[u32]
        ensures front { result.now ≡ places_of self.now }
        ensures exact { Sound self.now → ChangePlaces (volume_of self.now) (drawing_of self.now) result.now }
    {
        self.list.present()
    }

    /// Whether cell `k` is solid.
    #[tactic(auto, using(crate::proofs::CallLaws::odd_shown))]
    fn is_solid(&self, k: usize) -> bool
        requires sound { Sound self.now }
        requires within { k < volume_of self.now }
        ensures { result ≡ drawing_of self.now k }
    {
        count_upto(self.places(), k as u32) % 2 == 1
    }

    /// Changes the cells of a run, by their numbers. An error, and nothing is changed, exactly where the changed drawing does not fit.
    #[tactic(auto, using(crate::proofs::CallLaws::change_listed, crate::proofs::CallLaws::change_shown))]
    fn change(&mut self, run: Span) -> Result<(), Full>
        requires sound { Sound self.old }
        requires within { (run.start < run.end) × (run.end ≤ volume_of self.old) }
        ensures kept { Kept self.old self.new }
        ensures fits { is_ok result ≡ fits_in self.old (turned (drawing_of self.old) run.start run.end) }
        ensures drawn { drawing_of self.new ≡ (if is_ok result then turned (drawing_of self.old) run.start run.end else drawing_of self.old) }
    {
        turn_run(&mut self.list, cell_count(self.side), run)
    }
}

impl<'a> Block for Spans<'a> {
    ghost edge = { edge_of };

    ghost drawing = { drawing_of };

    ghost fits = { fits_in };

    ghost sound = { Sound };

    /// The lent places are the same ones, as many as before.
    ghost ties = { Tied };

    ghost ties_same = { tied_same };

    ghost ties_on = { tied_on };

    ghost blank_fits = { blank_fits };

    ghost present_fits = { kept_fits };

    ghost within = { λ b _. shown_within (volume_of b) (places_of b) };

    fn side(&self) -> BoxSide {
        self.side
    }

    fn look(&self, cell: Cell) -> Result<bool, Refusal> {
        let k = cell.number_in(self.side.cells()).ok_or(Refusal::OffBox)?;
        Ok(self.is_solid(k))
    }

    fn flip(&mut self, run: Run) -> Result<(), Refusal> {
        let numbers = run.numbers_in(self.side.cells()).ok_or(Refusal::OffBox)?;
        self.change(numbers).map_err(|_| Refusal::NoSand)
    }
}
