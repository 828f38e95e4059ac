//! The skins of a list of triangles: the cells that they make thick, or thin, marked on a board.
#![tactic(auto)]

ghost use Rattle.std.specs.Prelude.{◌≡◌, ◌<◌, ◌≤◌, true, ◌&&◌, map, ◌==◌};
ghost use Rattle.block.specs.Drawing.{in_box};
ghost use Rattle.dense.specs.Board.{HoldsAll, edge_of};
ghost use Rattle.geometry.specs.Cells.{cell_at};
ghost use Rattle.geometry.specs.Extents.{in_span};
ghost use Rattle.geometry.specs.Read.{triangle_of};
ghost use Rattle.skins.specs.Skins.{Marked, Skinned};
ghost use Rattle.skins.specs.Coats.{made_by};

use block::{Block, Cell};
use dense::Dense;
use geometry::{Extent, Facet, Span};
use refusals::Refusal;

/// The thick skin has every cell that a triangle touches, the thin skin those near whose centre it passes along an axis.
#[derive(Clone, Copy, Debug, PartialEq, Eq)]
pub enum Skin {
    Thick,
    Thin,
}

/// The skin of one triangle.
#[derive(Clone, Copy, Debug, PartialEq, Eq)]
struct Coat {
    skin: Skin,
    facet: Facet,
}

impl Coat {
    /// Whether the cell is one of this skin.
    fn has(&self, cell: geometry::Cell) -> bool
        ensures { result ≡ made_by self.now cell.x cell.y cell.z }
    {
        // an enum and not a closure, since the contract of `mark_skin` says which skin is marked
        match self.skin {
            Skin::Thick => self.facet.makes_thick(cell),
            Skin::Thin => self.facet.makes_thin(cell),
        }
    }
}

// The board goes through these functions with the fact that it holds all drawings, `HoldsAll`. A struct of the two was tried, and is no
// plainer: each method then owes besides that the board is still the one that was lent. That a span ends in the box is asked of the spans
// that each function gets, and of the board.

/// Marks one cell, if it is one of the skin.
fn mark_cell(board: &mut Dense, coat: &Coat, cell: Cell)
    requires room { HoldsAll board.old }
    requires inside { in_box (edge_of board.old) cell.x cell.y cell.z ≡ true }
    ensures { Marked board.old board.new (λ x y z. (x == cell.x) && (y == cell.y && (z == cell.z && made_by coat.now x y z))) }
{
    let Cell { x, y, z } = cell;
    let is_in_skin = coat.has(geometry::Cell {
        // by `as`: a cell of the box has numbers below 64
        x: x as u8,
        y: y as u8,
        z: z as u8,
    });
    if is_in_skin {
        let _ = board.mark(cell);
    }
}

/// Marks the cells of the skin in a span of a row.
fn mark_row(board: &mut Dense, coat: &Coat, xs: Span, y: usize, z: usize)
    requires room { HoldsAll board.old }
    requires inside { (xs.end ≤ edge_of board.old) × (y < edge_of board.old) × (z < edge_of board.old) }
    ensures { Marked board.old board.new (λ u v w. in_span xs u && (v == y && (w == z && made_by coat.now u v w))) }
{
    for x in xs.start..xs.end {
        mark_cell(board, coat, Cell { x, y, z });
    }
}

/// Marks the cells of the skin in the rows of a layer that the extent meets.
fn mark_layer(board: &mut Dense, coat: &Coat, xs: Span, ys: Span, z: usize)
    requires room { HoldsAll board.old }
    requires inside { (xs.end ≤ edge_of board.old) × (ys.end ≤ edge_of board.old) × (z < edge_of board.old) }
    ensures { Marked board.old board.new (λ u v w. in_span xs u && (in_span ys v && (w == z && made_by coat.now u v w))) }
{
    for y in ys.start..ys.end {
        mark_row(board, coat, xs, y, z);
    }
}

/// Marks the cells of the skin in an extent.
fn mark_extent(board: &mut Dense, coat: &Coat, extent: Extent)
    requires room { HoldsAll board.old }
    requires inside { (extent.x.end ≤ edge_of board.old) × (extent.y.end ≤ edge_of board.old) × (extent.z.end ≤ edge_of board.old) }
    ensures { Marked board.old board.new (λ u v w. in_span extent.x u && (in_span extent.y v && (in_span extent.z w && made_by coat.now u v w))) }
{
    for z in extent.z.start..extent.z.end {
        mark_layer(board, coat, extent.x, extent.y, z);
    }
}

/// Marks all cells of the skin. Only those of the triangle's extent are tried: no other cell is thick, and none is thin.
fn mark_coat(board: &mut Dense, coat: &Coat)
    requires room { HoldsAll board.old }
    ensures { Marked board.old board.new (made_by coat.now) }
{
    let n = board.side().cells();
    mark_extent(board, coat, coat.facet.extent(n));
}

/// Marks on the board all cells of the skin of the triangles; a cell that was marked stays so. Refusal 3 where the board cannot hold all
/// drawings: then nothing is changed.
pub fn mark_skin(board: &mut Dense, skin: Skin, facets: &[Facet]) -> Result<(), Refusal>
    ensures { Skinned board.old skin (map triangle_of facets.now) board.new result }
{
    if !board.has_room() {
        return Err(Refusal::ShortBoard);
    }
    for &facet in facets {
        mark_coat(board, &Coat { skin, facet });
    }
    Ok(())
}
