//! The cells of the whole box, by their numbers.

use geometry::Facet;
use refusals::BoxSide;
use rows::solid_rows;
use std::alloc::{AllocError, Global};

/// Which cells of the box the triangles make solid, by cell number.
pub(crate) fn box_cells(
    heap: Global,
    facets: &[Facet],
    side: BoxSide,
) -> Result<Vec<bool>, AllocError> {
    let n = side.cells();
    let mut cells = vec![in heap; false; n * n * n]?;
    solid_rows(facets, n as u8, cells.as_mut_slice());
    Ok(cells)
}
