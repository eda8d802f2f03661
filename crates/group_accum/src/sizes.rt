//! The number of bytes of the rows of a part.

ghost use Rattle.std.specs.Prelude.{◌≡◌, length, map, sum_by};
ghost use Rattle.bson_model.specs.Spelling.{written_value};
ghost use Rattle.bson_values.specs.View.{datum_of};
ghost use Rattle.pipeline_model.specs.Lengths.{cell_length, row_length};
ghost use Rattle.group_accum.specs.Rows.{rows_of};
ghost use Rattle.group_accum.specs.Sizes.{capped};
ghost use Rattle.group_accum.specs.View.{cell_of};

use crate::absorb::Cell;
use crate::key::GroupKey;
use std::collections::BTreeMap;

/// The bytes of a document of one field in addition to the field's name and value.
const FRAME: usize = 7;

// Returns the number of bytes of a cell when it is sent, or the greatest `usize` where that is less.
#[tactic(auto, using(crate::proofs::RowBytes::extreme_bytes))]
fn cell_size(cell: &Cell) -> usize
    ensures { result ≡ capped (cell_length (cell_of cell.now)) }
{
    match cell {
        Cell::Sum { .. } => 16,
        Cell::Count(_) => 16,
        Cell::Extreme(value) => value.size().saturating_add(FRAME + 1),
    }
}

// Returns the number of bytes of the cells of a row, or the greatest `usize` where that is less.
fn cells_size(cells: &[Cell]) -> usize
    ensures { result ≡ capped (sum_by cell_length (map cell_of cells.now)) }
{
    let mut size = 0usize;
    for cell in cells {
        size = size.saturating_add(cell_size(cell));
    }
    size
}

// Returns the number of bytes of a row when it is sent, or the greatest `usize` where that is less.
#[tactic(auto, using(crate::proofs::RowBytes::key_bytes))]
fn row_size(key: &GroupKey, cells: &[Cell]) -> usize
    ensures { result ≡ capped (row_length (record { key = key.now; cells = map cell_of cells.now })) }
{
    let key = key.value().size().saturating_add(FRAME + 3);
    key.saturating_add(cells_size(cells))
}

/// Returns the number of bytes of rows when they are sent, or the greatest `usize` where that is less.
pub(crate) fn rows_size(rows: &BTreeMap<GroupKey, Vec<Cell>>) -> usize
    ensures { result ≡ capped (sum_by row_length (rows_of rows.now.entries)) }
{
    let mut size = 0usize;
    for (key, cells) in rows {
        size = size.saturating_add(row_size(key, cells));
    }
    size
}
