//! The document of each row, or that a sum overflows.

ghost use Rattle.std.specs.Prelude.{◌≡◌, ◌∷◌, map, option_map};
ghost use Rattle.bson_model.specs.Tree.{joined};
ghost use Rattle.bson_values.specs.View.{datum_of};
ghost use Rattle.pipeline_model.specs.Groups.{count_cell, fits_in, row_document, shown, shown_fields, sum_cell};
ghost use Rattle.group_accum.specs.ShowResults.{Shows};
ghost use Rattle.group_accum.specs.View.{cell_of, group_field_of};

use crate::absorb::Cell;
use crate::fault::GroupFault;
use crate::key::GroupKey;
use crate::spec::{GroupField, GroupSpec};
use bson_values::{Aligned, Document, Name, Value};
use std::alloc::Global;
use std::collections::VecDeque;

fn fits_int32(total: i128) -> bool
    ensures { result ≡ fits_in 31 total }
{
    -0x8000_0000 <= total && total < 0x8000_0000
}

fn fits_int64(total: i128) -> bool
    ensures { result ≡ fits_in 63 total }
{
    -0x8000_0000_0000_0000 <= total && total < 0x8000_0000_0000_0000
}

// Returns the value of a sum: an int32 where each number was and it fits, else an int64. Returns `Overflow` where it fits neither.
fn shown_sum(total: i128, narrow: bool) -> Result<Value, GroupFault>
    ensures shows { Shows datum_of result (shown (sum_cell total narrow)) }
{
    if narrow && fits_int32(total) {
        return Ok(Value::Int32(Aligned::of(total as i32)));
    }
    if fits_int64(total) {
        return Ok(Value::Int64(total as i64));
    }
    Err(GroupFault::Overflow)
}

// Returns the value of a count: an int32 where it fits, else an int64; `Memory` for a number of documents outside int64.
fn shown_count(count: u64) -> Result<Value, GroupFault>
    ensures shows { Shows datum_of result (shown (count_cell count)) }
{
    if count < 0x8000_0000 {
        return Ok(Value::Int32(Aligned::of(count as i32)));
    }
    if count < 0x8000_0000_0000_0000 {
        return Ok(Value::Int64(count as i64));
    }
    Err(GroupFault::Memory)
}

// Returns the value of a cell.
fn shown_cell(cell: Cell) -> Result<Value, GroupFault>
    ensures shows { Shows datum_of result (shown (cell_of cell)) }
{
    match cell {
        Cell::Sum { total, narrow } => shown_sum(total, narrow),
        Cell::Count(count) => shown_count(count),
        Cell::Extreme(value) => Ok(value),
    }
}

// Appends the fields of a row to a document.
fn shown_fields(
    fields: &[GroupField],
    cells: Vec<Cell>,
    document: Document,
) -> Result<Document, GroupFault>
    ensures shows { Shows (λ d. d) result (option_map (joined document) (shown_fields (map group_field_of fields.now) (map cell_of cells.items))) }
{
    let mut shown = document;
    let mut rest = VecDeque::from(cells);
    for field in fields {
        match rest.pop_front() {
            Some(cell) => {
                let value = shown_cell(cell)?;
                let name = field.name.copy()?;
                shown.push(name, value)?;
            }
            None => return Ok(shown),
        }
    }
    Ok(shown)
}

/// Returns the document of a row, `_id` first.
pub(crate) fn shown_row(
    alloc: Global,
    spec: &GroupSpec,
    key: GroupKey,
    cells: Vec<Cell>,
) -> Result<Document, GroupFault>
    ensures shows { Shows (λ d. d) result (row_document spec.now (record { key = key; cells = map cell_of cells.items })) }
{
    let mut document = Document::new(alloc);
    let name = Name::of(alloc, "_id")?;
    document.push(name, key.into_value())?;
    shown_fields(spec.fields(), cells, document)
}
