//! Accumulated values, and how they absorb more values.

ghost use Rattle.std.specs.Prelude.{◌≡◌, ◌∷◌, IfOk, List, OnOk, map};
ghost use Rattle.std.specs.Ordering.{is_lt};
ghost use Rattle.bson_values.specs.View.{datum_of};
ghost use Rattle.query_model.specs.Holds.{is_null};
ghost use Rattle.value_model.specs.Order.{order};
ghost use Rattle.pipeline_model.specs.GroupSpecs as model;
ghost use Rattle.pipeline_model.specs.GroupSpecs.{count_accumulator, extreme_accumulator, sum_accumulator};
ghost use Rattle.pipeline_model.specs.Groups as groups;
ghost use Rattle.pipeline_model.specs.Operands as operands;
ghost use Rattle.pipeline_model.specs.SortKeys.{directed};
ghost use Rattle.pipeline_model.proofs.Absorbed.{absorb, absorb_row, better, empty_cell, empty_row};
ghost use Rattle.group_accum.specs.View.{accumulator_of, cell_of, direction_of, group_field_of};

use crate::spec::{Accumulator, Extreme, GroupField, GroupSpec};
use bson_values::{Memory, Value};
use std::alloc::Global;
use std::collections::VecDeque;
use std::mem;
use value_compare::compare;

/// The state of an accumulator.
#[derive(Drop)]
pub(crate) enum Cell {
    /// The exact sum, and whether each number in it is an int32.
    Sum { total: i128, narrow: bool },
    Count(u64),
    /// Null where there is no value.
    Extreme(Value),
}

fn is_null(value: &Value) -> bool
    ensures { result ≡ is_null (datum_of value.now) }
{
    matches!(value, Value::Null)
}

// Returns whether a value replaces the one that is kept.
fn is_better(extreme: Extreme, value: &Value, kept: &Value) -> bool
    ensures { result ≡ is_lt (directed (direction_of extreme) order (datum_of value.now) (datum_of kept.now)) }
{
    match extreme {
        Extreme::Least => compare(value, kept).is_lt(),
        Extreme::Greatest => compare(kept, value).is_lt(),
    }
}

// Returns the better of the value that is kept and another one. Null counts as no value.
fn better(extreme: Extreme, kept: Value, value: Value) -> Value
    ensures { datum_of result ≡ better (direction_of extreme) (datum_of kept) (datum_of value) }
{
    if is_null(&value) {
        return kept;
    }
    if is_null(&kept) || is_better(extreme, &value, &kept) {
        return value;
    }
    kept
}

// The cell of a sum absorbs another; one of another form adds nothing. A sum outside 128 bits, which no number of documents that can be counted reaches, is
// returned as `Memory`.
fn absorb_sum(kept: Cell, cell: Cell) -> Result<Cell, Memory>
    ensures { IfOk result (λ c. (x : operands.Operand) → cell_of c ≡ absorb (sum_accumulator x) (cell_of kept) (cell_of cell)) }
{
    match kept {
        Cell::Sum { total, narrow } => match cell {
            Cell::Sum {
                total: more,
                narrow: also,
            } => match total.checked_add(more) {
                Some(total) => Ok(Cell::Sum {
                    total,
                    narrow: narrow && also,
                }),
                None => Err(Memory),
            },
            Cell::Count(_) => Ok(Cell::Sum { total, narrow }),
            Cell::Extreme(_) => Ok(Cell::Sum { total, narrow }),
        },
        Cell::Count(n) => Ok(Cell::Count(n)),
        Cell::Extreme(value) => Ok(Cell::Extreme(value)),
    }
}

// The cell of a count absorbs another; one of another form adds nothing.
fn absorb_count(kept: Cell, cell: Cell) -> Result<Cell, Memory>
    ensures { IfOk result (λ c. cell_of c ≡ absorb count_accumulator (cell_of kept) (cell_of cell)) }
{
    match kept {
        Cell::Count(n) => match cell {
            Cell::Count(m) => match n.checked_add(m) {
                Some(sum) => Ok(Cell::Count(sum)),
                None => Err(Memory),
            },
            Cell::Sum { .. } => Ok(Cell::Count(n)),
            Cell::Extreme(_) => Ok(Cell::Count(n)),
        },
        Cell::Sum { total, narrow } => Ok(Cell::Sum { total, narrow }),
        Cell::Extreme(value) => Ok(Cell::Extreme(value)),
    }
}

// The cell of a minimum or maximum absorbs another; one of another form adds nothing.
fn absorb_extreme(extreme: Extreme, kept: Cell, cell: Cell) -> Cell
    ensures { (x : operands.Operand) → cell_of result ≡ absorb (extreme_accumulator (direction_of extreme) x) (cell_of kept) (cell_of cell) }
{
    match kept {
        Cell::Extreme(value) => match cell {
            Cell::Extreme(more) => Cell::Extreme(better(extreme, value, more)),
            Cell::Sum { .. } => Cell::Extreme(value),
            Cell::Count(_) => Cell::Extreme(value),
        },
        Cell::Sum { total, narrow } => Cell::Sum { total, narrow },
        Cell::Count(n) => Cell::Count(n),
    }
}

// The cell of a field absorbs another. Returns `Memory` if memory runs out.
fn absorb(accumulator: &Accumulator, kept: Cell, cell: Cell) -> Result<Cell, Memory>
    ensures { IfOk result (λ c. cell_of c ≡ absorb (accumulator_of accumulator.now) (cell_of kept) (cell_of cell)) }
{
    match accumulator {
        Accumulator::Sum(_) => absorb_sum(kept, cell),
        Accumulator::Count => absorb_count(kept, cell),
        Accumulator::Extreme {
            extreme,
            operand: _,
        } => Ok(absorb_extreme(*extreme, kept, cell)),
    }
}

// The cell of a field absorbs the next one of another row, if there is one. Returns `Memory` if memory runs out.
fn absorb_next(field: &GroupField, kept: Cell, cells: &mut VecDeque<Cell>) -> Result<Cell, Memory>
    ensures { IfOk result (λ c. (fields : List model.GroupField) (others : List groups.Cell) →
        absorb_row (group_field_of field.now ∷ fields) (cell_of kept ∷ others) (map cell_of cells.old.items)
        ≡ cell_of c ∷ absorb_row fields others (map cell_of cells.new.items)) }
{
    match cells.pop_front() {
        Some(cell) => absorb(&field.accumulator, kept, cell),
        None => Ok(kept),
    }
}

// Returns the cells of a row after they absorbed those of another, or `Memory` if memory runs out.
fn absorb_all(
    alloc: Global,
    fields: &[GroupField],
    kept: Vec<Cell>,
    cells: Vec<Cell>,
) -> Result<Vec<Cell>, Memory>
    ensures { IfOk result (λ cs. map cell_of cs.items ≡ absorb_row (map group_field_of fields.now) (map cell_of kept.items) (map cell_of cells.items)) }
{
    let mut absorbed = Vec::with_capacity(alloc, fields.len())?;
    let mut own = VecDeque::from(kept);
    let mut more = VecDeque::from(cells);
    for field in fields {
        let Some(before) = own.pop_front() else {
            return Ok(absorbed);
        };
        let cell = absorb_next(field, before, &mut more)?;
        absorbed.push(cell)?;
    }
    Ok(absorbed)
}

/// The cells of a row absorb those of another. Returns `Memory` if memory runs out; then cells are lost.
pub(crate) fn absorb_row(
    alloc: Global,
    spec: &GroupSpec,
    kept: &mut Vec<Cell>,
    cells: Vec<Cell>,
) -> Result<(), Memory>
    ensures { OnOk result (map cell_of kept.new.items ≡ absorb_row spec.now.fields (map cell_of kept.old.items) (map cell_of cells.items)) }
{
    let before = mem::replace(kept, Vec::new(alloc));
    *kept = absorb_all(alloc, spec.fields(), before, cells)?;
    Ok(())
}

// Returns the cell of an accumulator that has no value yet.
fn empty_cell(accumulator: &Accumulator) -> Cell
    ensures { cell_of result ≡ empty_cell (accumulator_of accumulator.now) }
{
    match accumulator {
        Accumulator::Sum(_) => Cell::Sum {
            total: 0,
            narrow: true,
        },
        Accumulator::Count => Cell::Count(0),
        Accumulator::Extreme { .. } => Cell::Extreme(Value::Null),
    }
}

/// Returns the cells of a row without documents, or `Memory` if memory runs out.
pub(crate) fn empty_row(alloc: Global, fields: &[GroupField]) -> Result<Vec<Cell>, Memory>
    ensures { IfOk result (λ cs. map cell_of cs.items ≡ empty_row (map group_field_of fields.now)) }
{
    let mut cells = Vec::with_capacity(alloc, fields.len())?;
    for field in fields {
        cells.push(empty_cell(&field.accumulator))?;
    }
    Ok(cells)
}
