//! The row of one document.

ghost use Rattle.std.specs.Prelude.{◌≡◌, IfOk, Some, map, option_map, unwrap_or};
ghost use Rattle.bson_model.specs.Tree.{null_value};
ghost use Rattle.bson_values.specs.View.{datum_of};
ghost use Rattle.pipeline_model.specs.Groups.{own_cell, own_row, summand};
ghost use Rattle.pipeline_model.specs.Operands.{value_of};
ghost use Rattle.group_accum.specs.View.{accumulator_of, cell_of, group_field_of, operand_of};

use crate::absorb::Cell;
use crate::key::GroupKey;
use crate::spec::{Accumulator, GroupField, GroupSpec, Operand};
use bson_values::{Document, Memory, Value};
use projection::value_at;
use std::alloc::Global;

// Returns the value of an operand in a document. Returns `Memory` if memory runs out.
fn value_of(alloc: Global, operand: &Operand, document: &Document) -> Result<Option<Value>, Memory>
    ensures { IfOk result (λ v. option_map datum_of v ≡ value_of (operand_of operand.now) document.now) }
{
    match operand {
        Operand::Path(path) => value_at(alloc, path, document),
        Operand::Constant(value) => Ok(Some(value.copy()?)),
    }
}

// The same, or null where there is none.
fn value_or_null(alloc: Global, operand: &Operand, document: &Document) -> Result<Value, Memory>
    ensures { IfOk result (λ v. datum_of v ≡ unwrap_or (value_of (operand_of operand.now) document.now) null_value) }
{
    match value_of(alloc, operand, document)? {
        Some(value) => Ok(value),
        None => Ok(Value::Null),
    }
}

// Returns the summand that a value is; a value that is not a number adds nothing.
fn summand_of(value: &Value) -> Cell
    ensures { cell_of result ≡ summand (Some (datum_of value.now)) }
{
    match value {
        Value::Int32(n) => Cell::Sum {
            total: i128::from(n.content),
            narrow: true,
        },
        Value::Int64(n) => Cell::Sum {
            total: i128::from(*n),
            narrow: false,
        },
        _ => Cell::Sum {
            total: 0,
            narrow: true,
        },
    }
}

// The same, where there is a value.
fn summand(value: &Option<Value>) -> Cell
    ensures { cell_of result ≡ summand (option_map datum_of value.now) }
{
    match value {
        Some(value) => summand_of(value),
        None => Cell::Sum {
            total: 0,
            narrow: true,
        },
    }
}

// Returns the cell of an accumulator for one document, or `Memory` if memory runs out.
fn own_cell(alloc: Global, accumulator: &Accumulator, document: &Document) -> Result<Cell, Memory>
    ensures { IfOk result (λ c. cell_of c ≡ own_cell (accumulator_of accumulator.now) document.now) }
{
    match accumulator {
        Accumulator::Sum(operand) => {
            let value = value_of(alloc, operand, document)?;
            Ok(summand(&value))
        }
        Accumulator::Count => Ok(Cell::Count(1)),
        Accumulator::Extreme {
            extreme: _,
            operand,
        } => {
            let value = value_or_null(alloc, operand, document)?;
            Ok(Cell::Extreme(value))
        }
    }
}

// Returns the cell of each accumulator for one document, or `Memory` if memory runs out.
fn own_cells(alloc: Global, fields: &[GroupField], document: &Document) -> Result<Vec<Cell>, Memory>
    ensures { IfOk result (λ cs. map cell_of cs.items ≡ map (λ f. own_cell f.accumulator document.now) (map group_field_of fields.now)) }
{
    let mut cells = Vec::with_capacity(alloc, fields.len())?;
    for field in fields {
        let cell = own_cell(alloc, &field.accumulator, document)?;
        cells.push(cell)?;
    }
    Ok(cells)
}

/// Returns the row of one document: its key and its cells. Returns `Memory` if memory runs out.
pub(crate) fn own_row(
    alloc: Global,
    spec: &GroupSpec,
    document: &Document,
) -> Result<(GroupKey, Vec<Cell>), Memory>
    ensures { IfOk result (λ row. record { key = row.0; cells = map cell_of row.1.items } ≡ own_row spec.now document.now) }
{
    let key = value_or_null(alloc, spec.key(), document)?;
    let cells = own_cells(alloc, spec.fields(), document)?;
    Ok((GroupKey::of(key), cells))
}
