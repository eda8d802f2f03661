//! Copies of keys and cells.

ghost use Rattle.std.specs.Prelude.{◌≡◌, IfOk};
ghost use Rattle.bson_values.specs.View.{datum_of};

use crate::absorb::Cell;
use crate::key::GroupKey;
use bson_values::{Memory, Value};
use std::alloc::AllocError;
use std::clone::Clone;

// A copy of the value.
fn copy_value(value: &Value) -> Result<Value, AllocError>
    ensures { IfOk result (λ copy. datum_of copy ≡ datum_of value.now) }
{
    match value.copy() {
        Ok(copy) => Ok(copy),
        Err(Memory) => Err(AllocError),
    }
}

impl Clone for GroupKey {
    ghost is_clone = { λ key copy. copy ≡ key };

    fn clone(&self) -> Result<GroupKey, AllocError> {
        Ok(GroupKey::of(copy_value(self.value())?))
    }
}

impl Clone for Cell {
    ghost use Rattle.group_accum.specs.View.{cell_of};

    ghost is_clone = { λ cell copy. cell_of copy ≡ cell_of cell };

    fn clone(&self) -> Result<Cell, AllocError> {
        match self {
            Cell::Sum { total, narrow } => Ok(Cell::Sum {
                total: *total,
                narrow: *narrow,
            }),
            Cell::Count(n) => Ok(Cell::Count(*n)),
            Cell::Extreme(value) => Ok(Cell::Extreme(copy_value(value)?)),
        }
    }
}
