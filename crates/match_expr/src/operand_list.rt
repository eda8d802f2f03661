//! The operands of `$in` and `$nin`, to be looked for (MongoDB manual, "$in": the list may be long).

ghost use Rattle.std.specs.Prelude.{◌≡◌, IfOk, map};
ghost use Rattle.std.specs.List.{list_any};
ghost use Rattle.bson_values.specs.View.{datum_of};
ghost use Rattle.query_model.specs.Paths.{elements};
ghost use Rattle.value_compare.specs.Order.{same_value};

use bson_values::{Array, Memory, Value};
use std::alloc::Global;
use std::marker::Model;
use value_compare::compare;

/// A list of operands, as it was listed, and a copy of it in the order of values. Contracts see it as it was listed.
#[derive(Drop)]
pub struct OperandList {
    listed: Array,
    sorted: Vec<Value>,
}

impl Model for OperandList {
    ghost use Rattle.std.specs.Prelude.{map};
    ghost use Rattle.std.specs.List.Sorted.{IsPermutation, IsSortedByKey};
    ghost use Rattle.bson_values.specs.Code.{items_code};
    ghost use Rattle.bson_values.specs.Tree.{Items};
    ghost use Rattle.bson_values.specs.View.{datum_of};
    ghost use Rattle.query_model.specs.Paths.{elements};
    ghost use Rattle.value_compare.specs.Order.{order};

    ghost Value = { Items };

    ghost coded = { items_code };

    ghost view = { λ o. o.listed };

    ghost invariant = { λ o. IsSortedByKey (λ v. datum_of v) order o.sorted.items × IsPermutation (elements o.listed) (map (λ v. datum_of v) o.sorted.items) };
}

impl OperandList {
    /// Returns the values of an array, or `Memory` if memory runs out.
    pub fn of(alloc: Global, array: &Array) -> Result<OperandList, Memory>
        ensures { IfOk result (λ o. o ≡ array.now) }
    {
        let listed = array.copy()?;
        let mut sorted = copies(alloc, array)?;
        sorted.sort_unstable_by(|a, b| compare(a, b));
        Ok(OperandList { listed, sorted })
    }

    /// Returns the operands as they were listed.
    pub fn listed(&self) -> &Array
        ensures { result.now ≡ self.now }
    {
        &self.listed
    }

    /// Returns whether one of the operands equals a value: a search by halving.
    pub fn contains(&self, value: &Value) -> bool
        ensures { result ≡ list_any (λ x. same_value x (datum_of value.now)) (elements self.now) }
    {
        self.sorted
            .binary_search_by(|operand| compare(operand, value))
            .is_ok()
    }
}

// Returns the values of an array, or `Memory` if memory runs out.
fn copies(alloc: Global, array: &Array) -> Result<Vec<Value>, Memory>
    ensures { IfOk result (λ s. map (λ v. datum_of v) s.items ≡ elements array.now) }
{
    let mut copies = Vec::with_capacity(alloc, array.len())?;
    for value in array.values() {
        copies.push(value.copy()?)?;
    }
    Ok(copies)
}
