//! The part that comes first of all parts that a document has at a path.

ghost use Rattle.std.specs.Prelude.{◌≡◌, ◌∷◌, [], IfOk, None, Some, flat_map, map, unwrap_or};
ghost use Rattle.bson_model.specs.Tree.{null_value};
ghost use Rattle.bson_values.specs.View.{datum_of};
ghost use Rattle.field_paths.specs.References.{seen};
ghost use Rattle.pipeline_model.specs.SortKeys.{directed, key_part, null_if, order_parts, parts_of_value, value_part};
ghost use Rattle.query_model.specs.Paths.{elements};
ghost use Rattle.sort_keys.specs.FirstPart.{best_of};
ghost use Rattle.sort_keys.specs.View.{best_seen, direction_of, field_of, part_of, part_seen};

use crate::parser::{Direction, SortField};
use crate::parts::{KeyPart, Part, compare_directed};
use bson_values::{Array, Document, Memory, Value};
use field_paths::{gap_at, values_at};
use std::alloc::Global;
use std::cmp::Ordering;

// Returns the first of the best part found, if any, and one more part.
fn with_part<'a>(direction: Direction, best: Option<Part<'a>>, part: Part<'a>) -> Part<'a>
    ensures { Some (part_seen result) ≡ best_of (directed (direction_of direction) order_parts) (best_seen best.entry) (part_seen part.entry ∷ []) }
{
    let Some(first) = best else {
        return part;
    };
    match compare_directed(direction, part, first) {
        Ordering::Less => part,
        Ordering::Equal | Ordering::Greater => first,
    }
}

// The same with the elements of an array.
fn with_elements<'a>(
    direction: Direction,
    start: Option<Part<'a>>,
    array: &'a Array,
) -> Option<Part<'a>>
    ensures { best_seen result ≡ best_of (directed (direction_of direction) order_parts) (best_seen start.entry) (map value_part (elements array.now)) }
{
    let mut best = start;
    for value in array.values() {
        best = Some(with_part(direction, best, Part::Value(value)));
    }
    best
}

// The same with a value at the path.
#[tactic(auto, using(crate::proofs::Firsts::some_elements, crate::proofs::Firsts::no_elements))]
fn with_value<'a>(
    direction: Direction,
    best: Option<Part<'a>>,
    value: &'a Value,
) -> Option<Part<'a>>
    ensures { best_seen result ≡ best_of (directed (direction_of direction) order_parts) (best_seen best.entry) (parts_of_value (datum_of value.now)) }
{
    match value {
        Value::Array(array) => {
            if array.is_empty() {
                Some(with_part(direction, best, Part::EmptyArray))
            } else {
                with_elements(direction, best, array)
            }
        }
        _ => Some(with_part(direction, best, Part::Value(value))),
    }
}

// The same with null, where there is a gap.
fn with_gap<'a>(
    direction: Direction,
    best: Option<Part<'a>>,
    has_gap: bool,
    null: &'a Value,
) -> Option<Part<'a>>
    requires { datum_of null.now ≡ null_value }
    ensures { best_seen result ≡ best_of (directed (direction_of direction) order_parts) (best_seen best.entry) (null_if has_gap) }
{
    if has_gap {
        Some(with_part(direction, best, Part::Value(null)))
    } else {
        best
    }
}

// Returns an owned copy of the part, or null where there is none.
fn kept(best: Option<Part<'_>>) -> Result<KeyPart, Memory>
    ensures { IfOk result (λ p. part_of p ≡ unwrap_or (best_seen best.entry) (value_part null_value)) }
{
    match best {
        Some(Part::EmptyArray) => Ok(KeyPart::EmptyArray),
        Some(Part::Value(value)) => Ok(KeyPart::Value(value.copy()?)),
        None => Ok(KeyPart::Value(Value::Null)),
    }
}

// Returns the part that comes first among the values.
fn first_among<'a>(direction: Direction, values: &[&'a Value]) -> Option<Part<'a>>
    ensures { best_seen result ≡ best_of (directed (direction_of direction) order_parts) None (flat_map parts_of_value (seen values.now)) }
{
    let mut best = None;
    for value in values {
        best = with_value(direction, best, value);
    }
    best
}

/// Returns the part of the sort key for one path: the first in its direction of the values at the path, where each array is replaced by its elements, and of
/// null where there is a gap; null where there is no value. Returns `Memory` if memory runs out.
pub fn key_part(alloc: Global, field: &SortField, document: &Document) -> Result<KeyPart, Memory>
    ensures { IfOk result (λ p. part_of p ≡ key_part (field_of field.now) document.now) }
{
    let null = Value::Null;
    let values = values_at(alloc, &field.path, document)?;
    let best = first_among(field.direction, &values);
    let has_gap = gap_at(&field.path, document);
    kept(with_gap(field.direction, best, has_gap, &null))
}
