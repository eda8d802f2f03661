//! The part of a sort key for one path, and the order of parts.

ghost use Rattle.std.specs.Prelude.{◌≡◌};
ghost use Rattle.pipeline_model.specs.SortKeys.{directed, order_parts, part_rank, part_value};
ghost use Rattle.sort_keys.specs.View.{direction_of, part_of, part_seen};
ghost use Rattle.value_model.specs.Order.{order};

use crate::parser::Direction;
use bson_values::Value;
use std::cmp::Ordering;
use value_compare::compare;

/// The part of a sort key for one path.
#[derive(Drop)]
pub enum KeyPart {
    /// The mark of an empty array, above MinKey and below all other values.
    EmptyArray,
    Value(Value),
}

/// The same, borrowed from a document.
#[derive(Clone, Copy)]
pub enum Part<'a> {
    EmptyArray,
    Value(&'a Value),
}

impl KeyPart {
    // The same, borrowed.
    pub(crate) fn as_part(&self) -> Part<'_>
        ensures { part_seen result ≡ part_of self.now }
    {
        match self {
            KeyPart::EmptyArray => Part::EmptyArray,
            KeyPart::Value(value) => Part::Value(value),
        }
    }
}

// The rank of MinKey, the mark, and all other values.
fn rank(part: Part<'_>) -> u8
    ensures { result ≡ part_rank (part_seen part.entry) }
{
    match part {
        Part::EmptyArray => 1,
        Part::Value(value) => { if matches!(value, Value::MinKey) { 0 } else { 2 } }
    }
}

// Compares two parts of one rank.
fn compare_within(a: Part<'_>, b: Part<'_>) -> Ordering
    requires { part_rank (part_seen a) ≡ part_rank (part_seen b) }
    ensures { result ≡ order (part_value (part_seen a.entry)) (part_value (part_seen b.entry)) }
{
    match (a, b) {
        (Part::Value(a), Part::Value(b)) => compare(a, b),
        _ => Ordering::Equal,
    }
}

// Compares two parts.
fn compare_parts(a: Part<'_>, b: Part<'_>) -> Ordering
    ensures { result ≡ order_parts (part_seen a.entry) (part_seen b.entry) }
{
    match rank(a).cmp(&rank(b)) {
        Ordering::Equal => compare_within(a, b),
        apart => apart,
    }
}

/// Compares two parts in a direction.
pub fn compare_directed(direction: Direction, a: Part<'_>, b: Part<'_>) -> Ordering
    ensures { result ≡ directed (direction_of direction) order_parts (part_seen a.entry) (part_seen b.entry) }
{
    match direction {
        Direction::Ascending => compare_parts(a, b),
        Direction::Descending => compare_parts(b, a),
    }
}
