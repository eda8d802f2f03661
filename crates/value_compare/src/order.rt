//! Which of two values is less. Nothing here takes memory.

ghost use Rattle.std.specs.Prelude.{◌≡◌, ◌∷◌, length};
ghost use Rattle.std.specs.Cmp.Lexicographic.{slice_cmp};
ghost use Rattle.std.specs.Ordering.{nat_cmp, ordering_then};
ghost use Rattle.value_model.specs.Tree.{field, Fields};
ghost use Rattle.bson_values.specs.View.{datum_of};
ghost use Rattle.value_model.specs.Order.{class_of, order, order_items, order_fields, order_scalars, order_within, scalar_of};

use bson_values::{Array, Document, Field, Value};
use std::cmp::Ordering;

/// Returns the class of a value, from 0 for the least: values of two classes compare by them alone (MongoDB manual,
/// "Comparison/Sort Order").
pub fn class(value: &Value) -> u8
    ensures { result ≡ class_of (datum_of value.now) }
{
    match value {
        Value::MinKey => 0,
        Value::Null => 1,
        Value::Int32(_) | Value::Int64(_) => 2,
        Value::Text(_) => 3,
        Value::Doc(_) => 4,
        Value::Array(_) => 5,
        Value::Binary { .. } => 6,
        Value::ObjectId(_) => 7,
        Value::Bool(_) => 8,
        Value::Date(_) => 9,
        Value::Timestamp(_) => 10,
        Value::MaxKey => 11,
    }
}

/// Returns which of two values is less, by class and then within it (MongoDB manual, "Comparison/Sort Order"). Documents compare field
/// by field, by the value's class, the name and then the value.
#[cycle(order)]
pub fn compare(a: &Value, b: &Value) -> Ordering
    ensures { result ≡ order (datum_of a.now) (datum_of b.now) }
{
    match (a, b) {
        // Most keys are of these types, and most comparisons are of keys.
        (Value::ObjectId(a), Value::ObjectId(b)) => a.content.as_slice().cmp(b.content.as_slice()),
        (Value::Int32(a), Value::Int32(b)) => a.content.cmp(&b.content),
        _ => compare_by_class(a, b),
    }
}

// Two values of any classes.
#[cycle(order)]
fn compare_by_class(a: &Value, b: &Value) -> Ordering
    ensures { result ≡ order (datum_of a.now) (datum_of b.now) }
{
    match class(a).cmp(&class(b)) {
        Ordering::Equal => compare_within(a, b),
        apart => apart,
    }
}

// Two values of one class.
#[cycle(order)]
fn compare_within(a: &Value, b: &Value) -> Ordering
    requires { class_of (datum_of a.now) ≡ class_of (datum_of b.now) }
    ensures { result ≡ order_within (datum_of a.now) (datum_of b.now) }
{
    match (a, b) {
        (Value::Doc(a), Value::Doc(b)) => compare_documents(a, b),
        (Value::Array(a), Value::Array(b)) => compare_arrays(a, b),
        _ => compare_scalars(a, b),
    }
}

// Two values of one class, by what they are without values inside.
fn compare_scalars(a: &Value, b: &Value) -> Ordering
    requires { class_of (datum_of a.now) ≡ class_of (datum_of b.now) }
    ensures { result ≡ order_scalars (scalar_of (datum_of a.now)) (scalar_of (datum_of b.now)) }
{
    match (a, b) {
        (Value::Int32(a), Value::Int32(b)) => a.content.cmp(&b.content),
        (Value::Int32(a), Value::Int64(b)) => i64::from(a.content).cmp(b),
        (Value::Int64(a), Value::Int32(b)) => a.cmp(&i64::from(b.content)),
        (Value::Int64(a), Value::Int64(b)) => a.cmp(b),
        (Value::Text(a), Value::Text(b)) => a.as_str().cmp(b.as_str()),
        (
            Value::Binary { subtype, bytes },
            Value::Binary {
                subtype: other,
                bytes: others,
            },
        ) => compare_binaries(*subtype, bytes.as_slice(), *other, others.as_slice()),
        (Value::ObjectId(a), Value::ObjectId(b)) => a.content.as_slice().cmp(b.content.as_slice()),
        (Value::Bool(a), Value::Bool(b)) => a.content.cmp(&b.content),
        (Value::Date(a), Value::Date(b)) => a.cmp(b),
        (Value::Timestamp(a), Value::Timestamp(b)) => a.cmp(b),
        _ => Ordering::Equal,
    }
}

// Two binaries, by length, subtype and bytes.
fn compare_binaries(subtype: u8, bytes: &[u8], other: u8, others: &[u8]) -> Ordering
    ensures { result ≡ slice_cmp nat_cmp (length bytes.now ∷ subtype ∷ bytes.now) (length others.now ∷ other ∷ others.now) }
{
    let of_one_length = subtype.cmp(&other).then(bytes.cmp(others));
    bytes.len().cmp(&others.len()).then(of_one_length)
}

// Two documents; where the fields of one begin the other, the shorter is less.
#[cycle(order)]
fn compare_documents(a: &Document, b: &Document) -> Ordering
    ensures { result ≡ order_fields a.now b.now }
{
    let mut others = b.fields().iter();
    for field in a.fields() {
        let Some(other) = others.next() else {
            return Ordering::Greater;
        };
        match compare_field(field, other) {
            Ordering::Equal => {}
            apart => return apart,
        }
    }
    if others.next().is_some() {
        Ordering::Less
    } else {
        Ordering::Equal
    }
}

// Two fields, by the value's class, the name and the value.
#[cycle(order)]
fn compare_field(a: &Field, b: &Field) -> Ordering
    ensures { (ms ns : Fields) → order_fields (field a.now.name (datum_of a.now.value) ms) (field b.now.name (datum_of b.now.value) ns) ≡ ordering_then result (order_fields ms ns) }
{
    let apart = class(&a.value)
        .cmp(&class(&b.value))
        .then(a.name.as_str().cmp(b.name.as_str()));
    match apart {
        Ordering::Equal => compare_within(&a.value, &b.value),
        apart => apart,
    }
}

// Two arrays, value by value; where the values of one begin the other, the shorter is less.
#[cycle(order)]
fn compare_arrays(a: &Array, b: &Array) -> Ordering
    ensures { result ≡ order_items a.now b.now }
{
    let mut others = b.values().iter();
    for value in a.values() {
        let Some(other) = others.next() else {
            return Ordering::Greater;
        };
        match compare(value, other) {
            Ordering::Equal => {}
            apart => return apart,
        }
    }
    if others.next().is_some() {
        Ordering::Less
    } else {
        Ordering::Equal
    }
}
