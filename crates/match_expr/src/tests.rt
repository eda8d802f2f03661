//! Tests of the values at a path, but for those that hold queries and tests. Nothing here takes memory.

ghost use Rattle.std.specs.Prelude.{◌≡◌, ◌||◌, ◌&&◌, length, if◌then◌else◌, nat_lt, not, pos, true};
ghost use Rattle.std.specs.Ordering.{int_eq};
ghost use Rattle.std.specs.List.{list_all, list_any};
ghost use Rattle.bson_values.specs.Tree.{null_value};
ghost use Rattle.bson_values.specs.View.{datum_of};
ghost use Rattle.query_model.specs.Holds.{compares, has_size, is_end, is_equal, is_there, null_in_gap};
ghost use Rattle.query_model.specs.Paths.{elements};
ghost use Rattle.value_compare.specs.Order.{same_value};
ghost use Rattle.match_expr.specs.Looks.{found_of, is_listed, is_ordered, passes, with_elements};

use crate::operand_list::OperandList;
use bson_values::{Array, Document, Value};
use field_paths::{Path, Visitor, any_at, gap_at};
use std::cmp::Ordering;
use value_compare::{class, compare};

/// What tests look at: the values at a path, or one value by itself.
#[derive(Drop)]
pub enum Place<'a> {
    At {
        path: &'a Path,
        document: &'a Document,
    },
    Alone(&'a Value),
}

/// Returns whether one of the values satisfies the visitor.
pub fn any_value<V: Visitor>(place: &Place, visitor: &V) -> bool
    ensures { result ≡ list_any (V.accepts visitor.now) (found_of place.now).values }
{
    match place {
        Place::At { path, document } => any_at(path, document, visitor),
        Place::Alone(value) => visitor.meets(value),
    }
}

// Returns whether there is a gap.
fn has_gap(place: &Place) -> bool
    ensures { result ≡ (found_of place.now).gap }
{
    match place {
        Place::At { path, document } => gap_at(path, document),
        Place::Alone(_) => false,
    }
}

/// How a candidate has to compare with an operand.
#[derive(Clone, Copy)]
pub enum Comparison {
    Greater,
    GreaterOrEqual,
    Less,
    LessOrEqual,
}

impl Comparison {
    // Returns whether a value that compares so with the operand passes.
    fn passes(self, order: Ordering) -> bool
        ensures { result ≡ passes self order }
    {
        match self {
            Comparison::Greater => order.is_gt(),
            Comparison::GreaterOrEqual => order.is_ge(),
            Comparison::Less => order.is_lt(),
            Comparison::LessOrEqual => order.is_le(),
        }
    }
}

// Returns whether a value is MinKey or MaxKey, which compare with values of every class.
fn is_end(value: &Value) -> bool
    ensures { result ≡ is_end (datum_of value.now) }
{
    matches!(value, Value::MinKey | Value::MaxKey)
}

// Returns whether a value equals the operand.
fn is_same(operand: &Value, value: &Value) -> bool
    ensures { result ≡ same_value (datum_of operand.now) (datum_of value.now) }
{
    compare(operand, value) == Ordering::Equal
}

// Returns whether a value is of the operand's class and compares so with it.
fn is_ordered(comparison: Comparison, operand: &Value, value: &Value) -> bool
    ensures { result ≡ is_ordered comparison (datum_of operand.now) (datum_of value.now) }
{
    (is_end(operand) || class(value) == class(operand))
        && comparison.passes(compare(value, operand))
}

// Returns whether an element equals the operand.
fn has_same(operand: &Value, array: &Array) -> bool
    ensures { result ≡ list_any (same_value (datum_of operand.now)) (elements array.now) }
{
    for value in array.values() {
        if is_same(operand, value) {
            return true;
        }
    }
    false
}

// Returns whether an element compares so with the operand.
fn has_ordered(comparison: Comparison, operand: &Value, array: &Array) -> bool
    ensures { result ≡ list_any (is_ordered comparison (datum_of operand.now)) (elements array.now) }
{
    for value in array.values() {
        if is_ordered(comparison, operand, value) {
            return true;
        }
    }
    false
}

// Whether a value, or an element of it, equals the operand.
#[derive(Drop)]
pub(crate) struct Equals<'a> {
    pub(crate) operand: &'a Value,
}

impl<'a> Visitor for Equals<'a> {
    ghost accepts = { λ s d. with_elements (same_value (datum_of s.operand.now)) d };

    fn meets(&self, value: &Value) -> bool {
        is_same(self.operand, value)
            || match value {
                Value::Array(array) => has_same(self.operand, array),
                _ => false,
            }
    }
}

// Whether a value, or an element of it, compares so with the operand.
#[derive(Drop)]
struct Ordered<'a> {
    comparison: Comparison,
    operand: &'a Value,
}

impl<'a> Visitor for Ordered<'a> {
    ghost accepts = { λ s d. with_elements (is_ordered s.comparison (datum_of s.operand.now)) d };

    fn meets(&self, value: &Value) -> bool {
        is_ordered(self.comparison, self.operand, value)
            || match value {
                Value::Array(array) => has_ordered(self.comparison, self.operand, array),
                _ => false,
            }
    }
}

// Returns whether the operand is null and there is a gap.
fn null_in_gap(operand: &Value, place: &Place) -> bool
    ensures { result ≡ null_in_gap (datum_of operand.now) (found_of place.now) }
{
    matches!(operand, Value::Null) && has_gap(place)
}

// Returns whether a candidate equals the operand.
#[tactic(auto, using(crate::proofs::Candidates::at_path, bson_model::proofs::Booleans::or_false))]
fn any_same(operand: &Value, place: &Place) -> bool
    ensures { result ≡ list_any (same_value (datum_of operand.now)) (found_of place.now).candidates }
{
    match place {
        Place::At { path, document } => any_at(path, document, &Equals { operand }),
        Place::Alone(value) => is_same(operand, value),
    }
}

/// Returns whether what is there equals a value.
pub fn is_equal(operand: &Value, place: &Place) -> bool
    ensures { result ≡ is_equal (datum_of operand.now) (found_of place.now) }
{
    any_same(operand, place) || null_in_gap(operand, place)
}

/// Returns whether what is there compares so with a value.
#[tactic(auto, using(crate::proofs::Candidates::at_path, bson_model::proofs::Booleans::or_false))]
pub fn compares(comparison: Comparison, operand: &Value, place: &Place) -> bool
    ensures { result ≡ compares (passes comparison) (datum_of operand.now) (found_of place.now) }
{
    match place {
        Place::At { path, document } => any_at(
            path,
            document,
            &Ordered {
                comparison,
                operand,
            },
        ),
        Place::Alone(value) => is_ordered(comparison, operand, value),
    }
}

/// Returns the same, or whether both are null.
pub fn compares_or_null(comparison: Comparison, operand: &Value, place: &Place) -> bool
    ensures { result ≡ (compares (passes comparison) (datum_of operand.now) (found_of place.now) || null_in_gap (datum_of operand.now) (found_of place.now)) }
{
    compares(comparison, operand, place) || null_in_gap(operand, place)
}

// Returns whether an element equals one of the operands.
fn has_listed(operands: &OperandList, array: &Array) -> bool
    ensures { result ≡ list_any (is_listed operands.now) (elements array.now) }
{
    for value in array.values() {
        if operands.contains(value) {
            return true;
        }
    }
    false
}

// Whether a value, or an element of it, equals one of the operands.
#[derive(Drop)]
struct Listed<'a> {
    operands: &'a OperandList,
}

impl<'a> Visitor for Listed<'a> {
    ghost accepts = { λ s d. with_elements (is_listed s.operands.now) d };

    fn meets(&self, value: &Value) -> bool {
        self.operands.contains(value)
            || match value {
                Value::Array(array) => has_listed(self.operands, array),
                _ => false,
            }
    }
}

// Returns whether a candidate equals one of the operands.
#[tactic(auto, using(crate::proofs::Candidates::at_path, bson_model::proofs::Booleans::or_false))]
fn any_listed(operands: &OperandList, place: &Place) -> bool
    ensures { result ≡ list_any (is_listed operands.now) (found_of place.now).candidates }
{
    match place {
        Place::At { path, document } => any_at(path, document, &Listed { operands }),
        Place::Alone(value) => operands.contains(value),
    }
}

// Returns whether null is one of the operands and there is a gap.
fn null_listed_in_gap(operands: &OperandList, place: &Place) -> bool
    ensures { result ≡ (is_listed operands.now null_value && (found_of place.now).gap) }
{
    operands.contains(&Value::Null) && has_gap(place)
}

/// Returns whether what is there equals one of the values. Each candidate is looked for among them by halving.
pub fn equals_one(operands: &OperandList, place: &Place) -> bool
    ensures { result ≡ list_any (λ x. is_equal x (found_of place.now)) (elements operands.now) }
{
    any_listed(operands, place) || null_listed_in_gap(operands, place)
}

/// Returns whether what is there equals each of the values, of which there is one at least.
#[tactic(auto, using(crate::proofs::Candidates::count_elements))]
pub fn equals_all(operands: &Array, place: &Place) -> bool
    ensures { result ≡ (nat_lt 0 (length (elements operands.now)) && list_all (λ x. is_equal x (found_of place.now)) (elements operands.now)) }
{
    for operand in operands.values() {
        if !is_equal(operand, place) {
            return false;
        }
    }
    !operands.is_empty()
}

// Whether a value is an array of so many elements.
#[derive(Drop)]
struct OfSize(i64);

impl Visitor for OfSize {
    ghost accepts = { λ s d. has_size s.0 d };

    #[tactic(auto, using(crate::proofs::Candidates::count_elements))]
    fn meets(&self, value: &Value) -> bool {
        match value {
            Value::Array(array) => is_count(array.len(), self.0),
            _ => false,
        }
    }
}

// Returns whether a count is this number.
fn is_count(count: usize, n: i64) -> bool
    ensures { result ≡ int_eq (pos count) n }
{
    match usize::try_from(n) {
        Ok(n) => count == n,
        Err(_) => false,
    }
}

/// Returns whether one of the values is an array of so many elements.
pub fn has_size(n: i64, place: &Place) -> bool
    ensures { result ≡ list_any (has_size n) (found_of place.now).values }
{
    any_value(place, &OfSize(n))
}

/// Returns whether there is a value, or, where none is expected, whether there is none.
pub fn exists(expected: bool, place: &Place) -> bool
    ensures { result ≡ (if expected then is_there (found_of place.now) else not (is_there (found_of place.now))) }
{
    if expected {
        is_there(place)
    } else {
        !is_there(place)
    }
}

// Any value.
#[derive(Drop)]
struct Any;

impl Visitor for Any {
    ghost accepts = { λ s d. true };

    fn meets(&self, _value: &Value) -> bool {
        true
    }
}

// Returns whether there is a value.
#[tactic(auto, using(crate::proofs::Candidates::any_is_there))]
fn is_there(place: &Place) -> bool
    ensures { result ≡ is_there (found_of place.now) }
{
    any_value(place, &Any)
}
