//! Ranges of keys, and single keys (MongoDB manual, "Data Partitioning with Chunks").

ghost use Rattle.std.specs.Prelude.{◌≡◌, ◌≢◌, ◌↔◌, IfOk, IfSome, None};
ghost use Rattle.std.specs.declared.cmp.Ordering.TheVariants.{Less};
ghost use Rattle.value_model.specs.Keys.{IsRange, inside, key_bound, order_bounds, range_span};
ghost use Rattle.bson_values.specs.View.{datum_of};
ghost use Rattle.value_compare.specs.Bounds.{bound_of};
ghost use Rattle.value_compare.specs.Spans.{span_of};

use crate::key::Key;
use crate::order::compare;
use bson_values::{Memory, Value};
use std::cmp::Ordering;
use std::marker::Model;

/// Where a range begins or ends.
#[derive(Drop)]
pub enum Bound {
    /// Below all keys.
    MinKey,
    /// At a key.
    At(Key),
    /// Above all keys.
    MaxKey,
}

impl Bound {
    /// Returns which of two bounds is less.
    pub fn compare(&self, other: &Bound) -> Ordering
        ensures { result ≡ order_bounds (bound_of self.now) (bound_of other.now) }
    {
        match other {
            Bound::At(key) => self.compare_to_value(key.value()),
            Bound::MinKey => match self {
                Bound::MinKey => Ordering::Equal,
                Bound::At(key) => {
                    let _key = key.value();
                    Ordering::Greater
                }
                Bound::MaxKey => Ordering::Greater,
            },
            Bound::MaxKey => match self {
                Bound::MaxKey => Ordering::Equal,
                Bound::At(key) => {
                    let _key = key.value();
                    Ordering::Less
                }
                Bound::MinKey => Ordering::Less,
            },
        }
    }

    /// Returns which of this bound and one at the key is less.
    pub fn compare_to_key(&self, key: &Key) -> Ordering
        ensures { result ≡ order_bounds (bound_of self.now) (key_bound key.now) }
    {
        self.compare_to_value(key.value())
    }

    // Returns which of this bound and one at the value is less.
    fn compare_to_value(&self, value: &Value) -> Ordering
        ensures { result ≡ order_bounds (bound_of self.now) (key_bound (datum_of value.now)) }
    {
        match self {
            Bound::MinKey => compare(&Value::MinKey, value),
            Bound::At(bound) => compare(bound.value(), value),
            Bound::MaxKey => compare(&Value::MaxKey, value),
        }
    }

    /// Returns a copy of the bound, or `Memory` if memory runs out.
    pub fn copy(&self) -> Result<Bound, Memory>
        ensures { IfOk result (λ b. bound_of b ≡ bound_of self.now) }
    {
        match self {
            Bound::MinKey => Ok(Bound::MinKey),
            Bound::At(key) => Ok(Bound::At(key.copy()?)),
            Bound::MaxKey => Ok(Bound::MaxKey),
        }
    }
}

/// The keys from a bound, which is inside, to a greater one, which is not.
#[derive(Drop)]
pub struct KeyRange {
    min: Bound,
    max: Bound,
}

impl Model for KeyRange {
    ghost use Rattle.value_model.specs.Keys.{IsRange, Range};
    ghost use Rattle.value_compare.specs.Code.{range_code};

    ghost Value = { Range };

    ghost coded = { range_code };

    ghost use Rattle.value_compare.specs.Bounds.{bound_of};

    ghost view = { λ r. record { min = bound_of r.min; max = bound_of r.max } };

    ghost invariant = { λ r. IsRange (record { min = bound_of r.min; max = bound_of r.max }) };
}

impl KeyRange {
    /// Returns the range from `min` to `max`; `None` where `min` is not below `max`.
    pub fn new(min: Bound, max: Bound) -> Option<KeyRange>
        ensures range { IfSome result (λ r. r ≡ record { min = bound_of min; max = bound_of max }) }
        ensures none { (result ≡ None) ↔ (order_bounds (bound_of min) (bound_of max) ≢ Less) }
    {
        if min.compare(&max) == Ordering::Less {
            Some(KeyRange { min, max })
        } else {
            None
        }
    }

    /// Returns where the range begins, which is below its end.
    pub fn min(&self) -> &Bound
        ensures min { bound_of result.now ≡ self.now.min }
        ensures below { IsRange self.now }
    {
        &self.min
    }

    /// Returns where the range ends.
    pub fn max(&self) -> &Bound
        ensures max { bound_of result.now ≡ self.now.max }
        ensures below { IsRange self.now }
    {
        &self.max
    }

    /// Returns whether a key is in the range, which holds its least bound and not its greatest. Takes no memory.
    pub fn contains(&self, key: &Key) -> bool
        ensures { result ≡ inside (range_span self.now) key.now }
    {
        self.contains_value(key.value())
    }

    /// Returns whether a value, which need be no key, is between the bounds of the range, as a key would be. Takes no memory.
    #[tactic(auto, using(crate::proofs::Turned::greater_is_less))]
    pub fn contains_value(&self, value: &Value) -> bool
        ensures { result ≡ inside (range_span self.now) (datum_of value.now) }
    {
        self.min.compare_to_value(value).is_le() && self.max.compare_to_value(value).is_gt()
    }

    /// Returns a copy of the range, or `Memory` if memory runs out.
    pub fn copy(&self) -> Result<KeyRange, Memory>
        ensures { IfOk result (λ r. r ≡ self.now) }
    {
        let min = self.min.copy()?;
        let max = self.max.copy()?;
        Ok(KeyRange { min, max })
    }
}

/// A range of keys, or one key.
#[derive(Drop)]
pub enum Span {
    /// The keys of a range.
    Range(KeyRange),
    /// This key alone.
    Point(Key),
}

impl Span {
    /// Returns a copy of the span, or `Memory` if memory runs out.
    pub fn copy(&self) -> Result<Span, Memory>
        ensures { IfOk result (λ s. span_of s ≡ span_of self.now) }
    {
        match self {
            Span::Range(range) => Ok(Span::Range(range.copy()?)),
            Span::Point(key) => Ok(Span::Point(key.copy()?)),
        }
    }
}

/// Returns whether a key is in a span: a range holds its least bound and not its greatest. Takes no memory.
pub fn inside(span: &Span, key: &Key) -> bool
    ensures { result ≡ inside (span_of span.now) key.now }
{
    match span {
        Span::Range(range) => range.contains(key),
        Span::Point(point) => point == key,
    }
}
