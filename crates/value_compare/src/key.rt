//! Keys: values of the kinds that keys are.

ghost use Rattle.std.specs.Prelude.{◌≡◌, ◌↔◌, Err, IfErr, IfOk, IsTrue, Ok, true, false};
ghost use Rattle.std.proofs.Common.{refl};
ghost use Rattle.std.specs.Cmp.{partial_equiv_from_equiv, partial_order_from_agreeing_total};
ghost use Rattle.std.specs.Ordering.{as_partial_cmp};
ghost use Rattle.bson_values.specs.View.{datum_of};
ghost use Rattle.value_model.specs.Keys.{absent_key, is_key, valid_key, wrong_kind};
ghost use Rattle.value_model.specs.Order.{order, same_value};
ghost use Rattle.value_compare.specs.declared.key.KeyFault.TheVariants.{Absent, Kind, Memory};
ghost use Rattle.value_model.proofs.Flat.{order_total};
ghost use Rattle.value_model.proofs.Spans.{same_value_equivalence};

use crate::order::compare;
use bson_values::{Document, Memory, Value};
use std::alloc::Global;
use std::cmp::Ordering;
use std::marker::Model;

/// A value that may be a key: no document, no array, and neither end of the order (MongoDB manual, "Document Field Order and the
/// _id Field"). Two keys are one where they compare equal.
#[derive(Drop)]
pub struct Key {
    value: Value,
}

impl Model for Key {
    ghost use Rattle.value_model.specs.Tree.{Datum};
    ghost use Rattle.value_compare.specs.Code.{datum_code};

    ghost Value = { Datum };

    ghost coded = { datum_code };

    ghost use Rattle.bson_values.specs.View.{datum_of};
    ghost use Rattle.std.specs.Prelude.{IsTrue};
    ghost use Rattle.value_model.specs.Keys.{is_key};

    ghost view = { λ k. datum_of k.value };

    ghost invariant = { λ k. IsTrue (is_key (datum_of k.value)) };
}

// Returns whether a value is of a kind that keys are.
fn is_key(value: &Value) -> bool
    ensures { result ≡ is_key (datum_of value.now) }
{
    !matches!(
        value,
        Value::Doc(_) | Value::Array(_) | Value::MinKey | Value::MaxKey
    )
}

impl PartialEq for Key {
    ghost eq = { same_value };

    ghost laws = { partial_equiv_from_equiv same_value_equivalence };

    fn eq(&self, other: &Key) -> bool {
        compare(&self.value, &other.value) == Ordering::Equal
    }
}

impl Eq for Key {
    ghost laws = { same_value_equivalence };
}

impl PartialOrd for Key {
    ghost partial_cmp = { as_partial_cmp order };

    ghost laws = { partial_order_from_agreeing_total order order_total (λ x y. refl) (λ x y. refl) };

    fn partial_cmp(&self, other: &Key) -> Option<Ordering> {
        Some(self.cmp(other))
    }
}

impl Ord for Key {
    ghost cmp = { order };

    ghost total = { order_total };

    ghost matches_partial_cmp = { λ x y. refl };

    ghost matches_eq = { λ x y. refl };

    fn cmp(&self, other: &Key) -> Ordering {
        compare(&self.value, &other.value)
    }
}

impl Key {
    /// Takes the value as a key. Returns it where it is of a kind that no key is.
    pub fn of(value: Value) -> Result<Key, Value>
        ensures key { IfOk result (λ k. (k ≡ datum_of value) × (is_key (datum_of value) ≡ true)) }
        ensures none { IfErr result (λ v. (v ≡ value) × (is_key (datum_of value) ≡ false)) }
    {
        if is_key(&value) {
            Ok(Key { value })
        } else {
            Err(value)
        }
    }

    /// Returns the value.
    pub fn value(&self) -> &Value
        ensures value { datum_of result.now ≡ self.now }
        ensures key { is_key self.now ≡ true }
    {
        &self.value
    }

    /// Returns a copy of the key, or `Memory` if memory runs out.
    pub fn copy(&self) -> Result<Key, Memory>
        ensures { IfOk result (λ k. k ≡ self.now) }
    {
        let value = self.value.copy()?;
        Ok(Key { value })
    }
}

/// Why a document can't be stored under a key.
#[derive(Clone, Copy, Debug, PartialEq, Eq)]
pub enum KeyFault {
    /// It has no field `_id`.
    Absent,
    /// Its first `_id` is of a kind that no key is.
    Kind,
    /// Out of memory.
    Memory,
}

impl From<Memory> for KeyFault {
    ghost from_gives = { λ _ e. e ≡ Memory };

    fn from(_e: Memory) -> KeyFault {
        KeyFault::Memory
    }
}

/// Returns the key of a document, which is its first `_id`. Returns `Absent` where there is none, `Kind` where it is of a kind
/// that no key is, and `Memory` if memory runs out.
pub fn key_of(_alloc: Global, document: &Document) -> Result<Key, KeyFault>
    ensures key { IfOk result (λ k. valid_key document.now ≡ Ok k) }
    ensures absent { (result ≡ Err Absent) ↔ (valid_key document.now ≡ Err absent_key) }
    ensures kind { (result ≡ Err Kind) ↔ (valid_key document.now ≡ Err wrong_kind) }
{
    let Some(value) = document.get("_id") else {
        return Err(KeyFault::Absent);
    };
    if !is_key(value) {
        return Err(KeyFault::Kind);
    }
    let value = value.copy()?;
    Ok(Key { value })
}
