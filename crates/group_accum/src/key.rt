//! What distinguishes groups: any value, in the order of values.

ghost use Rattle.std.specs.Prelude.{◌≡◌};
ghost use Rattle.std.proofs.Common.{refl};
ghost use Rattle.std.specs.Cmp.{partial_equiv_from_equiv, partial_order_from_agreeing_total};
ghost use Rattle.std.specs.Ordering.{as_partial_cmp};
ghost use Rattle.bson_values.specs.View.{datum_of};
ghost use Rattle.value_model.specs.Order.{order, same_value};
ghost use Rattle.value_model.proofs.Flat.{order_total};
ghost use Rattle.value_model.proofs.Spans.{same_value_equivalence};

use bson_values::Value;
use std::cmp::Ordering;
use std::marker::Model;
use value_compare::compare;

/// The key of a group. Two keys are the same where they compare equal.
#[derive(Drop)]
pub(crate) struct GroupKey {
    value: Value,
}

impl Model for GroupKey {
    ghost use Rattle.bson_model.specs.Tree.{Datum};
    ghost use Rattle.value_compare.specs.Code.{datum_code};

    ghost Value = { Datum };

    ghost coded = { datum_code };

    ghost use Rattle.bson_values.specs.View.{datum_of};

    ghost view = { λ k. datum_of k.value };
}

impl PartialEq for GroupKey {
    ghost eq = { same_value };

    ghost laws = { partial_equiv_from_equiv same_value_equivalence };

    fn eq(&self, other: &GroupKey) -> bool {
        compare(&self.value, &other.value) == Ordering::Equal
    }
}

impl Eq for GroupKey {
    ghost laws = { same_value_equivalence };
}

impl PartialOrd for GroupKey {
    ghost partial_cmp = { as_partial_cmp order };

    ghost laws = { partial_order_from_agreeing_total order order_total (λ x y. refl) (λ x y. refl) };

    fn partial_cmp(&self, other: &GroupKey) -> Option<Ordering> {
        Some(self.cmp(other))
    }
}

impl Ord for GroupKey {
    ghost cmp = { order };

    ghost total = { order_total };

    ghost matches_partial_cmp = { λ x y. refl };

    ghost matches_eq = { λ x y. refl };

    fn cmp(&self, other: &GroupKey) -> Ordering {
        compare(&self.value, &other.value)
    }
}

impl GroupKey {
    /// Returns the value as a key.
    pub(crate) fn of(value: Value) -> GroupKey
        ensures { result ≡ datum_of value }
    {
        GroupKey { value }
    }

    /// Returns the value, borrowed.
    pub(crate) fn value(&self) -> &Value
        ensures { datum_of result.now ≡ self.now }
    {
        &self.value
    }

    /// Returns the value.
    pub(crate) fn into_value(self) -> Value
        ensures { datum_of result ≡ self }
    {
        let GroupKey { value } = self;
        value
    }
}
