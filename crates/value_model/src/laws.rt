//! The laws of the order and of spans.

ghost use Rattle.std.specs.Prelude.{◌≡◌, ℤ, List, true, false};
ghost use Rattle.std.specs.Ordering.{int_eq};
ghost use Rattle.std.specs.Cmp.{IsEquivalence, IsTotalOrder};
ghost use Rattle.bson_model.specs.Tree.{Datum, int32_value, int64_value};
ghost use Rattle.value_model.specs.Keys.{Bound, Span, inside, inside_some, is_key, max_bound, min_bound, range_span};
ghost use Rattle.value_model.specs.Order.{order, same_value};

/// The order is total: it is antisymmetric and transitive, and what compares equal compares alike to all other values. So
/// values that compare equal are classes of an equivalence.
#[tactic(auto, using(crate::proofs::Flat::order_total, crate::proofs::Spans::same_value_equivalence))]
pub fn order_is_total()
    ensures total { IsTotalOrder order }
    ensures equality { IsEquivalence same_value }
{}

/// Two numbers are one value exactly where they are equal, of 32 bits or of 64.
#[tactic(auto, using(crate::proofs::Spans::same_int32, crate::proofs::Spans::same_int64, crate::proofs::Spans::same_kinds))]
pub fn numbers_of_both_kinds()
    ensures int32 { (a b : ℤ) → same_value (int32_value a) (int32_value b) ≡ int_eq a b }
    ensures int64 { (a b : ℤ) → same_value (int64_value a) (int64_value b) ≡ int_eq a b }
    ensures both { (a b : ℤ) → same_value (int32_value a) (int64_value b) ≡ int_eq a b }
{}

/// What compares equal to a key is a key, and is inside the same spans.
#[tactic(auto, using(crate::proofs::Spans::same_is_key, crate::proofs::Spans::same_inside, crate::proofs::Spans::same_inside_some))]
pub fn same_keys()
    ensures keys { (a b : Datum) → same_value a b ≡ true → is_key a ≡ is_key b }
    ensures spans { (span : Span) (a b : Datum) → same_value a b ≡ true → inside span a ≡ inside span b }
    ensures lists { (spans : List Span) (a b : Datum) → same_value a b ≡ true → inside_some spans a ≡ inside_some spans b }
{}

/// Each key is between the least bound and the greatest.
#[tactic(auto, using(crate::proofs::Spans::whole_inside))]
pub fn keys_above_and_below()
    ensures { (key : Datum) → is_key key ≡ true → inside (range_span (record { min = min_bound; max = max_bound })) key ≡ true }
{}

/// No key is in two ranges of which one ends where the other begins.
#[tactic(auto, using(crate::proofs::Spans::one_range))]
pub fn ranges_that_meet()
    ensures { (least middle greatest : Bound) (key : Datum) → inside (range_span (record { min = least; max = middle })) key ≡ true → inside (range_span (record { min = middle; max = greatest })) key ≡ false }
{}
