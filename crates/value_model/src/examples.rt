//! The order, keys and spans on values that one can check by hand.

ghost use Rattle.std.specs.Prelude.{◌≡◌, [], ◌∷◌, codes, pos, negsuc, true, false, Ok, Err, Some};
ghost use Rattle.std.specs.declared.cmp.Ordering.TheVariants.{Equal, Greater, Less};
ghost use Rattle.bson_model.specs.Tree.{array_value, binary_value, boolean_value, date_value, document_value, int32_value, int64_value, item, max_key_value, field, min_key_value, no_items, no_fields, null_value, object_id_value, string_value, timestamp_value};
ghost use Rattle.value_model.specs.Keys.{IsRange, absent_key, inside, inside_some, is_key, key_bound, key_of, max_bound, min_bound, order_bounds, point_span, range_span, valid_key, value_of_bound, wrong_kind};
ghost use Rattle.value_model.specs.Order.{boolean_rank, class_of, order, order_items, order_fields, order_scalars, order_within, same_value, scalar_of};

/// Each class is below the next, whatever its values are.
pub fn classes()
    ensures classes { (class_of min_key_value ≡ 0) × (class_of (int64_value (negsuc 0)) ≡ 2) × (class_of max_key_value ≡ 11) }
    ensures least { order min_key_value null_value ≡ Less }
    ensures texts { order (string_value []) (int32_value (pos 2147483647)) ≡ Greater }
    ensures dates { order (timestamp_value 0) (date_value (pos 5)) ≡ Greater }
    ensures objects { order (object_id_value (255 ∷ [])) (boolean_value false) ≡ Less }
{}

/// Numbers compare by value, dates below 1970 are less, timestamps are never below 0, false is below true.
pub fn scalars()
    ensures numbers { (order (int32_value (pos 5)) (int64_value (pos 5)) ≡ Equal) × (order (int64_value (negsuc 0)) (int32_value (pos 0)) ≡ Less) }
    ensures same { (same_value (int32_value (pos 5)) (int64_value (pos 5)) ≡ true) × (same_value (int32_value (pos 5)) (int64_value (pos 6)) ≡ false) }
    ensures dates { order (date_value (negsuc 0)) (date_value (pos 0)) ≡ Less }
    ensures timestamps { order (timestamp_value 9223372036854775808) (timestamp_value 1) ≡ Greater }
    ensures booleans { (order (boolean_value false) (boolean_value true) ≡ Less) × (boolean_rank true ≡ pos 1) }
    ensures scalars { (scalar_of (string_value (97 ∷ [])) ≡ (pos 0, 97 ∷ [])) × (order_scalars (pos 0, []) (pos 0, 0 ∷ []) ≡ Less) }
{}

/// Texts compare by their bytes; a binary by its length, then its subtype, then its bytes.
pub fn bytes()
    ensures texts { (order (string_value (codes "B")) (string_value (codes "a")) ≡ Less) × (order (string_value (codes "a")) (string_value (codes "ab")) ≡ Less) }
    ensures length { order (binary_value 9 (255 ∷ [])) (binary_value 0 (0 ∷ 0 ∷ [])) ≡ Less }
    ensures subtype { order (binary_value 1 (0 ∷ [])) (binary_value 0 (255 ∷ [])) ≡ Greater }
    ensures content { order (binary_value 0 (1 ∷ [])) (binary_value 0 (2 ∷ [])) ≡ Less }
{}

/// {a: 5} is less than {b: 1}, and that is less than {a: ""}. The shorter of two documents or arrays is less where it is a prefix of the other.
pub fn nested()
    ensures names { order (document_value (field (codes "a") (int32_value (pos 5)) no_fields)) (document_value (field (codes "b") (int32_value (pos 1)) no_fields)) ≡ Less }
    ensures classes { order_fields (field (codes "b") (int32_value (pos 1)) no_fields) (field (codes "a") (string_value []) no_fields) ≡ Less }
    ensures shorter { order_within (document_value no_fields) (document_value (field [] min_key_value no_fields)) ≡ Less }
    ensures arrays { order (array_value (item (int32_value (pos 1)) no_items)) (array_value (item (int64_value (pos 1)) (item null_value no_items))) ≡ Less }
    ensures items { order_items (item (string_value []) no_items) (item (int32_value (pos 1)) (item null_value no_items)) ≡ Greater }
{}

/// The first _id is the key, where it is of a kind that keys are.
pub fn keys()
    ensures first { key_of (field (codes "_id") (int32_value (pos 1)) (field (codes "_id") null_value no_fields)) ≡ Some (int32_value (pos 1)) }
    ensures valid { valid_key (field (codes "_id") null_value no_fields) ≡ Ok null_value }
    ensures absent { valid_key (field (codes "id") null_value no_fields) ≡ Err absent_key }
    ensures wrong { valid_key (field (codes "_id") (array_value no_items) no_fields) ≡ Err wrong_kind }
    ensures ends { (is_key min_key_value ≡ false) × (is_key max_key_value ≡ false) × (is_key (string_value []) ≡ true) }
{}

/// A range holds its least key and not its greatest; a point holds its key alone, in either kind of number.
pub fn spans()
    ensures bounds { (order_bounds min_bound (key_bound null_value) ≡ Less) × (order_bounds max_bound (key_bound null_value) ≡ Greater) × (value_of_bound max_bound ≡ max_key_value) }
    ensures ranges { IsRange (record { min = min_bound; max = max_bound }) × (IsRange (record { min = key_bound (int32_value (pos 5)); max = key_bound (int64_value (pos 5)) }) → ⊥) }
    ensures least { inside (range_span (record { min = key_bound (int32_value (pos 1)); max = key_bound (int32_value (pos 5)) })) (int64_value (pos 1)) ≡ true }
    ensures greatest { inside (range_span (record { min = key_bound (int32_value (pos 1)); max = key_bound (int32_value (pos 5)) })) (int64_value (pos 5)) ≡ false }
    ensures point { (inside (point_span (int32_value (pos 5))) (int64_value (pos 5)) ≡ true) × (inside (point_span (int32_value (pos 5))) (int32_value (pos 6)) ≡ false) }
    ensures some { (inside_some [] (int32_value (pos 5)) ≡ false)
        × (inside_some (range_span (record { min = min_bound; max = key_bound (int32_value (pos 5)) }) ∷ point_span (int32_value (pos 5)) ∷ []) (int64_value (pos 5)) ≡ true)
        × (inside_some (range_span (record { min = min_bound; max = key_bound (int32_value (pos 5)) }) ∷ point_span (int32_value (pos 5)) ∷ []) (int64_value (pos 6)) ≡ false) }
{}
