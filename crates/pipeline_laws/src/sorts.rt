//! Sort keys on values that one can check by hand.

ghost use Rattle.std.specs.Prelude.{◌≡◌, [], ◌∷◌, is_ok, negsuc, true, Ok, Err};
ghost use Rattle.std.specs.declared.cmp.Ordering.TheVariants.{Equal, Greater, Less};
ghost use Rattle.bson_model.specs.Tree.{boolean_value, int32_value, int64_value, max_key_value, min_key_value, no_fields, null_value};
ghost use Rattle.query_model.specs.Paths.{dollar_part};
ghost use Rattle.query_model.specs.Queries.{bad_operand, path_fault};
ghost use Rattle.query_model.specs.SampleQueries.{array, inner, number};
ghost use Rattle.pipeline_model.specs.SortKeys.{empty_array, order_parts, read_sort, value_part};
ghost use Rattle.pipeline_laws.specs.SamplePipelines.{compared_by, doc, key_by, same_fields};
ghost use Rattle.query_model.specs.SampleChanges.{long, text};

/// Ascending takes the least of the values at the path, descending the greatest; an array contributes its elements, one level deep, and an empty array
/// contributes a mark.
pub fn keys_of_values()
    ensures scalar { key_by (doc (("a", number 1) ∷ [])) (doc (("a", number 3) ∷ [])) ≡ Ok (value_part (number 3) ∷ []) }
    ensures least { key_by (doc (("a", number 1) ∷ [])) (doc (("a", array (number 3 ∷ number 1 ∷ number 2 ∷ [])) ∷ [])) ≡ Ok (value_part (number 1) ∷ []) }
    ensures greatest { key_by (doc (("a", int32_value (negsuc 0)) ∷ [])) (doc (("a", array (number 1 ∷ number 3 ∷ number 2 ∷ [])) ∷ [])) ≡ Ok
        (value_part (number 3) ∷ []) }
    ensures mark { key_by (doc (("a", number 1) ∷ [])) (doc (("a", array []) ∷ [])) ≡ Ok (empty_array ∷ []) }
    ensures one_step { key_by (doc (("a", number 1) ∷ [])) (doc (("a", array (array [] ∷ [])) ∷ [])) ≡ Ok (value_part (array []) ∷ []) }
    ensures null { (key_by (doc (("a", number 1) ∷ [])) no_fields ≡ Ok (value_part null_value ∷ []))
        × (key_by (doc (("a", number 1) ∷ [])) (doc (("a", null_value) ∷ [])) ≡ Ok (value_part null_value ∷ [])) }
    ensures twice { key_by (doc (("a", number 1) ∷ ("a", int32_value (negsuc 0)) ∷ [])) (doc (("a", array (number 1 ∷ number 2 ∷ [])) ∷ []))
        ≡ Ok (value_part (number 1) ∷ value_part (number 2) ∷ []) }
    ensures empty { key_by no_fields (doc (("a", number 1) ∷ [])) ≡ Ok [] }
{}

/// At `a.b`: a gap adds null to the values; an element that is not a document adds nothing; without a value the key is null.
pub fn keys_at_paths()
    ensures gap { (key_by (doc (("a.b", number 1) ∷ [])) (doc (("a", array (inner "b" (number 1) ∷ inner "c" (number 2) ∷ [])) ∷ [])) ≡ Ok
        (value_part null_value ∷ []))
        × (key_by (doc (("a.b", int32_value (negsuc 0)) ∷ [])) (doc (("a", array (inner "b" (number 1) ∷ inner "c" (number 2) ∷ [])) ∷ [])) ≡ Ok
        (value_part (number 1) ∷ [])) }
    ensures scalar { key_by (doc (("a.b", number 1) ∷ [])) (doc (("a", number 5) ∷ [])) ≡ Ok (value_part null_value ∷ []) }
    ensures no_documents { (key_by (doc (("a.b", number 1) ∷ [])) (doc (("a", array (number 5 ∷ [])) ∷ [])) ≡ Ok (value_part null_value ∷ []))
        × (key_by (doc (("a.b", number 1) ∷ [])) (doc (("a", array []) ∷ [])) ≡ Ok (value_part null_value ∷ [])) }
    ensures some_documents { key_by (doc (("a.b", number 1) ∷ [])) (doc (("a", array (number 5 ∷ inner "b" (number 1) ∷ [])) ∷ [])) ≡ Ok
        (value_part (number 1) ∷ []) }
    ensures arrays { key_by (doc (("a.b", number 1) ∷ [])) (doc (("a", array (inner "b" (array (number 4 ∷ number 3 ∷ [])) ∷ inner "b" (array []) ∷ [])) ∷ []))
        ≡ Ok (empty_array ∷ []) }
{}

/// The mark sorts after MinKey and before null, and no value equals it. Numbers compare by value.
pub fn parts_in_order()
    ensures least { order_parts (value_part min_key_value) empty_array ≡ Less }
    ensures mark { (order_parts empty_array (value_part null_value) ≡ Less)
        × (order_parts (value_part null_value) empty_array ≡ Greater)
        × (order_parts empty_array empty_array ≡ Equal) }
    ensures arrays { order_parts empty_array (value_part (array [])) ≡ Less }
    ensures greatest { order_parts (value_part max_key_value) (value_part (number 5)) ≡ Greater }
    ensures numbers { order_parts (value_part (number 5)) (value_part (long 5)) ≡ Equal }
{}

/// The first path decides, then the next, each in its direction; with no path all documents compare equal.
pub fn documents_in_order()
    ensures first { compared_by (doc (("a", number 1) ∷ ("b", number 1) ∷ [])) (doc (("a", number 1) ∷ ("b", number 2) ∷ []))
        (doc (("a", number 2) ∷ ("b", number 1) ∷ [])) ≡ Ok Less }
    ensures next { compared_by (doc (("a", number 1) ∷ ("b", int32_value (negsuc 0)) ∷ [])) (doc (("a", number 1) ∷ ("b", number 2) ∷ []))
        (doc (("a", number 1) ∷ ("b", number 1) ∷ []))
        ≡ Ok Less }
    ensures down { compared_by (doc (("a", long 1) ∷ [])) (doc (("a", number 1) ∷ [])) (doc (("a", long 1) ∷ [])) ≡ Ok Equal }
    ensures ties { compared_by (doc (("a", int32_value (negsuc 0)) ∷ [])) (doc (("a", number 1) ∷ [])) (doc (("a", number 2) ∷ [])) ≡ Ok Greater }
    ensures none { compared_by no_fields (doc (("a", number 1) ∷ [])) (doc (("a", number 2) ∷ [])) ≡ Ok Equal }
{}

/// A direction is the whole number 1 or -1; that there are more than 32 fields is checked before each of them, a path before its direction.
pub fn refused()
    ensures directions { (read_sort (doc (("a", number 2) ∷ [])) ≡ Err bad_operand)
        × (read_sort (doc (("a", number 0) ∷ [])) ≡ Err bad_operand)
        × (read_sort (doc (("a", boolean_value true) ∷ [])) ≡ Err bad_operand)
        × (read_sort (doc (("a", text "1") ∷ [])) ≡ Err bad_operand)
        × (is_ok (read_sort (doc (("a", int64_value (negsuc 0)) ∷ []))) ≡ true) }
    ensures paths { read_sort (doc (("a.$b", number 2) ∷ [])) ≡ Err (path_fault dollar_part) }
    ensures many { (is_ok (read_sort (same_fields 32)) ≡ true) × (read_sort (same_fields 33) ≡ Err bad_operand) }
{}
