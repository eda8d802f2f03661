//! Groups on values that one can check by hand.

ghost use Rattle.std.specs.Prelude.{◌≡◌, ◌∷◌, [], negsuc, pos, is_ok, false, true, None, Some, Ok, Err};
ghost use Rattle.bson_model.specs.Tree.{date_value, document_value, int32_value, no_fields, null_value};
ghost use Rattle.query_model.specs.Paths.{empty_part};
ghost use Rattle.query_model.specs.Queries.{bad_operand, path_fault, unknown_operator};
ghost use Rattle.query_model.specs.SampleQueries.{array, inner, number, one};
ghost use Rattle.pipeline_model.specs.SortKeys.{ascending, descending};
ghost use Rattle.pipeline_model.specs.GroupSpecs.{read_group};
ghost use Rattle.pipeline_model.specs.Groups.{all_narrow, count_cell, count_value, extreme_cell, IsExtreme, sum_cell, total, values_in};
ghost use Rattle.pipeline_model.specs.Lengths.{row_length};
ghost use Rattle.pipeline_laws.specs.SamplePipelines.{doc, row_by, shown_by};
ghost use Rattle.query_model.specs.SampleChanges.{long, text};

/// The group of one document: a missing key is null; a sum adds only whole numbers, and a constant once for each document.
pub fn rows_of_documents()
    ensures path { row_by (doc (("_id", text "$x") ∷ ("n", inner "$sum" (text "$y")) ∷ [])) (doc (("x", number 5) ∷ ("y", number 2) ∷ []))
        ≡ Ok (record { key = number 5; cells = sum_cell (pos 2) true ∷ [] }) }
    ensures long { row_by (doc (("_id", text "x") ∷ ("n", inner "$sum" (text "$y")) ∷ [])) (doc (("x", number 5) ∷ ("y", long 2) ∷ []))
        ≡ Ok (record { key = text "x"; cells = sum_cell (pos 2) false ∷ [] }) }
    ensures absent { row_by (doc (("_id", text "$x") ∷ ("n", inner "$sum" (text "$y")) ∷ ("m", inner "$min" (text "$y")) ∷ [])) no_fields
        ≡ Ok (record { key = null_value; cells = sum_cell (pos 0) true ∷ extreme_cell null_value ∷ [] }) }
    ensures no_number { row_by (doc (("_id", null_value) ∷ ("n", inner "$sum" (text "$y")) ∷ [])) (doc (("y", array (number 5 ∷ [])) ∷ []))
        ≡ Ok (record { key = null_value; cells = sum_cell (pos 0) true ∷ [] }) }
    ensures constants { row_by (doc (("_id", long 7) ∷ ("n", inner "$sum" (number 1)) ∷ ("t", inner "$sum" (text "x"))
        ∷ ("c", inner "$count" (document_value no_fields)) ∷ ("m", inner "$max" (text "x")) ∷ [])) no_fields
        ≡ Ok (record { key = long 7; cells = sum_cell (pos 1) true ∷ sum_cell (pos 0) true ∷ count_cell 1 ∷ extreme_cell (text "x") ∷ [] }) }
    ensures arrays { row_by (doc (("_id", text "$a.b") ∷ ("m", inner "$min" (text "$a")) ∷ [])) (doc (("a", array (inner "b" (number 1) ∷ number 2 ∷ [])) ∷ []))
        ≡ Ok (record { key = array (number 1 ∷ []); cells = extreme_cell (array (inner "b" (number 1) ∷ number 2 ∷ [])) ∷ [] }) }
{}

/// Sums are exact, and int32 where each number was and the sum fits; a minimum or maximum ignores null where there is another value.
pub fn cells_together()
    ensures sums { (total (sum_cell (pos 9223372036854775807) false ∷ sum_cell (pos 9223372036854775807) false
        ∷ sum_cell (negsuc 9223372036854775806) false ∷ sum_cell (negsuc 9223372036854775806) false ∷ []) ≡ pos 0)
        × (all_narrow (sum_cell (pos 1) true ∷ sum_cell (pos 2) false ∷ []) ≡ false) }
    ensures no_null { values_in (extreme_cell null_value ∷ extreme_cell (number 3) ∷ extreme_cell null_value ∷ []) ≡ number 3 ∷ [] }
    ensures nothing { (IsExtreme ascending [] null_value) × (IsExtreme ascending [] (number 0) → ⊥) }
    ensures least { (IsExtreme ascending (number 3 ∷ long 3 ∷ []) (number 4) → ⊥) × (IsExtreme ascending (number 3 ∷ number 4 ∷ []) (number 4) → ⊥) }
    ensures greatest { IsExtreme descending (number 3 ∷ number 4 ∷ []) (number 3) → ⊥ }
{}

/// `_id` first, then the fields in order; where a sum is outside int64 the whole result has no documents.
pub fn rows_shown()
    ensures row { shown_by (doc (("n", inner "$sum" (text "$y")) ∷ ("_id", text "$x") ∷ ("c", inner "$count" (document_value no_fields)) ∷ []))
        (record { key = number 5; cells = sum_cell (pos 3) true ∷ count_cell 2 ∷ [] } ∷ []) ≡ Ok
        (Some (doc (("_id", number 5) ∷ ("n", number 3) ∷ ("c", number 2) ∷ []) ∷ [])) }
    ensures past_int32 { shown_by (doc (("_id", null_value) ∷ ("s", inner "$sum" (text "$v")) ∷ []))
        (record { key = null_value; cells = sum_cell (pos 2147483648) true ∷ [] } ∷ []) ≡ Ok
        (Some (doc (("_id", null_value) ∷ ("s", long 2147483648) ∷ []) ∷ [])) }
    ensures least_int32 { shown_by (doc (("_id", null_value) ∷ ("s", inner "$sum" (text "$v")) ∷ []))
        (record { key = null_value; cells = sum_cell (negsuc 2147483647) true ∷ [] } ∷ []) ≡ Ok
        (Some (doc (("_id", null_value) ∷ ("s", int32_value (negsuc 2147483647)) ∷ []) ∷ [])) }
    ensures not_narrow { shown_by (doc (("_id", null_value) ∷ ("s", inner "$sum" (text "$v")) ∷ []))
        (record { key = null_value; cells = sum_cell (pos 3) false ∷ [] } ∷ []) ≡ Ok (Some (doc (("_id", null_value) ∷ ("s", long 3) ∷ []) ∷ [])) }
    ensures overflow { shown_by (doc (("_id", null_value) ∷ ("s", inner "$sum" (text "$v")) ∷ []))
        (record { key = number 1; cells = sum_cell (pos 3) true ∷ [] }
        ∷ record { key = null_value; cells = sum_cell (pos 9223372036854775808) false ∷ [] } ∷ []) ≡ Ok None }
    ensures counts { (count_value 2147483647 ≡ number 2147483647) × (count_value 2147483648 ≡ long 2147483648) }
{}

/// 10 bytes for `{_id: null}` and 16 for a sum or a count; 8 for a minimum or maximum that is null.
pub fn lengths()
    ensures sum { row_length (record { key = null_value; cells = sum_cell (pos 5) true ∷ [] }) ≡ 26 }
    ensures others { row_length (record { key = null_value; cells = count_cell 5 ∷ extreme_cell null_value ∷ [] }) ≡ 34 }
{}

/// An `_id` is a path, or a constant that is neither a document nor an array; an accumulator is a document of one field; names are not checked; that there is
/// one `_id` is checked last.
pub fn refused()
    ensures keys { (read_group (doc (("_id", document_value no_fields) ∷ [])) ≡ Err bad_operand)
        × (read_group (doc (("_id", array []) ∷ [])) ≡ Err bad_operand)
        × (read_group (doc (("_id", text "$") ∷ [])) ≡ Err (path_fault empty_part))
        × (is_ok (read_group (doc (("_id", date_value (pos 5)) ∷ []))) ≡ true) }
    ensures one_key { (read_group no_fields ≡ Err bad_operand)
        × (read_group (doc (("_id", number 1) ∷ ("_id", number 1) ∷ [])) ≡ Err bad_operand)
        × (read_group (doc (("n", inner "$avg" (text "$x")) ∷ [])) ≡ Err unknown_operator) }
    ensures accumulators { (read_group (doc (("_id", null_value) ∷ ("n", number 5) ∷ [])) ≡ Err bad_operand)
        × (read_group (doc (("_id", null_value) ∷ ("n", document_value (doc (("$sum", number 1) ∷ ("$min", number 1) ∷ []))) ∷ [])) ≡ Err bad_operand)
        × (read_group (doc (("_id", null_value) ∷ ("n", inner "$first" (text "$x")) ∷ [])) ≡ Err unknown_operator)
        × (read_group (doc (("_id", null_value) ∷ ("n", inner "$sum" (document_value (one "a" (number 1)))) ∷ [])) ≡ Err bad_operand)
        × (read_group (doc (("_id", null_value) ∷ ("n", inner "$count" (number 1)) ∷ [])) ≡ Err bad_operand) }
    ensures names { is_ok (read_group (doc (("a.b", inner "$sum" (number 1)) ∷ ("$c", inner "$sum" (number 1)) ∷ ("$c", inner "$sum" (number 1))
        ∷ ("_id", null_value) ∷ []))) ≡ true }
{}
