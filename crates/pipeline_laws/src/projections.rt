//! Projections on values that one can check by hand.

ghost use Rattle.std.specs.Prelude.{◌≡◌, [], ◌∷◌, codes, false, negsuc, true, None, Some, Ok, Err};
ghost use Rattle.bson_model.specs.Tree.{boolean_value, document_value, int32_value, no_fields, null_value};
ghost use Rattle.query_model.specs.Paths.{digits_part, dollar_part, empty_part};
ghost use Rattle.query_model.specs.Queries.{bad_operand, path_fault};
ghost use Rattle.query_model.specs.SampleQueries.{array, inner, number, one};
ghost use Rattle.pipeline_model.specs.Operands.{value_at};
ghost use Rattle.pipeline_model.specs.Projections.{read_projection};
ghost use Rattle.pipeline_laws.specs.SamplePipelines.{doc, projected};
ghost use Rattle.query_model.specs.SampleChanges.{long, text};

/// `true` and numbers that are not 0 include a field, `false` and 0 exclude it; `_id` is kept unless it is excluded, also where other fields are included.
/// All fields of one name are treated alike, and fields keep the document's order.
pub fn included()
    ensures number { projected (doc (("a", number 1) ∷ [])) (doc (("_id", number 1) ∷ ("a", number 2) ∷ ("b", number 3) ∷ []))
        ≡ Ok (doc (("_id", number 1) ∷ ("a", number 2) ∷ [])) }
    ensures numbers { projected (doc (("a", int32_value (negsuc 0)) ∷ ("b", long 5) ∷ ("c", boolean_value true) ∷ []))
        (doc (("a", number 2) ∷ ("b", number 3) ∷ ("c", number 4) ∷ ("d", number 5) ∷ []))
        ≡ Ok (doc (("a", number 2) ∷ ("b", number 3) ∷ ("c", number 4) ∷ [])) }
    ensures without_id { projected (doc (("_id", number 0) ∷ ("a", number 1) ∷ [])) (doc (("_id", number 1) ∷ ("a", number 2) ∷ ("b", number 3) ∷ []))
        ≡ Ok (doc (("a", number 2) ∷ [])) }
    ensures only_id { projected (doc (("_id", number 1) ∷ [])) (doc (("_id", number 1) ∷ ("a", number 2) ∷ [])) ≡ Ok (doc (("_id", number 1) ∷ [])) }
    ensures order { projected (doc (("b", number 1) ∷ ("a", number 1) ∷ [])) (doc (("a", number 2) ∷ ("_id", number 1) ∷ ("b", number 3) ∷ []))
        ≡ Ok (doc (("a", number 2) ∷ ("_id", number 1) ∷ ("b", number 3) ∷ [])) }
    ensures all_of_a_name { projected (doc (("a", number 1) ∷ ("a", number 1) ∷ [])) (doc (("a", number 2) ∷ ("b", number 1) ∷ ("a", number 3) ∷ []))
        ≡ Ok (doc (("a", number 2) ∷ ("a", number 3) ∷ [])) }
    ensures whole_values { projected (doc (("a", number 1) ∷ [])) (doc (("a", inner "b" (number 2)) ∷ [])) ≡ Ok (doc (("a", inner "b" (number 2)) ∷ [])) }
{}

pub fn excluded()
    ensures id { projected (doc (("_id", number 0) ∷ [])) (doc (("_id", number 1) ∷ ("a", number 2) ∷ [])) ≡ Ok (doc (("a", number 2) ∷ [])) }
    ensures others_stay { projected (doc (("a", number 0) ∷ [])) (doc (("_id", number 1) ∷ ("a", number 2) ∷ ("b", number 3) ∷ []))
        ≡ Ok (doc (("_id", number 1) ∷ ("b", number 3) ∷ [])) }
    ensures both { projected (doc (("a", boolean_value false) ∷ ("_id", long 0) ∷ [])) (doc (("_id", number 1) ∷ ("a", number 2) ∷ ("b", number 3) ∷ []))
        ≡ Ok (doc (("b", number 3) ∷ [])) }
    ensures all_of_a_name { projected (doc (("a", number 0) ∷ [])) (doc (("a", number 2) ∷ ("b", number 1) ∷ ("a", number 3) ∷ [])) ≡ Ok
        (doc (("b", number 1) ∷ [])) }
{}

/// A computed field has the value at its path in the input document. It follows the stored ones, in the projection's order; a stored field of its name is
/// removed, and without a value there is no computed one.
pub fn computed()
    ensures with_id { projected (doc (("x", text "$a") ∷ [])) (doc (("_id", number 1) ∷ ("a", number 2) ∷ ("b", number 3) ∷ []))
        ≡ Ok (doc (("_id", number 1) ∷ ("x", number 2) ∷ [])) }
    ensures without_id { projected (doc (("_id", number 0) ∷ ("x", text "$a") ∷ [])) (doc (("_id", number 1) ∷ ("a", number 2) ∷ [])) ≡ Ok
        (doc (("x", number 2) ∷ [])) }
    ensures id { projected (doc (("_id", text "$x") ∷ ("a", number 1) ∷ [])) (doc (("_id", number 1) ∷ ("a", number 2) ∷ ("x", number 5) ∷ []))
        ≡ Ok (doc (("a", number 2) ∷ ("_id", number 5) ∷ [])) }
    ensures exchanged { projected (doc (("x", text "$a") ∷ ("a", text "$x") ∷ [])) (doc (("_id", number 1) ∷ ("a", number 1) ∷ ("x", number 2) ∷ []))
        ≡ Ok (doc (("_id", number 1) ∷ ("x", number 1) ∷ ("a", number 2) ∷ [])) }
    ensures no_value { projected (doc (("_id", text "$y") ∷ ("a", text "$a.b") ∷ [])) (doc (("_id", number 1) ∷ ("a", number 5) ∷ [])) ≡ Ok no_fields }
    ensures both_rules { projected (doc (("x", number 1) ∷ ("x", text "$a") ∷ ("x", text "$b") ∷ []))
        (doc (("x", number 9) ∷ ("a", number 2) ∷ ("b", number 3) ∷ []))
        ≡ Ok (doc (("x", number 2) ∷ ("x", number 3) ∷ [])) }
{}

/// Through an array: the array of the values of those of its elements that are documents and have one.
pub fn paths_through_arrays()
    ensures elements { value_at (codes "a" ∷ codes "b" ∷ [])
        (doc (("a", array (inner "b" (number 1) ∷ inner "c" (number 2) ∷ number 5 ∷ array (inner "b" (number 9) ∷ []) ∷ [])) ∷ []))
        ≡ Some (array (number 1 ∷ [])) }
    ensures empty { value_at (codes "a" ∷ codes "b" ∷ []) (doc (("a", array []) ∷ [])) ≡ Some (array []) }
    ensures scalar { value_at (codes "a" ∷ codes "b" ∷ []) (doc (("a", number 5) ∷ [])) ≡ None }
    ensures end { value_at (codes "a" ∷ []) (doc (("a", array (number 5 ∷ [])) ∷ [])) ≡ Some (array (number 5 ∷ [])) }
    ensures further { value_at (codes "a" ∷ codes "b" ∷ codes "c" ∷ [])
        (doc (("a", array (inner "b" (array (inner "c" (number 1) ∷ [])) ∷ inner "b" (inner "c" (number 2)) ∷ inner "b" (number 3) ∷ [])) ∷ []))
        ≡ Some (array (array (number 1 ∷ []) ∷ number 2 ∷ [])) }
    ensures first { value_at (codes "a" ∷ []) (doc (("a", null_value) ∷ ("a", number 1) ∷ [])) ≡ Some null_value }
{}

/// A name is one part, and a text is a path after `$`; a name is checked before its value, and both before the whole: that there is a rule, and that where
/// names are included or computed only `_id` is excluded, and has no other rule.
pub fn refused()
    ensures names { (read_projection (doc (("a.b", number 1) ∷ [])) ≡ Err bad_operand)
        × (read_projection (doc (("0", null_value) ∷ [])) ≡ Err (path_fault digits_part))
        × (read_projection (doc (("$a", number 1) ∷ [])) ≡ Err (path_fault dollar_part))
        × (read_projection (doc (("", number 1) ∷ [])) ≡ Err (path_fault empty_part)) }
    ensures values { (read_projection (doc (("a", text "x") ∷ ("0", number 1) ∷ [])) ≡ Err bad_operand)
        × (read_projection (doc (("a", null_value) ∷ [])) ≡ Err bad_operand)
        × (read_projection (doc (("a", document_value (one "$literal" (number 1))) ∷ [])) ≡ Err bad_operand)
        × (read_projection (doc (("a", array (number 1 ∷ [])) ∷ [])) ≡ Err bad_operand) }
    ensures paths { (read_projection (doc (("a", text "$") ∷ [])) ≡ Err (path_fault empty_part))
        × (read_projection (doc (("a", text "$$ROOT") ∷ [])) ≡ Err (path_fault dollar_part))
        × (read_projection (doc (("a", text "$b.0") ∷ [])) ≡ Err (path_fault digits_part)) }
    ensures whole { (read_projection no_fields ≡ Err bad_operand)
        × (read_projection (doc (("a", number 1) ∷ ("b", number 0) ∷ [])) ≡ Err bad_operand)
        × (read_projection (doc (("_id", number 1) ∷ ("a", number 0) ∷ [])) ≡ Err bad_operand)
        × (read_projection (doc (("x", text "$a") ∷ ("b", number 0) ∷ [])) ≡ Err bad_operand)
        × (read_projection (doc (("_id", number 0) ∷ ("_id", number 1) ∷ [])) ≡ Err bad_operand)
        × (read_projection (doc (("_id", number 0) ∷ ("_id", text "$a") ∷ [])) ≡ Err bad_operand)
        × (read_projection (doc (("a", number 1) ∷ ("b", number 0) ∷ ("0", number 1) ∷ [])) ≡ Err (path_fault digits_part)) }
{}
