//! Each operator on a number, arrays, a string, null and nothing, and at a path into arrays of documents.
//!
//! At `a` the documents are `{a: 5}`, `{a: [5, 7]}`, `{a: [[5, 7]]}`, `{a: []}`, `{a: "5"}`, `{a: null}`, `{}`. At `a.b` they are
//! `{a: [{b: 5}, {c: 1}]}`, `{a: [{b: 7}, 5, [{b: 5}]]}`, `{a: [1]}`, `{a: 5}`, `{a: {b: [5, 7]}}`, `{a: [{b: [5]}, {b: [7]}]}`.

ghost use Rattle.std.specs.Prelude.{◌≡◌, [], ◌∷◌, codes, false, negsuc, pos, true, Ok};
ghost use Rattle.bson_model.specs.Tree.{boolean_value, document_value, int32_value, int64_value, max_key_value, min_key_value, no_fields, null_value, string_value};
ghost use Rattle.query_model.specs.SampleQueries.{answer, answers, answers_at_a, answers_at_b, array, documents_with_a, documents_with_b, inner, number, one, two};

/// An array equals as a whole and by its elements, one step deep. Null equals null, and what is not there.
pub fn equal_at_a()
    ensures eq { answers_at_a "$eq" (number 5) ≡ Ok (true ∷ true ∷ false ∷ false ∷ false ∷ false ∷ false ∷ []) }
    ensures eq_array { answers_at_a "$eq" (array (number 5 ∷ number 7 ∷ [])) ≡ Ok (false ∷ true ∷ true ∷ false ∷ false ∷ false ∷ false ∷ []) }
    ensures eq_string { answers_at_a "$eq" (string_value (codes "5")) ≡ Ok (false ∷ false ∷ false ∷ false ∷ true ∷ false ∷ false ∷ []) }
    ensures eq_null { answers_at_a "$eq" null_value ≡ Ok (false ∷ false ∷ false ∷ false ∷ false ∷ true ∷ true ∷ []) }
    ensures ne { answers_at_a "$ne" (number 5) ≡ Ok (false ∷ false ∷ true ∷ true ∷ true ∷ true ∷ true ∷ []) }
    ensures ne_null { answers_at_a "$ne" null_value ≡ Ok (true ∷ true ∷ true ∷ true ∷ true ∷ false ∷ false ∷ []) }
{}

/// Only values of the operand's class compare; with MinKey and MaxKey all do.
pub fn compared_at_a()
    ensures gt { answers_at_a "$gt" (number 5) ≡ Ok (false ∷ true ∷ false ∷ false ∷ false ∷ false ∷ false ∷ []) }
    ensures gte { answers_at_a "$gte" (number 5) ≡ Ok (true ∷ true ∷ false ∷ false ∷ false ∷ false ∷ false ∷ []) }
    ensures lt { answers_at_a "$lt" (number 5) ≡ Ok (false ∷ false ∷ false ∷ false ∷ false ∷ false ∷ false ∷ []) }
    ensures lt_greater { answers_at_a "$lt" (number 6) ≡ Ok (true ∷ true ∷ false ∷ false ∷ false ∷ false ∷ false ∷ []) }
    ensures lte { answers_at_a "$lte" (number 5) ≡ Ok (true ∷ true ∷ false ∷ false ∷ false ∷ false ∷ false ∷ []) }
    ensures gt_string { answers_at_a "$gt" (string_value (codes "4")) ≡ Ok (false ∷ false ∷ false ∷ false ∷ true ∷ false ∷ false ∷ []) }
    ensures gt_long { answers_at_a "$gt" (int64_value (pos 6)) ≡ Ok (false ∷ true ∷ false ∷ false ∷ false ∷ false ∷ false ∷ []) }
    ensures gt_array { answers_at_a "$gt" (array (number 5 ∷ [])) ≡ Ok (false ∷ true ∷ true ∷ false ∷ false ∷ false ∷ false ∷ []) }
{}

/// What is not there is at least and at most null, and neither less nor greater. Without a value there is nothing to compare with
/// MinKey or MaxKey.
pub fn compared_with_ends_at_a()
    ensures gt_null { answers_at_a "$gt" null_value ≡ Ok (false ∷ false ∷ false ∷ false ∷ false ∷ false ∷ false ∷ []) }
    ensures gte_null { answers_at_a "$gte" null_value ≡ Ok (false ∷ false ∷ false ∷ false ∷ false ∷ true ∷ true ∷ []) }
    ensures lt_null { answers_at_a "$lt" null_value ≡ Ok (false ∷ false ∷ false ∷ false ∷ false ∷ false ∷ false ∷ []) }
    ensures lte_null { answers_at_a "$lte" null_value ≡ Ok (false ∷ false ∷ false ∷ false ∷ false ∷ true ∷ true ∷ []) }
    ensures gt_least { answers_at_a "$gt" min_key_value ≡ Ok (true ∷ true ∷ true ∷ true ∷ true ∷ true ∷ false ∷ []) }
    ensures gte_greatest { answers_at_a "$gte" max_key_value ≡ Ok (false ∷ false ∷ false ∷ false ∷ false ∷ false ∷ false ∷ []) }
    ensures lte_greatest { answers_at_a "$lte" max_key_value ≡ Ok (true ∷ true ∷ true ∷ true ∷ true ∷ true ∷ false ∷ []) }
{}

/// A value MinKey or MaxKey is compared with MinKey and MaxKey alone.
pub fn ends_at_a()
    ensures least { (answer (one "a" (inner "$lt" (number 5))) (one "a" min_key_value) ≡ Ok false)
        × (answer (one "a" (inner "$lte" null_value)) (one "a" min_key_value) ≡ Ok false)
        × (answer (one "a" (inner "$lte" min_key_value)) (one "a" min_key_value) ≡ Ok true) }
    ensures greatest { (answer (one "a" (inner "$gt" (number 5))) (one "a" max_key_value) ≡ Ok false)
        × (answer (one "a" (inner "$gt" min_key_value)) (one "a" max_key_value) ≡ Ok true)
        × (answer (one "a" (inner "$eq" max_key_value)) (one "a" max_key_value) ≡ Ok true) }
    ensures array { (answer (one "a" (inner "$gt" min_key_value)) (one "a" (array [])) ≡ Ok true)
        × (answer (one "a" (inner "$eq" min_key_value)) (one "a" (number 5)) ≡ Ok false)
        × (answer (one "a" (inner "$gte" min_key_value)) no_fields ≡ Ok false) }
{}

/// `$in` is some equality, `$nin` none, `$all` each of at least one.
pub fn listed_at_a()
    ensures among { answers_at_a "$in" (array (number 5 ∷ string_value (codes "5") ∷ [])) ≡ Ok (true ∷ true ∷ false ∷ false ∷ true ∷ false ∷ false ∷ []) }
    ensures in_null { answers_at_a "$in" (array (null_value ∷ [])) ≡ Ok (false ∷ false ∷ false ∷ false ∷ false ∷ true ∷ true ∷ []) }
    ensures in_none { answers_at_a "$in" (array []) ≡ Ok (false ∷ false ∷ false ∷ false ∷ false ∷ false ∷ false ∷ []) }
    ensures none_of { answers_at_a "$nin" (array (number 5 ∷ string_value (codes "5") ∷ [])) ≡ Ok (false ∷ false ∷ true ∷ true ∷ false ∷ true ∷ true ∷ []) }
    ensures nin_none { answers_at_a "$nin" (array []) ≡ Ok (true ∷ true ∷ true ∷ true ∷ true ∷ true ∷ true ∷ []) }
    ensures all { answers_at_a "$all" (array (number 5 ∷ [])) ≡ Ok (true ∷ true ∷ false ∷ false ∷ false ∷ false ∷ false ∷ []) }
    ensures all_both { answers_at_a "$all" (array (number 7 ∷ number 5 ∷ [])) ≡ Ok (false ∷ true ∷ false ∷ false ∷ false ∷ false ∷ false ∷ []) }
    ensures all_array { answers_at_a "$all" (array (array (number 5 ∷ number 7 ∷ []) ∷ [])) ≡ Ok (false ∷ true ∷ true ∷ false ∷ false ∷ false ∷ false ∷ []) }
    ensures all_null { answers_at_a "$all" (array (null_value ∷ [])) ≡ Ok (false ∷ false ∷ false ∷ false ∷ false ∷ true ∷ true ∷ []) }
    ensures all_none { answers_at_a "$all" (array []) ≡ Ok (false ∷ false ∷ false ∷ false ∷ false ∷ false ∷ false ∷ []) }
{}

/// `$size` and `$exists` look at values, and not at elements.
pub fn counted_at_a()
    ensures size { answers_at_a "$size" (number 2) ≡ Ok (false ∷ true ∷ false ∷ false ∷ false ∷ false ∷ false ∷ []) }
    ensures size_one { answers_at_a "$size" (int64_value (pos 1)) ≡ Ok (false ∷ false ∷ true ∷ false ∷ false ∷ false ∷ false ∷ []) }
    ensures size_none { answers_at_a "$size" (number 0) ≡ Ok (false ∷ false ∷ false ∷ true ∷ false ∷ false ∷ false ∷ []) }
    ensures size_below { answers_at_a "$size" (int32_value (negsuc 0)) ≡ Ok (false ∷ false ∷ false ∷ false ∷ false ∷ false ∷ false ∷ []) }
    ensures exists { answers_at_a "$exists" (boolean_value true) ≡ Ok (true ∷ true ∷ true ∷ true ∷ true ∷ true ∷ false ∷ []) }
    ensures exists_not { answers_at_a "$exists" (boolean_value false) ≡ Ok (false ∷ false ∷ false ∷ false ∷ false ∷ false ∷ true ∷ []) }
{}

/// One element by itself passes all operators of `$elemMatch`; its own elements are none of it. `$not` holds where not all hold.
pub fn elements_at_a()
    ensures element { answers_at_a "$elemMatch" (inner "$gt" (number 5)) ≡ Ok (false ∷ true ∷ false ∷ false ∷ false ∷ false ∷ false ∷ []) }
    ensures element_size { answers_at_a "$elemMatch" (inner "$size" (number 2)) ≡ Ok (false ∷ false ∷ true ∷ false ∷ false ∷ false ∷ false ∷ []) }
    ensures element_ne { answers_at_a "$elemMatch" (inner "$ne" (number 5)) ≡ Ok (false ∷ true ∷ true ∷ false ∷ false ∷ false ∷ false ∷ []) }
    ensures element_null { answers_at_a "$elemMatch" (inner "$eq" null_value) ≡ Ok (false ∷ false ∷ false ∷ false ∷ false ∷ false ∷ false ∷ []) }
    ensures one_element { answers_at_a "$elemMatch" (document_value (two "$gt" (number 5) "$lt" (number 7)))
        ≡ Ok (false ∷ false ∷ false ∷ false ∷ false ∷ false ∷ false ∷ []) }
    ensures two_elements { answers (one "a" (document_value (two "$gt" (number 5) "$lt" (number 7)))) documents_with_a
        ≡ Ok (false ∷ true ∷ false ∷ false ∷ false ∷ false ∷ false ∷ []) }
    ensures negated { answers_at_a "$not" (inner "$gt" (number 5)) ≡ Ok (true ∷ false ∷ true ∷ true ∷ true ∷ true ∷ true ∷ []) }
    ensures not_both { answers_at_a "$not" (document_value (two "$gt" (number 4) "$lt" (number 6)))
        ≡ Ok (false ∷ false ∷ true ∷ true ∷ true ∷ true ∷ true ∷ []) }
    ensures not_either { answers_at_a "$not" (document_value (two "$gt" (number 4) "$lt" (number 4)))
        ≡ Ok (true ∷ true ∷ true ∷ true ∷ true ∷ true ∷ true ∷ []) }
{}

/// At a path, there are values and a gap side by side; an array of no documents has neither.
pub fn gaps_at_b()
    ensures eq { answers_at_b "$eq" (number 5) ≡ Ok (true ∷ false ∷ false ∷ false ∷ true ∷ true ∷ []) }
    ensures eq_null { answers_at_b "$eq" null_value ≡ Ok (true ∷ false ∷ false ∷ true ∷ false ∷ false ∷ []) }
    ensures ne { answers_at_b "$ne" (number 5) ≡ Ok (false ∷ true ∷ true ∷ true ∷ false ∷ false ∷ []) }
    ensures ne_null { answers_at_b "$ne" null_value ≡ Ok (false ∷ true ∷ true ∷ false ∷ true ∷ true ∷ []) }
    ensures gt_null { answers_at_b "$gt" null_value ≡ Ok (false ∷ false ∷ false ∷ false ∷ false ∷ false ∷ []) }
    ensures gte_null { answers_at_b "$gte" null_value ≡ Ok (true ∷ false ∷ false ∷ true ∷ false ∷ false ∷ []) }
    ensures gt { answers_at_b "$gt" (number 5) ≡ Ok (false ∷ true ∷ false ∷ false ∷ true ∷ true ∷ []) }
    ensures exists { answers_at_b "$exists" (boolean_value true) ≡ Ok (true ∷ true ∷ false ∷ false ∷ true ∷ true ∷ []) }
    ensures exists_not { answers_at_b "$exists" (boolean_value false) ≡ Ok (false ∷ false ∷ true ∷ true ∷ false ∷ false ∷ []) }
{}

/// Operators on lists, sizes and elements at the same path.
pub fn arrays_at_b()
    ensures in_null { answers_at_b "$in" (array (null_value ∷ [])) ≡ Ok (true ∷ false ∷ false ∷ true ∷ false ∷ false ∷ []) }
    ensures nin_null { answers_at_b "$nin" (array (null_value ∷ [])) ≡ Ok (false ∷ true ∷ true ∷ false ∷ true ∷ true ∷ []) }
    ensures all_null { answers_at_b "$all" (array (number 5 ∷ null_value ∷ [])) ≡ Ok (true ∷ false ∷ false ∷ false ∷ false ∷ false ∷ []) }
    ensures all { answers_at_b "$all" (array (number 5 ∷ number 7 ∷ [])) ≡ Ok (false ∷ false ∷ false ∷ false ∷ true ∷ true ∷ []) }
    ensures size { answers_at_b "$size" (number 1) ≡ Ok (false ∷ false ∷ false ∷ false ∷ false ∷ true ∷ []) }
    ensures element { answers_at_b "$elemMatch" (inner "$gt" (number 5)) ≡ Ok (false ∷ false ∷ false ∷ false ∷ true ∷ true ∷ []) }
    ensures negated { answers_at_b "$not" (inner "$eq" (number 5)) ≡ Ok (false ∷ true ∷ true ∷ true ∷ false ∷ false ∷ []) }
{}

/// `$elemMatch` with a query: one element, which is a document, matches all of it. `{}` is matched by any document.
pub fn documents_at_a()
    ensures one_document { answers (one "a" (inner "$elemMatch" (inner "b" (number 5)))) documents_with_b
        ≡ Ok (true ∷ false ∷ false ∷ false ∷ false ∷ true ∷ []) }
    ensures two_documents { answers (one "a" (inner "$elemMatch" (document_value (two "b" (number 5) "c" (number 1))))) documents_with_b
        ≡ Ok (false ∷ false ∷ false ∷ false ∷ false ∷ false ∷ []) }
    ensures any_document { answers (one "a" (inner "$elemMatch" (document_value no_fields))) documents_with_b
        ≡ Ok (true ∷ true ∷ false ∷ false ∷ false ∷ true ∷ []) }
    ensures gap_in_document { answers (one "a" (inner "$elemMatch" (inner "b" null_value))) documents_with_b
        ≡ Ok (true ∷ false ∷ false ∷ false ∷ false ∷ false ∷ []) }
    ensures null_element { (answer (one "a" (inner "$elemMatch" (inner "$eq" null_value))) (one "a" (array (null_value ∷ []))) ≡ Ok true)
        × (answer (one "a" (inner "$elemMatch" (inner "$gt" (number 1)))) (one "a" (array (array (number 5 ∷ []) ∷ []))) ≡ Ok false) }
{}
