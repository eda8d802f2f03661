//! Documents that are no queries, each with its first fault.

ghost use Rattle.std.specs.Prelude.{◌≡◌, [], ◌∷◌, false, is_ok, true, Err, Ok};
ghost use Rattle.bson_model.specs.Tree.{boolean_value, document_value, no_fields, null_value};
ghost use Rattle.query_model.specs.Paths.{digits_part, dollar_part, empty_part};
ghost use Rattle.query_model.specs.Queries.{bad_operand, path_fault, too_deep, unknown_operator};
ghost use Rattle.query_model.specs.Reading.{read_query};
ghost use Rattle.query_model.specs.SampleQueries.{array, flag, inner, number, one, two, within_and, within_not};

/// Names that are no operators where they occur.
pub fn names()
    ensures outermost { (read_query (one "$where" (number 1)) ≡ Err unknown_operator)
        × (read_query (one "$expr" (document_value no_fields)) ≡ Err unknown_operator)
        × (read_query (one "$comment" null_value) ≡ Err unknown_operator)
        × (read_query (one "$eq" (number 1)) ≡ Err unknown_operator)
        × (read_query (one "$not" (inner "$eq" (number 1))) ≡ Err unknown_operator) }
    ensures among_operators { (read_query (one "a" (document_value (two "$gt" (number 1) "b" (number 1)))) ≡ Err unknown_operator)
        × (read_query (one "a" (document_value (two "$ref" null_value "$id" null_value))) ≡ Err unknown_operator)
        × (read_query (one "a" (inner "$and" (array (inner "b" (number 1) ∷ [])))) ≡ Err unknown_operator) }
    ensures in_elements { (read_query (one "a" (inner "$elemMatch" (inner "$or" (array (inner "b" (number 1) ∷ []))))) ≡ Err unknown_operator)
        × (is_ok (read_query (one "a" (inner "$elemMatch" (document_value (two "b" (number 1) "$or" (array (inner "b" (number 1) ∷ []))))))) ≡ true) }
    ensures paths { (read_query (one "a." (number 1)) ≡ Err (path_fault empty_part))
        × (read_query (one "" (number 1)) ≡ Err (path_fault empty_part))
        × (read_query (one "a.0" (number 1)) ≡ Err (path_fault digits_part))
        × (read_query (one "a.$b" (number 1)) ≡ Err (path_fault dollar_part)) }
{}

/// Operands of another kind than their operator takes.
pub fn operands()
    ensures exists { (read_query (one "a" (inner "$exists" (number 1))) ≡ Err bad_operand)
        × (read_query (one "a" (inner "$exists" null_value)) ≡ Err bad_operand) }
    ensures size { (read_query (one "a" (inner "$size" (array []))) ≡ Err bad_operand)
        × (read_query (one "a" (inner "$size" (boolean_value true))) ≡ Err bad_operand) }
    ensures lists { (read_query (one "a" (inner "$in" (number 5))) ≡ Err bad_operand)
        × (read_query (one "a" (inner "$nin" (inner "a" (number 1)))) ≡ Err bad_operand)
        × (read_query (one "a" (inner "$all" null_value)) ≡ Err bad_operand) }
    ensures connectives { (read_query (one "$and" (array [])) ≡ Err bad_operand)
        × (read_query (one "$or" (inner "a" (number 1))) ≡ Err bad_operand)
        × (read_query (one "$nor" (array (inner "a" (number 1) ∷ number 5 ∷ []))) ≡ Err bad_operand) }
    ensures negated { (read_query (one "a" (inner "$not" (document_value no_fields))) ≡ Err bad_operand)
        × (read_query (one "a" (inner "$not" (number 5))) ≡ Err bad_operand)
        × (read_query (one "a" (inner "$not" (inner "b" (number 1)))) ≡ Err bad_operand) }
    ensures elements { (read_query (one "a" (inner "$elemMatch" (number 5))) ≡ Err bad_operand)
        × (read_query (one "a" (inner "$elemMatch" (array []))) ≡ Err bad_operand) }
{}

/// Of two faults the first is returned: a name's before its operand's, an operand's before what is in it, the left before the right.
pub fn ordered()
    ensures name { (read_query (one "a." (inner "$foo" (number 1))) ≡ Err (path_fault empty_part))
        × (read_query (one "$foo" (array (inner "a." (number 1) ∷ []))) ≡ Err unknown_operator) }
    ensures operand { read_query (one "$and" (array (inner "a." (number 1) ∷ number 5 ∷ []))) ≡ Err bad_operand }
    ensures within { read_query (one "$and" (array (inner "a." (number 1) ∷ inner "$foo" (number 5) ∷ []))) ≡ Err (path_fault empty_part) }
    ensures left { (read_query (two "a" (inner "$foo" (number 1)) "b." (number 1)) ≡ Err unknown_operator)
        × (read_query (two "b." (number 1) "a" (inner "$foo" (number 1))) ≡ Err (path_fault empty_part))
        × (read_query (one "a" (document_value (two "$in" (number 5) "$foo" (number 1)))) ≡ Err bad_operand) }
{}

/// The outermost query is level 1. Level 100 is read, and level 101 is too deep, before what is in it and after the operand by itself.
pub fn levels()
    ensures queries { (is_ok (read_query (within_and 99 (one "a" (inner "$gt" (number 1))))) ≡ true)
        × (read_query (within_and 100 no_fields) ≡ Err too_deep) }
    ensures tests { (is_ok (read_query (one "a" (document_value (within_not 99 (flag "$exists"))))) ≡ true)
        × (read_query (one "a" (document_value (within_not 100 (flag "$exists")))) ≡ Err too_deep) }
    ensures elements { (is_ok (read_query (within_and 98 (one "a" (inner "$elemMatch" (inner "b" (number 1)))))) ≡ true)
        × (read_query (within_and 99 (one "a" (inner "$elemMatch" (inner "b" (number 1))))) ≡ Err too_deep)
        × (read_query (within_and 99 (one "a" (inner "$elemMatch" (inner "$gt" (number 1))))) ≡ Err too_deep) }
    ensures inside { (read_query (within_and 100 (one "$foo" (number 1))) ≡ Err too_deep)
        × (read_query (within_and 99 (one "$and" (array (inner "a." (number 1) ∷ [])))) ≡ Err too_deep) }
    ensures operand { (read_query (within_and 99 (one "$and" (array []))) ≡ Err bad_operand)
        × (read_query (within_and 99 (one "a" (inner "$not" (number 5)))) ≡ Err bad_operand) }
{}
