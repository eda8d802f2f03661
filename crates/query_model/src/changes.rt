//! Which documents are changes, with their edits in the order of paths, or the first fault.

ghost use Rattle.std.specs.Prelude.{◌≡◌, [], ◌∷◌, codes, Err, Ok};
ghost use Rattle.bson_model.specs.Tree.{document_value, no_fields, null_value};
ghost use Rattle.query_model.specs.Paths.{digits_part, dollar_part, empty_part};
ghost use Rattle.query_model.specs.Queries.{bad_operand, path_fault, unknown_operator};
ghost use Rattle.query_model.specs.Changes.{edits, inc_edit, max_edit, min_edit, read_change, replacement, set_edit, unset_edit};
ghost use Rattle.query_model.specs.SampleChanges.{by, long, setting, text};
ghost use Rattle.query_model.specs.SampleQueries.{array, inner, number, one, two};

/// A document with no outermost name that begins with `$` is a replacement, `{}` too. Names further in are free.
pub fn replacements()
    ensures empty { read_change no_fields ≡ Ok (replacement no_fields) }
    ensures plain { read_change (two "_id" (number 1) "a.0" (number 2)) ≡ Ok (replacement (two "_id" (number 1) "a.0" (number 2))) }
    ensures within { read_change (one "x" (inner "$set" (number 1))) ≡ Ok (replacement (one "x" (inner "$set" (number 1)))) }
{}

/// Else each name is an operator's, before and after names that are none.
pub fn operators()
    ensures each { (read_change (setting "a" (number 1)) ≡ Ok (edits ((codes "a" ∷ [], set_edit (number 1)) ∷ [])))
        × (read_change (by "$unset" "a" (text "")) ≡ Ok (edits ((codes "a" ∷ [], unset_edit) ∷ [])))
        × (read_change (by "$inc" "a" (long 1)) ≡ Ok (edits ((codes "a" ∷ [], inc_edit (long 1)) ∷ [])))
        × (read_change (by "$min" "a" null_value) ≡ Ok (edits ((codes "a" ∷ [], min_edit null_value) ∷ [])))
        × (read_change (by "$max" "a" (number 1)) ≡ Ok (edits ((codes "a" ∷ [], max_edit (number 1)) ∷ []))) }
    ensures others { (read_change (by "$push" "a" (number 1)) ≡ Err unknown_operator)
        × (read_change (two "a" (number 1) "$set" (document_value no_fields)) ≡ Err unknown_operator)
        × (read_change (two "$set" (document_value no_fields) "a" (number 1)) ≡ Err unknown_operator) }
    ensures empty { read_change (one "$set" (document_value no_fields)) ≡ Ok (edits []) }
    ensures free { read_change (setting "a" (inner "$b" (number 1))) ≡ Ok (edits ((codes "a" ∷ [], set_edit (inner "$b" (number 1))) ∷ [])) }
{}

/// An operator takes a document, and `$inc` takes numbers.
pub fn operands()
    ensures documents { (read_change (one "$set" (number 5)) ≡ Err bad_operand)
        × (read_change (one "$unset" (array [])) ≡ Err bad_operand) }
    ensures numbers { (read_change (by "$inc" "a" (text "1")) ≡ Err bad_operand)
        × (read_change (by "$inc" "a" null_value) ≡ Err bad_operand) }
    ensures paths { (read_change (setting "a." (number 1)) ≡ Err (path_fault empty_part))
        × (read_change (by "$inc" "a.0" (number 1)) ≡ Err (path_fault digits_part))
        × (read_change (by "$unset" "a.$b" (number 1)) ≡ Err (path_fault dollar_part)) }
{}

/// Edits go in the order of their paths, over all operators: part by part, so that `a.b` comes before `a-b`. An operator may occur twice.
pub fn in_order()
    ensures names { read_change (one "$set" (document_value (two "b" (number 1) "a" (number 2))))
        ≡ Ok (edits ((codes "a" ∷ [], set_edit (number 2)) ∷ (codes "b" ∷ [], set_edit (number 1)) ∷ [])) }
    ensures over_operators { read_change (two "$inc" (inner "z" (number 1)) "$set" (inner "a.b" (number 1)))
        ≡ Ok (edits ((codes "a" ∷ codes "b" ∷ [], set_edit (number 1)) ∷ (codes "z" ∷ [], inc_edit (number 1)) ∷ [])) }
    ensures parts { read_change (one "$set" (document_value (two "a-b" (number 1) "a.b" (number 2))))
        ≡ Ok (edits ((codes "a" ∷ codes "b" ∷ [], set_edit (number 2)) ∷ (codes "a-b" ∷ [], set_edit (number 1)) ∷ [])) }
    ensures bytes { read_change (one "$set" (document_value (two "a" (number 1) "B" (number 2))))
        ≡ Ok (edits ((codes "B" ∷ [], set_edit (number 2)) ∷ (codes "a" ∷ [], set_edit (number 1)) ∷ [])) }
    ensures twice { read_change (two "$set" (inner "b" (number 1)) "$set" (inner "a" (number 2)))
        ≡ Ok (edits ((codes "a" ∷ [], set_edit (number 2)) ∷ (codes "b" ∷ [], set_edit (number 1)) ∷ [])) }
{}

/// No path occurs twice or is a prefix of another, over all operators. `a` is no prefix of `ab`.
pub fn apart()
    ensures twice { (read_change (one "$set" (document_value (two "a" (number 1) "a" (number 1)))) ≡ Err bad_operand)
        × (read_change (two "$set" (inner "a" (number 1)) "$inc" (inner "a" (number 1))) ≡ Err bad_operand) }
    ensures in_front { (read_change (two "$set" (inner "a" (number 1)) "$unset" (inner "a.b" (number 1))) ≡ Err bad_operand)
        × (read_change (two "$set" (inner "a.b" (number 1)) "$unset" (inner "a" (number 1))) ≡ Err bad_operand)
        × (read_change (one "$set" (document_value (two "a.b.c" (number 1) "a.b" (number 1)))) ≡ Err bad_operand) }
    ensures beside { (read_change (one "$set" (document_value (two "a" (number 1) "ab" (number 2))))
        ≡ Ok (edits ((codes "a" ∷ [], set_edit (number 1)) ∷ (codes "ab" ∷ [], set_edit (number 2)) ∷ [])))
        × (read_change (one "$set" (document_value (two "a.b" (number 1) "a.c" (number 2))))
        ≡ Ok (edits ((codes "a" ∷ codes "b" ∷ [], set_edit (number 1)) ∷ (codes "a" ∷ codes "c" ∷ [], set_edit (number 2)) ∷ []))) }
{}

/// Of two faults the left is returned, of a field its name's before its operand's; that paths are not apart is returned last.
pub fn first_faults()
    ensures left { (read_change (two "$inc" (inner "a" (text "x")) "$foo" (number 1)) ≡ Err bad_operand)
        × (read_change (two "$foo" (number 1) "$inc" (inner "a" (text "x"))) ≡ Err unknown_operator) }
    ensures name { (read_change (one "$foo" (number 5)) ≡ Err unknown_operator)
        × (read_change (by "$inc" "a." (text "x")) ≡ Err (path_fault empty_part)) }
    ensures within { read_change (two "$set" (inner "a." (number 1)) "$inc" (number 5)) ≡ Err (path_fault empty_part) }
    ensures last { (read_change (two "$set" (document_value (two "a" (number 1) "a" (number 1))) "$foo" (number 1)) ≡ Err unknown_operator)
        × (read_change (two "$set" (document_value (two "a" (number 1) "a.b" (number 1))) "$set" (inner "c." (number 1))) ≡ Err (path_fault empty_part)) }
{}
