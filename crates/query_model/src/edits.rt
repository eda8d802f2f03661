//! What changes make of documents, on values that one can check by hand.

ghost use Rattle.std.specs.Prelude.{◌≡◌, ◌≤◌, [], ◌∷◌, codes, false, length, negsuc, pos, true, Err, None, Ok, Some};
ghost use Rattle.bson_model.specs.SampleDocuments.{nested};
ghost use Rattle.bson_model.specs.Spelling.{written};
ghost use Rattle.bson_model.specs.Tree.{document_depth, document_value, Fields, int32_value, int64_value, max_key_value, min_key_value, no_fields, field, null_value};
ghost use Rattle.query_model.specs.Edits.{immutable_fault, is_too_large, not_document_fault, not_number_fault, overflow_fault, put_at, take_at, too_large_fault, value_at};
ghost use Rattle.query_model.specs.SampleChanges.{Becomes, FailsWith, by, greatest_int32, greatest_int64, kept, long, setting, text};
ghost use Rattle.query_model.specs.SampleQueries.{array, inner, number, one, two};

/// The value is at the path: in the first field of a name, or after all others; a document that is missing on the way is made.
pub fn put()
    ensures there { put_at (codes "a" ∷ []) (number 2) (two "a" (number 1) "b" (number 5)) ≡ Ok (two "a" (number 2) "b" (number 5)) }
    ensures last { put_at (codes "a" ∷ []) (number 2) (one "b" (number 5)) ≡ Ok (two "b" (number 5) "a" (number 2)) }
    ensures first { put_at (codes "a" ∷ []) (number 2) (two "a" (number 1) "a" (number 1)) ≡ Ok (two "a" (number 2) "a" (number 1)) }
    ensures inside { put_at (codes "a" ∷ codes "b" ∷ []) (number 2) (one "a" (document_value (two "b" (number 1) "c" (number 5))))
        ≡ Ok (one "a" (document_value (two "b" (number 2) "c" (number 5)))) }
    ensures made { put_at (codes "a" ∷ codes "b" ∷ codes "c" ∷ []) (number 2) (one "x" (number 5))
        ≡ Ok (two "x" (number 5) "a" (inner "b" (inner "c" (number 2)))) }
    ensures first_way { put_at (codes "a" ∷ codes "b" ∷ []) (number 2) (two "a" (inner "c" (number 1)) "a" (inner "b" (number 1)))
        ≡ Ok (two "a" (document_value (two "c" (number 1) "b" (number 2))) "a" (inner "b" (number 1))) }
    ensures no_document { (put_at (codes "a" ∷ codes "b" ∷ []) (number 2) (one "a" (number 1)) ≡ Err not_document_fault)
        × (put_at (codes "a" ∷ codes "b" ∷ []) (number 2) (one "a" null_value) ≡ Err not_document_fault)
        × (put_at (codes "a" ∷ codes "b" ∷ []) (number 2) (one "a" (array (inner "b" (number 1) ∷ []))) ≡ Err not_document_fault)
        × (put_at (codes "a" ∷ codes "b" ∷ codes "c" ∷ []) (number 2) (one "a" (inner "b" (number 1))) ≡ Err not_document_fault) }
{}

/// The first field of the name is removed, and the second then shows. Nothing is made, and nothing happens where there is no value.
pub fn taken()
    ensures there { take_at (codes "a" ∷ []) (two "a" (number 1) "b" (number 5)) ≡ one "b" (number 5) }
    ensures first { take_at (codes "a" ∷ []) (two "a" (number 1) "a" (number 2)) ≡ one "a" (number 2) }
    ensures inside { (take_at (codes "a" ∷ codes "b" ∷ []) (one "a" (inner "b" (number 1))) ≡ one "a" (document_value no_fields))
        × (take_at (codes "a" ∷ codes "b" ∷ []) (two "a" (document_value (two "b" (number 1) "c" (number 5))) "x" (number 1)) ≡ two "a" (inner "c" (number 5)) "x" (number 1)) }
    ensures nothing { (take_at (codes "a" ∷ codes "b" ∷ []) (one "x" (number 5)) ≡ one "x" (number 5))
        × (take_at (codes "a" ∷ codes "b" ∷ []) (one "a" (number 1)) ≡ one "a" (number 1))
        × (take_at (codes "a" ∷ codes "b" ∷ []) (one "a" (array (inner "b" (number 1) ∷ []))) ≡ one "a" (array (inner "b" (number 1) ∷ []))) }
    ensures unset { (Becomes (by "$unset" "a.b" (text "")) (kept "a" (inner "b" (number 1))) (kept "a" (document_value no_fields)))
        × (Becomes (by "$unset" "a.b" (text "")) (kept "x" (number 1)) (kept "x" (number 1)))
        × (Becomes (by "$unset" "a.b" (text "")) (kept "a" null_value) (kept "a" null_value)) }
{}

/// A sum of two int32 is one where it fits, and else an int64; with an int64 it is an int64. What is not there takes the operand.
pub fn sums()
    ensures short { (Becomes (by "$inc" "a" (number 2)) (kept "a" (number 5)) (kept "a" (number 7)))
        × (Becomes (by "$inc" "a" (int32_value (negsuc 6))) (kept "a" (number 5)) (kept "a" (int32_value (negsuc 1)))) }
    ensures grows { (Becomes (by "$inc" "a" (number 1)) (kept "a" greatest_int32) (kept "a" (long 2147483648)))
        × (Becomes (by "$inc" "a" (int32_value (negsuc 0))) (kept "a" (int32_value (negsuc 2147483647))) (kept "a" (int64_value (negsuc 2147483648))))
        × (Becomes (by "$inc" "a" (int32_value (negsuc 0))) (kept "a" (int32_value (negsuc 2147483646))) (kept "a" (int32_value (negsuc 2147483647)))) }
    ensures long { (Becomes (by "$inc" "a" (long 0)) (kept "a" (number 5)) (kept "a" (long 5)))
        × (Becomes (by "$inc" "a" (number 1)) (kept "a" (long 5)) (kept "a" (long 6)))
        × (Becomes (by "$inc" "a" (int32_value (negsuc 0))) (kept "a" (long 2147483648)) (kept "a" (long 2147483647))) }
    ensures overflow { (FailsWith (by "$inc" "a" (number 1)) (kept "a" greatest_int64) overflow_fault)
        × (FailsWith (by "$inc" "a" greatest_int64) (kept "a" (number 1)) overflow_fault)
        × (FailsWith (by "$inc" "a" (int64_value (negsuc 0))) (kept "a" (int64_value (negsuc 9223372036854775807))) overflow_fault) }
    ensures absent { (Becomes (by "$inc" "a" (long 2)) (one "_id" (number 1)) (kept "a" (long 2)))
        × (Becomes (by "$inc" "a.b" (number 2)) (kept "a" (inner "c" (number 1))) (kept "a" (document_value (two "c" (number 1) "b" (number 2))))) }
    ensures no_number { (FailsWith (by "$inc" "a" (number 1)) (kept "a" (text "5")) not_number_fault)
        × (FailsWith (by "$inc" "a" (number 1)) (kept "a" null_value) not_number_fault)
        × (FailsWith (by "$inc" "a" (number 1)) (kept "a" (array (number 1 ∷ []))) not_number_fault) }
{}

/// The operand where it is less or greater, by the order of all values; a value that compares equal keeps its encoding.
pub fn least_and_greatest()
    ensures least { (Becomes (by "$min" "a" (number 2)) (kept "a" (number 5)) (kept "a" (number 2)))
        × (Becomes (by "$min" "a" (number 7)) (kept "a" (number 5)) (kept "a" (number 5)))
        × (Becomes (by "$min" "a" (long 5)) (kept "a" (number 5)) (kept "a" (number 5))) }
    ensures greatest { (Becomes (by "$max" "a" (number 7)) (kept "a" (number 5)) (kept "a" (number 7)))
        × (Becomes (by "$max" "a" (number 2)) (kept "a" (number 5)) (kept "a" (number 5)))
        × (Becomes (by "$max" "a" (long 5)) (kept "a" (number 5)) (kept "a" (number 5))) }
    ensures classes { (Becomes (by "$max" "a" (text "")) (kept "a" (number 5)) (kept "a" (text "")))
        × (Becomes (by "$min" "a" (text "")) (kept "a" (number 5)) (kept "a" (number 5)))
        × (Becomes (by "$min" "a" min_key_value) (kept "a" null_value) (kept "a" min_key_value))
        × (Becomes (by "$max" "a" (number 5)) (kept "a" max_key_value) (kept "a" max_key_value)) }
    ensures absent { (Becomes (by "$min" "a" (number 2)) (one "_id" (number 1)) (kept "a" (number 2)))
        × (Becomes (by "$max" "a.b" null_value) (one "_id" (number 1)) (kept "a" (inner "b" null_value))) }
{}

/// `{$set: {b: 1, a: 2}}` of `{_id: 1}` is `{_id: 1, a: 2, b: 1}`: new fields come in the order of paths.
pub fn turns()
    ensures order { Becomes (one "$set" (document_value (two "b" (number 1) "a" (number 2)))) (one "_id" (number 1)) (field (codes "_id") (number 1) (two "a" (number 2) "b" (number 1))) }
    ensures nothing { Becomes (one "$set" (document_value no_fields)) (kept "a" (number 1)) (kept "a" (number 1)) }
    ensures first_fault { (FailsWith (two "$inc" (inner "z" (number 1)) "$set" (inner "a.b" (number 1))) (field (codes "_id") (number 1) (two "a" (number 1) "z" (text "t"))) not_document_fault)
        × (FailsWith (two "$inc" (inner "a" (number 1)) "$set" (inner "z.b" (number 1))) (field (codes "_id") (number 1) (two "z" (number 1) "a" (text "t"))) not_number_fault) }
    ensures whole { FailsWith (two "$set" (inner "a" (number 2)) "$inc" (inner "z" (number 1))) (field (codes "_id") (number 1) (two "a" (number 1) "z" (text "t"))) not_number_fault }
{}

/// The key stays, in whatever encoding; that it would be another is returned at the path `_id`. Below `_id` there is no document.
pub fn keys_stay()
    ensures another { (FailsWith (setting "_id" (number 2)) (kept "a" (number 1)) immutable_fault)
        × (FailsWith (by "$inc" "_id" (number 1)) (kept "a" (number 1)) immutable_fault)
        × (FailsWith (setting "_id" (array (number 1 ∷ []))) (kept "a" (number 1)) immutable_fault)
        × (FailsWith (by "$unset" "_id" (text "")) (kept "a" (number 1)) immutable_fault)
        × (FailsWith (by "$min" "_id" (number 0)) (kept "a" (number 1)) immutable_fault) }
    ensures the_same { (Becomes (setting "_id" (long 1)) (kept "a" (number 1)) (two "_id" (long 1) "a" (number 1)))
        × (Becomes (by "$inc" "_id" (long 0)) (kept "a" (number 1)) (two "_id" (long 1) "a" (number 1)))
        × (Becomes (by "$max" "_id" (number 0)) (kept "a" (number 1)) (kept "a" (number 1)))
        × (Becomes (by "$unset" "_id" (text "")) (kept "_id" (long 1)) (one "_id" (long 1))) }
    ensures behind { FailsWith (by "$unset" "_id" (text "")) (kept "_id" (number 2)) immutable_fault }
    ensures below { (FailsWith (setting "_id.x" (number 1)) (kept "a" (number 1)) not_document_fault)
        × (Becomes (by "$unset" "_id.x" (number 1)) (kept "a" (number 1)) (kept "a" (number 1))) }
    ensures in_turn { (FailsWith (one "$set" (document_value (two "_id" (number 2) "a.x" (number 1)))) (kept "a" (number 1)) immutable_fault)
        × (FailsWith (one "$set" (document_value (two "_id" (number 2) "B.x" (number 1)))) (kept "B" (number 1)) not_document_fault)
        × (FailsWith (by "$inc" "_id" (number 1)) (two "_id" (text "k") "a" (number 1)) not_number_fault) }
{}

/// A replacement takes the place of all but the key: without `_id` it has the old one first, with one it has it where it is.
pub fn replaced()
    ensures in_front { (Becomes (one "x" (number 9)) (kept "a" (number 1)) (two "_id" (number 1) "x" (number 9)))
        × (Becomes (one "x" (number 9)) (two "a" (number 1) "_id" (number 1)) (two "_id" (number 1) "x" (number 9)))
        × (Becomes no_fields (kept "a" (number 1)) (one "_id" (number 1))) }
    ensures own { (Becomes (two "x" (number 9) "_id" (long 1)) (kept "a" (number 1)) (two "x" (number 9) "_id" (long 1)))
        × (FailsWith (two "x" (number 9) "_id" (number 2)) (kept "a" (number 1)) immutable_fault)
        × (FailsWith (one "_id" (inner "a" (number 1))) (kept "a" (number 1)) immutable_fault) }
{}

/// A result of 16,777,217 bytes or of 101 levels is too large, which is returned last; what was there before is not judged.
pub fn too_large()
    ensures most_bytes { (document : Fields) → length (written document) ≡ 16777216 → document_depth document ≤ 100 → is_too_large document ≡ false }
    ensures bytes { (document : Fields) → length (written document) ≡ 16777217 → is_too_large document ≡ true }
    ensures depth { (is_too_large (nested 99) ≡ false) × (is_too_large (nested 100) ≡ true) }
    ensures result { (Becomes (setting "a" (document_value (nested 98))) (one "_id" (number 1)) (kept "a" (document_value (nested 98))))
        × (FailsWith (setting "a" (document_value (nested 99))) (one "_id" (number 1)) too_large_fault)
        × (FailsWith (one "a" (document_value (nested 99))) (one "_id" (number 1)) too_large_fault)
        × (Becomes (by "$unset" "a" (number 1)) (kept "a" (document_value (nested 99))) (one "_id" (number 1))) }
    ensures last { (FailsWith (one "$set" (document_value (two "a" (document_value (nested 99)) "b.c" (number 1)))) (kept "b" (number 1)) not_document_fault)
        × (FailsWith (two "_id" (number 2) "a" (document_value (nested 99))) (one "_id" (number 1)) immutable_fault) }
{}

/// The value at a path is found by the first fields of its names, and not in arrays.
pub fn standing()
    ensures there { (value_at (codes "a" ∷ codes "b" ∷ []) (two "a" (inner "b" (number 1)) "a" (inner "b" (number 2))) ≡ Some (number 1))
        × (value_at (codes "a" ∷ codes "b" ∷ []) (two "a" (inner "c" (number 1)) "a" (inner "b" (number 2))) ≡ None)
        × (value_at (codes "a" ∷ codes "b" ∷ []) (one "a" (array (inner "b" (number 1) ∷ []))) ≡ None) }
{}
