//! What inserts, updates, upserts and deletes make of the document under their key, on values that one can check by hand.

ghost use Rattle.std.specs.Prelude.{◌≡◌, [], ◌∷◌, codes, false, true, Err, None, Ok, Some};
ghost use Rattle.bson_model.specs.SampleDocuments.{id_document, nested};
ghost use Rattle.bson_model.specs.Tree.{document_value, no_fields, field, Fields};
ghost use Rattle.query_model.specs.Paths.{empty_part};
ghost use Rattle.query_model.specs.Queries.{bad_operand, path_fault, unknown_operator};
ghost use Rattle.query_model.specs.Edits.{duplicate_fault, immutable_fault, not_document_fault, too_large_fault};
ghost use Rattle.query_model.specs.Writes.{insert_write, read_insert, read_update};
ghost use Rattle.query_model.specs.Effects.{deleted, effect_of, inserted, unmet};
ghost use Rattle.query_model.specs.SampleChanges.{by, delete_of, kept, long, setting, update_of, upsert_of};
ghost use Rattle.query_model.specs.SampleQueries.{array, inner, number, one, two};

/// An insert stores its document where none is there. That one is there is returned before the size.
pub fn inserts()
    ensures put { effect_of (insert_write (kept "a" (number 1))) None ≡ Ok (inserted (kept "a" (number 1))) }
    ensures duplicate { (effect_of (insert_write (kept "a" (number 1))) (Some (one "_id" (number 1))) ≡ Err duplicate_fault)
        × (effect_of (insert_write (nested 100)) (Some (one "_id" (number 1))) ≡ Err duplicate_fault) }
    ensures large { effect_of (insert_write (nested 100)) None ≡ Err too_large_fault }
{}

/// An update acts where the document is there and matches the filter. It counts what it matched, and as modified what is encoded anew.
pub fn updates()
    ensures changed { update_of (one "_id" (number 1)) (setting "a" (number 2)) (Some (kept "a" (number 1)))
        ≡ Ok (Ok (record { after = Some (kept "a" (number 2)); count = 1; modified = 1; upserted = None })) }
    ensures the_same { update_of (one "_id" (number 1)) (setting "a" (number 1)) (Some (kept "a" (number 1)))
        ≡ Ok (Ok (record { after = Some (kept "a" (number 1)); count = 1; modified = 0; upserted = None })) }
    ensures spelled { update_of (one "_id" (number 1)) (setting "a" (long 1)) (Some (kept "a" (number 1)))
        ≡ Ok (Ok (record { after = Some (kept "a" (long 1)); count = 1; modified = 1; upserted = None })) }
    ensures moved { update_of (one "_id" (number 1)) (two "b" (number 2) "a" (number 1)) (Some (field (codes "_id") (number 1) (two "a" (number 1) "b" (number 2))))
        ≡ Ok (Ok (record { after = Some (field (codes "_id") (number 1) (two "b" (number 2) "a" (number 1))); count = 1; modified = 1; upserted = None })) }
    ensures unmet { (update_of (two "_id" (number 1) "a" (number 5)) (setting "a" (number 2)) (Some (kept "a" (number 1))) ≡ Ok (Ok (unmet (Some (kept "a" (number 1))))))
        × (update_of (one "_id" (number 1)) (setting "a" (number 2)) None ≡ Ok (Ok (unmet None))) }
    ensures fault { update_of (one "_id" (number 1)) (setting "_id" (number 2)) (Some (kept "a" (number 1))) ≡ Ok (Err immutable_fault) }
    ensures unmet_first { update_of (two "_id" (number 1) "a" (number 5)) (setting "_id" (number 2)) (Some (kept "a" (number 1))) ≡ Ok (Ok (unmet (Some (kept "a" (number 1))))) }
{}

/// A delete takes the document out where the filter holds.
pub fn deletes()
    ensures taken { delete_of (one "_id" (number 1)) (Some (kept "a" (number 1))) ≡ Ok (Ok deleted) }
    ensures unmet { (delete_of (two "_id" (number 1) "a" (number 5)) (Some (kept "a" (number 1))) ≡ Ok (Ok (unmet (Some (kept "a" (number 1))))))
        × (delete_of (one "_id" (number 1)) None ≡ Ok (Ok (unmet None))) }
{}

/// An upsert of a document that is there is an update where the filter holds, and else a duplicate.
pub fn upserts_there()
    ensures holds { upsert_of (one "_id" (number 1)) (setting "a" (number 2)) (Some (kept "a" (number 1)))
        ≡ Ok (Ok (record { after = Some (kept "a" (number 2)); count = 1; modified = 1; upserted = None })) }
    ensures fails { upsert_of (two "_id" (number 1) "a" (number 5)) (setting "a" (number 2)) (Some (kept "a" (number 1))) ≡ Ok (Err duplicate_fault) }
{}

/// Else it begins with the equalities at the top of the filter, in its order, `_id` where it is; and then makes the change.
pub fn upserts()
    ensures begins { upsert_of (field (codes "a") (number 1) (two "_id" (number 1) "y" (inner "$gt" (number 3)))) (setting "x" (number 9)) None
        ≡ Ok (Ok (record { after = Some (field (codes "a") (number 1) (two "_id" (number 1) "x" (number 9))); count = 1; modified = 0; upserted = Some (number 1) })) }
    ensures by_operator { upsert_of (two "_id" (document_value (two "$gt" (number 0) "$eq" (number 1))) "a" (inner "$eq" (number 5))) (setting "x" (number 9)) None
        ≡ Ok (Ok (record { after = Some (field (codes "_id") (number 1) (two "a" (number 5) "x" (number 9))); count = 1; modified = 0; upserted = Some (number 1) })) }
    ensures twice { upsert_of (field (codes "_id") (number 1) (two "a" (number 1) "a" (number 2))) (one "$set" (document_value no_fields)) None
        ≡ Ok (Ok (record { after = Some (field (codes "_id") (number 1) (two "a" (number 1) "a" (number 2))); count = 1; modified = 0; upserted = Some (number 1) })) }
    ensures changed { upsert_of (two "_id" (number 1) "a" (number 5)) (by "$inc" "a" (number 1)) None
        ≡ Ok (Ok (record { after = Some (kept "a" (number 6)); count = 1; modified = 0; upserted = Some (number 1) })) }
    ensures replaced { (upsert_of (two "a" (number 5) "_id" (number 1)) (one "x" (number 9)) None
        ≡ Ok (Ok (record { after = Some (kept "x" (number 9)); count = 1; modified = 0; upserted = Some (number 1) })))
        × (upsert_of (one "_id" (number 1)) (two "x" (number 9) "_id" (long 1)) None
        ≡ Ok (Ok (record { after = Some (two "x" (number 9) "_id" (long 1)); count = 1; modified = 0; upserted = Some (long 1) })))
        × (upsert_of (one "_id" (number 1)) (two "x" (number 9) "_id" (number 2)) None ≡ Ok (Err immutable_fault)) }
    ensures faults { (upsert_of (two "_id" (number 1) "a" (number 5)) (setting "a.b" (number 1)) None ≡ Ok (Err not_document_fault))
        × (upsert_of (one "_id" (number 1)) (setting "_id" (number 2)) None ≡ Ok (Err immutable_fault))
        × (upsert_of (one "_id" (number 1)) (setting "a" (document_value (nested 99))) None ≡ Ok (Err too_large_fault)) }
{}

/// An upsert's filter has no dotted path and no connective, at whatever level, also where the document is there.
pub fn filters_of_upserts()
    ensures dotted { (upsert_of (two "_id" (number 1) "a.b" (number 5)) (setting "x" (number 9)) None ≡ Err bad_operand)
        × (upsert_of (two "_id" (number 1) "a" (inner "$elemMatch" (inner "b.c" (number 5)))) (setting "x" (number 9)) (Some (kept "a" (number 1))) ≡ Err bad_operand)
        × (upsert_of (two "_id" (number 1) "a" (inner "$not" (inner "$elemMatch" (inner "b.c" (number 5))))) (setting "x" (number 9)) None ≡ Err bad_operand) }
    ensures connective { (upsert_of (two "_id" (number 1) "$or" (array (inner "a" (number 5) ∷ []))) (setting "x" (number 9)) None ≡ Err bad_operand)
        × (upsert_of (two "_id" (number 1) "a" (inner "$elemMatch" (inner "$and" (array (inner "b" (number 5) ∷ []))))) (setting "x" (number 9)) None ≡ Err unknown_operator)
        × (upsert_of (two "_id" (number 1) "a" (inner "$elemMatch" (document_value (two "b" (number 1) "$and" (array (inner "b" (number 5) ∷ [])))))) (setting "x" (number 9)) None ≡ Err bad_operand) }
    ensures value { upsert_of (two "_id" (number 1) "a" (inner "b.c" (number 5))) (setting "x" (number 9)) None
        ≡ Ok (Ok (record { after = Some (field (codes "_id") (number 1) (two "a" (inner "b.c" (number 5)) "x" (number 9))); count = 1; modified = 0; upserted = Some (number 1) })) }
    ensures update { update_of (two "_id" (number 1) "a.b" (number 5)) (setting "x" (number 9)) None ≡ Ok (Ok (unmet None)) }
{}

/// Of an update's faults the filter's is returned first, then the change's, then that an upsert can't begin with the filter.
pub fn faults_of_words()
    ensures filter { read_update (one "a." (number 1)) (by "$foo" "a" (number 1)) true ≡ Err (path_fault empty_part) }
    ensures change { read_update (one "a.b" (number 1)) (by "$foo" "a" (number 1)) true ≡ Err unknown_operator }
    ensures start { read_update (two "_id" (number 1) "a.b" (number 1)) (setting "a" (number 1)) true ≡ Err bad_operand }
{}

/// An insert needs a document with a key to be stored under, and an upsert a filter that targets one; an update without one matches nothing.
pub fn keys_of_writes()
    ensures insert { read_insert (kept "a" (number 1)) ≡ Ok (insert_write (kept "a" (number 1))) }
    ensures no_insert { (read_insert (one "x" (number 1)) ≡ Err bad_operand) × (read_insert (one "_id" (array [])) ≡ Err bad_operand) }
    ensures no_upsert { (upsert_of (one "x" (number 1)) (setting "a" (number 2)) None ≡ Err bad_operand)
        × (upsert_of (one "_id" (array [])) (setting "a" (number 2)) None ≡ Err bad_operand)
        × (upsert_of (one "_id" (inner "$gt" (number 1))) (setting "a" (number 2)) None ≡ Err bad_operand) }
    ensures update { update_of (one "x" (number 1)) (setting "a" (number 2)) None ≡ Ok (Ok (unmet None)) }
{}
