//! The definitions on values that one can check by hand.

ghost use Rattle.std.specs.Prelude.{◌≡◌, ◌∷◌, [], ℕ, codes, Some, None, negsuc, pos, false, true};
ghost use Rattle.bson_model.specs.SampleDocuments.{id_document};
ghost use Rattle.bson_model.specs.Tree.{int32_value, int64_value};
ghost use Rattle.base_model.specs.Errors.{bad_value, duplicate_key, immutable_field, object_too_large, path_not_viable, type_mismatch};
ghost use Rattle.base_model.specs.Times.{timestamp};
ghost use Rattle.query_model.specs.Edits.{not_document_fault, not_number_fault, overflow_fault};
ghost use Rattle.history_model.specs.SampleEntries.{array_key, by_operator, client_seven, deep, entry_at, first_entry, life, note_of, sample_notes, second_entry, setting, statement, with_x};
ghost use Rattle.history_model.specs.Documents.{documents_at};
ghost use Rattle.history_model.specs.Notes.{done_before, new_statement, older_than, seen};
ghost use Rattle.history_model.specs.History.{Follows, IsBefore, IsIn, IsSameStatement, Legal, client_session, delete_operation, document_at, done, effect, error_of, fails_with, insert_operation, key_written, router_session, update_operation};

/// Entries in order, and the history of two inserts under one key: the first is done at Timestamp(1000, 2), and the second is a duplicate at Timestamp(1000,
/// 3).
pub fn ordered()
    ensures before { IsBefore first_entry second_entry × (IsBefore second_entry first_entry → ⊥) }
    ensures same { IsSameStatement first_entry first_entry × (IsSameStatement first_entry second_entry → ⊥) }
    ensures legal { Legal (first_entry ∷ second_entry ∷ []) }
    ensures unordered { Legal (second_entry ∷ first_entry ∷ []) → ⊥ }
    ensures untold { Legal (first_entry ∷ entry_at (timestamp 1000 3) 2 done ∷ []) → ⊥ }
{}

/// The document of the first insert exists from its time on, under its key and in its namespace.
pub fn found()
    ensures now { document_at (first_entry ∷ second_entry ∷ []) (codes "d.c") (Some (int32_value (pos 1))) (timestamp 1000 2) ≡ Some (id_document (pos 1)) }
    ensures later { document_at (first_entry ∷ second_entry ∷ []) (codes "d.c") (Some (int32_value (pos 1))) (timestamp 1000 3) ≡ Some (id_document (pos 1)) }
    ensures before { document_at (first_entry ∷ second_entry ∷ []) (codes "d.c") (Some (int32_value (pos 1))) (timestamp 1000 1) ≡ None }
    ensures other_key { document_at (first_entry ∷ second_entry ∷ []) (codes "d.c") (Some (int32_value (pos 2))) (timestamp 1000 3) ≡ None }
    ensures elsewhere { document_at (first_entry ∷ second_entry ∷ []) (codes "d.b") (Some (int32_value (pos 1))) (timestamp 1000 3) ≡ None }
{}

/// An insert of a document that is too large results in none; where its key exists, it is a duplicate.
pub fn too_large()
    ensures kept { effect (insert_operation (deep 98)) None ≡ (Some (deep 98), done) }
    ensures refused { effect (insert_operation (deep 99)) None ≡ (None, fails_with object_too_large) }
    ensures duplicate { effect (insert_operation (deep 99)) (Some (id_document (pos 1))) ≡ (Some (id_document (pos 1)), fails_with duplicate_key) }
{}

/// An update, an upsert and a delete of the document under their key, and an operation that reads as no write.
pub fn operations()
    ensures updated { effect (setting (pos 1) (pos 7) false) (Some (with_x (pos 1) (pos 5)))
        ≡ (Some (with_x (pos 1) (pos 7)), record { count = 1; modified = 1; upserted = None; error = None }) }
    ensures unmet { effect (setting (pos 1) (pos 7) false) None ≡ (None, record { count = 0; modified = 0; upserted = None; error = None }) }
    ensures upserted { effect (setting (pos 1) (pos 7) true) None
        ≡ (Some (with_x (pos 1) (pos 7)), record { count = 1; modified = 0; upserted = Some (int32_value (pos 1)); error = None }) }
    ensures deleted { effect (delete_operation (id_document (pos 1))) (Some (with_x (pos 1) (pos 5))) ≡ (None, record { count = 1; modified = 0; upserted = None; error = None }) }
    ensures fault { effect (update_operation (id_document (pos 1)) (by_operator "$inc" "_id" (pos 1)) false) (Some (with_x (pos 1) (pos 5)))
        ≡ (Some (with_x (pos 1) (pos 5)), fails_with immutable_field) }
    ensures unread { (effect (update_operation (id_document (pos 1)) (by_operator "$foo" "x" (pos 1)) false) (Some (with_x (pos 1) (pos 5))) ≡ (Some (with_x (pos 1) (pos 5)), fails_with bad_value))
        × (key_written (update_operation (id_document (pos 1)) (by_operator "$foo" "x" (pos 1)) false) ≡ None) }
    ensures keys { (key_written (setting (pos 1) (pos 7) false) ≡ Some (int32_value (pos 1)))
        × (key_written (delete_operation (id_document (pos 2))) ≡ Some (int32_value (pos 2))) }
    ensures told { (error_of overflow_fault ≡ bad_value) × (error_of not_number_fault ≡ type_mismatch) × (error_of not_document_fault ≡ path_not_viable) }
{}

/// An insert of a document without a key, or with an array as its key, returns error 2 and results in no document; no legal history says that it was done.
pub fn without_keys()
    ensures none { effect (insert_operation (by_operator "a" "b" (pos 1))) None ≡ (None, fails_with bad_value) }
    ensures array { effect (insert_operation array_key) None ≡ (None, fails_with bad_value) }
    ensures legal { Legal (record first_entry { operation = insert_operation array_key; outcome = fails_with bad_value } ∷ []) }
    ensures done { Legal (record first_entry { operation = insert_operation array_key } ∷ []) → ⊥ }
    ensures upsert { effect (update_operation array_key (by_operator "$set" "x" (pos 1)) true) None ≡ (None, fails_with bad_value) }
{}

/// A document is inserted, changed and deleted: the document under its key at each time, and all documents in the order of keys.
pub fn at_times()
    ensures legal { Legal life }
    ensures under { (document_at life (codes "d.c") (Some (int32_value (pos 1))) 3 ≡ Some (with_x (pos 1) (pos 5)))
        × (document_at life (codes "d.c") (Some (int64_value (pos 1))) 5 ≡ Some (with_x (pos 1) (pos 7)))
        × (document_at life (codes "d.c") (Some (int32_value (pos 1))) 6 ≡ None) }
    ensures all { (documents_at life (codes "d.c") 1 ≡ with_x (pos 2) (pos 5) ∷ [])
        × (documents_at life (codes "d.c") 3 ≡ with_x (pos 1) (pos 5) ∷ with_x (pos 2) (pos 5) ∷ [])
        × (documents_at life (codes "d.c") 5 ≡ with_x (pos 1) (pos 7) ∷ with_x (pos 2) (pos 5) ∷ [])
        × (documents_at life (codes "d.c") 6 ≡ with_x (pos 2) (pos 5) ∷ [])
        × (documents_at life (codes "d.b") 6 ≡ with_x (pos 1) (pos 5) ∷ []) }
{}

/// A retry of a statement returns its reply again; another statement of its session is new unless the session has a greater transaction.
pub fn seen_before()
    ensures repeated { seen sample_notes (statement client_seven (pos 4) 1) ≡ done_before 12 2 }
    ensures first { seen (note_of client_seven (pos 4) 1 20 9 ∷ sample_notes) (statement client_seven (pos 4) 1) ≡ done_before 20 9 }
    ensures other_index { seen sample_notes (statement client_seven (pos 4) 2) ≡ new_statement }
    ensures older { (seen sample_notes (statement client_seven (pos 3) 0) ≡ older_than (pos 4))
        × (seen sample_notes (statement client_seven (pos 2) 0) ≡ older_than (pos 4))
        × (seen sample_notes (statement client_seven (negsuc 0) 0) ≡ older_than (pos 4)) }
    ensures greater { seen sample_notes (statement client_seven (pos 5) 1) ≡ new_statement }
    ensures other_session { (seen sample_notes (statement (client_session (8 ∷ [])) (pos 4) 1) ≡ new_statement)
        × (seen sample_notes (statement (router_session 2 1 1) (pos 0) 0) ≡ done_before 13 3)
        × (seen sample_notes (statement (router_session 2 2 1) (pos 0) 0) ≡ new_statement) }
    ensures nothing { seen {A = ℕ} [] (statement client_seven (pos 4) 1) ≡ new_statement }
{}

/// Membership of an entry, and whether it follows others.
pub fn related()
    ensures kept { IsIn second_entry (first_entry ∷ second_entry ∷ []) × (IsIn second_entry [] → ⊥) }
    ensures follows { Follows (first_entry ∷ []) second_entry × (Follows (second_entry ∷ []) first_entry → ⊥) }
{}
