//! The laws between the definitions.

ghost use Rattle.std.specs.Prelude.{◌≡◌, ◌≢◌, ◌++◌, ◌∷◌, ℕ, List, [], Option, Some, None, false, true};
ghost use Rattle.std.specs.List.{AllByRecursion};
ghost use Rattle.bson_model.specs.Tree.{Datum, Fields};
ghost use Rattle.value_model.specs.Keys.{is_key, key_of};
ghost use Rattle.base_model.specs.Errors.{ErrorCode, duplicate_key, object_too_large};
ghost use Rattle.history_model.specs.Documents.{ListsDocuments, documents_at};
ghost use Rattle.query_model.specs.Effects.{IsUnder};
ghost use Rattle.history_model.specs.Versions.{Put, last_put, one_more};
ghost use Rattle.history_model.specs.Merges.{seen_by_both};
ghost use Rattle.history_model.specs.Notes.{Note, Seen, done_before, new_statement, seen, seen_with};
ghost use Rattle.history_model.specs.History.{Entry, IsBefore, IsSameStatement, Legal, MeetsNothing, Operation, StatementNumber, document_after, document_at, effect, fails_with, insert_operation, key_written, writes_to};

/// No two entries of a legal history have one time and one shard, and none is the statement of another.
pub fn no_entry_twice()
    ensures rises { (prefix middle back : List Entry) (d e : Entry) → Legal (prefix ++ d ∷ (middle ++ e ∷ back)) → IsBefore d e }
    ensures never_equal { (d e : Entry) → IsBefore d e → d.time ≡ e.time → d.shard ≢ e.shard }
    ensures once { (prefix middle back : List Entry) (d e : Entry) → Legal (prefix ++ d ∷ (middle ++ e ∷ back)) → IsSameStatement d e → ⊥ }
{}

/// A second insert under a key returns that the key is a duplicate, where the first did not return that its document is too large, and only other keys and
/// other namespaces were written between the two.
pub fn second_insert_is_refused()
    ensures { (prefix middle back : List Entry) (d e : Entry) (first second : Fields) → Legal (prefix ++ d ∷ (middle ++ e ∷ back)) → d.operation ≡ insert_operation first → d.outcome.error ≢ Some object_too_large → e.operation ≡ insert_operation second → writes_to e.namespace (key_of second) d ≡ true → AllByRecursion (λ m. writes_to e.namespace (key_of second) m ≡ false) middle → e.outcome ≡ fails_with duplicate_key }
{}

/// An entry does not change the documents under other keys and in other namespaces.
pub fn others_untouched()
    ensures { (namespace : List ℕ) (key : Option Datum) (before : Option Fields) (entries : List Entry) (e : Entry) → writes_to namespace key e ≡ false → document_after namespace key before (entries ++ e ∷ []) ≡ document_after namespace key before entries }
{}

/// A statement that returns an error does not change the document under its key.
pub fn refused_leaves()
    ensures { (operation : Operation) (before : Option Fields) (error : ErrorCode) → (effect operation before).1.error ≡ Some error → (effect operation before).0 ≡ before }
{}

/// An operation results in no document, or in one with the key that it writes; so each document is stored under its key.
#[tactic(auto, using(crate::proofs::Keyed::operation_keeps, crate::proofs::Keyed::after_under))]
pub fn keys_stay()
    ensures operation { (operation : Operation) (before : Option Fields) (key : Datum) → key_written operation ≡ Some key → is_key key ≡ true
        → IsUnder key before → IsUnder key (effect operation before).0 }
    ensures entries { (namespace : List ℕ) (key : Datum) (before : Option Fields) (entries : List Entry) → is_key key ≡ true
        → IsUnder key before → IsUnder key (document_after namespace (Some key) before entries) }
{}

/// An operation without a key finds no document or returns error 2; so its entry says that it did nothing.
#[tactic(auto, using(crate::proofs::Keyed::keyless_meets_nothing, crate::proofs::Keyed::keyless_counts_nothing))]
pub fn nothing_without_key()
    ensures operation { (operation : Operation) → key_written operation ≡ None → MeetsNothing (effect operation None) }
    ensures entries { (prefix back : List Entry) (e : Entry) → Legal (prefix ++ e ∷ back) → key_written e.operation ≡ None → e.outcome.count ≡ 0 }
{}

/// The documents at a time are, in the order of keys and each once, the document under each key at that time; and there is one such list.
pub fn documents_in_order()
    ensures collection { (history : List Entry) (namespace : List ℕ) (time : ℕ)
        → ListsDocuments (λ key. document_at history namespace (Some key) time) (documents_at history namespace time) }
    ensures one { (under : Datum → Option Fields) (a b : List Fields) → ListsDocuments under a → ListsDocuments under b → a ≡ b }
{}

/// One more note, of a number that was new: a retry of it returns its reply, and the state of other numbers changes as `seen_with` says.
pub fn one_more_note<A>()
    ensures others { (notes : List (Note A)) (note : Note A) (number : StatementNumber) → seen notes note.number ≡ new_statement
        → seen (notes ++ note ∷ []) number ≡ seen_with note number (seen notes number) }
    ensures own { (notes : List (Note A)) (note : Note A) → seen notes note.number ≡ new_statement
        → seen (notes ++ note ∷ []) note.number ≡ done_before note.time note.told }
{}

/// A number against notes that come after others is what `seen_by_both` says of both. A statement that either covers, since it was
/// done or its session has a greater transaction, is covered by both: where it is new, it is new by each.
pub fn notes_of_both<A>()
    ensures both { (notes others : List (Note A)) (number : StatementNumber) → seen (notes ++ others) number ≡ seen_by_both (seen notes number) (seen others number) }
    ensures covered { (notes others : List (Note A)) (number : StatementNumber) → seen (notes ++ others) number ≡ new_statement
        → (seen notes number ≡ new_statement) × (seen others number ≡ new_statement) }
    ensures joined { (x y z : Seen A) → seen_by_both (seen_by_both x y) z ≡ seen_by_both x (seen_by_both y z) }
    ensures itself { (x : Seen A) → seen_by_both x x ≡ x }
{}

/// One more version sets the document under its key from its time on, and changes nothing else.
#[tactic(auto, using(crate::proofs::Versions::one_more_put))]
pub fn one_more_put()
    ensures { (puts : List Put) (put : Put) (key : Datum) (time : ℕ) → last_put (puts ++ put ∷ []) key time ≡ one_more put key time (last_put puts key time) }
{}
