//! The definitions on journals that one can check by hand.

ghost use Rattle.std.specs.Prelude.{◌≡◌, ◌∷◌, [], codes, Some, None, pos, false};
ghost use Rattle.bson_model.specs.Tree.{int32_value};
ghost use Rattle.history_model.specs.Documents.{documents_at};
ghost use Rattle.history_model.specs.History.{IsBefore, Legal, document_at};
ghost use Rattle.history_model.specs.SampleEntries.{with_x};
ghost use Rattle.history_laws.specs.Merged.{AreApart, AreJournalsOf, IsRising, ShareNoKey, merged};
ghost use Rattle.history_laws.specs.SampleJournals.{changed_at_five, deleted_at_four, first_journal, inserted_at, keyless_on, second_journal};

/// Entries of two shards at one time are ordered by shard, whichever journal is taken first; an entry that one gets later may come before the last one of the
/// other; a statement number may be that of two keys.
pub fn two_journals()
    ensures journals { AreJournalsOf (1 ∷ 2 ∷ []) (first_journal ∷ second_journal ∷ []) }
    ensures apart { AreApart (first_journal ∷ second_journal ∷ []) }
    ensures merged { merged (first_journal ∷ second_journal ∷ []) ≡ inserted_at 1 3 1 ∷ inserted_at 2 3 2 ∷ deleted_at_four ∷ changed_at_five ∷ [] }
    ensures turned { merged (second_journal ∷ [] ∷ first_journal ∷ []) ≡ inserted_at 1 3 1 ∷ inserted_at 2 3 2 ∷ deleted_at_four ∷ changed_at_five ∷ [] }
    ensures before { merged (first_journal ∷ (inserted_at 2 3 2 ∷ []) ∷ []) ≡ inserted_at 1 3 1 ∷ inserted_at 2 3 2 ∷ changed_at_five ∷ [] }
    ensures legal { Legal first_journal × Legal second_journal × Legal (merged (first_journal ∷ second_journal ∷ [])) }
{}

/// The documents of both shards at a time.
pub fn documents()
    ensures three { documents_at (merged (first_journal ∷ second_journal ∷ [])) (codes "d.c") 3 ≡ with_x (pos 1) (pos 5) ∷ with_x (pos 2) (pos 5) ∷ [] }
    ensures five { documents_at (merged (first_journal ∷ second_journal ∷ [])) (codes "d.c") 5 ≡ with_x (pos 1) (pos 7) ∷ [] }
    ensures deleted { document_at (merged (first_journal ∷ second_journal ∷ [])) (codes "d.c") (Some (int32_value (pos 2))) 4 ≡ None }
{}

/// A shard has one journal: two lists of entries of one shard may have one time twice.
pub fn shard_twice()
    ensures refused { AreJournalsOf (1 ∷ 1 ∷ []) ((inserted_at 1 3 1 ∷ []) ∷ (inserted_at 1 3 2 ∷ []) ∷ []) → ⊥ }
    ensures unordered { IsRising (merged ((inserted_at 1 3 1 ∷ []) ∷ (inserted_at 1 3 2 ∷ []) ∷ [])) → ⊥ }
{}

/// A key that two journals write: each is legal, and together they are not.
pub fn key_shared()
    ensures legal { Legal (inserted_at 1 3 1 ∷ []) × Legal (inserted_at 2 4 1 ∷ []) }
    ensures shared { ShareNoKey (inserted_at 1 3 1 ∷ []) (inserted_at 2 4 1 ∷ []) → ⊥ }
    ensures merged { Legal (merged ((inserted_at 1 3 1 ∷ []) ∷ (inserted_at 2 4 1 ∷ []) ∷ [])) → ⊥ }
{}

/// Entries without a key share none, and may have one statement number.
pub fn keyless()
    ensures apart { AreApart ((keyless_on 1 ∷ []) ∷ (keyless_on 2 ∷ []) ∷ []) }
    ensures legal { Legal (merged ((keyless_on 1 ∷ []) ∷ (keyless_on 2 ∷ []) ∷ [])) }
{}
