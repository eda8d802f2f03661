//! The laws of merged journals.

ghost use Rattle.std.specs.Prelude.{◌≡◌, ◌<◌, ◌++◌, ◌∷◌, ℕ, List, [], Option, Some, None, Bool, false, true, filter, map, nat_le};
ghost use Rattle.std.specs.List.{AllByRecursion, flat_map};
ghost use Rattle.std.specs.List.Sorted.{IsPermutation};
ghost use Rattle.bson_model.specs.Tree.{Datum};
ghost use Rattle.history_model.specs.History.{Entry, IsIn, Legal, document_at, key_written, writes_to};
ghost use Rattle.history_laws.specs.Extended.{Extends, GoOn};
ghost use Rattle.history_laws.specs.Merged.{AreApart, AreJournalsOf, IsJournalOf, IsOneMore, IsRising, ShareNoKey, WriteNone, merged};

/// Legal journals of shards that differ, where no key of a namespace is written in two of them, merge to a legal history.
pub fn merged_is_legal()
    ensures { (shards : List ℕ) (journals : List (List Entry)) → AreJournalsOf shards journals → AllByRecursion (λ journal. Legal journal) journals
        → AreApart journals → Legal (merged journals) }
{}

/// Entries that rise are a legal history where the entries of each key of a namespace are one, and each entry without a key is one alone. So a history is
/// judged key by key, in however many journals a key has entries.
pub fn legal_by_keys()
    ensures { (history : List Entry) → IsRising history → ((e : Entry) → IsIn e history → key_written e.operation ≡ None → Legal (e ∷ []))
        → ((namespace : List ℕ) (key : Datum) → Legal (filter (λ e. writes_to namespace (Some key) e) history)) → Legal history }
{}

/// Merged entries rise, and are the same whichever of the journals is taken first.
pub fn merged_is_rising()
    ensures rising { (shards : List ℕ) (journals : List (List Entry)) → AreJournalsOf shards journals → IsRising (merged journals) }
    ensures any_first { (shards : List ℕ) (before after : List (List Entry)) (journal : List Entry) → AreJournalsOf shards (before ++ journal ∷ after)
        → merged (before ++ journal ∷ after) ≡ merged (journal ∷ (before ++ after)) }
{}

/// Merged entries are those of the journals, each as often, and those that pass a test are merged from those of each journal that pass it. Of a key that no
/// other journal writes, the entries and the documents are those of its journal.
pub fn merged_keeps_each()
    ensures entries { (journals : List (List Entry)) → IsPermutation (flat_map (λ journal. journal) journals) (merged journals) }
    ensures found { (e : Entry) (before after : List (List Entry)) (journal : List Entry) → IsIn e journal → IsIn e (merged (before ++ journal ∷ after)) }
    ensures own { (e : Entry) (journals : List (List Entry)) → IsIn e (merged journals) → (journal : List Entry) × IsIn journal journals × IsIn e journal }
    ensures kept { (test : Entry → Bool) (shards : List ℕ) (journals : List (List Entry)) → AreJournalsOf shards journals
        → filter test (merged journals) ≡ merged (map (λ journal. filter test journal) journals) }
    ensures writes { (namespace : List ℕ) (key : Option Datum) (before after : List (List Entry)) (journal : List Entry) → IsRising journal
        → WriteNone namespace key (before ++ after)
        → filter (λ e. writes_to namespace key e) (merged (before ++ journal ∷ after)) ≡ filter (λ e. writes_to namespace key e) journal }
    ensures documents { (namespace : List ℕ) (key : Option Datum) (time : ℕ) (before after : List (List Entry)) (journal : List Entry) → IsRising journal
        → WriteNone namespace key (before ++ after)
        → document_at (merged (before ++ journal ∷ after)) namespace key time ≡ document_at journal namespace key time }
    ensures others { (namespace : List ℕ) (key : Option Datum) (e : Entry) (before after : List (List Entry)) (journal : List Entry)
        → AreApart (before ++ journal ∷ after) → IsIn e journal → writes_to namespace key e ≡ true → WriteNone namespace key (before ++ after) }
{}

/// One journal alone is its own history, and a journal without entries adds nothing.
pub fn one_journal()
    ensures alone { (journal : List Entry) → IsRising journal → merged (journal ∷ []) ≡ journal }
    ensures empty { (journals : List (List Entry)) → merged ([] ∷ journals) ≡ merged journals }
{}

/// With one more entry at the end of a journal the merged entries are those before with this one among them. So all entries stay, and so do the documents under
/// the keys that it does not write, at each time, and those under all keys at times before its own. With any more entries, documents stay at a time up to which
/// each journal has the same entries.
pub fn grows()
    ensures one_more { (shards : List ℕ) (before after : List (List Entry)) (journal : List Entry) (e : Entry)
        → AreJournalsOf shards (before ++ (journal ++ e ∷ []) ∷ after)
        → IsOneMore e (merged (before ++ journal ∷ after)) (merged (before ++ (journal ++ e ∷ []) ∷ after)) }
    ensures stay { (e d : Entry) (entries more : List Entry) → IsOneMore e entries more → IsIn d entries → IsIn d more }
    ensures other_keys { (namespace : List ℕ) (key : Option Datum) (time : ℕ) (e : Entry) (entries more : List Entry) → IsOneMore e entries more
        → writes_to namespace key e ≡ false → document_at more namespace key time ≡ document_at entries namespace key time }
    ensures earlier { (namespace : List ℕ) (key : Option Datum) (time : ℕ) (e : Entry) (entries more : List Entry) → IsOneMore e entries more
        → time < e.time → document_at more namespace key time ≡ document_at entries namespace key time }
    ensures until { (namespace : List ℕ) (key : Option Datum) (time : ℕ) (shards more : List ℕ) (journals later : List (List Entry))
        → AreJournalsOf shards journals → AreJournalsOf more later
        → map (λ journal. filter (λ e. nat_le e.time time) journal) journals ≡ map (λ journal. filter (λ e. nat_le e.time time) journal) later
        → document_at (merged journals) namespace key time ≡ document_at (merged later) namespace key time }
{}

/// Where each journal goes on with entries above a bound of its shard, the merged list keeps what it had, in its order; and each new entry comes after all that
/// its shard had stored.
pub fn journals_go_on()
    ensures { (bound : ℕ → ℕ) (shards : List ℕ) (journals laters : List (List Entry)) → GoOn (λ e. bound e.shard < e.time) journals laters
        → AreJournalsOf shards laters → Extends (λ e. bound e.shard < e.time) (merged journals) (merged laters) }
{}

/// A legal history of entries of one shard is a journal of that shard.
pub fn legal_journals()
    ensures { (shard : ℕ) (journal : List Entry) → AllByRecursion (λ e. e.shard ≡ shard) journal → Legal journal → IsJournalOf shard journal }
{}

/// Entries share no key where none of the one writes the key that one of the other writes.
pub fn apart_by_entries()
    ensures { (some others : List Entry)
        → AllByRecursion (λ d. AllByRecursion (λ e. writes_to d.namespace (key_written d.operation) e ≡ false) others) some → ShareNoKey some others }
{}
