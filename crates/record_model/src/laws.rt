//! The laws between the definitions.

ghost use Rattle.std.specs.Prelude.{◌≡◌, ◌++◌, ℕ, List, Option, map};
ghost use Rattle.std.specs.List.{AllByRecursion};
ghost use Rattle.bson_model.specs.Tree.{Fields};
ghost use Rattle.history_model.specs.History.{effect, Entry, Operation};
ghost use Rattle.record_model.specs.RecordContents.{IsKnown, KeepEntries};
ghost use Rattle.record_model.specs.Records.{Record, record_of};
ghost use Rattle.record_model.specs.RecordFormat.{IsSound, spelled};

/// Bytes encode one record at most, in the newest format.
#[tactic(auto, using(crate::proofs::OneRecord::one_record))]
pub fn one_record()
    ensures { (a b : Record) → IsSound a → IsSound b → spelled 1 a ≡ spelled 1 b → a ≡ b }
{}

/// Records keep one list of entries at most.
#[tactic(auto, using(crate::proofs::Entries::one_list))]
pub fn one_list()
    ensures { (shard : ℕ) (records : List Record) (entries others : List Entry) → KeepEntries shard records entries → KeepEntries shard records others → entries ≡ others }
{}

/// The records of entries of a shard keep these, where their errors are known, as those of operations are; and records keep
/// what their parts keep.
#[tactic(auto, using(crate::proofs::Entries::own_entries, crate::proofs::Entries::in_parts, crate::proofs::Entries::known_effect))]
pub fn entries_are_kept()
    ensures own { (shard : ℕ) (entries : List Entry) → AllByRecursion (λ e. (e.shard ≡ shard) × IsKnown e.outcome.error) entries → KeepEntries shard (map record_of entries) entries }
    ensures known { (operation : Operation) (before : Option Fields) → IsKnown (effect operation before).1.error }
    ensures parts { (shard : ℕ) (prefix back : List Record) (entries later : List Entry) → KeepEntries shard prefix entries → KeepEntries shard back later → KeepEntries shard (prefix ++ back) (entries ++ later) }
{}
