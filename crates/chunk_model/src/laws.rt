//! The laws of tables.

ghost use Rattle.std.specs.Prelude.{◌≡◌, ◌↔◌, ◌≤◌, ℕ, Some, None, true};
ghost use Rattle.value_model.specs.Keys.{is_key};
ghost use Rattle.bson_model.specs.Tree.{Datum};
ghost use Rattle.chunk_model.specs.Catalogue.{Creation};
ghost use Rattle.chunk_model.specs.Tables.{Table, first_shard, first_table, owner_at, owner_now};
ghost use Rattle.chunk_model.specs.Verdicts.{Sent, fits, sent_by, shard_is_old, verdict_of};

/// A collection's first table names no owner but the first shard, and none before the collection was created; it gives every key to
/// that shard, from just then on.
#[tactic(auto, using(crate::proofs::FirstTables::only_now, crate::proofs::FirstTables::only_at, crate::proofs::FirstTables::every_key, crate::proofs::FirstTables::every_key_at))]
pub fn first_tables()
    ensures now { (c : Creation) (key : Datum) (shard : ℕ) → owner_now (first_table c) key ≡ Some shard → shard ≡ first_shard }
    ensures at { (c : Creation) (key : Datum) (time shard : ℕ) → owner_at (first_table c) key time ≡ Some shard → (shard ≡ first_shard) × (c.at ≤ time) }
    ensures keys { (c : Creation) (key : Datum) → is_key key ≡ true → owner_now (first_table c) key ≡ Some first_shard }
    ensures keys_at { (c : Creation) (key : Datum) (time : ℕ) → is_key key ≡ true → (owner_at (first_table c) key time ≡ Some first_shard) ↔ (c.at ≤ time) }
{}

/// What a router sends along fits where the shard that it sends to has the router's table, whatever shard and table it is; and where
/// that has none it is the shard that is old.
#[tactic(auto, using(crate::proofs::OwnTables::own_table))]
pub fn own_table_fits()
    ensures own { (table : Table) (shard : ℕ) → verdict_of (sent_by table shard) shard (Some table) ≡ fits }
    ensures none { (sent : Sent) (shard : ℕ) → verdict_of sent shard None ≡ shard_is_old }
{}
