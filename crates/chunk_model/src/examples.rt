//! The definitions on tables that one can check by hand.

ghost use Rattle.std.specs.Prelude.{◌≡◌, [], ◌∷◌, codes, pos, true, false, Some, None};
ghost use Rattle.bson_model.specs.Tree.{int32_value, int64_value};
ghost use Rattle.chunk_model.specs.SampleCollections.{creation};
ghost use Rattle.chunk_model.specs.SampleTables.{lower_chunk, moved_table, other_table, split_at, upper_chunk};
ghost use Rattle.chunk_model.specs.Tables.{chunk_of, chunks_on, collection_version, first_chunk, first_table, is_longer, newest, owner_among, owner_at, owner_now, shard_version, table_of, with_table};
ghost use Rattle.chunk_model.specs.Verdicts.{fits, router_is_old, sent_by, shard_is_old, verdict_of};
ghost use Rattle.chunk_model.specs.Versions.{agrees, greater, is_later, is_greater};

/// A move makes a version differ and a split does not; a later collection of the name is after all versions of an earlier one.
pub fn versions()
    ensures moves { (is_later (record { epoch = 1; major = 2; minor = 0 }) (record { epoch = 1; major = 1; minor = 7 }) ≡ true) × (agrees (record { epoch = 1; major = 2; minor = 0 }) (record { epoch = 1; major = 1; minor = 0 }) ≡ false) }
    ensures splits { (is_later (record { epoch = 1; major = 2; minor = 1 }) (record { epoch = 1; major = 2; minor = 0 }) ≡ false) × (agrees (record { epoch = 1; major = 2; minor = 1 }) (record { epoch = 1; major = 2; minor = 0 }) ≡ true) }
    ensures epochs { (is_later (record { epoch = 2; major = 1; minor = 0 }) (record { epoch = 1; major = 9; minor = 9 }) ≡ true) × (agrees (record { epoch = 2; major = 1; minor = 0 }) (record { epoch = 1; major = 1; minor = 0 }) ≡ false) }
    ensures earlier { is_later (record { epoch = 1; major = 9; minor = 0 }) (record { epoch = 2; major = 1; minor = 0 }) ≡ false }
    ensures greater { (is_greater (record { epoch = 1; major = 2; minor = 1 }) (record { epoch = 1; major = 2; minor = 0 }) ≡ true) × (greater (record { epoch = 1; major = 2; minor = 1 }) (record { epoch = 1; major = 2; minor = 2 }) ≡ record { epoch = 1; major = 2; minor = 2 }) }
    ensures not_by_minor { greater (record { epoch = 1; major = 1; minor = 9 }) (record { epoch = 1; major = 2; minor = 0 }) ≡ record { epoch = 1; major = 2; minor = 0 } }
{}

/// The least key of a chunk is inside and its greatest is not; each chunk has its own owners, now and before.
pub fn owners()
    ensures below { (chunk_of (int32_value (pos 4)) moved_table.chunks ≡ Some lower_chunk) × (owner_now moved_table (int32_value (pos 4)) ≡ Some 1) }
    ensures from { (chunk_of (int64_value (pos 5)) moved_table.chunks ≡ Some upper_chunk) × (owner_now moved_table (int64_value (pos 5)) ≡ Some 2) }
    ensures before { (owner_at moved_table split_at 19 ≡ Some 1) × (owner_at moved_table split_at 20 ≡ Some 2) }
    ensures beginning { (owner_at moved_table split_at 10 ≡ Some 1) × (owner_at moved_table split_at 9 ≡ None) }
    ensures unmoved { (owner_at moved_table (int32_value (pos 4)) 30 ≡ Some 1) × (owner_at moved_table (int32_value (pos 4)) 9 ≡ None) }
    ensures none { (newest [] ≡ None) × (owner_among 5 [] ≡ None) × (owner_now other_table split_at ≡ None) }
{}

/// The version of a table is the greatest of its chunks, that of a shard the greatest of those that it has now, whoever had them
/// before.
pub fn versions_of_tables()
    ensures whole { collection_version moved_table ≡ record { epoch = 1; major = 2; minor = 1 } }
    ensures shards { (shard_version moved_table 1 ≡ record { epoch = 1; major = 2; minor = 1 }) × (shard_version moved_table 2 ≡ record { epoch = 1; major = 2; minor = 0 }) }
    ensures none { (shard_version moved_table 3 ≡ record { epoch = 1; major = 0; minor = 0 }) × (collection_version other_table ≡ record { epoch = 1; major = 0; minor = 0 }) }
    ensures chunks { chunks_on 2 moved_table.chunks ≡ upper_chunk ∷ [] }
    ensures first { (first_table creation).chunks ≡ first_chunk creation ∷ [] }
{}

/// A router with the first table is old for a shard with the moved one, and the other way round the shard is; a router that knows
/// of the move fits, though it does not know of the split.
pub fn verdicts()
    ensures router { verdict_of (sent_by (first_table creation) 1) 1 (Some moved_table) ≡ router_is_old (record { epoch = 1; major = 2; minor = 1 }) }
    ensures shard { verdict_of (sent_by moved_table 2) 2 (Some (first_table creation)) ≡ shard_is_old }
    ensures other_shard { verdict_of (sent_by moved_table 1) 3 (Some moved_table) ≡ router_is_old (record { epoch = 1; major = 2; minor = 1 }) }
    ensures split { verdict_of (record { shard = record { epoch = 1; major = 2; minor = 0 }; collection = record { epoch = 1; major = 2; minor = 0 } }) 1 (Some moved_table) ≡ fits }
{}

/// A table is stored among others under its collection's name, and gives way to one of the same name that has seen more changes alone.
pub fn tables()
    ensures longer { (is_longer moved_table (first_table creation) ≡ true) × (is_longer moved_table moved_table ≡ false) }
    ensures found { (table_of (codes "d.c") (other_table ∷ moved_table ∷ []) ≡ Some moved_table) × (table_of (codes "d.d") (other_table ∷ moved_table ∷ []) ≡ None) }
    ensures added { with_table moved_table (other_table ∷ []) ≡ other_table ∷ moved_table ∷ [] }
    ensures adopted { with_table moved_table (first_table creation ∷ other_table ∷ []) ≡ moved_table ∷ other_table ∷ [] }
    ensures kept { with_table (first_table creation) (other_table ∷ moved_table ∷ []) ≡ other_table ∷ moved_table ∷ [] }
{}
