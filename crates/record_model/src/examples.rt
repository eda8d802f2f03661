//! The definitions on records that one can check by hand.

ghost use Rattle.std.specs.Prelude.{◌≡◌, ◌++◌, ◌∷◌, []};
ghost use Rattle.chunk_model.specs.SampleCollections.{creation};
ghost use Rattle.chunk_model.specs.SampleTables.{moved_table};
ghost use Rattle.chunk_model.specs.Tables.{first_table};
ghost use Rattle.record_model.specs.SampleRecords.{creation_bytes, delete, first_table_bytes, insert, insert_bytes, begun_move, life_bytes, move_bytes, moved_table_bytes, no_entries, records, update};
ghost use Rattle.record_model.specs.RecordContents.{KeepEntries, creates_of};
ghost use Rattle.record_model.specs.Records.{block_record, create_record, life_record, move_start_record, record_of, table_record};
ghost use Rattle.record_model.specs.RecordFormat.{IsSound, spelled};

/// The 25 bytes of a collection that begins, the 78 bytes of an insert, the 10 of a life; and the bytes of tables: the first one of
/// that collection, and one of two chunks, one of which had another owner before; and of the begin of a move.
pub fn spellings()
    ensures creation { spelled 1 (create_record creation) ≡ creation_bytes }
    ensures creation_sound { IsSound (create_record creation) }
    ensures entry { spelled 1 (record_of insert) ≡ insert_bytes }
    ensures first_table { spelled 1 (table_record (first_table creation)) ≡ first_table_bytes }
    ensures first_table_sound { IsSound (table_record (first_table creation)) }
    ensures moved_table { spelled 1 (table_record moved_table) ≡ moved_table_bytes }
    ensures move_begun { spelled 1 (move_start_record begun_move) ≡ move_bytes }
    ensures life { (spelled 1 (life_record 1) ≡ life_bytes) × IsSound (life_record 1) }
    ensures block { spelled 1 (block_record 258) ≡ 0x01 ∷ 0x31 ∷ 0x02 ∷ 0x01 ∷ 0 ∷ 0 ∷ 0 ∷ 0 ∷ 0 ∷ 0 ∷ [] }
{}

/// These records keep the collection and, in order, the insert, the update and the delete, and tables, lives and blocks keep nothing;
/// a shard of another number stores no such entries.
pub fn what_is_kept()
    ensures entries { KeepEntries 1 records (insert ∷ update ∷ delete ∷ []) }
    ensures creates { creates_of records ≡ creation ∷ [] }
    ensures others { KeepEntries 1 (no_entries ++ records) (insert ∷ update ∷ delete ∷ []) }
    ensures no_creates { creates_of (no_entries ++ records) ≡ creation ∷ [] }
    ensures other_shard { KeepEntries 2 records (insert ∷ update ∷ delete ∷ []) → ⊥ }
    ensures in_order { KeepEntries 1 records (update ∷ insert ∷ delete ∷ []) → ⊥ }
{}
