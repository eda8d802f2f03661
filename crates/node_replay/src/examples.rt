//! The definitions on journals that one can check by hand.

ghost use Rattle.std.specs.Prelude.{◌≡◌, ◌++◌, ◌∷◌, [], Some};
ghost use Rattle.base_model.specs.Times.{timestamp};
ghost use Rattle.chunk_model.specs.Changes.{create_change, split_change};
ghost use Rattle.chunk_model.specs.SampleCollections.{creation};
ghost use Rattle.chunk_model.specs.Tables.{first_table};
ghost use Rattle.history_model.specs.History.{done};
ghost use Rattle.history_model.specs.SampleEntries.{first_entry, second_entry};
ghost use Rattle.record_model.specs.Records.{block_record, catalogue_ceiling_record, ceiling_record, create_record, life_record, move_start_record, record_of, split_record, table_record};
ghost use Rattle.record_model.specs.SampleRecords.{begun_move};
ghost use Rattle.node_replay.specs.Durable.{durable_catalogue, durable_router, durable_shard};
ghost use Rattle.node_replay.specs.Replays.{replayed};
ghost use Rattle.node_replay.specs.SampleJournals.{Refuses, catalogue_journal, of_client, one_entry, one_table, router_journal, shard_journal, split, the_catalogue, the_router, the_shard};

/// What three journals replay to.
pub fn journals_replay()
    ensures catalogue { replayed (Some the_catalogue) catalogue_journal ≡ Some (durable_catalogue (record { me = 0; top = timestamp 1000 2; changes = split_change split ∷ create_change creation ∷ [] })) }
    ensures shard { replayed (Some the_shard) shard_journal ≡ Some (durable_shard (record { me = 1; top = timestamp 1000 3; tables = first_table creation ∷ []; entries = first_entry ∷ second_entry ∷ [] })) }
    ensures router { replayed (Some the_router) router_journal ≡ Some (durable_router (record { me = 2; shards = 1; life = 3; blocks = 2 })) }
{}

/// What may not be the next record of a shard: an entry whose time does not rise, under a number that is stored, with another outcome than its operation
/// has, without a table; of an older transaction; a ceiling that is not above the times, or that comes before every table; a table that is not longer; a
/// record of another kind of node; a part of a move.
pub fn shards_refuse()
    ensures no_table { Refuses the_shard [] (record_of first_entry) }
    ensures time { Refuses the_shard one_entry (record_of (record second_entry { time = timestamp 1000 2 })) }
    ensures number { Refuses the_shard one_entry (record_of (record second_entry { number = first_entry.number })) }
    ensures outcome { Refuses the_shard one_entry (record_of (record second_entry { outcome = done })) }
    ensures older { Refuses the_shard (one_entry ++ record_of (of_client (timestamp 1000 3) 2) ∷ []) (record_of (of_client (timestamp 1000 4) 1)) }
    ensures ceiling { Refuses the_shard one_entry (ceiling_record (timestamp 1000 2)) }
    ensures first_ceiling { Refuses the_shard [] (ceiling_record 1) }
    ensures below_ceiling { Refuses the_shard (one_table ++ ceiling_record (timestamp 1000 2) ∷ []) (record_of first_entry) }
    ensures table { Refuses the_shard one_table (table_record (first_table creation)) }
    ensures creation { Refuses the_shard one_table (create_record creation) }
    ensures part_of_a_move { Refuses the_shard one_table (move_start_record begun_move) }
{}

/// What may not be the next record of the catalogue: a creation of a name that exists, of another epoch than the next, at a time that is not above every
/// one before; a split at a bound, or of a collection that is not there; an entry.
pub fn catalogues_refuse()
    ensures name { Refuses the_catalogue (create_record creation ∷ []) (create_record (record creation { epoch = 2; at = timestamp 1000 2 })) }
    ensures epoch { Refuses the_catalogue [] (create_record (record creation { epoch = 2 })) }
    ensures time { Refuses the_catalogue (catalogue_ceiling_record (timestamp 1000 1) ∷ []) (create_record creation) }
    ensures bound { Refuses the_catalogue catalogue_journal (split_record (record split { at = timestamp 1000 3 })) }
    ensures absent { Refuses the_catalogue [] (split_record split) }
    ensures entry { Refuses the_catalogue [] (record_of first_entry) }
{}

/// What may not be the next record of a router: a life or a block that is not the next, a block before the first life, a table.
pub fn routers_refuse()
    ensures second_life { Refuses the_router [] (life_record 2) }
    ensures same_life { Refuses the_router (life_record 1 ∷ []) (life_record 1) }
    ensures second_block { Refuses the_router (life_record 1 ∷ []) (block_record 1) }
    ensures no_life { Refuses the_router [] (block_record 0) }
    ensures table { Refuses the_router [] (table_record (first_table creation)) }
{}
